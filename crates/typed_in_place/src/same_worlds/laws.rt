//! Laws of worlds in which the same is found.

ghost use Rattle.typed_in_place.specs.SameWorlds.Laws.{BodiesSame, DeclarationsSame, OperandsSame, PlacesSame};
ghost use Rattle.typed_in_place.specs.SameWorlds.Laws.{OrdersDeclareTheSame, UsesSame};

/// Typing reads a world by look-ups alone: of defined types by their packages and names, and of
/// package blocks by the numbers of their packages.
pub fn typing_finds_the_same()
    ensures operands { OperandsSame }
    ensures places { PlacesSame }
    ensures uses { UsesSame }
    ensures declarations { DeclarationsSame }
    ensures bodies { BodiesSame }
{}

/// In whatever order the packages of a program stand, what they declare is found the same.
pub fn orders_declare_the_same()
    ensures { OrdersDeclareTheSame }
{}
