//! Laws of calls that become literals of their functions.

ghost use Rattle.literal_steps.specs.Laws.{AlikeChangesAreAlike, CallsMeanTheirLiterals};
ghost use Rattle.literal_steps.specs.Laws.{DeferredCallsMeanTheirLiterals, FunctionsAreFirst};
ghost use Rattle.literal_steps.specs.Laws.{LiteralsAreTypedAlike, LiteralsHaveNoObstacle};
ghost use Rattle.literal_steps.specs.Laws.{NamesThatAreThereServe, NothingElseIsMeant};
ghost use Rattle.literal_steps.specs.Laws.{NothingMoreIsAskedAtHome, TypedBodiesAreWritten};
ghost use Rattle.literal_steps.specs.Laws.{TypedPartsStand};

/// In a typed body each part that the walk lists is typed where it stands; so a body in which
/// nothing stands in the way of a use, and whose packages have names that serve there, is what may
/// be written for itself at the use. Within the function's package nothing more is asked; what
/// means nothing at the top of a file to a run means nothing to typing.
pub fn typed_bodies_are_written()
    ensures parts { TypedPartsStand }
    ensures written { TypedBodiesAreWritten }
    ensures home { NothingMoreIsAskedAtHome }
    ensures nothing { NothingElseIsMeant }
{}

/// A use that becomes a literal has no obstacle; changes that are equal but for spans make of a
/// body what is equal but for spans; and a name that means a function is declared by its header,
/// the first of the package with the name.
pub fn literals_have_no_obstacle()
    ensures obstacle { LiteralsHaveNoObstacle }
    ensures spans { AlikeChangesAreAlike }
    ensures first { FunctionsAreFirst }
{}

/// Where a literal needs no import that isn't there, the names that a run finds for its packages
/// serve at the use: nothing in the function declares them, nothing around the use does, and they
/// mean these packages.
pub fn names_there_serve()
    ensures serves { NamesThatAreThereServe }
{}

/// In well-typed packages a call of a function, plainly or by an import's name, in whose way
/// nothing stands, is typed as the literal that the run writes for it, and means it under free
/// prices; deferred, it means the deferred literal.
pub fn calls_mean_their_literals()
    ensures typed { LiteralsAreTypedAlike }
    ensures meaning { CallsMeanTheirLiterals }
    ensures deferred { DeferredCallsMeanTheirLiterals }
{}
