//! Laws of the names that constant expressions use.

ghost use Rattle.statement_walk.specs.Basic.{BasicsUseAlike, ConstantsAreBasic};

/// A constant expression holds no composite literal and no function literal, and the names that such an
/// expression uses are the same whatever names mean (Go specification, Constant expressions; Declarations
/// and scope).
pub fn constants_use_alike()
    ensures constants { ConstantsAreBasic }
    ensures uses { BasicsUseAlike }
{}
