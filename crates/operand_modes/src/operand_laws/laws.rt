//! Laws of rules that see operands alike.

ghost use Rattle.operand_modes.specs.OperandLaws.Laws.{AnswersGiven, BinarySeesAlike, ConversionSeesAlike};
ghost use Rattle.operand_modes.specs.OperandLaws.Laws.{FittingSeesAlike, IndexSeesAlike, SliceSeesAlike, UnarySeesAlike};

/// Where a value may stand, what it is converted to, and indices and slices of it.
pub fn values_see_alike()
    ensures fits { FittingSeesAlike }
    ensures index { IndexSeesAlike }
    ensures slice { SliceSeesAlike }
    ensures conversion { ConversionSeesAlike }
{}

/// What operators give; and that an answer that is given is given of what is seen alike.
pub fn operators_see_alike()
    ensures binary { BinarySeesAlike }
    ensures unary { UnarySeesAlike }
    ensures given { AnswersGiven }
{}
