//! What follows of tables that are ready.

ghost use Rattle.operand_modes.specs.CheckerTables.Laws.{MethodsHaveValueTypes, PartsFollow, ReadyStays, SelectedHasValueTypes};
ghost use Rattle.operand_modes.specs.CheckerTables.Laws.{ValueTypesAreThere};

/// In a table of types of values the parts of each type are types of values, and so are the types of
/// methods; tables that are ready stay so when types of values are added.
pub fn premises_follow()
    ensures parts { PartsFollow }
    ensures methods { MethodsHaveValueTypes }
    ensures selected { SelectedHasValueTypes }
    ensures there { ValueTypesAreThere }
    ensures ready { ReadyStays }
{}
