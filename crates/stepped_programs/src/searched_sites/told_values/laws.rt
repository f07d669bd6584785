//! The law of values that are told.

ghost use Rattle.stepped_programs.specs.SearchedSites.ToldValues.Laws.{ValuesAreTold};

use repeated_parts::use_search::mark_values::tables_tell_values;

/// Where a table was made of packages as they stand, and a marked constant is declared as a name, or as a name of a
/// package of the program, the table tells that, as searched_sites asks (Go specification, Constant declarations;
/// Qualified identifiers).
pub fn values_are_told()
    ensures { ValuesAreTold }
{
    tables_tell_values();
}
