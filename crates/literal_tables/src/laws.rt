//! Laws of right tables of declared types.

ghost use Rattle.literal_tables.specs.Laws as law;

/// A right table stays right where names mean the same types and these are defined alike (`types`), where the same is
/// found of packages in another order (`worlds`), and with other spans (`standing`).
pub fn right_tables_stay()
    ensures types { law.SameTypesKeepTables }
    ensures worlds { law.SameWorldsKeepTables }
    ensures standing { law.StandingTablesAreRight }
{}
