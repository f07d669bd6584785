//! The laws of steps and right tables.

ghost use Rattle.kept_types.specs.Laws as law;

/// In well-typed packages a step over a constant that is declared as a name leaves a table right that has the types of
/// the program before it (`steps`), and so does a run of such steps (`runs`).
pub fn typed_steps_keep_tables()
    ensures steps { law.StepsKeepTables }
    ensures runs { law.RunsKeepTables }
{}
