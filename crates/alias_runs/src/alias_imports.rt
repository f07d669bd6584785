//! Laws of imports after a step over an alias.

ghost use Rattle.alias_runs.specs.AliasImportsLaws.Laws.{ImportsStayRight, StepsKeepTheMeaning};

/// After a step over a use of an alias, as a written type or as an expression, in well-typed packages,
/// the imports of all files are right, if the file of the use still uses its own (`right`): other
/// files use what they used. So the packages after the step mean what those before do (`meaning`).
pub fn imports_stay_right()
    ensures right { ImportsStayRight }
    ensures meaning { StepsKeepTheMeaning }
{}
