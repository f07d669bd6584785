//! The laws of the imports that a step removes.

ghost use Rattle.constant_modules.specs.LookUps.Laws as law;

/// A step removes imports that its file used before it and doesn't use with the form in its place (`unused`); those
/// that stay are used then, if they were (`stay`). Each name that a declaration looks up is that of a part around which
/// nothing declares it, or stands beside (`parts`). So no import that goes has a name that the file as it is read again
/// looks up, if none has one that stands beside (`look_ups`): whatever the declarations are, and whatever is used (Go
/// specification, Import declarations; Declarations and scope; Composite literals).
pub fn steps_remove_no_look_ups()
    ensures unused { law.RemovedImportsAreUnused }
    ensures stay { law.ImportsThatStayAreUsed }
    ensures parts { law.LookedUpNamesStand }
    ensures look_ups { law.StepsRemoveNoLookUps }
{}

/// In a well-typed program each import but `_` is looked up in its file (`looked`): each name that typing counts as
/// used in a declaration is a free name of it. So the file uses each, as run_rules has it, whose name isn't one that
/// stands beside (`used`), and after a step, with the form in its place, each of these that stays (`stay`) (Go
/// specification, Import declarations; Declarations and scope).
pub fn typed_imports_are_looked_up()
    ensures looked { law.TypedImportsAreLookedUp }
    ensures used { law.TypedImportsAreUsed }
    ensures stay { law.StepsLeaveImportsUsed }
{}
