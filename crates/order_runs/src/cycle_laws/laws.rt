//! Laws of the calls of marked functions where a step puts something.

ghost use Rattle.order_runs.specs.CycleLaws.Laws.{BodiesCallAlike, DeclarationsCallAlike, ExpressionsCallAlike};
ghost use Rattle.order_runs.specs.CycleLaws.Laws.{NamesCallAlike, NamesNameNoFunction, QualifiedNameNoFunction};
ghost use Rattle.order_runs.specs.CycleLaws.Laws.{SameNamesReadAlike, StepsGiveWay, StepsKeepMarksOnCycles};

/// Where all that the replacing walk puts has the same facts and calls the marked functions that stood
/// there, but that one gives way to what it leads to, so with what the walk makes of a part.
pub fn walks_keep_calls()
    ensures expressions { ExpressionsCallAlike }
    ensures bodies { BodiesCallAlike }
    ensures declarations { DeclarationsCallAlike }
{}

/// A use of a constant or of an alias names no function, and two expressions that name none call alike
/// wherever one is put for the other.
pub fn names_call_alike()
    ensures names { NamesNameNoFunction }
    ensures qualified { QualifiedNameNoFunction }
    ensures put { NamesCallAlike }
{}

/// Programs that declare the same, and in whose files names mean the same, read calls alike. Where they
/// do, a step that puts in a use's place what has the same facts and calls what stood there, but that
/// what was used gives way to what it leads to, meets what keeps cycles.
pub fn steps_give_way()
    ensures reads { SameNamesReadAlike }
    ensures gives_way { StepsGiveWay }
    ensures kept { StepsKeepMarksOnCycles }
{}
