//! Laws of the calls of literals that stand for calls, from the use.

ghost use Rattle.literal_cycles.specs.Laws as law;

use order_runs::cycle_runs::packages_stay_linked;

/// In well-typed packages the literal that a plain call becomes, deferred or not, in the function's own
/// package or in another one, calls the marked functions that the function leads to and those that the
/// call's arguments do, and nothing else. So what the call did is called still, but that the function
/// gives way to what it leads to.
pub fn literals_call_through()
    ensures calls { law.LiteralsCallTheirFunctions }
    ensures through { law.LiteralsCallThrough }
{}

/// The use of a function that a step takes stands in a function or method, or in a declaration of
/// constants or variables: what declares types calls nothing. Names around a use that aren't local mean
/// what they do at the top of its file, as literal_steps asks of a call.
pub fn uses_stand_in_functions()
    ensures functions { law.UsesStandInFunctions }
    ensures places { law.UsesStandInTheirFiles }
{}

/// So a step that puts such a literal in a function and adds no import keeps which marked functions lie on
/// a cycle, where the files of the program read from their texts, what stands before the dot of a method
/// has the type that it had, and statements declare what they declared.
pub fn literal_steps_keep_cycles()
    ensures callees { law.CalleesStay }
    ensures puts { law.LiteralsArePutInBodies }
    ensures kept { law.LiteralStepsKeepCycles }
{}

/// So does each run of such steps, of steps that put bodies as body_forms has it, and of steps that give
/// way as form_cycles has it, from files that read as a module.
pub fn literal_runs_keep_cycles()
    ensures { law.RunsKeepCycles }
{
    packages_stay_linked();
}
