//! Laws of steps in each form.

ghost use Rattle.literal_cycles.specs.FormCycles.Laws as law;

use order_runs::cycle_runs::packages_stay_linked;

/// A step in the body of a function, whatever its form is, leaves what the packages declare as it was, and
/// with its imports added and its form put at once its file is one with these imports.
/// So it keeps which marked functions lie on a cycle, if the function calls what it called, but that
/// what was used gives way to what it leads to. What is put for a call is no type; so a step over a call
/// keeps cycles too that puts an expression, which calls what stood there or what the called function
/// calls, and has the facts of what stood there.
pub fn body_steps_keep_cycles()
    ensures declared { law.BodyStepsDeclareTheSame }
    ensures imports { law.BodyStepsHaveImports }
    ensures settled { law.BodyStepsSettleImports }
    ensures kept { law.BodyStepsKeepCycles }
    ensures calls { law.CallStepsChangeBodies }
    ensures expressions { law.ExpressionStepsKeepCycles }
{}

/// Where what a form puts calls what stood there or what the called function calls, what is called around
/// it names what it named, and statements declare what they declared, a body calls what it called, but
/// that what was used gives way; so a step over a call that puts such a form keeps which marked functions
/// lie on a cycle, be it an expression, an assignment to `_`, a block, a tail or a literal.
pub fn bodies_give_way()
    ensures bodies { law.BodiesGiveWay }
    ensures kept { law.CallStepsKeepCycles }
{}

/// Statements in braces that bind the arguments of a call and hold the body of the function or method
/// that it names, put for a statement that is the call or returns it, call what the function leads to and
/// what the receiver and the arguments do, and nothing else; so does a called literal with that body. So a
/// step that puts one of these keeps which marked functions lie on a cycle.
pub fn functions_call_through()
    ensures blocks { law.BlocksCallThrough }
    ensures literals { law.LiteralsCallThrough }
    ensures kept { law.FunctionStepsKeepCycles }
{}

/// From files that read as a module, so does each run of such steps, and of steps whose forms have the
/// facts of what stood there.
pub fn runs_keep_cycles()
    ensures { law.RunsKeepCycles }
{
    packages_stay_linked();
}
