//! Laws of steps over calls that add imports.

ghost use Rattle.argument_cycles.specs.ImportingSteps.Laws as law;

/// Where the use becomes the step's form still with the imports of the form added, what is put in the
/// function around it calls through: asked are in the program with these imports the same facts that are
/// asked of a step which adds none. Nothing else in the body has the use's span, as its text says.
pub fn added_steps_put_through()
    ensures blocks { law.AddedBlocksArePut }
    ensures literals { law.AddedLiteralsArePut }
    ensures expressions { law.AddedExpressionsArePut }
{}

/// So such a step in a function keeps which marked functions lie on a cycle.
pub fn added_steps_keep_cycles()
    ensures blocks { law.AddedBlockStepsKeepCycles }
    ensures literals { law.AddedLiteralStepsKeepCycles }
    ensures expressions { law.AddedExpressionStepsKeepCycles }
{}
