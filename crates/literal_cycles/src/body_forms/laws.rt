//! Laws of calls that become bodies.

ghost use Rattle.literal_cycles.specs.BodyForms.Laws as law;

/// In well-typed packages what a call of a function without parameters becomes, in the function's own
/// package or in another one, calls the marked functions that the function leads to, and nothing else.
pub fn bodies_call_through()
    ensures blocks { law.BlocksCallTheirFunctions }
    ensures expressions { law.ExpressionsCallTheirFunctions }
    ensures through { law.ExpressionsCallThrough }
{}

/// What a call of a function or method becomes with its arguments in the places of parameters, as an
/// expression without literals of functions and composite types, or assigned to `_`, calls only what the
/// call did or what the function leads to, where what is called in it names what it named.
pub fn arguments_come_through()
    ensures { law.ArgumentsComeThrough }
{}

/// So does a block or a tail that binds the arguments of a call of a function with parameters first, where
/// no argument takes its parameter's place: what is put for the statement that is the call, or returns it,
/// calls what that did, but that the function gives way to what it leads to.
pub fn bound_blocks_call_through()
    ensures { law.BoundBlocksCallThrough }
{}

/// So a step that puts such a body in a function and adds no import keeps which marked functions lie on a
/// cycle, where the files of the program read from their texts, what is called around it names what it
/// named, and statements declare what they declared.
pub fn steps_to_bodies_keep_cycles()
    ensures callees { law.CalleesStayAround }
    ensures puts { law.BodiesArePut }
    ensures kept { law.StepsToBodiesKeepCycles }
    ensures bound { law.BoundBlocksArePut }
    ensures bound_kept { law.StepsToBoundBlocksKeepCycles }
    ensures expressions { law.ExpressionsArePut }
    ensures expressions_kept { law.StepsToExpressionsKeepCycles }
{}
