//! Laws of methods by the types of what stands before their dots.

ghost use Rattle.argument_cycles.specs.TypedMethods.Arguments as arguments;
ghost use Rattle.argument_cycles.specs.TypedMethods.Laws as law;

/// What is called behind a dot, no package before it, is a method wherever the body is written: so it names no
/// function without a receiver, and nothing else is asked of it in the body. In well-typed packages all else
/// that the body calls by names is declared outside the function.
pub fn methods_are_apart()
    ensures methods { law.MethodsAreApart }
    ensures bodies { law.TypedBodiesAreApart }
{}

/// Arguments that call by names, alone or behind dots, call inside at most what the call does, or methods; and
/// within they call the functions without receivers that they call at the call, if the function declares none
/// of these names.
pub fn arguments_are_apart()
    ensures among { arguments.ArgumentsAreApart }
    ensures kept { arguments.ArgumentsKeepFunctions }
{}

/// So statements in braces, or a literal, call only what the call did or what the function leads to, if that is
/// so of the marked methods that they call at the use: which these are, types there say. Another marked method
/// of the same name is no matter.
pub fn typed_methods_come_through()
    ensures blocks { law.TypedMethodsBlocksCome }
    ensures literals { law.TypedMethodsLiteralsCome }
{}

/// So a step that puts them and adds no import puts in the function around the use what calls through, and
/// keeps which marked functions lie on a cycle.
pub fn typed_method_steps_keep_cycles()
    ensures blocks_put { law.TypedMethodsBlocksArePut }
    ensures literals_put { law.TypedMethodsLiteralsArePut }
    ensures blocks { law.TypedMethodsBlockStepsKeepCycles }
    ensures literals { law.TypedMethodsLiteralStepsKeepCycles }
{}
