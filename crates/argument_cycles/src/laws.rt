//! Laws of calls whose arguments take the places of parameters.

ghost use Rattle.argument_cycles.specs.Laws as law;
ghost use Rattle.argument_cycles.specs.Callees as callee;
ghost use Rattle.argument_cycles.specs.NamesAlone as alone;
ghost use Rattle.argument_cycles.specs.Stays as stay;
ghost use Rattle.argument_cycles.specs.FreeSteps as step;

/// Where a call becomes the one expression of its function or method, no obstacle stands in its way: so what
/// the expression calls by a name, alone or behind a package's name, is at the call the marked function that
/// it is in the body. A package's name that serves there, as literal_steps has it, means the package, and
/// what means a type there names no function. What is written for a parameter calls what the call does; an
/// argument that the body doesn't use calls nothing, since it doesn't act.
pub fn arguments_are_put()
    ensures callees { law.CalleesKeepNames }
    ensures served { law.ServedNamesMeanPackages }
    ensures types { law.TypesNameNoFunction }
    ensures arguments { law.ArgumentsAreCalled }
    ensures unused { law.UnusedArgumentsCallNothing }
{}

/// So the expression calls what the call did, but that the function gives way to what it leads to: each
/// argument takes its parameter's place, and is called still if the body uses the parameter.
pub fn placed_arguments_call_through()
    ensures { law.PlacedArgumentsCallThrough }
{}

/// So a step that puts such an expression in a function, or assigns it to `_`, and adds no import keeps which
/// marked functions lie on a cycle, where the files of the program read from their texts, what is called
/// around it names what it named, and statements declare what they declared. It puts an expression as
/// literal_cycles has it, so runs of such steps and of its own keep cycles too.
pub fn placed_steps_keep_cycles()
    ensures kept { law.PlacedStepsKeepCycles }
    ensures puts { law.PlacedStepsPutExpressions }
{}

/// Where a call becomes a block or a tail, in which some arguments may take the places of parameters and the
/// rest is bound first, the statements call only what the call did or what the function leads to. It is
/// asked by names alone: at no place inside names what is called in the body a marked function that the
/// function doesn't lead to, nor an argument one that the call doesn't call.
pub fn placed_blocks_come_through()
    ensures { law.PlacedBlocksComeThrough }
{}

/// So a step that puts such statements in a function and adds no import keeps which marked functions lie on
/// a cycle, where what the receiver and the arguments call is called still, and what is around stays.
pub fn placed_block_steps_keep_cycles()
    ensures puts { law.PlacedBlocksArePut }
    ensures kept { law.PlacedBlockStepsKeepCycles }
{}

/// Where a call becomes a literal of its function, in which some arguments may take the places of parameters
/// and the others stay the literal's, the literal calls only what the call did or what the function leads
/// to: asked by names alone, as of statements in braces.
pub fn placed_literals_come_through()
    ensures { law.PlacedLiteralsComeThrough }
{}

/// So a step that puts such a literal in a function and adds no import keeps which marked functions lie on a
/// cycle, where what the receiver and the arguments call is called still, and what is around stays.
pub fn placed_literal_steps_keep_cycles()
    ensures puts { law.PlacedLiteralsArePut }
    ensures kept { law.PlacedLiteralStepsKeepCycles }
{}

/// Inside, where at least what is declared around the use is declared, a name that is called names what it
/// does at the use, or nothing; an expression that calls by names alone calls at most what it does there. So
/// what is asked by names of statements in braces and of literals is asked of such names at the use alone; and
/// where the function declares none of the names, such an argument calls within what it does at the use.
pub fn names_name_no_more_inside()
    ensures names { alone.NamesInside }
    ensures expressions { alone.ExpressionsInside }
    ensures arguments { alone.ArgumentsByNames }
    ensures kept { alone.ArgumentsKept }
{}

/// Where a call becomes a block, a tail, a literal or an expression, no obstacle stands in its way: so what the
/// body calls by a name, alone or behind a package's name, names within the braces no marked function, or one
/// that the function leads to. What the form declares there are names that the function itself declares, and
/// they shadow nothing that they don't shadow in the body. A method that is called is such if the function leads
/// to each marked declaration of its name, and what is written before its dot is no package.
pub fn callees_are_led()
    ensures callees { callee.CalleesAreLed }
    ensures methods { callee.MethodsAreLed }
    ensures served { callee.ServedNamesMeanThere }
{}

/// Where each argument calls within what it does at the call, what the receiver and the arguments call is called
/// still by the statements in braces or by the literal that the call becomes, or is the function: each argument
/// is bound in the first statement, or is the literal's own, or stands where the body uses its parameter; where
/// the body doesn't use it, it calls nothing.
pub fn arguments_stay()
    ensures blocks { stay.BlocksKeepArguments }
    ensures literals { stay.LiteralsKeepArguments }
{}

/// So a step over an unobstructed call that puts a block, a tail or a literal with arguments in the places of
/// parameters, and adds no import, keeps which marked functions lie on a cycle: asked is what the body's callees
/// and the arguments mean, and what is asked of what is around the use.
pub fn free_steps_keep_cycles()
    ensures blocks_placed { step.BlocksArePlaced }
    ensures literals_placed { step.LiteralsArePlaced }
    ensures blocks { step.FreeBlockStepsKeepCycles }
    ensures literals { step.FreeLiteralStepsKeepCycles }
{}
