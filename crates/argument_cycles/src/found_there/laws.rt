//! Laws of uses whose steps add imports.

ghost use Rattle.argument_cycles.specs.FoundThere.Laws as law;

/// With the imports of its form added to its file, the call that a step replaces stands where it stood and calls
/// the same function, each package has there the name that it has in the form, and the call becomes the form that
/// the step puts, an expression, statements or a literal: its arguments are given and chosen as they were, nothing
/// new is in the way, and what the body calls has the same marks. Asked is that packages have names of their own,
/// as in each program of a run.
pub fn added_imports_keep_forms()
    ensures stands { law.CallsStandThere }
    ensures names { law.PackagesKeepNames }
    ensures forms { law.CallsBecomeTheSame }
{}

/// So steps that add imports needn't be asked for what the use becomes with them.
pub fn found_steps_put_their_forms()
    ensures blocks { law.FoundBlocksAreAdded }
    ensures literals { law.FoundLiteralsAreAdded }
    ensures expressions { law.FoundExpressionsAreAdded }
{}
