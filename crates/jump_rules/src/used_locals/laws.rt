//! What is known of names whose scopes begin and end.

ghost use Rattle.jump_rules.specs.UsedLocals.Laws.{BlanksAreSkipped, NamesAreAmong, ScopesEnd, ScopesPass};
ghost use Rattle.jump_rules.specs.UsedLocals.Walked.{BlocksBegin, BlocksEnd, PartsDeclare, PartsUse};

/// Where the scopes of distinct names begin in a block and more names are used, the block's names pass
/// where those before them pass and the new ones are used, if they must be; and where the scopes end, the
/// names that are used are those that aren't declared there.
pub fn scopes_begin_and_end()
    ensures pass { ScopesPass }
    ensures end { ScopesEnd }
    ensures blanks { BlanksAreSkipped }
    ensures among { NamesAreAmong }
{}

/// What is known of a block whose parts are walked one by one, while they use and declare names.
pub fn blocks_are_walked()
    ensures begin { BlocksBegin }
    ensures uses { PartsUse }
    ensures declares { PartsDeclare }
    ensures end { BlocksEnd }
{}
