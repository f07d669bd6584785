//! The law of calls in texts.

ghost use Rattle.put_nodes.specs.NamesApart.Laws.{CallsStandBeforeNoDot};

/// In a text of a file in which no selector stands on an integer literal, no dot stands directly behind what is called.
pub fn calls_stand_before_no_dot()
    ensures { CallsStandBeforeNoDot }
{}
