//! The law of reports over several files.

ghost use Rattle.report_order.specs.Laws.{RowsJoin, RowsMakeReport};

/// Where the rows tell what the entries of a report do, in their order and each of its file, the lines are those of the
/// report. Rows are put together as entries are.
pub fn rows_make_the_report()
    ensures report { RowsMakeReport }
    ensures join { RowsJoin }
{}
