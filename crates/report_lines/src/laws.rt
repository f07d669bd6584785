//! Laws of the lines of a report.

ghost use Rattle.report_lines.specs.Laws.{ReportHasTheseLines};

/// What a report says of one file are the lines of its entries there.
pub fn report_has_these_lines()
    ensures { ReportHasTheseLines }
{}
