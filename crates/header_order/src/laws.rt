//! Laws of refused headers.

ghost use Rattle.header_order.specs.Laws.{CountsAreAll, CountsOfModules, HeadersByFiles, MarksAreWrongs, MarksByFiles};

use pkg_graph::one_order_at_most;

/// The headers that are refused by their kinds are those that aren't right once methods are known too.
pub fn marks_are_wrongs()
    ensures { MarksAreWrongs }
{}

/// The first header of each file that is refused is the first mark among its headers, and with the first
/// imports that are refused they say what go_types names of a package.
pub fn headers_by_files()
    ensures marks { MarksByFiles }
    ensures packages { HeadersByFiles }
    ensures all { CountsAreAll }
{}

/// How many headers the files of a module have, package after package.
pub fn counts_of_modules()
    ensures { CountsOfModules }
{
    one_order_at_most();
}
