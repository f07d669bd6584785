//! A call of a marked function.

use go_tree::{Comment, Name, Span};
use pkg_graph::Package;

/// What is known of a call of a marked function and of a form of it.
#[derive(Clone, Copy)]
pub struct CallUse<'a> {
    /// The packages by their numbers, and the number of that of the call.
    pub packages: &'a [Package],
    pub there: usize,
    /// The first name that the form takes from the function and that isn't exported, where the call stands in another
    /// package (Go specification, Exported identifiers).
    pub hidden: Option<&'a Name>,
    /// The packages that the form needs, by their numbers, in the order of its text.
    pub needed: &'a [usize],
    /// The first name that the form takes from the function as it stands there, and that means something else at the
    /// call (Go specification, Declarations and scope).
    pub shadowed: Option<&'a Name>,
    /// Whether the function leads back to itself over marked functions.
    pub recursive: bool,
    /// What the form replaces, and the comments of its file in their order.
    pub span: Span,
    pub comments: &'a [Comment],
    /// Whether a method's arguments are the results of one call (Go specification, Calls).
    pub spread: bool,
    /// Whether a later member of a group of constants in a function repeats the expression in which the call, or in the
    /// function's body a name that means something else there, stands (Go specification, Constant declarations).
    pub repeated: bool,
}
