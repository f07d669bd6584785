//! What a labelled statement gives of the answer for its statement (Go specification, Labeled
//! statements).

mod labelled;

pub use labelled::labelled_statement;
