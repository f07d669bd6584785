//! Rules of calls of predeclared functions over operands (Go specification, Built-in functions;
//! Length and capacity; Making slices and maps; Allocation; Appending to and copying slices; Deletion
//! of map elements; Handling panics).

mod elements;
mod lengths;
mod making;
mod printing;

pub use elements::{appends, copies, deletes};
pub use lengths::{capacity, length};
pub use making::{allocates, makes};
pub use printing::{is_printed, panics};
