//! What a step over a use of a constant changes of the parts of its declaration that may be uses: definitions and laws
//! alone, without code.

mod laws;

pub use laws::steps_swap_parts;
