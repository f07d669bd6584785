//! Where a step is made.

/// The declaration in which a step is made, by the numbers of its package, its file and itself.
#[derive(Clone, Copy, Debug)]
pub struct StepPlace {
    pub home: usize,
    pub file: usize,
    pub decl: usize,
}
