//! How far a run has come, and a limit that it passes.

use refusals::Limit;

/// How far a run has come before a step.
#[derive(Clone, Copy, Debug)]
pub struct Progress {
    /// The steps that were made.
    pub steps: u32,
    /// Those of them that have the origin of this one.
    pub steps_of_use: u32,
    /// The bytes of `go.mod` and of each file but that of this step.
    pub other_bytes: u32,
}

/// A limit of a run that is passed: by which count, and how much is allowed.
#[derive(Clone, Copy, Debug)]
pub struct Passed {
    pub limit: Limit,
    pub count: u64,
    pub bound: u64,
}
