//! How far a run has come.

ghost use Rattle.std.specs.Prelude.{◌≡◌, ◌+◌, ◌≤◌, ◌<◌, ◌^◌, [], OnOk, if◌then◌else◌};
ghost use Rattle.run_by_steps.specs.StepCounts.Origins.{OriginKey, same_key, steps_from};

use crate::step_counts::origins::OriginCounts;
use go_tree::NoMemory;
use std::alloc::Global;
use step_files::Progress;

/// The steps that a run has made, and how many of them have each origin.
#[derive(Drop)]
pub struct StepCounts {
    pub steps: u32,
    pub origins: OriginCounts,
}

impl StepCounts {
    /// No steps.
    pub fn new(alloc: Global) -> Self
        ensures steps { result.steps ≡ 0 }
        ensures origins { result.origins ≡ [] }
    {
        StepCounts {
            steps: 0,
            origins: OriginCounts::new(alloc),
        }
    }

    /// How far the run has come before a step with this origin in a file of so many bytes, where `go.mod` and all files
    /// have `bytes` together.
    pub fn progress(&self, origin: (usize, (usize, u32)), bytes: u32, file: usize) -> Progress
        requires { file ≤ bytes }
        ensures steps { result.steps ≡ self.now.steps }
        ensures steps_of_use { result.steps_of_use ≡ steps_from origin self.now.origins }
        ensures bytes { result.other_bytes + file ≡ bytes }
    {
        Progress {
            steps: self.steps,
            steps_of_use: self.origins.of(origin),
            other_bytes: bytes - file as u32,
        }
    }

    /// One step more, with this origin. The only error is `NoMemory`.
    pub fn add(&mut self, origin: (usize, (usize, u32))) -> Result<(), NoMemory>
        requires steps { self.old.steps + 1 < 2 ^ 32 }
        requires of_origin { steps_from origin self.old.origins ≤ self.old.steps }
        ensures steps { OnOk result (self.new.steps ≡ self.old.steps + 1) }
        ensures origins { OnOk result ((q : OriginKey) → steps_from q self.new.origins
            ≡ steps_from q self.old.origins + (if same_key q origin then 1 else 0)) }
    {
        self.origins.add(origin)?;
        self.steps += 1;
        Ok(())
    }
}
