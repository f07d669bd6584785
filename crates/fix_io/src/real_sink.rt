//! Standard output.

ghost use Rattle.std.specs.Prelude.{◌≡◌, ℕ, None};

use crate::sink::Sink;
use crate::tree::Failed;
use std::io;
use std::io::Write;
use std::marker::Model;

/// Standard output. It doesn't tell what it got.
#[derive(Drop)]
pub struct RealSink<'a, R: Print> {
    rt: &'a R,
    faults: u64,
}

impl<'a, R: Print> Model for RealSink<'a, R> {
    ghost use Rattle.std.specs.Prelude.{ℕ};

    ghost Value = { ℕ };

    ghost view = { λ s. s.faults };
}

impl<'a, R: Print> RealSink<'a, R> {
    /// The standard output, to which nothing was written and at which nothing failed yet.
    pub fn new(rt: &'a R) -> RealSink<'a, R>
        ensures fresh { result ≡ 0 }
    {
        RealSink { rt, faults: 0 }
    }
}

impl<'a, R: Print> Sink for RealSink<'a, R> {
    ghost contents = { λ s. None };

    ghost faults = { λ s. s };

    fn write(&mut self, bytes: &[u8]) -> Result<usize, Failed> {
        match io::writer(self.rt).write(bytes) {
            // Taking none of some bytes would never end.
            Ok(0) | Err(_) => {
                self.faults = self.faults.saturating_add(1);
                Err(Failed)
            }
            Ok(count) => Ok(count),
        }
    }
}
