//! A sink for bytes.

ghost use Rattle.std.specs.Prelude.{◌≡◌, ℕ, ◌<◌, ◌≤◌, List, length, take, IfOk, OnOk, OnErr, Option};
ghost use Rattle.fix_io.specs.Causes.{HasPlainCause};
ghost use Rattle.fix_io.specs.Contents.{appended, IsPartOut};

use crate::tree::Failed;

/// Somewhere for bytes to go, piece by piece.
pub trait Sink {
    /// The bytes that it got, or none where it doesn't tell them.
    ghost contents: { Self → Option (List ℕ) };

    /// How often the outside has failed. The count never falls, and stays at 2 ^ 64 - 1.
    ghost faults: { Self → ℕ };

    /// Appends the first of the bytes, at least one, and answers how many.
    fn write(&mut self, bytes: &[u8]) -> Result<usize, Failed>
        requires { 0 < length bytes.now }
        ensures some { IfOk result (λ n. (1 ≤ n) × (n ≤ length bytes.now)) }
        ensures ok { IfOk result (λ n. contents self.new ≡ appended (contents self.old) (take n bytes.now)) }
        ensures err { OnErr result (contents self.new ≡ contents self.old) }
        ensures cause { HasPlainCause (faults self.old) (faults self.new) result };
}

/// Appends all the bytes, piece by piece. Takes no memory.
pub fn write_all<S: Sink>(out: &mut S, bytes: &[u8]) -> Result<(), Failed>
    ensures ok { OnOk result (S.contents out.new ≡ appended (S.contents out.old) bytes.now) }
    ensures err { OnErr result (IsPartOut (S.contents out.old) (S.contents out.new) bytes.now) }
    ensures cause { HasPlainCause (S.faults out.old) (S.faults out.new) result }
{
    let mut done = 0;
    while done < bytes.len() {
        done += out.write(&bytes[done..])?;
    }
    Ok(())
}
