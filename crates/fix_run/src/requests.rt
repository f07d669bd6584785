//! What the words ask for.

ghost use Rattle.std.specs.Prelude.{IfErr, IfOk, map, string_bytes};
ghost use Rattle.command_words.specs.Words.{IsRequest};
ghost use Rattle.fix_run.specs.Causes.{StopsWords};

use crate::status::Status;
use command_words::{Request, WordsFault, read_words};
use std::alloc::Global;

/// What the words ask for, or how the run ends where they ask for nothing.
pub fn read_request<'a>(alloc: Global, words: &'a [String]) -> Result<Request<'a>, Status>
    ensures read { IfOk result (λ r. IsRequest (map string_bytes words.entry.now) r) }
    ensures stop { IfErr result (StopsWords (map string_bytes words.entry.now)) }
{
    match read_words(alloc, words) {
        Ok(request) => Ok(request),
        Err(WordsFault::Usage) => Err(Status::Usage),
        Err(WordsFault::NoMemory) => Err(Status::NoMemory),
    }
}
