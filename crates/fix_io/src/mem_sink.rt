//! A sink in memory, whose writes fail as they are told to.

ghost use Rattle.std.specs.Prelude.{◌≡◌, ◌⊎◌, ◌↔◌, ◌+◌, ◌-◌, ◌<◌, ◌≤◌, []};
ghost use Rattle.std.specs.Prelude.{◌++◌, length, min, take, Contains, IfOk, OnErr, IsErr, Some, vec_len};
ghost use Rattle.std.specs.Vec.{vec_capacity};
ghost use Rattle.fix_io.specs.Causes.{HasPlainCause, one_more, plain_counted};

use crate::calls::Calls;
use crate::sink::Sink;
use crate::tree::Failed;
use go_tree::NoMemory;
use std::alloc::Global;
use std::marker::Model;

/// A sink in memory. Its writes are numbered from 0, and those with chosen numbers fail.
#[derive(Drop)]
pub struct MemSink {
    bytes: Vec<u8>,
    room: usize,
    piece: usize,
    calls: Calls,
}

impl Model for MemSink {
    ghost use Rattle.std.specs.Prelude.{◌≤◌, length};
    ghost use Rattle.std.specs.Vec.{vec_capacity};
    ghost use Rattle.fix_io.specs.MemSink.{SinkState};

    ghost Value = { SinkState };

    ghost view = { λ s. record {
      bytes = s.bytes.items;
      room = s.room;
      piece = s.piece;
      next = s.calls.next;
      fails = s.calls.fails.items;
      faults = s.calls.faults;
    } };

    ghost invariant = { λ s. (1 ≤ s.piece) × (s.room ≤ vec_capacity s.bytes) × (length s.bytes.items ≤ s.room) };
}

impl MemSink {
    /// An empty sink with room for `room` bytes, which takes at most `piece` of them in a write and
    /// fails in the writes with these numbers.
    pub fn new(
        alloc: Global,
        room: usize,
        piece: usize,
        fails: Vec<u64>,
    ) -> Result<MemSink, NoMemory>
        requires { 1 ≤ piece }
        ensures empty { IfOk result (λ s. s.bytes ≡ []) }
        ensures told { IfOk result (λ s. (s.room ≡ room) × (s.piece ≡ piece) × (s.fails ≡ fails.items)) }
        ensures fresh { IfOk result (λ s. (s.next ≡ 0) × (s.faults ≡ 0)) }
    {
        let bytes = Vec::with_capacity(alloc, room)?;
        Ok(MemSink {
            bytes,
            room,
            piece,
            calls: Calls::new(fails),
        })
    }

    /// The bytes that it got.
    pub fn bytes(&self) -> &[u8]
        ensures { result.now ≡ self.now.bytes }
    {
        &self.bytes
    }
}

impl Sink for MemSink {
    ghost contents = { λ s. Some s.bytes };

    ghost faults = { λ s. s.faults };

    fn write(&mut self, bytes: &[u8]) -> Result<usize, Failed>
        requires { 0 < length bytes.now }
        ensures some { IfOk result (λ n. (1 ≤ n) × (n ≤ length bytes.now)) }
        ensures ok { IfOk result (λ n. self.new.bytes ≡ self.old.bytes ++ take n bytes.now) }
        ensures err { OnErr result (self.new.bytes ≡ self.old.bytes) }
        ensures cause { HasPlainCause self.old.faults self.new.faults result }

        // It fails exactly where no room is left or its number is one of those, and else takes what it can.
        ensures fails { IsErr result
            ↔ ((length self.old.bytes ≡ self.old.room) ⊎ Contains self.old.fails self.old.next) }
        ensures takes { IfOk result (λ n. n
            ≡ min (min (length bytes.now) self.old.piece) (self.old.room - length self.old.bytes)) }
        ensures counted { self.new.faults ≡ plain_counted self.old.faults result }
        ensures next { self.new.next ≡ one_more self.old.next }
        ensures stays { (self.new.room ≡ self.old.room) × (self.new.piece ≡ self.old.piece)
            × (self.new.fails ≡ self.old.fails) }
    {
        let left = self.room - self.bytes.len();
        if self.calls.next_fails(left == 0) {
            return Err(Failed);
        }
        let taken = bytes.len().min(self.piece).min(left);
        append(&mut self.bytes, &bytes[..taken]);
        Ok(taken)
    }
}

// Appends to what has the room.
fn append(to: &mut Vec<u8>, bytes: &[u8])
    requires { vec_len to.old + length bytes.now ≤ vec_capacity to.old }
    ensures bytes { to.new.items ≡ to.old.items ++ bytes.now }
    ensures room { vec_capacity to.old ≤ vec_capacity to.new }
{
    match to.extend_from_slice(bytes) {
        Ok(()) => {}
        Err(_) => unreachable!(),
    }
}
