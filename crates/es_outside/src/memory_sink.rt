ghost use Rattle.std.specs.Prelude.{◌≡◌, ℕ, ◌+◌, ◌-◌, ◌<◌, ◌≤◌, [], ◌++◌, length, take, drop, vec_len, IfOk, OnErr, IsOk, IsErr, MatchBool};

use crate::calls::Calls;
use crate::{Sink, SinkFailed};
use std::alloc::Global;
use std::marker::Model;

/// A sink in memory, which writes over its room from the front and grows nothing.
///
/// A call fails exactly where its number, from 0, is listed, or the piece is longer than the rest of the room.
/// Else it takes the whole piece.
#[derive(Debug, Drop)]
pub struct MemorySink {
    room: Vec<u8>,
    written: usize,
    calls: Calls,
}

impl Model for MemorySink {
    ghost use Rattle.std.specs.Prelude.{◌-◌, ◌≤◌, take, vec_len};
    ghost use Rattle.es_outside.specs.Rooms.{Room};

    ghost Value = { Room };

    ghost view = { λ sink. record { written = take sink.written sink.room.items; left = vec_len sink.room - sink.written; calls = sink.calls } };

    ghost invariant = { λ sink. sink.written ≤ vec_len sink.room };
}

impl MemorySink {
    ghost use Rattle.es_outside.specs.Rooms.{empty_room};

    /// An empty sink over this room, of which the calls with these numbers are to fail.
    pub fn new(_alloc: Global, room: Vec<u8>, failing: Vec<u32>) -> MemorySink
        ensures { result ≡ empty_room (vec_len room) failing.items }
    {
        MemorySink {
            room,
            written: 0,
            calls: Calls::new(failing),
        }
    }

    /// What was written.
    pub fn bytes(&self) -> &[u8]
        ensures { result.now ≡ self.now.written }
    {
        &self.room[..self.written]
    }
}

impl Sink for MemorySink {
    ghost use Rattle.std.specs.Prelude.{Some};
    ghost use Rattle.es_outside.specs.Counts.{CountRose};
    ghost use Rattle.es_outside.specs.Rooms.{fails_at, after_piece, after_failure};

    ghost bytes = { λ sink. Some sink.written };

    ghost faults = { λ sink. sink.calls.faults };

    fn write(&mut self, piece: &[u8]) -> Result<usize, SinkFailed>
        ensures fails { MatchBool (fails_at self.old piece.now) (self.new ≡ after_failure self.old) (self.new ≡ after_piece self.old piece.now) }
        ensures answer { MatchBool (fails_at self.old piece.now) (IsErr result) (result ≡ Ok (length piece.now)) }
        ensures no_fall { self.old.calls.faults ≤ self.new.calls.faults }
        ensures failed { OnErr result (CountRose self.old.calls.faults self.new.calls.faults) }
    {
        let listed = self.calls.next_fails();
        if listed || self.room.len() - self.written < piece.len() {
            self.calls.fault();
            return Err(SinkFailed);
        }
        put(self.room.as_mut_slice(), self.written, piece);
        self.written += piece.len();
        Ok(piece.len())
    }
}

/// Writes the piece over the bytes at this offset.
fn put(room: &mut [u8], at: usize, piece: &[u8])
    requires { at + length piece.now ≤ length room.old }
    ensures { room.new ≡ take at room.old ++ piece.now ++ drop (at + length piece.now) room.old }
{
    room[at..at + piece.len()].copy_from_slice(piece);
}
