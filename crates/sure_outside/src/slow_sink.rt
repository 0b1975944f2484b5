ghost use Rattle.std.specs.Prelude.{◌≡◌, ◌<◌, ◌≤◌, take, length, vec_len, IfOk, OnErr, IsErr, MatchBool};

use es_outside::{MemorySink, Sink, SinkFailed};
use std::alloc::Global;
use std::marker::Model;

/// A sink in memory of which a call takes a few bytes at most, the first ones of its piece.
#[derive(Debug, Drop)]
pub struct SlowSink {
    step: usize,
    room: MemorySink,
}

impl Model for SlowSink {
    ghost use Rattle.std.specs.Prelude.{◌<◌};
    ghost use Rattle.sure_outside.specs.SlowRooms.{SlowRoom};

    ghost Value = { SlowRoom };

    ghost view = { λ sink. record { step = sink.step; room = sink.room } };

    ghost invariant = { λ sink. 0 < sink.step };
}

impl SlowSink {
    ghost use Rattle.es_outside.specs.Rooms.{empty_room};

    /// An empty sink over this room that takes at most `step` bytes a call, of which the calls
    /// with these numbers are to fail.
    pub fn new(alloc: Global, step: usize, room: Vec<u8>, failing: Vec<u32>) -> SlowSink
        requires { 0 < step }
        ensures { result ≡ record { step = step; room = empty_room (vec_len room) failing.items } }
    {
        SlowSink {
            step,
            room: MemorySink::new(alloc, room, failing),
        }
    }

    /// What was written.
    pub fn bytes(&self) -> &[u8]
        ensures { result.now ≡ self.now.room.written }
    {
        self.room.bytes()
    }
}

impl Sink for SlowSink {
    ghost use Rattle.std.specs.Prelude.{Some};
    ghost use Rattle.es_outside.specs.Counts.{CountRose};
    ghost use Rattle.es_outside.specs.Rooms.{fails_at, after_piece, after_failure};

    ghost bytes = { λ sink. Some sink.room.written };

    ghost faults = { λ sink. sink.room.calls.faults };

    fn write(&mut self, piece: &[u8]) -> Result<usize, SinkFailed>
        requires { 0 < length piece.now }
        ensures fails { let taken = take self.old.step piece.now in
            MatchBool (fails_at self.old.room taken)
            (self.new ≡ record self.old { room = after_failure self.old.room })
            (self.new ≡ record self.old { room = after_piece self.old.room taken }) }
        ensures answer { let taken = take self.old.step piece.now in
            MatchBool (fails_at self.old.room taken) (IsErr result) (result ≡ Ok (length taken)) }
        ensures taken { IfOk result (λ count. (0 < count) × (count ≤ length piece.now)) }
        ensures no_fall { self.old.room.calls.faults ≤ self.new.room.calls.faults }
        ensures failed { OnErr result (CountRose self.old.room.calls.faults self.new.room.calls.faults) }
    {
        let count = piece.len().min(self.step);
        self.room.write(&piece[..count])
    }
}
