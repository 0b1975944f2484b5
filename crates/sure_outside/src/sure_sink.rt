ghost use Rattle.std.specs.Prelude.{◌≡◌, length, vec_len, option_copied};

use es_outside::{MemorySink, Sink, SinkFailed};
use std::alloc::Global;
use std::marker::Model;

/// A sink in memory that never fails. It writes over its room from the front and grows nothing, and
/// tells its bytes while they fit: a piece that doesn't fit is taken, and from then on the sink tells
/// nothing.
#[derive(Debug, Drop)]
pub struct SureSink {
    room: MemorySink,
    fits: bool,
}

impl Model for SureSink {
    ghost use Rattle.std.specs.Prelude.{◌≡◌, [], Some, if◌then◌else◌};
    ghost use Rattle.sure_outside.specs.SureRooms.{SureRoom, silent};

    ghost Value = { SureRoom };

    ghost view = { λ sink. if sink.fits
        then record { told = Some sink.room.written; left = sink.room.left } else silent };

    ghost invariant = { λ sink. sink.room.calls.failing ≡ [] };
}

impl SureSink {
    ghost use Rattle.sure_outside.specs.SureRooms.{empty};

    /// An empty sink over this room.
    pub fn new(alloc: Global, room: Vec<u8>) -> SureSink
        ensures { result ≡ empty (vec_len room) }
    {
        SureSink {
            room: MemorySink::new(alloc, room, Vec::new(alloc)),
            fits: true,
        }
    }

    /// What was written, and None once a piece didn't fit.
    pub fn bytes(&self) -> Option<&[u8]>
        ensures { option_copied result ≡ self.now.told }
    {
        if self.fits {
            Some(self.room.bytes())
        } else {
            None
        }
    }
}

impl Sink for SureSink {
    ghost use Rattle.sure_outside.specs.SureRooms.{after_write};

    ghost bytes = { λ sink. sink.told };

    ghost faults = { λ _. 0 };

    fn write(&mut self, piece: &[u8]) -> Result<usize, SinkFailed>
        ensures answer { result ≡ Ok (length piece.now) }
        ensures after { self.new ≡ after_write self.old piece.now }
    {
        if self.fits {
            self.fits = self.room.write(piece).is_ok();
        }
        Ok(piece.len())
    }
}
