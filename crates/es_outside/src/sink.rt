ghost use Rattle.std.specs.Prelude.{◌≡◌, ℕ, ◌<◌, ◌≤◌, [], List, Option, length, take, IfOk, OnOk, OnErr};
ghost use Rattle.es_outside.specs.Counts.{CountRose};
ghost use Rattle.es_outside.specs.Sinks.{Adds, AddsFront};

/// Nothing was taken, and the count of faults rose.
#[derive(Clone, Copy, Debug, PartialEq, Eq)]
pub struct SinkFailed;

/// Where bytes are written, one after another.
pub trait Sink {
    /// The bytes written so far, if they are told.
    ghost bytes: { Self → Option (List ℕ) };

    /// How often writing has failed, up to the last value of 64 bits.
    ghost faults: { Self → ℕ };

    /// Takes bytes from the front of the piece, and answers how many.
    fn write(&mut self, piece: &[u8]) -> Result<usize, SinkFailed>
        requires { 0 < length piece.now }
        ensures taken { IfOk result (λ count. (0 < count) × (count ≤ length piece.now)) }
        ensures added { IfOk result (λ count. Adds (take count piece.now) (bytes self.old) (bytes self.new)) }
        ensures nothing { OnErr result (Adds [] (bytes self.old) (bytes self.new)) }
        ensures no_fall { faults self.old ≤ faults self.new }
        ensures failed { OnErr result (CountRose (faults self.old) (faults self.new)) };
}

/// Writes all of the bytes, or a front of them up to a fault.
pub fn write_all<S: Sink>(sink: &mut S, bytes: &[u8]) -> Result<(), SinkFailed>
    ensures all { OnOk result (Adds bytes.now (S.bytes sink.old) (S.bytes sink.new)) }
    ensures front { OnErr result (AddsFront bytes.now (S.bytes sink.old) (S.bytes sink.new)) }
    ensures no_fall { S.faults sink.old ≤ S.faults sink.new }
    ensures failed { OnErr result (CountRose (S.faults sink.old) (S.faults sink.new)) }
{
    let mut count = 0;
    while count < bytes.len() {
        count += sink.write(&bytes[count..])?;
    }
    Ok(())
}
