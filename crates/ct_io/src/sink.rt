//! The trait of sinks, which take bytes, and writing a whole piece.

ghost use Rattle.std.specs.Prelude.{◌≡◌, ◌≤◌, ◌<◌, ℕ, List, Option, take, length, OnOk, OnErr, IfOk};
ghost use Rattle.ct_io.specs.Bytes.{appended, GrewByPart};
ghost use Rattle.ct_io.specs.Fault.{HasCause};

use std::alloc::{AllocError, AllocFailed};

/// Why a sink did not take what was written.
#[derive(Clone, Copy, Debug, PartialEq, Eq)]
pub enum SinkError {
    /// The outside failed: the sink's count of faults rose.
    Fault,
    /// Memory ran out.
    NoMemory,
}

impl From<AllocError> for SinkError {
    ghost use Rattle.ct_io.specs.declared.sink.SinkError.TheVariants.{NoMemory};

    ghost from_gives = { λ _ e. e ≡ NoMemory };

    fn from(_error: AllocError) -> SinkError {
        SinkError::NoMemory
    }
}

impl<T: Drop> From<AllocFailed<T>> for SinkError {
    ghost use Rattle.ct_io.specs.declared.sink.SinkError.TheVariants.{NoMemory};

    ghost from_gives = { λ _ e. e ≡ NoMemory };

    fn from(_error: AllocFailed<T>) -> SinkError {
        SinkError::NoMemory
    }
}

/// Where the program's output goes.
///
/// A sink may tell the bytes that it took so far. Its count of faults never falls: it rises with
/// each fault that is answered, unless it stands at its last value, and every other answer leaves
/// it as it was.
pub trait Sink {
    /// The bytes so far, where the sink tells them.
    ghost written: { Self → Option (List ℕ) };

    /// How often the outside has failed.
    ghost faults: { Self → ℕ };

    /// Takes a prefix of the piece, not empty unless the piece is, and says how long it was.
    fn write(&mut self, piece: &[u8]) -> Result<usize, SinkError>
        ensures bound { IfOk result (λ n. n ≤ length piece.now) }
        ensures progress { IfOk result (λ n. 0 < length piece.now → 0 < n) }
        ensures taken { IfOk result (λ n. written self.new ≡ appended (take n piece.now) (written self.old)) }
        ensures refused { OnErr result (written self.new ≡ written self.old) }
        ensures cause { HasCause SinkError.Fault (faults self.old) (faults self.new) result };
}

/// Writes the whole piece. After a refusal a prefix of the piece was written, and not the whole
/// piece. The first refusal ends the call: where it succeeds, no write failed.
pub fn write_all<K: Sink>(sink: &mut K, piece: &[u8]) -> Result<(), SinkError>
    ensures ok { OnOk result (K.written sink.new ≡ appended piece.now (K.written sink.old)) }
    ensures refused { OnErr result (GrewByPart piece.now (K.written sink.old) (K.written sink.new)) }
    ensures cause { HasCause SinkError.Fault (K.faults sink.old) (K.faults sink.new) result }
{
    let mut rest = piece;
    while !rest.is_empty() {
        let n = sink.write(rest)?;
        rest = &rest[n..];
    }
    Ok(())
}
