//! Feeds a reader what one read of a slot returns, up to a fixed number of bytes in all.

ghost use Rattle.std.specs.Prelude.{◌≡◌, ◌≢◌, ℕ, List, ◌<◌, ◌≤◌, false, length, IfErr, IfOk, IfSome, OnErr, OnOk};
ghost use Rattle.ct_io.specs.Bytes.{ReadsBytes, remaining};
ghost use Rattle.ct_io.specs.Fault.{HasCause};
ghost use Rattle.ct_io.specs.declared.desk.Slot.{Slot};
ghost use Rattle.ct_input.specs.Slot.{Feeds};

use ct_io::{Desk, DeskError, Slot};
use ct_sexpr::Reader;

/// The most bytes of a slot that are read.
pub const MOST_BYTES: usize = 67_108_864;

/// The most bytes that one read asks for.
pub const PIECE_BYTES: usize = 65_536;

/// Why a slot could not be read.
#[derive(Clone, Copy, Debug, PartialEq, Eq)]
pub enum InputError {
    /// The desk failed.
    Fault,
    /// Memory ran out.
    NoMemory,
}

/// What one read of a slot gave.
#[derive(Clone, Copy, Debug, PartialEq, Eq)]
pub enum Feeding {
    /// So many bytes, which were fed.
    More(usize),
    /// Nothing, as no byte is left.
    End,
    /// More bytes than are read of a slot. Those that are read were fed.
    Beyond,
}

/// Opens the slot under the name.
pub fn open_slot<D: Desk>(desk: &mut D, slot: Slot, name: &str) -> Result<(), InputError>
    ensures opened { OnOk result (D.left desk.new slot ≡ D.held desk.old name.now) }
    ensures refused { OnErr result (D.left desk.new slot ≡ D.left desk.old slot) }
    ensures other { (s : Slot) → s ≢ slot → D.left desk.new s ≡ D.left desk.old s }
    ensures names { (n : List ℕ) → D.held desk.new n ≡ D.held desk.old n }
    ensures cause { HasCause InputError.Fault (D.faults desk.old) (D.faults desk.new) result }
{
    match desk.open(slot, name) {
        Ok(()) => Ok(()),
        Err(DeskError::Fault) => Err(InputError::Fault),
        Err(DeskError::NoMemory) => Err(InputError::NoMemory),
    }
}

/// Reads the slot once, and feeds the reader what was read, or tells it that the input has ended. So many bytes were
/// fed before. Of the bytes beyond 67,108,864 one at most is read, and none is fed.
///
/// `Fault` changes nothing; `NoMemory` leaves the reader as it was.
pub fn feed_once<D: Desk>(
    desk: &mut D,
    slot: Slot,
    reader: &mut Reader,
    total: usize,
    buffer: &mut [u8],
) -> Result<Feeding, InputError>
    requires goes_on { reader.old.ended ≡ false }
    requires fed { reader.old.fed ≡ total }
    requires short { total ≤ MOST_BYTES }
    requires some { 0 < length buffer.old }
    requires few { length buffer.old ≤ PIECE_BYTES }
    ensures feeds { IfOk result (λ feeding. Feeds feeding reader.old reader.new (D.left desk.old slot) (D.left desk.new slot)) }
    ensures same { OnErr result (reader.new ≡ reader.old) }
    ensures untaken { IfErr result (λ error. error ≡ InputError.Fault → D.left desk.new slot ≡ D.left desk.old slot) }
    ensures other { (s : Slot) → s ≢ slot → D.left desk.new s ≡ D.left desk.old s }
    ensures names { (n : List ℕ) → D.held desk.new n ≡ D.held desk.old n }
    ensures cause { HasCause InputError.Fault (D.faults desk.old) (D.faults desk.new) result }
{
    let room = buffer.len().min(MOST_BYTES + 1 - total);
    let piece = &mut buffer[..room];
    let count = read_piece(desk, slot, piece)?;
    if count == 0 {
        reader.end();
        return Ok(Feeding::End);
    }
    let fitting = count.min(MOST_BYTES - total);
    if reader.feed(&piece[..fitting]).is_err() {
        return Err(InputError::NoMemory);
    }
    if fitting < count {
        return Ok(Feeding::Beyond);
    }
    Ok(Feeding::More(count))
}

/// Reads the next piece of what is left in the slot.
fn read_piece<D: Desk>(desk: &mut D, slot: Slot, buffer: &mut [u8]) -> Result<usize, InputError>
    ensures bound { IfOk result (λ n. n ≤ length buffer.old) }
    ensures bytes { IfOk result (λ n. IfSome (D.left desk.old slot) (λ bytes. ReadsBytes bytes n buffer.old buffer.new)) }
    ensures taken { IfOk result (λ n. D.left desk.new slot ≡ remaining n (D.left desk.old slot)) }
    ensures refused { OnErr result (D.left desk.new slot ≡ D.left desk.old slot) }
    ensures other { (s : Slot) → s ≢ slot → D.left desk.new s ≡ D.left desk.old s }
    ensures names { (n : List ℕ) → D.held desk.new n ≡ D.held desk.old n }
    ensures cause { HasCause InputError.Fault (D.faults desk.old) (D.faults desk.new) result }
{
    match desk.read(slot, buffer) {
        Ok(count) => Ok(count),
        Err(DeskError::Fault) => Err(InputError::Fault),
        Err(DeskError::NoMemory) => Err(InputError::NoMemory),
    }
}
