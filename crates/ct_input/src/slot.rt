//! Reads a whole slot into a reader, if it has no more than a fixed number of bytes.

ghost use Rattle.std.specs.Prelude.{◌≡◌, ◌≢◌, ℕ, List, ◌<◌, ◌≤◌, is_some, length, Some, IfOk, OnOk};
ghost use Rattle.ct_io.specs.Fault.{HasCause};
ghost use Rattle.ct_io.specs.declared.desk.Slot.{Slot};
ghost use Rattle.ct_input.specs.Fresh.{fresh};
ghost use Rattle.ct_input.specs.Slot.{IsFed, IsTaken, IsWholeOf};

use crate::feeding::{Feeding, InputError, PIECE_BYTES, feed_once, open_slot};
use ct_io::{Desk, Slot};
use ct_sexpr::Reader;
use std::alloc::Global;

/// A reader that was fed the bytes that are held under the name, and their end. `None` where there
/// are more than 67,108,864, and then one byte beyond these is read.
pub fn read_whole_slot<D: Desk>(
    alloc: Global,
    desk: &mut D,
    slot: Slot,
    name: &str,
) -> Result<Option<Reader>, InputError>
    ensures fed { IfOk result (λ read. (bytes : List ℕ) × IsWholeOf bytes read) }
    ensures held { IfOk result (λ read. (bytes : List ℕ) → D.held desk.old name.now ≡ Some bytes → IsWholeOf bytes read) }
    ensures taken { IfOk result (λ read. IsTaken (D.held desk.old name.now) (is_some read) (D.left desk.new slot)) }
    ensures other { (s : Slot) → s ≢ slot → D.left desk.new s ≡ D.left desk.old s }
    ensures names { (n : List ℕ) → D.held desk.new n ≡ D.held desk.old n }
    ensures cause { HasCause InputError.Fault (D.faults desk.old) (D.faults desk.new) result }
{
    let Ok(mut reader) = Reader::new(alloc) else {
        return Err(InputError::NoMemory);
    };
    let Ok(mut buffer) = vec![in alloc; 0u8; PIECE_BYTES] else {
        return Err(InputError::NoMemory);
    };
    open_slot(desk, slot, name)?;
    let whole = feed_slot(desk, slot, &mut reader, buffer.as_mut_slice())?;
    Ok(reader_where(reader, whole))
}

/// The reader, where it has all bytes.
fn reader_where(reader: Reader, whole: bool) -> Option<Reader>
    ensures read { (bytes : List ℕ) → IsFed whole bytes reader → IsWholeOf bytes result }
    ensures some { is_some result ≡ whole }
{
    if whole { Some(reader) } else { None }
}

/// Feeds the reader what is left in the slot, a piece at a time, up to 67,108,864 bytes. Whether the
/// slot held no more.
fn feed_slot<D: Desk>(
    desk: &mut D,
    slot: Slot,
    reader: &mut Reader,
    buffer: &mut [u8],
) -> Result<bool, InputError>
    requires new { reader.old ≡ fresh }
    requires some { 0 < length buffer.old }
    requires few { length buffer.old ≤ PIECE_BYTES }
    ensures fed { IfOk result (λ whole. (bytes : List ℕ) × IsFed whole bytes reader.new) }
    ensures left { IfOk result (λ whole. (bytes : List ℕ) → D.left desk.old slot ≡ Some bytes → IsFed whole bytes reader.new) }
    ensures taken { IfOk result (λ whole. IsTaken (D.left desk.old slot) whole (D.left desk.new slot)) }
    ensures other { (s : Slot) → s ≢ slot → D.left desk.new s ≡ D.left desk.old s }
    ensures names { (n : List ℕ) → D.held desk.new n ≡ D.held desk.old n }
    ensures cause { HasCause InputError.Fault (D.faults desk.old) (D.faults desk.new) result }
{
    let mut total = 0usize;
    loop {
        match feed_once(desk, slot, reader, total, buffer)? {
            Feeding::More(count) => total += count,
            Feeding::End => return Ok(true),
            Feeding::Beyond => return Ok(false),
        }
    }
}
