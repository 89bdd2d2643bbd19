//! Answers a script from its first command to its end, or as far as it is read.
ghost use Rattle.std.specs.Prelude.{◌≡◌, ◌≢◌, ℕ, List, [], Option, Some, OnOk, IfErr, ◌≤◌};
ghost use Rattle.ct_io.specs.Fault.{HasCause, Rose};
ghost use Rattle.ct_io.specs.declared.desk.Slot.TheVariants as slot;
ghost use Rattle.ct_io.specs.declared.status.Status.TheVariants as status;
ghost use Rattle.ct_input.specs.Slot.{IsReadWhole};
ghost use Rattle.ct_command.specs.declared.option.ErrorBehavior.TheVariants.{ContinuedExecution};
ghost use Rattle.ct_script.specs.Given.{evidence_in};
ghost use Rattle.ct_run.specs.Kept.{kept_in};
ghost use Rattle.ct_run.specs.Output.{wrote, IsLeft};
ghost use Rattle.ct_run.specs.Refusal.{IsConcluded, IsRefused, status_of_script, refusal_line};
ghost use Rattle.ct_run.specs.Run.{Solves, Took};

use crate::answer::write_line;
use crate::report::{Report, reported, status_of, unanswered};
use crate::stream::{answer_slot, status_of_input, status_of_stream};
use crate::turn::{Ending, answer_all};
use ct_input::{PIECE_BYTES, open_slot};
use ct_io::{Desk, Sink, SinkError, Slot, Status};
use ct_script::{ErrorBehavior, Given, ScriptError, Session, refusal_text};
use ct_sexpr::{Reader, one_reading, one_text};
use std::alloc::Global;

/// Answers the script under the name, where this follows an error at its start, each command once it is read whole and before the slot is asked for more.
pub fn solve<D: Desk, K: Sink>(
    alloc: Global,
    behavior: ErrorBehavior,
    name: &str,
    desk: &mut D,
    out: &mut K,
) -> Report
    ensures solved { (bytes : List ℕ) → D.held desk.old name.now ≡ Some bytes
        → (taken : ℕ) × Took result.status bytes taken (D.left desk.old slot.Script) (D.left desk.new slot.Script)
        × Solves behavior bytes taken result.status (kept_in result) result.errors.items (K.written out.old) (K.written out.new) }
    ensures some_script { (bytes : List ℕ) × (taken : ℕ)
        × Solves behavior bytes taken result.status (kept_in result) result.errors.items (K.written out.old) (K.written out.new) }
    ensures input { result.status ≡ status.InputFault → Rose (D.faults desk.old) (D.faults desk.new) }
    ensures output { result.status ≡ status.OutputFault → Rose (K.faults out.old) (K.faults out.new) }
    ensures counts { (D.faults desk.old ≤ D.faults desk.new) × (K.faults out.old ≤ K.faults out.new) }
    ensures desk_uncounted { result.status ≢ status.InputFault
        → D.faults desk.new ≡ D.faults desk.old }
    ensures sink_uncounted { result.status ≢ status.OutputFault
        → K.faults out.new ≡ K.faults out.old }
{
    match open_slot(desk, Slot::Script, name) {
        Ok(()) => answer_opened(alloc, behavior, desk, out),
        Err(error) => unanswered(alloc, status_of_input(error)),
    }
}

/// Answers the script in its slot, which was just opened.
fn answer_opened<D: Desk, K: Sink>(
    alloc: Global,
    behavior: ErrorBehavior,
    desk: &mut D,
    out: &mut K,
) -> Report
    ensures solved { (bytes : List ℕ) (before : Option (List ℕ)) → D.left desk.old slot.Script ≡ Some bytes
        → (taken : ℕ) × Took result.status bytes taken before (D.left desk.new slot.Script)
        × Solves behavior bytes taken result.status (kept_in result) result.errors.items (K.written out.old) (K.written out.new) }
    ensures some_script { (bytes : List ℕ) × (taken : ℕ)
        × Solves behavior bytes taken result.status (kept_in result) result.errors.items (K.written out.old) (K.written out.new) }
    ensures input { result.status ≡ status.InputFault → Rose (D.faults desk.old) (D.faults desk.new) }
    ensures output { result.status ≡ status.OutputFault → Rose (K.faults out.old) (K.faults out.new) }
    ensures counts { (D.faults desk.old ≤ D.faults desk.new) × (K.faults out.old ≤ K.faults out.new) }
    ensures desk_uncounted { result.status ≢ status.InputFault → D.faults desk.new ≡ D.faults desk.old }
    ensures sink_uncounted { result.status ≢ status.OutputFault → K.faults out.new ≡ K.faults out.old }
{
    let Ok(mut reader) = Reader::new(alloc) else {
        return unanswered(alloc, Status::NoMemory);
    };
    let Ok(mut buffer) = vec![in alloc; 0u8; PIECE_BYTES] else {
        return unanswered(alloc, Status::NoMemory);
    };
    let Ok(mut session) = Session::new(alloc, behavior) else {
        return unanswered(alloc, Status::NoMemory);
    };
    one_text();
    let ending = answer_slot(desk, &mut reader, buffer.as_mut_slice(), &mut session, out);
    let given = session.finish();
    match ending {
        Ok(ending) => conclude(alloc, given, ending, out),
        Err(error) => reported(status_of_stream(error), given),
    }
}

/// Answers the script that the reader was fed whole.
pub(crate) fn answer_script<K: Sink>(alloc: Global, reader: &mut Reader, out: &mut K) -> Report
    ensures solved { (bytes : List ℕ) → IsReadWhole bytes reader.old
        → Solves ContinuedExecution bytes 0 result.status (kept_in result) result.errors.items (K.written out.old) (K.written out.new) }
    ensures input { result.status ≢ status.InputFault }
{
    let Ok(mut session) = Session::new(alloc, ErrorBehavior::ContinuedExecution) else {
        return unanswered(alloc, Status::NoMemory);
    };
    one_text();
    one_reading();
    let ending = answer_all(reader, &mut session, out);
    let given = session.finish();
    match ending {
        Ok(ending) => conclude(alloc, given, ending, out),
        Err(error) => reported(status_of(error), given),
    }
}

// The report of a script that was answered as far as it was read, by how it ends.
fn conclude<K: Sink>(alloc: Global, given: Given, ending: Ending, out: &mut K) -> Report
    ensures concluded { IsConcluded ending result.status given.errors.items result.errors.items (K.written out.old) (K.written out.new) }
    ensures kept { kept_in result ≡ evidence_in given }
    ensures output { result.status ≡ status.OutputFault → Rose (K.faults out.old) (K.faults out.new) }
    ensures input { result.status ≢ status.InputFault }
    ensures count { K.faults out.old ≤ K.faults out.new }
    ensures uncounted { result.status ≢ status.OutputFault → K.faults out.new ≡ K.faults out.old }
{
    match ending {
        Ending::Clean => finished(given),
        Ending::Lexical(error) => refuse(alloc, given, error, out),
        Ending::Cut => reported(Status::TooLong, given),
    }
}

// The report of a script that came to its end.
fn finished(given: Given) -> Report
    ensures status { result.status ≡ status_of_script given.errors.items }
    ensures kept { kept_in result ≡ evidence_in given }
    ensures errors { result.errors.items ≡ given.errors.items }
    ensures output { result.status ≢ status.OutputFault }
    ensures input { result.status ≢ status.InputFault }
{
    let status = if given.errors.is_empty() {
        Status::Done
    } else {
        Status::Refused
    };
    reported(status, given)
}

// The report of a script that ends with an error of its text, which is written.
fn refuse<K: Sink>(alloc: Global, given: Given, error: ScriptError, out: &mut K) -> Report
    ensures refused { IsRefused error result.status given.errors.items result.errors.items (K.written out.old) (K.written out.new) }
    ensures kept { kept_in result ≡ evidence_in given }
    ensures input { result.status ≢ status.InputFault }
    ensures output { result.status ≡ status.OutputFault → Rose (K.faults out.old) (K.faults out.new) }
    ensures count { K.faults out.old ≤ K.faults out.new }
    ensures uncounted { result.status ≢ status.OutputFault → K.faults out.new ≡ K.faults out.old }
{
    let mut given = given;
    if given.errors.push(error).is_err() {
        return reported(Status::NoMemory, given);
    }
    let status = match write_refusal(alloc, error, out) {
        Ok(()) => Status::Refused,
        Err(error) => status_of(error),
    };
    reported(status, given)
}

// Writes the text of an error.
fn write_refusal<K: Sink>(alloc: Global, error: ScriptError, out: &mut K) -> Result<(), SinkError>
    ensures ok { OnOk result (K.written out.new ≡ wrote (refusal_line error) (K.written out.old)) }
    ensures broke { IfErr result (λ e. IsLeft e (refusal_line error) (K.written out.old) (K.written out.new)) }
    ensures cause { HasCause SinkError.Fault (K.faults out.old) (K.faults out.new) result }
{
    match refusal_text(alloc, error.0, error.1) {
        Ok(text) => write_line(text, out),
        Err(_) => Err(SinkError::NoMemory),
    }
}
