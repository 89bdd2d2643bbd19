//! Reads a slot piece by piece, and answers complete commands before asking the slot for more.

ghost use Rattle.std.specs.Prelude.{◌≡◌, ◌≤◌, ◌<◌, false, length, IfErr, IfOk, OnErr};
ghost use Rattle.ct_io.specs.Fault.{HasCause};
ghost use Rattle.ct_io.specs.declared.desk.Slot.TheVariants as slot;
ghost use Rattle.ct_input.specs.Fresh.{fresh};
ghost use Rattle.ct_input.specs.Slot.{Feeds};
ghost use Rattle.ct_run.specs.Progress.{progress, EndsWith};
ghost use Rattle.ct_run.specs.Streaming as spec;
ghost use Rattle.ct_run.specs.Streaming.{HasStreamed, BrokeInStream, BreaksOff, FailsToFeed};

use crate::report::status_of;
use crate::turn::{Ending, answer_all};
use ct_input::{Feeding, InputError, MOST_BYTES, PIECE_BYTES, feed_once, last_piece};
use ct_io::{Desk, Sink, SinkError, Slot, Status};
use ct_script::Session;
use ct_sexpr::{Reader, one_reading};

/// Why a slot was not answered to its end.
#[derive(Clone, Copy, Debug, PartialEq, Eq)]
pub enum StreamError {
    /// The slot could not be read.
    Input(InputError),
    /// An answer could not be given, or could not be written.
    Output(SinkError),
}

/// The status of a run that ends as its slot cannot be read.
pub fn status_of_input(error: InputError) -> Status
    ensures value { result ≡ spec.status_of_input error }
{
    match error {
        InputError::Fault => Status::InputFault,
        InputError::NoMemory => Status::NoMemory,
    }
}

/// The status of a run that such an error ends.
pub fn status_of_stream(error: StreamError) -> Status
    ensures value { result ≡ spec.status_of_stream error }
{
    match error {
        StreamError::Input(error) => status_of_input(error),
        StreamError::Output(error) => status_of(error),
    }
}

/// Answers the script in the slot, of which nothing was read yet, up to its end, or to that of what is read of it. Each command is
/// answered before the slot is asked for more than what came with it.
pub fn answer_slot<D: Desk, K: Sink>(
    desk: &mut D,
    reader: &mut Reader,
    buffer: &mut [u8],
    session: &mut Session,
    out: &mut K,
) -> Result<Ending, StreamError>
    requires new { reader.old ≡ fresh }
    requires some { 0 < length buffer.old }
    requires few { length buffer.old ≤ PIECE_BYTES }
    ensures streamed { IfOk result (HasStreamed (D.left desk.old slot.Script) (D.left desk.new slot.Script) session.old (K.written out.old) (progress session.new reader.new (K.written out.new))) }
    ensures broke { IfErr result (BrokeInStream (D.left desk.old slot.Script) (D.left desk.new slot.Script) session.old (K.written out.old) (progress session.new reader.new (K.written out.new))) }
    ensures desk_cause { HasCause (StreamError.Input InputError.Fault) (D.faults desk.old) (D.faults desk.new) result }
    ensures sink_cause { HasCause (StreamError.Output SinkError.Fault) (K.faults out.old) (K.faults out.new) result }
{
    one_reading();
    last_piece();
    let mut total = 0usize;
    loop {
        match answer_held(reader, session, out)? {
            Ending::Clean => return Ok(Ending::Clean),
            Ending::Lexical(error) => return Ok(Ending::Lexical(error)),
            Ending::Cut => match feed_script(desk, reader, total, buffer)? {
                Feeding::More(count) => total += count,
                Feeding::End => return answer_held(reader, session, out),
                Feeding::Beyond => return answer_held(reader, session, out),
            },
        }
    }
}

/// Answers what is whole of what the reader holds.
fn answer_held<K: Sink>(
    reader: &mut Reader,
    session: &mut Session,
    out: &mut K,
) -> Result<Ending, StreamError>
    ensures ends { IfOk result (EndsWith (progress session.old reader.old (K.written out.old)) (progress session.new reader.new (K.written out.new))) }
    ensures broke { IfErr result (BreaksOff (progress session.old reader.old (K.written out.old)) (progress session.new reader.new (K.written out.new))) }
    ensures sink_cause { HasCause (StreamError.Output SinkError.Fault) (K.faults out.old) (K.faults out.new) result }
{
    match answer_all(reader, session, out) {
        Ok(ending) => Ok(ending),
        Err(error) => Err(StreamError::Output(error)),
    }
}

/// Reads the script's slot once into the reader, to which so many bytes were fed before.
fn feed_script<D: Desk>(
    desk: &mut D,
    reader: &mut Reader,
    total: usize,
    buffer: &mut [u8],
) -> Result<Feeding, StreamError>
    requires goes_on { reader.old.ended ≡ false }
    requires fed { reader.old.fed ≡ total }
    requires short { total ≤ MOST_BYTES }
    requires some { 0 < length buffer.old }
    requires few { length buffer.old ≤ PIECE_BYTES }
    ensures feeds { IfOk result (λ feeding. Feeds feeding reader.old reader.new (D.left desk.old slot.Script) (D.left desk.new slot.Script)) }
    ensures stopped { IfErr result (FailsToFeed (D.left desk.old slot.Script) (D.left desk.new slot.Script)) }
    ensures same { OnErr result (reader.new ≡ reader.old) }
    ensures desk_cause { HasCause (StreamError.Input InputError.Fault) (D.faults desk.old) (D.faults desk.new) result }
{
    match feed_once(desk, Slot::Script, reader, total, buffer) {
        Ok(feeding) => Ok(feeding),
        Err(error) => Err(StreamError::Input(error)),
    }
}
