//! Answers the complete commands, one after another.
ghost use Rattle.std.specs.Prelude.{IfOk, IfErr};
ghost use Rattle.ct_io.specs.Fault.{HasCause};
ghost use Rattle.ct_run.specs.Progress.{progress, EndsWith, BrokeOff};

use crate::answer::answer;
use ct_io::{Sink, SinkError};
use ct_script::{ScriptError, Session};
use ct_sexpr::{Next, ReadError, Reader, one_reading};

/// How a script ends.
pub enum Ending {
    /// With its last command, or with one that ends it.
    Clean,
    /// With this error.
    Lexical(ScriptError),
    /// Not in what was read of it.
    Cut,
}

/// Answers commands up to the end of the script, or of what was read of it.
pub fn answer_all<K: Sink>(
    reader: &mut Reader,
    session: &mut Session,
    out: &mut K,
) -> Result<Ending, SinkError>
    ensures ends { IfOk result (EndsWith (progress session.old reader.old (K.written out.old)) (progress session.new reader.new (K.written out.new))) }
    ensures broke { IfErr result (λ error. BrokeOff error (progress session.old reader.old (K.written out.old)) (progress session.new reader.new (K.written out.new))) }
    ensures cause { HasCause SinkError.Fault (K.faults out.old) (K.faults out.new) result }
{
    one_reading();
    loop {
        match reader.next() {
            Ok(Next::Command { expr, line }) => {
                if answer(session, line, &expr, out)? {
                    return Ok(Ending::Clean);
                }
            }
            Ok(Next::Need) => return Ok(Ending::Cut),
            Ok(Next::End) => return Ok(Ending::Clean),
            Err(ReadError::Lexical { code, line }) => return Ok(Ending::Lexical((line, code))),
            Err(ReadError::NoMemory) => return Err(SinkError::NoMemory),
        }
    }
}
