//! Writes answers, each on a line of its own.
ghost use Rattle.std.specs.Prelude.{◌≡◌, ◌⊎◌, IfOk, OnOk, IfErr};
ghost use Rattle.ct_io.specs.Fault.{HasCause};
ghost use Rattle.ct_sexpr.specs.View.{expression_of};
ghost use Rattle.ct_script.specs.Answers.{lines_of};
ghost use Rattle.ct_step.specs.Step.{CommandEffect};
ghost use Rattle.ct_run.specs.Output.{wrote, IsLeft};
ghost use Rattle.ct_run.specs.Progress.{AnsweredWith, IsUnanswered, IsCutOff};

use ct_io::{Sink, SinkError, write_all};
use ct_script::Session;
use ct_sexpr::Sexpr;

/// Answers a command that begins on this line. Whether the script ends with it.
pub fn answer<K: Sink>(
    session: &mut Session,
    line: u64,
    expr: &Sexpr,
    out: &mut K,
) -> Result<bool, SinkError>
    ensures answered { IfOk result (λ stop. (e : CommandEffect) × AnsweredWith session.old session.new line (expression_of expr.now) e
        × (stop ≡ e.stop) × (K.written out.new ≡ wrote (lines_of e.text) (K.written out.old))) }
    ensures broke { IfErr result (λ error. IsUnanswered error session.old session.new (K.written out.old) (K.written out.new)
        ⊎ IsCutOff error session.old session.new line (expression_of expr.now) (K.written out.old) (K.written out.new)) }
    ensures cause { HasCause SinkError.Fault (K.faults out.old) (K.faults out.new) result }
{
    match session.command(line, expr) {
        Ok(answer) => {
            write_line(answer.text, out)?;
            Ok(answer.stop)
        }
        Err(_) => Err(SinkError::NoMemory),
    }
}

/// Writes a text that is not empty, and ends its line.
pub fn write_line<K: Sink>(text: Vec<u8>, out: &mut K) -> Result<(), SinkError>
    ensures ok { OnOk result (K.written out.new ≡ wrote (lines_of text.items) (K.written out.old)) }
    ensures broke { IfErr result (λ error. IsLeft error (lines_of text.items) (K.written out.old) (K.written out.new)) }
    ensures cause { HasCause SinkError.Fault (K.faults out.old) (K.faults out.new) result }
{
    if text.is_empty() {
        return Ok(());
    }
    let mut text = text;
    if text.push(b'\n').is_err() {
        return Err(SinkError::NoMemory);
    }
    write_all(out, text.as_slice())
}
