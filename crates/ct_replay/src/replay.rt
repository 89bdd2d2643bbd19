//! Replays a script up to one of its checks.
ghost use Rattle.std.specs.Prelude.{◌≡◌, ◌==◌, ◌&&◌, ◌∷◌, true, List, Option, IfOk};
ghost use Rattle.ct_sexpr.specs.Text.{Located, Ending, Reads};
ghost use Rattle.ct_sexpr.specs.View.{expression_of};
ghost use Rattle.ct_step.specs.Evidence.{no_evidence};
ghost use Rattle.ct_step.specs.State.{State};
ghost use Rattle.ct_replay.specs.Found.{Finds, FindsFrom, is_wanted, state_where};
ghost use Rattle.ct_replay.specs.Turn.{FindsAfter};

use crate::error::ReplayError;
use ct_script::{Replayed, Session, Standing};
use ct_sexpr::{Next, ReadError, Reader, Sexpr, one_text};

/// How the search for a check stands after a command.
pub(crate) enum Turn {
    /// The command is that check.
    Found,
    /// The script ends with the command.
    Over,
    /// The search goes on, and a verdict of such a check stands.
    On(Standing),
}

/// Replays a script up to its check with this number. Whether there is one.
pub fn find_check(
    reader: &mut Reader,
    session: &mut Session,
    wanted: u64,
) -> Result<bool, ReplayError>
    requires ended { reader.old.ended ≡ true }
    requires unanswered { session.old.evidence ≡ no_evidence }
    ensures found { IfOk result (λ found. (commands : List Located) × (ending : Ending) × Reads reader.old.line reader.old.bytes commands ending
        × Finds session.old commands wanted (state_where found session.new.state)) }
{
    one_text();
    let mut standing = Standing::Nothing;
    loop {
        match reader.next() {
            Ok(Next::Command { expr, line }) => {
                let turn = replay(session, standing, line, &expr, wanted)?;
                match turn {
                    Turn::Found => return Ok(true),
                    Turn::Over => return Ok(false),
                    Turn::On(now) => standing = now,
                }
            }
            Ok(Next::Need) => unreachable!(),
            Ok(Next::End) => return Ok(false),
            Err(ReadError::Lexical { .. }) => return Ok(false),
            Err(ReadError::NoMemory) => return Err(ReplayError),
        }
    }
}

// Replays a command that begins on this line, where a verdict of such a check stands.
fn replay(
    session: &mut Session,
    standing: Standing,
    line: u64,
    expr: &Sexpr,
    wanted: u64,
) -> Result<Turn, ReplayError>
    requires unanswered { session.old.evidence ≡ no_evidence }
    ensures unanswered { session.new.evidence ≡ no_evidence }
    ensures turned { IfOk result (λ turn. (commands : List Located) (found : Option State) → FindsAfter turn session.new commands wanted found
        → FindsFrom session.old standing (record { command = expression_of expr.now; line = line } ∷ commands) wanted found) }
{
    let replayed = session.replay(line, expr, standing)?;
    if is_wanted(replayed, session.checks(), wanted) {
        return Ok(Turn::Found);
    }
    if replayed.stop {
        return Ok(Turn::Over);
    }
    Ok(Turn::On(replayed.standing))
}

// Whether the command, after which there were so many checks, is the check with the wanted number.
fn is_wanted(replayed: Replayed, checks: u64, wanted: u64) -> bool
    ensures value { result ≡ is_wanted replayed checks wanted }
{
    replayed.check && checks == wanted
}
