//! The audit of the text of a derivation by the text of a script.
ghost use Rattle.std.specs.Prelude.{◌≡◌, true, List, Some, IfOk};
ghost use Rattle.ct_sexpr.specs.Text.{Located, Ending, Reads};
ghost use Rattle.ct_sexpr.specs.View.{expression_of};
ghost use Rattle.ct_log_text.specs.Reading.{departs};
ghost use Rattle.ct_script.specs.Session.{first_course};
ghost use Rattle.ct_audit.specs.Audit.{Audits, JudgesScript, JudgesNumbered, JudgesAt};

use crate::answer::AuditAnswer;
use crate::error::AuditError;
use crate::judge::{DEPARTS, judge};
use ct_log_text::derivation_number;
use ct_replay::{find_check, one_expression};
use ct_script::{ErrorBehavior, Session};
use ct_sexpr::{Reader, Sexpr, one_text};
use std::alloc::Global;

/// The number of the error of a derivation whose check the script does not have.
const NO_CHECK: u16 = 44;

/// Judges the derivation that one reader holds by the script that the other holds: whether it passes over the assertions in force
/// at the check whose number it has. The script is replayed up to that check without solving. The only error is out of memory.
pub fn audit(
    alloc: Global,
    proof: &mut Reader,
    script: &mut Reader,
) -> Result<AuditAnswer, AuditError>
    requires proof_ended { proof.old.ended ≡ true }
    requires proof_line { proof.old.line ≡ 1 }
    requires script_ended { script.old.ended ≡ true }
    requires script_line { script.old.line ≡ 1 }
    ensures audited { IfOk result (Audits proof.old.bytes script.old.bytes) }
{
    one_text();
    let expr = one_expression(proof)?;
    match expr {
        None => Ok(departs()),
        Some(expr) => audit_expression(alloc, &expr, script),
    }
}

// The answer where the derivation is no expression or has no number.
fn departs() -> AuditAnswer
    ensures value { result ≡ AuditAnswer.Wrong 0 departs }
{
    AuditAnswer::Wrong {
        item: 0,
        code: DEPARTS,
    }
}

// Judges the expression by a script.
fn audit_expression(
    alloc: Global,
    expr: &Sexpr,
    script: &mut Reader,
) -> Result<AuditAnswer, AuditError>
    requires ended { script.old.ended ≡ true }
    requires line { script.old.line ≡ 1 }
    ensures judged { IfOk result (JudgesScript (Some (expression_of expr.now)) script.old.bytes) }
{
    one_text();
    match derivation_number(expr) {
        Err(_) => Ok(departs()),
        Ok(number) => audit_check(alloc, expr, number, script),
    }
}

// Judges the expression by the check of a script with this number.
fn audit_check(
    alloc: Global,
    expr: &Sexpr,
    number: u64,
    script: &mut Reader,
) -> Result<AuditAnswer, AuditError>
    requires ended { script.old.ended ≡ true }
    requires line { script.old.line ≡ 1 }
    ensures judged { IfOk result (λ answer. (commands : List Located) × (ending : Ending) × Reads 1 script.old.bytes commands ending
        × JudgesNumbered (expression_of expr.now) (Some number) commands answer) }
{
    let mut session = Session::new(alloc, ErrorBehavior::ContinuedExecution)?;
    let answer = judge_in(alloc, &mut session, expr, number, script);
    drop(session);
    answer
}

// The same in a session in which nothing was done.
fn judge_in(
    alloc: Global,
    session: &mut Session,
    expr: &Sexpr,
    number: u64,
    script: &mut Reader,
) -> Result<AuditAnswer, AuditError>
    requires ended { script.old.ended ≡ true }
    requires first { session.old ≡ first_course }
    ensures judged { IfOk result (λ answer. (commands : List Located) × (ending : Ending) × Reads script.old.line script.old.bytes commands ending
        × JudgesNumbered (expression_of expr.now) (Some number) commands answer) }
{
    let found = find_check(script, session, number)?;
    if !found {
        return Ok(AuditAnswer::Wrong {
            item: 0,
            code: NO_CHECK,
        });
    }
    judge_state(alloc, session, expr)
}

// Judges the expression by the assertions in force.
fn judge_state(alloc: Global, session: &Session, expr: &Sexpr) -> Result<AuditAnswer, AuditError>
    ensures judged { IfOk result (JudgesAt (expression_of expr.now) (Some session.now.state)) }
{
    judge(alloc, session.scope(), session.assertions(), expr)
}
