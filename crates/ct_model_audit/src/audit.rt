//! The audit of the text of a model by the text of a script.
ghost use Rattle.std.specs.Prelude.{◌≡◌, ◌<◌, suc, true, List, Some, IfOk};
ghost use Rattle.ct_sexpr.specs.Text.{Located, Ending, Reads};
ghost use Rattle.ct_sexpr.specs.View.{expression_of};
ghost use Rattle.ct_card.specs.Sizes.{AreSizes};
ghost use Rattle.ct_eval.specs.Interpretation.{IsProper};
ghost use Rattle.ct_script.specs.Session.{first_course};
ghost use Rattle.ct_step.specs.State.{context_of, declared};
ghost use Rattle.ct_stack.specs.Stack.{in_force};
ghost use Rattle.ct_audit.specs.declared.answer.AuditAnswer.TheVariants as said;
ghost use Rattle.ct_readback.specs.ModelReads.{departs};
ghost use Rattle.ct_model_audit.specs.ModelAudit.{AuditsModel, JudgesScript, JudgesText, JudgesModel, JudgesInterp};

use ct_audit::{AuditAnswer, AuditError};
use ct_card::Sizes;
use ct_eval::{Interp, holds};
use ct_meaning::meanings;
use ct_readback::{BackError, read_model};
use ct_replay::{find_check, one_expression};
use ct_script::{ErrorBehavior, Session};
use ct_sexpr::{Reader, Sexpr, one_text};
use ct_sorts::Signature;
use std::alloc::Global;

/// The number of the error of a model that departs from its form.
const DEPARTS: u16 = 45;

/// The number of the error where the script does not have the check.
const NO_CHECK: u16 = 44;

/// Judges the model that one reader holds by the script that the other holds: whether all assertions in force at the check with this
/// number, counted from 1, are true in it. The script is replayed up to that check without solving. The only error is out of memory.
pub fn audit_model(
    alloc: Global,
    number: u64,
    model: &mut Reader,
    script: &mut Reader,
) -> Result<AuditAnswer, AuditError>
    requires model_ended { model.old.ended ≡ true }
    requires model_line { model.old.line ≡ 1 }
    requires script_ended { script.old.ended ≡ true }
    requires script_line { script.old.line ≡ 1 }
    ensures audited { IfOk result (AuditsModel number model.old.bytes script.old.bytes) }
{
    one_text();
    let expr = one_expression(model)?;
    match expr {
        None => Ok(departs()),
        Some(expr) => audit_expression(alloc, &expr, number, script),
    }
}

// The answer where the model is no expression.
fn departs() -> AuditAnswer
    ensures value { result ≡ said.Wrong 0 departs }
{
    AuditAnswer::Wrong {
        item: 0,
        code: DEPARTS,
    }
}

// Judges the expression by the check of a script with this number.
fn audit_expression(
    alloc: Global,
    expr: &Sexpr,
    number: u64,
    script: &mut Reader,
) -> Result<AuditAnswer, AuditError>
    requires ended { script.old.ended ≡ true }
    requires line { script.old.line ≡ 1 }
    ensures judged { IfOk result (JudgesScript (Some (expression_of expr.now)) number script.old.bytes) }
{
    let mut session = Session::new(alloc, ErrorBehavior::ContinuedExecution)?;
    let answer = judge_in(alloc, &mut session, expr, number, script);
    drop(session);
    answer
}

// The same in a session in which nothing was done.
fn judge_in(
    alloc: Global,
    session: &mut Session,
    expr: &Sexpr,
    number: u64,
    script: &mut Reader,
) -> Result<AuditAnswer, AuditError>
    requires ended { script.old.ended ≡ true }
    requires first { session.old ≡ first_course }
    ensures judged { IfOk result (λ answer. (commands : List Located) × (ending : Ending) × Reads script.old.line script.old.bytes commands ending
        × JudgesText (Some (expression_of expr.now)) number commands answer) }
{
    let found = find_check(script, session, number)?;
    if !found {
        return Ok(AuditAnswer::Wrong {
            item: 0,
            code: NO_CHECK,
        });
    }
    judge(alloc, session, expr)
}

// Judges the expression by what is declared and the assertions in force.
fn judge(alloc: Global, session: &Session, expr: &Sexpr) -> Result<AuditAnswer, AuditError>
    ensures judged { IfOk result (JudgesModel (context_of session.now.state) (in_force session.now.state.stack) (expression_of expr.now)) }
{
    let sizes = sizes_of(alloc, declared(session))?;
    judge_sized(alloc, session, &sizes, expr)
}

// The same over the sizes of what is declared.
fn judge_sized(
    alloc: Global,
    session: &Session,
    sizes: &Sizes,
    expr: &Sexpr,
) -> Result<AuditAnswer, AuditError>
    requires sizes { AreSizes (declared session.now.state) sizes.now }
    ensures judged { IfOk result (JudgesModel (context_of session.now.state) (in_force session.now.state.stack) (expression_of expr.now)) }
{
    match read_model(alloc, declared(session), sizes, expr) {
        Ok(interp) => judge_interp(alloc, session, interp),
        Err(BackError::Form { item, code }) => Ok(AuditAnswer::Wrong { item, code }),
        Err(BackError::NoMemory) => Err(AuditError),
    }
}

// What is declared.
fn declared(session: &Session) -> &Signature
    ensures value { result.now ≡ declared session.now.state }
{
    &session.scope().sig
}

// The sizes of all sorts.
fn sizes_of(alloc: Global, sig: &Signature) -> Result<Box<Sizes>, AuditError>
    ensures sizes { IfOk result (λ sizes. AreSizes sig.now sizes.value) }
{
    let sizes = Sizes::new(alloc, sig)?;
    Ok(Box::new(alloc, sizes)?)
}

// Judges an interpretation by the assertions in force.
fn judge_interp(alloc: Global, session: &Session, interp: Interp) -> Result<AuditAnswer, AuditError>
    requires proper { IsProper (declared session.now.state) interp }
    ensures judged { IfOk result (JudgesInterp (context_of session.now.state) (in_force session.now.state.stack) interp) }
{
    let answer = judge_assertions(alloc, session, &interp);
    drop(interp);
    answer
}

// The answer by the first assertion that is not true, of which the core terms tell.
fn judge_assertions(
    alloc: Global,
    session: &Session,
    interp: &Interp,
) -> Result<AuditAnswer, AuditError>
    requires proper { IsProper (declared session.now.state) interp.now }
    ensures judged { IfOk result (JudgesInterp (context_of session.now.state) (in_force session.now.state.stack) interp.now) }
{
    meanings();
    let sig = declared(session);
    sig.sorts();
    let (table, asserts) = session.core_terms();
    let count = asserts.len();
    let untrue = holds(alloc, sig, interp, table, asserts)?;
    match untrue {
        None => Ok(AuditAnswer::Verified),
        Some(place) => Ok(AuditAnswer::Rejected(number_of(place, count))),
    }
}

// The number, counted from 1, of what stands at a place of so many.
fn number_of(place: usize, count: usize) -> u64
    requires inside { place < count }
    ensures number { result ≡ suc place }
{
    place as u64 + 1
}
