//! Judges a stored derivation, or a stored model, by its script.

ghost use Rattle.std.specs.Prelude.{◌≡◌, ◌≢◌, ◌≤◌, ◌&&◌, ℕ, List, Some, is_some, IfOk, IfErr, OnOk, option_to_list};
ghost use Rattle.ct_io.specs.Fault.{HasCause, Rose};
ghost use Rattle.ct_io.specs.declared.desk.Slot.TheVariants as slot;
ghost use Rattle.ct_io.specs.declared.status.Status.TheVariants as status;
ghost use Rattle.ct_input.specs.Slot.{IsWholeOf};
ghost use Rattle.ct_audit.specs.Answer.{audit_error};
ghost use Rattle.ct_run.specs.Kept.{kept_in};
ghost use Rattle.ct_run.specs.Output.{wrote, IsLeft};
ghost use Rattle.ct_run.specs.AuditRun.{AreFiles, AreRead, Reads, Reports, ReportsAudit, ReportsModelAudit, answer_line, status_of_answer};

use crate::answer::write_line;
use crate::report::{Report, status_of, unanswered};
use ct_audit::{AuditAnswer, audit, audit_error, audit_text};
use ct_input::{InputError, read_whole_slot};
use ct_io::{Desk, Sink, SinkError, Slot, Status};
use ct_model_audit::audit_model;
use ct_script::ScriptError;
use ct_sexpr::Reader;
use std::alloc::{AllocError, Global};

/// Reads the derivation and the script under their names, and writes what is judged of the first by
/// the second. Both are opened and read before anything is judged.
pub fn audit_files<D: Desk, K: Sink>(
    alloc: Global,
    proof: &str,
    script: &str,
    desk: &mut D,
    out: &mut K,
) -> Report
    ensures audited { (proof_bytes script_bytes : List ℕ) → D.held desk.old proof.now ≡ Some proof_bytes → D.held desk.old script.now ≡ Some script_bytes
        → ReportsAudit proof_bytes script_bytes result.status (kept_in result) result.errors.items (K.written out.old) (K.written out.new) }
    ensures some_files { (proof_bytes : List ℕ) × (script_bytes : List ℕ)
        × ReportsAudit proof_bytes script_bytes result.status (kept_in result) result.errors.items (K.written out.old) (K.written out.new) }
    ensures read { Reads result.status (D.held desk.old proof.now) (D.left desk.new slot.Proof) (D.held desk.old script.now) (D.left desk.new slot.Script) }
    ensures input { result.status ≡ status.InputFault → Rose (D.faults desk.old) (D.faults desk.new) }
    ensures output { result.status ≡ status.OutputFault → Rose (K.faults out.old) (K.faults out.new) }
    ensures counts { (D.faults desk.old ≤ D.faults desk.new) × (K.faults out.old ≤ K.faults out.new) }
    ensures desk_uncounted { result.status ≢ status.InputFault → D.faults desk.new ≡ D.faults desk.old }
    ensures sink_uncounted { result.status ≢ status.OutputFault → K.faults out.new ≡ K.faults out.old }
{
    match read_files(alloc, proof, script, desk) {
        Ok(Some((mut proof, mut script))) => judge(alloc, &mut proof, &mut script, out),
        Ok(None) => unanswered(alloc, Status::TooLong),
        Err(InputError::Fault) => unanswered(alloc, Status::InputFault),
        Err(InputError::NoMemory) => unanswered(alloc, Status::NoMemory),
    }
}

/// Reads the model and the script under their names, and writes what is judged of the first by the
/// check of the second with this number. Both are opened and read before anything is judged.
pub fn audit_model_files<D: Desk, K: Sink>(
    alloc: Global,
    model: &str,
    number: u64,
    script: &str,
    desk: &mut D,
    out: &mut K,
) -> Report
    ensures audited { (model_bytes script_bytes : List ℕ) → D.held desk.old model.now ≡ Some model_bytes → D.held desk.old script.now ≡ Some script_bytes
        → ReportsModelAudit number model_bytes script_bytes result.status (kept_in result) result.errors.items (K.written out.old) (K.written out.new) }
    ensures some_files { (model_bytes : List ℕ) × (script_bytes : List ℕ)
        × ReportsModelAudit number model_bytes script_bytes result.status (kept_in result) result.errors.items (K.written out.old) (K.written out.new) }
    ensures read { Reads result.status (D.held desk.old model.now) (D.left desk.new slot.Proof) (D.held desk.old script.now) (D.left desk.new slot.Script) }
    ensures input { result.status ≡ status.InputFault → Rose (D.faults desk.old) (D.faults desk.new) }
    ensures output { result.status ≡ status.OutputFault → Rose (K.faults out.old) (K.faults out.new) }
    ensures counts { (D.faults desk.old ≤ D.faults desk.new) × (K.faults out.old ≤ K.faults out.new) }
    ensures desk_uncounted { result.status ≢ status.InputFault → D.faults desk.new ≡ D.faults desk.old }
    ensures sink_uncounted { result.status ≢ status.OutputFault → K.faults out.new ≡ K.faults out.old }
{
    match read_files(alloc, model, script, desk) {
        Ok(Some((mut model, mut script))) => {
            judge_model(alloc, number, &mut model, &mut script, out)
        }
        Ok(None) => unanswered(alloc, Status::TooLong),
        Err(InputError::Fault) => unanswered(alloc, Status::InputFault),
        Err(InputError::NoMemory) => unanswered(alloc, Status::NoMemory),
    }
}

/// Readers of the derivation or the model, and of the script. `None` where one of them is too long.
fn read_files<D: Desk>(
    alloc: Global,
    proof: &str,
    script: &str,
    desk: &mut D,
) -> Result<Option<(Reader, Reader)>, InputError>
    ensures fed { IfOk result (λ files. (proof_bytes : List ℕ) × (script_bytes : List ℕ) × AreFiles proof_bytes script_bytes files) }
    ensures held { IfOk result (λ files. (proof_bytes script_bytes : List ℕ) → D.held desk.old proof.now ≡ Some proof_bytes → D.held desk.old script.now ≡ Some script_bytes
        → AreFiles proof_bytes script_bytes files) }
    ensures read { IfOk result (λ files. AreRead (is_some files) (D.held desk.old proof.now) (D.left desk.new slot.Proof) (D.held desk.old script.now) (D.left desk.new slot.Script)) }
    ensures cause { HasCause InputError.Fault (D.faults desk.old) (D.faults desk.new) result }
{
    let proof = read_whole_slot(alloc, desk, Slot::Proof, proof)?;
    let script = read_whole_slot(alloc, desk, Slot::Script, script)?;
    Ok(both(proof, script))
}

/// Both readers, where there are both.
fn both(proof: Option<Reader>, script: Option<Reader>) -> Option<(Reader, Reader)>
    ensures files { (proof_bytes script_bytes : List ℕ) → IsWholeOf proof_bytes proof → IsWholeOf script_bytes script → AreFiles proof_bytes script_bytes result }
    ensures some { is_some result ≡ (is_some proof && is_some script) }
{
    match (proof, script) {
        (Some(proof), Some(script)) => Some((proof, script)),
        _ => None,
    }
}

/// Judges the derivation by the script, and reports the answer.
fn judge<K: Sink>(alloc: Global, proof: &mut Reader, script: &mut Reader, out: &mut K) -> Report
    requires files { (proof_bytes : List ℕ) × (script_bytes : List ℕ) × AreFiles proof_bytes script_bytes (Some (proof.old, script.old)) }
    ensures audited { (proof_bytes script_bytes : List ℕ) → AreFiles proof_bytes script_bytes (Some (proof.old, script.old))
        → ReportsAudit proof_bytes script_bytes result.status (kept_in result) result.errors.items (K.written out.old) (K.written out.new) }
    ensures input { result.status ≢ status.InputFault }
    ensures whole { result.status ≢ status.TooLong }
    ensures output { result.status ≡ status.OutputFault → Rose (K.faults out.old) (K.faults out.new) }
    ensures count { K.faults out.old ≤ K.faults out.new }
    ensures uncounted { result.status ≢ status.OutputFault → K.faults out.new ≡ K.faults out.old }
{
    match audit(alloc, proof, script) {
        Ok(answer) => report_answer(alloc, answer, out),
        Err(_) => unanswered(alloc, Status::NoMemory),
    }
}

/// Judges the model by the check of the script with this number, and reports the answer.
fn judge_model<K: Sink>(
    alloc: Global,
    number: u64,
    model: &mut Reader,
    script: &mut Reader,
    out: &mut K,
) -> Report
    requires files { (model_bytes : List ℕ) × (script_bytes : List ℕ) × AreFiles model_bytes script_bytes (Some (model.old, script.old)) }
    ensures audited { (model_bytes script_bytes : List ℕ) → AreFiles model_bytes script_bytes (Some (model.old, script.old))
        → ReportsModelAudit number model_bytes script_bytes result.status (kept_in result) result.errors.items (K.written out.old) (K.written out.new) }
    ensures input { result.status ≢ status.InputFault }
    ensures whole { result.status ≢ status.TooLong }
    ensures output { result.status ≡ status.OutputFault → Rose (K.faults out.old) (K.faults out.new) }
    ensures count { K.faults out.old ≤ K.faults out.new }
    ensures uncounted { result.status ≢ status.OutputFault → K.faults out.new ≡ K.faults out.old }
{
    match audit_model(alloc, number, model, script) {
        Ok(answer) => report_answer(alloc, answer, out),
        Err(_) => unanswered(alloc, Status::NoMemory),
    }
}

/// Reports an answer, and writes its line. Where memory runs out before that, nothing is reported.
fn report_answer<K: Sink>(alloc: Global, answer: AuditAnswer, out: &mut K) -> Report
    ensures reported { Reports answer result.status (kept_in result) result.errors.items (K.written out.old) (K.written out.new) }
    ensures input { result.status ≢ status.InputFault }
    ensures whole { result.status ≢ status.TooLong }
    ensures output { result.status ≡ status.OutputFault → Rose (K.faults out.old) (K.faults out.new) }
    ensures count { K.faults out.old ≤ K.faults out.new }
    ensures uncounted { result.status ≢ status.OutputFault → K.faults out.new ≡ K.faults out.old }
{
    let Ok(errors) = errors_of(alloc, answer) else {
        return unanswered(alloc, Status::NoMemory);
    };
    let status = match write_answer(alloc, answer, out) {
        Ok(()) => status_of_answer(answer),
        Err(error) => status_of(error),
    };
    Report {
        status,
        responses: Vec::new(alloc),
        errors,
        last: None,
        shrunk: None,
    }
}

/// The errors of an answer: one, or none where it is `verified`.
fn errors_of(alloc: Global, answer: AuditAnswer) -> Result<Vec<ScriptError>, AllocError>
    ensures errors { IfOk result (λ errors. errors.items ≡ option_to_list (audit_error answer)) }
{
    let mut errors = Vec::new(alloc);
    if let Some(error) = audit_error(&answer) {
        errors.push(error)?;
    }
    Ok(errors)
}

/// The status of an answer.
fn status_of_answer(answer: AuditAnswer) -> Status
    ensures status { result ≡ status_of_answer answer }
{
    match answer {
        AuditAnswer::Verified => Status::Done,
        AuditAnswer::Rejected(_) | AuditAnswer::Wrong { .. } => Status::Rejected,
    }
}

/// Writes the line of an answer.
fn write_answer<K: Sink>(alloc: Global, answer: AuditAnswer, out: &mut K) -> Result<(), SinkError>
    ensures ok { OnOk result (K.written out.new ≡ wrote (answer_line answer) (K.written out.old)) }
    ensures broke { IfErr result (λ e. IsLeft e (answer_line answer) (K.written out.old) (K.written out.new)) }
    ensures cause { HasCause SinkError.Fault (K.faults out.old) (K.faults out.new) result }
{
    match audit_text(alloc, &answer) {
        Ok(text) => write_line(text, out),
        Err(_) => Err(SinkError::NoMemory),
    }
}
