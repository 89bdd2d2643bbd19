//! The top-level function of the program, over any desk and any sink.

ghost use Rattle.std.specs.Prelude.{◌≡◌, ◌≢◌, ℕ, Bool, List, [], Some, ◌≤◌};
ghost use Rattle.ct_io.specs.Fault.{Rose};
ghost use Rattle.ct_io.specs.declared.desk.Slot.TheVariants as slot;
ghost use Rattle.ct_io.specs.declared.status.Status.TheVariants as status;
ghost use Rattle.ct_arguments.specs.Arguments as arguments;
ghost use Rattle.ct_arguments.specs.Seen.{task_seen};
ghost use Rattle.ct_run.specs.Kept.{kept_in};
ghost use Rattle.ct_run.specs.Run.{Solves, Took, ReportsUsage, ReportsHelp, ReportsVersion, Tells, behavior_of};
ghost use Rattle.ct_run.specs.AuditRun.{ReportsAudit, ReportsModelAudit, Reads};
ghost use Rattle.ct_run.specs.Generated.{ReportsCounts};
ghost use Rattle.ct_run.specs.Tasks.{Does, DoesOfSome, ReadsFiles, IsAudit, IsOfScript};

use crate::audit::{audit_files, audit_model_files};
use crate::generated::generate;
use crate::report::{Report, status_of, unanswered};
use crate::solve::solve;
use ct_arguments::{Task, task_of};
use ct_io::{Desk, Sink, Status, Text, write_all};
use ct_script::ErrorBehavior;
use std::alloc::Global;

/// How the program is called.
const USAGE: &str =
    "usage: cosmt [--strict] [FILE | --audit PROOF FILE | --audit-model MODEL --at K FILE | --gen N | --version]\n";

/// The version of the program.
const VERSION: &str = "cosmt 1.0\n";

/// Runs the program on the arguments of its command line, without its own name.
///
/// One argument that is no option names a script, and no argument, or an empty one, standard input. The
/// script is answered command by command, up to its end, to `exit` or to an error of its text, and with
/// `--strict` to the first error unless it says otherwise. `--audit`
/// with a derivation and a script judges the one by the other, `--audit-model` with a model, a script and
/// `--at` with the number of a check evaluates the assertions in force there, `--gen` with a number answers a script
/// that is generated and counts its answers, `--version` is answered with the version, and `--help` with the line of usage. So are all
/// other arguments, with the status of usage.
pub fn run<D: Desk, K: Sink>(alloc: Global, words: &[Text], desk: &mut D, out: &mut K) -> Report
    // Where the desk tells what it holds under the script's name, the report and what was written are its answers, and after a fault
    // those to what was taken of the script.
    ensures solved { (strict : Bool) (name bytes : List ℕ) → arguments.task_of words.now ≡ arguments.solves strict name → D.held desk.old name ≡ Some bytes
        → (taken : ℕ) × Took result.status bytes taken (D.left desk.old slot.Script) (D.left desk.new slot.Script)
        × Solves (behavior_of strict) bytes taken result.status (kept_in result) result.errors.items (K.written out.old) (K.written out.new) }
    // The same of a derivation that is judged by a script.
    ensures audited { (proof script proof_bytes script_bytes : List ℕ) → arguments.task_of words.now ≡ arguments.audits proof script
        → D.held desk.old proof ≡ Some proof_bytes → D.held desk.old script ≡ Some script_bytes
        → ReportsAudit proof_bytes script_bytes result.status (kept_in result) result.errors.items (K.written out.old) (K.written out.new) }
    // And of a model that is judged by a check of a script.
    ensures model_audited { (model script model_bytes script_bytes : List ℕ) (number : ℕ) → arguments.task_of words.now ≡ arguments.audits_model model number script
        → D.held desk.old model ≡ Some model_bytes → D.held desk.old script ≡ Some script_bytes
        → ReportsModelAudit number model_bytes script_bytes result.status (kept_in result) result.errors.items (K.written out.old) (K.written out.new) }
    // Both files were opened and read before anything was judged.
    ensures read { (proof script : List ℕ) → arguments.task_of words.now ≡ arguments.audits proof script
        → Reads result.status (D.held desk.old proof) (D.left desk.new slot.Proof) (D.held desk.old script) (D.left desk.new slot.Script) }
    ensures model_read { (model script : List ℕ) (number : ℕ) → arguments.task_of words.now ≡ arguments.audits_model model number script
        → Reads result.status (D.held desk.old model) (D.left desk.new slot.Proof) (D.held desk.old script) (D.left desk.new slot.Script) }
    ensures generated { (count : ℕ) → arguments.task_of words.now ≡ arguments.generates count
        → ReportsCounts count result.status (kept_in result) result.errors.items (K.written out.old) (K.written out.new) }
    ensures helped { arguments.task_of words.now ≡ arguments.helps
        → ReportsHelp result.status (kept_in result) result.errors.items (K.written out.old) (K.written out.new) }
    ensures told_version { arguments.task_of words.now ≡ arguments.versions
        → ReportsVersion result.status (kept_in result) result.errors.items (K.written out.old) (K.written out.new) }
    ensures usage { arguments.task_of words.now ≡ arguments.faulty
        → ReportsUsage result.status (kept_in result) result.errors.items (K.written out.old) (K.written out.new) }

    // Where the desk tells nothing, as that of the host, there are still bytes, whatever the status, of which the
    // report is right, and what was written where the sink tells it.
    ensures some_script { (strict : Bool) (name : List ℕ) → arguments.task_of words.now ≡ arguments.solves strict name → (bytes : List ℕ) × (taken : ℕ)
        × Solves (behavior_of strict) bytes taken result.status (kept_in result) result.errors.items (K.written out.old) (K.written out.new) }
    ensures some_files { (proof script : List ℕ) → arguments.task_of words.now ≡ arguments.audits proof script → (proof_bytes : List ℕ) × (script_bytes : List ℕ)
        × ReportsAudit proof_bytes script_bytes result.status (kept_in result) result.errors.items (K.written out.old) (K.written out.new) }
    ensures some_model { (model script : List ℕ) (number : ℕ) → arguments.task_of words.now ≡ arguments.audits_model model number script → (model_bytes : List ℕ) × (script_bytes : List ℕ)
        × ReportsModelAudit number model_bytes script_bytes result.status (kept_in result) result.errors.items (K.written out.old) (K.written out.new) }

    // When each status comes, whatever the desk and the sink tell.
    ensures usage_only { result.status ≡ status.Usage → arguments.task_of words.now ≡ arguments.faulty }
    ensures rejected { result.status ≡ status.Rejected → IsAudit (arguments.task_of words.now) }
    ensures done { result.status ≡ status.Done → result.errors.items ≡ [] }
    ensures refused { result.status ≡ status.Refused → result.errors.items ≢ [] }
    ensures refused_only { result.status ≡ status.Refused → IsOfScript (arguments.task_of words.now) }
    ensures input { result.status ≡ status.InputFault → Rose (D.faults desk.old) (D.faults desk.new) }
    ensures output { result.status ≡ status.OutputFault → Rose (K.faults out.old) (K.faults out.new) }
    ensures counts { (D.faults desk.old ≤ D.faults desk.new) × (K.faults out.old ≤ K.faults out.new) }

    // A run that does not end with the desk's fault met none, and so with the sink.
    ensures desk_uncounted { result.status ≢ status.InputFault
        → D.faults desk.new ≡ D.faults desk.old }
    ensures sink_uncounted { result.status ≢ status.OutputFault
        → K.faults out.new ≡ K.faults out.old }
{
    match task_of(alloc, words) {
        Ok(task) => perform(alloc, task, desk, out),
        Err(_) => unanswered(alloc, Status::NoMemory),
    }
}

/// Does what the arguments ask for.
fn perform<D: Desk, K: Sink>(alloc: Global, task: Task<'_>, desk: &mut D, out: &mut K) -> Report
    requires within { arguments.IsWithin (task_seen task) }
    ensures does { Does (D.held desk.old) (task_seen task.entry) (D.left desk.old slot.Script) (D.left desk.new slot.Script) result.status (kept_in result) result.errors.items (K.written out.old) (K.written out.new) }
    ensures read { ReadsFiles (D.held desk.old) (task_seen task.entry) result.status (D.left desk.new slot.Proof) (D.left desk.new slot.Script) }
    ensures of_some { DoesOfSome (task_seen task.entry) result.status (kept_in result) result.errors.items (K.written out.old) (K.written out.new) }
    ensures input { result.status ≡ status.InputFault → Rose (D.faults desk.old) (D.faults desk.new) }
    ensures output { result.status ≡ status.OutputFault → Rose (K.faults out.old) (K.faults out.new) }
    ensures counts { (D.faults desk.old ≤ D.faults desk.new) × (K.faults out.old ≤ K.faults out.new) }
    ensures desk_uncounted { result.status ≢ status.InputFault → D.faults desk.new ≡ D.faults desk.old }
    ensures sink_uncounted { result.status ≢ status.OutputFault → K.faults out.new ≡ K.faults out.old }
{
    match task {
        Task::Solve { strict, script } => solve(alloc, behavior_of(strict), script, desk, out),
        Task::Audit { proof, script } => audit_files(alloc, proof, script, desk, out),
        Task::AuditModel {
            model,
            number,
            script,
        } => audit_model_files(alloc, model, number, script, desk, out),
        Task::Generate(count) => generate(alloc, count, out),
        Task::Help => tell(alloc, USAGE, out),
        Task::Version => tell(alloc, VERSION, out),
        Task::Faulty => report_usage(alloc, out),
    }
}

/// Writes the line of usage, and nothing else.
pub fn report_usage<K: Sink>(alloc: Global, out: &mut K) -> Report
    ensures reported { ReportsUsage result.status (kept_in result) result.errors.items (K.written out.old) (K.written out.new) }
    ensures output { result.status ≡ status.OutputFault → Rose (K.faults out.old) (K.faults out.new) }
    ensures count { K.faults out.old ≤ K.faults out.new }
    ensures uncounted { result.status ≢ status.OutputFault → K.faults out.new ≡ K.faults out.old }
{
    let status = match write_all(out, USAGE.as_bytes()) {
        Ok(()) => Status::Usage,
        Err(error) => status_of(error),
    };
    unanswered(alloc, status)
}

/// Writes a line that was asked for.
fn tell<K: Sink>(alloc: Global, line: &str, out: &mut K) -> Report
    ensures reported { Tells line.now result.status (kept_in result) result.errors.items (K.written out.old) (K.written out.new) }
    ensures output { result.status ≡ status.OutputFault → Rose (K.faults out.old) (K.faults out.new) }
    ensures count { K.faults out.old ≤ K.faults out.new }
    ensures uncounted { result.status ≢ status.OutputFault → K.faults out.new ≡ K.faults out.old }
{
    let status = match write_all(out, line.as_bytes()) {
        Ok(()) => Status::Done,
        Err(error) => status_of(error),
    };
    unanswered(alloc, status)
}

// What follows an error at the start of a script that is answered strictly, or not.
fn behavior_of(strict: bool) -> ErrorBehavior
    ensures value { result ≡ behavior_of strict }
{
    if strict {
        ErrorBehavior::ImmediateExit
    } else {
        ErrorBehavior::ContinuedExecution
    }
}
