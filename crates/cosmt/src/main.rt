//! The program: reads a script, answers its commands, and backs each answer with a witness.
#![tactic(auto)]

mod reason;

ghost use Rattle.std.specs.Prelude.{◌≡◌, ◌≢◌, ℕ, Bool, List, [], Some, ◌≤◌};
ghost use Rattle.ct_io.specs.Fault.{Rose};
ghost use Rattle.ct_io.specs.declared.desk.Slot.TheVariants as slot;
ghost use Rattle.ct_io.specs.declared.status.Status.TheVariants as status;
ghost use Rattle.ct_arguments.specs.Arguments as arguments;
ghost use Rattle.ct_run.specs.Kept.{kept_in};
ghost use Rattle.ct_run.specs.Run.{Solves, Took, ReportsUsage, ReportsHelp, ReportsVersion, behavior_of};
ghost use Rattle.ct_run.specs.AuditRun.{ReportsAudit, ReportsModelAudit, Reads};
ghost use Rattle.ct_run.specs.Generated.{ReportsCounts};
ghost use Rattle.ct_run.specs.Tasks.{IsAudit, IsOfScript};

use crate::reason::explain;
use ct_io::{Desk, HostDesk, HostSink, Sink, Status, Text};
use ct_run::{Report, report_usage, unanswered};
use std::alloc::Global;
use std::process::ExitCode;
use std::{env, io};

fn main(rt: HostRuntime) -> ExitCode {
    let mut out = HostSink::new(rt);
    let status = match words(&rt) {
        Ok(words) => answered(rt, words.as_slice(), &mut out),
        Err(error) => without_arguments(&rt, error.kind(), &mut out),
    };
    ExitCode::from(status.code())
}

/// Runs the program, and says on standard error why there are no answers, or not all. Where that cannot be said, the status tells.
fn answered(rt: HostRuntime, words: &[Text], out: &mut HostSink<HostRuntime>) -> Status {
    let report = run(rt.alloc(), words, &mut HostDesk::new(rt), out);
    drop(explain(&rt, words, report.status));
    report.status
}

/// Runs the program on the arguments of its command line, without its own name.
///
/// One argument that is no option names a script, and no argument, or an empty one, standard input. The
/// script is answered command by command, up to its end, to `exit` or to an error of its text, and with
/// `--strict` to the first error unless it says otherwise. `--audit`
/// with a derivation and a script judges the one by the other, `--gen` with a number answers a script
/// that is generated and counts its answers, `--version` is answered with the version, and `--help` with the line of usage. So are all
/// other arguments, with the status of usage.
pub fn run<D: Desk, K: Sink>(alloc: Global, words: &[Text], desk: &mut D, out: &mut K) -> Report
    // Where the desk tells what it holds under the script's name, the report and what was written are its answers, and after a fault
    // those to what was taken of the script.
    ensures solved { (strict : Bool) (name bytes : List ℕ) → arguments.task_of words.now ≡ arguments.solves strict name → D.held desk.old name ≡ Some bytes
        → (taken : ℕ) × Took result.status bytes taken (D.left desk.old slot.Script) (D.left desk.new slot.Script)
        × Solves (behavior_of strict) bytes taken result.status (kept_in result) result.errors.items (K.written out.old) (K.written out.new) }
    // The same of a derivation that is judged by a script.
    ensures audited { (proof script proof_bytes script_bytes : List ℕ) → arguments.task_of words.now ≡ arguments.audits proof script
        → D.held desk.old proof ≡ Some proof_bytes → D.held desk.old script ≡ Some script_bytes
        → ReportsAudit proof_bytes script_bytes result.status (kept_in result) result.errors.items (K.written out.old) (K.written out.new) }
    // And of a model that is judged by a check of a script.
    ensures model_audited { (model script model_bytes script_bytes : List ℕ) (number : ℕ) → arguments.task_of words.now ≡ arguments.audits_model model number script
        → D.held desk.old model ≡ Some model_bytes → D.held desk.old script ≡ Some script_bytes
        → ReportsModelAudit number model_bytes script_bytes result.status (kept_in result) result.errors.items (K.written out.old) (K.written out.new) }
    // Both files were opened and read before anything was judged.
    ensures read { (proof script : List ℕ) → arguments.task_of words.now ≡ arguments.audits proof script
        → Reads result.status (D.held desk.old proof) (D.left desk.new slot.Proof) (D.held desk.old script) (D.left desk.new slot.Script) }
    ensures model_read { (model script : List ℕ) (number : ℕ) → arguments.task_of words.now ≡ arguments.audits_model model number script
        → Reads result.status (D.held desk.old model) (D.left desk.new slot.Proof) (D.held desk.old script) (D.left desk.new slot.Script) }
    ensures generated { (count : ℕ) → arguments.task_of words.now ≡ arguments.generates count
        → ReportsCounts count result.status (kept_in result) result.errors.items (K.written out.old) (K.written out.new) }
    ensures helped { arguments.task_of words.now ≡ arguments.helps
        → ReportsHelp result.status (kept_in result) result.errors.items (K.written out.old) (K.written out.new) }
    ensures told_version { arguments.task_of words.now ≡ arguments.versions
        → ReportsVersion result.status (kept_in result) result.errors.items (K.written out.old) (K.written out.new) }
    ensures usage { arguments.task_of words.now ≡ arguments.faulty
        → ReportsUsage result.status (kept_in result) result.errors.items (K.written out.old) (K.written out.new) }

    // Where the desk tells nothing, as that of the host, there are still bytes, whatever the status, of which the
    // report is right, and what was written where the sink tells it.
    ensures some_script { (strict : Bool) (name : List ℕ) → arguments.task_of words.now ≡ arguments.solves strict name → (bytes : List ℕ) × (taken : ℕ)
        × Solves (behavior_of strict) bytes taken result.status (kept_in result) result.errors.items (K.written out.old) (K.written out.new) }
    ensures some_files { (proof script : List ℕ) → arguments.task_of words.now ≡ arguments.audits proof script → (proof_bytes : List ℕ) × (script_bytes : List ℕ)
        × ReportsAudit proof_bytes script_bytes result.status (kept_in result) result.errors.items (K.written out.old) (K.written out.new) }
    ensures some_model { (model script : List ℕ) (number : ℕ) → arguments.task_of words.now ≡ arguments.audits_model model number script → (model_bytes : List ℕ) × (script_bytes : List ℕ)
        × ReportsModelAudit number model_bytes script_bytes result.status (kept_in result) result.errors.items (K.written out.old) (K.written out.new) }

    // When each status comes, whatever the desk and the sink tell.
    ensures usage_only { result.status ≡ status.Usage → arguments.task_of words.now ≡ arguments.faulty }
    ensures rejected { result.status ≡ status.Rejected → IsAudit (arguments.task_of words.now) }
    ensures done { result.status ≡ status.Done → result.errors.items ≡ [] }
    ensures refused { result.status ≡ status.Refused → result.errors.items ≢ [] }
    ensures refused_only { result.status ≡ status.Refused → IsOfScript (arguments.task_of words.now) }
    ensures input { result.status ≡ status.InputFault → Rose (D.faults desk.old) (D.faults desk.new) }
    ensures output { result.status ≡ status.OutputFault → Rose (K.faults out.old) (K.faults out.new) }
    ensures counts { (D.faults desk.old ≤ D.faults desk.new) × (K.faults out.old ≤ K.faults out.new) }

    // A run that does not end with the desk's fault met none, and so with the sink.
    ensures desk_uncounted { result.status ≢ status.InputFault
        → D.faults desk.new ≡ D.faults desk.old }
    ensures sink_uncounted { result.status ≢ status.OutputFault
        → K.faults out.new ≡ K.faults out.old }
{
    ct_run::run(alloc, words, desk, out)
}

/// The arguments of the command line, without the program's own name.
fn words(rt: &HostRuntime) -> io::Result<Vec<Text>> {
    let mut words = Vec::new(rt.alloc());
    for word in env::args(rt)?.skip(1) {
        words.push(Text::new(word))?;
    }
    Ok(words)
}

/// An argument that is not UTF-8 is none of the accepted forms; else memory ran out.
fn without_arguments(
    rt: &HostRuntime,
    error: io::ErrorKind,
    out: &mut HostSink<HostRuntime>,
) -> Status {
    if error == io::ErrorKind::InvalidData {
        drop(eprintln!(rt; "cosmt: an argument is not UTF-8"));
        return report_usage(rt.alloc(), out).status;
    }
    drop(eprintln!(rt; "cosmt: out of memory"));
    unanswered(rt.alloc(), Status::NoMemory).status
}
