//! Answers a generated script, and writes how often each answer was given.

ghost use Rattle.std.specs.Prelude.{◌≡◌, ◌≢◌, ◌≤◌, ◌<◌, ℕ, List, [], IfErr, IfOk, None, OnErr, Option, length, take};
ghost use Rattle.ct_io.specs.Bytes.{appended};
ghost use Rattle.ct_io.specs.Fault.{HasCause, Rose};
ghost use Rattle.ct_io.specs.declared.status.Status.TheVariants as status;
ghost use Rattle.ct_gen.specs.Script.{script};
ghost use Rattle.ct_input.specs.Slot.{IsReadWhole};
ghost use Rattle.ct_run.specs.Kept.{kept_in};
ghost use Rattle.ct_run.specs.Generated as spec;
ghost use Rattle.ct_run.specs.Generated.{HasResponsesAlone, IsSolved, IsSolvedSoFar, ReportsCounts};

use crate::counts::counts_line;
use crate::report::{Report, status_of};
use crate::solve::answer_script;
use ct_gen::gen_script;
use ct_io::{Sink, SinkError, Status, write_all};
use ct_script::CheckResponse;
use ct_sexpr::{ReadError, Reader};
use std::alloc::Global;

/// Answers the generated script of `n` blocks in a session, and writes one line with the number of
/// checks that had each answer.
pub fn generate<K: Sink>(alloc: Global, n: u64, out: &mut K) -> Report
    requires some { 1 ≤ n }
    requires few { n ≤ 2000 }
    ensures counted { ReportsCounts n result.status (kept_in result) result.errors.items (K.written out.old) (K.written out.new) }
    ensures output { result.status ≡ status.OutputFault → Rose (K.faults out.old) (K.faults out.new) }
    ensures count { K.faults out.old ≤ K.faults out.new }
    ensures uncounted { result.status ≢ status.OutputFault → K.faults out.new ≡ K.faults out.old }
{
    match solve_generated(alloc, n) {
        Ok(responses) => report_counts(alloc, n, responses, out),
        Err(responses) => without_errors(alloc, Status::NoMemory, responses),
    }
}

/// The answers of the checks of the generated script. Where memory ran out, those of the checks before that; and so where a command was
/// refused, which none of a generated script is.
#[tactic(auto, using(crate::proofs::GeneratedLemmas::nothing_solved))]
fn solve_generated(alloc: Global, n: u64) -> Result<Vec<CheckResponse>, Vec<CheckResponse>>
    requires some { 1 ≤ n }
    requires few { n ≤ 2000 }
    ensures solved { IfOk result (λ responses. IsSolved n responses.items) }
    ensures stopped { IfErr result (λ responses. IsSolvedSoFar n responses.items) }
{
    let Ok(mut reader) = read_generated(alloc, n) else {
        return Err(Vec::new(alloc));
    };
    let Report {
        status,
        responses,
        ..
    } = answer_script(alloc, &mut reader, &mut NoSink);
    if is_done(status) {
        Ok(responses)
    } else {
        Err(responses)
    }
}

/// Whether a script that ends with this status was answered to its end, without an error.
fn is_done(status: Status) -> bool
    ensures value { result ≡ spec.is_done status }
{
    matches!(status, Status::Done)
}

/// A reader that was fed the generated script, and its end.
fn read_generated(alloc: Global, n: u64) -> Result<Reader, ReadError>
    requires some { 1 ≤ n }
    requires few { n ≤ 2000 }
    ensures fed { IfOk result (λ reader. IsReadWhole (script n) reader) }
{
    let Ok(text) = gen_script(alloc, n) else {
        return Err(ReadError::NoMemory);
    };
    let mut reader = Reader::new(alloc)?;
    reader.feed(text.as_slice())?;
    reader.end();
    Ok(reader)
}

/// Writes how many checks had each answer.
#[tactic(auto, using(crate::proofs::GeneratedLemmas::unwritten_report))]
fn report_counts<K: Sink>(
    alloc: Global,
    n: u64,
    responses: Vec<CheckResponse>,
    out: &mut K,
) -> Report
    requires solved { IsSolved n responses.items }
    ensures counted { ReportsCounts n result.status (kept_in result) result.errors.items (K.written out.old) (K.written out.new) }
    ensures output { result.status ≡ status.OutputFault → Rose (K.faults out.old) (K.faults out.new) }
    ensures count { K.faults out.old ≤ K.faults out.new }
    ensures uncounted { result.status ≢ status.OutputFault → K.faults out.new ≡ K.faults out.old }
{
    match counts_line(alloc, n, responses.as_slice()) {
        Ok(line) => write_counts(alloc, line.as_str(), responses, out),
        Err(_) => without_errors(alloc, Status::NoMemory, responses),
    }
}

/// Writes the line with the counts of the answers.
fn write_counts<K: Sink>(
    alloc: Global,
    line: &str,
    responses: Vec<CheckResponse>,
    out: &mut K,
) -> Report
    ensures counted { (n : ℕ) → IsSolved n responses.items → line.now ≡ spec.counts_line n responses.items
        → ReportsCounts n result.status (kept_in result) result.errors.items (K.written out.old) (K.written out.new) }
    ensures output { result.status ≡ status.OutputFault → Rose (K.faults out.old) (K.faults out.new) }
    ensures count { K.faults out.old ≤ K.faults out.new }
    ensures uncounted { result.status ≢ status.OutputFault → K.faults out.new ≡ K.faults out.old }
{
    let status = match write_all(out, line.as_bytes()) {
        Ok(()) => Status::Done,
        Err(error) => status_of(error),
    };
    without_errors(alloc, status, responses)
}

/// The report of these answers and nothing else. Takes no memory.
fn without_errors(alloc: Global, status: Status, responses: Vec<CheckResponse>) -> Report
    ensures status { result.status ≡ status }
    ensures responses { result.responses.items ≡ responses.items }
    ensures alone { HasResponsesAlone (kept_in result) result.errors.items }
{
    Report {
        status,
        responses,
        errors: Vec::new(alloc),
        last: None,
        shrunk: None,
    }
}

/// A sink that drops what it takes.
#[derive(Drop)]
struct NoSink;

impl Sink for NoSink {
    ghost written = { λ _. None };

    ghost faults = { λ _. 0 };

    fn write(&mut self, piece: &[u8]) -> Result<usize, SinkError>
        ensures bound { IfOk result (λ n. n ≤ length piece.now) }
        ensures progress { IfOk result (λ n. 0 < length piece.now → 0 < n) }
        ensures taken { IfOk result (λ n. ◌≡◌ {A = Option (List ℕ)} None (appended (take n piece.now) None)) }
        ensures refused { OnErr result (◌≡◌ {A = Option (List ℕ)} None None) }
        ensures cause { HasCause SinkError.Fault 0 0 result }
    {
        Ok(piece.len())
    }
}
