//! What is shown of a run.
use crate::setting::{Setting, desk_of, sink_of};
use ct_cases::{CaseError, show_bytes};
use ct_io::{Status, Text};
use ct_run::{CheckResponse, Report, run};
use ct_shrink::{Need, Shrunk};
use std::alloc::Global;

/// Runs the script, and shows what comes of it: the status, the answers of checks, the errors, the last core that was shrunk, what was written,
/// and, where the setting asks for it, how often the desk was called. Gives the status.
pub fn show_outcome(
    alloc: Global,
    words: &[Text],
    script: Vec<u8>,
    setting: Setting<'_>,
    out: &mut String,
) -> Result<Status, CaseError> {
    let mut desk = desk_of(alloc, script, setting)?;
    let mut sink = sink_of(alloc, setting)?;
    let report = Box::new(alloc, run(alloc, words, &mut desk, &mut sink))?;
    show_report(alloc, &report, out)?;
    out.push_str(" |")?;
    show_bytes(alloc, sink.bytes(), out)?;
    out.push('|')?;
    if setting.counts_calls() {
        out.push_str(format!(in alloc; " {}", desk.calls())?.as_str())?;
    }
    Ok(report.status)
}

/// Shows the status, the answers of checks, the errors, each with its line and its number, and the last core that was shrunk.
fn show_report(alloc: Global, report: &Report, out: &mut String) -> Result<(), CaseError> {
    out.push_str(format!(in alloc; " {:?}", report.status)?.as_str())?;
    for response in &report.responses {
        out.push(' ')?;
        out.push_str(word_of(*response))?;
    }
    for (line, code) in &report.errors {
        out.push_str(format!(in alloc; " line-{line}-E{code}")?.as_str())?;
    }
    if let Some(core) = &report.shrunk {
        show_core(alloc, core, out)?;
    }
    Ok(())
}

/// Shows the places of a core that was shrunk, and for each whether an interpretation shows that it is needed, `!`, or this was
/// left open, `?`.
fn show_core(alloc: Global, shrunk: &Shrunk, out: &mut String) -> Result<(), CaseError> {
    out.push_str(" core")?;
    for place in &shrunk.core.places {
        out.push_str(format!(in alloc; "-{place}")?.as_str())?;
    }
    out.push(' ')?;
    for need in &shrunk.needs {
        out.push(mark_of(need))?;
    }
    Ok(())
}

/// The mark of an assertion that is needed, or may be.
fn mark_of(need: &Need) -> char {
    match need {
        Need::Shown(_) => '!',
        Need::Open(_) => '?',
    }
}

/// The word of an answer.
fn word_of(response: CheckResponse) -> &'static str {
    match response {
        CheckResponse::Sat => "sat",
        CheckResponse::Unsat => "unsat",
        CheckResponse::Unknown => "unknown",
    }
}
