//! Sinks: in memory, steady, and of the host. Their steps are `(write BYTES)`,
//! `(write-all BYTES)`, and `count`: the bytes so far, and of the host the number of faults.
use crate::files::sink_of;
use crate::steps::{show_count, show_fault};
use ct_cases::{CaseError, bytes_of, is_word, show_bytes, split_word};
use ct_io::{HostSink, Sink, SinkError, SteadySink, write_all};
use ct_sexpr::Sexpr;
use std::alloc::Global;

/// Answers a case of a sink.
pub fn answer(
    rt: &HostRuntime,
    kind: &str,
    parts: &[Sexpr],
    out: &mut String,
) -> Result<bool, CaseError> {
    match parts {
        [fails, piece, steps @ ..] if kind == "sink" => {
            answer_sink(rt.alloc(), fails, piece, steps, out)?;
        }
        steps if kind == "steady-sink" => answer_steady(rt.alloc(), steps, out)?,
        steps if kind == "host-sink" => answer_host(rt, steps, out)?,
        _ => return Ok(false),
    }
    Ok(true)
}

/// Answers the steps over a sink in memory.
fn answer_sink(
    alloc: Global,
    fails: &Sexpr,
    piece: &Sexpr,
    steps: &[Sexpr],
    out: &mut String,
) -> Result<(), CaseError> {
    let mut sink = sink_of(alloc, fails, piece)?;
    for step in steps {
        if is_word(step, "count") {
            show_written(alloc, sink.bytes(), out)?;
        } else {
            answer_step(alloc, &mut sink, step, out)?;
        }
    }
    Ok(())
}

/// Answers the steps over a steady sink.
fn answer_steady(alloc: Global, steps: &[Sexpr], out: &mut String) -> Result<(), CaseError> {
    let mut sink = SteadySink::new(alloc);
    for step in steps {
        if is_word(step, "count") {
            show_written(alloc, sink.bytes(), out)?;
        } else {
            answer_step(alloc, &mut sink, step, out)?;
        }
    }
    Ok(())
}

/// Answers the steps over standard output.
fn answer_host(rt: &HostRuntime, steps: &[Sexpr], out: &mut String) -> Result<(), CaseError> {
    let mut sink = HostSink::new(*rt);
    for step in steps {
        if is_word(step, "count") {
            show_count(rt.alloc(), sink.faults(), out)?;
        } else {
            answer_step(rt.alloc(), &mut sink, step, out)?;
        }
    }
    Ok(())
}

/// Answers a step.
fn answer_step<K: Sink>(
    alloc: Global,
    sink: &mut K,
    step: &Sexpr,
    out: &mut String,
) -> Result<(), CaseError> {
    let (word, parts) = split_word(step)?;
    match parts {
        [bytes] if word == "write" => match sink.write(&bytes_of(alloc, bytes)?) {
            Ok(count) => show_count(alloc, count as u64, out),
            Err(error) => show_fault(error == SinkError::Fault, out),
        },
        [bytes] if word == "write-all" => match write_all(sink, &bytes_of(alloc, bytes)?) {
            Ok(()) => Ok(out.push_str(" ok")?),
            Err(error) => show_fault(error == SinkError::Fault, out),
        },
        _ => Err(CaseError::Bad),
    }
}

/// Shows what a sink holds.
fn show_written(alloc: Global, bytes: &[u8], out: &mut String) -> Result<(), CaseError> {
    out.push_str(" [")?;
    show_bytes(alloc, bytes, out)?;
    out.push(']')?;
    Ok(())
}
