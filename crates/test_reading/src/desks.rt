//! Desks: in memory, steady, and of the host. Their steps are `(open SLOT NAME)`,
//! `(read SLOT ROOM)` with at most eight bytes, `(read-all SLOT ROOM)`, and `count`: of calls,
//! and of the host of faults.
use crate::files::{desk_of, steady_desk_of};
use crate::steps::{show_count, show_fault};
use ct_cases::{CaseError, is_word, number_of, show_bytes, split_word, string_of, word_of};
use ct_io::{Desk, DeskError, HostDesk, Slot};
use ct_sexpr::Sexpr;
use std::alloc::Global;

/// Answers a case of a desk.
pub fn answer(
    rt: &HostRuntime,
    kind: &str,
    parts: &[Sexpr],
    out: &mut String,
) -> Result<bool, CaseError> {
    match parts {
        [files, fails, piece, steps @ ..] if kind == "desk" => {
            answer_desk(rt.alloc(), [files, fails, piece], steps, out)?;
        }
        [files, steps @ ..] if kind == "steady-desk" => {
            let mut desk = steady_desk_of(rt.alloc(), files)?;
            answer_steps(rt.alloc(), &mut desk, steps, out)?;
        }
        steps if kind == "host-desk" => answer_host(rt, steps, out)?,
        _ => return Ok(false),
    }
    Ok(true)
}

/// Answers the steps over a desk in memory.
fn answer_desk(
    alloc: Global,
    [files, fails, piece]: [&Sexpr; 3],
    steps: &[Sexpr],
    out: &mut String,
) -> Result<(), CaseError> {
    let mut desk = desk_of(alloc, files, fails, piece)?;
    for step in steps {
        if is_word(step, "count") {
            show_count(alloc, desk.calls(), out)?;
        } else {
            answer_step(alloc, &mut desk, step, out)?;
        }
    }
    Ok(())
}

/// Answers the steps over the host's files and standard input.
fn answer_host(rt: &HostRuntime, steps: &[Sexpr], out: &mut String) -> Result<(), CaseError> {
    let mut desk = HostDesk::new(*rt);
    for step in steps {
        if is_word(step, "count") {
            show_count(rt.alloc(), desk.faults(), out)?;
        } else {
            answer_step(rt.alloc(), &mut desk, step, out)?;
        }
    }
    Ok(())
}

/// Answers steps.
fn answer_steps<D: Desk>(
    alloc: Global,
    desk: &mut D,
    steps: &[Sexpr],
    out: &mut String,
) -> Result<(), CaseError> {
    for step in steps {
        answer_step(alloc, desk, step, out)?;
    }
    Ok(())
}

/// Answers a step.
fn answer_step<D: Desk>(
    alloc: Global,
    desk: &mut D,
    step: &Sexpr,
    out: &mut String,
) -> Result<(), CaseError> {
    let (word, parts) = split_word(step)?;
    match parts {
        [slot, name] if word == "open" => {
            let name = string_of(alloc, name)?;
            let opened = desk.open(slot_of(slot)?, name.as_str());
            show_done(opened.err(), out)
        }
        [slot, room] if word == "read" => {
            read(alloc, desk, slot_of(slot)?, number_of(room)? as usize, out)?;
            Ok(())
        }
        [slot, room] if word == "read-all" => {
            read_all(alloc, desk, slot_of(slot)?, number_of(room)? as usize, out)
        }
        _ => Err(CaseError::Bad),
    }
}

/// The slot of this name.
fn slot_of(part: &Sexpr) -> Result<Slot, CaseError> {
    match word_of(part)? {
        "script" => Ok(Slot::Script),
        "proof" => Ok(Slot::Proof),
        _ => Err(CaseError::Bad),
    }
}

/// Reads at most so many bytes, at most eight, and shows them between brackets, which end with
/// `!` where more of the buffer changed. How many they are.
fn read<D: Desk>(
    alloc: Global,
    desk: &mut D,
    slot: Slot,
    room: usize,
    out: &mut String,
) -> Result<usize, CaseError> {
    let mut buf = [0u8; 8];
    let size = room.min(buf.len());
    match desk.read(slot, &mut buf[..size]) {
        Ok(count) => {
            out.push_str(" [")?;
            show_bytes(alloc, &buf[..count], out)?;
            out.push(if are_zero(&buf[count..]) { ']' } else { '!' })?;
            Ok(count)
        }
        Err(error) => {
            show_done(Some(error), out)?;
            Ok(0)
        }
    }
}

/// Whether these bytes are as they were before the read.
fn are_zero(bytes: &[u8]) -> bool {
    for byte in bytes {
        if *byte != 0 {
            return false;
        }
    }
    true
}

/// Reads until nothing comes, a hundred times at most.
fn read_all<D: Desk>(
    alloc: Global,
    desk: &mut D,
    slot: Slot,
    room: usize,
    out: &mut String,
) -> Result<(), CaseError> {
    for _ in 0..100 {
        if read(alloc, desk, slot, room, out)? == 0 {
            break;
        }
    }
    Ok(())
}

/// Shows whether it was done.
fn show_done(error: Option<DeskError>, out: &mut String) -> Result<(), CaseError> {
    match error {
        None => Ok(out.push_str(" ok")?),
        Some(error) => show_fault(error == DeskError::Fault, out),
    }
}
