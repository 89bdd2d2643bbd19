//! The files that a desk in memory holds, the numbers of the calls that fail, and texts.
use ct_cases::{CaseError, bytes_of, items_of, number_of, split_word, string_of};
use ct_io::{DeskInMemory, SinkInMemory, SteadyDesk, Text};
use ct_sexpr::Sexpr;
use std::alloc::Global;

/// The files of `((NAME BYTES) ..)`.
fn files_of(alloc: Global, part: &Sexpr) -> Result<Vec<(Text, Vec<u8>)>, CaseError> {
    let mut files = Vec::new(alloc);
    for file in items_of(part)? {
        files.push(file_of(alloc, file)?)?;
    }
    Ok(files)
}

/// The file of `(NAME BYTES)`.
fn file_of(alloc: Global, part: &Sexpr) -> Result<(Text, Vec<u8>), CaseError> {
    match items_of(part)? {
        [name, bytes] => Ok((Text::new(string_of(alloc, name)?), bytes_of(alloc, bytes)?)),
        _ => Err(CaseError::Bad),
    }
}

/// The numbers of `(fail NUMBER ..)`.
fn fails_of(alloc: Global, part: &Sexpr) -> Result<Vec<u64>, CaseError> {
    let (word, parts) = split_word(part)?;
    if word != "fail" {
        return Err(CaseError::Bad);
    }
    let mut fails = Vec::new(alloc);
    for part in parts {
        fails.push(number_of(part)?)?;
    }
    Ok(fails)
}

/// The greatest piece of `(piece COUNT)`, which is not 0.
fn piece_of(part: &Sexpr) -> Result<usize, CaseError> {
    match items_of(part)? {
        [_, count] => Ok(number_of(count)? as usize),
        _ => Err(CaseError::Bad),
    }
}

/// The desk of files, numbers of calls that fail, and a greatest piece.
pub fn desk_of(
    alloc: Global,
    files: &Sexpr,
    fails: &Sexpr,
    piece: &Sexpr,
) -> Result<DeskInMemory, CaseError> {
    let files = files_of(alloc, files)?;
    let fails = fails_of(alloc, fails)?;
    let piece = piece_of(piece)?;
    Ok(DeskInMemory::new(files, fails, piece.max(1)))
}

/// The steady desk of files.
pub fn steady_desk_of(alloc: Global, files: &Sexpr) -> Result<SteadyDesk, CaseError> {
    Ok(SteadyDesk::new(files_of(alloc, files)?))
}

/// The sink of numbers of calls that fail, and a greatest piece.
pub fn sink_of(alloc: Global, fails: &Sexpr, piece: &Sexpr) -> Result<SinkInMemory, CaseError> {
    let fails = fails_of(alloc, fails)?;
    let piece = piece_of(piece)?;
    Ok(SinkInMemory::new(alloc, fails, piece.max(1)))
}
