//! Tables of words: `(find TABLE NAME ..)` shows the index of each name, `(names TABLE)` all
//! names in order, and `(error-texts NUMBER ..)` the texts of errors.
use crate::steps::{show_count, show_index};
use ct_cases::{CaseError, bytes_of, show_bytes, size_of, word_of};
use ct_io::Status;
use ct_sexpr::Sexpr;
use ct_words::{
    NameTable, client_options, commands, derivation_words, error_text, error_texts, logic_parts,
    options, unrestricted_logics, value_words,
};
use std::alloc::Global;

/// The statuses in their order.
const STATUSES: [Status; 8] = [
    Status::Done,
    Status::Refused,
    Status::Usage,
    Status::InputFault,
    Status::OutputFault,
    Status::NoMemory,
    Status::Rejected,
    Status::TooLong,
];

/// Answers a case of words.
pub fn answer(
    alloc: Global,
    kind: &str,
    parts: &[Sexpr],
    out: &mut String,
) -> Result<bool, CaseError> {
    match parts {
        [table, names @ ..] if kind == "find" => answer_find(alloc, table, names, out)?,
        [table] if kind == "names" => answer_names(alloc, table, out)?,
        numbers if kind == "error-texts" => answer_texts(alloc, numbers, out)?,
        [] if kind == "statuses" => show_statuses(alloc, out)?,
        _ => return Ok(false),
    }
    Ok(true)
}

/// A table of three names, two of which share a bucket. The first is empty.
fn shared_bucket() -> NameTable<3> {
    NameTable::new(b"\nab\ncb\n")
}

/// Shows the indices of names in the table of this name.
fn answer_find(
    alloc: Global,
    table: &Sexpr,
    names: &[Sexpr],
    out: &mut String,
) -> Result<(), CaseError> {
    match word_of(table)? {
        "commands" => find_all(alloc, &commands(), names, out),
        "options" => find_all(alloc, &options(), names, out),
        "client-options" => find_all(alloc, &client_options(), names, out),
        "values" => find_all(alloc, &value_words(), names, out),
        "unrestricted-logics" => find_all(alloc, &unrestricted_logics(), names, out),
        "logic-parts" => find_all(alloc, &logic_parts(), names, out),
        "derivation-words" => find_all(alloc, &derivation_words(), names, out),
        "error-texts" => find_all(alloc, &error_texts(), names, out),
        "shared-bucket" => find_all(alloc, &shared_bucket(), names, out),
        _ => Err(CaseError::Bad),
    }
}

/// Shows the names of the table of this name.
fn answer_names(alloc: Global, table: &Sexpr, out: &mut String) -> Result<(), CaseError> {
    match word_of(table)? {
        "commands" => show_names(alloc, &commands(), out),
        "options" => show_names(alloc, &options(), out),
        "client-options" => show_names(alloc, &client_options(), out),
        "values" => show_names(alloc, &value_words(), out),
        "unrestricted-logics" => show_names(alloc, &unrestricted_logics(), out),
        "logic-parts" => show_names(alloc, &logic_parts(), out),
        "derivation-words" => show_names(alloc, &derivation_words(), out),
        "error-texts" => show_names(alloc, &error_texts(), out),
        "shared-bucket" => show_names(alloc, &shared_bucket(), out),
        _ => Err(CaseError::Bad),
    }
}

/// Shows the index of each name.
fn find_all<const N: usize>(
    alloc: Global,
    table: &NameTable<N>,
    names: &[Sexpr],
    out: &mut String,
) -> Result<(), CaseError> {
    for name in names {
        let found = table.find(&bytes_of(alloc, name)?);
        show_index(alloc, found.map(|index| index as u64), out)?;
    }
    Ok(())
}

/// Shows all names, between vertical bars.
fn show_names<const N: usize>(
    alloc: Global,
    table: &NameTable<N>,
    out: &mut String,
) -> Result<(), CaseError> {
    for index in 0..N {
        out.push_str(" |")?;
        show_bytes(alloc, table.name(index), out)?;
        out.push('|')?;
    }
    Ok(())
}

/// Shows the texts of the errors, between vertical bars.
fn answer_texts(alloc: Global, numbers: &[Sexpr], out: &mut String) -> Result<(), CaseError> {
    let table = error_texts();
    for number in numbers {
        let number = u16::try_from(size_of(number)?).map_err(|_| CaseError::Bad)?;
        out.push_str(" |")?;
        show_bytes(alloc, error_text(&table, number), out)?;
        out.push('|')?;
    }
    Ok(())
}

/// Shows the codes of all statuses.
fn show_statuses(alloc: Global, out: &mut String) -> Result<(), CaseError> {
    for status in STATUSES {
        out.push_str(format!(in alloc; " {status:?}")?.as_str())?;
        show_count(alloc, u64::from(status.code()), out)?;
    }
    Ok(())
}
