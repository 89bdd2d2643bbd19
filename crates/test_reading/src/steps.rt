//! What the answers of several kinds of cases share.
use ct_cases::CaseError;
use std::alloc::Global;

/// Shows a number.
pub fn show_count(alloc: Global, count: u64, out: &mut String) -> Result<(), CaseError> {
    out.push_str(format!(in alloc; " {count}")?.as_str())?;
    Ok(())
}

/// Shows a number, or `-` for none.
pub fn show_index(alloc: Global, index: Option<u64>, out: &mut String) -> Result<(), CaseError> {
    match index {
        Some(index) => show_count(alloc, index, out),
        None => Ok(out.push_str(" -")?),
    }
}

/// Shows whether it is so.
pub fn show_bool(value: bool, out: &mut String) -> Result<(), CaseError> {
    out.push_str(if value { " yes" } else { " no" })?;
    Ok(())
}

/// Shows that the outside failed, or that memory ran out.
pub fn show_fault(is_fault: bool, out: &mut String) -> Result<(), CaseError> {
    out.push_str(if is_fault { " fault" } else { " out-of-memory" })?;
    Ok(())
}

/// Shows what a text gives that is fed whole and in pieces of one byte: once where it is the same.
pub fn show_both(whole: &String, bytewise: &String, out: &mut String) -> Result<(), CaseError> {
    out.push(' ')?;
    out.push_str(whole.as_str())?;
    if whole.as_str() != bytewise.as_str() {
        out.push_str(", but in pieces of one byte ")?;
        out.push_str(bytewise.as_str())?;
    }
    Ok(())
}
