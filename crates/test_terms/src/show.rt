//! What answers show: numbers, and whether something is so.
use ct_cases::CaseError;
use std::alloc::Global;

/// Shows whether it is so.
pub fn show_bool(value: bool, out: &mut String) -> Result<(), CaseError> {
    out.push_str(if value { " yes" } else { " no" })?;
    Ok(())
}

/// Shows a number.
pub fn show_number(alloc: Global, number: u64, out: &mut String) -> Result<(), CaseError> {
    out.push_str(format!(in alloc; " {number}")?.as_str())?;
    Ok(())
}
