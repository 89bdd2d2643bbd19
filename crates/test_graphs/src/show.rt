//! What answers show: numbers.
use ct_cases::CaseError;
use std::alloc::Global;

/// Shows a number.
pub fn show_number(alloc: Global, number: usize, out: &mut String) -> Result<(), CaseError> {
    out.push_str(format!(in alloc; " {number}")?.as_str())?;
    Ok(())
}
