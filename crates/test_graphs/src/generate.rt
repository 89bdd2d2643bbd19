//! The script of the benchmark: `(generate N)` shows the one with N blocks.
use ct_cases::{CaseError, number_of, show_bytes};
use ct_gen::gen_script;
use ct_sexpr::Sexpr;
use std::alloc::Global;

/// Answers a case of the generator.
pub fn answer(
    alloc: Global,
    kind: &str,
    parts: &[Sexpr],
    out: &mut String,
) -> Result<bool, CaseError> {
    match (kind, parts) {
        ("generate", [count]) => show_script(alloc, number_of(count)?, out)?,
        _ => return Ok(false),
    }
    Ok(true)
}

/// Shows the script with so many blocks.
fn show_script(alloc: Global, count: u64, out: &mut String) -> Result<(), CaseError> {
    if count < 1 || count > 2_000 {
        return Err(CaseError::Bad);
    }
    match gen_script(alloc, count) {
        Ok(text) => {
            out.push(' ')?;
            show_bytes(alloc, &text, out)
        }
        Err(_) => Err(CaseError::NoMemory),
    }
}
