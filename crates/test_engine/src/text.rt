//! Derivations as text.
ghost use Rattle.ct_terms.specs.Terms.{AreSorted};

use ct_cases::CaseError;
use ct_log::{LogError, Record};
use ct_log_text::derivation_text;
use ct_sorts::Signature;
use std::alloc::Global;

/// Shows the text of a record, with `\n` for a line feed.
pub fn show_record(
    alloc: Global,
    sig: &Signature,
    rec: &Record,
    out: &mut String,
) -> Result<(), CaseError>
    requires fits { AreSorted sig.now rec.now.terms }
{
    out.push(' ')?;
    match derivation_text(alloc, sig, 1, rec) {
        Ok(text) => show_lines(&text, out),
        Err(LogError::NoMemory) => Err(CaseError::NoMemory),
        Err(LogError::Form { .. }) => Err(CaseError::Bad),
    }
}

/// Shows bytes of a text, with `\n` for a line feed.
fn show_lines(bytes: &[u8], out: &mut String) -> Result<(), CaseError> {
    for byte in bytes {
        match byte {
            b'\n' => out.push_str("\\n")?,
            _ => out.push(char::from(*byte))?,
        }
    }
    Ok(())
}
