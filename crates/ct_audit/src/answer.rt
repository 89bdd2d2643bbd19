//! The answer of an audit, and its text.
ghost use Rattle.std.specs.Prelude.{◌≡◌, string_bytes, codes, ◌++◌, IfOk};
ghost use Rattle.std.specs.Fmt.{decimal};
ghost use Rattle.ct_audit.specs.Answer.{audit_text, audit_error, wrong_text};

use crate::error::AuditError;
use ct_words::{error_text, error_texts};
use std::alloc::{AllocError, Global};

/// What an audit says of a derivation, or of a model.
#[derive(Clone, Copy, Debug, PartialEq, Eq)]
pub enum AuditAnswer {
    /// The derivation passes over the assertions that its check had, or all assertions of its check are true in the model.
    Verified,
    /// The line with this number, counted from 1, is not accepted after those before it; with the number after the last line,
    /// the line with the empty clause is missing. Of a model: the assertion with this number, counted from 1, is the first that is
    /// not true.
    Rejected(u64),
    /// The derivation or the model is not that of a check of the script, or the item at this index, counted from 0, is wrong.
    Wrong {
        /// The index of the item; 0, that of the first one, where the whole is wrong.
        item: u64,
        /// The number of the error.
        code: u16,
    },
}

/// The text of an answer, without the byte 10 that ends its line. Its only error is out of memory.
pub fn audit_text(alloc: Global, answer: &AuditAnswer) -> Result<Vec<u8>, AuditError>
    ensures text { IfOk result (λ text. text.items ≡ audit_text answer.now) }
{
    match answer {
        AuditAnswer::Verified => Ok(Vec::from_slice(alloc, b"verified")?),
        AuditAnswer::Rejected(number) => rejected_text(alloc, *number),
        AuditAnswer::Wrong { item, code } => wrong_text(alloc, *item, *code),
    }
}

/// The item and the number of the error of an answer, or the number of the rejected line or assertion and 0. `None` where the answer
/// is that the derivation or the model is verified.
pub fn audit_error(answer: &AuditAnswer) -> Option<(u64, u16)>
    ensures value { result ≡ audit_error answer.now }
{
    match answer {
        AuditAnswer::Verified => None,
        AuditAnswer::Rejected(number) => Some((*number, 0)),
        AuditAnswer::Wrong { item, code } => Some((*item, *code)),
    }
}

// The text of a line that is not accepted, or of an assertion that is not true.
fn rejected_text(alloc: Global, number: u64) -> Result<Vec<u8>, AuditError>
    ensures text { IfOk result (λ text. text.items ≡ codes "rejected " ++ decimal number) }
{
    let text = rejected_string(alloc, number)?;
    Ok(Vec::from_slice(alloc, text.as_bytes())?)
}

fn rejected_string(alloc: Global, number: u64) -> Result<String, AllocError>
    ensures text { IfOk result (λ text. string_bytes text ≡ codes "rejected " ++ decimal number) }
{
    format!(in alloc; "rejected {number}")
}

// The text of an error of an item.
fn wrong_text(alloc: Global, item: u64, code: u16) -> Result<Vec<u8>, AuditError>
    ensures text { IfOk result (λ text. text.items ≡ wrong_text item code) }
{
    let head = wrong_head(alloc, item, code)?;
    let texts = error_texts();
    let mut text = Vec::from_slice(alloc, head.as_bytes())?;
    text.extend_from_slice(error_text(&texts, code))?;
    text.extend_from_slice(b"\")")?;
    Ok(text)
}

// What stands before the text of the error.
fn wrong_head(alloc: Global, item: u64, code: u16) -> Result<String, AllocError>
    ensures head { IfOk result (λ head. string_bytes head
        ≡ codes "(error \"item " ++ (decimal item ++ (codes ": [E" ++ (decimal code ++ codes "] ")))) }
{
    format!(in alloc; "(error \"item {item}: [E{code}] ")
}
