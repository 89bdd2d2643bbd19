//! Answers of commands, and their texts.
ghost use Rattle.std.specs.Prelude.{◌≡◌, ◌≤◌, length, string_bytes, codes, ◌∷◌, [], ◌++◌, IfOk, OnErr};
ghost use Rattle.std.specs.Fmt.{decimal};
ghost use Rattle.ct_step.specs.State.{State};
ghost use Rattle.ct_step.specs.Done.{IsAnswer};
ghost use Rattle.ct_step.specs.Step.{refusal_text, word_of, refused, said, success};

use crate::options::Options;
use ct_engine::Verdict;
use ct_words::{error_text, error_texts};
use std::alloc::{AllocError, Global};

/// The answer of a command.
#[derive(Debug, Drop)]
pub struct Answer {
    /// What is printed, without the byte 10 that ends it; nothing where it is empty.
    pub text: Vec<u8>,
    /// The number of the error, where the command is refused.
    pub error: Option<u16>,
    /// Whether the script ends with the command.
    pub stop: bool,
}

/// The text of an error on a line, counted from 1.
pub fn refusal_text(alloc: Global, line: u64, code: u16) -> Result<Vec<u8>, AllocError>
    ensures text { IfOk result (λ text. text.items ≡ refusal_text line code) }
{
    let head = refusal_head(alloc, line, code)?;
    let texts = error_texts();
    let mut text = Vec::from_slice(alloc, head.as_bytes())?;
    text.extend_from_slice(error_text(&texts, code))?;
    text.extend_from_slice(b"\")")?;
    Ok(text)
}

// What stands before the text of the error.
fn refusal_head(alloc: Global, line: u64, code: u16) -> Result<String, AllocError>
    ensures head { IfOk result (λ head. string_bytes head
        ≡ codes "(error \"line " ++ (decimal line ++ (codes ": [E" ++ (decimal code ++ codes "] ")))) }
{
    format!(in alloc; "(error \"line {line}: [E{code}] ")
}

/// The bytes of the longest word of a verdict.
pub(crate) const LONGEST_WORD: usize = 7;

/// The word of a verdict.
pub(crate) fn word_of(verdict: &Verdict) -> &'static [u8]
    ensures value { result.now ≡ word_of verdict.now }
    ensures short { length result.now ≤ LONGEST_WORD }
{
    match verdict {
        Verdict::Sat(_) => b"sat",
        Verdict::Unsat(_) => b"unsat",
        Verdict::Unknown(_) => b"unknown",
    }
}

/// Stores an error and answers it, under these options.
pub fn refused(
    alloc: Global,
    errors: &mut Vec<(u64, u16)>,
    options: Options,
    line: u64,
    code: u16,
) -> Result<Answer, AllocError>
    ensures answer { IfOk result (λ a. (s : State) → s.options ≡ options → IsAnswer (refused s line code) a) }
    ensures stored { IfOk result (λ a. errors.new.items ≡ errors.old.items ++ (line, code) ∷ []) }
    ensures unchanged { OnErr result (errors.new.items ≡ errors.old.items) }
{
    let text = refusal_text(alloc, line, code)?;
    errors.push((line, code))?;
    Ok(Answer {
        text,
        error: Some(code),
        stop: options.ends_at_error(),
    })
}

/// The answer of a command that prints something.
pub(crate) fn said(text: Vec<u8>) -> Answer
    ensures answer { (s : State) → IsAnswer (said s text.items) result }
{
    Answer {
        text,
        error: None,
        stop: false,
    }
}

/// The answer of a command without an answer of its own, under these options.
pub(crate) fn quiet(alloc: Global, options: Options) -> Result<Answer, AllocError>
    ensures answer { IfOk result (λ a. (s : State) → IsAnswer (said s (success options)) a) }
{
    let text = success(alloc, options)?;
    Ok(said(text))
}

// What is printed of a command without an answer of its own.
fn success(alloc: Global, options: Options) -> Result<Vec<u8>, AllocError>
    ensures text { IfOk result (λ text. text.items ≡ success options) }
{
    if options.print_success {
        return Vec::from_slice(alloc, b"success");
    }
    Ok(Vec::new(alloc))
}
