//! The kinds of cases.
use crate::every::{Cut, show_every};
use crate::outcome::show_outcome;
use crate::script::script_of;
use crate::setting::{Setting, setting_of};
use ct_cases::{CaseError, items_of, string_of};
use ct_io::Text;
use ct_sexpr::Sexpr;
use std::alloc::Global;

/// Answers a case.
pub fn answer(
    alloc: Global,
    kind: &str,
    parts: &[Sexpr],
    out: &mut String,
) -> Result<(), CaseError> {
    match (kind, parts) {
        ("run", [script, settings @ ..]) => {
            let script = script_of(alloc, script)?;
            let words = file_alone(alloc)?;
            let _status = show_outcome(alloc, &words, script, setting_of(settings)?, out)?;
            Ok(())
        }
        ("words", [words, script, settings @ ..]) => {
            let words = texts_of(alloc, items_of(words)?)?;
            let script = script_of(alloc, script)?;
            let _status = show_outcome(alloc, &words, script, setting_of(settings)?, out)?;
            Ok(())
        }
        ("every-call", [script, settings @ ..]) => {
            answer_every(alloc, Cut::Call, script, settings, out)
        }
        ("every-write", [script, settings @ ..]) => {
            answer_every(alloc, Cut::Write, script, settings, out)
        }
        ("every-prefix", [script, settings @ ..]) => {
            answer_every(alloc, Cut::Script, script, settings, out)
        }
        ("every-prefix-of-the-proof", [script, settings @ ..]) => {
            answer_every(alloc, Cut::Proof, script, settings, out)
        }
        _ => Err(CaseError::Bad),
    }
}

/// Answers a case of a run that is cut short at every place: of an audit where the setting has a derivation or a model.
fn answer_every(
    alloc: Global,
    cut: Cut,
    script: &Sexpr,
    settings: &[Sexpr],
    out: &mut String,
) -> Result<(), CaseError> {
    let script = script_of(alloc, script)?;
    let setting = setting_of(settings)?;
    let words = words_of(alloc, setting)?;
    show_every(alloc, cut, &words, script.as_slice(), setting, out)
}

/// The arguments for a run of the setting.
fn words_of(alloc: Global, setting: Setting<'_>) -> Result<Vec<Text>, CaseError> {
    let mut words = Vec::new(alloc);
    if let Some(check) = setting.check() {
        add_words(alloc, &["--audit-model", "p", "--at"], &mut words)?;
        words.push(Text::new(string_of(alloc, check)?))?;
    } else if setting.has_proof() {
        add_words(alloc, &["--audit", "p"], &mut words)?;
    }
    add_words(alloc, &["s"], &mut words)?;
    Ok(words)
}

/// Adds these arguments.
fn add_words(alloc: Global, words: &[&str], out: &mut Vec<Text>) -> Result<(), CaseError> {
    for word in words {
        out.push(Text::new(String::from_str(alloc, *word)?))?;
    }
    Ok(())
}

/// The name of the script as the only argument.
fn file_alone(alloc: Global) -> Result<Vec<Text>, CaseError> {
    let mut words = Vec::new(alloc);
    words.push(Text::new(String::from_str(alloc, "s")?))?;
    Ok(words)
}

/// The texts of these parts.
fn texts_of(alloc: Global, parts: &[Sexpr]) -> Result<Vec<Text>, CaseError> {
    let mut texts = Vec::new(alloc);
    for part in parts {
        texts.push(Text::new(string_of(alloc, part)?))?;
    }
    Ok(texts)
}
