//! Derivations that are cut down: `(trim KEPT (TERM ..) (NUMBER ..) (LINE ..))` makes one, as `derive` does, cuts it down to
//! the first lines, so many of them, the last one and what these rest on, and shows its text.
ghost use Rattle.std.specs.Prelude.{◌≡◌, OnOk};

use crate::derive::derive;
use ct_cases::{CaseError, number_of, show_bytes};
use ct_core::{CoreError, trim};
use ct_log::{Derivation, LogError};
use ct_log_text::derivation_text;
use ct_sexpr::Sexpr;
use ct_sorts::Signature;
use std::alloc::Global;

/// Makes the derivation, cuts it down, and shows its text.
pub fn show_trimmed(
    alloc: Global,
    sig: &Signature,
    kept: &Sexpr,
    terms: &Sexpr,
    asserts: &Sexpr,
    lines: &Sexpr,
    out: &mut String,
) -> Result<(), CaseError> {
    let kept = number_of(kept)?;
    let mut derivation = derive(alloc, sig, terms, asserts, lines)?;
    cut(alloc, &mut derivation, kept)?;
    match text_of(alloc, sig, &derivation) {
        Ok(text) => show_bytes(alloc, &text, out),
        Err(_) => Err(CaseError::NoMemory),
    }
}

/// Cuts the derivation down.
fn cut(alloc: Global, derivation: &mut Derivation, kept: u64) -> Result<(), CaseError>
    ensures declarations { OnOk result (derivation.new.declarations ≡ derivation.old.declarations) }
{
    match trim(alloc, derivation, kept, 0) {
        Ok(_) => Ok(()),
        Err(CoreError) => Err(CaseError::NoMemory),
    }
}

/// The text of the derivation.
pub fn text_of(alloc: Global, sig: &Signature, derivation: &Derivation) -> Result<Vec<u8>, LogError>
    requires declarations { derivation.now.declarations ≡ sig.now }
{
    derivation_text(alloc, sig, 1, derivation.rec())
}
