//! Cores: `(core (TERM ..) (NUMBER ..) (LINE ..))` makes a derivation, as `derive` does, and shows the places of its core, and the
//! text of the core's derivation.
ghost use Rattle.std.specs.Prelude.{◌≡◌, IfOk};

use crate::derive::derive;
use crate::judge::sizes_of;
use crate::trim::text_of;
use ct_cases::{CaseError, show_bytes};
use ct_core::{CoreError, UnsatCore, core_of};
use ct_log::Derivation;
use ct_sexpr::Sexpr;
use ct_sorts::Signature;
use std::alloc::Global;

/// Makes the derivation, and shows its core.
pub fn show_core(
    alloc: Global,
    sig: &Signature,
    terms: &Sexpr,
    asserts: &Sexpr,
    lines: &Sexpr,
    out: &mut String,
) -> Result<(), CaseError> {
    let derivation = derive(alloc, sig, terms, asserts, lines)?;
    let core = core(alloc, sig, &derivation)?;
    drop(derivation);
    show_places(alloc, &core.places, out)?;
    match text_of(alloc, sig, &core.derivation) {
        Ok(text) => show_bytes(alloc, &text, out),
        Err(_) => Err(CaseError::NoMemory),
    }
}

/// The core of the derivation.
fn core(
    alloc: Global,
    sig: &Signature,
    derivation: &Derivation,
) -> Result<Box<UnsatCore>, CaseError>
    requires declarations { derivation.now.declarations ≡ sig.now }
    ensures declarations { IfOk result (λ core. core.value.derivation.declarations ≡ sig.now) }
{
    let sizes = sizes_of(alloc, sig)?;
    match core_of(alloc, sig, &sizes, derivation) {
        Ok(core) => Ok(Box::new(alloc, core)?),
        Err(CoreError) => Err(CaseError::NoMemory),
    }
}

/// Shows the places.
fn show_places(alloc: Global, places: &[u64], out: &mut String) -> Result<(), CaseError> {
    out.push_str("places ")?;
    for place in places {
        out.push_str(format!(in alloc; "{place} ")?.as_str())?;
    }
    Ok(())
}
