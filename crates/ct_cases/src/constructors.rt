//! Constructors that a case names: by their names, and those of instances as `(as NAME SORT)`.
ghost use Rattle.ct_sorts.specs.Declarations.{IsSort};

use crate::bytes::bytes_of;
use crate::case::is_word;
use crate::declarations::{sort_of, symbol_of};
use crate::error::CaseError;
use ct_sexpr::Sexpr;
use ct_sorts::{CtorId, Signature, SortId, Symbol};
use std::alloc::Global;

/// The constructor that a part names.
pub fn ctor_of(alloc: Global, sig: &Signature, part: &Sexpr) -> Result<CtorId, CaseError> {
    if let Some([word, name, sort]) = part.as_list() {
        if is_word(word, "as") {
            let sort = sort_of(alloc, sig, sort)?;
            return ctor_among(alloc, sig, sort, name);
        }
    }
    match symbol_of(alloc, sig, part)? {
        Some(Symbol::Ctor(c)) => Ok(c),
        _ => Err(CaseError::Bad),
    }
}

/// The constructor of this name among those of the sort.
fn ctor_among(
    alloc: Global,
    sig: &Signature,
    sort: SortId,
    part: &Sexpr,
) -> Result<CtorId, CaseError>
    requires sort { IsSort sig.now sort }
{
    let name = bytes_of(alloc, part)?;
    for c in sig.ctors(sort) {
        if sig.ctor_name(*c) == name.as_slice() {
            return Ok(*c);
        }
    }
    Err(CaseError::Bad)
}
