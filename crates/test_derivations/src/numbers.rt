//! Terms and steps that a case names by their numbers.
use ct_cases::{CaseError, number_of, size_of, split_word};
use ct_sexpr::Sexpr;
use ct_sorts::Items;
use ct_terms::{Lit, TermId};
use std::alloc::Global;

/// The term of this number.
pub fn term_of(part: &Sexpr) -> Result<TermId, CaseError> {
    Ok(TermId(size_of(part)?))
}

/// The literal: `n`, or `(not n)`, of the term of this number.
pub fn literal_of(part: &Sexpr) -> Result<Lit, CaseError> {
    if part.as_list().is_none() {
        return Ok(Lit {
            term: term_of(part)?,
            positive: true,
        });
    }
    match split_word(part)? {
        ("not", [t]) => Ok(Lit {
            term: term_of(t)?,
            positive: false,
        }),
        _ => Err(CaseError::Bad),
    }
}

/// The literals.
pub fn literals_of(alloc: Global, parts: &[Sexpr]) -> Result<Items<Lit>, CaseError> {
    let mut literals = Vec::new(alloc);
    for part in parts {
        literals.push(literal_of(part)?)?;
    }
    Ok(Items::new(literals))
}

/// The numbers.
pub fn numbers_of(alloc: Global, parts: &[Sexpr]) -> Result<Items<u64>, CaseError> {
    let mut numbers = Vec::new(alloc);
    for part in parts {
        numbers.push(number_of(part)?)?;
    }
    Ok(Items::new(numbers))
}
