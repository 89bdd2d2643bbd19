//! Terms and literals that a case names by their numbers.
use ct_cases::{CaseError, size_of, split_word};
use ct_sexpr::Sexpr;
use ct_terms::{Lit, TermId};

/// The term of this number.
pub fn term_of(part: &Sexpr) -> Result<TermId, CaseError> {
    Ok(TermId(size_of(part)?))
}

/// The literal: `n`, or `(not n)`, of the term of this number.
pub fn literal_of(part: &Sexpr) -> Result<Lit, CaseError> {
    if part.as_list().is_none() {
        return Ok(Lit {
            term: term_of(part)?,
            positive: true,
        });
    }
    match split_word(part)? {
        ("not", [t]) => Ok(Lit {
            term: term_of(t)?,
            positive: false,
        }),
        _ => Err(CaseError::Bad),
    }
}
