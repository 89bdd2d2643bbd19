//! Literals, `n` and `(not n)`.
ghost use Rattle.std.specs.Prelude.{◌≡◌, Bool, option_map, option_and_then, codes, IfOk};
ghost use Rattle.ct_sexpr.specs.View.{expression_of, expressions_of};
ghost use Rattle.ct_log_lines.specs.Forms.{each};
ghost use Rattle.ct_log_lines.specs.Equalities.{literal_in, negated_in};
ghost use Rattle.ct_log_lines.specs.Lines.{clause_in};

use crate::form::{one_of, parts_after, parts_of, term_in};
use ct_sexpr::Sexpr;
use ct_sorts::Items;
use ct_terms::{Lit, TermId};
use std::alloc::{AllocError, Global};

/// The literal that the expression is.
pub(crate) fn literal_in(expr: &Sexpr) -> Option<Lit>
    ensures value { result ≡ literal_in (expression_of expr.now) }
{
    if let Some(term) = term_in(expr) {
        let positive = true;
        return Some(Lit { term, positive });
    }
    let term = negated_in(expr)?;
    let positive = false;
    Some(Lit { term, positive })
}

/// The term n of `(not n)`.
fn negated_in(expr: &Sexpr) -> Option<TermId>
    ensures value { result ≡ negated_in (expression_of expr.now) }
{
    let items = parts_after(b"not", expr)?;
    let number = one_of(items)?;
    term_in(number)
}

/// The literals that the expressions are.
fn literals_in(alloc: Global, items: &[Sexpr]) -> Result<Option<Items<Lit>>, AllocError>
    ensures ok { IfOk result (λ literals. literals ≡ each literal_in (expressions_of items.now)) }
{
    let mut literals = Vec::new(alloc);
    let mut rest = items;
    while let [item, others @ ..] = rest {
        match literal_in(item) {
            None => return Ok(None),
            Some(literal) => literals.push(literal)?,
        }
        rest = others;
    }
    Ok(Some(Items::new(literals)))
}

/// The clause that the expression is, a list of literals.
pub(crate) fn clause_in(alloc: Global, expr: &Sexpr) -> Result<Option<Items<Lit>>, AllocError>
    ensures ok { IfOk result (λ clause. clause ≡ clause_in (expression_of expr.now)) }
{
    match parts_of(expr) {
        None => Ok(None),
        Some(items) => literals_in(alloc, items),
    }
}
