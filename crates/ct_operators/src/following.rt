//! Operators over several terms while the terms are made: what is made after each of them, so that terms are in the order of
//! the core term, each after the terms under it.
ghost use Rattle.std.specs.Prelude.{Bool, Option};
ghost use Rattle.ct_terms.specs.declared.ids.TermId.{TermId};
ghost use Rattle.ct_operators.specs.Following.{MayFollow, FollowGives};

use crate::operator::Operator;
use crate::operators::{equality, exclusive, inequality, negated};
use ct_sorts::Signature;
use ct_terms::{TermError, TermId, TermTable};

/// Makes what the operator's core term has between this term and the next one: a comparison with the
/// leading term, or the negation of a term that implies others. The answer leads the next term.
///
/// `Full` comes where the table holds 400,000 terms and does not have one that is to be made.
#[inline(never)]
pub fn follow(
    sig: &Signature,
    table: &mut TermTable,
    operator: Operator,
    lead: Option<TermId>,
    term: TermId,
    ends: bool,
) -> Result<TermId, TermError>
    requires ready { MayFollow sig.now table.old operator lead term }
    ensures outcome { FollowGives sig.now table.old table.new operator lead term ends result }
{
    match operator {
        Operator::Equality => follow_equality(sig, table, lead, term),
        Operator::Inequality => follow_inequality(sig, table, lead, term),
        Operator::Exclusion => follow_exclusion(sig, table, lead, term),
        Operator::Implication => follow_implication(sig, table, term, ends),
        Operator::Construct(_)
        | Operator::Select(_)
        | Operator::Inspect(_)
        | Operator::Call(_)
        | Operator::Negation
        | Operator::Conjunction
        | Operator::Disjunction => Ok(term),
    }
}

// `=`: the term before this one is equal to it.
fn follow_equality(
    sig: &Signature,
    table: &mut TermTable,
    lead: Option<TermId>,
    term: TermId,
) -> Result<TermId, TermError>
    requires ready { MayFollow sig.now table.old Operator.Equality lead term }
    ensures outcome { (ends : Bool) → FollowGives sig.now table.old table.new Operator.Equality lead term ends result }
{
    let Some(before) = lead else {
        return Ok(term);
    };
    equality(sig, table, before, term)?;
    Ok(term)
}

// `distinct`: the first term is different from this one.
fn follow_inequality(
    sig: &Signature,
    table: &mut TermTable,
    lead: Option<TermId>,
    term: TermId,
) -> Result<TermId, TermError>
    requires ready { MayFollow sig.now table.old Operator.Inequality lead term }
    ensures outcome { (ends : Bool) → FollowGives sig.now table.old table.new Operator.Inequality lead term ends result }
{
    let Some(first) = lead else {
        return Ok(term);
    };
    inequality(sig, table, first, term)?;
    Ok(first)
}

// `xor`: exactly one of what there is so far and this term.
fn follow_exclusion(
    sig: &Signature,
    table: &mut TermTable,
    lead: Option<TermId>,
    term: TermId,
) -> Result<TermId, TermError>
    requires ready { MayFollow sig.now table.old Operator.Exclusion lead term }
    ensures outcome { (ends : Bool) → FollowGives sig.now table.old table.new Operator.Exclusion lead term ends result }
{
    let Some(before) = lead else {
        return Ok(term);
    };
    exclusive(sig, table, before, term)
}

// `=>`: the term is refuted, or what follows it holds.
fn follow_implication(
    sig: &Signature,
    table: &mut TermTable,
    term: TermId,
    ends: bool,
) -> Result<TermId, TermError>
    requires ready { (lead : Option TermId) × MayFollow sig.now table.old Operator.Implication lead term }
    ensures outcome { (lead : Option TermId) → FollowGives sig.now table.old table.new Operator.Implication lead term ends result }
{
    if ends {
        return Ok(term);
    }
    negated(sig, table, term)?;
    Ok(term)
}
