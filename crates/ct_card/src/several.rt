//! Which sorts have more than one value: those that do not have exactly one constructor, and those that have a field of such a
//! sort. All others are single.
ghost use Rattle.std.specs.Prelude.{◌≡◌, ◌≤◌, [], ◌∷◌, length, if◌then◌else◌, IfOk, OnOk};
ghost use Rattle.ct_sorts.specs.Declarations.{Declarations, IsSort};
ghost use Rattle.ct_card.specs.Extended.{IsLater};
ghost use Rattle.ct_card.specs.Fields.{sort_fields};
ghost use Rattle.ct_card.specs.Ranked.{AreSeveral};
ghost use Rattle.ct_card.specs.Ruled.{AreItemRules, AreSeveralRules, IsCountRule, IsFieldRule};
ghost use Rattle.ct_card.specs.Rules.{HaveStayed, IsOrder};

use crate::chain::{Rule, derive};
use crate::error::CardError;
use crate::fields::sort_fields;
use ct_sorts::{Signature, SortId, structure};
use std::alloc::Global;

/// The ranks of the sorts of more than one value, where those of earlier sorts are there.
pub(crate) fn several_ranks(
    alloc: Global,
    sig: &Signature,
    ranks: &mut Vec<usize>,
    order: &mut Vec<usize>,
) -> Result<(), CardError>
    requires earlier { (earlier : Declarations) × IsLater sig.now earlier × AreSeveral earlier ranks.old.items }
    requires order { IsOrder ranks.old.items order.old.items }
    ensures several { OnOk result (AreSeveral sig.now ranks.new.items) }
    ensures stayed { OnOk result (HaveStayed ranks.old.items ranks.new.items) }
    ensures order { OnOk result (IsOrder ranks.new.items order.new.items) }
{
    structure();
    let sorts = sig.sorts();
    let rules = several_rules(alloc, sig, ranks.len() as u32)?;
    derive(alloc, sorts as usize, &rules, ranks, order)?;
    Ok(())
}

// The rules of the sorts from the first on.
fn several_rules(alloc: Global, sig: &Signature, first: u32) -> Result<Vec<Rule>, CardError>
    requires first { first ≤ length sig.now.sorts }
    ensures rules { IfOk result (λ rules. AreSeveralRules sig.now first (length sig.now.sorts) rules.items) }
{
    let mut rules = Vec::new(alloc);
    for s in first..sig.sorts() {
        rules.push(count_rule(alloc, sig, SortId(s))?)?;
        push_field_rules(alloc, sig, SortId(s), &mut rules)?;
    }
    Ok(rules)
}

// The rule for a sort.
fn count_rule(alloc: Global, sig: &Signature, s: SortId) -> Result<Rule, CardError>
    requires inside { IsSort sig.now s }
    ensures rule { IfOk result (IsCountRule sig.now s.0) }
{
    let single = sig.ctors(s).len() == 1;
    fact(alloc, s.0 as usize, !single)
}

// Puts a rule for each field of the sort after those that are there.
fn push_field_rules(
    alloc: Global,
    sig: &Signature,
    s: SortId,
    rules: &mut Vec<Rule>,
) -> Result<(), CardError>
    requires inside { IsSort sig.now s }
    ensures rules { OnOk result (AreItemRules (IsFieldRule s.0) (sort_fields sig.now s.0) rules.old.items rules.new.items) }
{
    let fields = sort_fields(alloc, sig, s)?;
    for i in 0..fields.len() {
        rules.push(field_rule(alloc, s.0 as usize, fields[i])?)?;
    }
    Ok(())
}

// The rule of a sort and the sort of one of its fields.
fn field_rule(alloc: Global, s: usize, t: usize) -> Result<Rule, CardError>
    ensures rule { IfOk result (IsFieldRule s t) }
{
    let mut body = Vec::new(alloc);
    body.push(t)?;
    Ok(Rule { head: s, body })
}

/// A rule with this head: that it holds, or one that derives nothing.
pub(crate) fn fact(alloc: Global, head: usize, holds: bool) -> Result<Rule, CardError>
    ensures head { IfOk result (λ rule. rule.head ≡ head) }
    ensures body { IfOk result (λ rule. rule.body.items ≡ (if holds then [] else head ∷ [])) }
{
    let mut body = Vec::new(alloc);
    if !holds {
        body.push(head)?;
    }
    Ok(Rule { head, body })
}
