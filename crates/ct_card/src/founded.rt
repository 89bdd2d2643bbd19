//! The order in which sorts are well founded: a datatype after the sorts of all fields of one of its constructors, and all
//! other sorts first.
ghost use Rattle.std.specs.Prelude.{◌≡◌, ◌≤◌, length, IfOk, OnOk};
ghost use Rattle.ct_sorts.specs.Declarations.{Declarations, IsConstructor, IsSort};
ghost use Rattle.ct_card.specs.Extended.{IsLater};
ghost use Rattle.ct_card.specs.Fields.{ctors_of};
ghost use Rattle.ct_card.specs.Founding.{AreFounded, AreFoundingRules, IsCtorRule, IsKindRule};
ghost use Rattle.ct_card.specs.Ruled.{AreItemRules};
ghost use Rattle.ct_card.specs.Rules.{HaveStayed};

use crate::chain::{Rule, derive};
use crate::error::CardError;
use crate::fields::push_fields;
use crate::several::fact;
use ct_sorts::{CtorId, Kind, Signature, SortId, structure};
use std::alloc::Global;

/// The order in which sorts are well founded, where that of earlier sorts is there.
pub(crate) fn founding(
    alloc: Global,
    sig: &Signature,
    ranks: &mut Vec<usize>,
    order: &mut Vec<usize>,
) -> Result<(), CardError>
    requires earlier { (earlier : Declarations) × IsLater sig.now earlier × AreFounded earlier ranks.old.items order.old.items }
    ensures founded { OnOk result (AreFounded sig.now ranks.new.items order.new.items) }
    ensures stayed { OnOk result (HaveStayed ranks.old.items ranks.new.items) }
{
    structure();
    let sorts = sig.sorts();
    let rules = founding_rules(alloc, sig, ranks.len() as u32)?;
    derive(alloc, sorts as usize, &rules, ranks, order)?;
    Ok(())
}

// The rules of the sorts from the first on.
fn founding_rules(alloc: Global, sig: &Signature, first: u32) -> Result<Vec<Rule>, CardError>
    requires first { first ≤ length sig.now.sorts }
    ensures rules { IfOk result (λ rules. AreFoundingRules sig.now first (length sig.now.sorts) rules.items) }
{
    let mut rules = Vec::new(alloc);
    for s in first..sig.sorts() {
        rules.push(kind_rule(alloc, sig, SortId(s))?)?;
        push_ctor_rules(alloc, sig, SortId(s), &mut rules)?;
    }
    Ok(rules)
}

// Puts a rule for each constructor of the sort after those that are there.
fn push_ctor_rules(
    alloc: Global,
    sig: &Signature,
    s: SortId,
    rules: &mut Vec<Rule>,
) -> Result<(), CardError>
    requires inside { IsSort sig.now s }
    ensures rules { OnOk result (AreItemRules (IsCtorRule sig.now s.0) (ctors_of sig.now s.0) rules.old.items rules.new.items) }
{
    let own = sig.ctors(s);
    for i in 0..own.len() {
        rules.push(ctor_rule(alloc, sig, s, own[i])?)?;
    }
    Ok(())
}

// The rule of a constructor of the sort.
fn ctor_rule(alloc: Global, sig: &Signature, s: SortId, c: CtorId) -> Result<Rule, CardError>
    requires inside { IsConstructor sig.now c }
    ensures rule { IfOk result (IsCtorRule sig.now s.0 c) }
{
    let mut body = Vec::new(alloc);
    push_fields(sig, c, &mut body)?;
    Ok(Rule {
        head: s.0 as usize,
        body,
    })
}

// The rule of a sort by its kind.
fn kind_rule(alloc: Global, sig: &Signature, s: SortId) -> Result<Rule, CardError>
    requires inside { IsSort sig.now s }
    ensures rule { IfOk result (IsKindRule sig.now s.0) }
{
    match sig.kind(s) {
        Kind::Data => fact(alloc, s.0 as usize, false),
        _ => fact(alloc, s.0 as usize, true),
    }
}
