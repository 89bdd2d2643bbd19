//! Which sorts are not infinite: the single ones, and the least set that contains each sort all of whose constructors have only
//! fields of sorts in the set.
ghost use Rattle.std.specs.Prelude.{◌≡◌, ◌≤◌, ℕ, List, length, IfOk, OnOk};
ghost use Rattle.ct_sorts.specs.Declarations.{Declarations, IsSort};
ghost use Rattle.ct_card.specs.Extended.{IsLater};
ghost use Rattle.ct_card.specs.Ranked.{AreSeveral, AreSmall};
ghost use Rattle.ct_card.specs.Ruled.{AreSmallRules, IsSmallRule};
ghost use Rattle.ct_card.specs.Rules.{HaveStayed, IsOrder};

use crate::chain::{Rule, derive};
use crate::error::CardError;
use crate::fields::sort_fields;
use crate::several::fact;
use ct_sorts::{Signature, SortId, structure};
use std::alloc::Global;

/// The ranks of the sorts that are not infinite, by those of the sorts of more than one value, where those of earlier sorts
/// are there.
pub(crate) fn small_ranks(
    alloc: Global,
    sig: &Signature,
    several: &[usize],
    ranks: &mut Vec<usize>,
    order: &mut Vec<usize>,
) -> Result<(), CardError>
    requires several { AreSeveral sig.now several.now }
    requires earlier { (earlier : Declarations) × IsLater sig.now earlier × (known : List ℕ) × HaveStayed known several.now × AreSeveral earlier known × AreSmall earlier known ranks.old.items }
    requires order { IsOrder ranks.old.items order.old.items }
    ensures small { OnOk result (AreSmall sig.now several.now ranks.new.items) }
    ensures order { OnOk result (IsOrder ranks.new.items order.new.items) }
{
    structure();
    let sorts = sig.sorts();
    let rules = small_rules(alloc, sig, several, ranks.len() as u32)?;
    derive(alloc, sorts as usize, &rules, ranks, order)?;
    Ok(())
}

// The rules of the sorts from the first on.
fn small_rules(
    alloc: Global,
    sig: &Signature,
    several: &[usize],
    first: u32,
) -> Result<Vec<Rule>, CardError>
    requires long { length several.now ≡ length sig.now.sorts }
    requires first { first ≤ length sig.now.sorts }
    ensures rules { IfOk result (λ rules. AreSmallRules sig.now several.now first rules.items) }
{
    let mut rules = Vec::new(alloc);
    for s in first..sig.sorts() {
        rules.push(small_rule(alloc, sig, several, SortId(s))?)?;
    }
    Ok(rules)
}

// The rule for a sort.
fn small_rule(
    alloc: Global,
    sig: &Signature,
    several: &[usize],
    s: SortId,
) -> Result<Rule, CardError>
    requires inside { IsSort sig.now s }
    requires long { length several.now ≡ length sig.now.sorts }
    ensures rule { IfOk result (IsSmallRule sig.now several.now s.0) }
{
    let n = s.0 as usize;
    if several[n] == 0 {
        return fact(alloc, n, true);
    }
    if sig.ctors(s).len() == 0 {
        return fact(alloc, n, false);
    }
    Ok(Rule {
        head: n,
        body: sort_fields(alloc, sig, s)?,
    })
}
