//! Which variables occur in the core term of a formula: what is bound to other variables makes no term.
ghost use Rattle.std.specs.Prelude.{◌≡◌, ℕ, ◌+◌, ◌++◌, Bool, true, false, ◌&&◌, ◌||◌, ◌==◌, [], replicate, IfOk, OnOk};
ghost use Rattle.ct_sorts.specs.declared.ids.DefId.{DefId};
ghost use Rattle.ct_formulas.specs.TreeFormula.{formula_of, formulas_of_trees};
ghost use Rattle.ct_formulas.specs.declared.tree.Quantifier.{Quantifier};
ghost use Rattle.ct_formulas.specs.Formula.{Ite, Let, Match, Quantified};
ghost use Rattle.ct_formulas.specs.Occurrence.{count_of, occurs, occurs_in_some, occurs_in_bound, matched_occurs, occurs_in_cases};
ghost use Rattle.ct_occurrence.specs.CaseFormula.{cases_of_trees};
ghost use Rattle.ct_occurrence.specs.Noted.{IsOfFirst, IsNoted, AreNoted, AreNotedWhere, CasesNoted, AddsNotes, AddsAllNotes};
ghost use Rattle.ct_occurrence.specs.Marks.{worked_in, flags_below, mark_each, has_set, MayMark, MayMarkAll, MayMarkCases};

use crate::cases::{body_of, pattern_of};
use crate::definitions::{Definitions, Worked, row_at};
use crate::earlier::Earlier;
use crate::fitting::variable_count;
use crate::height::height_of_call;
use crate::matching::tested;
use crate::notes::Notes;
use crate::plain::operands;
use ct_formulas::{Case, Tree};
use ct_sorts::{Signature, SortId};
use std::alloc::{AllocError, Global};

/// What is worked out of a definition with so many parameters: the flags of those that occur in its body, the notes on
/// the body, and how deep a call goes.
pub(crate) fn occurring(
    alloc: Global,
    sig: &Signature,
    definitions: &Definitions,
    count: usize,
    tree: &Tree,
) -> Result<Worked, AllocError>
    requires may { (uses : DefId → ℕ → Bool) × (n : ℕ) × MayMark sig.now uses n (worked_in definitions.now) (formula_of tree.now) }
    ensures flags { (uses : DefId → ℕ → Bool) (n : ℕ) → MayMark sig.now uses n (worked_in definitions.now) (formula_of tree.now)
        → IfOk result (λ worked. worked.flags.items ≡ flags_below (occurs sig.now uses (formula_of tree.now)) count) }
    ensures noted { (uses : DefId → ℕ → Bool) (n : ℕ) → MayMark sig.now uses n (worked_in definitions.now) (formula_of tree.now)
        → IfOk result (λ worked. IsOfFirst (IsNoted sig.now (worked_in definitions.now) uses (formula_of tree.now)) worked.notes.items) }
{
    let mut outer = Vec::new(alloc);
    let mut notes = Vec::new(alloc);
    let flags = mark_under(alloc, sig, definitions, &mut outer, count, tree, &mut notes)?;
    Ok(Worked {
        flags,
        notes,
        height: height_of_call(tree),
    })
}

/// The notes on a formula.
pub fn notes_on(
    alloc: Global,
    sig: &Signature,
    definitions: &Definitions,
    tree: &Tree,
) -> Result<Notes, AllocError>
    requires may { (uses : DefId → ℕ → Bool) × (n : ℕ) × MayMark sig.now uses n (worked_in definitions.now) (formula_of tree.now) }
    ensures noted { (uses : DefId → ℕ → Bool) (n : ℕ) → MayMark sig.now uses n (worked_in definitions.now) (formula_of tree.now)
        → IfOk result (IsNoted sig.now (worked_in definitions.now) uses (formula_of tree.now)) }
{
    let mut outer = Vec::new(alloc);
    mark(alloc, sig, definitions, &mut outer, tree)
}

// Sets the flags of the variables that occur. There is one flag a variable, that of variable 0 last. The answer
// is the notes on the formula.
#[cycle(mark)]
fn mark(
    alloc: Global,
    sig: &Signature,
    definitions: &Definitions,
    flags: &mut Vec<bool>,
    tree: &Tree,
) -> Result<Notes, AllocError>
    requires may { (uses : DefId → ℕ → Bool) × (n : ℕ) × MayMark sig.now uses n (worked_in definitions.now) (formula_of tree.now) }
    ensures marks { (uses : DefId → ℕ → Bool) (n : ℕ) → MayMark sig.now uses n (worked_in definitions.now) (formula_of tree.now)
        → OnOk result (flags.new.items ≡ mark_each (occurs sig.now uses (formula_of tree.now)) flags.old.items) }
    ensures noted { (uses : DefId → ℕ → Bool) (n : ℕ) → MayMark sig.now uses n (worked_in definitions.now) (formula_of tree.now)
        → IfOk result (IsNoted sig.now (worked_in definitions.now) uses (formula_of tree.now)) }
{
    if let Some(trees) = operands(tree) {
        let under = mark_all(alloc, sig, definitions, flags, trees)?;
        return Ok(Notes::plain(alloc, under));
    }
    match tree {
        Tree::Var(i) => {
            set_flag(flags, *i);
            Ok(Notes::none(alloc))
        }
        Tree::Ite(c, t, u) => mark_choice(alloc, sig, definitions, flags, c, t, u),
        Tree::Def(k, ts) => {
            let row = row_at(definitions, *k);
            let under = mark_bound(alloc, sig, definitions, flags, row, ts.as_slice())?;
            Ok(Notes::plain(alloc, under))
        }
        Tree::Let(ts, u) => mark_let(alloc, sig, definitions, flags, ts.as_slice(), u),
        Tree::Match(t, cases) => mark_match(alloc, sig, definitions, flags, t, cases.as_slice()),
        Tree::Quantified(_, sorts, t) => mark_quantified(
            alloc,
            sig,
            definitions,
            flags,
            sorts.as_slice(),
            t,
        ),
        Tree::Con(_, _)
        | Tree::Sel(_, _)
        | Tree::Test(_, _)
        | Tree::Apply(_, _)
        | Tree::Not(_)
        | Tree::And(_)
        | Tree::Or(_)
        | Tree::Xor(_)
        | Tree::Implies(_)
        | Tree::Equal(_)
        | Tree::Distinct(_) => unreachable!(),
    }
}

// The same of several formulas.
#[cycle(mark)]
fn mark_all(
    alloc: Global,
    sig: &Signature,
    definitions: &Definitions,
    flags: &mut Vec<bool>,
    trees: &[Tree],
) -> Result<Vec<Notes>, AllocError>
    requires may { (uses : DefId → ℕ → Bool) × (n : ℕ) × MayMarkAll sig.now uses n (worked_in definitions.now) (formulas_of_trees trees.now) }
    ensures marks { (uses : DefId → ℕ → Bool) (n : ℕ) → MayMarkAll sig.now uses n (worked_in definitions.now) (formulas_of_trees trees.now)
        → OnOk result (flags.new.items ≡ mark_each (occurs_in_some sig.now uses (formulas_of_trees trees.now)) flags.old.items) }
    ensures noted { (uses : DefId → ℕ → Bool) (n : ℕ) → MayMarkAll sig.now uses n (worked_in definitions.now) (formulas_of_trees trees.now)
        → IfOk result (λ all. AreNoted sig.now (worked_in definitions.now) uses (formulas_of_trees trees.now) all.items) }
{
    let mut all = Vec::new(alloc);
    let mut rest = trees;
    while let [tree, others @ ..] = rest {
        let notes = mark(alloc, sig, definitions, flags, tree)?;
        all.push(notes)?;
        rest = others;
    }
    Ok(all)
}

// The same of a choice.
#[cycle(mark)]
fn mark_choice(
    alloc: Global,
    sig: &Signature,
    definitions: &Definitions,
    flags: &mut Vec<bool>,
    condition: &Tree,
    first: &Tree,
    second: &Tree,
) -> Result<Notes, AllocError>
    requires may { (uses : DefId → ℕ → Bool) × (n : ℕ) × MayMark sig.now uses n (worked_in definitions.now) (Ite (formula_of condition.now) (formula_of first.now) (formula_of second.now)) }
    ensures marks { (uses : DefId → ℕ → Bool) (n : ℕ) → MayMark sig.now uses n (worked_in definitions.now) (Ite (formula_of condition.now) (formula_of first.now) (formula_of second.now))
        → OnOk result (flags.new.items ≡ mark_each (occurs sig.now uses (Ite (formula_of condition.now) (formula_of first.now) (formula_of second.now))) flags.old.items) }
    ensures noted { (uses : DefId → ℕ → Bool) (n : ℕ) → MayMark sig.now uses n (worked_in definitions.now) (Ite (formula_of condition.now) (formula_of first.now) (formula_of second.now))
        → IfOk result (IsNoted sig.now (worked_in definitions.now) uses (Ite (formula_of condition.now) (formula_of first.now) (formula_of second.now))) }
{
    let c = mark(alloc, sig, definitions, flags, condition)?;
    let t = mark(alloc, sig, definitions, flags, first)?;
    let u = mark(alloc, sig, definitions, flags, second)?;
    let mut under = Vec::new(alloc);
    under.push(c)?;
    under.push(t)?;
    under.push(u)?;
    Ok(Notes::plain(alloc, under))
}

// The same of formulas that are bound to variables, as far as the variable's flag is set.
#[cycle(mark)]
fn mark_bound(
    alloc: Global,
    sig: &Signature,
    definitions: &Definitions,
    flags: &mut Vec<bool>,
    bound: &[bool],
    trees: &[Tree],
) -> Result<Vec<Notes>, AllocError>
    requires may { (uses : DefId → ℕ → Bool) × (n : ℕ) × MayMarkAll sig.now uses n (worked_in definitions.now) (formulas_of_trees trees.now) }
    requires flags { (inner : ℕ → Bool) × (bound.now ≡ flags_below inner (count_of (formulas_of_trees trees.now))) }
    ensures marks { (inner : ℕ → Bool) (uses : DefId → ℕ → Bool) (n : ℕ) → MayMarkAll sig.now uses n (worked_in definitions.now) (formulas_of_trees trees.now)
        → bound.now ≡ flags_below inner (count_of (formulas_of_trees trees.now))
        → OnOk result (flags.new.items ≡ mark_each (occurs_in_bound sig.now uses inner (formulas_of_trees trees.now)) flags.old.items) }
    ensures noted { (inner : ℕ → Bool) (uses : DefId → ℕ → Bool) (n : ℕ) → MayMarkAll sig.now uses n (worked_in definitions.now) (formulas_of_trees trees.now)
        → bound.now ≡ flags_below inner (count_of (formulas_of_trees trees.now))
        → IfOk result (λ all. AreNotedWhere sig.now (worked_in definitions.now) uses bound.now (formulas_of_trees trees.now) all.items) }
{
    let mut all = Vec::new(alloc);
    let mut left = bound;
    let mut rest = trees;
    while let [tree, others @ ..] = rest {
        let [set, more @ ..] = left else {
            return Ok(all);
        };
        let notes = mark_where(alloc, sig, definitions, flags, *set, tree)?;
        all.push(notes)?;
        left = more;
        rest = others;
    }
    Ok(all)
}

// The same of one formula, where it counts.
#[cycle(mark)]
fn mark_where(
    alloc: Global,
    sig: &Signature,
    definitions: &Definitions,
    flags: &mut Vec<bool>,
    counts: bool,
    tree: &Tree,
) -> Result<Notes, AllocError>
    requires may { (uses : DefId → ℕ → Bool) × (n : ℕ) × MayMark sig.now uses n (worked_in definitions.now) (formula_of tree.now) }
    ensures marks { (uses : DefId → ℕ → Bool) (n : ℕ) → MayMark sig.now uses n (worked_in definitions.now) (formula_of tree.now)
        → OnOk result (flags.new.items ≡ mark_each (λ i. counts && occurs sig.now uses (formula_of tree.now) i) flags.old.items) }
    ensures noted { (uses : DefId → ℕ → Bool) (n : ℕ) → MayMark sig.now uses n (worked_in definitions.now) (formula_of tree.now)
        → counts ≡ true
        → IfOk result (IsNoted sig.now (worked_in definitions.now) uses (formula_of tree.now)) }
{
    if counts {
        return mark(alloc, sig, definitions, flags, tree);
    }
    Ok(Notes::none(alloc))
}

// The same of a formula under so many variables more. The answer is their flags, in the order of binding; the
// notes come after those that there are.
#[cycle(mark)]
fn mark_under(
    alloc: Global,
    sig: &Signature,
    definitions: &Definitions,
    flags: &mut Vec<bool>,
    count: usize,
    tree: &Tree,
    inner: &mut Vec<Notes>,
) -> Result<Vec<bool>, AllocError>
    requires may { (uses : DefId → ℕ → Bool) × (n : ℕ) × MayMark sig.now uses n (worked_in definitions.now) (formula_of tree.now) }
    ensures flags { (uses : DefId → ℕ → Bool) (n : ℕ) → MayMark sig.now uses n (worked_in definitions.now) (formula_of tree.now)
        → IfOk result (λ bound. bound.items ≡ flags_below (occurs sig.now uses (formula_of tree.now)) count) }
    ensures marks { (uses : DefId → ℕ → Bool) (n : ℕ) → MayMark sig.now uses n (worked_in definitions.now) (formula_of tree.now)
        → OnOk result (flags.new.items ≡ mark_each (λ i. occurs sig.now uses (formula_of tree.now) (i + count)) flags.old.items) }
    ensures noted { (uses : DefId → ℕ → Bool) (n : ℕ) → MayMark sig.now uses n (worked_in definitions.now) (formula_of tree.now)
        → OnOk result (AddsNotes (IsNoted sig.now (worked_in definitions.now) uses (formula_of tree.now)) inner.old.items inner.new.items) }
{
    let outside = flags.len();
    add_flags(flags, count)?;
    let notes = mark(alloc, sig, definitions, flags, tree)?;
    inner.push(notes)?;
    flags.split_off(outside)
}

// The same of a `let`.
#[cycle(mark)]
fn mark_let(
    alloc: Global,
    sig: &Signature,
    definitions: &Definitions,
    flags: &mut Vec<bool>,
    trees: &[Tree],
    body: &Tree,
) -> Result<Notes, AllocError>
    requires may { (uses : DefId → ℕ → Bool) × (n : ℕ) × MayMark sig.now uses n (worked_in definitions.now) (Let (formulas_of_trees trees.now) (formula_of body.now)) }
    ensures marks { (uses : DefId → ℕ → Bool) (n : ℕ) → MayMark sig.now uses n (worked_in definitions.now) (Let (formulas_of_trees trees.now) (formula_of body.now))
        → OnOk result (flags.new.items ≡ mark_each (occurs sig.now uses (Let (formulas_of_trees trees.now) (formula_of body.now))) flags.old.items) }
    ensures noted { (uses : DefId → ℕ → Bool) (n : ℕ) → MayMark sig.now uses n (worked_in definitions.now) (Let (formulas_of_trees trees.now) (formula_of body.now))
        → IfOk result (IsNoted sig.now (worked_in definitions.now) uses (Let (formulas_of_trees trees.now) (formula_of body.now))) }
{
    let mut inner = Vec::new(alloc);
    let bound = mark_under(
        alloc,
        sig,
        definitions,
        flags,
        trees.len(),
        body,
        &mut inner,
    )?;
    let under = mark_bound(alloc, sig, definitions, flags, bound.as_slice(), trees)?;
    Ok(Notes::binder(bound, under, inner))
}

// The same of a formula with a quantifier.
#[cycle(mark)]
fn mark_quantified(
    alloc: Global,
    sig: &Signature,
    definitions: &Definitions,
    flags: &mut Vec<bool>,
    sorts: &[SortId],
    body: &Tree,
) -> Result<Notes, AllocError>
    requires may { (q : Quantifier) × (uses : DefId → ℕ → Bool) × (n : ℕ) × MayMark sig.now uses n (worked_in definitions.now) (Quantified q sorts.now (formula_of body.now)) }
    ensures marks { (q : Quantifier) (uses : DefId → ℕ → Bool) (n : ℕ) → MayMark sig.now uses n (worked_in definitions.now) (Quantified q sorts.now (formula_of body.now))
        → OnOk result (flags.new.items ≡ mark_each (occurs sig.now uses (Quantified q sorts.now (formula_of body.now))) flags.old.items) }
    ensures noted { (q : Quantifier) (uses : DefId → ℕ → Bool) (n : ℕ) → MayMark sig.now uses n (worked_in definitions.now) (Quantified q sorts.now (formula_of body.now))
        → IfOk result (IsNoted sig.now (worked_in definitions.now) uses (Quantified q sorts.now (formula_of body.now))) }
{
    let mut inner = Vec::new(alloc);
    let count = sorts.len();
    let bound = mark_under(alloc, sig, definitions, flags, count, body, &mut inner)?;
    Ok(Notes::binder(bound, Vec::new(alloc), inner))
}

// The same of a `match`.
#[cycle(mark)]
fn mark_match(
    alloc: Global,
    sig: &Signature,
    definitions: &Definitions,
    flags: &mut Vec<bool>,
    matched: &Tree,
    cases: &[Case],
) -> Result<Notes, AllocError>
    requires may { (uses : DefId → ℕ → Bool) × (n : ℕ) × MayMark sig.now uses n (worked_in definitions.now) (Match (formula_of matched.now) (cases_of_trees cases.now)) }
    ensures marks { (uses : DefId → ℕ → Bool) (n : ℕ) → MayMark sig.now uses n (worked_in definitions.now) (Match (formula_of matched.now) (cases_of_trees cases.now))
        → OnOk result (flags.new.items ≡ mark_each (occurs sig.now uses (Match (formula_of matched.now) (cases_of_trees cases.now))) flags.old.items) }
    ensures noted { (uses : DefId → ℕ → Bool) (n : ℕ) → MayMark sig.now uses n (worked_in definitions.now) (Match (formula_of matched.now) (cases_of_trees cases.now))
        → IfOk result (IsNoted sig.now (worked_in definitions.now) uses (Match (formula_of matched.now) (cases_of_trees cases.now))) }
{
    let mut inner = Vec::new(alloc);
    let counts = mark_cases(alloc, sig, definitions, flags, cases, &mut inner)?;
    let notes = mark_where(alloc, sig, definitions, flags, counts, matched)?;
    let mut bound = Vec::new(alloc);
    bound.push(counts)?;
    let mut under = Vec::new(alloc);
    under.push(notes)?;
    Ok(Notes::binder(bound, under, inner))
}

// The same of the cases that the core term has: up to one that surely fits or is the last. The answer is whether the
// core term has the matched term.
#[cycle(mark)]
fn mark_cases(
    alloc: Global,
    sig: &Signature,
    definitions: &Definitions,
    flags: &mut Vec<bool>,
    cases: &[Case],
    inner: &mut Vec<Notes>,
) -> Result<bool, AllocError>
    requires may { (uses : DefId → ℕ → Bool) × (n : ℕ) × MayMarkCases sig.now uses n (worked_in definitions.now) (cases_of_trees cases.now) }
    ensures matched { (uses : DefId → ℕ → Bool) (n : ℕ) → MayMarkCases sig.now uses n (worked_in definitions.now) (cases_of_trees cases.now)
        → IfOk result (λ occurs. occurs ≡ matched_occurs sig.now uses [] (cases_of_trees cases.now)) }
    ensures marks { (uses : DefId → ℕ → Bool) (n : ℕ) → MayMarkCases sig.now uses n (worked_in definitions.now) (cases_of_trees cases.now)
        → OnOk result (flags.new.items ≡ mark_each (occurs_in_cases sig.now uses [] (cases_of_trees cases.now)) flags.old.items) }
    ensures noted { (uses : DefId → ℕ → Bool) (n : ℕ) → MayMarkCases sig.now uses n (worked_in definitions.now) (cases_of_trees cases.now)
        → OnOk result (AddsAllNotes (CasesNoted sig.now (worked_in definitions.now) uses [] (cases_of_trees cases.now)) inner.old.items inner.new.items) }
{
    let mut earlier = Earlier::new(alloc);
    let mut tests = false;
    let mut rest = cases;
    while let [case, others @ ..] = rest {
        let pattern = pattern_of(case);
        let body = body_of(case);
        let count = variable_count(sig, pattern);
        let bound = mark_under(alloc, sig, definitions, flags, count, body, inner)?;
        let Some(c) = tested(sig, &earlier, pattern, others.is_empty()) else {
            return Ok(has_set_or(tests, bound.as_slice()));
        };
        earlier.push(c)?;
        tests = true;
        rest = others;
    }
    Ok(tests)
}

// Sets the flag of a variable.
fn set_flag(flags: &mut Vec<bool>, i: u64)
    ensures marks { flags.new.items ≡ mark_each (λ k. i == k) flags.old.items }
{
    if (i as usize) < flags.len() {
        let place = flags.len() - 1 - i as usize;
        flags[place] = true;
    }
}

// So many flags more, none of them set.
fn add_flags(flags: &mut Vec<bool>, count: usize) -> Result<(), AllocError>
    ensures more { OnOk result (flags.new.items ≡ flags.old.items ++ replicate count false) }
{
    let mut left = count;
    while left > 0 {
        flags.push(false)?;
        left -= 1;
    }
    Ok(())
}

// Whether it is so, or a flag is set.
fn has_set_or(already: bool, flags: &[bool]) -> bool
    ensures value { result ≡ (already || has_set flags.now) }
{
    if already {
        return true;
    }
    has_set(flags)
}

// Whether a flag is set.
fn has_set(flags: &[bool]) -> bool
    ensures value { result ≡ has_set flags.now }
{
    let mut rest = flags;
    while let [flag, others @ ..] = rest {
        if *flag {
            return true;
        }
        rest = others;
    }
    false
}
