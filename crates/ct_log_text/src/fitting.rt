//! Whether the term numbers of a line are those of terms, and its literals may stand in a clause.
ghost use Rattle.std.specs.Prelude.{◌≡◌};
ghost use Rattle.std.specs.List.{list_all};
ghost use Rattle.ct_log_text.specs.Fitting.{is_term, has_terms_pair, has_terms_step, has_terms_close, has_terms_rule, has_terms, is_stripped, has_stripped_step, has_stripped_rule, has_stripped};

use ct_log::{Close, EqStep, Hop, Line, Pair, Step};
use ct_sorts::SortId;
use ct_terms::{Core, Lit, TermId, TermTable};

/// The sort of Boolean terms.
const BOOL: SortId = SortId(0);

/// Whether the number is that of one of so many terms.
fn is_term(n: u32, t: TermId) -> bool
    ensures value { result ≡ is_term n t }
{
    t.0 < n
}

/// Whether all are numbers of terms.
pub(crate) fn are_terms(n: u32, terms: &[TermId]) -> bool
    ensures value { result ≡ list_all (is_term n) terms.now }
{
    let mut rest = terms;
    while let [t, others @ ..] = rest {
        if !is_term(n, *t) {
            return false;
        }
        rest = others;
    }
    true
}

/// Whether the literals are over terms.
fn have_terms_literals(n: u32, clause: &[Lit]) -> bool
    ensures value { result ≡ list_all (λ l. is_term n l.term) clause.now }
{
    let mut rest = clause;
    while let [l, others @ ..] = rest {
        if !is_term(n, l.term) {
            return false;
        }
        rest = others;
    }
    true
}

/// Whether the pair is of terms.
fn has_terms_pair(n: u32, pair: &Pair) -> bool
    ensures value { result ≡ has_terms_pair n pair.now }
{
    is_term(n, pair.left) && is_term(n, pair.right)
}

/// Whether all pairs are of terms.
fn have_terms_pairs(n: u32, pairs: &[Pair]) -> bool
    ensures value { result ≡ list_all (has_terms_pair n) pairs.now }
{
    let mut rest = pairs;
    while let [pair, others @ ..] = rest {
        if !has_terms_pair(n, pair) {
            return false;
        }
        rest = others;
    }
    true
}

/// Whether the step names terms.
fn has_terms_step(n: u32, step: &EqStep) -> bool
    ensures value { result ≡ has_terms_step n step.now }
{
    match step {
        EqStep::Hyp(l) => is_term(n, l.term),
        EqStep::Refl(t) => is_term(n, *t),
        EqStep::Sym(_) => true,
        EqStep::Trans(_, _) => true,
        EqStep::Cong(t, u, _) => is_term(n, *t) && is_term(n, *u),
        EqStep::Inject(_, _) => true,
        EqStep::Sel(t, _) => is_term(n, *t),
        EqStep::Test(t, _) => is_term(n, *t),
        EqStep::Expand(_, c) => is_term(n, *c),
        EqStep::EqualIn(t, _) => is_term(n, *t),
        EqStep::EqualOut(_) => true,
        EqStep::Neg(t, _) => is_term(n, *t),
        EqStep::Single(x, y) => is_term(n, *x) && is_term(n, *y),
        EqStep::Unique(_, pairs) => have_terms_pairs(n, pairs.as_slice()),
    }
}

/// Whether all steps name terms.
fn have_terms_steps(n: u32, steps: &[EqStep]) -> bool
    ensures value { result ≡ list_all (has_terms_step n) steps.now }
{
    let mut rest = steps;
    while let [step, others @ ..] = rest {
        if !has_terms_step(n, step) {
            return false;
        }
        rest = others;
    }
    true
}

/// Whether the cycle is of terms.
fn have_terms_hops(n: u32, hops: &[Hop]) -> bool
    ensures value { result ≡ list_all (λ hop. is_term n hop.con) hops.now }
{
    let mut rest = hops;
    while let [hop, others @ ..] = rest {
        if !is_term(n, hop.con) {
            return false;
        }
        rest = others;
    }
    true
}

/// Whether the end of a theory line names terms.
fn has_terms_close(n: u32, close: &Close) -> bool
    ensures value { result ≡ has_terms_close n close.now }
{
    match close {
        Close::Clash(_) => true,
        Close::Cycle(hops) => have_terms_hops(n, hops.as_slice()),
    }
}

/// Whether the rule of a line names terms.
fn has_terms_rule(n: u32, step: &Step) -> bool
    ensures value { result ≡ has_terms_rule n step.now }
{
    match step {
        Step::Input(t) => is_term(n, *t),
        Step::Gate(_, t, _) => is_term(n, *t),
        Step::Exhaust(t) => is_term(n, *t),
        Step::Theory(steps, close) => {
            have_terms_steps(n, steps.as_slice()) && has_terms_close(n, close)
        }
        Step::Learn(_) => true,
    }
}

/// Whether every term number of the line is that of one of so many terms.
pub(crate) fn has_terms(n: u32, line: &Line) -> bool
    ensures value { result ≡ has_terms n line.now }
{
    have_terms_literals(n, line.clause.as_slice()) && has_terms_rule(n, &line.step)
}

/// Whether the literal is over a Boolean term that is no negation.
fn is_stripped(table: &TermTable, l: Lit) -> bool
    ensures value { result ≡ is_stripped table.now l }
{
    if l.term.0 >= table.len() {
        return false;
    }
    match table.core(l.term) {
        Core::Not(_) => false,
        Core::Con(_, _)
        | Core::Sel(_, _)
        | Core::Test(_, _)
        | Core::Apply(_, _)
        | Core::Eq(_, _)
        | Core::And(_)
        | Core::Or(_)
        | Core::Iff(_, _)
        | Core::Ite(_, _, _) => table.sort(l.term) == BOOL,
    }
}

/// Whether the literals are over Boolean terms that are no negations.
fn are_stripped(table: &TermTable, clause: &[Lit]) -> bool
    ensures value { result ≡ list_all (is_stripped table.now) clause.now }
{
    let mut rest = clause;
    while let [l, others @ ..] = rest {
        if !is_stripped(table, *l) {
            return false;
        }
        rest = others;
    }
    true
}

/// The same of the literal of a step, where it has one.
fn has_stripped_step(table: &TermTable, step: &EqStep) -> bool
    ensures value { result ≡ has_stripped_step table.now step.now }
{
    match step {
        EqStep::Hyp(l) => is_stripped(table, *l),
        EqStep::Refl(_)
        | EqStep::Sym(_)
        | EqStep::Trans(_, _)
        | EqStep::Cong(_, _, _)
        | EqStep::Inject(_, _)
        | EqStep::Sel(_, _)
        | EqStep::Test(_, _)
        | EqStep::Expand(_, _)
        | EqStep::EqualIn(_, _)
        | EqStep::EqualOut(_)
        | EqStep::Neg(_, _)
        | EqStep::Single(_, _)
        | EqStep::Unique(_, _) => true,
    }
}

/// The same of the literals of steps.
fn have_stripped_steps(table: &TermTable, steps: &[EqStep]) -> bool
    ensures value { result ≡ list_all (has_stripped_step table.now) steps.now }
{
    let mut rest = steps;
    while let [step, others @ ..] = rest {
        if !has_stripped_step(table, step) {
            return false;
        }
        rest = others;
    }
    true
}

/// The same of the literals of a rule.
fn has_stripped_rule(table: &TermTable, step: &Step) -> bool
    ensures value { result ≡ has_stripped_rule table.now step.now }
{
    match step {
        Step::Theory(steps, _) => have_stripped_steps(table, steps.as_slice()),
        Step::Input(_) | Step::Gate(_, _, _) | Step::Exhaust(_) | Step::Learn(_) => true,
    }
}

/// Whether every literal of the line is over a Boolean term that is no negation.
pub(crate) fn has_stripped(table: &TermTable, line: &Line) -> bool
    ensures value { result ≡ has_stripped table.now line.now }
{
    are_stripped(table, line.clause.as_slice()) && has_stripped_rule(table, &line.step)
}
