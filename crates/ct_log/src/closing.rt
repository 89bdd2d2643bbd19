//! The closing rules: how the equations of a line contradict each other.
ghost use Rattle.std.specs.Prelude.{◌≡◌, ◌↔◌, IsTrue};
ghost use Rattle.ct_rules.specs.Cycle.{IsOfDatatype, LeadsTo};
ghost use Rattle.ct_log.specs.Closing.{Closes, IsClash, IsCycleBy, LeadBackBy};
ghost use Rattle.ct_log.specs.Equations.{Gave};
ghost use Rattle.ct_log.specs.Look.{AreApart};

use crate::look::{argument, constructor, gave, given_at};
use crate::rules::{Close, Hop};
use ct_rules::Equation;
use ct_sorts::{Kind, Signature};
use ct_terms::{TermId, TermTable};

/// Whether the closing rule holds of these equations.
pub(crate) fn closes(sig: &Signature, table: &TermTable, given: &[Equation], close: &Close) -> bool
    ensures closes { IsTrue result ↔ Closes sig.now table.now given.now close.now }
{
    match close {
        Close::Clash(step) => is_clash(table, given, *step),
        Close::Cycle(hops) => is_cycle(sig, table, given, hops.as_slice()),
    }
}

// Whether the step gave an equation of two constructor terms with different constructors.
fn is_clash(table: &TermTable, given: &[Equation], step: u64) -> bool
    ensures clash { IsTrue result ↔ IsClash table.now given.now step }
{
    match given_at(given, step) {
        None => false,
        Some(e) => differ(table, e.left, e.right),
    }
}

// Whether the two are constructor terms with different constructors.
fn differ(table: &TermTable, t: TermId, u: TermId) -> bool
    ensures differ { IsTrue result ↔ AreApart table.now t u }
{
    match constructor(table, t) {
        None => false,
        Some(c) => match constructor(table, u) {
            None => false,
            Some(d) => c != d,
        },
    }
}

// Whether each constructor term leads to the next, and the last to the first.
fn is_cycle(sig: &Signature, table: &TermTable, given: &[Equation], hops: &[Hop]) -> bool
    ensures cycle { IsTrue result ↔ IsCycleBy sig.now table.now given.now hops.now }
{
    match hops {
        [] => false,
        [first, ..] => lead_back(sig, table, given, hops, first.con),
    }
}

// Whether each constructor term leads to the next, and the last to the end.
fn lead_back(
    sig: &Signature,
    table: &TermTable,
    given: &[Equation],
    hops: &[Hop],
    end: TermId,
) -> bool
    ensures back { IsTrue result ↔ LeadBackBy sig.now table.now given.now hops.now end }
{
    if hops.is_empty() {
        return false;
    }
    let last = hops.len() - 1;
    for i in 0..last {
        if !leads_to(sig, table, given, hops[i], hops[i + 1].con) {
            return false;
        }
    }
    leads_to(sig, table, given, hops[last], end)
}

// Whether the term is one of a datatype whose argument at the place the step gives as equal to the next.
fn leads_to(sig: &Signature, table: &TermTable, given: &[Equation], hop: Hop, next: TermId) -> bool
    ensures leads { IsTrue result ↔ LeadsTo sig.now table.now (Gave given.now hop.step) hop.con hop.place next }
{
    if !is_of_datatype(sig, table, hop.con) {
        return false;
    }
    match constructor(table, hop.con) {
        None => false,
        Some(c) => match argument(table, hop.con, c, hop.place) {
            None => false,
            Some(x) => gave(given, hop.step, x, next),
        },
    }
}

// Whether the term is of a datatype.
fn is_of_datatype(sig: &Signature, table: &TermTable, t: TermId) -> bool
    ensures datatype { IsTrue result ↔ IsOfDatatype sig.now table.now t }
{
    if t.0 >= table.len() {
        return false;
    }
    let sort = table.sort(t);
    sort.0 < sig.sorts() && sig.kind(sort) == Kind::Data
}
