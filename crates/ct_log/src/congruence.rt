//! Congruence: two terms with one head, and for each index an earlier step with the equation of the arguments.
ghost use Rattle.std.specs.Prelude.{◌≡◌, ◌↔◌, IsTrue};
ghost use Rattle.ct_terms.specs.Children.{core_children};
ghost use Rattle.ct_log.specs.Equations.{AreCongruentBy, GaveEach};

use crate::head::head_of;
use crate::look::gave;
use ct_rules::Equation;
use ct_terms::{Core, TermId, TermTable};

/// Whether the two terms have one head, and these steps give the equations of their arguments, one for one.
pub(crate) fn are_congruent(
    table: &TermTable,
    given: &[Equation],
    t: TermId,
    u: TermId,
    steps: &[u64],
) -> bool
    ensures congruent { IsTrue result ↔ AreCongruentBy table.now given.now t u steps.now }
{
    if t.0 >= table.len() || u.0 >= table.len() {
        return false;
    }
    let left = table.core(t);
    let right = table.core(u);
    head_of(left) == head_of(right) && gave_arguments(given, steps, left, right)
}

// Whether the steps give the equations of the arguments of the two terms.
fn gave_arguments(given: &[Equation], steps: &[u64], left: &Core, right: &Core) -> bool
    ensures each { IsTrue result ↔ GaveEach given.now steps.now (core_children left.now) (core_children right.now) }
{
    match left {
        Core::Con(_, xs) => gave_right(given, steps, xs.as_slice(), right),
        Core::Sel(_, x) => gave_right(given, steps, &[*x], right),
        Core::Test(_, x) => gave_right(given, steps, &[*x], right),
        Core::Apply(_, xs) => gave_right(given, steps, xs.as_slice(), right),
        Core::Eq(x, y) => gave_right(given, steps, &[*x, *y], right),
        Core::Not(x) => gave_right(given, steps, &[*x], right),
        Core::And(xs) => gave_right(given, steps, xs.as_slice(), right),
        Core::Or(xs) => gave_right(given, steps, xs.as_slice(), right),
        Core::Iff(x, y) => gave_right(given, steps, &[*x, *y], right),
        Core::Ite(x, y, z) => gave_right(given, steps, &[*x, *y, *z], right),
    }
}

// Whether the steps give the equations of these arguments and those of the term on the right.
fn gave_right(given: &[Equation], steps: &[u64], xs: &[TermId], right: &Core) -> bool
    ensures each { IsTrue result ↔ GaveEach given.now steps.now xs.now (core_children right.now) }
{
    match right {
        Core::Con(_, ys) => gave_each(given, steps, xs, ys.as_slice()),
        Core::Sel(_, x) => gave_each(given, steps, xs, &[*x]),
        Core::Test(_, x) => gave_each(given, steps, xs, &[*x]),
        Core::Apply(_, ys) => gave_each(given, steps, xs, ys.as_slice()),
        Core::Eq(x, y) => gave_each(given, steps, xs, &[*x, *y]),
        Core::Not(x) => gave_each(given, steps, xs, &[*x]),
        Core::And(ys) => gave_each(given, steps, xs, ys.as_slice()),
        Core::Or(ys) => gave_each(given, steps, xs, ys.as_slice()),
        Core::Iff(x, y) => gave_each(given, steps, xs, &[*x, *y]),
        Core::Ite(x, y, z) => gave_each(given, steps, xs, &[*x, *y, *z]),
    }
}

// Whether the steps give the equations of these terms, one for one.
fn gave_each(given: &[Equation], steps: &[u64], xs: &[TermId], ys: &[TermId]) -> bool
    ensures each { IsTrue result ↔ GaveEach given.now steps.now xs.now ys.now }
{
    if xs.len() != steps.len() {
        return false;
    }
    if ys.len() != steps.len() {
        return false;
    }
    for i in 0..steps.len() {
        if !gave(given, steps[i], xs[i], ys[i]) {
            return false;
        }
    }
    true
}
