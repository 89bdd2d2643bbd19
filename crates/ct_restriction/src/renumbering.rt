//! The numbers in one table of the terms of another.
//!
//! Terms have greater numbers than the terms under them: so one pass from the first number up finds or makes them all.
ghost use Rattle.std.specs.Prelude.{◌≡◌, ◌↔◌, ◌+◌, ◌<◌, ◌≤◌, ◌⊎◌, ◌∷◌, [], true, All, length, Some, IsTrue, IfOk, OnOk, IsErrOf};
ghost use Rattle.std.specs.List.{AllByRecursion};
ghost use Rattle.ct_sorts.specs.Grown.{Begins};
ghost use Rattle.ct_terms.specs.declared.ids.TermId.{TermId};
ghost use Rattle.ct_terms.specs.Children.{core_children};
ghost use Rattle.ct_terms.specs.Terms.{Terms, AreSorted, most_terms};
ghost use Rattle.ct_terms.specs.CoreTree.{term_at};
ghost use Rattle.ct_closure.specs.ClosedTable.{terms_at};
ghost use Rattle.ct_restriction.specs.Renamed.{number_in};
ghost use Rattle.ct_restriction.specs.Restricted.{IsSubtermOfOne, MarksUnder};
ghost use Rattle.ct_restriction.specs.Renumbered.{IsEqualTerm, IsNumber, IsKnown, HasNoRoom, AreFound, AreMade, no_numbers, with_number};

use crate::marking::marked;
use crate::renaming::renamed;
use ct_sorts::Signature;
use ct_terms::{Core, TermError, TermId, TermTable};
use std::alloc::{AllocError, Global};
use std::marker::Model;

/// Numbers in a table of the terms of another one, as far as they are known.
#[derive(Debug, Drop)]
pub struct Renumbering {
    known: Vec<bool>,
    numbers: Vec<TermId>,
}

impl Model for Renumbering {
    ghost use Rattle.ct_restriction.specs.Renumbered.{Numbers};

    ghost Value = { Numbers };

    ghost view = { λ r. record { known = r.known.items; numbers = r.numbers.items } };
}

impl Renumbering {
    /// The numbers of those terms of the first table that the second one has. The time is linear in the first. Its only error is
    /// out of memory.
    pub fn between(
        alloc: Global,
        from: &TermTable,
        to: &TermTable,
    ) -> Result<Renumbering, AllocError>
        ensures exact { IfOk result (λ n. (t u : TermId) → IsEqualTerm from.now to.now t u ↔ IsNumber n t u) }
    {
        let _terms = from.len();
        let mut made = Renumbering::none(alloc);
        for t in 0..from.len() {
            let number = found(alloc, from, to, TermId(t), &made)?;
            made.push(number)?;
        }
        Ok(made)
    }

    /// Copies the subterms of the roots, which are terms of the first table, into the second, until that is full. Gives
    /// the numbers of those that stand there. The time is linear in the first table. Its only error is out of memory,
    /// after which the table may have terms more.
    pub fn copying(
        alloc: Global,
        sig: &Signature,
        from: &TermTable,
        roots: &[TermId],
        to: &mut TermTable,
    ) -> Result<Renumbering, TermError>
        requires sorted { AreSorted sig.now from.now }
        requires so_far { AreSorted sig.now to.old }
        requires within { All (λ t. t.0 < length from.now) roots.now }
        ensures grown { Begins to.old to.new }
        ensures sorted { AreSorted sig.now to.new }
        ensures equal { IfOk result (λ n. (t u : TermId) → IsNumber n t u → IsEqualTerm from.now to.new t u) }

        // All roots are known, or the table had no room for them; it had where there is room for both tables.
        ensures all { IfOk result (λ n. All (IsKnown n) roots.now ⊎ HasNoRoom to.old from.now roots.now) }
        ensures room { length to.old + length from.now ≤ most_terms + 2 → IfOk result (λ n. All (IsKnown n) roots.now) }

        // Nothing else is put there.
        ensures only { OnOk result ((u : TermId) → u.0 < length to.new
            → (u.0 < length to.old) ⊎ IsSubtermOfOne (terms_at from.now roots.now) (term_at to.new u)) }
        ensures err { IsErrOf result TermError.Full → ⊥ }
    {
        let marks = marked(alloc, from, roots)?;
        let _terms = from.len();
        let _others = to.len();
        let mut made = Renumbering::of_truths(alloc)?;
        for t in 2..from.len() {
            let number = made_next(alloc, sig, from, TermId(t), &marks, &made, to)?;
            made.push(number)?;
        }
        let _copied = to.len();
        Ok(made)
    }

    /// The number of the term; any number if it is not known.
    pub fn number(&self, t: TermId) -> TermId
        ensures value { result ≡ number_in self.now.numbers t }
    {
        let index = t.0 as usize;
        if index >= self.numbers.len() {
            return t;
        }
        self.numbers[index]
    }

    /// Whether all these terms are known.
    pub fn knows(&self, terms: &[TermId]) -> bool
        ensures known { IsTrue result ↔ AllByRecursion (IsKnown self.now) terms.now }
    {
        for t in terms {
            if !self.knows_one(*t) {
                return false;
            }
        }
        true
    }

    // Whether the term is known.
    fn knows_one(&self, t: TermId) -> bool
        ensures known { IsTrue result ↔ IsKnown self.now t }
    {
        let index = t.0 as usize;
        if index >= self.numbers.len() {
            return false;
        }
        if index >= self.known.len() {
            return false;
        }
        self.known[index]
    }

    // Whether the terms right under this one are known.
    fn knows_under(&self, core: &Core) -> bool
        ensures known { IsTrue result ↔ AllByRecursion (IsKnown self.now) (core_children core.now) }
    {
        match core {
            Core::Con(_, args) => self.knows(args.as_slice()),
            Core::Sel(_, t) => self.knows(&[*t]),
            Core::Test(_, t) => self.knows(&[*t]),
            Core::Apply(_, args) => self.knows(args.as_slice()),
            Core::Eq(a, b) => self.knows(&[*a, *b]),
            Core::Not(t) => self.knows(&[*t]),
            Core::And(args) => self.knows(args.as_slice()),
            Core::Or(args) => self.knows(args.as_slice()),
            Core::Iff(a, b) => self.knows(&[*a, *b]),
            Core::Ite(c, a, b) => self.knows(&[*c, *a, *b]),
        }
    }

    // No numbers.
    fn none(alloc: Global) -> Renumbering
        ensures none { result ≡ no_numbers }
    {
        Renumbering {
            known: Vec::new(alloc),
            numbers: Vec::new(alloc),
        }
    }

    // The numbers of `true` and `false`, which are those of every table.
    fn of_truths(alloc: Global) -> Result<Renumbering, AllocError>
        ensures two { IfOk result (λ n. n ≡ record { known = true ∷ (true ∷ []); numbers = record { 0 = 0 } ∷ (record { 0 = 1 } ∷ []) }) }
    {
        Ok(Renumbering {
            known: Vec::from_slice(alloc, &[true, true])?,
            numbers: Vec::from_slice(alloc, &[TermId(0), TermId(1)])?,
        })
    }

    // The number of one term more, where it has one.
    fn push(&mut self, number: Option<TermId>) -> Result<(), AllocError>
        ensures pushed { OnOk result (self.new ≡ with_number self.old number) }
    {
        match number {
            Some(u) => {
                self.known.push(true)?;
                self.numbers.push(u)?;
            }
            None => {
                self.known.push(false)?;
                self.numbers.push(TermId(0))?;
            }
        }
        Ok(())
    }
}

// The number of the next term in the other table, where it has the term.
fn found(
    alloc: Global,
    from: &TermTable,
    to: &TermTable,
    t: TermId,
    so_far: &Renumbering,
) -> Result<Option<TermId>, AllocError>
    requires within { t.0 < length from.now }
    requires next { length so_far.now.numbers ≡ t.0 }
    requires found { AreFound from.now to.now so_far.now }
    ensures found { IfOk result (λ number. (u : TermId) → (number ≡ Some u) ↔ IsEqualTerm from.now to.now t u) }
{
    let _terms = from.len();
    let _others = to.len();
    let core = from.core(t);
    if !so_far.knows_under(core) {
        return Ok(None);
    }
    let core = renamed(alloc, core, &so_far.numbers)?;
    let number = to.find(&core);
    drop(core);
    Ok(number)
}

// Puts the next term into the other table, where it is marked and there is room. Gives its number.
fn made_next(
    alloc: Global,
    sig: &Signature,
    from: &TermTable,
    t: TermId,
    marks: &[bool],
    so_far: &Renumbering,
    to: &mut TermTable,
) -> Result<Option<TermId>, TermError>
    requires sorted { AreSorted sig.now from.now }
    requires so_far { AreSorted sig.now to.old }
    requires within { t.0 < length from.now }
    requires next { length so_far.now.numbers ≡ t.0 }
    requires long { length marks.now ≡ length from.now }
    requires under { MarksUnder from.now marks.now 0 }
    requires made { (base : Terms) × AreMade base from.now marks.now to.old so_far.now }
    ensures grown { Begins to.old to.new }
    ensures sorted { AreSorted sig.now to.new }
    ensures made { (base : Terms) → AreMade base from.now marks.now to.old so_far.now
        → IfOk result (λ number. AreMade base from.now marks.now to.new (with_number so_far.now number)) }
    ensures err { IsErrOf result TermError.Full → ⊥ }
{
    let _terms = from.len();
    let _others = to.len();
    if !marks[t.0 as usize] {
        return Ok(None);
    }
    let core = from.core(t);
    if !so_far.knows_under(core) {
        return Ok(None);
    }
    let core = renamed(alloc, core, &so_far.numbers)?;
    match to.make(sig, core) {
        Ok(number) => {
            let _grown = to.len();
            Ok(Some(number))
        }
        Err(TermError::Full) => Ok(None),
        Err(TermError::NoMemory) => Err(TermError::NoMemory),
    }
}
