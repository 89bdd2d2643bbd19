//! The table of terms, in which equal terms have one number.

ghost use Rattle.std.specs.Prelude.{◌≡◌, true, ℕ, ◌<◌, ◌≤◌, ◌↔◌, length, take, Some, slice_get, OnErr, IsOk, IfOk, IfErr, IfSome, IfNone, IsErrOf};
ghost use Rattle.ct_sorts.specs.declared.ids.SortId.{SortId};
ghost use Rattle.ct_sorts.specs.Declarations.{Declarations, start, bool_sort};
ghost use Rattle.ct_terms.specs.declared.ids.TermId.{TermId};
ghost use Rattle.ct_terms.specs.Terms.{Terms, IsOfSort, HasSort, IsWellSorted, AreSorted, StandsSorted, Has, IsAbsent, Makes, HasArgumentsBelow, AreOrdered, AreSingle, NegatesBooleans, BeginsWithTruths, most_terms, truth_terms};
ghost use Rattle.ct_sorts.specs.Grown.{Extends};
ghost use Rattle.ct_terms.specs.Literal.{literal_step, literal_of, IsLiteral, IsStripped};

use crate::args::Args;
use crate::error::TermError;
use crate::ids::{Lit, TermId};
use crate::term::Core;
use ct_sorts::{CtorId, Signature, SortId};
use indexmap::IndexMap;
use std::alloc::Global;
use std::marker::Model;

/// The most terms that a table holds.
const MOST_TERMS: usize = 400_000;

/// The sort of Boolean terms.
pub(crate) const BOOL: SortId = SortId(0);

/// Terms with one number each, in the order in which they were made.
#[derive(Drop)]
pub struct TermTable {
    alloc: Global,
    // An index in the map is a number.
    terms: IndexMap<Core, SortId>,
    // The literal of each term, by its number.
    literals: Vec<Lit>,
}

impl Model for TermTable {
    ghost use Rattle.ct_terms.specs.Terms.{Terms, IsTermTable};
    ghost use Rattle.ct_terms.specs.Literal.{AreLiterals};

    ghost Value = { Terms };

    ghost view = { λ t. t.terms.entries };

    ghost invariant = { λ t. IsTermTable t.terms.entries × AreLiterals t.terms.entries t.literals.items };
}

impl TermTable {
    /// The table of `true` and `false`. Its only error is `NoMemory`.
    pub fn new(alloc: Global) -> Result<TermTable, TermError>
        ensures ok { IfOk result (λ table. table ≡ truth_terms) }
        ensures at_start { IfOk result (λ table. AreSorted start table) }
        ensures sorted { IfOk result (λ table. (d : Declarations) → Extends d start → AreSorted d table) }
        ensures err { IfErr result (λ e. e ≡ TermError.NoMemory) }
    {
        let mut terms = IndexMap::new(alloc);
        terms.insert(Core::Con(CtorId(0), Args::new(alloc)), BOOL)?;
        terms.insert(Core::Con(CtorId(1), Args::new(alloc)), BOOL)?;
        let literals = Vec::from_slice(alloc, &[itself(TermId(0)), itself(TermId(1))])?;
        Ok(TermTable {
            alloc,
            terms,
            literals,
        })
    }

    /// An equal table. Its only error is `NoMemory`.
    pub fn copy(&self) -> Result<TermTable, TermError>
        ensures ok { IfOk result (λ table. table ≡ self.now) }
        ensures err { IfErr result (λ e. e ≡ TermError.NoMemory) }
    {
        let literals = Vec::from_slice(self.alloc, &self.literals)?;
        let mut copied = IndexMap::with_capacity(self.alloc, self.terms.len())?;
        for index in 0..self.terms.len() {
            let term = TermId(index as u32);
            copied.insert(self.core(term).copy()?, self.sort(term))?;
        }
        Ok(TermTable {
            alloc: self.alloc,
            terms: copied,
            literals,
        })
    }

    /// Keeps the first `len` terms, at least `true` and `false`. Takes no memory.
    pub fn cut_to(&mut self, len: u32)
        requires truths { 2 ≤ len }
        requires within { len ≤ length self.old }
        ensures first { self.new ≡ take len self.old }

        // Where the whole table is well sorted the rest is.
        ensures sorted { (d : Declarations) → AreSorted d self.old → AreSorted d self.new }
    {
        self.terms.truncate(len as usize);
        self.literals.truncate(len as usize);
    }

    /// The number of the term: that of an equal one in the table, or of a new one at the end. `Full` comes exactly
    /// where the table holds 400,000 terms and this one is not among them. An error changes nothing.
    pub fn make(&mut self, sig: &Signature, core: Core) -> Result<TermId, TermError>
        requires well_sorted { IsWellSorted sig.now self.old core }
        ensures made { IfOk result (λ t. Makes sig.now self.old self.new core t.0) }
        ensures full { IsErrOf result TermError.Full ↔ (IsAbsent self.old core × (most_terms ≤ length self.old)) }
        ensures refused { OnErr result (self.new ≡ self.old) }

        // A term that is there takes no memory, and the terms that were there stay.
        ensures there { (t : ℕ) → Has self.old core t → IsOk result }
        ensures keeps { (t : TermId) (s : SortId) → IsOfSort self.old t s → IsOfSort self.new t s }

        // Where the whole table is well sorted it stays so, and the term has its sort.
        ensures sorted { AreSorted sig.now self.old → AreSorted sig.now self.new }
        ensures stands { AreSorted sig.now self.old → IfOk result (λ t. StandsSorted sig.now self.new core t.0) }
        ensures sort { AreSorted sig.now self.old
            → IfOk result (λ t. (s : SortId) → HasSort sig.now self.old core s → IsOfSort self.new t s) }
    {
        if let Some(term) = self.find(&core) {
            return Ok(term);
        }
        let number = self.terms.len();
        if number >= MOST_TERMS {
            return Err(TermError::Full);
        }
        let sort = self.sort_of(sig, &core);
        let literal = self.next_literal(TermId(number as u32), &core);
        self.literals.reserve(1)?;
        self.terms.insert(core, sort)?;
        self.literals.push(literal).unwrap();
        Ok(TermId(number as u32))
    }

    /// The number of terms, at most 400,000.
    pub fn len(&self) -> u32
        ensures count { result ≡ length self.now }
        ensures few { result ≤ most_terms }
        ensures begins { BeginsWithTruths self.now }
        ensures ordered { AreOrdered self.now }
        ensures single { AreSingle self.now }
        ensures negates { NegatesBooleans self.now }

        // A table that is well sorted stays so with more declarations.
        ensures lasting { (later earlier : Declarations) → Extends later earlier
            → AreSorted earlier self.now → AreSorted later self.now }
    {
        self.terms.len() as u32
    }

    /// The term with this number. The terms right under it have smaller numbers.
    pub fn core(&self, t: TermId) -> &Core
        requires within { t.0 < length self.now }
        ensures value { Has self.now result.now t.0 }
        ensures below { HasArgumentsBelow t.0 result.now }
        ensures inside { HasArgumentsBelow (length self.now) result.now }
    {
        match self.terms.get_index(t.0 as usize) {
            Some((core, _)) => core,
            None => unreachable!(),
        }
    }

    /// The sort of the term with this number.
    pub fn sort(&self, t: TermId) -> SortId
        requires within { t.0 < length self.now }
        ensures value { IsOfSort self.now t result }
    {
        self.terms[t.0 as usize]
    }

    /// The term without the negations around it, and the sign that they leave, in constant time.
    pub fn lit(&self, t: TermId) -> Lit
        requires boolean { IsOfSort self.now t bool_sort }
        ensures value { result ≡ literal_of self.now t }
        ensures stripped { IsStripped self.now result.term }
        ensures means { (u : TermId) → IsLiteral self.now u (slice_get self.now u.0) }
    {
        prove!(t.0 < self.len());
        self.literals[t.0 as usize]
    }

    /// The number of the term, if it is in the table.
    pub fn find(&self, core: &Core) -> Option<TermId>
        ensures found { IfSome result (λ t. Has self.now core.now t.0) }
        ensures absent { IfNone result (IsAbsent self.now core.now) }
    {
        match self.terms.get_index_of(core) {
            Some(index) => Some(TermId(index as u32)),
            None => None,
        }
    }

    // The literal of a term over this table, whose number is `t`.
    fn next_literal(&self, t: TermId, core: &Core) -> Lit
        requires inside { HasArgumentsBelow (length self.now) core.now }
        ensures value { (sort : SortId) → result ≡ literal_step (literal_of self.now) t (Some (core.now, sort)) }
    {
        match core {
            Core::Not(inner) => {
                let below = self.literals[inner.0 as usize];
                Lit {
                    term: below.term,
                    positive: !below.positive,
                }
            }
            _ => itself(t),
        }
    }

    // The sort of a term that is well sorted over this table.
    fn sort_of(&self, sig: &Signature, core: &Core) -> SortId
        requires well_sorted { IsWellSorted sig.now self.now core.now }
        ensures sort { HasSort sig.now self.now core.now result }
    {
        match core {
            Core::Con(c, _) => sig.ctor_sort(*c),
            Core::Sel(s, _) => sig.sel_sort(*s),
            Core::Apply(f, _) => sig.fun_result(*f),
            Core::Ite(_, a, _) => self.sort(*a),
            Core::Test(_, _) => BOOL,
            Core::Eq(_, _) => BOOL,
            Core::Not(_) => BOOL,
            Core::And(_) => BOOL,
            Core::Or(_) => BOOL,
            Core::Iff(_, _) => BOOL,
        }
    }
}

// The literal of a term that is no negation.
fn itself(term: TermId) -> Lit
    ensures value { result ≡ record { term = term; positive = true } }
{
    Lit {
        term,
        positive: true,
    }
}
