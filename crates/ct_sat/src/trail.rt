//! The trail: the literals made true, in order, each with its reason, and the index of each term.
ghost use Rattle.std.specs.Prelude.{◌≡◌, ℕ, ◌<◌, ◌≤◌, ◌+◌, ◌^◌, [], ◌∷◌, ◌++◌, length, take, Option, None, Some, slice_get, IfOk, MatchOption, Contains, vec_len, vec_capacity};
ghost use Rattle.ct_terms.specs.declared.ids.Lit.{Lit};
ghost use Rattle.ct_sat.specs.declared.decided.Decided.{Decided};
ghost use Rattle.ct_sat.specs.Assigned.{implied, decided_on, cut_before};
ghost use Rattle.ct_sat.specs.Trail.{AreIndexed, IsWhole, IsValue};

use crate::decided::Decided;
use crate::value::Value;
use ct_terms::{Lit, TermId};
use std::alloc::{AllocError, Global};
use std::marker::Model;

/// Literals made true, in order. All its memory is taken when it is made.
#[derive(Drop)]
pub(crate) struct Trail {
    literals: Vec<Lit>,
    // For each literal the index of the clause that forced it, or none where it was decided.
    reasons: Vec<Option<usize>>,
    decided: Vec<Decided>,
    // For each term, by its number, the index of its literal.
    indices: Vec<Option<usize>>,
}

impl Model for Trail {
    ghost use Rattle.std.specs.Prelude.{◌≤◌, length, vec_capacity};
    ghost use Rattle.ct_sat.specs.Assigned.{Assigned};
    ghost use Rattle.ct_sat.specs.Trail.{AreIndexed, AreDecisions};

    ghost Value = { Assigned };

    ghost view = { λ t. record { literals = t.literals.items; reasons = t.reasons.items; decided = t.decided.items; room = length t.indices.items } };

    ghost invariant = { λ t. AreIndexed t.literals.items t.reasons.items t.indices.items
        × AreDecisions t.literals.items t.reasons.items t.decided.items
        × (length t.indices.items ≤ vec_capacity t.literals)
        × (length t.indices.items ≤ vec_capacity t.reasons)
        × (length t.indices.items ≤ vec_capacity t.decided) };
}

impl Trail {
    /// No literal yet, for terms whose numbers are below this one.
    pub(crate) fn new(alloc: Global, terms: u32) -> Result<Trail, AllocError>
        ensures empty { IfOk result (λ t. t ≡ record { literals = []; reasons = []; decided = []; room = terms }) }
    {
        let terms = terms as usize;
        let none: Option<usize> = None;
        Ok(Trail {
            literals: Vec::with_capacity(alloc, terms)?,
            reasons: Vec::with_capacity(alloc, terms)?,
            decided: Vec::with_capacity(alloc, terms)?,
            indices: vec![in alloc; none; terms]?,
        })
    }

    /// How many literals there are.
    pub(crate) fn len(&self) -> usize
        ensures count { result ≡ length self.now.literals }
        ensures whole { IsWhole self.now }
    {
        self.literals.len()
    }

    /// The literals.
    pub(crate) fn literals(&self) -> &[Lit]
        ensures value { result.now ≡ self.now.literals }
        ensures whole { IsWhole self.now }
    {
        self.literals.as_slice()
    }

    /// The decided ones.
    pub(crate) fn decided(&self) -> &[Decided]
        ensures value { result.now ≡ self.now.decided }
        ensures whole { IsWhole self.now }
    {
        self.decided.as_slice()
    }

    /// Where the literal of this term stands.
    pub(crate) fn index(&self, t: TermId) -> Option<usize>
        requires within { t.0 < self.now.room }
        ensures whole { IsWhole self.now }
        ensures found { MatchOption result ((i : ℕ) (l : Lit) → slice_get self.now.literals i ≡ Some l → l.term.0 ≡ t.0 → ⊥)
            (λ i. (l : Lit) × (slice_get self.now.literals i ≡ Some l) × (l.term.0 ≡ t.0)) }
    {
        self.indices[t.0 as usize]
    }

    /// The value of a literal.
    pub(crate) fn value(&self, l: Lit) -> Value
        requires within { l.term.0 < self.now.room }
        ensures value { IsValue self.now.literals l result }
        ensures whole { IsWhole self.now }
    {
        match self.index(l.term) {
            None => Value::Unset,
            Some(index) => {
                if self.literals[index].positive == l.positive {
                    Value::True
                } else {
                    Value::False
                }
            }
        }
    }

    /// Makes a literal true that a clause forces.
    pub(crate) fn imply(&mut self, l: Lit, clause: usize)
        requires within { l.term.0 < self.old.room }
        requires unset { IsValue self.old.literals l Value.Unset }
        ensures after { self.new ≡ implied self.old l clause }
    {
        self.indices[l.term.0 as usize] = Some(self.literals.len());
        self.literals.push_reserved(l);
        self.reasons.push_reserved(Some(clause));
    }

    /// Makes a literal true by a decision.
    pub(crate) fn decide(&mut self, l: Lit)
        requires within { l.term.0 < self.old.room }
        requires unset { IsValue self.old.literals l Value.Unset }
        ensures after { self.new ≡ decided_on self.old l }
    {
        let index = self.literals.len();
        self.indices[l.term.0 as usize] = Some(index);
        self.decided.push_reserved(Decided { literal: l, index });
        self.literals.push_reserved(l);
        self.reasons.push_reserved(None);
    }

    /// The index of the clause that forced the literal at this index; none where it was decided.
    pub(crate) fn reason(&self, index: usize) -> Option<usize>
        requires fits { index < length self.now.literals }
        ensures value { slice_get self.now.reasons index ≡ Some result }
        ensures whole { IsWhole self.now }
    {
        self.reasons[index]
    }

    /// Takes back each decision but the first so many, and all literals from the next decision on.
    pub(crate) fn cut_to(&mut self, keep: usize)
        requires fits { keep < length self.old.decided }
        ensures after { (d : Decided) → slice_get self.old.decided keep ≡ Some d → self.new ≡ cut_before self.old keep d }
    {
        let length = self.decided[keep].index;
        cut(
            &mut self.literals,
            &mut self.reasons,
            &mut self.indices,
            length,
        );
        self.decided.truncate(keep);
    }
}

// Takes back the literals from this index on.
fn cut(
    literals: &mut Vec<Lit>,
    reasons: &mut Vec<Option<usize>>,
    indices: &mut Vec<Option<usize>>,
    index: usize,
)
    requires indexed { AreIndexed literals.old.items reasons.old.items indices.old.items }
    requires within { index ≤ length literals.old.items }
    ensures indexed { AreIndexed literals.new.items reasons.new.items indices.new.items }
    ensures literals { literals.new.items ≡ take index literals.old.items }
    ensures reasons { reasons.new.items ≡ take index reasons.old.items }
    ensures room { length indices.new.items ≡ length indices.old.items }
    ensures literals_capacity { vec_capacity literals.new ≡ vec_capacity literals.old }
    ensures reasons_capacity { vec_capacity reasons.new ≡ vec_capacity reasons.old }
{
    while literals.len() > index {
        pop(literals, reasons, indices);
    }
}

// Takes back the last literal.
fn pop(literals: &mut Vec<Lit>, reasons: &mut Vec<Option<usize>>, indices: &mut Vec<Option<usize>>)
    requires indexed { AreIndexed literals.old.items reasons.old.items indices.old.items }
    requires some { 0 < vec_len literals.old }
    ensures indexed { AreIndexed literals.new.items reasons.new.items indices.new.items }
    ensures literals { (l : Lit) × (literals.old.items ≡ literals.new.items ++ l ∷ []) }
    ensures reasons { (r : Option ℕ) × (reasons.old.items ≡ reasons.new.items ++ r ∷ []) }
    ensures room { length indices.new.items ≡ length indices.old.items }
    ensures literals_capacity { vec_capacity literals.new ≡ vec_capacity literals.old }
    ensures reasons_capacity { vec_capacity reasons.new ≡ vec_capacity reasons.old }
{
    let count = literals.len();
    let last = count - 1;
    let l = literals[last];
    indices[l.term.0 as usize] = None;
    literals.truncate(last);
    reasons.truncate(last);
}
