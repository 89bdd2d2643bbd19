//! Congruence classes of the terms of a table, closed under the rules on request.
ghost use Rattle.std.specs.Prelude.{◌≡◌, ℕ, ◌+◌, ◌<◌, ◌++◌, ◌∷◌, [], take, length, IfOk, OnOk, OnErr, IfSome, IfNone, Some, slice_get, Contains};
ghost use Rattle.std.specs.List.{AllZip};
ghost use Rattle.ct_sorts.specs.declared.ids.SortId.{SortId};
ghost use Rattle.ct_terms.specs.declared.ids.TermId.{TermId};
ghost use Rattle.ct_terms.specs.declared.ids.Lit.{Lit};
ghost use Rattle.ct_terms.specs.Literal.{IsStripped};
ghost use Rattle.ct_terms.specs.Terms.{IsOfSort, AreSorted};
ghost use Rattle.ct_card.specs.Sizes.{AreSizes};
ghost use Rattle.ct_rules.specs.declared.equation.Equation.{Equation};
ghost use Rattle.ct_rules.specs.Derivation.{IsHypothesis};
ghost use Rattle.ct_congr.specs.declared.merge.Merge.{Merge};
ghost use Rattle.ct_congr.specs.Partition.{IsClass};
ghost use Rattle.ct_congr.specs.Merges.{AreConnected, AreJustified};
ghost use Rattle.ct_congr.specs.State.{State, Marked, marked_now, state_at, IsFirstMark, IsFirstPart, AreEqual, Continues, IsConstructorTerm, IsClosed, IsQuiet, IsAnswer};
ghost use Rattle.ct_congr.specs.Outside.{IsOutside, hypotheses_with, given_with};

use crate::adding::Progress;
use crate::closing::{settle, settle_or_clash};
use crate::error::CongrError;
use crate::holding::{hypothetical, merge_outside};
use crate::level::Levels;
use crate::marking::{go_back, set_mark};
use crate::merge::{ClassMark, Closed, Merge, Reason};
use crate::singles::single_sorts;
use crate::sorts::one_sort;
use crate::store::con_of;
use ct_card::Sizes;
use ct_rules::{Equation, derivations};
use ct_sorts::Signature;
use ct_terms::{Lit, TermId, TermTable};
use std::alloc::Global;
use std::marker::Model;

/// Congruence classes of the terms of a table under hypotheses. Clauses see a `State`.
#[derive(Drop)]
pub struct Classes {
    alloc: Global,
    sig: Signature,
    table: TermTable,
    // Whether each sort has one value.
    single: Vec<bool>,
    hyps: Vec<Lit>,
    given: Vec<Equation>,
    // How much stood at each mark.
    levels: Levels,
    progress: Progress,
}

impl Model for Classes {
    ghost use Rattle.ct_congr.specs.State.{State};
    ghost use Rattle.ct_congr.specs.Held.{AreHeld};
    ghost use Rattle.ct_congr.specs.Kept.{IsKept};
    ghost use Rattle.ct_congr.specs.Marks.{marks_of, AreMarked};

    ghost Value = { State };

    ghost use Rattle.std.specs.Coded.{codes};
    ghost use Rattle.ct_sorts.specs.ExpressionCode.{coded_expression};

    ghost coded = { Prim.hlevel (codes, coded_expression) };

    ghost view = { λ c. record { declarations = c.sig; terms = c.table; hypotheses = c.hyps.items; given = c.given.items; merges = c.progress.store.merges.items; reps = c.progress.store.parts.now.reps; cons = c.progress.store.parts.now.cons; marks = marks_of c.hyps.items c.given.items c.progress.store.merges.items c.progress.store.parts c.levels } };

    ghost invariant = { λ c. AreHeld c.sig c.table c.single.items c.hyps.items c.given.items c.progress.store.parts.now.reps c.progress.store.parts.now.cons c.progress.store.merges.items × IsKept c.sig c.table c.progress.store.parts c.progress.keys c.progress.waiting.items c.progress.covered × AreMarked c.sig c.table c.single.items c.hyps.items c.given.items c.progress.store.merges.items c.progress.keys c.progress.store.parts c.levels };
}

impl Classes {
    /// The classes of the terms of the table in which the hypotheses hold.
    /// The classes hold copies of the signature and of the table.
    pub fn new(
        alloc: Global,
        sig: &Signature,
        sizes: &Sizes,
        table: &TermTable,
        hyps: &[Lit],
    ) -> Result<Classes, CongrError>
        requires sizes { AreSizes sig.now sizes.now }
        requires sorted { AreSorted sig.now table.now }
        requires stripped { (l : Lit) → Contains hyps.now l → IsStripped table.now l.term }
        ensures declarations { IfOk result (λ classes. classes.declarations ≡ sig.now) }
        ensures terms { IfOk result (λ classes. classes.terms ≡ table.now) }
        ensures hypotheses { IfOk result (λ classes. classes.hypotheses ≡ hyps.now) }
        ensures given { IfOk result (λ classes. classes.given ≡ []) }
        ensures marks { IfOk result (λ classes. classes.marks ≡ []) }
    {
        let single = single_sorts(alloc, sig, sizes)?;
        let progress = hypothetical(alloc, sig, table, single.as_slice(), hyps)?;
        let hyps = Vec::from_slice(alloc, hyps)?;
        let Ok(table) = table.copy() else {
            return Err(CongrError);
        };
        match sig.copy() {
            Ok(sig) => Ok(Classes {
                alloc,
                sig,
                table,
                single,
                hyps,
                given: Vec::new(alloc),
                levels: Levels::new(alloc),
                progress,
            }),
            Err(_) => {
                drop(table);
                Err(CongrError)
            }
        }
    }

    /// Makes the classes of the two terms one, for a reason that holds in the present classes or for a literal that states
    /// that they are equal. Such a literal is one of the hypotheses from then on, and any other equation is stored as given.
    /// After an error the classes are to be dropped.
    pub fn merge(&mut self, left: TermId, right: TermId, why: Reason) -> Result<(), CongrError>
        requires justified { IsOutside self.old left right why }
        ensures declarations { OnOk result (self.new.declarations ≡ self.old.declarations) }
        ensures terms { OnOk result (self.new.terms ≡ self.old.terms) }
        ensures hypotheses { OnOk result (self.new.hypotheses ≡ hypotheses_with self.old.hypotheses why) }
        ensures given { OnOk result (self.new.given ≡ given_with self.old.given left right why) }
        ensures merges { OnOk result (self.new.merges ≡ self.old.merges ++ (record { left = left; right = right; why = why }) ∷ []) }
        ensures marks { OnOk result (self.new.marks ≡ self.old.marks) }
    {
        one_sort(&self.sig, &self.table);
        merge_outside(
            self.alloc,
            &self.sig,
            &self.table,
            &mut self.hyps,
            &mut self.given,
            &mut self.progress,
            Merge { left, right, why },
        )?;
        Ok(())
    }

    /// Applies all rules but uniqueness until none applies, and says whether a class has two terms of
    /// different constructors. It works off what the merges since the last close ask for; after a clash it
    /// goes over all terms in rounds. After an error the classes are to be dropped.
    pub fn close(&mut self) -> Result<Closed, CongrError>
        ensures continues { OnOk result (Continues self.new self.old) }
        ensures given { OnOk result (self.new.given ≡ self.old.given) }
        ensures closed { OnOk result (IsClosed self.new) }
        ensures answer { IfOk result (IsAnswer self.new) }
    {
        derivations();
        let answer = settle(
            self.alloc,
            &self.sig,
            &self.table,
            self.single.as_slice(),
            &mut self.progress,
        )?;
        Ok(answer)
    }

    /// The same, but stops when two terms of different constructors meet; some rule may still apply then. After an
    /// error the classes are to be dropped.
    pub fn close_or_clash(&mut self) -> Result<Closed, CongrError>
        ensures continues { OnOk result (Continues self.new self.old) }
        ensures given { OnOk result (self.new.given ≡ self.old.given) }
        ensures answer { IfOk result (IsAnswer self.new) }
    {
        derivations();
        let answer = settle_or_clash(
            self.alloc,
            &self.sig,
            &self.table,
            self.single.as_slice(),
            &mut self.progress,
        )?;
        Ok(answer)
    }

    /// Sets a mark to which the classes can go back: no rule applies to them, and no class has two constructors. An
    /// error changes nothing.
    pub fn mark(&mut self) -> Result<ClassMark, CongrError>
        requires quiet { IsQuiet self.old }
        ensures mark { IfOk result (λ mark. mark.merges ≡ length self.old.merges) }
        ensures marked { OnOk result (self.new ≡ state_at self.old (marked_now self.old) (self.old.marks ++ marked_now self.old ∷ [])) }
        ensures unchanged { OnErr result (self.new ≡ self.old) }
    {
        let mark = set_mark(
            &self.table,
            &mut self.progress,
            self.hyps.as_slice(),
            self.given.as_slice(),
            &mut self.levels,
        )?;
        Ok(mark)
    }

    /// The marks that are set, in order. What stood at each is the first part of what stands now.
    pub fn marks(&self) -> &[ClassMark]
        ensures value { AllZip (λ (mark : ClassMark) (at : Marked). mark.merges ≡ length at.merges) result.now self.now.marks }
        ensures quiet { (k : ℕ) (at : Marked) → slice_get self.now.marks k ≡ Some at → IsQuiet (state_at self.now at (take k self.now.marks)) }
        ensures first { (k : ℕ) (at : Marked) → slice_get self.now.marks k ≡ Some at → IsFirstPart self.now at }
    {
        derivations();
        self.levels.marks()
    }

    /// Leaves the classes as they were at the first mark that equals this one, and drops the marks after it. It takes no
    /// memory.
    pub fn back_to(&mut self, mark: &ClassMark)
        requires kept { (k : ℕ) × (at : Marked) × IsFirstMark self.old.marks mark.now.merges k at }
        ensures back { (k : ℕ) (at : Marked) → IsFirstMark self.old.marks mark.now.merges k at → self.new ≡ state_at self.old at (take (k + 1) self.old.marks) }
        ensures quiet { IsQuiet self.new }
        ensures first { IsFirstPart self.old (marked_now self.new) }
        ensures merges { self.new.merges ≡ take mark.now.merges self.old.merges }
        ensures many { length self.new.merges ≡ mark.now.merges }
        ensures terms { self.new.terms ≡ self.old.terms }
        ensures declarations { self.new.declarations ≡ self.old.declarations }
    {
        derivations();
        go_back(
            &mut self.progress,
            &mut self.hyps,
            &mut self.given,
            &mut self.levels,
            mark.merges,
        );
    }

    /// The literals that are held to be true, in order.
    pub fn hypotheses(&self) -> &[Lit]
        ensures value { result.now ≡ self.now.hypotheses }
    {
        self.hyps.as_slice()
    }

    /// The representative of the term's class.
    pub fn rep(&self, t: TermId) -> TermId
        requires inside { t.0 < length self.now.terms }
        ensures value { slice_get self.now.reps t.0 ≡ Some result }
        ensures own { slice_get self.now.reps result.0 ≡ Some result }
    {
        self.progress.store.parts.rep(t)
    }

    /// The members of the term's class, each once.
    pub fn class(&self, t: TermId) -> &[TermId]
        requires inside { t.0 < length self.now.terms }
        ensures members { (r : TermId) → slice_get self.now.reps t.0 ≡ Some r → IsClass self.now.reps r result.now }
    {
        self.progress.store.parts.class(t)
    }

    /// A constructor term of the term's class; none exactly if there is none.
    pub fn con_of(&self, t: TermId) -> Option<TermId>
        requires inside { t.0 < length self.now.terms }
        ensures found { IfSome result (λ c. IsConstructorTerm self.now.terms c × AreEqual self.now t c) }
        ensures none { IfNone result ((c : TermId) → IsConstructorTerm self.now.terms c → AreEqual self.now t c → ⊥) }
        ensures value { (r : TermId) → slice_get self.now.reps t.0 ≡ Some r → slice_get self.now.cons r.0 ≡ Some result }
    {
        con_of(&self.progress.store, t)
    }

    /// The merges so far, in order.
    pub fn merges(&self) -> &[Merge]
        ensures value { result.now ≡ self.now.merges }
        ensures long { length self.now.reps ≡ length self.now.terms }
        ensures justified { AreJustified self.now.declarations self.now.terms self.now.hypotheses self.now.merges }
        ensures connected { (x y : TermId) → AreEqual self.now x y → AreConnected self.now.merges x y }
        ensures equal { (x y : TermId) → x.0 < length self.now.terms → AreConnected self.now.merges x y → AreEqual self.now x y }
        ensures states { (x y : TermId) → IsHypothesis self.now.hypotheses x y → AreEqual self.now x y }
        ensures own { (x r : TermId) → slice_get self.now.reps x.0 ≡ Some r → slice_get self.now.reps r.0 ≡ Some r }
    {
        prove!(self.progress.store.parts.unions() >= 0);
        self.progress.store.merges.as_slice()
    }

    /// The terms. Those of one class are of one sort.
    pub fn table(&self) -> &TermTable
        ensures value { result.now ≡ self.now.terms }
        ensures sorted { AreSorted self.now.declarations self.now.terms }
        ensures one_sort { (x y : TermId) (s : SortId) → AreEqual self.now x y → IsOfSort self.now.terms x s → IsOfSort self.now.terms y s }
    {
        one_sort(&self.sig, &self.table);
        &self.table
    }

    /// The declarations.
    pub fn signature(&self) -> &Signature
        ensures value { result.now ≡ self.now.declarations }
    {
        &self.sig
    }
}
