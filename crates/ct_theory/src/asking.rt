//! Asks the theory whether literals are consistent.
ghost use Rattle.std.specs.Prelude.{◌≡◌, [], Contains, IfOk, IfSome, OnOk};
ghost use Rattle.ct_terms.specs.declared.ids.Lit.{Lit};
ghost use Rattle.ct_terms.specs.Literal.{IsStripped};
ghost use Rattle.ct_terms.specs.Terms.{AreSorted};
ghost use Rattle.ct_card.specs.Sizes.{AreSizes};
ghost use Rattle.ct_theory.specs.Entailment.{IsConflictOf};
ghost use Rattle.ct_theory.specs.Consulting.{IsReady, IsConsulted, HaveInCommon, IsAsideOf};

use crate::answer::{answer, keep};
use crate::aside::{Aside, taken};
use crate::conflict::Conflict;
use crate::error::TheoryError;
use crate::refuting::refute;
use crate::shorter::shorter;
use crate::telling::turn_to;
use crate::watched::{Watch, watch_of};
use ct_acyclic::Order;
use ct_card::Sizes;
use ct_congr::Classes;
use ct_sorts::Signature;
use ct_terms::{Lit, TermTable};
use std::alloc::Global;
use std::marker::Model;

/// What the theory says of literals.
#[derive(Debug, Drop)]
pub enum Consulted {
    /// They do not hold together.
    Conflict(Conflict),
    /// No rule finds a contradiction: the classes of the theory are exactly the equations that the literals entail, and those
    /// of datatypes have this order.
    Saturated(Order),
}

/// The theory of datatypes and codatatypes over the terms of a table, to be asked again and again (Reynolds and Blanchette
/// 2015, section 4). It keeps its classes from question to question: a question costs what is new since the last one that had
/// its first literals. Clauses see the state of its classes.
#[derive(Drop)]
pub struct Theory {
    alloc: Global,
    classes: Box<Classes>,
    // How many literals the classes had been told at each of their marks.
    told: Vec<usize>,
    // A forest of their first merges, and classes for second answers.
    aside: Option<Aside>,
    // When to look for cycles and bisimilar classes.
    watch: Watch,
}

impl Model for Theory {
    ghost use Rattle.ct_congr.specs.State.{State};

    ghost Value = { State };

    ghost use Rattle.std.specs.Coded.{codes};
    ghost use Rattle.ct_sorts.specs.ExpressionCode.{coded_expression};

    ghost coded = { Prim.hlevel (codes, coded_expression) };

    ghost use Rattle.ct_theory.specs.Consulting.{MayBeAsideOf};

    ghost view = { λ theory. theory.classes.value };

    ghost invariant = { λ theory. MayBeAsideOf theory.classes.value theory.aside };
}

impl Theory {
    /// The theory over these terms, ready to be asked. It holds copies of the signature and of the table. The only error is
    /// out of memory.
    pub fn new(
        alloc: Global,
        sig: &Signature,
        sizes: &Sizes,
        table: &TermTable,
    ) -> Result<Theory, TheoryError>
        requires sizes { AreSizes sig.now sizes.now }
        requires sorted { AreSorted sig.now table.now }
        ensures declarations { IfOk result (λ theory. theory.declarations ≡ sig.now) }
        ensures terms { IfOk result (λ theory. theory.terms ≡ table.now) }
        ensures hypotheses { IfOk result (λ theory. theory.hypotheses ≡ []) }
        ensures ready { IfOk result IsReady }
    {
        let classes = Classes::new(alloc, sig, sizes, table, &[])?;
        let mut theory = Theory {
            alloc,
            classes: Box::new(alloc, classes)?,
            told: Vec::new(alloc),
            aside: None,
            watch: watch_of(alloc, sig, table)?,
        };
        let _bottom = theory.consult(&[], 0)?;
        Ok(theory)
    }

    /// Whether the literals are consistent in the theory: closes the classes of terms under the rules, and while
    /// bisimilar classes are left makes two of them one. Each literal is over a Boolean term of the table that is no
    /// negation. So many first literals are those of the last question; of fewer the answer is as good, but may cost
    /// more. The only error is out of memory; after it the theory is to be dropped.
    pub fn consult(&mut self, literals: &[Lit], shared: usize) -> Result<Consulted, TheoryError>
        requires ready { IsReady self.old }
        requires shared { HaveInCommon shared self.old.hypotheses literals.now }
        requires stripped { (l : Lit) → Contains literals.now l → IsStripped self.old.terms l.term }
        ensures declarations { OnOk result (self.new.declarations ≡ self.old.declarations) }
        ensures terms { OnOk result (self.new.terms ≡ self.old.terms) }
        ensures told { OnOk result (self.new.hypotheses ≡ literals.now) }
        ensures ready { OnOk result (IsReady self.new) }
        ensures consulted { IfOk result (IsConsulted self.new.declarations self.new.terms literals.now self.new) }
    {
        let kept = taken(self.alloc, &self.classes, &mut self.aside);
        self.aside = None;
        let mut aside = kept?;
        let answer = ask(
            self.alloc,
            &mut self.classes,
            &mut self.told,
            &mut aside,
            literals,
            shared,
        )?;
        self.aside = Some(aside);
        Ok(answer)
    }

    /// A contradiction among the literals, if a quick look finds one: applies the rules, and looks for cycles and
    /// bisimilar classes if terms that can form these have become equal. None says nothing. Each literal is over a
    /// Boolean term of the table that is no negation. So many first literals are those of the last question. The only
    /// error is out of memory; after it the theory is to be dropped.
    pub fn refute(
        &mut self,
        literals: &[Lit],
        shared: usize,
    ) -> Result<Option<Conflict>, TheoryError>
        requires ready { IsReady self.old }
        requires shared { HaveInCommon shared self.old.hypotheses literals.now }
        requires stripped { (l : Lit) → Contains literals.now l → IsStripped self.old.terms l.term }
        ensures declarations { OnOk result (self.new.declarations ≡ self.old.declarations) }
        ensures terms { OnOk result (self.new.terms ≡ self.old.terms) }
        ensures told { OnOk result (self.new.hypotheses ≡ literals.now) }
        ensures ready { OnOk result (IsReady self.new) }
        ensures conflict { IfOk result (λ found. IfSome found (λ c. IsConflictOf self.new.declarations self.new.terms literals.now c.clause c.steps c.close)) }
    {
        let kept = taken(self.alloc, &self.classes, &mut self.aside);
        self.aside = None;
        let mut aside = kept?;
        let found = refute(
            self.alloc,
            &mut self.classes,
            &mut self.told,
            &mut self.watch,
            &mut aside,
            literals,
            shared,
        )?;
        self.aside = Some(aside);
        Ok(found)
    }

    /// The classes under the literals that were asked about last.
    pub fn classes(&self) -> &Classes
        ensures value { result.now ≡ self.now }
    {
        &self.classes
    }

    /// The same, by value.
    pub fn into_classes(self) -> Box<Classes>
        ensures value { result.value ≡ self }
    {
        self.classes
    }
}

// The answer on the literals. The classes had been told so many literals at each of their marks.
fn ask(
    alloc: Global,
    classes: &mut Classes,
    told: &mut Vec<usize>,
    aside: &mut Aside,
    literals: &[Lit],
    shared: usize,
) -> Result<Consulted, TheoryError>
    requires ready { IsReady classes.old }
    requires aside { IsAsideOf classes.old aside.old }
    requires shared { HaveInCommon shared classes.old.hypotheses literals.now }
    requires stripped { (l : Lit) → Contains literals.now l → IsStripped classes.old.terms l.term }
    ensures declarations { OnOk result (classes.new.declarations ≡ classes.old.declarations) }
    ensures terms { OnOk result (classes.new.terms ≡ classes.old.terms) }
    ensures aside { OnOk result (IsAsideOf classes.new aside.new) }
    ensures told { OnOk result (classes.new.hypotheses ≡ literals.now) }
    ensures ready { OnOk result (IsReady classes.new) }
    ensures consulted { IfOk result (IsConsulted classes.new.declarations classes.new.terms literals.now classes.new) }
{
    turn_to(alloc, classes, told, &mut aside.forest, literals, shared)?;
    match answer(alloc, classes, &mut aside.forest)? {
        Consulted::Conflict(conflict) => {
            let short = shorter(
                alloc,
                &*classes,
                &mut aside.pace,
                &mut aside.spare,
                literals,
                conflict,
            )?;
            Ok(Consulted::Conflict(short))
        }
        Consulted::Saturated(order) => {
            keep(classes, told)?;
            Ok(Consulted::Saturated(order))
        }
    }
}
