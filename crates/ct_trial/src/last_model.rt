//! The model of an earlier check, stored with what it is a model of.
ghost use Rattle.std.specs.Prelude.{◌≡◌, ◌≤◌, length, take, All, IsTrue, IfSome, IfOk, OnOk};
ghost use Rattle.ct_sorts.specs.Consistent.{IsConsistent};
ghost use Rattle.ct_sorts.specs.Marks.{CanCut, cut};
ghost use Rattle.ct_terms.specs.Terms.{IsBoolean, AreSorted};
ghost use Rattle.ct_eval.specs.Interpretation.{IsProper};
ghost use Rattle.ct_eval.specs.Truth.{Holds};
ghost use Rattle.ct_trial.specs.LastModel.{IsLastModel, IsNoMore, HasNoMoreFunctions};

use crate::error::TrialError;
use crate::same::copied_into;
use crate::stored::{common, copy_rest, count_below};
use crate::tables::copied;
use crate::trial::Trial;
use ct_eval::Interp;
use ct_sorts::{Mark, Signature, SortId, growth};
use ct_terms::{Core, TermId, TermTable};
use std::alloc::Global;

/// A model of an earlier check, which is tried on the assertions of later ones. It is of what was declared when it was last tried.
#[derive(Drop)]
pub struct LastModel {
    interp: Interp,
    trial: Trial,
    // The table of the check at which it was last tried.
    terms: Vec<(Core, SortId)>,
    // How much of what was declared then is left.
    declared: Mark,
}

impl LastModel {
    /// A copy of an interpretation, with the values of the terms of the table.
    pub fn new(
        alloc: Global,
        sig: &Signature,
        interp: &Interp,
        table: &TermTable,
    ) -> Result<LastModel, TrialError>
        requires proper { IsProper sig.now interp.now }
        requires sorted { AreSorted sig.now table.now }
        ensures model { IfOk result (IsLastModel sig.now) }
    {
        growth();
        sig.sorts();
        let mut interp = copied(alloc, interp)?;
        let trial = Trial::new(alloc, sig, &mut interp, table, table.len())?;
        let mut terms = Vec::new(alloc);
        copy_rest(table, &mut terms)?;
        Ok(LastModel {
            interp,
            trial,
            terms,
            declared: sig.mark(),
        })
    }

    /// A model of all assertions, where the interpretation is one once it has grown: a copy of it, for which the memory of a spare
    /// one is used, if there is one. Where the answer is an error, nothing is said of what is stored.
    ///
    /// What is new in the table since the last call costs what it costs to evaluate it, and what differs from the spare one what it
    /// costs to copy it; for the others there is one look at each.
    pub fn satisfying(
        &mut self,
        alloc: Global,
        sig: &Signature,
        table: &TermTable,
        asserts: &[TermId],
        spare: &mut Option<Interp>,
    ) -> Result<Option<Interp>, TrialError>
        requires model { IsLastModel sig.now self.old }
        requires sorted { AreSorted sig.now table.now }
        requires asserts { All (IsBoolean table.now) asserts.now }
        ensures model { OnOk result (IsLastModel sig.now self.new) }
        ensures proper { IfOk result (λ found. IfSome found (IsProper sig.now)) }
        ensures holds { IfOk result (λ found. IfSome found (λ i. Holds sig.now i table.now asserts.now)) }
    {
        growth();
        sig.sorts();
        let count = common(self.terms.as_slice(), table);
        self.trial
            .cut(alloc, &mut self.interp, self.declared.funs(), count);
        let holds = self
            .trial
            .satisfies(alloc, sig, &mut self.interp, table, asserts)?;
        self.terms.truncate(count as usize);
        copy_rest(table, &mut self.terms)?;
        self.declared = sig.mark();
        if !holds {
            return Ok(None);
        }
        Ok(Some(copied_into(alloc, spare.take(), &self.interp)?))
    }

    /// Takes back what is of declarations that go where they are cut to this mark. Whether it is of use then: where it is not, it is
    /// to be dropped.
    pub fn cut(&mut self, alloc: Global, sig: &Signature, mark: &Mark) -> bool
        requires model { IsLastModel sig.now self.old }
        requires can_cut { CanCut sig.now mark.now }
        requires consistent { IsConsistent (cut sig.now mark.now) }
        ensures model { IsTrue result → IsLastModel (cut sig.now mark.now) self.new }
    {
        growth();
        sig.sorts();
        if is_below(&self.declared, mark) {
            return true;
        }
        if !has_no_more_functions(mark, &self.declared) {
            return false;
        }
        let count = count_below(self.terms.as_slice(), mark.funs());
        self.trial.cut(alloc, &mut self.interp, mark.funs(), count);
        self.terms.truncate(count as usize);
        self.declared = *mark;
        true
    }
}

// Whether no more was declared at the one mark than at the other.
fn is_below(mark: &Mark, other: &Mark) -> bool
    ensures below { IsTrue result → IsNoMore mark.now other.now }
{
    mark.sorts() <= other.sorts()
        && mark.ctors() <= other.ctors()
        && mark.sels() <= other.sels()
        && mark.funs() <= other.funs()
        && mark.defs() <= other.defs()
        && mark.heads() <= other.heads()
        && mark.synonyms() <= other.synonyms()
}

// Whether as many sorts, constructors and selectors were declared at the one mark as at the other, and no more functions.
fn has_no_more_functions(mark: &Mark, other: &Mark) -> bool
    ensures fewer { IsTrue result → HasNoMoreFunctions mark.now other.now }
{
    mark.sorts() == other.sorts()
        && mark.ctors() == other.ctors()
        && mark.sels() == other.sels()
        && mark.funs() <= other.funs()
}
