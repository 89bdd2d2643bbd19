//! The assertion stack (SMT-LIB 2.7, section 4.1.4): what is declared, defined and asserted.
ghost use Rattle.std.specs.Prelude.{◌≡◌, ◌↔◌, ◌<◌, ◌≤◌, ℕ, length, IsTrue, [], map, None, All, IfSome, IfOk, OnOk, OnErr, IsErrOf};
ghost use Rattle.ct_sexpr.specs.View.{expression_of};
ghost use Rattle.ct_sorts.specs.Declarations.{Declarations, with_function};
ghost use Rattle.ct_formulas.specs.TreeFormula.{formula_of};
ghost use Rattle.ct_eval.specs.Interpretation.{IsProper};
ghost use Rattle.ct_command.specs.Seen.{bytes_seen, all_seen, named_seen, head_seen, body_seen};
ghost use Rattle.ct_stack.specs.Levels.{pushed, pushed_by, popped, popped_by, emptied, left_by, left_emptied, IsCutTo};
ghost use Rattle.ct_stack.specs.Stack.{first_stack, in_force, cores, declaring, in_context, asserting_as, defined_in};
ghost use Rattle.ct_stack.specs.Outcomes.{Gives, GivesNeeding};
ghost use Rattle.ct_stack.specs.Elaborations.{with_free, IsWithTypes, synonym_body, with_synonym_of, declared_function, defined_function, asserted_formula};
ghost use Rattle.ct_stack.specs.Assuming.{Assumes, RefusesToAssume, assuming, with_assumed, assumptions_seen, list_seen, IsTruth};
ghost use Rattle.ct_stack.specs.Numbers.{too_many_terms};
ghost use Rattle.ct_stack.specs.Refusal.{over, HasManyTerms, IsSynonymRefusal, IsSortRefusal, IsTypesRefusal, IsFunctionRefusal, IsDefinitionRefusal, IsAssertionRefusal, IsTermsRefusal, IsPushRefusal, IsPopRefusal};
ghost use Rattle.ct_stack.specs.Held.{context_in, as_one, IsSoundLevel, IsHeld};
ghost use Rattle.ct_stack.specs.Values.{AreValues};
ghost use Rattle.ct_stack.specs.ModelValues.{AreModelValues};

use crate::assuming::{Assumption, assumed_terms, assumptions};
use crate::block::{declare_block, declare_sort};
use crate::define::define_function;
use crate::function::declare_function;
use crate::levels::{
    LevelMark, cut_scope, has_room, is_start, mark_before, put_marks, scope_or_back,
};
use crate::model_values::ModelValues;
use crate::synonym::define_sort;
use crate::terms::assert_needing;
use crate::theorems::stack_theorems;
use crate::value::values_text;
use ct_check::Scope;
use ct_command::{Body, CommandError, Family, Named, SortHead};
use ct_eval::Interp;
use ct_formulas::Tree;
use ct_sexpr::Sexpr;
use ct_sorts::{Items, Mark, Signature, growth};
use ct_terms::{TermId, TermTable};
use std::alloc::{AllocError, Global};
use std::marker::Model;

/// The number of the error of more levels than may stand.
const TOO_MANY_LEVELS: u16 = 58;

/// The number of the error of fewer levels than are to go.
const ABOVE_LEVELS: u16 = 51;

/// What is declared and defined, and the assertions in force, with the table of their core terms; and where each level began.
#[derive(Drop)]
pub struct AssertionStack {
    alloc: Global,
    scope: Scope,
    // The assertions in force, of all levels.
    asserts: Vec<Tree>,
    // The core terms of the assertions, with their subterms and no others.
    table: TermTable,
    numbers: Vec<TermId>,
    // Where each level within the outermost one began, the innermost level last.
    levels: Vec<LevelMark>,
    // How much is declared at the start.
    first: Mark,
}

impl Model for AssertionStack {
    ghost use Rattle.ct_stack.specs.Stack.{Stack};

    ghost Value = { Stack };

    ghost use Rattle.std.specs.Coded.{codes};
    ghost use Rattle.ct_sorts.specs.ExpressionCode.{coded_expression};
    ghost use Rattle.ct_stack.specs.FormulaCode.{coded_formula};

    ghost coded = { Prim.hlevel (codes, coded_expression, coded_formula) };

    ghost use Rattle.std.specs.Prelude.{reverse};
    ghost use Rattle.ct_stack.specs.Held.{level_in};
    ghost use Rattle.ct_stack.specs.Whole.{stack_of, whole_in, IsKept};

    ghost view = { λ s. stack_of (level_in s.scope s.asserts.items) (reverse s.levels.items) };

    ghost invariant = { λ s. IsKept (whole_in s.scope s.asserts.items s.table s.numbers.items) (reverse s.levels.items) s.first };
}

impl AssertionStack {
    /// The stack with nothing declared and nothing asserted.
    pub fn new(alloc: Global) -> Result<AssertionStack, AllocError>
        ensures empty { IfOk result (λ s. s ≡ first_stack) }
    {
        let Ok(sig) = Signature::new(alloc) else {
            return Err(AllocError);
        };
        let Ok(table) = TermTable::new(alloc) else {
            return Err(AllocError);
        };
        stack_theorems();
        table.len();
        sig.sorts();
        let first = sig.mark();
        Ok(AssertionStack {
            alloc,
            scope: Scope {
                sig,
                bodies: Items::new(Vec::new(alloc)),
            },
            asserts: Vec::new(alloc),
            table,
            numbers: Vec::new(alloc),
            levels: Vec::new(alloc),
            first,
        })
    }

    /// What can be named.
    pub fn scope(&self) -> &Scope
        ensures value { context_in result.now ≡ self.now.top.context }
        ensures sound { IsSoundLevel (as_one self.now) }
    {
        &self.scope
    }

    /// The assertions in force, those of the outermost level first.
    pub fn assertions(&self) -> &[Tree]
        ensures all { in_force self.now ≡ map formula_of result.now }
    {
        self.asserts.as_slice()
    }

    /// The table of the core terms of the assertions in force, with their subterms and no others, and the numbers of these core
    /// terms, in order.
    pub fn core_terms(&self) -> (&TermTable, &[TermId])
        ensures held { IsHeld (as_one self.now) result.0.now result.1.now }
    {
        (&self.table, self.numbers.as_slice())
    }

    /// Declares an uninterpreted sort with a number of arguments.
    pub fn declare_sort(
        &mut self,
        alloc: Global,
        name: &[u8],
        params: u8,
    ) -> Result<(), CommandError>
        ensures ok { OnOk result (self.new ≡ declaring self.old (with_free self.old.top.context.declarations name.now params)) }
        ensures accepted { OnOk result ((n : ℕ) → IsSortRefusal self.old.top.context.declarations name.now n → ⊥) }
        ensures refused { (n : ℕ) → IsErrOf result (CommandError.Refused n) → IsSortRefusal self.old.top.context.declarations name.now n }
        ensures unchanged { OnErr result (self.new ≡ self.old) }
    {
        stack_theorems();
        growth();
        self.scope.sig.sorts();
        let declared = declare_sort(alloc, &mut self.scope.sig, name, params);
        self.scope.sig.sorts();
        declared
    }

    /// Adds a synonym of a sort.
    pub fn define_sort(
        &mut self,
        alloc: Global,
        name: &[u8],
        params: &[&[u8]],
        body: &Sexpr,
    ) -> Result<(), CommandError>
        ensures ok { OnOk result (Gives (synonym_body self.old.top.context.declarations (map (λ p. p.now) params.now) (expression_of body.now))
            (λ e. self.new ≡ declaring self.old (with_synonym_of self.old.top.context.declarations name.now (map (λ p. p.now) params.now) e))) }
        ensures accepted { OnOk result ((n : ℕ) → IsSynonymRefusal self.old.top.context.declarations name.now (map (λ p. p.now) params.now) (expression_of body.now) n → ⊥) }
        ensures refused { (n : ℕ) → IsErrOf result (CommandError.Refused n) → IsSynonymRefusal self.old.top.context.declarations name.now (map (λ p. p.now) params.now) (expression_of body.now) n }
        ensures unchanged { OnErr result (self.new ≡ self.old) }
    {
        stack_theorems();
        self.scope.sig.sorts();
        let defined = define_sort(alloc, &mut self.scope.sig, name, params, body);
        self.scope.sig.sorts();
        defined
    }

    /// Declares a block of sorts.
    pub fn declare_block(
        &mut self,
        alloc: Global,
        family: Family,
        heads: &[SortHead<'_>],
        bodies: &[Body<'_>],
    ) -> Result<(), CommandError>
        ensures ok { OnOk result ((later : Declarations) × IsWithTypes self.old.top.context.declarations family (map head_seen heads.now) (map body_seen bodies.now) later × (self.new ≡ declaring self.old later)) }
        ensures accepted { OnOk result ((n : ℕ) → IsTypesRefusal self.old.top.context.declarations family (map head_seen heads.now) (map body_seen bodies.now) n → ⊥) }
        ensures refused { (n : ℕ) → IsErrOf result (CommandError.Refused n)
            → IsTypesRefusal self.old.top.context.declarations family (map head_seen heads.now) (map body_seen bodies.now) n }
        ensures unchanged { OnErr result (self.new ≡ self.old) }
    {
        stack_theorems();
        growth();
        self.scope.sig.sorts();
        let declared = declare_block(alloc, &mut self.scope.sig, family, heads, bodies);
        self.scope.sig.sorts();
        declared
    }

    /// Declares a function.
    pub fn declare_function(
        &mut self,
        alloc: Global,
        name: &[u8],
        args: &[Sexpr],
        sort: &Sexpr,
    ) -> Result<(), CommandError>
        ensures ok { OnOk result (GivesNeeding (λ d. declared_function d name.now (all_seen args.now) (expression_of sort.now)) self.old.top.context.declarations
            (λ later f. self.new ≡ declaring self.old (with_function later f))) }
        ensures accepted { OnOk result ((n : ℕ) → IsFunctionRefusal self.old.top.context.declarations name.now (all_seen args.now) (expression_of sort.now) n → ⊥) }
        ensures refused { (n : ℕ) → IsErrOf result (CommandError.Refused n)
            → IsFunctionRefusal self.old.top.context.declarations name.now (all_seen args.now) (expression_of sort.now) n }
        ensures unchanged { OnErr result (self.new ≡ self.old) }
    {
        stack_theorems();
        growth();
        self.scope.sig.sorts();
        let declared = declare_function(alloc, &mut self.scope, name, args, sort);
        self.scope.sig.sorts();
        declared
    }

    /// Adds a definition.
    pub fn define_function(
        &mut self,
        alloc: Global,
        name: &[u8],
        params: &[Named<'_>],
        sort: &Sexpr,
        term: &Sexpr,
    ) -> Result<(), CommandError>
        ensures ok { OnOk result (GivesNeeding (λ d. defined_function d name.now (map named_seen params.now) (expression_of sort.now) (expression_of term.now)) self.old.top.context.declarations
            (λ later f. self.new ≡ in_context self.old (defined_in (over self.old.top.context later) f))) }
        ensures accepted { OnOk result ((n : ℕ) → IsDefinitionRefusal self.old.top.context.declarations name.now (map named_seen params.now) (expression_of sort.now) (expression_of term.now) n → ⊥) }
        ensures refused { (n : ℕ) → IsErrOf result (CommandError.Refused n)
            → IsDefinitionRefusal self.old.top.context.declarations name.now (map named_seen params.now) (expression_of sort.now) (expression_of term.now) n }
        ensures unchanged { OnErr result (self.new ≡ self.old) }
    {
        stack_theorems();
        growth();
        self.scope.sig.sorts();
        let defined = define_function(alloc, &mut self.scope, name, params, sort, term);
        self.scope.sig.sorts();
        defined
    }

    /// Adds an assertion. If it has a label, the label is defined, and the definition is what is asserted.
    pub fn assert(
        &mut self,
        alloc: Global,
        expr: &Sexpr,
        label: Option<&[u8]>,
    ) -> Result<(), CommandError>
        ensures ok { OnOk result (GivesNeeding (λ d. asserted_formula d (expression_of expr.now)) self.old.top.context.declarations
            (λ later formula. self.new ≡ asserting_as (declaring self.old later) (bytes_seen label.entry) formula)) }
        ensures accepted { OnOk result ((n : ℕ) → IsAssertionRefusal self.old (bytes_seen label.entry) (expression_of expr.now) n → ⊥) }
        ensures refused { (n : ℕ) → IsErrOf result (CommandError.Refused n) → IsAssertionRefusal self.old (bytes_seen label.entry) (expression_of expr.now) n }
        ensures unchanged { OnErr result (self.new ≡ self.old) }
    {
        stack_theorems();
        self.scope.sig.sorts();
        let before = self.scope.sig.mark();
        let asserted = assert_needing(
            alloc,
            &mut self.scope,
            &mut self.table,
            &mut self.numbers,
            &mut self.asserts,
            expr,
            label,
        );
        let done = scope_or_back(self.alloc, &mut self.scope, &before, asserted);
        self.scope.sig.sorts();
        done
    }

    /// Begins a level at which these terms are assumed, and gives what they assume, in order (SMT-LIB 2.7, section 4.2.5). They are
    /// elaborated as for an assertion, and each is to be Bool (23). The sorts that they need are declared at the level, at which
    /// nothing is asserted; `end_assuming` takes it back.
    pub fn assume(
        &mut self,
        alloc: Global,
        terms: &[Sexpr],
    ) -> Result<Vec<Assumption>, CommandError>
        ensures ok { IfOk result (λ assumed. Assumes self.old (all_seen terms.now) (pushed self.old) self.new (list_seen assumed)) }
        ensures refused { (n : ℕ) → IsErrOf result (CommandError.Refused n) → RefusesToAssume self.old (all_seen terms.now) n }
        ensures sorted { IfOk result (λ assumed. All (IsTruth self.new.top.context.declarations) assumed.items) }
        ensures unchanged { OnErr result (self.new ≡ self.old) }
    {
        self.add_levels(1)?;
        match self.assume_here(alloc, terms) {
            Ok(assumed) => Ok(assumed),
            Err(error) => {
                self.leave_one(false);
                Err(error)
            }
        }
    }

    /// Takes the innermost level back, with the sorts that were declared at it, or without these.
    pub fn end_assuming(&mut self, keeps_sorts: bool)
        ensures ended { self.new ≡ popped keeps_sorts self.old }
    {
        self.leave_one(keeps_sorts);
    }

    /// A table of the core terms of the assertions in force and of these assumptions, with their subterms and no others, and the
    /// numbers of these core terms, in order: those of the assertions first.
    pub fn core_terms_with(
        &self,
        alloc: Global,
        assumed: &[Assumption],
    ) -> Result<(Box<TermTable>, Vec<TermId>), CommandError>
        requires sorted { All (IsTruth self.now.top.context.declarations) assumed.now }
        ensures held { IfOk result (λ terms. IsHeld (with_assumed (as_one self.now) (assumptions_seen assumed.now)) terms.0.value terms.1.items) }
        ensures accepted { OnOk result (HasManyTerms (cores self.now.top.context (assuming self.now (assumptions_seen assumed.now))) → ⊥) }
        ensures refused { (n : ℕ) → IsErrOf result (CommandError.Refused n) → (n ≡ too_many_terms)
            × HasManyTerms (cores self.now.top.context (assuming self.now (assumptions_seen assumed.now))) }
    {
        let numbers = self.numbers.as_slice();
        assumed_terms(alloc, &self.scope, &self.table, numbers, assumed)
    }

    /// Each term with its value in the interpretation, using known values of other terms in it, to which these are
    /// added.
    pub fn values(
        &mut self,
        alloc: Global,
        interp: &Interp,
        values: &mut Option<ModelValues>,
        exprs: &[Sexpr],
    ) -> Result<Vec<u8>, CommandError>
        requires proper { IsProper self.old.top.context.declarations interp.now }
        requires valued { IfSome values.old (AreModelValues self.old.top.context.declarations interp.now) }
        ensures values { IfOk result (λ text. AreValues self.old.top.context interp.now (all_seen exprs.now) text.items) }
        ensures accepted { OnOk result ((n : ℕ) → IsTermsRefusal self.old.top.context (cores self.old.top.context (in_force self.old)) (all_seen exprs.now) n → ⊥) }
        ensures refused { (n : ℕ) → IsErrOf result (CommandError.Refused n)
            → IsTermsRefusal self.old.top.context (cores self.old.top.context (in_force self.old)) (all_seen exprs.now) n }
        ensures valued { IfSome values.new (AreModelValues self.old.top.context.declarations interp.now) }
        ensures unchanged { self.new ≡ self.old }
    {
        values_text(
            alloc,
            &mut self.scope,
            &mut self.table,
            interp,
            values,
            exprs,
        )
    }

    /// Adds this many levels, with nothing asserted at them; there can be at most 10,000.
    pub fn push(&mut self, n: u128) -> Result<(), CommandError>
        ensures ok { OnOk result (self.new ≡ pushed_by n self.old) }
        ensures accepted { OnOk result ((k : ℕ) → IsPushRefusal self.old n k → ⊥) }
        ensures refused { (k : ℕ) → IsErrOf result (CommandError.Refused k) → IsPushRefusal self.old n k }
        ensures unchanged { OnErr result (self.new ≡ self.old) }
    {
        if !has_room(self.levels.len(), n) {
            return Err(CommandError::Refused(TOO_MANY_LEVELS));
        }
        self.add_levels(n as usize)?;
        Ok(())
    }

    /// Removes this many levels, with all that was asserted at them, and with what was declared and defined at them
    /// unless declarations are global. Takes no memory.
    pub fn pop(&mut self, global: bool, n: u128) -> Result<(), CommandError>
        ensures ok { OnOk result (self.new ≡ popped_by global n self.old) }
        ensures accepted { OnOk result ((k : ℕ) → IsPopRefusal self.old n k → ⊥) }
        ensures refused { (k : ℕ) → IsErrOf result (CommandError.Refused k) → IsPopRefusal self.old n k }
        ensures unchanged { OnErr result (self.new ≡ self.old) }
        ensures no_memory { IsErrOf result CommandError.NoMemory → ⊥ }
    {
        let levels = self.levels() as u128;
        if levels < n {
            return Err(CommandError::Refused(ABOVE_LEVELS));
        }
        self.leave(global, n as usize);
        Ok(())
    }

    /// Removes all assertions, and all levels but the outermost one, with what is declared and defined unless
    /// declarations are global. Takes no memory.
    pub fn empty(&mut self, global: bool)
        ensures emptied { self.new ≡ emptied global self.old }
    {
        stack_theorems();
        self.scope.sig.sorts();
        self.table.len();
        self.levels.truncate(0);
        self.asserts.truncate(0);
        self.numbers.truncate(0);
        self.table.cut_to(2);
        self.table.len();
        if global {
            return;
        }
        cut_scope(self.alloc, &mut self.scope, &self.first);
    }

    /// All as at the start. Takes no memory.
    pub fn reset(&mut self)
        ensures reset { self.new ≡ first_stack }
    {
        self.empty(false);
    }

    /// How many levels there are within the outermost one.
    pub fn levels(&self) -> usize
        ensures count { result ≡ length self.now.below }
    {
        self.levels.len()
    }

    /// How much is declared after a `pop` of this many levels that removes declarations; nothing if there are fewer
    /// levels.
    pub fn mark_below(&self, global: bool, n: u128) -> Option<Mark>
        ensures mark { n ≤ length self.now.below → result ≡ left_by global n self.now }
        ensures above { length self.now.below < n → result ≡ None }
        ensures cut { IfSome result (λ m. IsCutTo self.now.top.context.declarations m (popped_by global n self.now).top.context.declarations) }
    {
        stack_theorems();
        self.scope.sig.sorts();
        if global || n == 0 {
            return None;
        }
        let levels = self.levels.as_slice();
        if (levels.len() as u128) < n {
            return None;
        }
        Some(mark_before(levels, n as usize))
    }

    /// How much is declared after an `empty` that removes declarations.
    pub fn first_mark(&self, global: bool) -> Option<Mark>
        ensures mark { result ≡ left_emptied global }
        ensures cut { IfSome result (λ m. IsCutTo self.now.top.context.declarations m (emptied global self.now).top.context.declarations) }
    {
        stack_theorems();
        self.scope.sig.sorts();
        if global {
            return None;
        }
        Some(self.first)
    }

    /// Whether all is as at the start.
    pub fn is_first(&self) -> bool
        ensures first { IsTrue result ↔ (self.now ≡ first_stack) }
    {
        stack_theorems();
        self.scope.sig.sorts();
        let declared = self.scope.sig.mark();
        let levels = self.levels.as_slice();
        let asserts = self.asserts.as_slice();
        is_start(levels, asserts, &declared, &self.first)
    }

    // So many levels more, with nothing asserted at them.
    fn add_levels(&mut self, count: usize) -> Result<(), AllocError>
        ensures pushed { OnOk result (self.new ≡ pushed_by count self.old) }
        ensures unchanged { OnErr result (self.new ≡ self.old) }
    {
        stack_theorems();
        self.scope.sig.sorts();
        self.levels.reserve(count)?;
        let declared = self.scope.sig.mark();
        let asserts = self.asserts.len();
        let terms = self.table.len();
        put_marks(&mut self.levels, &declared, asserts, terms, count);
        Ok(())
    }

    // What these terms assume, with the sorts that they need.
    fn assume_here(
        &mut self,
        alloc: Global,
        terms: &[Sexpr],
    ) -> Result<Vec<Assumption>, CommandError>
        ensures ok { IfOk result (λ assumed. Assumes self.old (all_seen terms.now) self.old self.new (list_seen assumed)) }
        ensures refused { (n : ℕ) → IsErrOf result (CommandError.Refused n) → RefusesToAssume self.old (all_seen terms.now) n }
        ensures sorted { IfOk result (λ assumed. All (IsTruth self.new.top.context.declarations) assumed.items) }
        ensures unchanged { OnErr result (self.new ≡ self.old) }
    {
        stack_theorems();
        self.scope.sig.sorts();
        let assumed = assumptions(alloc, &mut self.scope, terms);
        self.scope.sig.sorts();
        assumed
    }

    // So many levels fewer.
    fn leave(&mut self, global: bool, n: usize)
        ensures popped { self.new ≡ popped_by global n self.old }
    {
        let mut left = n;
        while left > 0 {
            self.leave_one(global);
            left -= 1;
        }
    }

    // One level fewer, where there is one.
    fn leave_one(&mut self, global: bool)
        ensures popped { self.new ≡ popped global self.old }
    {
        stack_theorems();
        self.scope.sig.sorts();
        let Some(mark) = self.levels.pop() else {
            return;
        };
        self.asserts.truncate(mark.asserts);
        self.numbers.truncate(mark.asserts);
        self.table.cut_to(mark.terms);
        if global {
            return;
        }
        cut_scope(self.alloc, &mut self.scope, &mark.declared);
    }
}
