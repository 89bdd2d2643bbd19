//! The core term of a formula, by recursion on the formula and on the definitions that it names.
ghost use Rattle.std.specs.Prelude.{◌≡◌, ◌<◌, true, length, List, [], ◌∷◌, drop, Contains, Some, slice_get, IfOk, IsErrOf};
ghost use Rattle.ct_sorts.specs.declared.ids.SortId.{SortId};
ghost use Rattle.ct_terms.specs.CoreTree.{CoreTree};
ghost use Rattle.ct_terms.specs.CoreSorts.{HasTreeSort};
ghost use Rattle.ct_operators.specs.Effect.{Stands, IsSoundTable, IsPrefix, Effect};
ghost use Rattle.ct_formulas.specs.Formula.{Var, Ite, Def, Let, Match, Quantified, no_formulas, with_formula, bind as bound_over};
ghost use Rattle.ct_formulas.specs.TreeFormula.{formula_of, formulas_of_trees};
ghost use Rattle.ct_scope.specs.Calling.{IsUnknown};
ghost use Rattle.ct_scope.specs.Deferral.{ended, UnlessFailed, WhenTooDeep};
ghost use Rattle.ct_occurrence.specs.CaseFormula.{cases_of_trees};
ghost use Rattle.ct_scope.specs.Matching.{bound_by};
ghost use Rattle.ct_occurrence.specs.Matching.{IsPatternDeclared};
ghost use Rattle.ct_occurrence.specs.declared.notes.Notes.{Notes};
ghost use Rattle.ct_occurrence.specs.Plain.{is_plain, formulas_under};
ghost use Rattle.ct_operators.specs.Forms.{operator_for};
ghost use Rattle.ct_scope.specs.Compilable.{IsBound, IsThere};
ghost use Rattle.ct_compile.specs.AtLevel.{AreNotedAt, AreNotedCasesAt, AreNotedWhereAt, BindsAt, CompilesAllAt, CompilesAt, CompilesCasesAt, DefersAllAt, DefersAt, DefersBoundAt, DefersCasesAt, IsNotedAt, IsStateAt, MayBindAt, MayCasesAt, MayCompileAllAt, MayCompileAt, IsOverAt, IsChoiceAt, AreChosenAt, chosen_for, all_chosen_for, declared_at, quantified};
ghost use Rattle.ct_listing.specs.Closed.{ClosedValue};
ghost use Rattle.ct_formulas.specs.Choices.{choices_of};
ghost use Rattle.ct_finite.specs.Counts.{AreCounts};
ghost use Rattle.ct_scope.specs.Making.{operator_of};
ghost use Rattle.ct_scope.specs.Values.{AreValueTerms};

use crate::forms::operands;
use crate::level::{Level, known_finite, one_finite, room_under};
use crate::quantification::{Quantification, choices_over, chosen_bounds, operator_of};
use ct_finite::Finite;
use ct_formulas::{Case, Pattern, Quantifier, Tree};
use ct_occurrence::{Earlier, Notes, body_of, notes_at, pattern_of, row_at, tested};
use ct_operators::{Guarded, Operator, choices, combine, follow, make};
use ct_scope::{
    Bound, DeferredCall, Environment, Known, Stop, ValueTerms, body_at, call_with, known_term,
    make_test, no_value_terms, pattern_bounds, remember,
};
use ct_sorts::{DefId, Items, Signature, SortId};
use ct_terms::{Args, Core, TermError, TermId, TermTable};
use std::slice;

/// The term of a formula.
#[cycle(compile)]
pub(crate) fn compile_tree(
    level: &Level<'_>,
    known: &mut Known,
    table: &mut TermTable,
    env: &mut Environment,
    tree: &Tree,
    notes: &[Notes],
) -> Result<TermId, Stop>
    requires state { IsStateAt level.now table.old known.old }
    requires ready { MayCompileAt level.now table.old env.old (formula_of tree.now) }
    requires noted { IsNotedAt level.now (formula_of tree.now) notes.now }
    ensures outcome { CompilesAt level.now table.old table.new env.old (formula_of tree.now) (ended result) }
    ensures waits { DefersAt level.now table.old table.new env.old (formula_of tree.now) result }
    ensures state { UnlessFailed result (IsStateAt level.now table.new known.new) }
    ensures unknown { WhenTooDeep result (λ call. IsUnknown known.new call) }
    ensures back { env.new ≡ env.old }
{
    if let Some((operator, trees)) = operands(tree) {
        return compile_plain(level, known, table, env, tree, operator, trees, notes);
    }
    match tree {
        Tree::Var(i) => Ok(variable(level, table, env, *i)?),
        Tree::Ite(c, t, u) => compile_choice(level, known, table, env, c, t, u, notes),
        Tree::Def(k, ts) => compile_call(level, known, table, env, *k, ts, notes),
        Tree::Let(ts, u) => compile_let(level, known, table, env, ts, u, notes),
        Tree::Match(t, cases) => compile_match(level, known, table, env, t, cases, notes),
        Tree::Quantified(q, sorts, t) => compile_quantified(
            level,
            known,
            table,
            env,
            *q,
            sorts.as_slice(),
            t,
            notes,
        ),
        Tree::Con(_, _)
        | Tree::Sel(_, _)
        | Tree::Test(_, _)
        | Tree::Apply(_, _)
        | Tree::Not(_)
        | Tree::And(_)
        | Tree::Or(_)
        | Tree::Xor(_)
        | Tree::Implies(_)
        | Tree::Equal(_)
        | Tree::Distinct(_) => unreachable!(),
    }
}

// The term of an operator over these formulas.
#[cycle(compile)]
fn compile_plain(
    level: &Level<'_>,
    known: &mut Known,
    table: &mut TermTable,
    env: &mut Environment,
    tree: &Tree,
    operator: Operator,
    trees: &[Tree],
    notes: &[Notes],
) -> Result<TermId, Stop>
    requires operator { operator_for (formula_of tree.now) ≡ operator }
    requires plain { is_plain (formula_of tree.now) ≡ true }
    requires under { formulas_under (formula_of tree.now) ≡ formulas_of_trees trees.now }
    requires state { IsStateAt level.now table.old known.old }
    requires ready { MayCompileAt level.now table.old env.old (formula_of tree.now) }
    requires noted { IsNotedAt level.now (formula_of tree.now) notes.now }
    ensures outcome { CompilesAt level.now table.old table.new env.old (formula_of tree.now) (ended result) }
    ensures waits { DefersAt level.now table.old table.new env.old (formula_of tree.now) result }
    ensures state { UnlessFailed result (IsStateAt level.now table.new known.new) }
    ensures unknown { WhenTooDeep result (λ call. IsUnknown known.new call) }
    ensures back { env.new ≡ env.old }
{
    let note = first_note(notes);
    let args = compile_all(level, known, table, env, operator, trees, note.under())?;
    Ok(combine(level.alloc, &level.scope.sig, table, operator, args)?)
}

// The terms of the formulas under an operator, in order, and what the operator's core term has between them.
#[cycle(compile)]
fn compile_all(
    level: &Level<'_>,
    known: &mut Known,
    table: &mut TermTable,
    env: &mut Environment,
    operator: Operator,
    trees: &[Tree],
    notes: &[Notes],
) -> Result<Args, Stop>
    requires state { IsStateAt level.now table.old known.old }
    requires ready { MayCompileAllAt level.now table.old env.old operator (formulas_of_trees trees.now) }
    requires noted { AreNotedAt level.now (formulas_of_trees trees.now) notes.now }
    ensures outcome { CompilesAllAt level.now table.old table.new env.old operator (formulas_of_trees trees.now) (ended result) }
    ensures waits { DefersAllAt level.now table.old table.new env.old operator (formulas_of_trees trees.now) result }
    ensures state { UnlessFailed result (IsStateAt level.now table.new known.new) }
    ensures unknown { WhenTooDeep result (λ call. IsUnknown known.new call) }
    ensures back { env.new ≡ env.old }
{
    let mut args = Args::new(level.alloc);
    let mut lead = None;
    let mut left = notes;
    let mut rest = trees;
    while let [tree, others @ ..] = rest {
        let term = compile_tree(level, known, table, env, tree, left)?;
        let next = follow(
            &level.scope.sig,
            table,
            operator,
            lead,
            term,
            others.is_empty(),
        )?;
        args.push(term)?;
        lead = Some(next);
        left = later_notes(left);
        rest = others;
    }
    Ok(args)
}

// The term of a choice.
#[cycle(compile)]
#[inline(never)]
fn compile_choice(
    level: &Level<'_>,
    known: &mut Known,
    table: &mut TermTable,
    env: &mut Environment,
    condition: &Tree,
    first: &Tree,
    second: &Tree,
    notes: &[Notes],
) -> Result<TermId, Stop>
    requires state { IsStateAt level.now table.old known.old }
    requires ready { MayCompileAt level.now table.old env.old (Ite (formula_of condition.now) (formula_of first.now) (formula_of second.now)) }
    requires noted { IsNotedAt level.now (Ite (formula_of condition.now) (formula_of first.now) (formula_of second.now)) notes.now }
    ensures outcome { CompilesAt level.now table.old table.new env.old (Ite (formula_of condition.now) (formula_of first.now) (formula_of second.now)) (ended result) }
    ensures waits { DefersAt level.now table.old table.new env.old (Ite (formula_of condition.now) (formula_of first.now) (formula_of second.now)) result }
    ensures state { UnlessFailed result (IsStateAt level.now table.new known.new) }
    ensures unknown { WhenTooDeep result (λ call. IsUnknown known.new call) }
    ensures back { env.new ≡ env.old }
{
    let note = first_note(notes);
    let of_condition = note.under();
    let of_first = later_notes(of_condition);
    let of_second = later_notes(of_first);
    let c = compile_tree(level, known, table, env, condition, of_condition)?;
    let a = compile_tree(level, known, table, env, first, of_first)?;
    let b = compile_tree(level, known, table, env, second, of_second)?;
    Ok(make(&level.scope.sig, table, Core::Ite(c, a, b))?)
}

// The term of a variable.
#[inline(never)]
fn variable(
    level: &Level<'_>,
    table: &mut TermTable,
    env: &Environment,
    i: u64,
) -> Result<TermId, TermError>
    requires ready { MayCompileAt level.now table.old env.now (Var i) }
    ensures outcome { CompilesAt level.now table.old table.new env.now (Var i) result }
    ensures grown { IsPrefix table.old table.new × IsSoundTable level.now.scope.now.sig table.new }
{
    let bound = env.at(i as usize);
    of_bound(&level.scope.sig, table, bound)
}

// The term of a formula with bindings.
#[cycle(compile)]
#[inline(never)]
fn compile_let(
    level: &Level<'_>,
    known: &mut Known,
    table: &mut TermTable,
    env: &mut Environment,
    trees: &[Tree],
    body: &Tree,
    notes: &[Notes],
) -> Result<TermId, Stop>
    requires state { IsStateAt level.now table.old known.old }
    requires ready { MayCompileAt level.now table.old env.old (Let (formulas_of_trees trees.now) (formula_of body.now)) }
    requires noted { IsNotedAt level.now (Let (formulas_of_trees trees.now) (formula_of body.now)) notes.now }
    ensures outcome { CompilesAt level.now table.old table.new env.old (Let (formulas_of_trees trees.now) (formula_of body.now)) (ended result) }
    ensures waits { DefersAt level.now table.old table.new env.old (Let (formulas_of_trees trees.now) (formula_of body.now)) result }
    ensures state { UnlessFailed result (IsStateAt level.now table.new known.new) }
    ensures unknown { WhenTooDeep result (λ call. IsUnknown known.new call) }
    ensures back { env.new ≡ env.old }
{
    let note = first_note(notes);
    let flags = note.bound();
    let bounds = compile_bound(level, known, table, env, flags, trees, note.under())?;
    let bounds = bounds.as_slice();
    env.bind(bounds)?;
    let result = compile_tree(level, known, table, env, body, note.inner());
    env.unbind(bounds.len());
    result
}

// The term of a definition with its arguments.
#[cycle(compile)]
#[inline(never)]
fn compile_call(
    level: &Level<'_>,
    known: &mut Known,
    table: &mut TermTable,
    env: &mut Environment,
    k: DefId,
    trees: &[Tree],
    notes: &[Notes],
) -> Result<TermId, Stop>
    requires state { IsStateAt level.now table.old known.old }
    requires ready { MayCompileAt level.now table.old env.old (Def k (formulas_of_trees trees.now)) }
    requires noted { IsNotedAt level.now (Def k (formulas_of_trees trees.now)) notes.now }
    ensures outcome { CompilesAt level.now table.old table.new env.old (Def k (formulas_of_trees trees.now)) (ended result) }
    ensures waits { DefersAt level.now table.old table.new env.old (Def k (formulas_of_trees trees.now)) result }
    ensures state { UnlessFailed result (IsStateAt level.now table.new known.new) }
    ensures unknown { WhenTooDeep result (λ call. IsUnknown known.new call) }
    ensures back { env.new ≡ env.old }
{
    let row = row_at(level.definitions, k);
    let body = body_at(level.scope, k);
    let note = first_note(notes);
    let bounds = compile_bound(level, known, table, env, row, trees, note.under())?;
    let call = call_with(level.alloc, k, bounds.as_slice())?;
    if let Some(term) = known_term(known, &call) {
        return Ok(term);
    }
    let Some(room) = room_under(level, k) else {
        return Err(Stop::TooDeep(DeferredCall {
            definition: k,
            bounds,
        }));
    };
    let inside = Level {
        alloc: level.alloc,
        scope: level.scope,
        definitions: level.definitions,
        below: k.0 as usize,
        finite: level.finite,
        room,
    };
    let mut inner = Environment::of(bounds.into_vec());
    let body_notes = notes_at(level.definitions, k);
    let term = compile_tree(&inside, known, table, &mut inner, body, body_notes)?;
    remember(known, call, term)?;
    Ok(term)
}

// What the variables stand for that are bound to these formulas: those whose flags are set have terms.
#[cycle(compile)]
fn compile_bound(
    level: &Level<'_>,
    known: &mut Known,
    table: &mut TermTable,
    env: &mut Environment,
    flags: &[bool],
    trees: &[Tree],
    notes: &[Notes],
) -> Result<Items<Bound>, Stop>
    requires state { IsStateAt level.now table.old known.old }
    requires ready { MayBindAt level.now table.old env.old flags.now (formulas_of_trees trees.now) }
    requires noted { AreNotedWhereAt level.now flags.now (formulas_of_trees trees.now) notes.now }
    ensures outcome { BindsAt level.now table.old table.new env.old flags.now (formulas_of_trees trees.now) (ended result) }
    ensures waits { DefersBoundAt level.now table.old table.new env.old flags.now (formulas_of_trees trees.now) result }
    ensures state { UnlessFailed result (IsStateAt level.now table.new known.new) }
    ensures unknown { WhenTooDeep result (λ call. IsUnknown known.new call) }
    ensures back { env.new ≡ env.old }
{
    let mut bounds = Vec::new(level.alloc);
    let mut left = flags;
    let mut noted = notes;
    let mut rest = trees;
    while let [tree, others @ ..] = rest {
        let occurs = first_flag(left);
        let here = noted;
        left = later_flags(left);
        noted = later_notes(noted);
        rest = others;
        if !occurs {
            bounds.push(Bound::Absent)?;
            continue;
        }
        let term = compile_tree(level, known, table, env, tree, here)?;
        bounds.push(Bound::Term(term))?;
    }
    Ok(Items::new(bounds))
}

// The term of a `match`.
#[cycle(compile)]
#[inline(never)]
fn compile_match(
    level: &Level<'_>,
    known: &mut Known,
    table: &mut TermTable,
    env: &mut Environment,
    tree: &Tree,
    cases: &[Case],
    notes: &[Notes],
) -> Result<TermId, Stop>
    requires state { IsStateAt level.now table.old known.old }
    requires ready { MayCompileAt level.now table.old env.old (Match (formula_of tree.now) (cases_of_trees cases.now)) }
    requires noted { IsNotedAt level.now (Match (formula_of tree.now) (cases_of_trees cases.now)) notes.now }
    ensures outcome { CompilesAt level.now table.old table.new env.old (Match (formula_of tree.now) (cases_of_trees cases.now)) (ended result) }
    ensures waits { DefersAt level.now table.old table.new env.old (Match (formula_of tree.now) (cases_of_trees cases.now)) result }
    ensures state { UnlessFailed result (IsStateAt level.now table.new known.new) }
    ensures unknown { WhenTooDeep result (λ call. IsUnknown known.new call) }
    ensures back { env.new ≡ env.old }
{
    let note = first_note(notes);
    let occurs = first_flag(note.bound());
    let flags = one_flag(&occurs);
    let trees = one_tree(tree);
    let bounds = compile_bound(level, known, table, env, flags, trees, note.under())?;
    let matched = bound_at(bounds.as_slice(), 0);
    compile_cases(level, known, table, env, matched, cases, note.inner())
}

// The term of the cases of a `match`: each case has its test and its body's term, up to one that surely fits or is the
// last, which has its body's term alone. The choices come after all of them.
#[cycle(compile)]
#[inline(never)]
fn compile_cases(
    level: &Level<'_>,
    known: &mut Known,
    table: &mut TermTable,
    env: &mut Environment,
    matched: Bound,
    cases: &[Case],
    notes: &[Notes],
) -> Result<TermId, Stop>
    requires state { IsStateAt level.now table.old known.old }
    requires ready { MayCasesAt level.now table.old env.old matched [] (cases_of_trees cases.now) }
    requires noted { AreNotedCasesAt level.now [] (cases_of_trees cases.now) notes.now }
    ensures outcome { CompilesCasesAt level.now table.old table.new env.old matched [] (cases_of_trees cases.now) (ended result) }
    ensures waits { DefersCasesAt level.now table.old table.new env.old matched [] (cases_of_trees cases.now) result }
    ensures state { UnlessFailed result (IsStateAt level.now table.new known.new) }
    ensures unknown { WhenTooDeep result (λ call. IsUnknown known.new call) }
    ensures back { env.new ≡ env.old }
{
    let mut earlier = Earlier::new(level.alloc);
    let mut made = Vec::new(level.alloc);
    let mut left = notes;
    let mut rest = cases;
    while let [case, others @ ..] = rest {
        let pattern = pattern_of(case);
        let body = body_of(case);
        let here = left;
        let Some(c) = tested(&level.scope.sig, &earlier, pattern, others.is_empty()) else {
            let last = compile_case(level, known, table, env, matched, pattern, body, here)?;
            return Ok(choices(&level.scope.sig, table, made.as_slice(), last)?);
        };
        let condition = make_test(&level.scope.sig, table, c, matched)?;
        let term = compile_case(level, known, table, env, matched, pattern, body, here)?;
        made.push(Guarded {
            condition,
            body: term,
        })?;
        earlier.push(c)?;
        left = later_notes(here);
        rest = others;
    }
    unreachable!()
}

// The term of the body of a case.
#[cycle(compile)]
#[inline(never)]
fn compile_case(
    level: &Level<'_>,
    known: &mut Known,
    table: &mut TermTable,
    env: &mut Environment,
    matched: Bound,
    pattern: Pattern,
    body: &Tree,
    notes: &[Notes],
) -> Result<TermId, Stop>
    requires state { IsStateAt level.now table.old known.old }
    requires declared { IsPatternDeclared level.now.scope.now.sig pattern }
    requires ready { MayCompileAt level.now table.old (bound_over (bound_by level.now.scope.now.sig pattern matched) env.old) (formula_of body.now) }
    requires noted { IsNotedAt level.now (formula_of body.now) notes.now }
    ensures outcome { CompilesAt level.now table.old table.new (bound_over (bound_by level.now.scope.now.sig pattern matched) env.old) (formula_of body.now) (ended result) }
    ensures waits { DefersAt level.now table.old table.new (bound_over (bound_by level.now.scope.now.sig pattern matched) env.old) (formula_of body.now) result }
    ensures state { UnlessFailed result (IsStateAt level.now table.new known.new) }
    ensures unknown { WhenTooDeep result (λ call. IsUnknown known.new call) }
    ensures back { env.new ≡ env.old }
{
    let bounds = pattern_bounds(level.alloc, &level.scope.sig, pattern, matched)?;
    let bounds = bounds.as_slice();
    env.bind(bounds)?;
    let result = compile_tree(level, known, table, env, body, notes);
    env.unbind(bounds.len());
    result
}

// The term of a formula with a quantifier. The listable sorts are worked out once for all quantifiers under this one.
#[cycle(compile)]
#[inline(never)]
fn compile_quantified(
    level: &Level<'_>,
    known: &mut Known,
    table: &mut TermTable,
    env: &mut Environment,
    quantifier: Quantifier,
    sorts: &[SortId],
    body: &Tree,
    notes: &[Notes],
) -> Result<TermId, Stop>
    requires state { IsStateAt level.now table.old known.old }
    requires ready { MayCompileAt level.now table.old env.old (Quantified quantifier sorts.now (formula_of body.now)) }
    requires noted { IsNotedAt level.now (Quantified quantifier sorts.now (formula_of body.now)) notes.now }
    ensures outcome { CompilesAt level.now table.old table.new env.old (Quantified quantifier sorts.now (formula_of body.now)) (ended result) }
    ensures waits { DefersAt level.now table.old table.new env.old (Quantified quantifier sorts.now (formula_of body.now)) result }
    ensures state { UnlessFailed result (IsStateAt level.now table.new known.new) }
    ensures unknown { WhenTooDeep result (λ call. IsUnknown known.new call) }
    ensures back { env.new ≡ env.old }
{
    if let Some(finite) = known_finite(level) {
        return compile_over(
            level, finite, known, table, env, quantifier, sorts, body, notes,
        );
    }
    let finite = Finite::new(level.alloc, &level.scope.sig)?;
    let listed = one_finite(&finite);
    let inside = Level {
        alloc: level.alloc,
        scope: level.scope,
        definitions: level.definitions,
        below: level.below,
        finite: listed,
        room: level.room,
    };
    compile_over(
        &inside, &finite, known, table, env, quantifier, sorts, body, notes,
    )
}

// The same, over the listable sorts.
#[cycle(compile)]
fn compile_over(
    level: &Level<'_>,
    finite: &Finite,
    known: &mut Known,
    table: &mut TermTable,
    env: &mut Environment,
    quantifier: Quantifier,
    sorts: &[SortId],
    body: &Tree,
    notes: &[Notes],
) -> Result<TermId, Stop>
    requires counts { AreCounts (declared_at level.now) finite.now }
    requires state { IsStateAt level.now table.old known.old }
    requires ready { MayCompileAt level.now table.old env.old (Quantified quantifier sorts.now (formula_of body.now)) }
    requires noted { IsNotedAt level.now (Quantified quantifier sorts.now (formula_of body.now)) notes.now }
    ensures outcome { CompilesAt level.now table.old table.new env.old (Quantified quantifier sorts.now (formula_of body.now)) (ended result) }
    ensures waits { DefersAt level.now table.old table.new env.old (Quantified quantifier sorts.now (formula_of body.now)) result }
    ensures state { UnlessFailed result (IsStateAt level.now table.new known.new) }
    ensures unknown { WhenTooDeep result (λ call. IsUnknown known.new call) }
    ensures back { env.new ≡ env.old }
{
    let note = first_note(notes);
    let over = Quantification {
        finite,
        quantifier,
        sorts,
        flags: note.bound(),
        body,
        notes: note.inner(),
    };
    let operator = operator_of(quantifier);
    let args = compile_choices(level, known, table, env, operator, &over)?;
    Ok(combine(level.alloc, &level.scope.sig, table, operator, args)?)
}

// The terms of the body for all choices of values, in order.
#[cycle(compile)]
fn compile_choices(
    level: &Level<'_>,
    known: &mut Known,
    table: &mut TermTable,
    env: &mut Environment,
    operator: Operator,
    over: &Quantification<'_>,
) -> Result<Args, Stop>
    requires operator { operator ≡ operator_of over.now.quantifier }
    requires over { IsOverAt level.now over.now }
    requires state { IsStateAt level.now table.old known.old }
    requires ready { MayCompileAt level.now table.old env.old (quantified over.now) }
    requires all { MayCompileAllAt level.now table.old env.old operator (all_chosen_for level.now over.now) }
    requires noted { IsNotedAt level.now (formula_of over.now.body.now) over.now.notes.now }
    ensures outcome { CompilesAllAt level.now table.old table.new env.old operator (all_chosen_for level.now over.now) (ended result) }
    ensures waits { DefersAllAt level.now table.old table.new env.old operator (all_chosen_for level.now over.now) result }
    ensures state { UnlessFailed result (IsStateAt level.now table.new known.new) }
    ensures unknown { WhenTooDeep result (λ call. IsUnknown known.new call) }
    ensures back { env.new ≡ env.old }
{
    let mut values = no_value_terms(level.alloc);
    let mut args = Args::new(level.alloc);
    let mut lead = None;
    let count = choices_over(level, over);
    for k in 0..count {
        let before = args.as_slice();
        let term = compile_choice_of(level, known, table, env, over, &mut values, before, k)?;
        let next = follow(
            &level.scope.sig,
            table,
            operator,
            lead,
            term,
            k + 1 == count,
        )?;
        args.push(term)?;
        lead = Some(next);
    }
    Ok(args)
}

// The term of the body for the choice with this number: that of an earlier one which has the same values for the variables
// that occur, where there is one.
#[cycle(compile)]
fn compile_choice_of(
    level: &Level<'_>,
    known: &mut Known,
    table: &mut TermTable,
    env: &mut Environment,
    over: &Quantification<'_>,
    values: &mut ValueTerms,
    before: &[TermId],
    k: u64,
) -> Result<TermId, Stop>
    requires over { IsOverAt level.now over.now }
    requires values { AreValueTerms (declared_at level.now) table.old values.old }
    requires state { IsStateAt level.now table.old known.old }
    requires there { k < length (choices_of (declared_at level.now) over.now.sorts.now) }
    requires ready { MayCompileAt level.now table.old env.old (quantified over.now) }
    requires before { AreChosenAt level.now table.old env.old over.now k before.now }
    requires noted { IsNotedAt level.now (formula_of over.now.body.now) over.now.notes.now }
    ensures outcome { (vs : List ClosedValue) → IsChoiceAt level.now over.now k vs
        → CompilesAt level.now table.old table.new env.old (chosen_for over.now vs) (ended result) }
    ensures waits { (vs : List ClosedValue) → IsChoiceAt level.now over.now k vs
        → DefersAt level.now table.old table.new env.old (chosen_for over.now vs) result }
    ensures values { IfOk result (λ u. AreValueTerms (declared_at level.now) table.new values.new) }
    ensures state { UnlessFailed result (IsStateAt level.now table.new known.new) }
    ensures unknown { WhenTooDeep result (λ call. IsUnknown known.new call) }
    ensures back { env.new ≡ env.old }
{
    let first = over.finite.first_like(over.sorts, over.flags, k);
    if first < k {
        return Ok(earlier_term(before, first as usize));
    }
    compile_choice_anew(level, known, table, env, over, values, k)
}

// The term of the body for the choice with this number. The values of variables that occur come before it.
#[cycle(compile)]
#[inline(never)]
fn compile_choice_anew(
    level: &Level<'_>,
    known: &mut Known,
    table: &mut TermTable,
    env: &mut Environment,
    over: &Quantification<'_>,
    values: &mut ValueTerms,
    k: u64,
) -> Result<TermId, Stop>
    requires over { IsOverAt level.now over.now }
    requires values { AreValueTerms (declared_at level.now) table.old values.old }
    requires state { IsStateAt level.now table.old known.old }
    requires there { k < length (choices_of (declared_at level.now) over.now.sorts.now) }
    requires ready { (vs : List ClosedValue) → IsChoiceAt level.now over.now k vs → MayCompileAt level.now table.old env.old (chosen_for over.now vs) }
    requires noted { IsNotedAt level.now (formula_of over.now.body.now) over.now.notes.now }
    ensures outcome { (vs : List ClosedValue) → IsChoiceAt level.now over.now k vs
        → CompilesAt level.now table.old table.new env.old (chosen_for over.now vs) (ended result) }
    ensures waits { (vs : List ClosedValue) → IsChoiceAt level.now over.now k vs
        → DefersAt level.now table.old table.new env.old (chosen_for over.now vs) result }
    ensures values { IfOk result (λ u. AreValueTerms (declared_at level.now) table.new values.new) }
    ensures state { UnlessFailed result (IsStateAt level.now table.new known.new) }
    ensures unknown { WhenTooDeep result (λ call. IsUnknown known.new call) }
    ensures back { env.new ≡ env.old }
{
    let bounds = chosen_bounds(level, over, table, values, k)?;
    let bounds = bounds.as_slice();
    env.bind(bounds)?;
    let result = compile_tree(level, known, table, env, over.body, over.notes);
    env.unbind(bounds.len());
    result
}

// The first of the notes.
fn first_note(notes: &[Notes]) -> &Notes
    requires some { 0 < length notes.now }
    ensures value { slice_get notes.now 0 ≡ Some result.now }
{
    &notes[0]
}

// The notes after the first.
fn later_notes(notes: &[Notes]) -> &[Notes]
    ensures value { result.now ≡ drop 1 notes.now }
{
    match notes {
        [] => notes,
        [_, others @ ..] => others,
    }
}

// A flag alone.
fn one_flag(flag: &bool) -> &[bool]
    ensures value { result.now ≡ flag.now ∷ [] }
{
    slice::from_ref(flag)
}

// A formula alone.
fn one_tree(tree: &Tree) -> &[Tree]
    ensures value { formulas_of_trees result.now ≡ with_formula (formula_of tree.now) no_formulas }
{
    slice::from_ref(tree)
}

// The first of the flags.
fn first_flag(flags: &[bool]) -> bool
    requires some { 0 < length flags.now }
    ensures value { slice_get flags.now 0 ≡ Some result }
{
    flags[0]
}

// The flags after the first.
fn later_flags(flags: &[bool]) -> &[bool]
    requires some { 0 < length flags.now }
    ensures value { result.now ≡ drop 1 flags.now }
{
    &flags[1..]
}

// The term of an earlier choice.
fn earlier_term(terms: &[TermId], k: usize) -> TermId
    requires inside { k < length terms.now }
    ensures value { slice_get terms.now k ≡ Some result }
{
    terms[k]
}

// What stands at an index.
fn bound_at(bounds: &[Bound], i: usize) -> Bound
    requires inside { i < length bounds.now }
    ensures value { slice_get bounds.now i ≡ Some result }
{
    bounds[i]
}

// The term of what is bound.
fn of_bound(sig: &Signature, table: &mut TermTable, bound: Bound) -> Result<TermId, TermError>
    requires kept { IsSoundTable sig.now table.old }
    requires there { IsThere bound }
    requires bound { (tree : CoreTree) × (sort : SortId) × IsBound table.old bound tree × HasTreeSort sig.now tree sort }
    ensures core { (tree : CoreTree) → IsBound table.old bound tree → IfOk result (λ t. Stands table.new t tree) }
    ensures effect { (tree : CoreTree) (allowed : List CoreTree) → IsBound table.old bound tree
        → Contains allowed tree
        → Effect sig.now allowed table.old table.new (IsErrOf result TermError.Full) }
{
    match bound {
        Bound::Term(t) => Ok(t),
        Bound::Field(s, t) => make(sig, table, Core::Sel(s, t)),
        Bound::Absent => unreachable!(),
    }
}
