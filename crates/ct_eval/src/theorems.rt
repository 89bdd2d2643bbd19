//! Theorems about evaluation. Each is the contract of a function that does nothing.
ghost use Rattle.std.specs.Prelude.{◌≡◌, ◌↔◌, ◌<◌, true, false, not, List, [], ◌∷◌, ◌++◌, length};
ghost use Rattle.std.specs.Prelude.{map, Option, Some, slice_get, if◌then◌else◌};
ghost use Rattle.std.specs.List.{AllZip, AllByRecursion, list_all, list_any};
ghost use Rattle.ct_sorts.specs.declared.ids.CtorId.{CtorId};
ghost use Rattle.ct_sorts.specs.declared.ids.SelId.{SelId};
ghost use Rattle.ct_sorts.specs.declared.ids.SortId.{SortId};
ghost use Rattle.ct_sorts.specs.Declarations.{Declarations, Selector};
ghost use Rattle.ct_sorts.specs.Consistent.{IsConsistent};
ghost use Rattle.ct_values.specs.declared.node.Head.TheVariants as heads;
ghost use Rattle.ct_values.specs.Graph.{Nodes, IsClosed};
ghost use Rattle.ct_values.specs.Value.{Value, IsOver};
ghost use Rattle.ct_values.specs.Agreement.{point, head, children_of, AgreeAlways};
ghost use Rattle.ct_values.specs.TruthValue.{truth, is_built};
ghost use Rattle.ct_values.specs.ValueSort.{HasValueSort};
ghost use Rattle.ct_terms.specs.declared.ids.TermId.{TermId};
ghost use Rattle.ct_terms.specs.declared.term.Core.{Core};
ghost use Rattle.ct_terms.specs.declared.term.Core.TheVariants.{Con, Sel, Test, Eq, Not, And, Or};
ghost use Rattle.ct_terms.specs.declared.term.Core.TheVariants.{Iff, Ite};
ghost use Rattle.ct_terms.specs.Terms.{Terms, IsOfSort, IsBoolean, AreSorted, AreOrdered};
ghost use Rattle.ct_terms.specs.CoreTree.{term_at};
ghost use Rattle.ct_terms.specs.Literal.{literal_of};
ghost use Rattle.ct_terms.specs.Clause.{literal_value};
ghost use Rattle.ct_eval.specs.declared.interp.Table.{Table};
ghost use Rattle.ct_eval.specs.declared.interp.Interp.{Interp};
ghost use Rattle.ct_eval.specs.Interpretation.{IsProper};
ghost use Rattle.ct_eval.specs.LookUp.{look_up};
ghost use Rattle.ct_eval.specs.Evaluation.{table_value, select, value_of, core_value};
ghost use Rattle.ct_eval.specs.TreeValue.{tree_value};
ghost use Rattle.ct_eval.specs.Congruence.{AreCongruent, HaveOneValue};
ghost use Rattle.ct_eval.specs.Appended.{IsTableOver, IsClosedInterp, with_nodes};
ghost use Rattle.ct_eval.specs.Truth.{truth_value};

use ct_sorts::structure;
use ct_values::{agreement, boolean_values, fitting_graphs, longer_graphs, well_sorted_values};

/// The theorems on evaluation. It does nothing: a proof that needs them calls it.
pub fn evaluation()
    // A term means what its layer means over the values of the terms under it.
    ensures unfolds { (d : Declarations) (i : Interp) (terms : Terms) (t : TermId) (core : Core)
        (sort : SortId)
        → AreOrdered terms
        → slice_get terms t.0 ≡ Some (core, sort)
        → value_of d i terms t ≡ core_value d i (value_of d i terms) core }

    // Terms after those of an ordered table change nothing for its terms.
    ensures longer { (d : Declarations) (i : Interp) (terms more : Terms) (t : TermId)
        → AreOrdered (terms ++ more)
        → t.0 < length terms
        → value_of d i (terms ++ more) t ≡ value_of d i terms t }

    // The value of a term is over the graph of the interpretation.
    ensures over { (d : Declarations) (i : Interp) (terms : Terms) (t : TermId)
        → IsConsistent d
        → IsProper d i
        → AreOrdered terms
        → AreSorted d terms
        → IsOver i.graph (value_of d i terms t) }

    // It has the sort of the term.
    ensures sorted { (d : Declarations) (i : Interp) (terms : Terms) (t : TermId) (sort : SortId)
        → IsConsistent d
        → IsProper d i
        → AreOrdered terms
        → AreSorted d terms
        → IsOfSort terms t sort
        → HasValueSort d i.graph (value_of d i terms t) sort }

    // That of a Boolean term is equal to its truth value.
    ensures boolean { (d : Declarations) (i : Interp) (terms : Terms) (t : TermId)
        → IsConsistent d
        → IsProper d i
        → AreOrdered terms
        → AreSorted d terms
        → IsBoolean terms t
        → AgreeAlways (point i.graph (value_of d i terms t))
        (point i.graph (truth (truth_value d i terms t))) }

    // The truth value of a term is that of its literal.
    ensures literals { (d : Declarations) (i : Interp) (terms : Terms) (t : TermId)
        → AreOrdered terms
        → truth_value d i terms t ≡ literal_value (λ k. truth_value d i terms (record { 0 = k }))
        (literal_of terms t) }
{
    well_sorted_values();
    boolean_values();
}

/// What is the same evaluates to the same. It does nothing: a proof that needs these theorems calls
/// it.
pub fn congruence()
    // A table gives one node for arguments that are the same.
    ensures look_up { (g : Nodes) (table : Table) (vs ws : List Value)
        → IsClosed g
        → AllZip AgreeAlways (map (point g) vs) (map (point g) ws)
        → look_up g table vs ≡ look_up g table ws }

    // A selector gives the same of values that are the same, and a test one answer.
    ensures selector { (i : Interp) (s : SelId) (selector : Option Selector) (v w : Value)
        → IsClosed i.graph
        → AgreeAlways (point i.graph v) (point i.graph w)
        → AgreeAlways (point i.graph (select i s selector v))
        (point i.graph (select i s selector w)) }
    ensures test { (g h : Nodes) (c : CtorId) (v w : Value)
        → AgreeAlways (point g v) (point h w)
        → is_built g c v ≡ is_built h c w }

    // One layer of terms with one head over terms whose values are the same gives the same, and
    // so do such terms.
    ensures core { (d : Declarations) (i : Interp) (value other : TermId → Value) (core more : Core)
        → IsClosed i.graph
        → AreCongruent (HaveOneValue i value other) core more
        → AgreeAlways (point i.graph (core_value d i value core))
        (point i.graph (core_value d i other more)) }
    ensures terms { (d : Declarations) (i : Interp) (terms : Terms) (t u : TermId)
        (core more : Core) (r s : SortId)
        → IsClosed i.graph
        → AreOrdered terms
        → slice_get terms t.0 ≡ Some (core, r)
        → slice_get terms u.0 ≡ Some (more, s)
        → AreCongruent (HaveOneValue i (value_of d i terms) (value_of d i terms)) core more
        → HaveOneValue i (value_of d i terms) (value_of d i terms) t u }

    // Terms whose values are the same have one truth value.
    ensures truth { (d : Declarations) (i : Interp) (terms : Terms) (t u : TermId)
        → HaveOneValue i (value_of d i terms) (value_of d i terms) t u
        → truth_value d i terms t ≡ truth_value d i terms u }
{
    agreement();
}

/// When each form of Boolean term is true. It does nothing: a proof that needs these theorems calls
/// it.
pub fn truth_values()
    ensures test { (d : Declarations) (i : Interp) (terms : Terms) (t a : TermId) (c : CtorId)
        (s : SortId)
        → AreOrdered terms
        → slice_get terms t.0 ≡ Some (Test c a, s)
        → truth_value d i terms t ≡ is_built i.graph c (value_of d i terms a) }
    ensures equality { (d : Declarations) (i : Interp) (terms : Terms) (t a b : TermId) (s : SortId)
        → IsClosed i.graph
        → AreOrdered terms
        → slice_get terms t.0 ≡ Some (Eq a b, s)
        → (truth_value d i terms t ≡ true)
        ↔ HaveOneValue i (value_of d i terms) (value_of d i terms) a b }
    ensures negation { (d : Declarations) (i : Interp) (terms : Terms) (t a : TermId) (s : SortId)
        → AreOrdered terms
        → slice_get terms t.0 ≡ Some (Not a, s)
        → truth_value d i terms t ≡ not (truth_value d i terms a) }
    ensures conjunction { (d : Declarations) (i : Interp) (terms : Terms) (t : TermId)
        (args : List TermId) (s : SortId)
        → AreOrdered terms
        → slice_get terms t.0 ≡ Some (And args, s)
        → truth_value d i terms t ≡ list_all (truth_value d i terms) args }
    ensures disjunction { (d : Declarations) (i : Interp) (terms : Terms) (t : TermId)
        (args : List TermId) (s : SortId)
        → AreOrdered terms
        → slice_get terms t.0 ≡ Some (Or args, s)
        → truth_value d i terms t ≡ list_any (truth_value d i terms) args }
    ensures equivalence { (d : Declarations) (i : Interp) (terms : Terms) (t a b : TermId)
        (s : SortId)
        → AreOrdered terms
        → slice_get terms t.0 ≡ Some (Iff a b, s)
        → (truth_value d i terms t ≡ true) ↔ (truth_value d i terms a ≡ truth_value d i terms b) }
    ensures choice { (d : Declarations) (i : Interp) (terms : Terms) (t c a b : TermId) (s : SortId)
        → AreOrdered terms
        → slice_get terms t.0 ≡ Some (Ite c a b, s)
        → value_of d i terms t
        ≡ (if truth_value d i terms c then value_of d i terms a else value_of d i terms b) }
{
    agreement();
}

/// The values of constructors and of selectors. It does nothing: a proof that needs these theorems
/// calls it.
pub fn constructor_terms()
    // A constructor's value has its head, and its arguments' values as children.
    ensures head { (d : Declarations) (i : Interp) (terms : Terms) (t : TermId) (c : CtorId)
        (args : List TermId) (s : SortId)
        → AreOrdered terms
        → slice_get terms t.0 ≡ Some (Con c args, s)
        → head (point i.graph (value_of d i terms t)) ≡ Some (heads.Con c) }
    ensures children { (d : Declarations) (i : Interp) (terms : Terms) (t : TermId) (c : CtorId)
        (args : List TermId) (s : SortId)
        → AreOrdered terms
        → slice_get terms t.0 ≡ Some (Con c args, s)
        → children_of i.graph (value_of d i terms t) ≡ map (value_of d i terms) args }

    // Of a value of its constructor a selector gives the child at its index, which is there, and
    // else what its table gives.
    ensures selected { (d : Declarations) (i : Interp) (terms : Terms) (t a : TermId) (s : SelId)
        (selector : Selector) (r : SortId)
        → IsConsistent d
        → IsProper d i
        → AreOrdered terms
        → AreSorted d terms
        → slice_get terms t.0 ≡ Some (Sel s a, r)
        → slice_get d.sels s.0 ≡ Some selector
        → is_built i.graph selector.ctor (value_of d i terms a) ≡ true
        → slice_get (children_of i.graph (value_of d i terms a)) selector.place
        ≡ Some (value_of d i terms t) }
    ensures wrongly_applied { (d : Declarations) (i : Interp) (terms : Terms) (t a : TermId) (s : SelId)
        (selector : Selector) (r : SortId)
        → AreOrdered terms
        → slice_get terms t.0 ≡ Some (Sel s a, r)
        → slice_get d.sels s.0 ≡ Some selector
        → is_built i.graph selector.ctor (value_of d i terms a) ≡ false
        → value_of d i terms t ≡ table_value i (slice_get i.offs s.0) (value_of d i terms a ∷ []) }

    // Where the term is a constructor's application itself, it is the argument at its index.
    ensures argument { (d : Declarations) (i : Interp) (terms : Terms) (t a b : TermId)
        (s : SelId) (selector : Selector) (args : List TermId) (q r : SortId)
        → AreOrdered terms
        → slice_get terms t.0 ≡ Some (Sel s a, r)
        → slice_get d.sels s.0 ≡ Some selector
        → slice_get terms a.0 ≡ Some (Con selector.ctor args, q)
        → slice_get args selector.place ≡ Some b
        → value_of d i terms t ≡ value_of d i terms b }
{
    well_sorted_values();
}

/// Nodes after those of the graph of an interpretation change nothing. It does nothing: a proof
/// that needs these theorems calls it.
pub fn appended_nodes()
    // The tables of an interpretation of these declarations are over its graph, which is closed.
    ensures closed { (d : Declarations) (i : Interp)
        → IsConsistent d
        → IsProper d i
        → IsClosedInterp i }
    ensures look_up { (g more : Nodes) (table : Table) (vs : List Value)
        → IsClosed g
        → IsClosed (g ++ more)
        → IsTableOver g table
        → AllByRecursion (IsOver g) vs
        → look_up (g ++ more) table vs ≡ look_up g table vs }
    ensures over { (d : Declarations) (i : Interp) (terms : Terms) (t : TermId)
        → IsClosedInterp i
        → IsOver i.graph (value_of d i terms t) }
    ensures value { (d : Declarations) (i : Interp) (more : Nodes) (terms : Terms) (t : TermId)
        → IsClosedInterp i
        → IsClosed (i.graph ++ more)
        → value_of d (with_nodes i more) terms t ≡ value_of d i terms t }
    ensures truth { (d : Declarations) (i : Interp) (more : Nodes) (terms : Terms) (t : TermId)
        → IsClosedInterp i
        → IsClosed (i.graph ++ more)
        → truth_value d (with_nodes i more) terms t ≡ truth_value d i terms t }
{
    structure();
    agreement();
    longer_graphs();
    fitting_graphs();
}

/// The theorem on values of terms as trees. It does nothing: a proof that needs it calls it.
pub fn values_of_trees()
    // The value of a term of a table is that of its tree: it does not depend on the table.
    ensures tree { (d : Declarations) (i : Interp) (terms : Terms) (t : TermId)
        → value_of d i terms t ≡ tree_value d i (term_at terms t) }
{}
