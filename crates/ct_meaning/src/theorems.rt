//! Theorems about the meaning of formulas and of their core terms. Each is the contract of a function that does nothing.
ghost use Rattle.std.specs.Prelude.{◌≡◌, ◌↔◌, ◌++◌, true, List, [], map, All};
ghost use Rattle.std.specs.List.{AllZip};
ghost use Rattle.ct_sorts.specs.declared.ids.SortId.{SortId};
ghost use Rattle.ct_sorts.specs.Declarations.{Declarations, bool_sort};
ghost use Rattle.ct_sorts.specs.Consistent.{IsConsistent};
ghost use Rattle.ct_sorts.specs.Grown.{Extends};
ghost use Rattle.ct_values.specs.Value.{Value};
ghost use Rattle.ct_values.specs.ValueSort.{HasValueSort};
ghost use Rattle.ct_terms.specs.declared.ids.TermId.{TermId};
ghost use Rattle.ct_terms.specs.Terms.{Terms};
ghost use Rattle.ct_terms.specs.CoreTree.{CoreTree, term_at};
ghost use Rattle.ct_terms.specs.CoreSorts.{HasTreeSort};
ghost use Rattle.ct_listing.specs.Closed.{ClosedValue, IsClosedOf, value_of as closed_value};
ghost use Rattle.ct_listing.specs.Listable.{IsListable};
ghost use Rattle.ct_formulas.specs.declared.tree.Quantifier.TheVariants.{Forall, Exists};
ghost use Rattle.ct_formulas.specs.Formula.{Formula, Quantified, bind};
ghost use Rattle.ct_formulas.specs.FormulaSorts.{IsSorted, AreSound};
ghost use Rattle.ct_formulas.specs.Compiled.{core_of};
ghost use Rattle.ct_eval.specs.declared.interp.Interp.{Interp};
ghost use Rattle.ct_eval.specs.Interpretation.{IsProper};
ghost use Rattle.ct_values.specs.TruthValue.{is_true};
ghost use Rattle.ct_eval.specs.Evaluation.{value_of};
ghost use Rattle.ct_eval.specs.TreeValue.{tree_value};
ghost use Rattle.ct_meaning.specs.Meaning.{AllTrue, eval, Agree, Means};
ghost use Rattle.ct_eval.specs.Truth.{Holds};
ghost use Rattle.ct_eval.specs.EvaluationStep.{Theorems};

use ct_formulas::formulas;
use ct_listing::listed_values;
use ct_sorts::structure;
use ct_terms::core_trees;
use ct_values::{
    agreement, boolean_values, fitting_graphs, representative_nodes, well_sorted_values,
};

/// Theorems on the meaning of formulas and of their core terms. The function does nothing.
pub fn meanings()
    // The value of a term of a table is that of its tree: it does not depend on the table.
    ensures tree { (d : Declarations) (i : Interp) (terms : Terms) (t : TermId)
        → value_of d i terms t ≡ tree_value d i (term_at terms t) }

    // The value of a well-sorted tree is a value of its sort, and does not see what is declared
    // later.
    ensures tree_sorted { (d : Declarations) (i : Interp) (t : CoreTree) (sort : SortId)
        → IsConsistent d
        → IsProper d i
        → HasTreeSort d t sort
        → HasValueSort d i.graph (tree_value d i t) sort }
    ensures tree_lasting { (later earlier : Declarations) (i : Interp) (t : CoreTree)
        (sort : SortId)
        → Extends later earlier
        → HasTreeSort earlier t sort
        → tree_value later i t ≡ tree_value earlier i t }

    // Of two values that are the same both are `true`, or neither is.
    ensures truth { (d : Declarations) (i : Interp) (v w : Value)
        → IsConsistent d
        → IsProper d i
        → Agree i v w
        → is_true i.graph v ≡ is_true i.graph w }

    // The meaning of a well-sorted formula is a value of its sort.
    ensures sorted { (d : Declarations) (i : Interp) (bodies : List Formula) (env : List Value)
        (sorts : List SortId) (t : Formula) (sort : SortId)
        → IsConsistent d
        → IsProper d i
        → AreSound d bodies
        → AllZip (HasValueSort d i.graph) env sorts
        → IsSorted d sorts t sort
        → HasValueSort d i.graph (eval d i bodies env t) sort }

    // It is the same where variables stand for values that are the same.
    ensures same { (d : Declarations) (i : Interp) (bodies : List Formula)
        (env others : List Value) (t : Formula)
        → IsConsistent d
        → IsProper d i
        → AllZip (Agree i) env others
        → Agree i (eval d i bodies env t) (eval d i bodies others t) }

    // It does not see what is declared and defined later.
    ensures longer { (later earlier : Declarations) (i : Interp) (bodies more : List Formula)
        (env : List Value) (sorts : List SortId) (t : Formula) (sort : SortId)
        → IsConsistent earlier
        → Extends later earlier
        → AreSound earlier bodies
        → IsSorted earlier sorts t sort
        → eval later i (bodies ++ more) env t ≡ eval earlier i bodies env t }

    // A formula with a quantifier is true exactly where its body is true with all values of its variables' listable sorts,
    // or with some: with all, or some, closed values, each of which is bound as the value that it is.
    ensures for_all { (d : Declarations) (i : Interp) (bodies : List Formula) (env : List Value)
        (sorts : List SortId) (t : Formula)
        → IsConsistent d
        → All (IsListable d) sorts
        → (is_true i.graph (eval d i bodies env (Quantified Forall sorts t)) ≡ true)
        ↔ ((vs : List ClosedValue) → AllZip (IsClosedOf d) vs sorts
        → is_true i.graph (eval d i bodies (bind (map closed_value vs) env) t) ≡ true) }
    ensures for_some { (d : Declarations) (i : Interp) (bodies : List Formula) (env : List Value)
        (sorts : List SortId) (t : Formula)
        → IsConsistent d
        → All (IsListable d) sorts
        → (is_true i.graph (eval d i bodies env (Quantified Exists sorts t)) ≡ true)
        ↔ ((vs : List ClosedValue) × AllZip (IsClosedOf d) vs sorts
        × (is_true i.graph (eval d i bodies (bind (map closed_value vs) env) t) ≡ true)) }

    // The core term of a well-sorted formula means the same value as the formula, where each
    // variable stands for a term and for a value that the term means.
    ensures compiled { (d : Declarations) (i : Interp) (bodies : List Formula)
        (terms : List CoreTree) (env : List Value)
        (sorts : List SortId) (t : Formula) (sort : SortId)
        → IsConsistent d
        → IsProper d i
        → AreSound d bodies
        → AllZip (HasTreeSort d) terms sorts
        → AllZip (HasValueSort d i.graph) env sorts
        → AllZip (Means d i) terms env
        → IsSorted d sorts t sort
        → Means d i (core_of d bodies terms t) (eval d i bodies env t) }

    // So core terms that stand in a table are true in an interpretation where the assertions are
    // whose core terms they are, one for one.
    ensures assertions { (d : Declarations) (i : Interp) (bodies : List Formula) (terms : Terms)
        (ids : List TermId) (asserts : List Formula)
        → IsConsistent d
        → IsProper d i
        → AreSound d bodies
        → All (λ t. IsSorted d [] t bool_sort) asserts
        → AllZip (λ a t. term_at terms a ≡ core_of d bodies [] t) ids asserts
        → Holds d i terms ids ↔ AllTrue d i bodies asserts }
{
    structure();
    core_trees();
    formulas();
    fitting_graphs();
    well_sorted_values();
    boolean_values();
    listed_values();
    value_theorems();
}

// The theorems on values that these rest on.
fn value_theorems()
    ensures theorems { Theorems }
{
    agreement();
    representative_nodes();
}
