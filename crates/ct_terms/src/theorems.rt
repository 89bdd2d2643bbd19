//! Theorems about the definitions alone.
ghost use Rattle.std.specs.Prelude.{◌≡◌, ◌<◌, ℕ, Bool, List, ◌++◌, length, Contains};
ghost use Rattle.ct_sorts.specs.declared.ids.SortId.{SortId};
ghost use Rattle.ct_sorts.specs.Declarations.{Declarations, Function, with_function};
ghost use Rattle.ct_terms.specs.declared.term.Core.{Core};
ghost use Rattle.ct_terms.specs.declared.ids.Lit.{Lit};
ghost use Rattle.ct_terms.specs.declared.ids.TermId.{TermId};
ghost use Rattle.ct_terms.specs.Terms.{Terms, HasSort, AreSorted, AreOrdered};
ghost use Rattle.ct_terms.specs.Literal.{literal_of};
ghost use Rattle.ct_sorts.specs.Grown.{Extends};
ghost use Rattle.ct_terms.specs.Clause.{Clause, HoldsUnder};
ghost use Rattle.ct_terms.specs.Propagation.{Rup, IsNumbered, IsUnit};

/// Theorems on sorts of terms. The function does nothing.
///
/// A term has one sort at most. It keeps its sort when the table grows, and with more declarations;
/// so a table stays well sorted, as with one function more. Its literal stays when the table grows,
/// too.
pub fn one_lasting_sort()
    ensures one { (d : Declarations) (table : Terms) (core : Core) (r s : SortId) → HasSort d table core r → HasSort d table core s → r ≡ s }
    ensures longer { (d : Declarations) (table more : Terms) (core : Core) (s : SortId) → HasSort d table core s → HasSort d (table ++ more) core s }
    ensures lasting { (later earlier : Declarations) (table : Terms) (core : Core) (s : SortId) → Extends later earlier
        → HasSort earlier table core s → HasSort later table core s }
    ensures table { (later earlier : Declarations) (table : Terms) → Extends later earlier → AreSorted earlier table → AreSorted later table }
    ensures literal { (table more : Terms) (t : TermId) → AreOrdered (table ++ more) → t.0 < length table
        → literal_of (table ++ more) t ≡ literal_of table t }
    ensures declared { (d : Declarations) (f : Function) (table : Terms) → AreSorted d table → AreSorted (with_function d f) table }
{}

/// Theorems on unit propagation, for proofs about clauses. The function does nothing.
///
/// A clause that follows by hints is true wherever the clauses are that the hints name. It follows
/// by the same hints from more clauses. A clause has at most one literal that is the only one not
/// false.
pub fn propagation_is_sound()
    ensures sound { (clauses : List Clause) (hints : List ℕ) (clause : Clause) (value : ℕ → Bool) → Rup clauses hints clause
        → ((hint : ℕ) (named : Clause) → Contains hints hint → IsNumbered clauses hint named → HoldsUnder value named)
        → HoldsUnder value clause }
    ensures longer { (clauses more : List Clause) (hints : List ℕ) (clause : Clause) → Rup clauses hints clause → Rup (clauses ++ more) hints clause }
    ensures one_unit { (set : List Lit) (clause : Clause) (l k : Lit) → IsUnit set clause l → IsUnit set clause k → l ≡ k }
{}
