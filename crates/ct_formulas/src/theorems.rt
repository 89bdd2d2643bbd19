//! Theorems about formulas and their core terms. Each is the contract of a function that does nothing.
ghost use Rattle.std.specs.Prelude.{◌≡◌, ◌≤◌, ℕ, Bool, true, List, [], ◌∷◌, ◌++◌, Contains, length, take, Some, slice_get};
ghost use Rattle.std.specs.List.{AllZip};
ghost use Rattle.ct_sorts.specs.declared.ids.CtorId.{CtorId};
ghost use Rattle.ct_sorts.specs.declared.ids.DefId.{DefId};
ghost use Rattle.ct_sorts.specs.declared.ids.SortId.{SortId};
ghost use Rattle.ct_sorts.specs.Declarations.{Declarations, Constructor, Function, with_definition};
ghost use Rattle.ct_sorts.specs.Consistent.{IsConsistent};
ghost use Rattle.ct_sorts.specs.Grown.{Extends};
ghost use Rattle.ct_terms.specs.CoreTree.{CoreTree, subtrees, no_term};
ghost use Rattle.ct_terms.specs.CoreSorts.{AreFieldSorts, HasTreeSort};
ghost use Rattle.ct_formulas.specs.Formula.{Formula, MentionsBelow, bind};
ghost use Rattle.ct_formulas.specs.FormulaSorts.{IsSorted, AreSound, cut_definitions};
ghost use Rattle.ct_formulas.specs.Calls.{calls_below};
ghost use Rattle.ct_terms.specs.Fields.{fields_of};
ghost use Rattle.ct_formulas.specs.Compiled.{compiled, core_of, GiveSorted};
ghost use Rattle.ct_formulas.specs.Occurrence.{occurs, uses_below, occurs_in, AreSameAt, UseSame, GiveUsed};

use ct_listing::listed_values;
use ct_sorts::structure;

/// Theorems on formulas and their core terms. The function does nothing.
pub fn formulas()
    // A well-sorted formula names declared definitions alone.
    ensures mentions { (d : Declarations) (env : List SortId) (t : Formula) (sort : SortId)
        → IsSorted d env t sort
        → MentionsBelow (length d.definitions) t }

    // The fields of a term of a constructor have the sorts of the constructor's fields.
    ensures fields { (d : Declarations) (c : CtorId) (ctor : Constructor) (t : CoreTree)
        (sorts : List SortId)
        → IsConsistent d
        → slice_get d.ctors c.0 ≡ Some ctor
        → HasTreeSort d t ctor.sort
        → AreFieldSorts d ctor.sels sorts
        → AllZip (HasTreeSort d) (fields_of d c t) sorts }

    // The core term of a well-sorted formula has the sort of the formula, where variables and
    // definitions stand for terms of their sorts; and so definitions do that are sound.
    ensures compiled { (d : Declarations) (n : ℕ) (call : DefId → List CoreTree → CoreTree)
        (env : List CoreTree) (sorts : List SortId) (t : Formula) (sort : SortId)
        → IsConsistent d
        → GiveSorted d n call
        → AllZip (HasTreeSort d) env sorts
        → MentionsBelow n t
        → IsSorted d sorts t sort
        → HasTreeSort d (compiled d call env t) sort }
    ensures calls { (d : Declarations) (bodies : List Formula) (n : ℕ)
        → IsConsistent d
        → AreSound d bodies
        → GiveSorted d n (calls_below (compiled d) no_term bodies n) }

    // The core term of a well-sorted formula has the sort of the formula, where variables stand for
    // terms of their sorts.
    ensures sorted { (d : Declarations) (bodies : List Formula) (env : List CoreTree)
        (sorts : List SortId) (t : Formula) (sort : SortId)
        → IsConsistent d
        → AreSound d bodies
        → AllZip (HasTreeSort d) env sorts
        → IsSorted d sorts t sort
        → HasTreeSort d (core_of d bodies env t) sort }

    // The core term does not see what is declared and defined later.
    ensures longer { (later earlier : Declarations) (bodies more : List Formula)
        (env : List CoreTree) (sorts : List SortId) (t : Formula) (sort : SortId)
        → IsConsistent earlier
        → Extends later earlier
        → AreSound earlier bodies
        → AllZip (HasTreeSort earlier) env sorts
        → IsSorted earlier sorts t sort
        → core_of later (bodies ++ more) env t ≡ core_of earlier bodies env t }

    // The core term depends on the terms of the variables that occur in it alone; and so does what
    // definitions give.
    ensures occurring { (d : Declarations) (uses : DefId → ℕ → Bool)
        (call : DefId → List CoreTree → CoreTree) (t : Formula) (env others : List CoreTree)
        → UseSame uses call
        → AreSameAt (occurs d uses t) env others
        → compiled d call env t ≡ compiled d call others t }
    ensures used { (d : Declarations) (bodies : List Formula) (n : ℕ)
        → UseSame (uses_below d bodies n) (calls_below (compiled d) no_term bodies n) }
    ensures same { (d : Declarations) (bodies : List Formula) (t : Formula)
        (env others : List CoreTree)
        → AreSameAt (occurs_in d bodies t) env others
        → core_of d bodies env t ≡ core_of d bodies others t }

    // And the core term has as subterms the terms of all variables that occur in it; so does what
    // definitions give.
    ensures occurring_subterm { (d : Declarations) (uses : DefId → ℕ → Bool)
        (call : DefId → List CoreTree → CoreTree) (env : List CoreTree) (sorts : List SortId)
        (t : Formula) (sort : SortId) (i : ℕ) (u : CoreTree)
        → GiveUsed uses call
        → IsSorted d sorts t sort
        → occurs d uses t i ≡ true
        → slice_get env i ≡ Some u
        → Contains (subtrees (compiled d call env t)) u }
    ensures used_subterm { (d : Declarations) (bodies : List Formula) (n : ℕ)
        → AreSound d bodies
        → GiveUsed (uses_below d bodies n) (calls_below (compiled d) no_term bodies n) }
    ensures occurs { (d : Declarations) (bodies : List Formula) (env : List CoreTree)
        (sorts : List SortId) (t : Formula) (sort : SortId) (i : ℕ) (u : CoreTree)
        → AreSound d bodies
        → IsSorted d sorts t sort
        → occurs_in d bodies t i ≡ true
        → slice_get env i ≡ Some u
        → Contains (subtrees (core_of d bodies env t)) u }
{
    structure();
    listed_values();
}

/// Theorems on scopes that grow and are cut back; a scope is declarations with a body for each definition. The function
/// does nothing.
pub fn scopes()
    // A formula that names definitions below a number names them below each greater one.
    ensures mentions_more { (m n : ℕ) (t : Formula)
        → m ≤ n
        → MentionsBelow m t
        → MentionsBelow n t }

    // A well-sorted formula stays so with more declarations, and definitions stay sound. Where one
    // `match` has a case for each constructor, no constructor is added to the sort.
    ensures sorted_lasting { (later earlier : Declarations) (env : List SortId) (t : Formula)
        (sort : SortId)
        → IsConsistent later
        → IsConsistent earlier
        → Extends later earlier
        → IsSorted earlier env t sort
        → IsSorted later env t sort }
    ensures sound_lasting { (later earlier : Declarations) (bodies : List Formula)
        → IsConsistent later
        → IsConsistent earlier
        → Extends later earlier
        → later.definitions ≡ earlier.definitions
        → AreSound earlier bodies
        → AreSound later bodies }

    // Definitions stay sound with one more, whose body is of its result over its parameters; and
    // so do the first of them alone.
    ensures sound_with { (d : Declarations) (f : Function) (bodies : List Formula) (body : Formula)
        → AreSound d bodies
        → IsSorted d (bind f.args []) body f.result
        → AreSound (with_definition d f) (bodies ++ body ∷ []) }
    ensures sound_cut { (d : Declarations) (n : ℕ) (bodies : List Formula)
        → AreSound d bodies
        → AreSound (cut_definitions d n) (take n bodies) }
{
    structure();
    listed_values();
}
