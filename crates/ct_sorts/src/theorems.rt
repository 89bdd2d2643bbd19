//! Theorems about declarations. Each is the contract of a function that does nothing.
ghost use Rattle.std.specs.Prelude.{◌≡◌, ◌+◌, ℕ, List, Option, Some, slice_get};
ghost use Rattle.ct_generics.specs.declared.decl.SortDecl.{SortDecl};
ghost use Rattle.ct_generics.specs.declared.expr.SortExpr.{SortExpr};
ghost use Rattle.ct_generics.specs.Declarations.{Head};
ghost use Rattle.ct_sorts.specs.declared.ids.Declared.{Declared};
ghost use Rattle.ct_sorts.specs.declared.ids.Kind.{Kind};
ghost use Rattle.ct_sorts.specs.declared.ids.SortId.{SortId};
ghost use Rattle.ct_sorts.specs.declared.ids.Symbol.{Symbol};
ghost use Rattle.ct_sorts.specs.declared.spelling.Spelling.{Spelling};
ghost use Rattle.ct_sorts.specs.Lookup.{ResolvesTo, IsSymbol, HasOwnName, IsPlainSort, NamesSort};
ghost use Rattle.ct_sorts.specs.Declarations.{Declarations, Sort, Function, IsSort, start, with_sort, with_head, with_function, with_definition};
ghost use Rattle.ct_sorts.specs.Block.{IsWithBlock};
ghost use Rattle.ct_sorts.specs.Instances.{IsWithInstance, IsWithSorts};
ghost use Rattle.ct_sorts.specs.Synonyms.{IsWithSynonym};
ghost use Rattle.ct_sorts.specs.Consistent.{IsConsistent};
ghost use Rattle.ct_sorts.specs.Grown.{Extends};
ghost use Rattle.ct_generics.specs.Expression.{Expression};
ghost use Rattle.ct_sorts.specs.MadeAt.{IsCtorOf};
ghost use Rattle.ct_sorts.specs.Shapes.{CtorShape, shape_of};
ghost use Rattle.ct_sorts.specs.SortText.{sort_text};
ghost use Rattle.ct_sorts.specs.Marks.{CanCut, cut, lengths};
ghost use Rattle.ct_sorts.specs.Structure.{HaveOwnConstructors, AreOfTheirSorts, HaveOwnSelectors, AreOfTheirConstructors};

use ct_sexpr::written_texts;

/// The theorems on declarations that grow. It does nothing: a proof that needs them calls it.
pub fn growth()
    ensures itself { (d : Declarations) → Extends d d }
    ensures further { (last later earlier : Declarations) → Extends last later → Extends later earlier → Extends last earlier }

    // One declaration more extends those that are there, and so does an instance that comes into the list.
    ensures sort { (d : Declarations) (s : Sort) → Extends (with_sort d s) d }
    ensures head { (d : Declarations) (head : Head) (ctors : List Spelling) → Extends (with_head d head ctors) d }
    ensures block { (d later : Declarations) (kind : Kind) (decls : List SortDecl) (given : List Declared) → IsWithBlock d kind decls given later → Extends later d }
    ensures synonym { (d later : Declarations) (name : List ℕ) (params : ℕ) (body : SortExpr) → IsWithSynonym d name params body later → Extends later d }
    ensures instance { (d later : Declarations) (expr : SortExpr) (s : SortId) → IsWithInstance d expr later s → Extends later d }
    ensures sorts { (d later : Declarations) (sorts : List Expression) → IsWithSorts d sorts later → Extends later d }
    ensures function { (d : Declarations) (f : Function) → Extends (with_function d f) d }
    ensures definition { (d : Declarations) (f : Function) → Extends (with_definition d f) d }

    // All declarations of a signature extend those of the start.
    ensures from_start { (d : Declarations) → IsConsistent d → Extends d start }

    // What was added can be cut back, and what was there before is left.
    ensures can_cut { (later earlier : Declarations) → IsConsistent earlier → Extends later earlier → CanCut later (lengths earlier) }
    ensures cut { (later earlier : Declarations) → Extends later earlier → cut later (lengths earlier) ≡ earlier }
{}

/// Which constructor is of which sort, and which selector of which constructor. It does nothing: a
/// proof that needs these theorems calls it.
pub fn structure()
    ensures own_constructors { (d : Declarations) → IsConsistent d → HaveOwnConstructors d }
    ensures of_their_sorts { (d : Declarations) → IsConsistent d → AreOfTheirSorts d }
    ensures own_selectors { (d : Declarations) → IsConsistent d → HaveOwnSelectors d }
    ensures of_their_constructors { (d : Declarations) → IsConsistent d → AreOfTheirConstructors d }
{}

/// What the sorts in the list are made of: each but Bool has the constructors and selectors of the sort or generic that it is of,
/// with the numbers of the sorts of its fields, and no two sorts have one text. It does nothing: a proof that needs these
/// theorems calls it.
pub fn shapes()
    ensures constructors { (d : Declarations) (s i : ℕ) (e : Expression) (t : CtorShape) → IsConsistent d
        → slice_get d.origins (1 + s) ≡ Some e → slice_get (shape_of d.declared.heads d.spellings e).ctors i ≡ Some t → IsCtorOf d (1 + s) i t }
    ensures one_text { (d : Declarations) (s t : ℕ) (e f : Expression) → IsConsistent d
        → slice_get d.origins s ≡ Some e → slice_get d.origins t ≡ Some f
        → sort_text d.declared.heads e ≡ sort_text d.declared.heads f → s ≡ t }
{
    written_texts();
}

/// What names stand for. It does nothing: a proof that needs these theorems calls it.
pub fn naming()
    // A name stands for one symbol at most, and is the name of one sort at most.
    ensures one_symbol { (d : Declarations) (name : List ℕ) (found other : Option Symbol)
        → IsConsistent d → ResolvesTo d name found → ResolvesTo d name other → other ≡ found }
    ensures one_sort { (d : Declarations) (name : List ℕ) (s t : SortId) → IsConsistent d → NamesSort d name s → NamesSort d name t → t ≡ s }

    // What has a name is declared, and what is declared has one, but for instances with their constructors and selectors.
    ensures symbol_inside { (d : Declarations) (name : List ℕ) (symbol : Symbol)
        → ResolvesTo d name (Some symbol) → IsSymbol d symbol }
    ensures sort_inside { (d : Declarations) (name : List ℕ) (s : SortId) → IsConsistent d → NamesSort d name s → IsSort d s }
    ensures symbol_named { (d : Declarations) (symbol : Symbol) → HasOwnName d symbol
        → (name : List ℕ) × ResolvesTo d name (Some symbol) }
    ensures sort_named { (d : Declarations) (s : SortId) → IsConsistent d → IsPlainSort d s → (name : List ℕ) × NamesSort d name s }

    // Where more is declared a name stands for what it stood for.
    ensures symbol_stays { (later earlier : Declarations) (name : List ℕ) (symbol : Symbol)
        → Extends later earlier → ResolvesTo earlier name (Some symbol)
        → ResolvesTo later name (Some symbol) }
    ensures sort_stays { (later earlier : Declarations) (name : List ℕ) (s : SortId)
        → Extends later earlier → NamesSort earlier name s → NamesSort later name s }
{}
