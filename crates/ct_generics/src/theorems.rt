//! Theorems for crates above: what the graph of expressions says about them, what adding sorts preserves, and which expressions
//! are over their parameters.
ghost use Rattle.std.specs.Prelude.{◌≡◌, ℕ, List, length, ◌++◌, Ok, Some, option_map, slice_get};
ghost use Rattle.std.specs.List.{AllZip};
ghost use Rattle.ct_generics.specs.declared.decl.SortDecl.{SortDecl};
ghost use Rattle.ct_generics.specs.declared.expr.SortExpr.{SortExpr};
ghost use Rattle.ct_generics.specs.declared.generics.Generics.{Generics};
ghost use Rattle.ct_generics.specs.declared.graph.Vertex.{Vertex};
ghost use Rattle.ct_generics.specs.declared.heads.StoredHead.{StoredHead};
ghost use Rattle.ct_generics.specs.declared.kind.Kind.{Kind};
ghost use Rattle.ct_generics.specs.declared.nodes.ExprId.{ExprId};
ghost use Rattle.ct_generics.specs.declared.nodes.Node.{Node};
ghost use Rattle.ct_generics.specs.declared.sort_table.SortTable.{SortTable};
ghost use Rattle.ct_generics.specs.Add.{Adds};
ghost use Rattle.ct_generics.specs.Additions.{IsAddition};
ghost use Rattle.ct_generics.specs.Block.{heads_in, with_heads};
ghost use Rattle.ct_generics.specs.Declarations.{Declared, Head, Synonym, IsExpression, head_at};
ghost use Rattle.ct_generics.specs.Denoted.{declared_of, expression_at, sorts_of};
ghost use Rattle.ct_generics.specs.Expression.{Expression, at_own_parameters};
ghost use Rattle.ct_generics.specs.Founded.{IsFounded};
ghost use Rattle.ct_generics.specs.Nodes.{AreSingle, AreUnlike, StandFor, Stands, Stay};
ghost use Rattle.ct_generics.specs.Reach.{fields_of};
ghost use Rattle.ct_generics.specs.Reached.{IsReached, TellsOf};
ghost use Rattle.ct_generics.specs.Resolved.{resolved};
ghost use Rattle.ct_generics.specs.SortTable.{AreSorts};
ghost use Rattle.ct_generics.specs.Stored.{AreDeclared};
ghost use Rattle.ct_generics.specs.Synonyms.{with_synonym};
ghost use Rattle.ct_generics.specs.Text.{text_length};
ghost use Rattle.ct_generics.specs.WellFormed.{AreBlockParametersBelow, AreExpressions, AreParametersBelow, HaveExpressions, IsWellFormed};

/// Theorems on the graph of what expressions reach: if each vertex was made, the graph is closed and determines whether
/// each expression is well founded and whether one is mixed.
pub fn graphs()
    ensures tells { (heads : List Head) (nodes : List Node) (ids : List ExprId) (graph : List Vertex)
        (starts : List ℕ) (roots : List Expression)
        → AreSingle nodes → AreUnlike ids → length graph ≡ length ids → IsReached heads nodes ids graph starts roots
        → TellsOf heads graph starts roots }
{}

/// Theorems on adding sorts to a list of sorts: what is preserved, and that the result is determined.
pub fn additions()
    ensures keeps { (heads : List Head) (es before after : List Expression) → Adds heads es before after → IsAddition heads es before after }
    ensures same { (heads : List Head) (es before after other : List Expression) → Adds heads es before after → Adds heads es before other → after ≡ other }
{}

/// Theorems on expressions over their parameters: what a written expression stands for, and what is added to sorts;
/// that blocks and synonyms keep declarations well formed; and that expressions stay the same when more is declared.
pub fn expressions()
    ensures resolved { (d : Declared) (params : ℕ) (expr : SortExpr) (e : Expression) → IsWellFormed d → AreParametersBelow params expr → resolved d expr ≡ Ok e → IsExpression d.heads params e }
    ensures block { (d : Declared) (kind : Kind) (block : List SortDecl) (own : List Head) → IsWellFormed d → AreBlockParametersBelow block → heads_in d kind block ≡ Ok own → IsWellFormed (with_heads d own) }
    ensures synonym { (d : Declared) (s : Synonym) → IsWellFormed d → IsExpression d.heads s.params s.body → IsWellFormed (with_synonym d s) }
    ensures added { (heads : List Head) (es before after : List Expression) → HaveExpressions heads → Adds heads es before after
        → AreExpressions heads 0 es → AreExpressions heads 0 before → AreExpressions heads 0 after }
    ensures more { (heads more : List Head) (params : ℕ) (e : Expression) → IsExpression heads params e → IsExpression (heads ++ more) params e }
    ensures head { (heads more : List Head) (params : ℕ) (e : Expression) → IsExpression heads params e → head_at (heads ++ more) e ≡ head_at heads e }
    ensures fields { (heads more : List Head) (params : ℕ) (e : Expression) → IsExpression heads params e → fields_of (heads ++ more) e ≡ fields_of heads e }
    ensures text { (heads more : List Head) (params : ℕ) (e : Expression) → IsExpression heads params e → text_length (heads ++ more) e ≡ text_length heads e }
    ensures own { (heads : List Head) (h : ℕ) (head : Head) → slice_get heads h ≡ Some head → IsExpression heads head.params (at_own_parameters h head.params) }
{}

/// Theorems on well-founded sorts: each sort is well founded if each sort and generic is well founded at its own
/// parameters, and remains so when more is declared.
pub fn instances()
    ensures founded { (heads : List Head) → HaveExpressions heads
        → ((h : ℕ) (head : Head) → slice_get heads h ≡ Some head → IsFounded heads (at_own_parameters h head.params))
        → (e : Expression) → IsExpression heads 0 e → IsFounded heads e }
    ensures more { (heads more : List Head) (params : ℕ) (e : Expression) → HaveExpressions heads → IsExpression heads params e → IsFounded heads e
        → IsFounded (heads ++ more) e }
{}

/// Theorems on stored declarations and sorts: each stored form stands for exactly one value. It does nothing: a proof
/// that needs this calls it.
pub fn denotations()
    ensures expression { (nodes : List Node) (id : ExprId) (e : Expression) → Stands nodes id.0 e → expression_at nodes id ≡ e }
    ensures declared { (g : Generics) (d : Declared) → AreDeclared g d → declared_of g ≡ d }
    ensures sorts { (table : SortTable) (sorts : List Expression) → AreSorts table sorts → sorts_of table ≡ sorts }
    ensures rows { (g : Generics) (d : Declared) (h : ℕ) (head : Head) (template : List Node) (rows : List (List ExprId)) → AreDeclared g d → slice_get d.heads h ≡ Some head
        → option_map (λ (stored : StoredHead). stored.template) (slice_get g.heads h) ≡ Some template
        → option_map (λ (stored : StoredHead). stored.ctors) (slice_get g.heads h) ≡ Some rows
        → AllZip (StandFor template) rows head.ctors }
    ensures stay { (old new : SortTable) (sorts : List Expression) → AreSorts old sorts → new.sorts ≡ old.sorts → Stay old.expressions new.expressions → AreSorts new sorts }
{}
