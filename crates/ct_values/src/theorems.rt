//! Theorems about graphs and values. Each is the contract of a function that does nothing.
ghost use Rattle.std.specs.Prelude.{◌≡◌, ℕ, suc, ◌<◌, ◌≤◌, ◌⊎◌, Bool, true, List, [], ◌∷◌, length};
ghost use Rattle.std.specs.Prelude.{◌++◌, ◌↔◌, Some, slice_get, IsTrue};
ghost use Rattle.std.specs.Cmp.{IsEquivalence};
ghost use Rattle.std.specs.List.{AllZip, AllByRecursion};
ghost use Rattle.ct_values.specs.declared.node.NodeId.{NodeId};
ghost use Rattle.ct_values.specs.Graph.{Nodes, IsClosed};
ghost use Rattle.ct_values.specs.Value.{Value, reference, IsOver};
ghost use Rattle.ct_values.specs.Agreement.{Point, point, node_point, head, children, children_of};
ghost use Rattle.ct_values.specs.Agreement.{size, agree, same, AgreeAlways};
ghost use Rattle.ct_values.specs.Minimal.{IsMinimal};
ghost use Rattle.ct_values.specs.Sharing.{IsRepresentative};
ghost use Rattle.ct_sorts.specs.declared.ids.CtorId.{CtorId};
ghost use Rattle.ct_sorts.specs.declared.ids.SelId.{SelId};
ghost use Rattle.ct_sorts.specs.declared.ids.SortId.{SortId};
ghost use Rattle.ct_sorts.specs.declared.ids.Kind.TheVariants.{Free};
ghost use Rattle.ct_sorts.specs.Declarations.{Declarations, Sort, Selector, bool_sort};
ghost use Rattle.ct_sorts.specs.Consistent.{IsConsistent};
ghost use Rattle.ct_sorts.specs.Grown.{Extends};
ghost use Rattle.ct_values.specs.declared.node.Head.TheVariants.{Con, Elem};
ghost use Rattle.ct_values.specs.Fitting.{HasNodeSort, FitsGraph};
ghost use Rattle.ct_values.specs.ValueSort.{HasValueSort, IsDataPath, IsDataChain};
ghost use Rattle.ct_values.specs.WellFormed.{AreFinite, IsWellFormedGraph};
ghost use Rattle.ct_values.specs.Inversion.{IsElementOf, IsConstructed};
ghost use Rattle.ct_values.specs.TruthValue.{truth, is_built, is_true, IsTruth};

use ct_sorts::structure;

/// The theorems on agreement. It does nothing: a proof that needs them calls it.
pub fn agreement()
    // All points agree to depth 0, and to a greater depth where heads and children do.
    ensures start { (p q : Point) → IsTrue (agree 0 p q) }
    ensures step { (k : ℕ) (p q : Point) → IsTrue (agree (suc k) p q)
        ↔ ((head p ≡ head q) × AllZip (λ x y. IsTrue (agree k x y)) (children p) (children q)) }

    // At each depth it is an equivalence, and it falls with the depth.
    ensures equivalence { (k : ℕ) → IsEquivalence (agree k) }
    ensures falling { (k : ℕ) (p q : Point) → IsTrue (agree (suc k) p q) → IsTrue (agree k p q) }

    // The depth that `same` looks at decides every depth.
    ensures every_depth { (p q : Point)
        → IsClosed p.graph
        → IsClosed q.graph
        → IsTrue (same p q) ↔ AgreeAlways p q }

    // Two values are equal where their heads and their children are.
    ensures parts { (p q : Point)
        → IsClosed p.graph
        → IsClosed q.graph
        → IsTrue (same p q)
        ↔ ((head p ≡ head q) × AllZip (λ x y. IsTrue (same x y)) (children p) (children q)) }

    // Nodes after a closed graph change nothing for a value over it.
    ensures grown { (k : ℕ) (g more : Nodes) (v : Value) (q : Point)
        → IsClosed g
        → IsOver g v
        → agree k (point (g ++ more) v) q ≡ agree k (point g v) q }

    // To agree at every depth is an equivalence, that of heads and of children, and it does not
    // see nodes that are appended.
    ensures itself { (p : Point) → AgreeAlways p p }
    ensures turned { (p q : Point) → AgreeAlways p q → AgreeAlways q p }
    ensures chained { (p q r : Point) → AgreeAlways p q → AgreeAlways q r → AgreeAlways p r }
    ensures always { (p q : Point) → AgreeAlways p q
        ↔ ((head p ≡ head q) × AllZip AgreeAlways (children p) (children q)) }
    ensures always_grown { (g more : Nodes) (v : Value)
        → IsClosed g
        → IsOver g v
        → AgreeAlways (point (g ++ more) v) (point g v) }
{}

/// The theorems on the minimal graph of a tree. It does nothing: a proof that needs them calls it.
pub fn minimal_graph()
    // Two trees, each in its own graph, have one minimal graph exactly where they are equal.
    ensures one { (g h : Nodes) (a b : NodeId) (s t : Nodes)
        → IsMinimal g a s
        → IsMinimal h b t
        → (s ≡ t) ↔ AgreeAlways (node_point g a) (node_point h b) }

    // No graph with an equal node has fewer nodes.
    ensures fewest { (g h : Nodes) (a b : NodeId) (s : Nodes)
        → IsMinimal g a s
        → AgreeAlways (node_point h b) (node_point g a)
        → length s ≤ length h }
{}

/// The theorems on representatives. It does nothing: a proof that needs them calls it.
pub fn representative_nodes()
    // One node is the representative of two values exactly where they are equal.
    ensures one { (g : Nodes) (p q : Point) (m n : NodeId)
        → IsRepresentative g p m
        → IsRepresentative g q n
        → (m ≡ n) ↔ AgreeAlways p q }

    // A representative stays one where the graph grows.
    ensures lasting { (g more : Nodes) (p : Point) (n : NodeId)
        → IsClosed g
        → IsRepresentative g p n
        → IsRepresentative (g ++ more) p n }

    // The representative of a value is that of every equal value.
    ensures same { (g : Nodes) (p q : Point) (n : NodeId) → AgreeAlways p q → IsRepresentative g p n
        → IsRepresentative g q n }
{}

/// The theorems on graphs that fit declarations. It does nothing: a proof that needs them calls it.
pub fn fitting_graphs()
    ensures closed { (d : Declarations) (g : Nodes) → FitsGraph d g → IsClosed g }

    // Nodes keep their sorts where the graph grows, and where more is declared.
    ensures node_longer { (d : Declarations) (g more : Nodes) (n : NodeId) (s : SortId)
        → HasNodeSort d g n s
        → HasNodeSort d (g ++ more) n s }
    ensures node_lasting { (later earlier : Declarations) (g : Nodes) (n : NodeId) (s : SortId)
        → Extends later earlier
        → HasNodeSort earlier g n s
        → HasNodeSort later g n s }

    // So a graph fits, and is well formed, where more is declared.
    ensures lasting { (later earlier : Declarations) (g : Nodes)
        → Extends later earlier
        → FitsGraph earlier g
        → FitsGraph later g }
    ensures well_formed_lasting { (later earlier : Declarations) (g : Nodes)
        → IsConsistent earlier
        → Extends later earlier
        → IsWellFormedGraph earlier g
        → IsWellFormedGraph later g }
{
    structure();
}

/// The theorems on values over a graph that grows. It does nothing: a proof that needs them calls
/// it.
pub fn longer_graphs()
    // A value over a graph keeps its head and its children in a longer one.
    ensures head { (g more : Nodes) (v : Value)
        → IsOver g v
        → head (point (g ++ more) v) ≡ head (point g v) }
    ensures children { (g more : Nodes) (v : Value)
        → IsOver g v
        → children_of (g ++ more) v ≡ children_of g v }

    // It is over the longer graph, and its children are over the graph where that is closed.
    ensures over { (g more : Nodes) (v : Value) → IsOver g v → IsOver (g ++ more) v }
    ensures children_over { (g : Nodes) (v : Value)
        → IsClosed g
        → IsOver g v
        → AllByRecursion (IsOver g) (children_of g v) }
{}

/// The theorems on values that have sorts. It does nothing: a proof that needs them calls it.
pub fn well_sorted_values()
    ensures over { (d : Declarations) (g : Nodes) (v : Value) (s : SortId)
        → HasValueSort d g v s
        → IsOver g v }

    // A value of a sort is an element of it, or a constructor of it over values of its fields.
    ensures inversion { (d : Declarations) (g : Nodes) (v : Value) (s : SortId)
        → FitsGraph d g
        → HasValueSort d g v s
        ↔ (((number : ℕ) × IsElementOf d g v number s) ⊎ ((c : CtorId) × IsConstructed d g v c s)) }

    // Its head says which, and so does the kind of its sort.
    ensures element { (d : Declarations) (g : Nodes) (v : Value) (sort s : SortId) (number : ℕ)
        → FitsGraph d g
        → HasValueSort d g v sort
        → head (point g v) ≡ Some (Elem s number)
        → (s ≡ sort) × IsElementOf d g v number sort }
    ensures constructor { (d : Declarations) (g : Nodes) (v : Value) (s : SortId) (c : CtorId)
        → FitsGraph d g
        → HasValueSort d g v s
        → head (point g v) ≡ Some (Con c)
        → IsConstructed d g v c s }
    ensures uninterpreted { (d : Declarations) (g : Nodes) (v : Value) (s : SortId) (sort : Sort)
        → IsConsistent d
        → FitsGraph d g
        → HasValueSort d g v s
        → slice_get d.sorts s.0 ≡ Some sort
        → sort.kind ≡ Free
        → (number : ℕ) × IsElementOf d g v number s }
    ensures constructed { (d : Declarations) (g : Nodes) (v : Value) (s : SortId) (sort : Sort)
        → FitsGraph d g
        → HasValueSort d g v s
        → slice_get d.sorts s.0 ≡ Some sort
        → (sort.kind ≡ Free → ⊥)
        → (c : CtorId) × IsConstructed d g v c s }

    // Whether it is built by a constructor is told by its head.
    ensures built { (g : Nodes) (v : Value) (c : CtorId)
        → (is_built g c v ≡ true) ↔ (head (point g v) ≡ Some (Con c)) }

    // A value that is built by the constructor of a selector has a child at the selector's place,
    // of its field's sort.
    ensures field { (d : Declarations) (g : Nodes) (v : Value) (sort : SortId) (s : SelId)
        (selector : Selector)
        → IsConsistent d
        → FitsGraph d g
        → HasValueSort d g v sort
        → slice_get d.sels s.0 ≡ Some selector
        → head (point g v) ≡ Some (Con selector.ctor)
        → (w : Value) × (slice_get (children_of g v) selector.place ≡ Some w)
        × HasValueSort d g w selector.sort }

    // Values with one head have one sort, and what is the same as a value has its sort.
    ensures one_sort { (d : Declarations) (g h : Nodes) (v w : Value) (s t : SortId)
        → HasValueSort d g v s
        → HasValueSort d h w t
        → head (point g v) ≡ head (point h w)
        → s ≡ t }
    ensures same_sort { (d : Declarations) (g h : Nodes) (v w : Value) (s : SortId)
        → FitsGraph d g
        → HasValueSort d g v s
        → AgreeAlways (point g v) (point h w)
        → HasValueSort d h w s }

    // A value keeps its sort where the graph grows, and where more is declared.
    ensures longer { (d : Declarations) (g more : Nodes) (v : Value) (s : SortId)
        → HasValueSort d g v s
        → HasValueSort d (g ++ more) v s }
    ensures lasting { (later earlier : Declarations) (g : Nodes) (v : Value) (s : SortId)
        → Extends later earlier
        → HasValueSort earlier g v s
        → HasValueSort later g v s }
{
    structure();
}

/// The theorems on values of sort Bool. It does nothing: a proof that needs them calls it.
pub fn boolean_values()
    // Such a value has the head of `true` or of `false`, and no children.
    ensures truth { (d : Declarations) (g : Nodes) (v : Value)
        → IsConsistent d
        → FitsGraph d g
        → HasValueSort d g v bool_sort
        → IsTruth g v (is_true g v) }

    // What has them is the same as the truth value, over any graph.
    ensures same { (g h : Nodes) (v : Value) (b : Bool)
        → IsTruth g v b
        → AgreeAlways (point g v) (point h (truth b)) }
{
    structure();
}

/// The theorems on values of datatypes: they are finite. It does nothing: a proof that needs them
/// calls it.
pub fn finite_values()
    // Each path through datatypes from a value has fewer steps than its size, and one from a node
    // has at most as many as the node's number.
    ensures finite { (d : Declarations) (g : Nodes) (v : Value) (path : List Value)
        → AreFinite d g
        → IsDataPath d g v path
        → length path < size (point g v) }
    ensures finite_node { (d : Declarations) (g : Nodes) (n : NodeId) (path : List Value)
        → AreFinite d g
        → IsDataPath d g (reference n) path
        → length path ≤ n.0 }

    // So has each chain, in which a step goes to a child and on to a value that is the same.
    ensures chain { (d : Declarations) (g : Nodes) (v : Value) (chain : List Value)
        → IsWellFormedGraph d g
        → IsDataChain d g v chain
        → length chain < size (point g v) }
    ensures chain_node { (d : Declarations) (g : Nodes) (n : NodeId) (chain : List Value)
        → IsWellFormedGraph d g
        → IsDataChain d g (reference n) chain
        → length chain ≤ n.0 }

    // No chain comes back to the value where it began, nor to one that is the same.
    ensures no_cycle { (d : Declarations) (g : Nodes) (v : Value) (chain : List Value)
        (last : Value)
        → IsWellFormedGraph d g
        → IsDataChain d g v (chain ++ last ∷ [])
        → AgreeAlways (point g last) (point g v)
        → ⊥ }
{}
