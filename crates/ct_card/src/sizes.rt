//! The sizes of all sorts of a signature, and makers of values.
ghost use Rattle.std.specs.Prelude.{◌≡◌, ℕ, ◌+◌, ◌<◌, ◌≤◌, ◌↔◌, List, length, Some, None, slice_get, IfOk, OnOk, OnErr, IfSome};
ghost use Rattle.ct_sorts.specs.declared.ids.SortId.{SortId};
ghost use Rattle.ct_sorts.specs.Declarations.{Declarations, IsSort};
ghost use Rattle.ct_sorts.specs.Consistent.{IsConsistent};
ghost use Rattle.ct_sorts.specs.Grown.{Begins, Extends};
ghost use Rattle.ct_values.specs.Fitting.{HasNodeSort};
ghost use Rattle.ct_values.specs.WellFormed.{IsWellFormedGraph};
ghost use Rattle.ct_values.specs.Agreement.{node_point, AgreeAlways};
ghost use Rattle.ct_card.specs.Cardinality.{HasSize, IsSingle};
ghost use Rattle.ct_card.specs.Extended.{AreCut, AreGrownBy, AreKept, IsLater};
ghost use Rattle.ct_card.specs.Made.{IsPrepared};
ghost use Rattle.ct_card.specs.Nth.{IsNth};
ghost use Rattle.ct_card.specs.Rules.{IsOrder};
ghost use Rattle.ct_card.specs.Sizes.{AreDefaultValues, AreSizes, IsDefaultValue, IsSizeBy, no_sizes, size_by};

use crate::built::second_node;
use crate::choice::push_choices;
use crate::defaults::{append_defaults, node_of_sort, nodes_of_sorts};
use crate::departure::{Departure, Layer};
use crate::error::CardError;
use crate::founded::founding;
use crate::layers::{push_layers, push_seconds};
use crate::made::store_made;
use crate::nth::append_nth;
use crate::prepared::Prepared;
use crate::second_values::append_seconds;
use crate::several::several_ranks;
use crate::size::Size;
use crate::small::small_ranks;
use ct_sorts::{CtorId, Signature, SortId, structure};
use ct_values::{Graph, NodeId, agreement};
use std::alloc::Global;
use std::marker::Model;

/// The size of each sort of a signature by its declarations: one value, finite, or infinite (Reynolds
/// and Blanchette 2015). Beside the sizes it keeps by which constructors default values are built.
#[derive(Debug, Drop)]
pub struct Sizes {
    alloc: Global,
    sizes: Vec<Size>,
    several: Vec<usize>,
    queue: Vec<usize>,
    ranks: Vec<usize>,
    order: Vec<usize>,
    ctors: Vec<CtorId>,
    seconds: Vec<Departure>,
    layers: Vec<Layer>,
    small: Vec<usize>,
    settled: Vec<usize>,
}

impl Model for Sizes {
    ghost use Rattle.ct_card.specs.Sizes.{Table};

    ghost Value = { Table };

    ghost view = { λ stored. record { sizes = stored.sizes.items; several = stored.several.items; queue = stored.queue.items; ranks = stored.ranks.items; order = stored.order.items; ctors = stored.ctors.items; seconds = stored.seconds.items; layers = stored.layers.items; small = stored.small.items; settled = stored.settled.items } };
}

impl Sizes {
    /// The sizes of all sorts of the signature. The time is linear in its sorts, constructors and
    /// selectors.
    pub fn new(alloc: Global, sig: &Signature) -> Result<Sizes, CardError>
        ensures sizes { IfOk result (λ sizes. AreSizes sig.now sizes) }
    {
        let none = none(alloc);
        let sizes = grown(sig, none)?;
        Ok(sizes)
    }

    /// The sizes are those of an earlier state of the declarations; afterwards they are those of the signature. An error
    /// changes nothing. The time is linear in the sorts that were added, their constructors and selectors; where there are
    /// any, the lists are copied first.
    pub fn extend(&mut self, sig: &Signature) -> Result<(), CardError>
        requires earlier { (earlier : Declarations) × IsConsistent earlier × Extends sig.now earlier × AreSizes earlier self.old }
        ensures sizes { OnOk result (AreSizes sig.now self.new) }
        ensures unchanged { OnErr result (self.new ≡ self.old) }
    {
        structure();
        prove!(sig.sorts() > 0);
        if self.sizes.len() == sig.sorts() as usize {
            return Ok(());
        }
        let copy = self.copy()?;
        let sizes = grown(sig, copy)?;
        *self = sizes;
        Ok(())
    }

    /// Keeps the sizes of the first sorts, as many as `sorts` says: those of an earlier state of the declarations, where it
    /// had so many. Takes no memory. The time is linear in the sorts.
    pub fn cut_to(&mut self, sorts: u32)
        ensures sizes { (later earlier : Declarations) → IsConsistent earlier → Extends later earlier → sorts ≡ length earlier.sorts → AreSizes later self.old → AreSizes earlier self.new }
    {
        structure();
        let count = sorts as usize;
        if count >= self.sizes.len() {
            return;
        }
        self.sizes.truncate(count);
        self.ctors.truncate(count);
        self.seconds.truncate(count);
        self.layers.truncate(count);
        keep_below(count, &mut self.several, &mut self.queue);
        keep_below(count, &mut self.ranks, &mut self.order);
        keep_below(count, &mut self.small, &mut self.settled);
    }

    /// Equal sizes.
    pub fn copy(&self) -> Result<Sizes, CardError>
        ensures value { IfOk result (λ copy. copy ≡ self.now) }
    {
        Ok(Sizes {
            alloc: self.alloc,
            sizes: Vec::from_slice(self.alloc, self.sizes.as_slice())?,
            several: Vec::from_slice(self.alloc, self.several.as_slice())?,
            queue: Vec::from_slice(self.alloc, self.queue.as_slice())?,
            ranks: Vec::from_slice(self.alloc, self.ranks.as_slice())?,
            order: Vec::from_slice(self.alloc, self.order.as_slice())?,
            ctors: Vec::from_slice(self.alloc, self.ctors.as_slice())?,
            seconds: Vec::from_slice(self.alloc, self.seconds.as_slice())?,
            layers: Vec::from_slice(self.alloc, self.layers.as_slice())?,
            small: Vec::from_slice(self.alloc, self.small.as_slice())?,
            settled: Vec::from_slice(self.alloc, self.settled.as_slice())?,
        })
    }

    /// The size of a sort. Takes no memory.
    pub fn size_of(&self, s: SortId) -> Size
        requires inside { s.0 < length self.now.sizes }
        ensures value { slice_get self.now.sizes s.0 ≡ Some result }
        ensures exact { (d : Declarations) → AreSizes d self.now → HasSize d s.0 result }
    {
        self.sizes[s.0 as usize]
    }

    /// A value of the sort: the number of its node, which is put after the graph with default
    /// values of all sorts. The sizes are those of the signature. Where the answer is an error, the
    /// graph may have grown.
    pub fn default_value(
        &self,
        sig: &Signature,
        g: &mut Graph,
        s: SortId,
    ) -> Result<NodeId, CardError>
        requires sizes { AreSizes sig.now self.now }
        requires inside { IsSort sig.now s }
        ensures grown { Begins g.old g.new }
        ensures well_formed { IsWellFormedGraph sig.now g.old → IsWellFormedGraph sig.now g.new }
        ensures sorted { IfOk result (λ n. HasNodeSort sig.now g.new n s) }
        ensures default { IfOk result (IsDefaultValue sig.now self.now g.new s.0) }
    {
        let ranks = self.ranks.as_slice();
        let base = append_defaults(self.alloc, sig, ranks, &self.order, &self.ctors, g)?;
        Ok(node_of_sort(ranks, base, s.0 as usize))
    }

    /// A value of each sort, in the order of sorts: the numbers of their nodes, of which one for each sort is put after the
    /// graph. The sizes are those of the signature. Where the answer is an error, the graph may have grown. The time is linear
    /// in the sorts and in the fields of their default values.
    pub fn default_values(&self, sig: &Signature, g: &mut Graph) -> Result<Vec<NodeId>, CardError>
        requires sizes { AreSizes sig.now self.now }
        ensures grown { Begins g.old g.new }
        ensures well_formed { IsWellFormedGraph sig.now g.old → IsWellFormedGraph sig.now g.new }
        ensures values { IfOk result (λ nodes. AreDefaultValues sig.now self.now g.new nodes.items) }
    {
        let ranks = self.ranks.as_slice();
        let base = append_defaults(self.alloc, sig, ranks, &self.order, &self.ctors, g)?;
        let nodes = nodes_of_sorts(self.alloc, ranks, base)?;
        Ok(nodes)
    }

    /// Two different values of the sort, or `None` exactly if the sort has one value: the numbers of their nodes, which
    /// are appended to the graph with other values that they need. The sizes are those of the signature. Where the
    /// answer is an error, the graph may have grown.
    pub fn two_values(
        &self,
        sig: &Signature,
        g: &mut Graph,
        s: SortId,
    ) -> Result<Option<(NodeId, NodeId)>, CardError>
        requires sizes { AreSizes sig.now self.now }
        requires inside { IsSort sig.now s }
        ensures grown { Begins g.old g.new }
        ensures well_formed { IsWellFormedGraph sig.now g.old → IsWellFormedGraph sig.now g.new }
        ensures none { IfOk result (λ two. (two ≡ None) ↔ IsSingle sig.now s.0) }
        ensures sorted { IfOk result (λ two. IfSome two (λ p. HasNodeSort sig.now g.new p.0 s × HasNodeSort sig.now g.new p.1 s)) }
        ensures differ { IfOk result (λ two. IfSome two (λ p. AgreeAlways (node_point g.new p.0) (node_point g.new p.1) → ⊥)) }
    {
        structure();
        prove!(sig.sorts() > 0);
        let several = self.several.as_slice();
        if several[s.0 as usize] == 0 {
            return Ok(None);
        }
        let ranks = self.ranks.as_slice();
        let base = append_defaults(self.alloc, sig, ranks, &self.order, &self.ctors, g)?;
        let second = append_seconds(
            self.alloc,
            sig,
            several,
            &self.queue,
            ranks,
            &self.ctors,
            &self.seconds,
            base,
            g,
        )?;
        let first = node_of_sort(ranks, base, s.0 as usize);
        Ok(Some((first, second_node(several, second, s.0 as usize))))
    }

    /// The n-th value of an infinite sort: the number of its node, which is put after the graph with
    /// other values that it needs. The sizes are those of the signature. Values for different n are
    /// not the same, over any graphs (`different_values`). Where the answer is an error, the graph
    /// may have grown. The time is linear in what is appended: default values and second values of
    /// all sorts, and a node for each layer of the value. There are about as many layers as n has
    /// binary digits if a layer on the way has a field for a digit, and n otherwise.
    pub fn nth(
        &self,
        sig: &Signature,
        g: &mut Graph,
        s: SortId,
        n: u64,
    ) -> Result<NodeId, CardError>
        requires sizes { AreSizes sig.now self.now }
        requires inside { IsSort sig.now s }
        requires infinite { HasSize sig.now s.0 Size.Infinite }
        ensures grown { Begins g.old g.new }
        ensures well_formed { IsWellFormedGraph sig.now g.old → IsWellFormedGraph sig.now g.new }
        ensures sorted { IfOk result (λ k. HasNodeSort sig.now g.new k s) }
        ensures nth { IfOk result (λ k. IsNth sig.now self.now s.0 n (node_point g.new k)) }
    {
        let several = self.several.as_slice();
        let ranks = self.ranks.as_slice();
        let layers = self.layers.as_slice();
        let base = append_defaults(self.alloc, sig, ranks, &self.order, &self.ctors, g)?;
        let second = append_seconds(
            self.alloc,
            sig,
            several,
            &self.queue,
            ranks,
            &self.ctors,
            &self.seconds,
            base,
            g,
        )?;
        let k = append_nth(
            self.alloc,
            sig,
            several,
            ranks,
            layers,
            base,
            second,
            &[],
            g,
            s.0 as usize,
            n,
        )?;
        Ok(k)
    }

    /// Appends default values and second values of all sorts to the graph, from which `nth_over` makes others. It keeps
    /// the values that it makes in so many places. The sizes are those of the signature. Where the answer is an error,
    /// the graph may have grown.
    pub fn prepare(
        &self,
        sig: &Signature,
        g: &mut Graph,
        places: usize,
    ) -> Result<Prepared, CardError>
        requires sizes { AreSizes sig.now self.now }
        ensures grown { Begins g.old g.new }
        ensures well_formed { IsWellFormedGraph sig.now g.old → IsWellFormedGraph sig.now g.new }
        ensures prepared { IfOk result (IsPrepared sig.now self.now g.new) }
    {
        let ranks = self.ranks.as_slice();
        let base = append_defaults(self.alloc, sig, ranks, &self.order, &self.ctors, g)?;
        let second = append_seconds(
            self.alloc,
            sig,
            self.several.as_slice(),
            &self.queue,
            ranks,
            &self.ctors,
            &self.seconds,
            base,
            g,
        )?;
        let made = vec![in self.alloc; None; places]?;
        Ok(Prepared { base, second, made })
    }

    /// The n-th value of an infinite sort, as by `nth`, over a prepared graph: only the layers around a value that was
    /// made before and is still stored are appended. Where the answer is an error, the graph may have grown.
    pub fn nth_over(
        &self,
        sig: &Signature,
        g: &mut Graph,
        prepared: &mut Prepared,
        s: SortId,
        n: u64,
    ) -> Result<NodeId, CardError>
        requires sizes { AreSizes sig.now self.now }
        requires inside { IsSort sig.now s }
        requires infinite { HasSize sig.now s.0 Size.Infinite }
        requires prepared { IsPrepared sig.now self.now g.old prepared.old }
        ensures grown { Begins g.old g.new }
        ensures well_formed { IsWellFormedGraph sig.now g.old → IsWellFormedGraph sig.now g.new }
        ensures sorted { IfOk result (λ k. HasNodeSort sig.now g.new k s) }
        ensures nth { IfOk result (λ k. IsNth sig.now self.now s.0 n (node_point g.new k)) }
        ensures prepared { OnOk result (IsPrepared sig.now self.now g.new prepared.new) }
    {
        agreement();
        prove!(g.len() <= u64::MAX);
        let k = append_nth(
            self.alloc,
            sig,
            self.several.as_slice(),
            self.ranks.as_slice(),
            self.layers.as_slice(),
            prepared.base,
            prepared.second,
            prepared.made.as_slice(),
            g,
            s.0 as usize,
            n,
        )?;
        store_made(&mut prepared.made, s.0 as usize, n, k);
        Ok(k)
    }
}

// The sizes of no sorts.
fn none(alloc: Global) -> Sizes
    ensures none { result ≡ no_sizes }
{
    Sizes {
        alloc,
        sizes: Vec::new(alloc),
        several: Vec::new(alloc),
        queue: Vec::new(alloc),
        ranks: Vec::new(alloc),
        order: Vec::new(alloc),
        ctors: Vec::new(alloc),
        seconds: Vec::new(alloc),
        layers: Vec::new(alloc),
        small: Vec::new(alloc),
        settled: Vec::new(alloc),
    }
}

// The sizes of an earlier state of the declarations with those of the sorts that were added.
fn grown(sig: &Signature, earlier: Sizes) -> Result<Sizes, CardError>
    requires earlier { (before : Declarations) × IsLater sig.now before × AreSizes before earlier }
    ensures sizes { IfOk result (AreSizes sig.now) }
{
    structure();
    prove!(sig.sorts() > 0);
    let mut all = earlier;
    let alloc = all.alloc;
    several_ranks(alloc, sig, &mut all.several, &mut all.queue)?;
    small_ranks(alloc, sig, &all.several, &mut all.small, &mut all.settled)?;
    push_sizes(&all.several, &all.small, &mut all.sizes)?;
    founding(alloc, sig, &mut all.ranks, &mut all.order)?;
    push_choices(alloc, sig, &all.ranks, &mut all.ctors)?;
    push_seconds(alloc, sig, &all.several, &all.ctors, &mut all.seconds)?;
    push_layers(alloc, sig, &all.several, &all.small, &mut all.layers)?;
    Ok(all)
}

// The sizes of further sorts by their ranks.
fn push_sizes(several: &[usize], small: &[usize], sizes: &mut Vec<Size>) -> Result<(), CardError>
    requires long { length several.now ≡ length small.now }
    requires few { length sizes.old.items ≤ length several.now }
    ensures long { OnOk result (length sizes.new.items ≡ length several.now) }
    ensures sizes { OnOk result (AreGrownBy (IsSizeBy several.now small.now) sizes.old.items sizes.new.items) }
{
    for s in sizes.len()..several.len() {
        sizes.push(size_by(several[s], small[s]))?;
    }
    Ok(())
}

// Keeps the ranks of the first numbers, and these in their order, which they count anew from 1.
fn keep_below(count: usize, ranks: &mut Vec<usize>, order: &mut Vec<usize>)
    ensures cut { count ≤ length ranks.old.items → IsOrder ranks.old.items order.old.items → AreCut ranks.old.items ranks.new.items count }
    ensures order { count ≤ length ranks.old.items → IsOrder ranks.old.items order.old.items → IsOrder ranks.new.items order.new.items }
{
    ranks.truncate(count);
    let mut kept = 0;
    for i in 0..order.len() {
        kept = keep(i, kept, ranks, order);
    }
    order.truncate(kept);
}

// Keeps the number at this index of the order, if it has a place among the ranks, behind those that were kept. How many are
// kept then.
fn keep(i: usize, kept: usize, ranks: &mut Vec<usize>, order: &mut Vec<usize>) -> usize
    requires within { i < length order.old.items }
    requires few { kept ≤ i }
    ensures few { result ≤ i + 1 }
    ensures long { length order.new.items ≡ length order.old.items }
    ensures kept { (count : ℕ) (all whole : List ℕ) → IsOrder all whole
        → AreKept count all whole ranks.old.items order.old.items i kept
        → AreKept count all whole ranks.new.items order.new.items (i + 1) result }
{
    let n = order[i];
    if n >= ranks.len() {
        return kept;
    }
    order[kept] = n;
    ranks[n] = kept + 1;
    kept + 1
}

// The size of a sort by its ranks.
fn size_by(several: usize, small: usize) -> Size
    ensures value { result ≡ size_by several small }
{
    if several == 0 {
        Size::One
    } else if small == 0 {
        Size::Infinite
    } else {
        Size::Finite
    }
}
