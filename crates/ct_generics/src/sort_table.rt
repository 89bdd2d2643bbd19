//! Sorts as shared expressions, in the order in which they were added.
ghost use Rattle.std.specs.Prelude.{◌≡◌, ◌<◌, ℕ, List, [], length, take, Some, slice_get, IfErr, OnOk};
ghost use Rattle.ct_generics.specs.declared.generics.Generics.{Generics};
ghost use Rattle.ct_generics.specs.declared.nodes.ExprId.{ExprId};
ghost use Rattle.ct_generics.specs.Expression.{Expression};
ghost use Rattle.ct_generics.specs.SortTable.{AreCounted, AreSorts};

use crate::ids::ExprIds;
use crate::items::Items;
use crate::nodes::Expressions;
use std::alloc::Global;

/// Shared expressions, and which of them are sorts.
#[derive(Drop)]
pub struct SortTable {
    /// The expressions.
    pub expressions: Expressions,
    /// The lengths of the texts of the first expressions, as far as they were needed. They hold for the sorts and generics
    /// that were declared then.
    pub counts: Items<u64>,
    /// The sorts; the index of each is its number.
    pub sorts: ExprIds,
}

impl SortTable {
    /// No sorts.
    pub fn new(alloc: Global) -> SortTable
        ensures empty { AreSorts result [] }
        ensures counted { (g : Generics) → AreCounted g result }
    {
        SortTable {
            expressions: Expressions::new(alloc),
            counts: Items::new(Vec::new(alloc)),
            sorts: ExprIds::new(alloc),
        }
    }

    /// Discards the lengths of texts; to be called whenever sorts or generics were declared or removed.
    pub fn forget_counts(&mut self)
        ensures expressions { self.new.expressions ≡ self.old.expressions }
        ensures sorts { self.new.sorts ≡ self.old.sorts }
        ensures counted { (g : Generics) → AreCounted g self.new }
    {
        self.counts.truncate(0);
    }

    /// Removes all sorts and all expressions except the first ones. The lengths of texts are to be counted anew.
    pub fn cut_to(&mut self, sorts: usize, expressions: usize)
        ensures first { (es : List Expression) → AreSorts self.old es
            → ((i : ℕ) (id : ExprId) → slice_get self.old.sorts i ≡ Some id → i < sorts → id.0 < expressions)
            → AreSorts self.new (take sorts es) }
        ensures counted { (g : Generics) → AreCounted g self.new }
    {
        let _ordered = self.expressions.len();
        self.sorts.truncate(sorts);
        self.expressions.truncate(expressions);
        self.counts.truncate(0);
    }
}
