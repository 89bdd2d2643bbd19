//! Partitions of the terms into blocks of classes.
ghost use Rattle.std.specs.Prelude.{◌≡◌, ◌<◌, ◌↔◌, length, IfSome, IfNone, IsTrue};
ghost use Rattle.ct_terms.specs.declared.ids.TermId.{TermId};
ghost use Rattle.ct_congr.specs.State.{AreEqual};
ghost use Rattle.ct_unique.specs.Partition.{block_of, IsStronglyExtensional, IsCoarsest, IsApart};

use ct_congr::Classes;
use ct_terms::TermId;
use std::marker::Model;

/// The block of each term of a table. Clauses see the list of their numbers.
#[derive(Debug, Drop)]
pub struct Partition {
    pub(crate) blocks: Vec<u32>,
}

impl Model for Partition {
    ghost use Rattle.std.specs.Prelude.{List, ℕ};

    ghost Value = { List ℕ };

    ghost view = { λ partition. partition.blocks.items };
}

impl Partition {
    /// The number of the term's block, which is a term in it.
    pub fn block(&self, t: TermId) -> u32
        requires inside { t.0 < length self.now }
        ensures value { result ≡ block_of self.now t }
    {
        self.blocks[t.0 as usize]
    }

    /// Two constructor terms of different classes in one block, if there are any; otherwise bisimilar classes are
    /// equal. Takes no memory; linear.
    pub fn first_pair(&self, classes: &Classes) -> Option<(TermId, TermId)>
        requires made { IsCoarsest classes.now self.now }
        ensures found { IfSome result (λ pair. IsApart classes.now self.now pair.0 pair.1) }
        ensures none { IfNone result ((x y : TermId)
            → x.0 < length classes.now.terms
            → y.0 < length classes.now.terms
            → block_of self.now x ≡ block_of self.now y
            → AreEqual classes.now x y) }
        ensures extensional { IfNone result (IsStronglyExtensional classes.now) }
    {
        for t in 0..classes.table().len() {
            let t = TermId(t);
            let first = TermId(self.block(t));
            if !are_equal(classes, first, t) {
                return Some(constructors(classes, self, first, t));
            }
        }
        None
    }
}

/// Whether the terms are of one class.
pub(crate) fn are_equal(classes: &Classes, a: TermId, b: TermId) -> bool
    requires left { a.0 < length classes.now.terms }
    requires right { b.0 < length classes.now.terms }
    ensures value { IsTrue result ↔ AreEqual classes.now a b }
{
    classes.rep(a) == classes.rep(b)
}

/// The constructor terms of two classes of one block.
pub(crate) fn constructors(
    classes: &Classes,
    partition: &Partition,
    a: TermId,
    b: TermId,
) -> (TermId, TermId)
    requires made { IsCoarsest classes.now partition.now }
    requires left { a.0 < length classes.now.terms }
    requires right { b.0 < length classes.now.terms }
    requires same { block_of partition.now a ≡ block_of partition.now b }
    requires apart { AreEqual classes.now a b → ⊥ }
    ensures found { IsApart classes.now partition.now result.0 result.1 }
    ensures left { AreEqual classes.now a result.0 }
    ensures right { AreEqual classes.now b result.1 }
{
    let Some(left) = classes.con_of(a) else {
        unreachable!()
    };
    let Some(right) = classes.con_of(b) else {
        unreachable!()
    };
    (left, right)
}
