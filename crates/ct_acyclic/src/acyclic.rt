//! The order of the classes of datatypes, by a topological order of the graph of classes.
ghost use Rattle.std.specs.Prelude.{ℕ, List, IfOk, OnOk, IfErr};
ghost use Rattle.ct_terms.specs.declared.ids.TermId.{TermId};
ghost use Rattle.ct_rules.specs.Cycle.{IsCycle};
ghost use Rattle.ct_congr.specs.State.{AreEqual, IsQuiet};
ghost use Rattle.ct_acyclic.specs.Order.{IsClassOrder, IsFailure};

use crate::answer::{Order, OrderError};
use crate::classes::data_classes;
use crate::edges::edges;
use crate::entries::entries;
use ct_congr::Classes;
use ct_ordering::Ordered;
use std::alloc::Global;

/// The classes of datatypes, each after those under its constructor terms, or a cycle through constructor terms of
/// datatypes, if there is one. A cycle through codatatypes is none. The classes are to be closed without a clash. The
/// time and the memory are linear in the terms and their arguments. After a cycle the classes hold in no model
/// (Reynolds and Blanchette 2015, section 4).
pub fn order(alloc: Global, classes: &Classes) -> Result<Order, OrderError>
    requires quiet { IsQuiet classes.now }
    ensures order { IfOk result (λ order. IsClassOrder classes.now order.reps.items) }
    ensures acyclic { OnOk result ((hops : List (TermId × ℕ))
        → IsCycle classes.now.declarations classes.now.terms (AreEqual classes.now) hops
        → ⊥) }
    ensures refused { IfErr result (λ error. IsFailure classes.now error) }
{
    let edges = edges(alloc, classes)?;
    match ct_ordering::order(alloc, &edges.starts, &edges.kids)? {
        Ordered::Order(points) => {
            let reps = data_classes(alloc, classes, &points)?;
            Ok(Order { reps })
        }
        Ordered::Cycle(hops) => {
            let cycle = entries(alloc, classes, &hops)?;
            Err(OrderError::Cycle(cycle))
        }
    }
}
