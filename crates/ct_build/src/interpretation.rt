//! An interpretation of classes.
ghost use Rattle.std.specs.Prelude.{◌≡◌, ◌↔◌, IfOk, IsTrue};
ghost use Rattle.ct_sorts.specs.declared.ids.SortId.{SortId};
ghost use Rattle.ct_terms.specs.declared.ids.TermId.{TermId};
ghost use Rattle.ct_terms.specs.Terms.{IsOfSort};
ghost use Rattle.ct_eval.specs.Evaluation.{is_same, value_of};
ghost use Rattle.ct_card.specs.Sizes.{AreSizes};
ghost use Rattle.ct_closure.specs.ClosedTable.{IsClosedTable};
ghost use Rattle.ct_congr.specs.State.{IsQuiet, AreEqual};
ghost use Rattle.ct_acyclic.specs.Order.{IsClassOrder};
ghost use Rattle.ct_unique.specs.Partition.{IsStronglyExtensional};
ghost use Rattle.ct_eval.specs.Interpretation.{IsProper};
ghost use Rattle.ct_build.specs.Assignment.{AreDecided};

use crate::error::BuildError;
use crate::facts::known;
use crate::functions::function_tables;
use crate::open_classes::open_classes;
use crate::selectors::selector_tables;
use crate::valued::valued;
use ct_acyclic::Order;
use ct_card::Sizes;
use ct_congr::Classes;
use ct_eval::{Interp, Tables, evaluation};
use ct_sorts::Signature;
use ct_terms::TermTable;
use std::alloc::Global;

/// A well-formed interpretation of classes in which each class has a value of its own: two terms of one sort have the
/// same value exactly if they are in one class (Reynolds and Blanchette 2015, section 4, on models).
///
/// A class with a constructor term has the constructor over the values of its arguments' classes, a class of an infinite
/// sort without one a value that is chosen, and any other the default value of its sort. A function has a row for each list
/// of classes to which the terms apply it, a selector one for each class of another constructor from which they select. The
/// signature, the sizes and the terms are those of the classes. The only error is out of memory.
pub fn build(
    alloc: Global,
    sig: &Signature,
    sizes: &Sizes,
    table: &TermTable,
    classes: &Classes,
    order: &Order,
) -> Result<Interp, BuildError>
    requires declarations { classes.now.declarations ≡ sig.now }
    requires terms { classes.now.terms ≡ table.now }
    requires sizes { AreSizes sig.now sizes.now }
    requires quiet { IsQuiet classes.now }
    requires ordered { IsClassOrder classes.now order.now.reps.items }
    requires extensional { IsStronglyExtensional classes.now }
    requires closed { IsClosedTable sig.now table.now }
    requires decided { AreDecided classes.now }
    ensures proper { IfOk result (IsProper sig.now) }
    ensures values { IfOk result (λ i. (t u : TermId) (s : SortId)
        → IsOfSort table.now t s
        → IsOfSort table.now u s
        → IsTrue (is_same i.graph (value_of sig.now i table.now t) (value_of sig.now i table.now u)) ↔ AreEqual classes.now t u) }
{
    known(classes);
    evaluation();
    let reps = &order.reps;
    let unbuilt = open_classes(alloc, sizes, classes)?;
    let valued = valued(alloc, sizes, classes, reps, &unbuilt)?;
    let nodes = valued.nodes.as_slice();
    let defaults = valued.defaults.as_slice();
    let funs = function_tables(alloc, sig, table, nodes, defaults)?;
    let offs = selector_tables(alloc, classes, nodes, defaults)?;
    Ok(Interp {
        graph: valued.graph,
        funs: Tables::new(funs),
        offs: Tables::new(offs),
    })
}
