//! Labels of the points: one for each constructor, and one for each class without a constructor term.
ghost use Rattle.std.specs.Prelude.{◌≡◌, ◌<◌, ℕ, length, IfOk, slice_index};
ghost use Rattle.ct_unique.specs.Nodes.{AreLabels, IsLabel};

use crate::error::UniqueError;
use crate::nodes::own_con;
use ct_congr::Classes;
use ct_terms::{Core, TermId};
use std::alloc::Global;

/// The label of each term: twice the constructor for a representative of a class with a constructor term, and else an odd one
/// of its own.
pub(crate) fn labels(alloc: Global, classes: &Classes) -> Result<Vec<u64>, UniqueError>
    ensures labels { IfOk result (λ labels. AreLabels classes.now (length classes.now.terms) labels.items) }
{
    let mut labels = Vec::new(alloc);
    for t in 0..classes.table().len() {
        labels.push(label(classes, TermId(t)))?;
    }
    Ok(labels)
}

// The label of the term.
fn label(classes: &Classes, t: TermId) -> u64
    requires inside { t.0 < length classes.now.terms }
    ensures label { IsLabel classes.now t.0 result }
{
    let table = classes.table();
    match own_con(classes, t) {
        Some(con) => match table.core(con) {
            Core::Con(c, _) => 2 * (c.0 as u64),
            _ => unreachable!(),
        },
        None => 2 * (t.0 as u64) + 1,
    }
}
