//! Which merges can close a cycle or make classes bisimilar: a heuristic by sorts, about which nothing is claimed.
ghost use Rattle.std.specs.Prelude.{◌≡◌, ◌<◌, length};

use crate::error::TheoryError;
use crate::finite::are_finite;
use crate::walk::{Walk, goes_round};
use ct_congr::Classes;
use ct_sorts::{Signature, SortId};
use ct_terms::{Core, TermId, TermTable};
use std::alloc::Global;

/// What is looked at before a question is answered at length.
#[derive(Drop)]
pub(crate) struct Watch {
    // For each sort whether equations between its terms count.
    sorts: Vec<bool>,
    // Whether all constructor terms with arguments are of datatypes.
    finite: bool,
    // Walks over the classes.
    walk: Walk,
}

/// Equations count between terms of a sort of which there are constructor terms with arguments, since a cycle leads through
/// these; and where not all of these are of datatypes, also between terms of a sort of which their arguments are.
pub(crate) fn watch_of(
    alloc: Global,
    sig: &Signature,
    table: &TermTable,
) -> Result<Watch, TheoryError> {
    let finite = are_finite(sig, table);
    let mut sorts = vec![in alloc; false; sig.sorts() as usize]?;
    for t in 0..table.len() {
        add_sorts(table, TermId(t), finite, &mut sorts);
    }
    Ok(Watch {
        sorts,
        finite,
        walk: Walk::new(alloc, table.len())?,
    })
}

/// Whether a merge since the last mark calls for a longer look: it joined terms of such a sort, and, where only cycles are to be
/// feared, one leads back to their class.
pub(crate) fn calls_for_look(classes: &Classes, watch: &mut Watch) -> Result<bool, TheoryError> {
    let from = match classes.marks().last() {
        Some(mark) => mark.merges as usize,
        None => 0,
    };
    watch.walk.begin();
    let mut at = classes.merges().len();
    while at > from {
        at -= 1;
        if is_suspect(classes, watch, at)? {
            return Ok(true);
        }
    }
    Ok(false)
}

// Whether the merge with this number calls for a longer look.
fn is_suspect(classes: &Classes, watch: &mut Watch, number: usize) -> Result<bool, TheoryError> {
    let Some(t) = joined(classes, number) else {
        return Ok(false);
    };
    if !is_of_watched(classes.table(), t, watch.sorts.as_slice()) {
        return Ok(false);
    }
    if !watch.finite {
        return Ok(true);
    }
    goes_round(classes, &mut watch.walk, t)
}

// A term of the class that the merge with this number made.
fn joined(classes: &Classes, number: usize) -> Option<TermId> {
    match classes.merges().get(number) {
        Some(merge) => Some(merge.left),
        None => None,
    }
}

// Watches the sorts of a constructor term with arguments.
fn add_sorts(table: &TermTable, t: TermId, finite: bool, watched: &mut Vec<bool>)
    requires inside { t.0 < length table.now }
{
    let Core::Con(_, args) = table.core(t) else {
        return;
    };
    if args.as_slice().is_empty() {
        return;
    }
    set(table.sort(t), watched);
    if !finite {
        for argument in args.as_slice() {
            if argument.0 < table.len() {
                set(table.sort(*argument), watched);
            }
        }
    }
}

// Watches the sort.
fn set(sort: SortId, watched: &mut Vec<bool>) {
    let place = sort.0 as usize;
    if place < watched.len() {
        watched[place] = true;
    }
}

// Whether the term is of a sort that is watched.
fn is_of_watched(table: &TermTable, t: TermId, watched: &[bool]) -> bool {
    if t.0 >= table.len() {
        return false;
    }
    let place = table.sort(t).0 as usize;
    place < watched.len() && watched[place]
}
