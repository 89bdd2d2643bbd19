//! The classes in the order of their nodes.
ghost use Rattle.std.specs.Prelude.{◌+◌, ◌<◌, List, length, IfOk, OnOk, MatchBool};
ghost use Rattle.ct_terms.specs.declared.ids.TermId.{TermId};
ghost use Rattle.ct_build.specs.Nodes.{IsOtherClass, IsClassList, IsClassListBelow};

use crate::error::BuildError;
use crate::open_classes::term_sort;
use ct_congr::Classes;
use ct_sorts::Kind;
use ct_terms::TermId;
use std::alloc::Global;

/// The representatives of all classes: those of datatypes in the order that is given, and then the others.
pub(crate) fn class_list(
    alloc: Global,
    classes: &Classes,
    order: &[TermId],
) -> Result<Vec<TermId>, BuildError>
    ensures list { IfOk result (λ list. IsClassList classes.now order.now list.items) }
{
    let mut list = Vec::from_slice(alloc, order)?;
    for t in 0..classes.table().len() {
        add_if_other(classes, TermId(t), &mut list)?;
    }
    Ok(list)
}

// Adds the term, if it represents a class that is of no datatype.
fn add_if_other(classes: &Classes, t: TermId, list: &mut Vec<TermId>) -> Result<(), BuildError>
    requires inside { t.0 < length classes.now.terms }
    ensures list { OnOk result ((order : List TermId)
        → IsClassListBelow classes.now t.0 order list.old.items
        → IsClassListBelow classes.now (t.0 + 1) order list.new.items) }
{
    if is_other_class(classes, t) {
        list.push(t)?;
        return Ok(());
    }
    Ok(())
}

// Whether the term represents a class that is of no datatype.
fn is_other_class(classes: &Classes, t: TermId) -> bool
    requires inside { t.0 < length classes.now.terms }
    ensures other { MatchBool result (IsOtherClass classes.now t) (IsOtherClass classes.now t → ⊥) }
{
    let s = term_sort(classes, t);
    if classes.rep(t) != t {
        return false;
    }
    match classes.signature().kind(s) {
        Kind::Data => false,
        Kind::Bool => true,
        Kind::Free => true,
        Kind::Codata => true,
    }
}
