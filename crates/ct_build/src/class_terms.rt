//! What classes say of a term, also of a number that no term has.
use ct_congr::Classes;
use ct_terms::{Core, TermId};

// The number of `false` in every table.
const FALSE: u32 = 1;

/// The term, where it is one of the table.
pub(crate) fn core_of(classes: &Classes, t: TermId) -> Option<&Core> {
    let table = classes.table();
    if t.0 >= table.len() {
        return None;
    }
    Some(table.core(t))
}

/// What represents the term's class.
pub(crate) fn rep_of(classes: &Classes, t: TermId) -> TermId {
    if t.0 >= classes.table().len() {
        return t;
    }
    classes.rep(t)
}

/// The number of a constructor term of the term's class, if there is one.
pub(crate) fn con_of(classes: &Classes, t: TermId) -> Option<TermId> {
    if t.0 >= classes.table().len() {
        return None;
    }
    classes.con_of(t)
}

/// Whether the term is in the class of `false`.
pub(crate) fn is_false(classes: &Classes, t: TermId) -> bool {
    match con_of(classes, t) {
        Some(con) => con.0 == FALSE,
        None => false,
    }
}
