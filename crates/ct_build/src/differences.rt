//! What must be different and is not, where classes have values that others may have too.
use crate::class_terms::{con_of, core_of, is_false, rep_of};
use crate::demands::Demands;
use crate::error::BuildError;
use crate::small_values::SmallValues;
use ct_congr::Classes;
use ct_sorts::SelId;
use ct_terms::{Core, TermId};
use ct_values::{NodeId, NodeIds};
use indexmap::IndexMap;
use std::alloc::Global;

/// What comes of the demands: all that must be different is, more is asked of open classes, or nothing that can be asked helps.
#[derive(Clone, Copy, Debug, PartialEq, Eq)]
pub(crate) enum Differences {
    /// All that must be different is.
    Stand,
    /// Not yet, and more is asked.
    Asked,
    /// Some of it cannot be asked.
    Lack,
}

/// The table of applications and the first nodes of their arguments. The tables of functions have even numbers, and those of
/// selectors odd ones.
#[derive(Debug, Drop, PartialEq, Eq, Hash)]
struct Place {
    table: u64,
    args: NodeIds,
}

/// The applications so far: for each place a list of terms, no two of one value.
#[derive(Drop)]
struct Applications {
    places: IndexMap<Place, usize>,
    terms: Vec<Vec<TermId>>,
}

// How many pairs of classes are looked at for one difference.
const STEPS: usize = 1000;

// How many applications to the same values are compared with a further one.
const MOST: usize = 64;

/// Asks for what must be different and is not: the sides of equations that are false, and arguments of applications with different
/// values.
pub(crate) fn ask(
    alloc: Global,
    classes: &Classes,
    small: &SmallValues,
    numbers: &[u64],
    round: u32,
    demands: &mut Demands,
) -> Result<Differences, BuildError> {
    let mut found = Differences::Stand;
    let mut applications = Applications {
        places: IndexMap::new(alloc),
        terms: Vec::new(alloc),
    };
    for t in 0..classes.table().len() {
        let more = ask_at(
            alloc,
            classes,
            small,
            numbers,
            round,
            TermId(t),
            &mut applications,
            demands,
        )?;
        found = worse(found, more);
    }
    drop(applications);
    Ok(found)
}

// The worse of two outcomes.
fn worse(a: Differences, b: Differences) -> Differences {
    match a {
        Differences::Stand => b,
        Differences::Lack => a,
        Differences::Asked => match b {
            Differences::Lack => b,
            _ => a,
        },
    }
}

// The same for what one term says.
fn ask_at(
    alloc: Global,
    classes: &Classes,
    small: &SmallValues,
    numbers: &[u64],
    round: u32,
    t: TermId,
    applications: &mut Applications,
    demands: &mut Demands,
) -> Result<Differences, BuildError> {
    let Some(core) = core_of(classes, t) else {
        return Ok(Differences::Stand);
    };
    match core {
        Core::Eq(a, b) => {
            if !is_false(classes, t) || node_of(small, *a).0 != node_of(small, *b).0 {
                return Ok(Differences::Stand);
            }
            let mut pairs = Vec::new(alloc);
            pairs.push((*a, *b))?;
            separate(classes, numbers, round, &mut pairs, demands)
        }
        Core::Apply(f, args) => {
            if args.as_slice().is_empty() {
                return Ok(Differences::Stand);
            }
            let table = 2 * (f.0 as u64);
            ask_application(
                alloc,
                classes,
                small,
                numbers,
                round,
                table,
                t,
                applications,
                demands,
            )
        }
        Core::Sel(s, of) => {
            if is_right(classes, *s, *of) {
                return Ok(Differences::Stand);
            }
            let table = 2 * (s.0 as u64) + 1;
            ask_application(
                alloc,
                classes,
                small,
                numbers,
                round,
                table,
                t,
                applications,
                demands,
            )
        }
        _ => Ok(Differences::Stand),
    }
}

// Whether the class of the term has a constructor term of the selector's constructor.
fn is_right(classes: &Classes, s: SelId, of: TermId) -> bool {
    if s.0 >= classes.signature().mark().sels() {
        return true;
    }
    let Some(con) = con_of(classes, of) else {
        return false;
    };
    match core_of(classes, con) {
        Some(Core::Con(own, _)) => own.0 == classes.signature().sel_ctor(s).0,
        _ => false,
    }
}

// The first node of the term's value.
fn node_of(small: &SmallValues, t: TermId) -> NodeId {
    small
        .nodes
        .get(t.0 as usize)
        .copied()
        .unwrap_or(NodeId(u64::MAX))
}

// The arguments of an application, or of a selection.
fn arguments(alloc: Global, core: Option<&Core>) -> Result<Vec<TermId>, BuildError> {
    let mut list = Vec::new(alloc);
    match core {
        Some(Core::Apply(_, args)) => list.extend_from_slice(args.as_slice())?,
        Some(Core::Sel(_, of)) => list.push(*of)?,
        _ => {}
    }
    Ok(list)
}

// Asks that the arguments of the term differ from those of the applications at its place that have other values.
fn ask_application(
    alloc: Global,
    classes: &Classes,
    small: &SmallValues,
    numbers: &[u64],
    round: u32,
    table: u64,
    t: TermId,
    applications: &mut Applications,
    demands: &mut Demands,
) -> Result<Differences, BuildError> {
    let args = arguments(alloc, core_of(classes, t))?;
    let mut nodes = Vec::new(alloc);
    for arg in &args {
        nodes.push(node_of(small, *arg))?;
    }
    let place = Place {
        table,
        args: NodeIds::new(nodes),
    };
    let Some(group) = applications.places.get(&place).copied() else {
        let mut first = Vec::new(alloc);
        first.push(t)?;
        applications.places.insert(place, applications.terms.len())?;
        applications.terms.push(first)?;
        return Ok(Differences::Stand);
    };
    if group >= applications.terms.len() {
        return Ok(Differences::Stand);
    }
    ask_group(
        alloc,
        classes,
        small,
        numbers,
        round,
        t,
        &args,
        &mut applications.terms[group],
        demands,
    )
}

// The same of the applications of a list, to which the term is added if none of them has its value.
fn ask_group(
    alloc: Global,
    classes: &Classes,
    small: &SmallValues,
    numbers: &[u64],
    round: u32,
    t: TermId,
    args: &[TermId],
    group: &mut Vec<TermId>,
    demands: &mut Demands,
) -> Result<Differences, BuildError> {
    let mut found = Differences::Stand;
    let mut new = true;
    for i in 0..group.len().min(MOST) {
        let other = group[i];
        if node_of(small, other).0 == node_of(small, t).0 {
            new = false;
            continue;
        }
        let theirs = arguments(alloc, core_of(classes, other))?;
        let mut pairs = Vec::new(alloc);
        push_pairs(args, &theirs, &mut pairs)?;
        found = worse(
            found,
            separate(classes, numbers, round, &mut pairs, demands)?,
        );
    }
    if new {
        group.push(t)?;
    }
    Ok(found)
}

// Pairs of the terms at each place.
fn push_pairs(
    left: &[TermId],
    right: &[TermId],
    pairs: &mut Vec<(TermId, TermId)>,
) -> Result<(), BuildError> {
    for i in 0..left.len() {
        if i < right.len() {
            pairs.push((left[i], right[i]))?;
        }
    }
    Ok(())
}

// Asks for a difference of one of these pairs, whose terms have one value each: of their classes, if one of these is open, and else of
// arguments of their constructor terms.
fn separate(
    classes: &Classes,
    numbers: &[u64],
    round: u32,
    pairs: &mut Vec<(TermId, TermId)>,
    demands: &mut Demands,
) -> Result<Differences, BuildError> {
    for i in 0..STEPS {
        let Some((a, b)) = pairs.get(i).copied() else {
            return Ok(Differences::Lack);
        };
        let (a, b) = (rep_of(classes, a), rep_of(classes, b));
        if a == b {
            continue;
        }
        if demands.add(a, b, numbers, round)? {
            return Ok(Differences::Asked);
        }
        push_arguments(classes, a, b, pairs)?;
    }
    Ok(Differences::Lack)
}

// The pairs of arguments of the constructor terms of two classes.
fn push_arguments(
    classes: &Classes,
    a: TermId,
    b: TermId,
    pairs: &mut Vec<(TermId, TermId)>,
) -> Result<(), BuildError> {
    let (Some(left), Some(right)) = (con_of(classes, a), con_of(classes, b)) else {
        return Ok(());
    };
    match (core_of(classes, left), core_of(classes, right)) {
        (Some(Core::Con(_, xs)), Some(Core::Con(_, ys))) => {
            push_pairs(xs.as_slice(), ys.as_slice(), pairs)
        }
        _ => Ok(()),
    }
}
