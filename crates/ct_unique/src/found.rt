//! Pairs of constructor terms that must be equal, with at most one pair for two classes.
ghost use Rattle.std.specs.Prelude.{◌≡◌, ◌<◌, length, OnOk, IsTrue, is_some};
ghost use Rattle.indexmap.specs.IndexMap.{get};
ghost use Rattle.ct_unique.specs.Found.{same_key, IsIndexed, IsAdded};

use crate::error::UniqueError;
use ct_congr::Classes;
use ct_rules::Equation;
use ct_terms::TermId;
use indexmap::IndexMap;

/// Two classes, by their representatives.
#[derive(Clone, Copy, Debug, PartialEq, Eq, Hash)]
pub(crate) struct Key {
    pub(crate) left: TermId,
    pub(crate) right: TermId,
}

/// Pairs, and the index of the pair of two classes.
#[derive(Drop)]
pub(crate) struct Found {
    pub(crate) places: IndexMap<Key, usize>,
    pub(crate) pairs: Vec<Equation>,
}

/// Adds the pair at the end, unless there is one of the same classes.
pub(crate) fn add(classes: &Classes, found: &mut Found, pair: Equation) -> Result<(), UniqueError>
    requires left { pair.left.0 < length classes.now.terms }
    requires right { pair.right.0 < length classes.now.terms }
    requires indexed { IsIndexed classes.now found.old.places found.old.pairs.items }
    ensures added { OnOk result (IsAdded classes.now found.old.places found.old.pairs.items found.new.places found.new.pairs.items pair) }
{
    prove!(classes.merges().len() >= 0);
    let key = Key {
        left: classes.rep(pair.left),
        right: classes.rep(pair.right),
    };
    if has_place(&found.places, &key) {
        return Ok(());
    }
    found.places.insert(key, found.pairs.len())?;
    found.pairs.push(pair)?;
    Ok(())
}

// Whether there is a pair of the two classes.
fn has_place(places: &IndexMap<Key, usize>, key: &Key) -> bool
    ensures value { result ≡ is_some (get same_key places.now key.now) }
{
    places.get(key).is_some()
}
