//! Maps from terms over representatives to terms of the table.
ghost use Rattle.std.specs.Prelude.{◌≡◌, Some, IfOk};
ghost use Rattle.indexmap.specs.IndexMap.{get};
ghost use Rattle.ct_terms.specs.declared.term.Core.{Core};
ghost use Rattle.ct_congr.specs.Index.{same_core, IsEntered};

use crate::error::CongrError;
use ct_terms::{Core, TermId};
use indexmap::IndexMap;

/// Terms of the table, each under a term over representatives.
pub(crate) type TermIndex = IndexMap<Core, TermId>;

/// The term under the key.
pub(crate) fn known(index: &TermIndex, key: &Core) -> Option<TermId>
    ensures value { result ≡ get same_core index.now key.now }
{
    index.get(key).copied()
}

/// Puts the term under the key, unless one is there. The answer is the one that is there then.
pub(crate) fn enter(index: &mut TermIndex, key: Core, t: TermId) -> Result<TermId, CongrError>
    ensures entered { IfOk result (IsEntered index.old index.new key t) }
{
    if let Some(first) = known(index, &key) {
        return Ok(first);
    }
    index.insert(key, t)?;
    Ok(t)
}
