//! The error with which a block is refused once its names are known.
ghost use Rattle.std.specs.Prelude.{◌≡◌, ◌↔◌, ◌≤◌, ℕ, List, length, IsErrOf, OnOk, IsTrue};
ghost use Rattle.ct_generics.specs.declared.kind.Kind.TheVariants.{Data};
ghost use Rattle.ct_generics.specs.Declarations.{Head};
ghost use Rattle.ct_generics.specs.Stored.{AreStored};
ghost use Rattle.ct_generics.specs.Findings.{AreFindings};
ghost use Rattle.ct_generics.specs.Block.{IsShapeRefusal, IsGraphRefusal};

use crate::error::GenericError;
use crate::findings::{Findings, find_out};
use crate::heads::StoredHead;
use crate::kind::Kind;
use crate::uniform::are_uniform;
use std::alloc::Global;

/// A datatype is not well founded.
const NOT_FOUNDED: u16 = 14;
/// An expression reaches too many others, or has too long a text.
const TOO_MANY: u16 = 16;
/// A datatype goes through a codatatype back to itself.
const MIXED: u16 = 17;
/// A name of the block stands at other arguments than the parameters.
const NOT_UNIFORM: u16 = 18;

/// Refuses the block of the sorts and generics from `first` on: with 18 where it is not uniform, with 16 where one of
/// them reaches too much, with 17 where one is mixed, and with 14 where a datatype is not well founded, in this order.
pub(crate) fn refuse_shape(
    alloc: Global,
    heads: &[StoredHead],
    first: usize,
    kind: Kind,
) -> Result<(), GenericError>
    requires stored { (hs : List Head) × AreStored heads.now hs }
    requires within { first ≤ length heads.now }
    ensures ok { OnOk result ((n : ℕ) (hs : List Head) → AreStored heads.now hs → IsShapeRefusal first kind hs n → ⊥) }
    ensures refused { (n : ℕ) (hs : List Head) → IsErrOf result (GenericError.Refused n) → AreStored heads.now hs → IsShapeRefusal first kind hs n }
{
    if !are_uniform(alloc, heads, first)? {
        return Err(GenericError::Refused(NOT_UNIFORM));
    }
    let found = find_out(alloc, heads, first)?;
    refuse_findings(found, kind)
}

// The first refusal for what was found.
fn refuse_findings(found: Findings, kind: Kind) -> Result<(), GenericError>
    ensures ok { OnOk result ((first n : ℕ) (hs : List Head) → AreFindings first (length hs) hs found → IsGraphRefusal first kind hs n → ⊥) }
    ensures refused { (first n : ℕ) (hs : List Head) → IsErrOf result (GenericError.Refused n) → AreFindings first (length hs) hs found → IsGraphRefusal first kind hs n }
{
    if found.large {
        return Err(GenericError::Refused(TOO_MANY));
    }
    if found.mixed {
        return Err(GenericError::Refused(MIXED));
    }
    if is_data(kind) && found.unfounded {
        return Err(GenericError::Refused(NOT_FOUNDED));
    }
    Ok(())
}

// Whether this is the kind of datatypes.
fn is_data(kind: Kind) -> bool
    ensures data_kind { IsTrue result ↔ (kind ≡ Data) }
{
    match kind {
        Kind::Data => true,
        Kind::Bool => false,
        Kind::Free => false,
        Kind::Codata => false,
    }
}
