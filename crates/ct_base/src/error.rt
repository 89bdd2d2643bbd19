//! The errors of other crates as that of closing.
ghost use Rattle.std.specs.Prelude.{◌≡◌, ◌≤◌, length, OnOk, OnErr, IfOk, IsErrOf};
ghost use Rattle.ct_sorts.specs.Declarations.{Declarations};
ghost use Rattle.ct_sorts.specs.Consistent.{IsConsistent};
ghost use Rattle.ct_sorts.specs.Grown.{Extends};
ghost use Rattle.ct_card.specs.Sizes.{AreSizes};

use ct_card::Sizes;
use ct_closure::CloseError;
use ct_sorts::Signature;
use std::alloc::Global;

/// The sizes of all sorts of the signature.
pub(crate) fn new_sizes(alloc: Global, sig: &Signature) -> Result<Sizes, CloseError>
    ensures sizes { IfOk result (AreSizes sig.now) }
    ensures err { IsErrOf result CloseError.TooLarge → ⊥ }
{
    match Sizes::new(alloc, sig) {
        Ok(sizes) => Ok(sizes),
        Err(_) => Err(CloseError::NoMemory),
    }
}

/// Makes the sizes of earlier declarations those of the signature.
pub(crate) fn extend_sizes(sizes: &mut Sizes, sig: &Signature) -> Result<(), CloseError>
    requires earlier { (earlier : Declarations) × IsConsistent earlier × Extends sig.now earlier × AreSizes earlier sizes.old }
    ensures sizes { OnOk result (AreSizes sig.now sizes.new) }
    ensures unchanged { OnErr result (sizes.new ≡ sizes.old) }
    ensures err { IsErrOf result CloseError.TooLarge → ⊥ }
{
    match sizes.extend(sig) {
        Ok(()) => Ok(()),
        Err(_) => Err(CloseError::NoMemory),
    }
}
