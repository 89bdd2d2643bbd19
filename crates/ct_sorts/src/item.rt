//! Adds an item to a list.
ghost use Rattle.std.specs.Prelude.{◌≡◌, ◌++◌, [], ◌∷◌, IfErr, OnErr, OnOk};

use crate::error::{SigError, sig_error};
use ct_generics::Items;

/// One more item at the end. The only error is `NoMemory`.
pub(crate) fn push_item<T: Drop>(items: &mut Items<T>, item: T) -> Result<(), SigError>
    ensures ok { OnOk result (items.new ≡ items.old ++ item ∷ []) }
    ensures unchanged { OnErr result (items.new ≡ items.old) }
    ensures err { IfErr result (λ e. e ≡ SigError.NoMemory) }
{
    match items.push(item) {
        Ok(()) => Ok(()),
        Err(error) => Err(sig_error(error)),
    }
}
