//! Names that occur twice.
ghost use Rattle.std.specs.Prelude.{◌≡◌, ◌++◌, [], ◌∷◌, map, false, IfOk, IfErr};
ghost use Rattle.ct_names.specs.Bounds.{held_name};
ghost use Rattle.ct_names.specs.Repeats.{names_in_set, are_met};
ghost use Rattle.ct_names.specs.Variables.{present_names, has_repeated};

use crate::error::CheckError;
use indexmap::IndexSet;
use std::alloc::Global;

/// Whether some name occurs twice. It fails only where memory runs out, and takes about as many look-ups as there are
/// names.
pub fn has_repeated(alloc: Global, names: &[Option<&[u8]>]) -> Result<bool, CheckError>
    ensures value { IfOk result (λ r. r ≡ has_repeated (present_names (map held_name names.now))) }
    ensures err { IfErr result (λ e. e ≡ CheckError.NoMemory) }
{
    let mut seen = IndexSet::new(alloc);
    let mut left = names;
    while let [first, others @ ..] = left {
        let met = meet(&mut seen, *first)?;
        if met {
            return Ok(true);
        }
        left = others;
    }
    Ok(false)
}

// Whether the name, where there is one, is among those that were met. It is one of them from now on.
fn meet<'e>(seen: &mut IndexSet<&'e [u8]>, name: Option<&'e [u8]>) -> Result<bool, CheckError>
    ensures met { IfOk result (λ r. r ≡ are_met (names_in_set seen.old) (present_names (held_name name.entry ∷ []))) }
    ensures more { IfOk result (λ r. r ≡ false → names_in_set seen.new ≡ names_in_set seen.old ++ present_names (held_name name.entry ∷ [])) }
    ensures err { IfErr result (λ e. e ≡ CheckError.NoMemory) }
{
    match name {
        Some(text) => {
            let new = seen.insert(text)?;
            Ok(!new)
        }
        None => Ok(false),
    }
}
