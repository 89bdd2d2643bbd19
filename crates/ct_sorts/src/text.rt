//! Texts of sorts.
ghost use Rattle.std.specs.Prelude.{◌≡◌, ◌++◌, ◌<◌, ◌∷◌, All, length, IfOk, IfErr, OnOk};
ghost use Rattle.std.specs.List.{flat_map};
ghost use Rattle.ct_sorts.specs.Lookup.{names_of};
ghost use Rattle.ct_sorts.specs.TextParts.{text_with, texts_of};
ghost use Rattle.ct_sexpr.specs.Written.{written_name};

use crate::entries::SortEntry;
use crate::error::SigError;
use crate::ids::SortId;
use crate::numbered::Numbered;
use ct_sexpr::is_simple;
use std::alloc::Global;

/// The text of a sort or generic of this name with these arguments, whose texts are there. The only error is `NoMemory`.
pub(crate) fn sort_text(
    alloc: Global,
    sorts: &Numbered<SortEntry>,
    name: &[u8],
    args: &[SortId],
) -> Result<Vec<u8>, SigError>
    requires args { All (λ s. s.0 < length sorts.now) args.now }
    ensures ok { IfOk result (λ text. text.items ≡ text_with name.now (texts_of (names_of sorts.now) args.now)) }
    ensures err { IfErr result (λ e. e ≡ SigError.NoMemory) }
{
    let mut text = Vec::new(alloc);
    if args.is_empty() {
        push_name(&mut text, name)?;
        return Ok(text);
    }
    text.push(b'(')?;
    push_name(&mut text, name)?;
    push_args(&mut text, sorts, args)?;
    text.push(b')')?;
    Ok(text)
}

// A name, quoted where it needs to be.
fn push_name(text: &mut Vec<u8>, name: &[u8]) -> Result<(), SigError>
    ensures ok { OnOk result (text.new.items ≡ text.old.items ++ written_name name.now) }
    ensures err { IfErr result (λ e. e ≡ SigError.NoMemory) }
{
    if is_simple(name) {
        text.extend_from_slice(name)?;
        return Ok(());
    }
    text.push(b'|')?;
    text.extend_from_slice(name)?;
    text.push(b'|')?;
    Ok(())
}

// The texts of arguments, each after a space.
fn push_args(
    text: &mut Vec<u8>,
    sorts: &Numbered<SortEntry>,
    args: &[SortId],
) -> Result<(), SigError>
    requires args { All (λ s. s.0 < length sorts.now) args.now }
    ensures ok { OnOk result (text.new.items ≡ text.old.items ++ flat_map (λ arg. 32 ∷ arg) (texts_of (names_of sorts.now) args.now)) }
    ensures err { IfErr result (λ e. e ≡ SigError.NoMemory) }
{
    for arg in args {
        text.push(b' ')?;
        text.extend_from_slice(sorts.name(arg.0 as usize))?;
    }
    Ok(())
}
