//! Whether the names of a block may be declared, and whether each of its sorts and generics has a constructor.
ghost use Rattle.std.specs.Prelude.{◌≡◌, ℕ, List, [], ◌∷◌, ◌++◌, map, OnOk, IsErrOf};
ghost use Rattle.ct_sorts.specs.Availability.{IsUnavailable, IsUnavailableSort, HasUnavailable, HasUnavailableSort};
ghost use Rattle.ct_sorts.specs.Declarations.{declared_names, symbol_names};
ghost use Rattle.ct_sorts.specs.Lookup.{names_of};
ghost use Rattle.ct_sorts.specs.Refusals.{name_taken};
ghost use Rattle.ct_sorts.specs.Block.{HasNameTaken, block_names, block_ctors, ctor_symbols, has_no_constructor};
ghost use Rattle.ct_generics.specs.declared.decl.Field.{Field};

use crate::error::SigError;
use crate::numbered::Numbered;
use crate::refusals::NAME_TAKEN;
use crate::signature::Signature;
use ct_generics::{CtorDecl, Field, Name, SortDecl};
use std::alloc::Global;

/// The block is refused with 11 where one of its names is taken, repeated or cannot be declared.
pub(crate) fn admit_block(
    alloc: Global,
    sig: &Signature,
    block: &[SortDecl],
) -> Result<(), SigError>
    ensures ok { OnOk result (HasNameTaken sig.now block.now → ⊥) }
    ensures refused { (n : ℕ) → IsErrOf result (SigError.Refused n) → (n ≡ name_taken) × HasNameTaken sig.now block.now }
{
    let mut own = Numbered::new(alloc);
    admit_sorts(alloc, sig, &mut own, block)?;
    drop(own);
    let mut seen = Numbered::new(alloc);
    admit_all_ctors(alloc, sig, &mut seen, block)
}

// The names of the block's sorts, each after those before it.
fn admit_sorts(
    alloc: Global,
    sig: &Signature,
    own: &mut Numbered<()>,
    block: &[SortDecl],
) -> Result<(), SigError>
    requires empty { own.old ≡ [] }
    ensures ok { OnOk result ((HasUnavailableSort (declared_names sig.now) (block_names block.now) → ⊥)
        × (names_of own.new ≡ block_names block.now)) }
    ensures refused { (n : ℕ) → IsErrOf result (SigError.Refused n)
        → (n ≡ name_taken) × HasUnavailableSort (declared_names sig.now) (block_names block.now) }
{
    for decl in block {
        admit_sort(alloc, sig, own, &decl.name)?;
    }
    Ok(())
}

// One more name of a sort.
fn admit_sort(
    alloc: Global,
    sig: &Signature,
    own: &mut Numbered<()>,
    name: &Name,
) -> Result<(), SigError>
    ensures ok { OnOk result ((IsUnavailableSort (declared_names sig.now ++ names_of own.old) name.now → ⊥)
        × (names_of own.new ≡ names_of own.old ++ name.now ∷ [])) }
    ensures refused { (n : ℕ) → IsErrOf result (SigError.Refused n)
        → (n ≡ name_taken) × IsUnavailableSort (declared_names sig.now ++ names_of own.old) name.now }
{
    let text = name.as_slice();
    if sig.is_unavailable_sort(name) {
        return Err(SigError::Refused(NAME_TAKEN));
    }
    if own.has(text) {
        return Err(SigError::Refused(NAME_TAKEN));
    }
    let copied = Name::from_slice(alloc, text)?;
    own.push(copied, ())
}

// The names of the constructors and fields of each sort.
fn admit_all_ctors(
    alloc: Global,
    sig: &Signature,
    seen: &mut Numbered<()>,
    block: &[SortDecl],
) -> Result<(), SigError>
    requires empty { seen.old ≡ [] }
    ensures ok { OnOk result (HasUnavailable (symbol_names sig.now) (ctor_symbols (block_ctors block.now)) → ⊥) }
    ensures refused { (n : ℕ) → IsErrOf result (SigError.Refused n)
        → (n ≡ name_taken) × HasUnavailable (symbol_names sig.now) (ctor_symbols (block_ctors block.now)) }
{
    for decl in block {
        admit_ctors(alloc, sig, seen, decl.ctors.as_slice())?;
    }
    Ok(())
}

// The names of constructors and their fields, each after those before it.
fn admit_ctors(
    alloc: Global,
    sig: &Signature,
    seen: &mut Numbered<()>,
    ctors: &[CtorDecl],
) -> Result<(), SigError>
    ensures ok { OnOk result ((HasUnavailable (symbol_names sig.now ++ names_of seen.old) (ctor_symbols ctors.now) → ⊥)
        × (names_of seen.new ≡ names_of seen.old ++ ctor_symbols ctors.now)) }
    ensures refused { (n : ℕ) → IsErrOf result (SigError.Refused n)
        → (n ≡ name_taken) × HasUnavailable (symbol_names sig.now ++ names_of seen.old) (ctor_symbols ctors.now) }
{
    for ctor in ctors {
        admit_ctor(alloc, sig, seen, ctor)?;
    }
    Ok(())
}

// The names of one constructor and its fields.
fn admit_ctor(
    alloc: Global,
    sig: &Signature,
    seen: &mut Numbered<()>,
    ctor: &CtorDecl,
) -> Result<(), SigError>
    ensures ok { OnOk result ((HasUnavailable (symbol_names sig.now ++ names_of seen.old) (ctor.now.name ∷ map (λ (f : Field). f.name) ctor.now.fields) → ⊥)
        × (names_of seen.new ≡ names_of seen.old ++ ctor.now.name ∷ map (λ (f : Field). f.name) ctor.now.fields)) }
    ensures refused { (n : ℕ) → IsErrOf result (SigError.Refused n)
        → (n ≡ name_taken) × HasUnavailable (symbol_names sig.now ++ names_of seen.old) (ctor.now.name ∷ map (λ (f : Field). f.name) ctor.now.fields) }
{
    admit_symbol(alloc, sig, seen, &ctor.name)?;
    admit_fields(alloc, sig, seen, ctor.fields.as_slice())
}

// The names of fields.
fn admit_fields(
    alloc: Global,
    sig: &Signature,
    seen: &mut Numbered<()>,
    fields: &[Field],
) -> Result<(), SigError>
    ensures ok { OnOk result ((HasUnavailable (symbol_names sig.now ++ names_of seen.old) (map (λ (f : Field). f.name) fields.now) → ⊥)
        × (names_of seen.new ≡ names_of seen.old ++ map (λ (f : Field). f.name) fields.now)) }
    ensures refused { (n : ℕ) → IsErrOf result (SigError.Refused n)
        → (n ≡ name_taken) × HasUnavailable (symbol_names sig.now ++ names_of seen.old) (map (λ (f : Field). f.name) fields.now) }
{
    for field in fields {
        admit_symbol(alloc, sig, seen, &field.name)?;
    }
    Ok(())
}

// One more name of a constructor or a field.
fn admit_symbol(
    alloc: Global,
    sig: &Signature,
    seen: &mut Numbered<()>,
    name: &Name,
) -> Result<(), SigError>
    ensures ok { OnOk result ((IsUnavailable (symbol_names sig.now ++ names_of seen.old) name.now → ⊥)
        × (names_of seen.new ≡ names_of seen.old ++ name.now ∷ [])) }
    ensures refused { (n : ℕ) → IsErrOf result (SigError.Refused n)
        → (n ≡ name_taken) × IsUnavailable (symbol_names sig.now ++ names_of seen.old) name.now }
{
    let text = name.as_slice();
    if sig.is_unavailable_name(name) {
        return Err(SigError::Refused(NAME_TAKEN));
    }
    if seen.has(text) {
        return Err(SigError::Refused(NAME_TAKEN));
    }
    let copied = Name::from_slice(alloc, text)?;
    seen.push(copied, ())
}

/// Whether some sort or generic of the block has no constructor.
pub(crate) fn has_no_constructor(block: &[SortDecl]) -> bool
    ensures value { result ≡ has_no_constructor block.now }
{
    block.iter().any(|decl| decl.ctors.len() == 0)
}
