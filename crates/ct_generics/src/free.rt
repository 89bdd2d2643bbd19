//! Whether the names of a block are new.
ghost use Rattle.std.specs.Prelude.{◌≡◌, ◌↔◌, ◌||◌, ◌++◌, map, IfOk, IfErr, IsTrue};
ghost use Rattle.ct_generics.specs.Names.{IsListed};
ghost use Rattle.ct_generics.specs.Stored.{AreFree};

use crate::decl::SortDecl;
use crate::error::GenericError;
use crate::generics::Generics;
use crate::name::Name;
use crate::names::Names;
use std::alloc::Global;

/// Whether no declared sort or generic has a name of the block, and no name occurs twice in the block. The only error
/// is `NoMemory`.
pub fn are_free(alloc: Global, g: &Generics, block: &[SortDecl]) -> Result<bool, GenericError>
    ensures free { IfOk result (λ free. IsTrue free ↔ AreFree g.now.head_names (map (λ (s : SortDecl). s.name) block.now)) }
    ensures err { IfErr result (λ e. e ≡ GenericError.NoMemory) }
{
    let mut seen = Names::new(alloc);
    for decl in block {
        if is_taken(&g.head_names, &seen, &decl.name) {
            return Ok(false);
        }
        let name = Name::from_slice(alloc, decl.name.as_slice())?;
        seen.push(name)?;
    }
    Ok(true)
}

// Whether the name is one of the first or of the second.
fn is_taken(names: &Names, more: &Names, name: &Name) -> bool
    ensures taken { IsTrue result ↔ IsListed (names.now ++ more.now) name.now }
{
    let first = is_listed(names, name);
    let second = is_listed(more, name);
    either(first, second)
}

/// Whether one of them holds.
pub(crate) fn either(first: bool, second: bool) -> bool
    ensures value { result ≡ (first || second) }
{
    first || second
}

/// Whether the name is one of these.
pub(crate) fn is_listed(names: &Names, name: &Name) -> bool
    ensures listed { IsTrue result ↔ IsListed names.now name.now }
{
    match names.find(name.as_slice()) {
        Some(_) => true,
        None => false,
    }
}
