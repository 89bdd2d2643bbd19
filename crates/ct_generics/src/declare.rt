//! Blocks of sorts and generics: first their names are declared, then the sorts of their fields; finally the block is refused
//! if it does what a block must not do.
ghost use Rattle.std.specs.Prelude.{◌≡◌, ℕ, List, [], ◌∷◌, ◌++◌, length, map, take, Ok, Err, IfErr, IsErrOf, OnOk, OnErr};
ghost use Rattle.ct_generics.specs.Declarations.{Declared, Head};
ghost use Rattle.ct_generics.specs.Names.{IsListed};
ghost use Rattle.ct_generics.specs.Stored.{AreDeclared, AreFree, AreStored, IsBegun};
ghost use Rattle.ct_generics.specs.Outcome.{each};
ghost use Rattle.ct_generics.specs.Block.{IsBlockRefusal, IsShapeRefusal, head_in, heads_in, named_only, with_heads, with_names};

use crate::block::resolve_block;
use crate::decl::SortDecl;
use crate::error::GenericError;
use crate::generics::Generics;
use crate::heads::StoredHead;
use crate::items::Items;
use crate::kind::Kind;
use crate::name::Name;
use crate::nodes::Expressions;
use crate::refusal::refuse_shape;
use std::alloc::Global;

/// Declares the sorts and generics of a block whose names are free. The block is refused with the first of these: 12 at an
/// unknown name and 22 at a wrong number of arguments, by place; 18 where it is not uniform; 16 where one of its sorts
/// reaches more than 4,096 expressions, or one whose text is longer than 65,536 bytes; 17 where it is mixed; 14 where it is
/// one of datatypes and one of them is not well founded.
pub fn add_block(
    alloc: Global,
    g: &mut Generics,
    kind: Kind,
    block: &[SortDecl],
) -> Result<(), GenericError>
    requires declared { (d : Declared) × AreDeclared g.old d }
    requires free { AreFree g.old.head_names (map (λ (s : SortDecl). s.name) block.now) }
    ensures ok { OnOk result ((d : Declared) → AreDeclared g.old d → (own : List Head) × (heads_in d kind block.now ≡ Ok own) × AreDeclared g.new (with_heads d own) × ((n : ℕ) → IsBlockRefusal d kind block.now n → ⊥)) }
    ensures refused { (n : ℕ) (d : Declared) → IsErrOf result (GenericError.Refused n) → AreDeclared g.old d → IsBlockRefusal d kind block.now n }
    ensures unchanged { OnErr result (g.new ≡ g.old) }
{
    let first = g.heads.len();
    let names = g.head_names.len();
    match try_block(alloc, g, kind, block, first) {
        Ok(()) => Ok(()),
        Err(error) => {
            g.heads.truncate(first);
            g.head_names.truncate(names);
            Err(error)
        }
    }
}

// The same, but what is declared may stay where the block is refused.
fn try_block(
    alloc: Global,
    g: &mut Generics,
    kind: Kind,
    block: &[SortDecl],
    first: usize,
) -> Result<(), GenericError>
    requires declared { (d : Declared) × AreDeclared g.old d }
    requires free { AreFree g.old.head_names (map (λ (s : SortDecl). s.name) block.now) }
    requires first { first ≡ length g.old.heads }
    ensures ok { OnOk result ((d : Declared) → AreDeclared g.old d → (own : List Head) × (heads_in d kind block.now ≡ Ok own) × AreDeclared g.new (with_heads d own) × ((n : ℕ) → IsBlockRefusal d kind block.now n → ⊥)) }
    ensures refused { (n : ℕ) (d : Declared) → IsErrOf result (GenericError.Refused n) → AreDeclared g.old d → IsBlockRefusal d kind block.now n }
    ensures begun { IsBegun g.old g.new }
{
    declare_names(alloc, g, kind, block)?;
    let own = resolve_block(alloc, g, kind, block)?;
    g.heads.truncate(first);
    g.heads.append(own)?;
    refuse_shape(alloc, g.heads.as_slice(), first, kind)
}

// The names of the block come after those that are there.
fn declare_names(
    alloc: Global,
    g: &mut Generics,
    kind: Kind,
    block: &[SortDecl],
) -> Result<(), GenericError>
    requires free { AreFree g.old.head_names (map (λ (s : SortDecl). s.name) block.now) }
    ensures ok { OnOk result ((d : Declared) → AreDeclared g.old d → AreDeclared g.new (with_names d kind block.now)) }
    ensures begun { IsBegun g.old g.new }
    ensures err { IfErr result (λ e. e ≡ GenericError.NoMemory) }
{
    for decl in block {
        add_named(alloc, g, kind, &decl.name, decl.params)?;
    }
    Ok(())
}

/// Declares a sort or generic by its name and the number of its parameters alone, as Bool and the uninterpreted sorts
/// are. The only error is `NoMemory`.
pub fn add_named(
    alloc: Global,
    g: &mut Generics,
    kind: Kind,
    name: &Name,
    params: u64,
) -> Result<(), GenericError>
    requires fresh { IsListed g.old.head_names name.now → ⊥ }
    ensures ok { OnOk result ((d : Declared) → AreDeclared g.old d
        → AreDeclared g.new (with_heads d (record { name = name.now; kind = kind; params = params; ctors = [] } ∷ []))) }
    ensures names { OnOk result (g.new.head_names ≡ g.old.head_names ++ name.now ∷ []) }
    ensures begun { IsBegun g.old g.new }
    ensures unchanged { OnErr result (g.new ≡ g.old) }
    ensures err { IfErr result (λ e. e ≡ GenericError.NoMemory) }
{
    let stored = Name::from_slice(alloc, name.as_slice())?;
    let listed = Name::from_slice(alloc, name.as_slice())?;
    let first = g.heads.len();
    g.heads.push(StoredHead {
        name: stored,
        kind,
        params,
        template: Expressions::new(alloc),
        ctors: Items::new(Vec::new(alloc)),
    })?;
    match g.head_names.push(listed) {
        Ok(()) => Ok(()),
        Err(error) => {
            g.heads.truncate(first);
            Err(error)
        }
    }
}
