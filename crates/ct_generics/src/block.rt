//! The sorts and generics of a block with the sorts of their fields, which their names stand for.
ghost use Rattle.std.specs.Prelude.{◌≡◌, ◌<◌, ℕ, List, length, Ok, Err, IfOk, IsErrOf};
ghost use Rattle.std.specs.List.{AllZip};
ghost use Rattle.ct_generics.specs.Expression.{Expression};
ghost use Rattle.ct_generics.specs.Declarations.{Declared, Head};
ghost use Rattle.ct_generics.specs.Nodes.{Stay, StandFor};
ghost use Rattle.ct_generics.specs.Outcome.{each};
ghost use Rattle.ct_generics.specs.Resolved.{resolved};
ghost use Rattle.ct_generics.specs.Block.{fields_in, head_in};
ghost use Rattle.ct_generics.specs.Stored.{AreDeclared, AreStored, IsStored};

use crate::decl::{CtorDecl, Field, SortDecl};
use crate::error::GenericError;
use crate::generics::Generics;
use crate::heads::StoredHead;
use crate::items::Items;
use crate::kind::Kind;
use crate::name::Name;
use crate::nodes::{ExprId, Expressions};
use crate::resolution::resolve;
use std::alloc::Global;

/// The sorts and generics of a block, where its names are declared. It is refused with 12 at an unknown name and with
/// 22 at a wrong number of arguments, whichever comes first.
pub(crate) fn resolve_block(
    alloc: Global,
    g: &Generics,
    kind: Kind,
    block: &[SortDecl],
) -> Result<Vec<StoredHead>, GenericError>
    requires declared { (d : Declared) × AreDeclared g.now d }
    ensures ok { IfOk result (λ own. (d : Declared) → AreDeclared g.now d → (hs : List Head) × (each (head_in d kind) block.now ≡ Ok hs) × AreStored own.items hs) }
    ensures refused { (n : ℕ) (d : Declared) → IsErrOf result (GenericError.Refused n) → AreDeclared g.now d → each (head_in d kind) block.now ≡ Err n }
{
    let mut own = Vec::with_capacity(alloc, block.len())?;
    for decl in block {
        let head = resolve_decl(alloc, g, kind, decl)?;
        own.push(head)?;
    }
    Ok(own)
}

// One sort or generic.
fn resolve_decl(
    alloc: Global,
    g: &Generics,
    kind: Kind,
    decl: &SortDecl,
) -> Result<StoredHead, GenericError>
    requires declared { (d : Declared) × AreDeclared g.now d }
    ensures ok { IfOk result (λ stored. (d : Declared) → AreDeclared g.now d → (head : Head) × (head_in d kind decl.now ≡ Ok head) × IsStored stored head) }
    ensures refused { (n : ℕ) (d : Declared) → IsErrOf result (GenericError.Refused n) → AreDeclared g.now d → head_in d kind decl.now ≡ Err n }
{
    let mut template = Expressions::new(alloc);
    let ctors = resolve_ctors(alloc, g, &mut template, decl.ctors.as_slice())?;
    let name = Name::from_slice(alloc, decl.name.as_slice())?;
    Ok(StoredHead {
        name,
        kind,
        params: decl.params,
        template,
        ctors: Items::new(ctors),
    })
}

// The field sorts of each constructor.
fn resolve_ctors(
    alloc: Global,
    g: &Generics,
    template: &mut Expressions,
    ctors: &[CtorDecl],
) -> Result<Vec<Items<ExprId>>, GenericError>
    requires declared { (d : Declared) × AreDeclared g.now d }
    ensures ok { IfOk result (λ rows. (d : Declared) → AreDeclared g.now d → (es : List (List Expression)) × (each (fields_in d) ctors.now ≡ Ok es) × AllZip (StandFor template.new) rows.items es) }
    ensures refused { (n : ℕ) (d : Declared) → IsErrOf result (GenericError.Refused n) → AreDeclared g.now d → each (fields_in d) ctors.now ≡ Err n }
    ensures stay { Stay template.old template.new }
{
    let mut rows = Vec::with_capacity(alloc, ctors.len())?;
    for ctor in ctors {
        let row = resolve_fields(alloc, g, template, ctor.fields.as_slice())?;
        rows.push(Items::new(row))?;
    }
    Ok(rows)
}

// The field sorts of one constructor.
fn resolve_fields(
    alloc: Global,
    g: &Generics,
    template: &mut Expressions,
    fields: &[Field],
) -> Result<Vec<ExprId>, GenericError>
    requires declared { (d : Declared) × AreDeclared g.now d }
    ensures ok { IfOk result (λ row. (d : Declared) → AreDeclared g.now d → (es : List Expression) × (each (λ (f : Field). resolved d f.sort) fields.now ≡ Ok es) × StandFor template.new row.items es) }
    ensures refused { (n : ℕ) (d : Declared) → IsErrOf result (GenericError.Refused n) → AreDeclared g.now d → each (λ (f : Field). resolved d f.sort) fields.now ≡ Err n }
    ensures stay { Stay template.old template.new }
{
    let mut row = Vec::with_capacity(alloc, fields.len())?;
    for field in fields {
        let id = resolve(alloc, g, template, &field.sort)?;
        row.push(id)?;
    }
    Ok(row)
}
