//! Blocks of datatypes and codatatypes, and uninterpreted sorts.
ghost use Rattle.std.specs.Prelude.{◌≡◌, ℕ, ◌⊎◌, ◌≤◌, List, true, [], ◌∷◌, map, length, Err, All, OnOk, OnErr, IfOk, IsErrOf};
ghost use Rattle.std.specs.List.{AllZip};
ghost use Rattle.ct_generics.specs.declared.decl.CtorDecl.{CtorDecl};
ghost use Rattle.ct_generics.specs.declared.decl.Field.{Field};
ghost use Rattle.ct_generics.specs.declared.decl.SortDecl.{SortDecl};
ghost use Rattle.ct_sexpr.specs.View.{expression_of};
ghost use Rattle.ct_sorts.specs.declared.ids.Declared.{Declared as Given};
ghost use Rattle.ct_sorts.specs.Block.{IsWithBlock, IsBlockRefusal};
ghost use Rattle.ct_sorts.specs.Written.{AreParametersBelow, AreBlockParametersBelow};
ghost use Rattle.ct_names.specs.Refusals.{out_of_scope};
ghost use Rattle.ct_names.specs.Sorts.{Writes, HasNoSortForm};
ghost use Rattle.ct_names.specs.Variables.{has_repeated};
ghost use Rattle.ct_command.specs.Seen.{named_seen, head_seen, constructor_seen, body_seen};
ghost use Rattle.ct_stack.specs.Elaborations.{kind_of, with_free, IsWithTypes, are_counted, have_repeated_parameter, IsFieldOf, IsCtorOf, IsDeclOf, AreDecls, IsBelow, HasFieldsBelow};
ghost use Rattle.ct_stack.specs.Refusal.{IsSortRefusal, IsTypesRefusal, HasFormlessField};

use crate::sorts::command_error;
use ct_command::{Body, CommandError, Constructor, Family, Named, SortHead};
use ct_names::{field_sort, has_repeated};
use ct_sorts::{CtorDecl, Field, Items, Kind, Name, SigError, Signature, SortDecl, SortExpr};
use std::alloc::Global;

/// The number of the error of a repeated parameter.
const REPEATED_VARIABLE: u16 = 27;

/// The number of the error of a block with another number of names than of bodies.
const COUNTS_DIFFER: u16 = 15;

/// Declares an uninterpreted sort with so many arguments.
pub(crate) fn declare_sort(
    alloc: Global,
    sig: &mut Signature,
    name: &[u8],
    params: u8,
) -> Result<(), CommandError>
    ensures ok { OnOk result (sig.new ≡ with_free sig.old name.now params) }
    ensures accepted { OnOk result ((n : ℕ) → IsSortRefusal sig.old name.now n → ⊥) }
    ensures refused { (n : ℕ) → IsErrOf result (CommandError.Refused n) → IsSortRefusal sig.old name.now n }
    ensures unchanged { OnErr result (sig.new ≡ sig.old) }
{
    let name = Name::from_slice(alloc, name)?;
    if params == 0 {
        return add_plain(sig, name);
    }
    add_applied(sig, name, params)
}

// Adds an uninterpreted sort without arguments.
fn add_plain(sig: &mut Signature, name: Name) -> Result<(), CommandError>
    ensures ok { OnOk result (sig.new ≡ with_free sig.old name 0) }
    ensures accepted { OnOk result ((n : ℕ) → IsSortRefusal sig.old name n → ⊥) }
    ensures refused { (n : ℕ) → IsErrOf result (CommandError.Refused n) → IsSortRefusal sig.old name n }
    ensures unchanged { OnErr result (sig.new ≡ sig.old) }
{
    match sig.add_free(name) {
        Ok(_) => Ok(()),
        Err(SigError::Refused(code)) => Err(CommandError::Refused(code)),
        Err(SigError::NoMemory) => Err(CommandError::NoMemory),
    }
}

// Adds an uninterpreted sort with so many arguments.
fn add_applied(sig: &mut Signature, name: Name, params: u8) -> Result<(), CommandError>
    requires some { 1 ≤ params }
    ensures ok { OnOk result (sig.new ≡ with_free sig.old name params) }
    ensures accepted { OnOk result ((n : ℕ) → IsSortRefusal sig.old name n → ⊥) }
    ensures refused { (n : ℕ) → IsErrOf result (CommandError.Refused n) → IsSortRefusal sig.old name n }
    ensures unchanged { OnErr result (sig.new ≡ sig.old) }
{
    match sig.add_free_generic(name, params as u32) {
        Ok(_) => Ok(()),
        Err(SigError::Refused(code)) => Err(CommandError::Refused(code)),
        Err(SigError::NoMemory) => Err(CommandError::NoMemory),
    }
}

/// Declares a block of sorts.
pub(crate) fn declare_block(
    alloc: Global,
    sig: &mut Signature,
    family: Family,
    heads: &[SortHead<'_>],
    bodies: &[Body<'_>],
) -> Result<(), CommandError>
    ensures ok { OnOk result (IsWithTypes sig.old family (map head_seen heads.now) (map body_seen bodies.now) sig.new) }
    ensures accepted { OnOk result ((n : ℕ) → IsTypesRefusal sig.old family (map head_seen heads.now) (map body_seen bodies.now) n → ⊥) }
    ensures refused { (n : ℕ) → IsErrOf result (CommandError.Refused n)
        → IsTypesRefusal sig.old family (map head_seen heads.now) (map body_seen bodies.now) n }
    ensures unchanged { OnErr result (sig.new ≡ sig.old) }
{
    if !are_counted(heads, bodies) {
        return Err(CommandError::Refused(COUNTS_DIFFER));
    }
    if have_repeated_parameter(alloc, bodies)? {
        return Err(CommandError::Refused(REPEATED_VARIABLE));
    }
    let decls = block_of(alloc, heads, bodies)?;
    add_block(sig, kind_of(family), decls)
}

// Adds the block.
fn add_block(sig: &mut Signature, kind: Kind, decls: Vec<SortDecl>) -> Result<(), CommandError>
    requires kind { (kind ≡ Kind.Data) ⊎ (kind ≡ Kind.Codata) }
    requires parameters { AreBlockParametersBelow decls.items }
    ensures ok { OnOk result ((given : List Given) × IsWithBlock sig.old kind decls.items given sig.new) }
    ensures accepted { OnOk result ((n : ℕ) → IsBlockRefusal sig.old kind decls.items n → ⊥) }
    ensures refused { (n : ℕ) → IsErrOf result (CommandError.Refused n) → IsBlockRefusal sig.old kind decls.items n }
    ensures unchanged { OnErr result (sig.new ≡ sig.old) }
{
    match sig.add_block(kind, decls) {
        Ok(given) => {
            drop(given);
            Ok(())
        }
        Err(SigError::Refused(code)) => Err(CommandError::Refused(code)),
        Err(SigError::NoMemory) => Err(CommandError::NoMemory),
    }
}

// The kind of the sorts of a block.
fn kind_of(family: Family) -> Kind
    ensures value { result ≡ kind_of family }
    ensures structured { (result ≡ Kind.Data) ⊎ (result ≡ Kind.Codata) }
{
    match family {
        Family::Data => Kind::Data,
        Family::Codata => Kind::Codata,
    }
}

// Whether there is a body for each sort, and as many type parameters in it as the sort has arguments.
fn are_counted(heads: &[SortHead<'_>], bodies: &[Body<'_>]) -> bool
    ensures value { result ≡ are_counted (map head_seen heads.now) (map body_seen bodies.now) }
{
    let mut heads_left = heads;
    let mut bodies_left = bodies;
    while let [head, more_heads @ ..] = heads_left {
        let [body, more_bodies @ ..] = bodies_left else {
            return false;
        };
        if head.arity != body.params.len() as u128 {
            return false;
        }
        heads_left = more_heads;
        bodies_left = more_bodies;
    }
    bodies_left.is_empty()
}

// Whether a type parameter stands twice in one of the bodies.
fn have_repeated_parameter(alloc: Global, bodies: &[Body<'_>]) -> Result<bool, CommandError>
    ensures value { IfOk result (λ r. r ≡ have_repeated_parameter (map body_seen bodies.now)) }
    ensures err { OnErr result (result ≡ Err CommandError.NoMemory) }
{
    let mut left = bodies;
    while let [first, others @ ..] = left {
        let repeated = has_repeated_name(alloc, first.params.as_slice())?;
        if repeated {
            return Ok(true);
        }
        left = others;
    }
    Ok(false)
}

/// Whether a name stands twice.
pub(crate) fn has_repeated_name(alloc: Global, names: &[&[u8]]) -> Result<bool, CommandError>
    ensures value { IfOk result (λ r. r ≡ has_repeated (map (λ name. name.now) names.now)) }
    ensures err { OnErr result (result ≡ Err CommandError.NoMemory) }
{
    let mut left = names;
    let mut held = Vec::with_capacity(alloc, names.len())?;
    while let [first, others @ ..] = left {
        held.push(Some(*first))?;
        left = others;
    }
    match has_repeated(alloc, held.as_slice()) {
        Ok(repeated) => Ok(repeated),
        Err(error) => Err(command_error(error)),
    }
}

// What a block declares.
fn block_of(
    alloc: Global,
    heads: &[SortHead<'_>],
    bodies: &[Body<'_>],
) -> Result<Vec<SortDecl>, CommandError>
    requires counted { are_counted (map head_seen heads.now) (map body_seen bodies.now) ≡ true }
    ensures ok { IfOk result (λ decls. AreDecls (map head_seen heads.now) (map body_seen bodies.now) decls.items) }
    ensures refused { (n : ℕ) → IsErrOf result (CommandError.Refused n) → (n ≡ out_of_scope) × HasFormlessField (map head_seen heads.now) (map body_seen bodies.now) }
    ensures below { IfOk result (λ decls. AreBlockParametersBelow decls.items) }
{
    let mut heads_left = heads;
    let mut bodies_left = bodies;
    let mut decls = Vec::with_capacity(alloc, heads.len())?;
    while let [head, more_heads @ ..] = heads_left {
        let [body, more_bodies @ ..] = bodies_left else {
            return Ok(decls);
        };
        let decl = declared(alloc, head, body)?;
        decls.push(decl)?;
        heads_left = more_heads;
        bodies_left = more_bodies;
    }
    Ok(decls)
}

// What is declared of a sort. It is refused with 28 where the sort of a field has no form of a sort.
fn declared(alloc: Global, head: &SortHead<'_>, body: &Body<'_>) -> Result<SortDecl, CommandError>
    ensures ok { IfOk result (IsDeclOf (head_seen head.now) (body_seen body.now)) }
    ensures refused { (n : ℕ) → IsErrOf result (CommandError.Refused n) → (n ≡ out_of_scope) × ((decl : SortDecl) → IsDeclOf (head_seen head.now) (body_seen body.now) decl → ⊥) }
    ensures below { IfOk result (λ decl. AreBlockParametersBelow (decl ∷ [])) }
{
    let params = body.params.as_slice();
    let ctors = all_ctors(alloc, params, body.ctors.as_slice())?;
    let name = Name::from_slice(alloc, head.name)?;
    Ok(SortDecl {
        name,
        params: params.len() as u64,
        ctors: Items::new(ctors),
    })
}

// The constructors over these type parameters, one after the other.
fn all_ctors(
    alloc: Global,
    params: &[&[u8]],
    ctors: &[Constructor<'_>],
) -> Result<Vec<CtorDecl>, CommandError>
    ensures ok { IfOk result (λ all. AllZip (IsCtorOf (map (λ p. p.now) params.now)) (map constructor_seen ctors.now) all.items) }
    ensures refused { (n : ℕ) → IsErrOf result (CommandError.Refused n) → (n ≡ out_of_scope) × ((all : List CtorDecl) → AllZip (IsCtorOf (map (λ p. p.now) params.now)) (map constructor_seen ctors.now) all → ⊥) }
    ensures below { IfOk result (λ all. All (HasFieldsBelow (length params.now)) all.items) }
{
    let mut left = ctors;
    let mut all = Vec::with_capacity(alloc, ctors.len())?;
    while let [first, others @ ..] = left {
        let name = Name::from_slice(alloc, first.name)?;
        let fields = all_fields(alloc, params, first.fields.as_slice())?;
        all.push(CtorDecl {
            name,
            fields: Items::new(fields),
        })?;
        left = others;
    }
    Ok(all)
}

// The fields of a constructor.
fn all_fields(
    alloc: Global,
    params: &[&[u8]],
    fields: &[Named<'_>],
) -> Result<Vec<Field>, CommandError>
    ensures ok { IfOk result (λ all. AllZip (IsFieldOf (map (λ p. p.now) params.now)) (map named_seen fields.now) all.items) }
    ensures refused { (n : ℕ) → IsErrOf result (CommandError.Refused n) → (n ≡ out_of_scope) × ((all : List Field) → AllZip (IsFieldOf (map (λ p. p.now) params.now)) (map named_seen fields.now) all → ⊥) }
    ensures below { IfOk result (λ all. All (IsBelow (length params.now)) all.items) }
{
    let mut left = fields;
    let mut all = Vec::with_capacity(alloc, fields.len())?;
    while let [first, others @ ..] = left {
        let name = Name::from_slice(alloc, first.name)?;
        let sort = sort_of_field(alloc, params, first)?;
        all.push(Field { name, sort })?;
        left = others;
    }
    Ok(all)
}

// The sort of a field.
fn sort_of_field(
    alloc: Global,
    params: &[&[u8]],
    field: &Named<'_>,
) -> Result<SortExpr, CommandError>
    ensures ok { IfOk result (Writes (map (λ p. p.now) params.now) (expression_of field.now.sort.now)) }
    ensures refused { (n : ℕ) → IsErrOf result (CommandError.Refused n) → (n ≡ out_of_scope) × HasNoSortForm (map (λ p. p.now) params.now) (expression_of field.now.sort.now) }
    ensures below { IfOk result (AreParametersBelow (length params.now)) }
{
    match field_sort(alloc, params, field.sort) {
        Ok(sort) => Ok(sort),
        Err(error) => Err(command_error(error)),
    }
}
