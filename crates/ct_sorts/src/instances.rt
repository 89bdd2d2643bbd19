//! Instances of generics: sorts that are added when they are needed.
ghost use Rattle.std.specs.Prelude.{◌≡◌, ℕ, List, [], ◌∷◌, Ok, IfOk, IfErr, IfSome, IfNone, IsErrOf, OnOk, OnErr, ◌<◌, ◌^◌, length, slice_get, Some};
ghost use Rattle.ct_generics.specs.Declarations.{IsExpression};
ghost use Rattle.ct_generics.specs.Denoted.{declared_of, sorts_of};
ghost use Rattle.ct_generics.specs.Expression.{Expression};
ghost use Rattle.ct_generics.specs.Nodes.{Stands, Stay};
ghost use Rattle.ct_generics.specs.Resolved.{resolved};
ghost use Rattle.ct_generics.specs.SortTable.{AreSorts};
ghost use Rattle.ct_generics.specs.Stored.{AreDeclared};
ghost use Rattle.ct_sorts.specs.Consistent.{IsConsistent};
ghost use Rattle.ct_sorts.specs.Declarations.{Function};
ghost use Rattle.ct_sorts.specs.Instances.{HasNoRoom, IsInstanceRefusal, IsOrigin, IsWithInstance, IsWithSorts};
ghost use Rattle.ct_sorts.specs.Growing.{HaveGrown, IsStanding};
ghost use Rattle.ct_sorts.specs.Marks.{lengths};
ghost use Rattle.ct_sorts.specs.Refusals.{too_many};
ghost use Rattle.ct_sorts.specs.Tabled.{of_tables, IsTabled};
ghost use Rattle.ct_sorts.specs.Written.{AreParametersBelow};

use crate::error::{SigError, sig_error};
use crate::facts::facts;
use crate::grow::push_sorts;
use crate::ids::SortId;
use crate::limits::room_in;
use crate::mark::Mark;
use crate::tables::{Tables, cut_tables};
use ct_generics::{ExprId, Expressions, SortExpr, add_sorts, find_expression, resolve};
use std::alloc::Global;

/// The number of a written sort, which comes into the list with all that it needs where it is not there. A refusal changes
/// nothing.
pub(crate) fn add_instance(
    alloc: Global,
    tables: &mut Tables,
    mark: &Mark,
    expr: &SortExpr,
) -> Result<SortId, SigError>
    requires tabled { IsTabled tables.old }
    requires consistent { (fs ds : List Function) × IsConsistent (of_tables tables.old fs ds) }
    requires closed { AreParametersBelow 0 expr.now }
    requires mark { (fs ds : List Function) × (mark.now ≡ lengths (of_tables tables.old fs ds)) }
    ensures ok { IfOk result (λ s. (fs ds : List Function) → IsWithInstance (of_tables tables.old fs ds) expr.now (of_tables tables.new fs ds) s) }
    ensures accepted { OnOk result ((n : ℕ) (fs ds : List Function) → IsInstanceRefusal (of_tables tables.old fs ds) expr.now n → ⊥) }
    ensures refused { (n : ℕ) (fs ds : List Function) → IsErrOf result (SigError.Refused n) → IsInstanceRefusal (of_tables tables.old fs ds) expr.now n }
    ensures unchanged { OnErr result ((fs ds : List Function) → of_tables tables.new fs ds ≡ of_tables tables.old fs ds) }
    ensures tabled { IsTabled tables.new }
    ensures consistent { (fs ds : List Function) → IsConsistent (of_tables tables.old fs ds) → IsConsistent (of_tables tables.new fs ds) }
{
    facts();
    prove!(tables.table.expressions.len() >= 0);
    match resolve(alloc, &tables.generics, &mut tables.table.expressions, expr) {
        Ok(id) => add_sort(alloc, tables, mark, id),
        Err(error) => Err(sig_error(error)),
    }
}

/// The number of a sort, which comes into the list with all that it needs where it is not there. A refusal changes nothing.
pub(crate) fn add_sort(
    alloc: Global,
    tables: &mut Tables,
    mark: &Mark,
    id: ExprId,
) -> Result<SortId, SigError>
    requires tabled { IsTabled tables.old }
    requires consistent { (fs ds : List Function) × IsConsistent (of_tables tables.old fs ds) }
    requires sort { (e : Expression) × Stands tables.old.table.expressions id.0 e × IsExpression (declared_of tables.old.generics).heads 0 e }
    requires mark { (fs ds : List Function) × (mark.now ≡ lengths (of_tables tables.old fs ds)) }
    ensures ok { IfOk result (λ s. (e : Expression) (fs ds : List Function) → Stands tables.old.table.expressions id.0 e → IsWithSorts (of_tables tables.old fs ds) (e ∷ []) (of_tables tables.new fs ds) × IsOrigin (of_tables tables.new fs ds) s e) }
    ensures accepted { OnOk result ((e : Expression) (fs ds : List Function) → Stands tables.old.table.expressions id.0 e → HasNoRoom (of_tables tables.old fs ds) (e ∷ []) → ⊥) }
    ensures refused { (n : ℕ) (e : Expression) (fs ds : List Function) → IsErrOf result (SigError.Refused n) → Stands tables.old.table.expressions id.0 e → (n ≡ too_many) × HasNoRoom (of_tables tables.old fs ds) (e ∷ []) }
    ensures unchanged { OnErr result ((fs ds : List Function) → of_tables tables.new fs ds ≡ of_tables tables.old fs ds) }
    ensures tabled { IsTabled tables.new }
    ensures consistent { (fs ds : List Function) → IsConsistent (of_tables tables.old fs ds) → IsConsistent (of_tables tables.new fs ds) }
{
    if let Some(index) = tables.table.sorts.index_of(id) {
        return Ok(SortId(index as u32));
    }
    match add_missing(alloc, tables, id) {
        Ok(()) => Ok(number_of(tables, id)),
        Err(error) => {
            cut_tables(tables, mark);
            Err(error)
        }
    }
}

// Adds a sort that is not there.
fn add_missing(alloc: Global, tables: &mut Tables, id: ExprId) -> Result<(), SigError>
    requires tabled { IsTabled tables.old }
    requires consistent { (fs ds : List Function) × IsConsistent (of_tables tables.old fs ds) }
    requires sort { (e : Expression) × Stands tables.old.table.expressions id.0 e × IsExpression (declared_of tables.old.generics).heads 0 e }
    ensures ok { OnOk result ((e : Expression) (fs ds : List Function) → Stands tables.old.table.expressions id.0 e → IsWithSorts (of_tables tables.old fs ds) (e ∷ []) (of_tables tables.new fs ds)) }
    ensures accepted { OnOk result ((e : Expression) (fs ds : List Function) → Stands tables.old.table.expressions id.0 e → HasNoRoom (of_tables tables.old fs ds) (e ∷ []) → ⊥) }
    ensures refused { (n : ℕ) (e : Expression) (fs ds : List Function) → IsErrOf result (SigError.Refused n) → Stands tables.old.table.expressions id.0 e → (n ≡ too_many) × HasNoRoom (of_tables tables.old fs ds) (e ∷ []) }
    ensures grown { HaveGrown tables.old tables.new }
    ensures standing { IsStanding tables.new }
    ensures tabled { OnOk result (IsTabled tables.new) }
    ensures consistent { OnOk result ((fs ds : List Function) → IsConsistent (of_tables tables.old fs ds) → IsConsistent (of_tables tables.new fs ds)) }
    ensures there { OnOk result ((e : Expression) → Stands tables.old.table.expressions id.0 e → (i : ℕ) × (slice_get (sorts_of tables.new.table) i ≡ Some e)) }
    ensures stay { OnOk result (Stay tables.old.table.expressions tables.new.table.expressions) }
{
    facts();
    let first = tables.table.sorts.len();
    let room = room_in(tables);
    match add_sorts(alloc, &tables.generics, &mut tables.table, &[id], room) {
        Ok(()) => push_sorts(alloc, tables, first),
        Err(error) => Err(sig_error(error)),
    }
}

// The number of a sort that is there.
fn number_of(tables: &Tables, id: ExprId) -> SortId
    requires stand { AreSorts tables.now.table (sorts_of tables.now.table) }
    requires few { length tables.now.table.sorts < 2 ^ 32 }
    requires there { (e : Expression) × (i : ℕ) × Stands tables.now.table.expressions id.0 e × (slice_get (sorts_of tables.now.table) i ≡ Some e) }
    ensures at { slice_get tables.now.table.sorts result.0 ≡ Some id }
{
    prove!(tables.table.expressions.len() >= 0);
    match tables.table.sorts.index_of(id) {
        Some(index) => SortId(index as u32),
        None => SortId(0),
    }
}

/// The number of a written sort, if it is in the list. The only error is `NoMemory`.
pub(crate) fn find_instance(
    alloc: Global,
    tables: &Tables,
    expr: &SortExpr,
) -> Result<Option<SortId>, SigError>
    requires tabled { IsTabled tables.now }
    requires few { length tables.now.table.sorts < 2 ^ 32 }
    ensures found { IfOk result (λ found. IfSome found (λ s. (e : Expression) × (resolved (declared_of tables.now.generics) expr.now ≡ Ok e) × (slice_get (sorts_of tables.now.table) s.0 ≡ Some e))) }
    ensures none { IfOk result (λ found. IfNone found ((e : Expression) (s : ℕ) → resolved (declared_of tables.now.generics) expr.now ≡ Ok e → slice_get (sorts_of tables.now.table) s ≡ Some e → ⊥)) }
    ensures err { IfErr result (λ e. e ≡ SigError.NoMemory) }
{
    prove!(tables.table.expressions.len() >= 0);
    let mut written = Expressions::new(alloc);
    let id = match resolve(alloc, &tables.generics, &mut written, expr) {
        Ok(id) => id,
        Err(ct_generics::GenericError::Refused(_)) => return Ok(None),
        Err(ct_generics::GenericError::NoMemory) => return Err(SigError::NoMemory),
    };
    match find_expression(alloc, &tables.table.expressions, &written, id) {
        Err(error) => Err(sig_error(error)),
        Ok(None) => Ok(None),
        Ok(Some(id)) => Ok(number_among(tables, id)),
    }
}

/// The number of a sort, if it is in the list.
pub(crate) fn number_among(tables: &Tables, id: ExprId) -> Option<SortId>
    requires few { length tables.now.table.sorts < 2 ^ 32 }
    ensures some { IfSome result (λ s. slice_get tables.now.table.sorts s.0 ≡ Some id) }
    ensures none { IfNone result ((i : ℕ) → slice_get tables.now.table.sorts i ≡ Some id → ⊥) }
{
    match tables.table.sorts.index_of(id) {
        Some(index) => Some(SortId(index as u32)),
        None => None,
    }
}
