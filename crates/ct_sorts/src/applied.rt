//! What a signature says about names with arguments: how many arguments a name takes, which sort or generic is the head of a
//! sort, and instances by their generic and the numbers of their arguments.
ghost use Rattle.std.specs.Prelude.{◌≡◌, ℕ, List, ◌∷◌, [], ◌<◌, ◌^◌, length, slice_get, Some, All, option_map, IfSome, IfNone, IfOk, IfErr, IsErrOf, OnOk, OnErr};
ghost use Rattle.std.specs.List.{AllZip};
ghost use Rattle.ct_generics.specs.declared.nodes.ExprId.{ExprId};
ghost use Rattle.ct_generics.specs.declared.nodes.Node.TheVariants.{Apply};
ghost use Rattle.ct_generics.specs.Declarations.{Head};
ghost use Rattle.ct_generics.specs.Denoted.{declared_of, sorts_of};
ghost use Rattle.ct_generics.specs.Expression.{Expression, named, applied, with_args, head_of};
ghost use Rattle.ct_generics.specs.Nodes.{Stands, Stay};
ghost use Rattle.ct_generics.specs.Resolved.{meaning, params_of};
ghost use Rattle.ct_generics.specs.SortTable.{AreSorts};
ghost use Rattle.ct_sorts.specs.Applied.{IsAt, TakesAll};
ghost use Rattle.ct_sorts.specs.Consistent.{IsConsistent};
ghost use Rattle.ct_sorts.specs.Declarations.{Function, IsSort};
ghost use Rattle.ct_sorts.specs.Instances.{HasNoRoom, IsOrigin, IsWithSorts};
ghost use Rattle.ct_sorts.specs.Marks.{lengths};
ghost use Rattle.ct_sorts.specs.Refusals.{too_many};
ghost use Rattle.ct_sorts.specs.Tabled.{of_tables, IsNumberOf, IsTabled};

use crate::error::{SigError, sig_error};
use crate::facts::facts;
use crate::ids::{GenId, SortId};
use crate::instances::{add_sort, number_among};
use crate::mark::Mark;
use crate::signature::Signature;
use crate::tables::Tables;
use ct_generics::{ExprId, HeadId, Node, SortTable};
use std::alloc::Global;

impl Signature {
    /// How many arguments the sort, generic or synonym of this name takes, if there is one.
    pub fn params_named(&self, name: &[u8]) -> Option<u64>
        ensures value { result ≡ option_map params_of (meaning self.now.declared name.now) }
    {
        self.tables.generics.params_named(name)
    }

    /// The number of the sort without parameters or the generic at the head of a sort.
    pub fn sort_head(&self, s: SortId) -> GenId
        requires inside { IsSort self.now s }
        ensures value { (e : Expression) → IsOrigin self.now s e → head_of e ≡ Some result.0 }
    {
        GenId(self.tables.sorts.get(s.0 as usize).head as u32)
    }

    /// The number of a generic at these sorts, if it is in the list. Takes no memory.
    pub fn find_at(&self, g: GenId, args: &[SortId]) -> Option<SortId>
        requires generic { TakesAll self.now g args.now }
        requires sorts { All (IsSort self.now) args.now }
        ensures some { IfSome result (λ s. (e : Expression) × IsAt self.now g args.now e × IsOrigin self.now s e) }
        ensures none { IfNone result ((e : Expression) (s : SortId) → IsAt self.now g args.now e → IsOrigin self.now s e → ⊥) }
    {
        find_applied(&self.tables, g, args)
    }

    /// The number of a generic at these sorts; if it is not in the list, it is added with everything that it needs. It
    /// is refused with 16 as `instance` is. A refusal changes nothing.
    pub fn instance_at(&mut self, g: GenId, args: &[SortId]) -> Result<SortId, SigError>
        requires generic { TakesAll self.old g args.now }
        requires sorts { All (IsSort self.old) args.now }
        ensures ok { IfOk result (λ s. (e : Expression) × IsAt self.old g args.now e × IsWithSorts self.old (e ∷ []) self.new × IsOrigin self.new s e) }
        ensures accepted { OnOk result ((e : Expression) → IsAt self.old g args.now e → HasNoRoom self.old (e ∷ []) → ⊥) }
        ensures refused { (n : ℕ) → IsErrOf result (SigError.Refused n) → (e : Expression) × IsAt self.old g args.now e × HasNoRoom self.old (e ∷ []) × (n ≡ too_many) }
        ensures unchanged { OnErr result (self.new ≡ self.old) }
    {
        let mark = self.mark();
        add_applied(self.alloc, &mut self.tables, &mark, g, args)
    }
}

// The number of a generic at these sorts, if it is in the list.
fn find_applied(tables: &Tables, g: GenId, args: &[SortId]) -> Option<SortId>
    requires standing { AreSorts tables.now.table (sorts_of tables.now.table) }
    requires few { length tables.now.table.sorts < 2 ^ 32 }
    requires sorts { All (λ s. s.0 < length tables.now.table.sorts) args.now }
    ensures some { IfSome result (λ s. (es : List Expression) → AllZip (IsNumberOf (sorts_of tables.now.table)) args.now es → slice_get (sorts_of tables.now.table) s.0 ≡ Some (with_args (named g.0) es)) }
    ensures none { IfNone result ((es : List Expression) (s : ℕ) → AllZip (IsNumberOf (sorts_of tables.now.table)) args.now es → slice_get (sorts_of tables.now.table) s ≡ Some (with_args (named g.0) es) → ⊥) }
{
    prove!(tables.table.expressions.len() >= 0);
    match find_expression_at(&tables.table, g, args) {
        Some(id) => number_among(tables, id),
        None => None,
    }
}

// The shared expression of a generic at these sorts, if it is there.
fn find_expression_at(table: &SortTable, g: GenId, args: &[SortId]) -> Option<ExprId>
    requires standing { AreSorts table.now (sorts_of table.now) }
    requires sorts { All (λ s. s.0 < length table.now.sorts) args.now }
    ensures some { IfSome result (λ id. (es : List Expression) → AllZip (IsNumberOf (sorts_of table.now)) args.now es → Stands table.now.expressions id.0 (with_args (named g.0) es)) }
    ensures none { IfNone result ((es : List Expression) (n : ℕ) → AllZip (IsNumberOf (sorts_of table.now)) args.now es → Stands table.now.expressions n (with_args (named g.0) es) → ⊥) }
{
    prove!(table.expressions.len() >= 0);
    let mut id = table.expressions.find(Node::Head(HeadId(u64::from(g.0))))?;
    for arg in args {
        match find_argument(table, id, *arg) {
            Some(next) => id = next,
            None => return None,
        }
    }
    Some(id)
}

// The shared expression with one argument more, if it is there.
fn find_argument(table: &SortTable, function: ExprId, arg: SortId) -> Option<ExprId>
    requires within { arg.0 < length table.now.sorts }
    ensures some { IfSome result (λ id. (k : ExprId) → slice_get table.now.sorts arg.0 ≡ Some k → slice_get table.now.expressions id.0 ≡ Some (Apply function k)) }
    ensures none { IfNone result ((k : ExprId) (n : ℕ) → slice_get table.now.sorts arg.0 ≡ Some k → slice_get table.now.expressions n ≡ Some (Apply function k) → ⊥) }
{
    let arg = table.sorts.get(arg.0 as usize);
    table.expressions.find(Node::Apply(function, arg))
}

// The number of a generic at these sorts, which comes into the list with all that it needs where it is not there. A refusal
// changes nothing.
fn add_applied(
    alloc: Global,
    tables: &mut Tables,
    mark: &Mark,
    g: GenId,
    args: &[SortId],
) -> Result<SortId, SigError>
    requires tabled { IsTabled tables.old }
    requires consistent { (fs ds : List Function) × IsConsistent (of_tables tables.old fs ds) }
    requires generic { (head : Head) × (slice_get (declared_of tables.old.generics).heads g.0 ≡ Some head) × (length args.now ≡ head.params) }
    requires sorts { All (λ s. s.0 < length tables.old.table.sorts) args.now }
    requires mark { (fs ds : List Function) × (mark.now ≡ lengths (of_tables tables.old fs ds)) }
    ensures ok { IfOk result (λ s. (e : Expression) (fs ds : List Function) → IsAt (of_tables tables.old fs ds) g args.now e → IsWithSorts (of_tables tables.old fs ds) (e ∷ []) (of_tables tables.new fs ds) × IsOrigin (of_tables tables.new fs ds) s e) }
    ensures accepted { OnOk result ((e : Expression) (fs ds : List Function) → IsAt (of_tables tables.old fs ds) g args.now e → HasNoRoom (of_tables tables.old fs ds) (e ∷ []) → ⊥) }
    ensures refused { (n : ℕ) (e : Expression) (fs ds : List Function) → IsErrOf result (SigError.Refused n) → IsAt (of_tables tables.old fs ds) g args.now e → (n ≡ too_many) × HasNoRoom (of_tables tables.old fs ds) (e ∷ []) }
    ensures unchanged { OnErr result ((fs ds : List Function) → of_tables tables.new fs ds ≡ of_tables tables.old fs ds) }
    ensures tabled { IsTabled tables.new }
    ensures consistent { (fs ds : List Function) → IsConsistent (of_tables tables.old fs ds) → IsConsistent (of_tables tables.new fs ds) }
{
    facts();
    prove!(tables.table.expressions.len() >= 0);
    match with_arguments(&mut tables.table, g, args) {
        Ok(id) => add_sort(alloc, tables, mark, id),
        Err(error) => Err(error),
    }
}

// The shared expression of a generic at these sorts, which is made where it is not there. The only error is `NoMemory`.
fn with_arguments(table: &mut SortTable, g: GenId, args: &[SortId]) -> Result<ExprId, SigError>
    requires standing { AreSorts table.old (sorts_of table.old) }
    requires sorts { All (λ s. s.0 < length table.old.sorts) args.now }
    ensures ok { IfOk result (λ id. (es : List Expression) → AllZip (IsNumberOf (sorts_of table.old)) args.now es → Stands table.new.expressions id.0 (with_args (named g.0) es)) }
    ensures others { table.new ≡ record table.old { expressions = table.new.expressions } }
    ensures stay { Stay table.old.expressions table.new.expressions }
    ensures err { IfErr result (λ e. e ≡ SigError.NoMemory) }
{
    let mut id = without_arguments(table, g)?;
    for arg in args {
        let arg = table.sorts.get(arg.0 as usize);
        id = with_argument(table, id, arg)?;
    }
    Ok(id)
}

// The shared expression of a generic without arguments.
fn without_arguments(table: &mut SortTable, g: GenId) -> Result<ExprId, SigError>
    ensures ok { IfOk result (λ id. Stands table.new.expressions id.0 (named g.0)) }
    ensures within { IfOk result (λ id. id.0 < length table.new.expressions) }
    ensures others { table.new ≡ record table.old { expressions = table.new.expressions } }
    ensures stay { Stay table.old.expressions table.new.expressions }
    ensures err { IfErr result (λ e. e ≡ SigError.NoMemory) }
{
    match table.expressions.head(HeadId(u64::from(g.0))) {
        Ok(id) => Ok(id),
        Err(error) => Err(sig_error(error)),
    }
}

// The shared expression with one argument more.
fn with_argument(
    table: &mut SortTable,
    function: ExprId,
    argument: ExprId,
) -> Result<ExprId, SigError>
    requires function { function.0 < length table.old.expressions }
    requires argument { argument.0 < length table.old.expressions }
    ensures ok { IfOk result (λ id. (e a : Expression) → Stands table.old.expressions function.0 e → Stands table.old.expressions argument.0 a → Stands table.new.expressions id.0 (applied e a)) }
    ensures within { IfOk result (λ id. id.0 < length table.new.expressions) }
    ensures others { table.new ≡ record table.old { expressions = table.new.expressions } }
    ensures stay { Stay table.old.expressions table.new.expressions }
    ensures err { IfErr result (λ e. e ≡ SigError.NoMemory) }
{
    match table.expressions.apply(function, argument) {
        Ok(id) => Ok(id),
        Err(error) => Err(sig_error(error)),
    }
}
