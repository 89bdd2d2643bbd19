//! Uninterpreted sorts, with parameters or without.
ghost use Rattle.std.specs.Prelude.{◌≡◌, ℕ, ◌<◌, ◌++◌, List, [], ◌∷◌, length, Some, slice_get, IfErr, OnOk, OnErr};
ghost use Rattle.ct_generics.specs.declared.kind.Kind.TheVariants.{Free as OfFree};
ghost use Rattle.ct_generics.specs.Block.{with_heads};
ghost use Rattle.ct_generics.specs.Denoted.{declared_of, sorts_of};
ghost use Rattle.ct_generics.specs.Expression.{named};
ghost use Rattle.ct_generics.specs.SortTable.{AreCounted};
ghost use Rattle.ct_sorts.specs.Availability.{IsListed, IsUnavailableSort};
ghost use Rattle.ct_sorts.specs.Block.{plain_from};
ghost use Rattle.ct_sorts.specs.Consistent.{IsConsistent};
ghost use Rattle.ct_sorts.specs.Declarations.{Function, declared_names, most_sorts, with_head, with_sort};
ghost use Rattle.ct_sorts.specs.Grown.{Begins};
ghost use Rattle.ct_sorts.specs.Growing.{HaveGrown, IsStanding};
ghost use Rattle.ct_sorts.specs.Limits.{sort_count};
ghost use Rattle.ct_sorts.specs.Marks.{lengths};
ghost use Rattle.ct_sorts.specs.Tabled.{of_tables, IsTabled};

use crate::block::push_head;
use crate::error::{SigError, sig_error};
use crate::facts::facts;
use crate::grow::push_sorts;
use crate::ids::Kind;
use crate::item::push_item;
use crate::mark::Mark;
use crate::tables::{Tables, cut_tables};
use ct_generics::{Items, Name, add_named};
use std::alloc::Global;

/// Declares an uninterpreted sort, or one with parameters: a sort without parameters comes next in the list. The only error is
/// `NoMemory`, and then nothing changes.
pub(crate) fn declare_free(
    alloc: Global,
    tables: &mut Tables,
    mark: &Mark,
    name: &Name,
    params: u64,
) -> Result<(), SigError>
    requires tabled { IsTabled tables.old }
    requires consistent { (fs ds : List Function) × IsConsistent (of_tables tables.old fs ds) }
    requires free { IsUnavailableSort (declared_names (of_tables tables.old [] [])) name.now → ⊥ }
    requires few { sort_count (of_tables tables.old [] []) < most_sorts }
    requires mark { (fs ds : List Function) × (mark.now ≡ lengths (of_tables tables.old fs ds)) }
    ensures plain { OnOk result (params ≡ 0 → (fs ds : List Function) → of_tables tables.new fs ds ≡ with_sort (of_tables tables.old fs ds) (record { name = name.now; kind = Kind.Free; ctors = [] })) }
    ensures generic { OnOk result (0 < params → (fs ds : List Function) → of_tables tables.new fs ds ≡ with_head (of_tables tables.old fs ds) (record { name = name.now; kind = OfFree; params = params; ctors = [] }) []) }
    ensures unchanged { OnErr result ((fs ds : List Function) → of_tables tables.new fs ds ≡ of_tables tables.old fs ds) }
    ensures tabled { IsTabled tables.new }
    ensures consistent { (fs ds : List Function) → IsConsistent (of_tables tables.old fs ds) → IsConsistent (of_tables tables.new fs ds) }
    ensures err { IfErr result (λ e. e ≡ SigError.NoMemory) }
{
    match try_free(alloc, tables, name, params) {
        Ok(()) => Ok(()),
        Err(error) => {
            cut_tables(tables, mark);
            Err(error)
        }
    }
}

// The same, but what is declared may stay where there is an error.
fn try_free(alloc: Global, tables: &mut Tables, name: &Name, params: u64) -> Result<(), SigError>
    requires tabled { IsTabled tables.old }
    requires consistent { (fs ds : List Function) × IsConsistent (of_tables tables.old fs ds) }
    requires free { IsUnavailableSort (declared_names (of_tables tables.old [] [])) name.now → ⊥ }
    requires few { sort_count (of_tables tables.old [] []) < most_sorts }
    ensures plain { OnOk result (params ≡ 0 → (fs ds : List Function) → of_tables tables.new fs ds ≡ with_sort (of_tables tables.old fs ds) (record { name = name.now; kind = Kind.Free; ctors = [] })) }
    ensures generic { OnOk result (0 < params → (fs ds : List Function) → of_tables tables.new fs ds ≡ with_head (of_tables tables.old fs ds) (record { name = name.now; kind = OfFree; params = params; ctors = [] }) []) }
    ensures grown { HaveGrown tables.old tables.new }
    ensures standing { IsStanding tables.new }
    ensures tabled { OnOk result (IsTabled tables.new) }
    ensures consistent { OnOk result ((fs ds : List Function) → IsConsistent (of_tables tables.old fs ds) → IsConsistent (of_tables tables.new fs ds)) }
    ensures err { IfErr result (λ e. e ≡ SigError.NoMemory) }
{
    facts();
    let first_head = tables.generics.head_count();
    let first_sort = tables.table.sorts.len();
    declare_head(alloc, tables, name, params)?;
    list_head(tables, first_head, params)?;
    push_sorts(alloc, tables, first_sort)
}

// Puts it into the list of sorts where it has no parameters. The only error is `NoMemory`.
fn list_head(tables: &mut Tables, head: usize, params: u64) -> Result<(), SigError>
    requires standing { IsStanding tables.old }
    requires fresh { (s : ℕ) → slice_get (sorts_of tables.old.table) s ≡ Some (named head) → ⊥ }
    requires sorts_few { length tables.old.table.sorts < most_sorts }
    requires heads_few { head < most_sorts }
    ensures ok { OnOk result (sorts_of tables.new.table ≡ sorts_of tables.old.table ++ plain_from head (params ∷ [])) }
    ensures others { tables.new ≡ record tables.old { table = tables.new.table } }
    ensures grown { HaveGrown tables.old tables.new }
    ensures standing { IsStanding tables.new }
    ensures counted { AreCounted tables.new.generics tables.new.table }
    ensures err { IfErr result (λ e. e ≡ SigError.NoMemory) }
{
    facts();
    let listed = push_head(&mut tables.table, head, params);
    tables.table.forget_counts();
    match listed {
        Ok(_) => Ok(()),
        Err(error) => Err(error),
    }
}

// Declares it without constructors. The only error is `NoMemory`.
fn declare_head(
    alloc: Global,
    tables: &mut Tables,
    name: &Name,
    params: u64,
) -> Result<(), SigError>
    requires standing { IsStanding tables.old }
    requires free { IsListed tables.old.generics.head_names name.now → ⊥ }
    ensures declared { OnOk result (declared_of tables.new.generics ≡ with_heads (declared_of tables.old.generics) (record { name = name.now; kind = OfFree; params = params; ctors = [] } ∷ [])) }
    ensures spellings { OnOk result (tables.new.spellings ≡ tables.old.spellings ++ [] ∷ []) }
    ensures determined { OnOk result (tables.new.determined ≡ tables.old.determined ++ [] ∷ []) }
    ensures others { tables.new ≡ record tables.old { generics = tables.new.generics; spellings = tables.new.spellings; determined = tables.new.determined } }
    ensures grown { HaveGrown tables.old tables.new }
    ensures standing { IsStanding tables.new }
    ensures err { IfErr result (λ e. e ≡ SigError.NoMemory) }
{
    facts();
    let kind = ct_generics::Kind::Free;
    match add_named(alloc, &mut tables.generics, kind, name, params) {
        Ok(()) => push_no_ctors(alloc, tables),
        Err(error) => Err(sig_error(error)),
    }
}

// No names of constructors and no marks for them. The only error is `NoMemory`.
fn push_no_ctors(alloc: Global, tables: &mut Tables) -> Result<(), SigError>
    ensures spellings { OnOk result (tables.new.spellings ≡ tables.old.spellings ++ [] ∷ []) }
    ensures determined { OnOk result (tables.new.determined ≡ tables.old.determined ++ [] ∷ []) }
    ensures others { tables.new ≡ record tables.old { spellings = tables.new.spellings; determined = tables.new.determined } }
    ensures grown { Begins tables.old.spellings tables.new.spellings × Begins tables.old.determined tables.new.determined }
    ensures err { IfErr result (λ e. e ≡ SigError.NoMemory) }
{
    push_item(&mut tables.spellings, Items::new(Vec::new(alloc)))?;
    push_item(&mut tables.determined, Items::new(Vec::new(alloc)))
}
