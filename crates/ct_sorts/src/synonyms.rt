//! Synonyms of sorts.
ghost use Rattle.std.specs.Prelude.{◌≡◌, ℕ, List, [], IsErrOf, OnOk, OnErr};
ghost use Rattle.ct_sorts.specs.Availability.{IsUnavailableSort};
ghost use Rattle.ct_sorts.specs.Consistent.{IsConsistent};
ghost use Rattle.ct_sorts.specs.Declarations.{Function, declared_names};
ghost use Rattle.ct_sorts.specs.Marks.{lengths};
ghost use Rattle.ct_sorts.specs.Synonyms.{IsWithSynonym, IsLaterRefusal};
ghost use Rattle.ct_sorts.specs.Tabled.{of_tables, IsTabled};
ghost use Rattle.ct_sorts.specs.Written.{AreParametersBelow};

use crate::error::{SigError, sig_error};
use crate::facts::facts;
use crate::limits::{MOST_SORTS, sort_count};
use crate::mark::Mark;
use crate::refusals::TOO_MANY;
use crate::tables::{Tables, cut_tables};
use ct_generics::{Name, SortExpr};
use std::alloc::Global;

/// Declares a synonym whose name may be declared. A refusal changes nothing.
pub(crate) fn declare_synonym(
    alloc: Global,
    tables: &mut Tables,
    mark: &Mark,
    name: &Name,
    params: u64,
    body: &SortExpr,
) -> Result<(), SigError>
    requires tabled { IsTabled tables.old }
    requires consistent { (fs ds : List Function) × IsConsistent (of_tables tables.old fs ds) }
    requires free { IsUnavailableSort (declared_names (of_tables tables.old [] [])) name.now → ⊥ }
    requires parameters { AreParametersBelow params body.now }
    requires mark { (fs ds : List Function) × (mark.now ≡ lengths (of_tables tables.old fs ds)) }
    ensures ok { OnOk result ((fs ds : List Function) → IsWithSynonym (of_tables tables.old fs ds) name.now params body.now (of_tables tables.new fs ds)) }
    ensures accepted { OnOk result ((n : ℕ) (fs ds : List Function) → IsLaterRefusal (of_tables tables.old fs ds) body.now n → ⊥) }
    ensures refused { (n : ℕ) (fs ds : List Function) → IsErrOf result (SigError.Refused n) → IsLaterRefusal (of_tables tables.old fs ds) body.now n }
    ensures unchanged { OnErr result ((fs ds : List Function) → of_tables tables.new fs ds ≡ of_tables tables.old fs ds) }
    ensures tabled { IsTabled tables.new }
    ensures consistent { (fs ds : List Function) → IsConsistent (of_tables tables.old fs ds) → IsConsistent (of_tables tables.new fs ds) }
{
    facts();
    let count = sort_count(tables);
    match ct_generics::add_synonym(alloc, &mut tables.generics, name, params, body) {
        Err(error) => Err(sig_error(error)),
        Ok(()) => {
            if count < MOST_SORTS {
                tables.table.forget_counts();
                return Ok(());
            }
            cut_tables(tables, mark);
            Err(SigError::Refused(TOO_MANY))
        }
    }
}
