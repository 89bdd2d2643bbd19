//! Fields and tests of generics: what takes one argument, whose sort is an instance.
ghost use Rattle.std.specs.Prelude.{◌≡◌, None, Ok, Err, MatchOption, IfSome};
ghost use Rattle.ct_sorts.specs.Declarations.{Declarations, IsSort};
ghost use Rattle.ct_names.specs.declared.needs.Needs.{Needs};
ghost use Rattle.ct_names.specs.Answer.{StopsAt};
ghost use Rattle.ct_names.specs.Outcome.{refused};
ghost use Rattle.ct_names.specs.Refusals.{wrong_count};
ghost use Rattle.ct_check.specs.Expected.{expectation_of, arguments_of, owner, IsExpectation};
ghost use Rattle.ct_check.specs.GenericTerms.{ctor_of_part, IsPartDeclared};
ghost use Rattle.ct_check.specs.Heads.{owner_in, finished};
ghost use Rattle.ct_check.specs.Trees.{sorted_of};
ghost use Rattle.ct_check.specs.declared.heads.Head.TheVariants.{Part as PartHead};

use crate::arguments::Arguments;
use crate::callees::BOOL;
use crate::expected::Expected;
use crate::trees::{selection, test};
use ct_formulas::Tree;
use ct_instances::{NamedCtor, ctor_among, field_among};
use ct_names::{Stop, WRONG_COUNT, WRONG_SORT};
use ct_sorts::{GenId, Signature, SortId};
use std::alloc::Global;

/// What takes one argument, of an instance of a generic.
#[derive(Clone, Copy)]
pub(crate) enum Part {
    /// A field of a constructor, by their indices.
    Field(GenId, u32, u32),
    /// `(_ is C)`, by the constructor's index.
    Test(GenId, u32),
}

/// What the sort of the argument is to have.
pub(crate) fn expected_by(part: Part) -> Expected
    ensures value { (d : Declarations) → expectation_of d result ≡ owner (ctor_of_part part) None }
    ensures inside { (d : Declarations) → IsPartDeclared d part → IsExpectation d result }
{
    match part {
        Part::Field(g, index, _) | Part::Test(g, index) => {
            Expected::Owner(NamedCtor::Generic(g, index), None)
        }
    }
}

/// A field or a test with its one argument.
pub(crate) fn part_of(
    alloc: Global,
    sig: &Signature,
    part: Part,
    terms: Arguments,
) -> Result<(Tree, SortId), Stop>
    requires declared { IsPartDeclared sig.now part }
    requires met { IsExpectation sig.now terms.met }
    ensures value { (needs : Needs) → StopsAt needs sig.now sorted_of (finished sig.now (PartHead part) (arguments_of sig.now terms)) result }
{
    let Some(sort) = owning_sort(&terms.met) else {
        return Err(Stop::Refused(WRONG_COUNT));
    };
    match part {
        Part::Field(g, index, place) => match field_among(sig, g, index, place, sort) {
            Some(s) => Ok((selection(alloc, s, terms.trees)?, sig.sel_sort(s))),
            None => Err(Stop::Refused(WRONG_SORT)),
        },
        Part::Test(g, index) => match ctor_among(sig, NamedCtor::Generic(g, index), sort) {
            Some(c) => Ok((test(alloc, c, terms.trees)?, BOOL)),
            None => Err(Stop::Refused(WRONG_SORT)),
        },
    }
}

// The sort of the argument whose sort was to have a constructor.
fn owning_sort(met: &Expected) -> Option<SortId>
    ensures value { (d : Declarations) → MatchOption result (owner_in (expectation_of d met.now) ≡ Err (refused wrong_count)) (λ s. owner_in (expectation_of d met.now) ≡ Ok s) }
    ensures inside { (d : Declarations) → IsExpectation d met.now → IfSome result (IsSort d) }
{
    match met {
        Expected::Owner(_, sort) => *sort,
        Expected::These(_, _) | Expected::Same(_) | Expected::Choice | Expected::Fields(_) => None,
    }
}
