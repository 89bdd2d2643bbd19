//! Constructors of generics whose arguments determine the sort.
ghost use Rattle.std.specs.Prelude.{◌≡◌, length, map, All, Some, None, MatchOption, ⊤, IfOk, IfErr};
ghost use Rattle.ct_sorts.specs.Declarations.{Declarations, IsSort};
ghost use Rattle.ct_sorts.specs.Grown.{Extends};
ghost use Rattle.ct_sorts.specs.Lookup.{IsSymbol};
ghost use Rattle.ct_sorts.specs.declared.ids.Symbol.TheVariants.{GenCtor};
ghost use Rattle.ct_formulas.specs.TreeFormula.{formula_of, formulas_of_trees};
ghost use Rattle.ct_instances.specs.declared.among.NamedCtor.TheVariants.{Generic};
ghost use Rattle.ct_instances.specs.Among.{origin_of, ctor_among};
ghost use Rattle.ct_instances.specs.Fields.{generic_fields, generic_params};
ghost use Rattle.ct_instances.specs.Matching.{unmatched, sorts_for};
ghost use Rattle.ct_names.specs.declared.needs.Needs.TheVariants.{Find};
ghost use Rattle.ct_names.specs.Answer.{StopsAt};
ghost use Rattle.ct_names.specs.Elaboration.{constructed};
ghost use Rattle.ct_names.specs.Needs.{Reaches};
ghost use Rattle.ct_check.specs.Expected.{expectation_of, arguments_of, fields, IsExpectation};
ghost use Rattle.ct_check.specs.Heads.{assignment_in, finished};
ghost use Rattle.ct_check.specs.Trees.{sorted_of};
ghost use Rattle.ct_check.specs.declared.heads.Head.TheVariants.{GenericCtor};

use crate::arguments::Arguments;
use crate::expected::Expected;
use ct_formulas::Tree;
use ct_instances::{Matching, NamedCtor, ctor_among};
use ct_names::{Needs, Stop, UNDETERMINED, sort_at};
use ct_sorts::{GenId, Signature, SortId};
use std::alloc::Global;

/// The sorts of the fields of a generic's constructor, which arguments are to fit.
pub(crate) fn expected_fields(
    alloc: Global,
    sig: &Signature,
    g: GenId,
    index: u32,
) -> Result<Expected, Stop>
    requires ctor { IsSymbol sig.now (GenCtor g index) }
    ensures ok { IfOk result (λ e. expectation_of sig.now e ≡ fields (generic_fields sig.now g index) (unmatched (generic_params sig.now g))) }
    ensures inside { IfOk result (IsExpectation sig.now) }
    ensures err { IfErr result (λ e. e ≡ Stop.NoMemory) }
{
    Ok(Expected::Fields(Matching::new(alloc, sig, g, index)?))
}

/// A constructor of a generic with its arguments, whose sorts determine that of the term, which is needed now.
pub(crate) fn generic_ctor(
    alloc: Global,
    sig: &mut Signature,
    needs: Needs,
    g: GenId,
    index: u32,
    terms: Arguments,
) -> Result<(Tree, SortId), Stop>
    requires ctor { IsSymbol sig.old (GenCtor g index) }
    requires met { IsExpectation sig.old terms.met }
    requires places { length (assignment_in (expectation_of sig.old terms.met)) ≡ generic_params sig.old g }
    ensures value { StopsAt needs sig.new sorted_of (finished sig.new (GenericCtor g index) (arguments_of sig.old terms)) result }
    ensures reaches { Reaches (λ d. finished d (GenericCtor g index) (arguments_of sig.old terms)) sig.old sig.new }
    ensures grown { Extends sig.new sig.old }
    ensures kept { needs ≡ Find → sig.new ≡ sig.old }
{
    prove!(sig.sorts() > 0);
    let Some(args) = matched_sorts(alloc, &terms.met)? else {
        return Err(Stop::Refused(UNDETERMINED));
    };
    let sort = sort_at(sig, needs, g, args.as_slice())?;
    Ok((constructed(sig, g, index, sort, terms.trees), sort))
}

// The constructor of the instance, with arguments.
fn constructed(sig: &Signature, g: GenId, index: u32, sort: SortId, args: Vec<Tree>) -> Tree
    requires ctor { IsSymbol sig.now (GenCtor g index) }
    requires sort { IsSort sig.now sort }
    ensures formula { formula_of result ≡ (constructed sort (formulas_of_trees args.items) (ctor_among sig.now (Generic g index) sort)).0 }
{
    match ctor_among(sig, NamedCtor::Generic(g, index), sort) {
        Some(c) => Tree::Con(c, args),
        None => Tree::And(args),
    }
}

// The sorts for which the parameters stand.
fn matched_sorts(alloc: Global, met: &Expected) -> Result<Option<Vec<SortId>>, Stop>
    ensures value { (d : Declarations) → IfOk result (λ found. MatchOption found (sorts_for (assignment_in (expectation_of d met.now)) ≡ None)
        (λ sorts. sorts_for (assignment_in (expectation_of d met.now)) ≡ Some (map (origin_of d) sorts.items))) }
    ensures inside { (d : Declarations) → IsExpectation d met.now → IfOk result (λ found. MatchOption found ⊤ (λ sorts. All (IsSort d) sorts.items)) }
    ensures err { IfErr result (λ e. e ≡ Stop.NoMemory) }
{
    match met {
        Expected::Fields(matching) => Ok(matching.sorts(alloc)?),
        Expected::These(_, _) | Expected::Same(_) | Expected::Choice | Expected::Owner(_, _) => Ok(
            None,
        ),
    }
}
