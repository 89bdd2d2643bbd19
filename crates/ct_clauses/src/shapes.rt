//! The literals of gates: of terms and of their arguments.
ghost use Rattle.std.specs.Prelude.{◌≡◌, List, [], ◌∷◌, ◌++◌, map, All, IfOk, IfErr};
ghost use Rattle.ct_terms.specs.Literal.{opposite, literal_of, IsStripped};
ghost use Rattle.ct_terms.specs.declared.term.Core.TheVariants as core;
ghost use Rattle.ct_terms.specs.Terms.{IsBoolean, Has};
ghost use Rattle.ct_closure.specs.ClosedTable.{IsPresent};
ghost use Rattle.ct_log.specs.Gates.{positive, negative};
ghost use Rattle.ct_log.specs.Look.{AreSortedTerms, signed};

use ct_log::LogError;
use ct_terms::{Core, Lit, TermId, TermTable};
use std::alloc::Global;

/// The positive literal of the term.
pub(crate) fn positive(t: TermId) -> Lit
    ensures value { result ≡ positive t }
{
    Lit {
        term: t,
        positive: true,
    }
}

/// The negative literal of the term.
pub(crate) fn negative(t: TermId) -> Lit
    ensures value { result ≡ negative t }
{
    Lit {
        term: t,
        positive: false,
    }
}

/// The literal of the same term with the other sign.
pub(crate) fn opposite(l: Lit) -> Lit
    ensures value { result ≡ opposite l }
{
    Lit {
        term: l.term,
        positive: !l.positive,
    }
}

/// The literal, or its opposite where it is not kept.
fn signed(keep: bool, l: Lit) -> Lit
    ensures value { result ≡ signed keep l }
{
    if keep {
        return l;
    }
    opposite(l)
}

/// The literal, and after it those of the arguments, or their opposites where these are not kept.
pub(crate) fn with_arguments(
    alloc: Global,
    table: &TermTable,
    first: Lit,
    args: &[TermId],
    keep: bool,
) -> Result<Vec<Lit>, LogError>
    requires booleans { All (IsBoolean table.now) args.now }
    requires stripped { IsStripped table.now first.term }
    ensures value { IfOk result (λ clause. clause.items ≡ first ∷ map (λ a. signed keep (literal_of table.now a)) args.now) }
    ensures literals { IfOk result (λ clause. All (λ l. IsStripped table.now l.term) clause.items) }
    ensures err { IfErr result (λ e. e ≡ LogError.NoMemory) }
{
    let mut clause = vec![in alloc; first]?;
    for a in args {
        clause.push(signed(keep, table.lit(*a)))?;
    }
    Ok(clause)
}

/// The equation of the two terms.
pub(crate) fn equation(table: &TermTable, left: TermId, right: TermId) -> TermId
    requires sorted { AreSortedTerms table.now }
    requires present { IsPresent table.now (core.Eq left right) }
    ensures equation { Has table.now (core.Eq left right) result.0 }
    ensures stripped { IsStripped table.now result }
{
    let core = Core::Eq(left, right);
    let found = table.find(&core);
    drop(core);
    match found {
        Some(e) => e,
        None => unreachable!(),
    }
}
