//! Tables of terms that are well sorted.
ghost use Rattle.std.specs.Prelude.{IfOk};
ghost use Rattle.ct_terms.specs.Terms.{AreSorted};

use crate::cores::core_of;
use ct_cases::{CaseError, extends_start};
use ct_sexpr::Sexpr;
use ct_sorts::Signature;
use ct_terms::{Core, TermError, TermId, TermTable, is_well_sorted};
use std::alloc::Global;

/// The table of these terms, the first of which has the number 2, and each the next.
pub fn table_of(
    alloc: Global,
    sig: &Signature,
    parts: &[Sexpr],
) -> Result<Box<TermTable>, CaseError>
    ensures sorted { IfOk result (λ table. AreSorted sig.now table.value) }
{
    extends_start(sig);
    let mut table = match TermTable::new(alloc) {
        Ok(table) => Box::new(alloc, table)?,
        Err(_) => return Err(CaseError::NoMemory),
    };
    for part in parts {
        push(alloc, sig, &mut table, part)?;
    }
    Ok(table)
}

/// Makes a term, which gets the next number.
fn push(
    alloc: Global,
    sig: &Signature,
    table: &mut TermTable,
    part: &Sexpr,
) -> Result<(), CaseError>
    requires before { AreSorted sig.now table.old }
    ensures sorted { AreSorted sig.now table.new }
{
    let next = TermId(table.len());
    let core = core_of(alloc, sig, part)?;
    if make(table, sig, core)? != Ok(next) {
        return Err(CaseError::Bad);
    }
    Ok(())
}

/// Makes a term, which must be well sorted.
fn make(
    table: &mut TermTable,
    sig: &Signature,
    core: Core,
) -> Result<Result<TermId, TermError>, CaseError>
    ensures sorted { AreSorted sig.now table.old → AreSorted sig.now table.new }
{
    if !is_well_sorted(sig, table, &core) {
        return Err(CaseError::Bad);
    }
    Ok(table.make(sig, core))
}
