//! What answers show: names of sorts, numbers, and the terms of a table.
ghost use Rattle.ct_terms.specs.Terms.{AreSorted};
ghost use Rattle.ct_log_text.specs.Written.{IsNamed};

use ct_cases::{CaseError, show_bytes};
use ct_sorts::{Signature, SortId};
use ct_terms::{Core, TermId, TermTable};
use std::alloc::Global;

/// Shows a number.
pub fn show_number(alloc: Global, number: u64, out: &mut String) -> Result<(), CaseError> {
    out.push_str(format!(in alloc; " {number}")?.as_str())?;
    Ok(())
}

/// Shows the name of a sort.
pub fn show_sort_name(
    alloc: Global,
    sig: &Signature,
    sort: SortId,
    out: &mut String,
) -> Result<(), CaseError> {
    if sort.0 >= sig.sorts() {
        return Err(CaseError::Bad);
    }
    out.push(' ')?;
    show_bytes(alloc, sig.sort_name(sort), out)
}

/// Shows the terms of the table that are no truth values.
pub fn show_terms(
    alloc: Global,
    sig: &Signature,
    table: &TermTable,
    out: &mut String,
) -> Result<(), CaseError>
    requires sorted { AreSorted sig.now table.now }
{
    for t in 2..table.len() {
        out.push_str(" (")?;
        show_head(alloc, sig, table.core(TermId(t)), out)?;
        show_children(alloc, table.core(TermId(t)), out)?;
        out.push(')')?;
    }
    Ok(())
}

/// Shows what stands at the head of a term.
fn show_head(alloc: Global, sig: &Signature, core: &Core, out: &mut String) -> Result<(), CaseError>
    requires declared { IsNamed sig.now core.now }
{
    match core {
        Core::Con(c, _) => show_named("con ", alloc, sig.ctor_name(*c), out),
        Core::Apply(f, _) => show_named("app ", alloc, sig.fun_name(*f), out),
        Core::Sel(s, _) => show_named("sel ", alloc, sig.sel_name(*s), out),
        Core::Test(c, _) => show_named("is ", alloc, sig.ctor_name(*c), out),
        Core::Eq(_, _) => Ok(out.push_str("=")?),
        Core::Not(_) => Ok(out.push_str("not")?),
        Core::And(_) => Ok(out.push_str("and")?),
        Core::Or(_) => Ok(out.push_str("or")?),
        Core::Iff(_, _) => Ok(out.push_str("iff")?),
        Core::Ite(_, _, _) => Ok(out.push_str("ite")?),
    }
}

/// Shows a kind of term with a name.
fn show_named(kind: &str, alloc: Global, name: &[u8], out: &mut String) -> Result<(), CaseError> {
    out.push_str(kind)?;
    show_bytes(alloc, name, out)
}

/// Shows the numbers of the terms right under a term.
fn show_children(alloc: Global, core: &Core, out: &mut String) -> Result<(), CaseError> {
    match core {
        Core::Con(_, args) | Core::Apply(_, args) | Core::And(args) | Core::Or(args) => {
            show_all(alloc, args.as_slice(), out)
        }
        Core::Sel(_, a) | Core::Test(_, a) | Core::Not(a) => show_all(alloc, &[*a], out),
        Core::Eq(a, b) | Core::Iff(a, b) => show_all(alloc, &[*a, *b], out),
        Core::Ite(c, a, b) => show_all(alloc, &[*c, *a, *b], out),
    }
}

/// Shows the numbers of terms.
fn show_all(alloc: Global, terms: &[TermId], out: &mut String) -> Result<(), CaseError> {
    for t in terms {
        show_number(alloc, u64::from(t.0), out)?;
    }
    Ok(())
}
