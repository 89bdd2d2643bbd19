//! Writes term lines.
ghost use Rattle.std.specs.Prelude.{◌≡◌, [], ◌∷◌, ◌++◌, unwrap_or, slice_get, OnOk};
ghost use Rattle.ct_sexpr.specs.Expression.{more, none};
ghost use Rattle.ct_sexpr.specs.Written.{written, written_after};
ghost use Rattle.ct_sorts.specs.Declarations.{IsSort, IsConstructor, IsSelector, IsFunction, sel_names, function_names};
ghost use Rattle.ct_log_text.specs.Written.{name, sort_item, qualified_item, ctor_item, numbers, term_numbers, kind_of, core_parts, term_item, IsNamed};

use crate::put::{open_row, put_name_after, put_number_after, put_terms, put_word_after};
use ct_instances::{has_determined_sort, sort_text};
use ct_log_lines::{TermKind, kind_word};
use ct_sorts::{CtorId, FunId, SelId, Signature, SortId};
use ct_terms::{Core, TermId};
use std::alloc::{AllocError, Global};

/// The kind of a term.
fn kind_of(core: &Core) -> TermKind
    ensures value { result ≡ kind_of core.now }
{
    match core {
        Core::Con(_, _) => TermKind::Con,
        Core::Sel(_, _) => TermKind::Sel,
        Core::Test(_, _) => TermKind::Test,
        Core::Apply(_, _) => TermKind::Apply,
        Core::Eq(_, _) => TermKind::Eq,
        Core::Not(_) => TermKind::Not,
        Core::And(_) => TermKind::And,
        Core::Or(_) => TermKind::Or,
        Core::Iff(_, _) => TermKind::Iff,
        Core::Ite(_, _, _) => TermKind::Ite,
    }
}

/// Writes a constructor and terms, each after a space.
fn put_con(
    alloc: Global,
    sig: &Signature,
    c: CtorId,
    terms: &[TermId],
    out: &mut Vec<u8>,
) -> Result<(), AllocError>
    requires declared { IsConstructor sig.now c }
    ensures ok { OnOk result (out.new.items ≡ out.old.items ++ written_after (more (ctor_item sig.now c) (numbers (term_numbers terms.now)))) }
{
    put_ctor_after(sig, c, out)?;
    put_terms(alloc, terms, out)
}

/// Writes a space and a constructor: its name, or `(as C S)` where the sorts of its fields do not determine its own.
fn put_ctor_after(sig: &Signature, c: CtorId, out: &mut Vec<u8>) -> Result<(), AllocError>
    requires declared { IsConstructor sig.now c }
    ensures ok { OnOk result (out.new.items ≡ out.old.items ++ written_after (more (ctor_item sig.now c) none)) }
{
    if has_determined_sort(sig, c) {
        return put_name_after(sig.ctor_name(c), out);
    }
    put_qualified_after(sig, c, out)
}

/// Writes a space and a constructor with its sort.
fn put_qualified_after(sig: &Signature, c: CtorId, out: &mut Vec<u8>) -> Result<(), AllocError>
    requires declared { IsConstructor sig.now c }
    ensures ok { OnOk result (out.new.items ≡ out.old.items ++ written_after (more (qualified_item sig.now c) none)) }
{
    out.push(b' ')?;
    open_row(b"as", out)?;
    put_name_after(sig.ctor_name(c), out)?;
    put_sort_after(sig, sig.ctor_sort(c), out)?;
    Ok(out.push(b')')?)
}

/// Writes a space and a sort.
fn put_sort_after(sig: &Signature, s: SortId, out: &mut Vec<u8>) -> Result<(), AllocError>
    requires inside { IsSort sig.now s }
    ensures ok { OnOk result (out.new.items ≡ out.old.items ++ written_after (more (sort_item sig.now s) none)) }
{
    out.push(b' ')?;
    Ok(out.extend_from_slice(sort_text(sig, s))?)
}

/// Writes a selector and its term, each after a space.
fn put_sel(
    alloc: Global,
    sig: &Signature,
    s: SelId,
    t: TermId,
    out: &mut Vec<u8>,
) -> Result<(), AllocError>
    requires declared { IsSelector sig.now s }
    ensures ok { OnOk result (out.new.items ≡ out.old.items ++ written_after (more (name (unwrap_or (slice_get (sel_names sig.now) s.0) [])) (numbers (t.0 ∷ [])))) }
{
    put_name_after(sig.sel_name(s), out)?;
    put_number_after(alloc, t.0 as u64, out)
}

/// Writes a function and terms, each after a space.
fn put_fun(
    alloc: Global,
    sig: &Signature,
    f: FunId,
    terms: &[TermId],
    out: &mut Vec<u8>,
) -> Result<(), AllocError>
    requires declared { IsFunction sig.now f }
    ensures ok { OnOk result (out.new.items ≡ out.old.items ++ written_after (more (name (unwrap_or (slice_get (function_names sig.now) f.0) [])) (numbers (term_numbers terms.now)))) }
{
    put_name_after(sig.fun_name(f), out)?;
    put_terms(alloc, terms, out)
}

/// Writes what stands after the word of a term.
fn put_core(
    alloc: Global,
    sig: &Signature,
    core: &Core,
    out: &mut Vec<u8>,
) -> Result<(), AllocError>
    requires named { IsNamed sig.now core.now }
    ensures ok { OnOk result (out.new.items ≡ out.old.items ++ written_after (core_parts sig.now core.now)) }
{
    match core {
        Core::Con(c, args) => put_con(alloc, sig, *c, args.as_slice(), out),
        Core::Sel(s, t) => put_sel(alloc, sig, *s, *t, out),
        Core::Test(c, t) => put_con(alloc, sig, *c, &[*t], out),
        Core::Apply(f, args) => put_fun(alloc, sig, *f, args.as_slice(), out),
        Core::Eq(a, b) => put_terms(alloc, &[*a, *b], out),
        Core::Not(t) => put_terms(alloc, &[*t], out),
        Core::And(args) => put_terms(alloc, args.as_slice(), out),
        Core::Or(args) => put_terms(alloc, args.as_slice(), out),
        Core::Iff(a, b) => put_terms(alloc, &[*a, *b], out),
        Core::Ite(c, a, b) => put_terms(alloc, &[*c, *a, *b], out),
    }
}

/// Writes the term line with this number.
pub(crate) fn put_term(
    alloc: Global,
    sig: &Signature,
    n: u64,
    core: &Core,
    out: &mut Vec<u8>,
) -> Result<(), AllocError>
    requires named { IsNamed sig.now core.now }
    ensures ok { OnOk result (out.new.items ≡ out.old.items ++ written (term_item sig.now n core.now)) }
{
    open_row(b"t", out)?;
    put_number_after(alloc, n, out)?;
    put_word_after(kind_word(kind_of(core)), out)?;
    put_core(alloc, sig, core, out)?;
    Ok(out.push(b')')?)
}
