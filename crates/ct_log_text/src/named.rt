//! What the name of a term line stands for, given the sorts of its terms.

ghost use Rattle.std.specs.Prelude.{◌≡◌, ◌<◌, length, map, All, Some, IfOk, IfSome};
ghost use Rattle.std.specs.Option.{option_and_then};
ghost use Rattle.ct_sorts.specs.Applied.{TakesAll};
ghost use Rattle.ct_sorts.specs.Consistent.{IsConsistent};
ghost use Rattle.ct_sorts.specs.Declarations.{Declarations, IsSort};
ghost use Rattle.ct_sorts.specs.Lookup.{IsSymbol};
ghost use Rattle.ct_sorts.specs.declared.ids.Symbol.TheVariants.{GenCtor, GenSel};
ghost use Rattle.ct_instances.specs.declared.among.NamedCtor.TheVariants.{Generic};
ghost use Rattle.ct_instances.specs.Among.{origin_of};
ghost use Rattle.ct_instances.specs.Among as among;
ghost use Rattle.ct_instances.specs.Fields.{is_determined};
ghost use Rattle.ct_terms.specs.Terms.{AreSorted};
ghost use Rattle.ct_log_text.specs.Reading.{StandsFor, terms_of};
ghost use Rattle.ct_log_text.specs.Reading as reading;
ghost use Rattle.ct_log_text.specs.Named as spec;

use ct_instances::{NamedCtor, ctor_among, field_among, matched_with};
use ct_log_lines::{TermKind, TermLine, has_name};
use ct_sorts::{CtorId, GenId, SelId, Signature, SortId, Symbol, shapes};
use ct_terms::{TermId, TermTable};
use std::alloc::{AllocError, Global};

/// What the name of a term line stands for, where its kind has a name: a constructor or a selector of an instance by the sorts
/// of the terms, and by the written sort where these do not determine it. Its only error is out of memory.
pub(crate) fn symbol_of(
    alloc: Global,
    sig: &Signature,
    table: &TermTable,
    line: &TermLine,
    args: &[TermId],
) -> Result<Option<Symbol>, AllocError>
    requires table { AreSorted sig.now table.now }
    requires within { All (λ t. t.0 < length table.now) args.now }
    requires args { args.now ≡ terms_of line.now }
    ensures value { IfOk result (StandsFor sig.now table.now line.now) }
{
    if !has_name(line.kind) {
        return Ok(None);
    }
    match sig.lookup(line.name.as_slice()) {
        None => Ok(None),
        Some(found) => symbol_at(alloc, sig, table, line, args, found),
    }
}

// What the name stands for, where it resolves to this.
fn symbol_at(
    alloc: Global,
    sig: &Signature,
    table: &TermTable,
    line: &TermLine,
    args: &[TermId],
    found: Symbol,
) -> Result<Option<Symbol>, AllocError>
    requires found { IsSymbol sig.now found }
    requires table { AreSorted sig.now table.now }
    requires within { All (λ t. t.0 < length table.now) args.now }
    ensures value { IfOk result (λ symbol. symbol ≡ spec.symbol_at sig.now line.now (reading.sorts_of table.now args.now) (Some found)) }
{
    match found {
        Symbol::GenCtor(g, index) => match ctor_of(alloc, sig, table, line, args, g, index)? {
            Some(c) => Ok(Some(Symbol::Ctor(c))),
            None => Ok(None),
        },
        Symbol::GenSel(g, index, place) => match sel_of(sig, table, g, index, place, args) {
            Some(s) => Ok(Some(Symbol::Sel(s))),
            None => Ok(None),
        },
        Symbol::Ctor(_) | Symbol::Sel(_) | Symbol::Fun(_) | Symbol::Def(_) => {
            Ok(without_sort(line, found))
        }
    }
}

// The symbol, where no sort is written.
fn without_sort(line: &TermLine, symbol: Symbol) -> Option<Symbol>
    ensures value { result ≡ spec.without_sort symbol line.now.sort }
{
    match line.sort {
        None => Some(symbol),
        Some(_) => None,
    }
}

// The sort of a term.
fn sort_of(table: &TermTable, t: TermId) -> SortId
    requires within { t.0 < length table.now }
    ensures value { result ≡ reading.sort_of table.now t }
    ensures inside { (d : Declarations) → IsConsistent d → AreSorted d table.now → IsSort d result }
{
    prove!(table.len() > 0);
    table.sort(t)
}

// The sort of the first of the terms.
fn first_sort(table: &TermTable, args: &[TermId]) -> Option<SortId>
    requires within { All (λ t. t.0 < length table.now) args.now }
    ensures value { result ≡ spec.first_sort (reading.sorts_of table.now args.now) }
    ensures inside { (d : Declarations) → IsConsistent d → AreSorted d table.now → IfSome result (IsSort d) }
{
    match args {
        [] => None,
        [first, ..] => Some(sort_of(table, *first)),
    }
}

// The sorts of the terms.
fn sorts_of(alloc: Global, table: &TermTable, args: &[TermId]) -> Result<Vec<SortId>, AllocError>
    requires within { All (λ t. t.0 < length table.now) args.now }
    ensures value { IfOk result (λ sorts. sorts.items ≡ reading.sorts_of table.now args.now) }
{
    let mut sorts = Vec::new(alloc);
    for t in args {
        sorts.push(sort_of(table, *t))?;
    }
    Ok(sorts)
}

// The selector of an instance, by the sort of the first term.
fn sel_of(
    sig: &Signature,
    table: &TermTable,
    g: GenId,
    index: u32,
    place: u32,
    args: &[TermId],
) -> Option<SelId>
    requires field { IsSymbol sig.now (GenSel g index place) }
    requires table { AreSorted sig.now table.now }
    requires within { All (λ t. t.0 < length table.now) args.now }
    ensures value { result ≡ option_and_then (among.field_among sig.now g index place) (spec.first_sort (reading.sorts_of table.now args.now)) }
{
    prove!(sig.sorts() > 0);
    match first_sort(table, args) {
        None => None,
        Some(s) => field_among(sig, g, index, place, s),
    }
}

// The constructor of an instance: by the sort that is written, where the sorts of its fields do not determine it, and else by
// the sorts of the terms.
fn ctor_of(
    alloc: Global,
    sig: &Signature,
    table: &TermTable,
    line: &TermLine,
    args: &[TermId],
    g: GenId,
    index: u32,
) -> Result<Option<CtorId>, AllocError>
    requires ctor { IsSymbol sig.now (GenCtor g index) }
    requires table { AreSorted sig.now table.now }
    requires within { All (λ t. t.0 < length table.now) args.now }
    ensures value { IfOk result (λ c. c ≡ spec.ctor_by sig.now line.now.kind g index (reading.sorts_of table.now args.now) (is_determined sig.now g index) line.now.sort) }
{
    let determined = determines(sig, g, index);
    match &line.sort {
        Some(text) => {
            if determined {
                return Ok(None);
            }
            Ok(written_ctor(sig, text.as_slice(), g, index))
        }
        None => {
            if !determined {
                return Ok(None);
            }
            determined_ctor(alloc, sig, table, line.kind, args, g, index)
        }
    }
}

// Whether the sorts of its fields determine the sort of the generic's constructor.
fn determines(sig: &Signature, g: GenId, index: u32) -> bool
    requires ctor { IsSymbol sig.now (GenCtor g index) }
    ensures value { result ≡ is_determined sig.now g index }
{
    prove!(sig.sorts() > 0);
    sig.gen_determined(g, index)
}

// The sort with this text.
fn sort_with_text(sig: &Signature, text: &[u8]) -> Option<SortId>
    ensures value { result ≡ spec.sort_with_text sig.now text.now }
    ensures inside { IfSome result (IsSort sig.now) }
{
    shapes();
    prove!(sig.sorts() > 0);
    sig.sort_with_text(text)
}

// The constructor of the instance with this text.
fn written_ctor(sig: &Signature, text: &[u8], g: GenId, index: u32) -> Option<CtorId>
    requires ctor { IsSymbol sig.now (GenCtor g index) }
    ensures value { result ≡ option_and_then (among.ctor_among sig.now (Generic g index)) (spec.sort_with_text sig.now text.now) }
{
    match sort_with_text(sig, text) {
        None => None,
        Some(s) => ctor_among(sig, NamedCtor::Generic(g, index), s),
    }
}

// The constructor of an instance, by the sorts of the terms.
fn determined_ctor(
    alloc: Global,
    sig: &Signature,
    table: &TermTable,
    kind: TermKind,
    args: &[TermId],
    g: GenId,
    index: u32,
) -> Result<Option<CtorId>, AllocError>
    requires ctor { IsSymbol sig.now (GenCtor g index) }
    requires table { AreSorted sig.now table.now }
    requires within { All (λ t. t.0 < length table.now) args.now }
    ensures value { IfOk result (λ c. c ≡ option_and_then (among.ctor_among sig.now (Generic g index)) (spec.sort_in sig.now kind g index (reading.sorts_of table.now args.now))) }
{
    match sort_in(alloc, sig, table, kind, args, g, index)? {
        None => Ok(None),
        Some(s) => Ok(ctor_among(sig, NamedCtor::Generic(g, index), s)),
    }
}

// The sort of the constructor: that of the term that is tested, or by the sorts of its arguments.
fn sort_in(
    alloc: Global,
    sig: &Signature,
    table: &TermTable,
    kind: TermKind,
    args: &[TermId],
    g: GenId,
    index: u32,
) -> Result<Option<SortId>, AllocError>
    requires ctor { IsSymbol sig.now (GenCtor g index) }
    requires table { AreSorted sig.now table.now }
    requires within { All (λ t. t.0 < length table.now) args.now }
    ensures value { IfOk result (λ s. s ≡ spec.sort_in sig.now kind g index (reading.sorts_of table.now args.now)) }
    ensures inside { IfOk result (λ s. IfSome s (IsSort sig.now)) }
{
    prove!(sig.sorts() > 0);
    if kind == TermKind::Test {
        return Ok(first_sort(table, args));
    }
    sort_of_arguments(alloc, sig, table, args, g, index)
}

// The sort of a constructor term, by the sorts of its arguments.
fn sort_of_arguments(
    alloc: Global,
    sig: &Signature,
    table: &TermTable,
    args: &[TermId],
    g: GenId,
    index: u32,
) -> Result<Option<SortId>, AllocError>
    requires ctor { IsSymbol sig.now (GenCtor g index) }
    requires table { AreSorted sig.now table.now }
    requires within { All (λ t. t.0 < length table.now) args.now }
    ensures value { IfOk result (λ s. s ≡ spec.sort_of_arguments sig.now g index (reading.sorts_of table.now args.now)) }
    ensures inside { IfOk result (λ s. IfSome s (IsSort sig.now)) }
{
    prove!(sig.sorts() > 0);
    prove!(table.len() > 0);
    let sorts = sorts_of(alloc, table, args)?;
    match matched_with(alloc, sig, g, index, sorts.as_slice())? {
        None => Ok(None),
        Some(given) => Ok(sort_at(sig, g, given.as_slice())),
    }
}

// The sort that is the generic at these.
fn sort_at(sig: &Signature, g: GenId, sorts: &[SortId]) -> Option<SortId>
    requires generic { TakesAll sig.now g sorts.now }
    requires sorts { All (IsSort sig.now) sorts.now }
    ensures value { result ≡ spec.sort_at sig.now g (map (origin_of sig.now) sorts.now) }
    ensures inside { IfSome result (IsSort sig.now) }
{
    prove!(sig.sorts() > 0);
    sig.find_at(g, sorts)
}
