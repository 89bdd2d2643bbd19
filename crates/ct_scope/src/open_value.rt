//! The term of a closed value of a listable sort, after those of the values under it. Values may be nested deeply, so there is
//! no recursion.
ghost use Rattle.std.specs.Prelude.{◌≡◌, ◌<◌, ◌≤◌, List, [], length, drop, Some, None, slice_get, IfOk, IfErr, OnOk, MatchOption};
ghost use Rattle.ct_sorts.specs.declared.ids.SortId.{SortId};
ghost use Rattle.ct_sorts.specs.Declarations.{IsConstructor};
ghost use Rattle.ct_listing.specs.Closed.{ClosedValue};
ghost use Rattle.ct_listing.specs.Listable.{IsListable, field_sorts};
ghost use Rattle.ct_listing.specs.Listing.{listed};
ghost use Rattle.ct_finite.specs.Counts.{AreCounts, most_values};
ghost use Rattle.ct_finite.specs.Entries.{AreEntries};
ghost use Rattle.ct_operators.specs.Effect.{IsSoundTable};
ghost use Rattle.ct_terms.specs.Terms.{Terms};
ghost use Rattle.ct_scope.specs.declared.values.ListedValue.{ListedValue};
ghost use Rattle.ct_scope.specs.Values.{AreValueTerms, MakesValue};
ghost use Rattle.ct_scope.specs.Awaiting.{IsUnderWay, AreUnderWay, IsNextField, IsStep, with_argument};

use crate::values::{ListedValue, ValueTerms, known_value, remember_value};
use ct_finite::Finite;
use ct_listing::listed_values;
use ct_operators::make;
use ct_sorts::{CtorId, Items, SelId, Signature, SortId};
use ct_terms::{Args, Core, TermError, TermId, TermTable};
use std::alloc::Global;

// A value whose term is to be made: its constructor, the numbers of its fields' values in the lists of their sorts, and the terms
// of the first of these.
#[derive(Debug, Drop)]
struct OpenValue {
    value: ListedValue,
    ctor: CtorId,
    numbers: Items<u64>,
    args: Args,
}

// Where the making of a value stands after a step.
#[derive(Debug, Drop)]
enum Progress {
    // This value is to be made next.
    Open(OpenValue),
    // The whole value is made: this is its term.
    Made(TermId),
}

// The term of a value. Those of the values under it come before it, from left to right.
pub(crate) fn value_term(
    alloc: Global,
    sig: &Signature,
    finite: &Finite,
    terms: &mut ValueTerms,
    table: &mut TermTable,
    s: SortId,
    k: u64,
) -> Result<TermId, TermError>
    requires counts { AreCounts sig.now finite.now }
    requires kept { IsSoundTable sig.now table.old }
    requires listable { IsListable sig.now s }
    requires few { length (listed sig.now s) ≤ most_values }
    requires there { k < length (listed sig.now s) }
    requires right { AreValueTerms sig.now table.old terms.old }
    ensures outcome { (v : ClosedValue) → slice_get (listed sig.now s) k ≡ Some v → MakesValue sig.now table.old table.new v result }
    ensures right { OnOk result (AreValueTerms sig.now table.new terms.new) }
{
    let value = ListedValue { sort: s, number: k };
    if let Some(term) = known_value(terms, &value) {
        return Ok(term);
    }
    // Each of these awaits the term of a field: the last of them that of `top`, and each other that of the next of them.
    let mut below = Vec::new(alloc);
    let mut top = open_value(alloc, sig, finite, value)?;
    for _ in 0..u64::MAX {
        match go_on(alloc, sig, finite, terms, table, &mut below, top)? {
            Progress::Open(next) => top = next,
            Progress::Made(term) => return Ok(term),
        }
    }
    // A value takes two steps, and one for each of its fields, so that this is never reached. No clause says so.
    Err(TermError::NoMemory)
}

// Makes the next field of the value on top, or this value itself where all of its fields have their terms.
fn go_on(
    alloc: Global,
    sig: &Signature,
    finite: &Finite,
    terms: &mut ValueTerms,
    table: &mut TermTable,
    below: &mut Vec<OpenValue>,
    top: OpenValue,
) -> Result<Progress, TermError>
    requires counts { AreCounts sig.now finite.now }
    requires kept { IsSoundTable sig.now table.old }
    requires right { AreValueTerms sig.now table.old terms.old }
    requires under_way { (old : Terms) × (whole : ListedValue) × AreUnderWay sig.now old whole table.old below.old.items top }
    ensures step { (old : Terms) (whole : ListedValue) → AreUnderWay sig.now old whole table.old below.old.items top → IsStep sig.now old whole table.new below.new.items result }
    ensures kept { OnOk result (IsSoundTable sig.now table.new) }
    ensures right { OnOk result (AreValueTerms sig.now table.new terms.new) }
{
    let Some(field) = next_field(sig, &top) else {
        return make_open(sig, terms, table, below, top);
    };
    if let Some(term) = known_value(terms, &field) {
        let next = add_argument(top, term)?;
        return Ok(Progress::Open(next));
    }
    let next = open_value(alloc, sig, finite, field)?;
    below.push(top)?;
    Ok(Progress::Open(next))
}

// Makes the term of a value whose fields have theirs, for the value that awaits it.
fn make_open(
    sig: &Signature,
    terms: &mut ValueTerms,
    table: &mut TermTable,
    below: &mut Vec<OpenValue>,
    top: OpenValue,
) -> Result<Progress, TermError>
    requires kept { IsSoundTable sig.now table.old }
    requires right { AreValueTerms sig.now table.old terms.old }
    requires under_way { (old : Terms) × (whole : ListedValue) × AreUnderWay sig.now old whole table.old below.old.items top }
    requires all { drop (length top.args) (field_sorts sig.now top.ctor) ≡ [] }
    ensures step { (old : Terms) (whole : ListedValue) → AreUnderWay sig.now old whole table.old below.old.items top → IsStep sig.now old whole table.new below.new.items result }
    ensures kept { OnOk result (IsSoundTable sig.now table.new) }
    ensures right { OnOk result (AreValueTerms sig.now table.new terms.new) }
{
    listed_values();
    // This says that the declarations agree with each other.
    sig.sorts();
    let OpenValue {
        value,
        ctor,
        numbers,
        args,
    } = top;
    drop(numbers);
    let term = make(sig, table, Core::Con(ctor, args))?;
    remember_value(terms, value, term)?;
    match below.pop() {
        None => Ok(Progress::Made(term)),
        Some(under) => {
            let next = add_argument(under, term)?;
            Ok(Progress::Open(next))
        }
    }
}

// The value as it is built, before any of its fields has a term.
fn open_value(
    alloc: Global,
    sig: &Signature,
    finite: &Finite,
    value: ListedValue,
) -> Result<OpenValue, TermError>
    requires counts { AreCounts sig.now finite.now }
    requires listable { IsListable sig.now value.sort }
    requires few { length (listed sig.now value.sort) ≤ most_values }
    requires there { value.number < length (listed sig.now value.sort) }
    ensures opened { (table : Terms) → IfOk result (λ o. (o.value ≡ value) × IsUnderWay sig.now table table o) }
    ensures err { IfErr result (λ e. e ≡ TermError.NoMemory) }
{
    listed_values();
    let part = finite.part(sig, value.sort, value.number)?;
    let numbers = Items::new(part.numbers);
    let args = Args::new(alloc);
    Ok(OpenValue {
        value,
        ctor: part.ctor,
        numbers,
        args,
    })
}

// The value of the first field that has no term.
fn next_field(sig: &Signature, value: &OpenValue) -> Option<ListedValue>
    requires declared { IsConstructor sig.now value.now.ctor }
    requires entries { (vs : List ClosedValue) × AreEntries sig.now (field_sorts sig.now value.now.ctor) value.now.numbers vs }
    ensures next { MatchOption result (drop (length value.now.args) (field_sorts sig.now value.now.ctor) ≡ []) (λ field. IsNextField sig.now value.now field) }
{
    let place = value.args.as_slice().len();
    let sel = selector_at(sig.ctor_sels(value.ctor), place)?;
    let number = number_at(value.numbers.as_slice(), place)?;
    Some(ListedValue {
        sort: sig.sel_sort(sel),
        number,
    })
}

// The selector at this place, if there is one.
fn selector_at(sels: &[SelId], place: usize) -> Option<SelId>
    ensures value { result ≡ slice_get sels.now place }
{
    sels.get(place).copied()
}

// The number at this place, if there is one.
fn number_at(numbers: &[u64], place: usize) -> Option<u64>
    ensures value { result ≡ slice_get numbers.now place }
{
    numbers.get(place).copied()
}

// The value with the term of one field more.
fn add_argument(value: OpenValue, term: TermId) -> Result<OpenValue, TermError>
    ensures added { IfOk result (λ o. o ≡ with_argument value term) }
    ensures err { IfErr result (λ e. e ≡ TermError.NoMemory) }
{
    let mut next = value;
    next.args.push(term)?;
    Ok(next)
}
