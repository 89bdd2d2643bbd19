//! Values of sorts. `(default SORT)` shows the text of the default value where the sort has one
//! value, and else only that there is one. `(two SORT)` and `(nth SORT N ..)` show how many texts
//! are different: of the two values, or `none`, and of those for these numbers. `(texts SORT N ..)`
//! shows the texts for these numbers.
ghost use Rattle.ct_sorts.specs.Declarations.{IsSort};
ghost use Rattle.ct_card.specs.declared.size.Size.TheVariants.{Infinite};
ghost use Rattle.ct_card.specs.Cardinality.{HasSize};
ghost use Rattle.ct_card.specs.Sizes.{AreSizes};

use crate::sized::sizes_of;
use ct_card::{CardError, Size, Sizes};
use ct_cases::{CaseError, number_of, show_bytes, sort_of};
use ct_sexpr::Sexpr;
use ct_sorts::{Signature, SortId};
use ct_value_text::value_text;
use ct_values::{Graph, NodeId, fits};
use std::alloc::Global;

/// Answers a case of values.
pub fn answer(
    alloc: Global,
    sig: &Signature,
    kind: &str,
    parts: &[Sexpr],
    out: &mut String,
) -> Result<bool, CaseError> {
    match (kind, parts) {
        ("default", [sort]) => show_default(alloc, sig, sort, out)?,
        ("two", [sort]) => show_two(alloc, sig, sort, out)?,
        ("nth", [sort, numbers @ ..]) => {
            let texts = nth_texts(alloc, sig, sort, numbers)?;
            show_count(alloc, &texts, out)?
        }
        ("texts", [sort, numbers @ ..]) => {
            let texts = nth_texts(alloc, sig, sort, numbers)?;
            show_texts(alloc, &texts, out)?
        }
        _ => return Ok(false),
    }
    Ok(true)
}

/// Shows the default value of a sort, or that there is one.
fn show_default(
    alloc: Global,
    sig: &Signature,
    part: &Sexpr,
    out: &mut String,
) -> Result<(), CaseError> {
    let sort = sort_of(alloc, sig, part)?;
    let sizes = sizes_of(alloc, sig)?;
    let mut g = new_graph(alloc)?;
    let text = match sizes.default_value(sig, &mut g, sort) {
        Ok(n) => text_of(alloc, sig, &g, n)?,
        Err(CardError) => return Err(CaseError::NoMemory),
    };
    match sizes.size_of(sort) {
        Size::One => {
            out.push(' ')?;
            show_bytes(alloc, &text, out)
        }
        Size::Finite | Size::Infinite => show_whether_some(&text, out),
    }
}

/// Shows whether there is a text.
fn show_whether_some(text: &[u8], out: &mut String) -> Result<(), CaseError> {
    Ok(out.push_str(if text.is_empty() { " none" } else { " ok" })?)
}

/// Shows how many of the two values of a sort are different, or that it has one.
fn show_two(
    alloc: Global,
    sig: &Signature,
    part: &Sexpr,
    out: &mut String,
) -> Result<(), CaseError> {
    let sort = sort_of(alloc, sig, part)?;
    let sizes = sizes_of(alloc, sig)?;
    let mut g = new_graph(alloc)?;
    let mut texts = Vec::new(alloc);
    match sizes.two_values(sig, &mut g, sort) {
        Ok(Some((first, second))) => {
            add_text(text_of(alloc, sig, &g, first)?, &mut texts)?;
            add_text(text_of(alloc, sig, &g, second)?, &mut texts)?;
            show_count(alloc, &texts, out)
        }
        Ok(None) => Ok(out.push_str(" none")?),
        Err(CardError) => Err(CaseError::NoMemory),
    }
}

/// The different texts of the values for these numbers, where the sort is infinite.
fn nth_texts(
    alloc: Global,
    sig: &Signature,
    part: &Sexpr,
    numbers: &[Sexpr],
) -> Result<Vec<Vec<u8>>, CaseError> {
    let sort = sort_of(alloc, sig, part)?;
    let sizes = sizes_of(alloc, sig)?;
    match sizes.size_of(sort) {
        Size::Infinite => infinite_texts(alloc, sig, &sizes, sort, numbers),
        Size::One | Size::Finite => Err(CaseError::Bad),
    }
}

/// The same for a sort that is.
fn infinite_texts(
    alloc: Global,
    sig: &Signature,
    sizes: &Sizes,
    sort: SortId,
    numbers: &[Sexpr],
) -> Result<Vec<Vec<u8>>, CaseError>
    requires sizes { AreSizes sig.now sizes.now }
    requires inside { IsSort sig.now sort }
    requires infinite { HasSize sig.now sort.0 Infinite }
{
    let mut g = new_graph(alloc)?;
    let mut texts = Vec::new(alloc);
    for number in numbers {
        let n = number_of(number)?;
        add_text(nth_text(alloc, sig, sizes, &mut g, sort, n)?, &mut texts)?;
    }
    Ok(texts)
}

/// The text of the n-th value of an infinite sort.
fn nth_text(
    alloc: Global,
    sig: &Signature,
    sizes: &Sizes,
    g: &mut Graph,
    sort: SortId,
    n: u64,
) -> Result<Vec<u8>, CaseError>
    requires sizes { AreSizes sig.now sizes.now }
    requires inside { IsSort sig.now sort }
    requires infinite { HasSize sig.now sort.0 Infinite }
{
    match sizes.nth(sig, g, sort, n) {
        Ok(node) => text_of(alloc, sig, g, node),
        Err(CardError) => Err(CaseError::NoMemory),
    }
}

/// The graph of no nodes.
fn new_graph(alloc: Global) -> Result<Box<Graph>, CaseError> {
    Ok(Box::new(alloc, Graph::from_nodes(Vec::new(alloc)))?)
}

/// The text of the value at a node of a graph that fits.
fn text_of(alloc: Global, sig: &Signature, g: &Graph, n: NodeId) -> Result<Vec<u8>, CaseError> {
    if n.0 >= g.len() {
        return Err(CaseError::Bad);
    }
    if !fits(sig, g) {
        return Err(CaseError::Bad);
    }
    value_text(alloc, sig, g, n).map_err(|_| CaseError::NoMemory)
}

/// Adds a text, unless it is there.
fn add_text(text: Vec<u8>, texts: &mut Vec<Vec<u8>>) -> Result<(), CaseError> {
    if !texts.contains(&text) {
        texts.push(text)?;
    }
    Ok(())
}

/// Shows how many texts there are, all of them different.
fn show_count(alloc: Global, texts: &[Vec<u8>], out: &mut String) -> Result<(), CaseError> {
    let count = texts.len();
    out.push_str(format!(in alloc; " {count} different")?.as_str())?;
    Ok(())
}

/// Shows the texts.
fn show_texts(alloc: Global, texts: &[Vec<u8>], out: &mut String) -> Result<(), CaseError> {
    for text in texts {
        out.push(' ')?;
        show_bytes(alloc, text, out)?;
    }
    Ok(())
}
