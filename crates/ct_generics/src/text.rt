//! How long the texts of expressions are: one count for each shared expression.
ghost use Rattle.std.specs.Prelude.{◌≡◌, ◌↔◌, IsTrue, ◌+◌, ◌<◌, ◌≤◌, ℕ, List, length, Some, slice_get, IfOk, IfErr, OnOk};
ghost use Rattle.ct_generics.specs.declared.nodes.Node.{Node};
ghost use Rattle.ct_sexpr.specs.Written.{written_name};
ghost use Rattle.ct_generics.specs.declared.nodes.Node.TheVariants.{Apply};
ghost use Rattle.ct_generics.specs.Expression.{Expression, named};
ghost use Rattle.ct_generics.specs.Declarations.{Head};
ghost use Rattle.ct_generics.specs.Nodes.{Stands, HasPartsBelow};
ghost use Rattle.ct_generics.specs.Stored.{AreStored};
ghost use Rattle.ct_generics.specs.Text.{text_length, parentheses};
ghost use Rattle.ct_generics.specs.Lengths.{IsCount, AreCounts, IsLongAt};
ghost use Rattle.ct_generics.specs.SortTable.{IsCounted};

use crate::error::GenericError;
use crate::heads::StoredHead;
use crate::items::Items;
use crate::nodes::{ExprId, Expressions, HeadId, Node};
use crate::vertices::stored_at;
use ct_sexpr::is_simple;
use std::alloc::Global;

/// The greatest length of a text.
const MOST_TEXT: u64 = 65_536;
/// One more than the greatest length of a text.
const MOST_COUNTED: u64 = 65_537;

/// The length of the text of each expression; one of more than 65,536 bytes counts as 65,537. The only error is
/// `NoMemory`.
pub fn text_lengths(
    alloc: Global,
    heads: &[StoredHead],
    table: &Expressions,
) -> Result<Vec<u64>, GenericError>
    ensures long { IfOk result (λ counts. length counts.items ≡ length table.now) }
    ensures counts { IfOk result (λ counts. (hs : List Head) → AreStored heads.now hs → AreCounts hs table.now counts.items) }
    ensures err { IfErr result (λ e. e ≡ GenericError.NoMemory) }
{
    let mut counts = Vec::with_capacity(alloc, table.len())?;
    for k in 0..table.len() {
        let node = table.node(ExprId(k as u64));
        let count = node_length(heads, table, counts.as_slice(), node);
        counts.push(count)?;
    }
    Ok(counts)
}

/// Counts the lengths of the texts of the expressions that come after those that were counted. The only error is
/// `NoMemory`.
pub(crate) fn count_more(
    heads: &[StoredHead],
    table: &Expressions,
    counts: &mut Items<u64>,
) -> Result<(), GenericError>
    requires counted { IsCounted heads.now table.now counts.old }
    ensures counted { IsCounted heads.now table.now counts.new }
    ensures long { OnOk result (length counts.new ≡ length table.now) }
    ensures err { IfErr result (λ e. e ≡ GenericError.NoMemory) }
{
    for k in counts.len()..table.len() {
        let node = table.node(ExprId(k as u64));
        let count = node_length(heads, table, counts.as_slice(), node);
        counts.push(count)?;
    }
    Ok(())
}

// The length of the text of the node after these.
fn node_length(heads: &[StoredHead], table: &Expressions, counts: &[u64], node: Node) -> u64
    requires below { HasPartsBelow (length counts.now) node }
    requires long { length counts.now ≤ length table.now }
    ensures count { (hs : List Head) (e : Expression) → AreStored heads.now hs → AreCounts hs table.now counts.now
        → slice_get table.now (length counts.now) ≡ Some node → Stands table.now (length counts.now) e → IsCount result (text_length hs e) }
{
    match node {
        Node::Param(_) => 1,
        Node::Head(h) => head_length(heads, h),
        Node::Apply(m, k) => applied_length(table, counts, m, k),
    }
}

// The length of the name of a sort or generic as it is written.
fn head_length(heads: &[StoredHead], h: HeadId) -> u64
    ensures count { (hs : List Head) → AreStored heads.now hs → IsCount result (text_length hs (named h.0)) }
{
    match stored_at(heads, Some(h)) {
        None => 0,
        Some(stored) => written_length(stored.name.as_slice()),
    }
}

// The length of a name as it is written.
fn written_length(name: &[u8]) -> u64
    ensures count { IsCount result (length (written_name name.now)) }
{
    let bars = if is_simple(name) { 0 } else { 2 };
    capped(name.len() as u64 + bars)
}

// The length of the text of an expression with an argument.
fn applied_length(table: &Expressions, counts: &[u64], m: ExprId, k: ExprId) -> u64
    requires function { m.0 < length counts.now }
    requires argument { k.0 < length counts.now }
    requires long { length counts.now ≤ length table.now }
    ensures count { (hs : List Head) (n : ℕ) (e : Expression) → AreCounts hs table.now counts.now
        → slice_get table.now n ≡ Some (Apply m k) → Stands table.now n e → IsCount result (text_length hs e) }
{
    let function = count_at(counts, m);
    let argument = count_at(counts, k);
    let around = parentheses(table.node(m));
    capped(function + around + 1 + argument)
}

// The parentheses, which come with the first argument.
fn parentheses(node: Node) -> u64
    ensures value { (nodes : List Node) (n : ℕ) (e : Expression) → slice_get nodes n ≡ Some node → Stands nodes n e → result ≡ parentheses e }
    ensures small { result ≤ 2 }
{
    match node {
        Node::Head(_) => 2,
        Node::Param(_) => 0,
        Node::Apply(_, _) => 0,
    }
}

// The count of an earlier expression.
fn count_at(counts: &[u64], m: ExprId) -> u64
    requires within { m.0 < length counts.now }
    ensures value { (size : ℕ) → ((n : ℕ) → slice_get counts.now m.0 ≡ Some n → IsCount n size) → IsCount result size }
    ensures small { result ≤ 65537 }
{
    capped(counts[m.0 as usize])
}

// The length as it is counted.
fn capped(size: u64) -> u64
    ensures count { IsCount result size }
{
    if size > MOST_COUNTED {
        return MOST_COUNTED;
    }
    size
}

/// Whether the text of the expression is too long.
pub(crate) fn is_long(counts: &[u64], id: ExprId) -> bool
    ensures long { IsTrue result ↔ IsLongAt counts.now id }
{
    match count_of(counts, id) {
        Some(count) => count > MOST_TEXT,
        None => false,
    }
}

// The count of this number.
fn count_of(counts: &[u64], id: ExprId) -> Option<u64>
    ensures value { result ≡ slice_get counts.now id.0 }
{
    counts.get(id.0 as usize).copied()
}
