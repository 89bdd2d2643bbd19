//! Sorts of fields matched with sorts of arguments: what the parameters of a generic stand for.
ghost use Rattle.std.specs.Prelude.{◌≡◌, ℕ, ◌<◌, ◌+◌, ◌++◌, List, length, map, replicate, reverse, option_map, slice_get, Some, None, All, IfOk, OnOk, MatchOption, ⊤};
ghost use Rattle.ct_generics.specs.Declarations.{IsExpression};
ghost use Rattle.ct_generics.specs.Denoted.{expression_at};
ghost use Rattle.ct_generics.specs.Expression.{Expression, parameter};
ghost use Rattle.ct_generics.specs.Nodes.{Stands};
ghost use Rattle.ct_sorts.specs.Consistent.{IsConsistent};
ghost use Rattle.ct_sorts.specs.Declarations.{Declarations, IsSort};
ghost use Rattle.ct_sorts.specs.Lookup.{IsSymbol};
ghost use Rattle.ct_sorts.specs.declared.ids.Symbol.TheVariants.{GenCtor};
ghost use Rattle.ct_instances.specs.Among.{origin_of, is_head};
ghost use Rattle.ct_instances.specs.Fields.{generic_fields, generic_params};
ghost use Rattle.ct_instances.specs.Left.{fields_left, assignment_of, IsMatchingOf, NextFits};
ghost use Rattle.ct_instances.specs.Matching.{matched, unmatched, sorts_for};
ghost use Rattle.ct_instances.specs.Pairs.{IsField, HoldSorts, assigned, pair_matched, ArePairs, side_by_side, size, weight, HasMatched, IsParted, GoesOn, parameter_in};

use ct_generics::{ExprId, Expressions, HeadId, Node, denotations, head_and_args};
use ct_sorts::{GenId, Signature, SortId};
use std::alloc::{AllocError, Global};

/// The fields of a generic's constructor that are matched with sorts, from left to right, and what its parameters were matched with,
/// each first.
#[derive(Drop)]
pub struct Matching {
    /// The generic.
    g: GenId,
    /// The index of the constructor.
    index: u32,
    /// How many fields were matched.
    place: usize,
    /// What each parameter was matched with first.
    sorts: Vec<Option<SortId>>,
}

impl Matching {
    /// No field was matched yet. The only error is out of memory.
    pub fn new(alloc: Global, sig: &Signature, g: GenId, index: u32) -> Result<Matching, AllocError>
        requires ctor { IsSymbol sig.now (GenCtor g index) }
        ensures fields { IfOk result (λ m. fields_left sig.now m ≡ generic_fields sig.now g index) }
        ensures unmatched { IfOk result (λ m. assignment_of sig.now m ≡ unmatched (generic_params sig.now g)) }
        ensures inside { IfOk result (IsMatchingOf sig.now) }
        ensures generic { IfOk result (λ m. m.g ≡ g) }
    {
        let sorts = no_sorts(alloc, sig.gen_params(g))?;
        Ok(Matching {
            g,
            index,
            place: 0,
            sorts,
        })
    }

    /// Whether the sort of the next field fits the sort of its argument: a parameter stands for what it was first
    /// matched with. The only error is out of memory.
    pub fn fits_next(
        &mut self,
        alloc: Global,
        sig: &Signature,
        sort: SortId,
    ) -> Result<bool, AllocError>
        requires inside { IsMatchingOf sig.now self.old }
        requires sort { IsSort sig.now sort }
        ensures fits { IfOk result (λ fits. NextFits sig.now self.old sort self.new fits) }
        ensures inside { IsMatchingOf sig.now self.new }
        ensures generic { self.new.g ≡ self.old.g }
    {
        denotations();
        prove!(sig.sorts() > 0);
        let (template, fields) = sig.gen_fields(self.g, self.index);
        match field_at(fields, self.place) {
            None => Ok(false),
            Some(field) => {
                self.place += 1;
                fits(alloc, sig, template, &mut self.sorts, field, sort)
            }
        }
    }

    /// The sorts for which the parameters stand, if each was matched. The only error is out of memory.
    pub fn sorts(&self, alloc: Global) -> Result<Option<Vec<SortId>>, AllocError>
        ensures sorts { (d : Declarations) → IfOk result (λ found. MatchOption found (sorts_for (assignment_of d self.now) ≡ None)
            (λ sorts. sorts_for (assignment_of d self.now) ≡ Some (map (origin_of d) sorts.items))) }
        ensures inside { (d : Declarations) → IsMatchingOf d self.now → IfOk result (λ found. MatchOption found ⊤ (λ sorts. All (IsSort d) sorts.items)) }
        ensures long { IfOk result (λ found. MatchOption found ⊤ (λ sorts. length sorts.items ≡ length self.now.sorts.items)) }
    {
        let sorts = self.sorts.as_slice();
        let mut all = Vec::with_capacity(alloc, sorts.len())?;
        let mut place = 0;
        while place < sorts.len() {
            match place_of(sorts, place) {
                Some(sort) => all.push(sort)?,
                None => return Ok(None),
            }
            place += 1;
        }
        Ok(Some(all))
    }
}

// Nothing, for each of so many parameters.
fn no_sorts(alloc: Global, params: u64) -> Result<Vec<Option<SortId>>, AllocError>
    ensures none { IfOk result (λ sorts. sorts.items ≡ replicate params None) }
{
    let mut sorts = Vec::new(alloc);
    for _ in 0..params {
        sorts.push(None)?;
    }
    Ok(sorts)
}

// Whether the sort of a field fits the sort of its argument: parameters stand for what they were matched with first.
fn fits(
    alloc: Global,
    sig: &Signature,
    template: &Expressions,
    sorts: &mut Vec<Option<SortId>>,
    field: ExprId,
    sort: SortId,
) -> Result<bool, AllocError>
    requires field { IsField sig.now template.now (length sorts.old.items) field }
    requires sort { IsSort sig.now sort }
    requires sorts { HoldSorts sig.now sorts.old.items }
    ensures fits { IfOk result (λ fits. HasMatched (pair_matched sig.now template.now field sort (assigned sig.now sorts.old.items)) (assigned sig.now sorts.new.items) fits) }
    ensures long { length sorts.new.items ≡ length sorts.old.items }
    ensures sorts { HoldSorts sig.now sorts.new.items }
{
    let mut stack = Vec::new(alloc);
    stack.push((field, sort))?;
    while let Some((field, sort)) = stack.pop() {
        if !fits_pair(alloc, sig, template, sorts, &mut stack, field, sort)? {
            return Ok(false);
        }
    }
    Ok(true)
}

// Matches a parameter with a sort, or puts the parts of the two side by side onto the stack, where they may match.
fn fits_pair(
    alloc: Global,
    sig: &Signature,
    template: &Expressions,
    sorts: &mut Vec<Option<SortId>>,
    stack: &mut Vec<(ExprId, SortId)>,
    field: ExprId,
    sort: SortId,
) -> Result<bool, AllocError>
    requires field { IsField sig.now template.now (length sorts.old.items) field }
    requires sort { IsSort sig.now sort }
    requires sorts { HoldSorts sig.now sorts.old.items }
    requires pairs { ArePairs sig.now template.now (length sorts.old.items) (reverse stack.old.items) }
    ensures goes_on { IfOk result (GoesOn sig.now template.now field sort stack.old.items stack.new.items (assigned sig.now sorts.old.items) (assigned sig.now sorts.new.items)) }
    ensures pairs { OnOk result (ArePairs sig.now template.now (length sorts.old.items) (reverse stack.new.items)) }
    ensures less { OnOk result (weight template.now (reverse stack.new.items) < size (expression_at template.now field) + weight template.now (reverse stack.old.items)) }
    ensures long { length sorts.new.items ≡ length sorts.old.items }
    ensures sorts { HoldSorts sig.now sorts.new.items }
{
    denotations();
    prove!(sig.sorts() > 0);
    match parameter_of(template.node(field)) {
        Some(i) => Ok(fits_parameter(sorts, i, sort)),
        None => push_parts(alloc, sig, template, field, sort, stack),
    }
}

// Matches a parameter with a sort.
fn fits_parameter(sorts: &mut Vec<Option<SortId>>, i: u64, sort: SortId) -> bool
    requires within { i < length sorts.old.items }
    ensures fits { (d : Declarations) → IsConsistent d → HoldSorts d sorts.old.items → IsSort d sort
        → HasMatched (matched (parameter i) (origin_of d sort) (assigned d sorts.old.items)) (assigned d sorts.new.items) result }
    ensures long { length sorts.new.items ≡ length sorts.old.items }
    ensures sorts { (d : Declarations) → HoldSorts d sorts.old.items → IsSort d sort → HoldSorts d sorts.new.items }
{
    let i = i as usize;
    match place_of(sorts.as_slice(), i) {
        Some(first) => first.0 == sort.0,
        None => {
            sorts[i] = Some(sort);
            true
        }
    }
}

// The field at a place, if there is one.
fn field_at(fields: &[ExprId], place: usize) -> Option<ExprId>
    ensures value { result ≡ slice_get fields.now place }
{
    fields.get(place).copied()
}

// The parameter that the node is, if it is one.
fn parameter_of(node: Node) -> Option<u64>
    ensures value { result ≡ parameter_in node }
{
    match node {
        Node::Param(i) => Some(i),
        Node::Head(_) | Node::Apply(_, _) => None,
    }
}

// What a parameter was matched with, if it was.
fn place_of(sorts: &[Option<SortId>], i: usize) -> Option<SortId>
    requires within { i < length sorts.now }
    ensures value { slice_get sorts.now i ≡ Some result }
{
    sorts[i]
}

// Puts the arguments of an expression, which is no parameter, beside those of a sort, where both have one head, the first pair on
// top.
fn push_parts(
    alloc: Global,
    sig: &Signature,
    template: &Expressions,
    field: ExprId,
    sort: SortId,
    stack: &mut Vec<(ExprId, SortId)>,
) -> Result<bool, AllocError>
    requires within { field.0 < length template.now }
    requires sort { IsSort sig.now sort }
    ensures parted { (params : ℕ) (e : Expression) → Stands template.now field.0 e → IsExpression sig.now.declared.heads params e
        → ((i : ℕ) → e ≡ parameter i → ⊥)
        → IfOk result (IsParted sig.now template.now params field sort stack.old.items stack.new.items) }
{
    denotations();
    prove!(sig.sorts() > 0);
    let Ok(spine) = head_and_args(alloc, template, field) else {
        return Err(AllocError);
    };
    let fields = spine.args.as_slice();
    let args = sig.sort_args(sort);
    if !is_head(spine.head, sig.sort_head(sort)) {
        return Ok(false);
    }
    if fields.len() != args.len() {
        return Ok(false);
    }
    push_pairs(stack, fields, args)?;
    Ok(true)
}

// Puts expressions beside sorts, of which there are as many, the first pair on top.
fn push_pairs(
    stack: &mut Vec<(ExprId, SortId)>,
    fields: &[ExprId],
    sorts: &[SortId],
) -> Result<(), AllocError>
    requires long { length fields.now ≡ length sorts.now }
    ensures pushed { OnOk result (reverse stack.new.items ≡ side_by_side fields.now sorts.now ++ reverse stack.old.items) }
{
    let mut left = fields.len();
    while left > 0 {
        left -= 1;
        stack.push((fields[left], sorts[left]))?;
    }
    Ok(())
}

// Whether the head is this sort or generic.
fn is_head(head: Option<HeadId>, g: GenId) -> bool
    ensures value { result ≡ is_head g.0 (option_map (λ h. h.0) head) }
{
    match head {
        Some(h) => u64::from(g.0) == h.0,
        None => false,
    }
}
