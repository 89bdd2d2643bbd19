//! Definitions.
ghost use Rattle.std.specs.Prelude.{◌≡◌, ℕ, List, ◌++◌, ◌∷◌, ◌≤◌, [], length, map, Some, All, Ok, Err, OnOk, OnErr, IfOk, IsErrOf};
ghost use Rattle.std.specs.List.{list_any};
ghost use Rattle.std.specs.Str.{bytes_eq};
ghost use Rattle.ct_sexpr.specs.View.{expression_of};
ghost use Rattle.ct_sorts.specs.Availability.{IsUnavailable};
ghost use Rattle.ct_sorts.specs.Declarations.{Declarations, IsSort, bool_sort, with_definition, symbol_names, most_definitions};
ghost use Rattle.ct_sorts.specs.Refusals.{IsFirstCause, IsNone, symbol_taken, too_many};
ghost use Rattle.ct_formulas.specs.Formula.{bind};
ghost use Rattle.ct_formulas.specs.FormulaSorts.{IsSorted};
ghost use Rattle.ct_formulas.specs.TreeFormula.{formula_of};
ghost use Rattle.ct_names.specs.Bounds.{variable_of_param, parameter_variables};
ghost use Rattle.ct_names.specs.Variables.{variables, has_repeated};
ghost use Rattle.ct_command.specs.Seen.{bytes_seen, named_seen};
ghost use Rattle.ct_stack.specs.Stack.{context_with, asserted_as};
ghost use Rattle.ct_stack.specs.Elaborations.{defined_function, parameter_names, parameter_sorts};
ghost use Rattle.ct_stack.specs.Held.{IsDefined, context_in};
ghost use Rattle.ct_stack.specs.Outcomes.{GivesNeeding, each_of};
ghost use Rattle.ct_sorts.specs.Grown.{Extends};
ghost use Rattle.ct_names.specs.Sorts.{sort_of};
ghost use Rattle.ct_names.specs.Needs.{Grows, ComesTo};
ghost use Rattle.ct_stack.specs.Sorts.{definition_seen, sorts_seen};
ghost use Rattle.ct_stack.specs.Refusal.{IsTakenLabel, HasNoRoomForLabel, IsDefinitionRefusal};

use crate::function::SYMBOL_TAKEN;
use crate::sorts::{BOOL, is_sort, or_back, sort_named, term_of};
use crate::theorems::stack_theorems;
use ct_check::{Param, Scope, elaboration};
use ct_command::{CommandError, Named};
use ct_formulas::Tree;
use ct_sexpr::{Bytes, Sexpr};
use ct_sorts::{DefId, Items, Name, SigError, Signature, SortId, growth};
use std::alloc::{AllocError, Global};

/// The number of the error of a repeated variable.
const REPEATED_VARIABLE: u16 = 27;

/// The number of the error of a term of another sort.
const WRONG_SORT: u16 = 23;

/// What a definition says: the sorts of its parameters and of its result, and its body.
#[derive(Debug, Drop)]
pub(crate) struct Definition {
    pub(crate) args: Vec<SortId>,
    pub(crate) result: SortId,
    pub(crate) body: Tree,
}

/// Adds a definition.
pub(crate) fn define_function(
    alloc: Global,
    scope: &mut Scope,
    name: &[u8],
    params: &[Named<'_>],
    sort: &Sexpr,
    term: &Sexpr,
) -> Result<(), CommandError>
    ensures ok { OnOk result (GivesNeeding (λ d. defined_function d name.now (map named_seen params.now) (expression_of sort.now) (expression_of term.now)) scope.old.sig
        (λ later f. IsDefined later scope.new.sig (map formula_of scope.old.bodies) (map formula_of scope.new.bodies) f)) }
    ensures accepted { OnOk result ((n : ℕ) → IsDefinitionRefusal scope.old.sig name.now (map named_seen params.now) (expression_of sort.now) (expression_of term.now) n → ⊥) }
    ensures refused { (n : ℕ) → IsErrOf result (CommandError.Refused n)
        → IsDefinitionRefusal scope.old.sig name.now (map named_seen params.now) (expression_of sort.now) (expression_of term.now) n }
    ensures unchanged { OnErr result ((scope.new.sig ≡ scope.old.sig) × (scope.new.bodies ≡ scope.old.bodies)) }
{
    if scope.sig.is_unavailable(name) {
        return Err(CommandError::Refused(SYMBOL_TAKEN));
    }
    stack_theorems();
    let before = scope.sig.mark();
    let defined = define_available(alloc, scope, name, params, sort, term);
    or_back(&mut scope.sig, &before, defined)
}

// Adds a definition whose name may be declared. After an error sorts may have come into the list.
fn define_available(
    alloc: Global,
    scope: &mut Scope,
    name: &[u8],
    params: &[Named<'_>],
    sort: &Sexpr,
    term: &Sexpr,
) -> Result<(), CommandError>
    requires available { IsUnavailable (symbol_names scope.old.sig) name.now → ⊥ }
    ensures ok { OnOk result (GivesNeeding (λ d. defined_function d name.now (map named_seen params.now) (expression_of sort.now) (expression_of term.now)) scope.old.sig
        (λ later f. IsDefined later scope.new.sig (map formula_of scope.old.bodies) (map formula_of scope.new.bodies) f)) }
    ensures accepted { OnOk result ((n : ℕ) → IsDefinitionRefusal scope.old.sig name.now (map named_seen params.now) (expression_of sort.now) (expression_of term.now) n → ⊥) }
    ensures refused { (n : ℕ) → IsErrOf result (CommandError.Refused n)
        → IsDefinitionRefusal scope.old.sig name.now (map named_seen params.now) (expression_of sort.now) (expression_of term.now) n }
    ensures grown { Extends scope.new.sig scope.old.sig }
    ensures bodies { OnErr result (scope.new.bodies ≡ scope.old.bodies) }
{
    stack_theorems();
    let definition = defined_function(alloc, scope, params, sort, term)?;
    scope.sig.sorts();
    let name = Name::from_slice(alloc, name)?;
    add_definition(alloc, scope, name, definition)
}

// What a definition says: no parameter is repeated, the sorts come first, and the body has the sort of the result.
fn defined_function(
    alloc: Global,
    scope: &mut Scope,
    params: &[Named<'_>],
    sort: &Sexpr,
    term: &Sexpr,
) -> Result<Definition, CommandError>
    ensures ok { (name : List ℕ) → IfOk result (λ r. ComesTo (λ d. defined_function d name (map named_seen params.now) (expression_of sort.now) (expression_of term.now))
        scope.old.sig scope.new.sig (Ok (definition_seen name r))) }
    ensures refused { (name : List ℕ) (n : ℕ) → IsErrOf result (CommandError.Refused n)
        → ComesTo (λ d. defined_function d name (map named_seen params.now) (expression_of sort.now) (expression_of term.now)) scope.old.sig scope.new.sig (Err n) }
    ensures args { IfOk result (λ r. All (IsSort scope.new.sig) r.args.items) }
    ensures sort { IfOk result (λ r. IsSort scope.new.sig r.result) }
    ensures sorted { IfOk result (λ r. IsSorted scope.new.sig (bind r.args.items []) (formula_of r.body) r.result) }
    ensures grown { Extends scope.new.sig scope.old.sig }
    ensures bodies { scope.new.bodies ≡ scope.old.bodies }
{
    stack_theorems();
    if has_repeated(params) {
        return Err(CommandError::Refused(REPEATED_VARIABLE));
    }
    let args = parameter_sorts(alloc, scope, params)?;
    let own = sort_named(alloc, scope, sort)?;
    let bound = parameters_of(alloc, params, args.as_slice())?;
    elaboration();
    let (body, found) = term_of(alloc, scope, bound.as_slice(), term)?;
    scope.sig.sorts();
    if !is_sort(found, own) {
        return Err(CommandError::Refused(WRONG_SORT));
    }
    Ok(Definition {
        args,
        result: own,
        body,
    })
}

// Whether some name stands twice.
fn has_repeated(params: &[Named<'_>]) -> bool
    ensures value { result ≡ has_repeated (parameter_names (map named_seen params.now)) }
{
    let mut left = params;
    while let [first, others @ ..] = left {
        if is_among(first.name, others) {
            return true;
        }
        left = others;
    }
    false
}

// Whether some parameter has the name.
fn is_among(name: &[u8], params: &[Named<'_>]) -> bool
    ensures value { result ≡ list_any (bytes_eq name.now) (parameter_names (map named_seen params.now)) }
{
    let mut left = params;
    while let [first, others @ ..] = left {
        if first.name == name {
            return true;
        }
        left = others;
    }
    false
}

// The sorts of parameters, in order, up to the first error.
fn parameter_sorts(
    alloc: Global,
    scope: &mut Scope,
    params: &[Named<'_>],
) -> Result<Vec<SortId>, CommandError>
    ensures ok { IfOk result (λ sorts. ComesTo (λ d. each_of (sort_of d) (parameter_sorts (map named_seen params.now))) scope.old.sig scope.new.sig (Ok (sorts_seen sorts))) }
    ensures refused { (n : ℕ) → IsErrOf result (CommandError.Refused n)
        → ComesTo (λ d. each_of (sort_of d) (parameter_sorts (map named_seen params.now))) scope.old.sig scope.new.sig (Err n) }
    ensures inside { IfOk result (λ sorts. All (IsSort scope.new.sig) sorts.items) }
    ensures lasts { IfOk result (λ sorts. (later : Declarations) → Grows later scope.new.sig → each_of (sort_of later) (parameter_sorts (map named_seen params.now)) ≡ Ok (sorts_seen sorts)) }
    ensures grown { Extends scope.new.sig scope.old.sig }
    ensures bodies { scope.new.bodies ≡ scope.old.bodies }
{
    stack_theorems();
    let mut left = params;
    let mut sorts = Vec::with_capacity(alloc, params.len())?;
    while let [first, others @ ..] = left {
        let sort = sort_named(alloc, scope, first.sort)?;
        sorts.push(sort)?;
        left = others;
    }
    Ok(sorts)
}

// The parameters with these sorts, one for one.
fn parameters_of(
    alloc: Global,
    params: &[Named<'_>],
    sorts: &[SortId],
) -> Result<Vec<Param>, CommandError>
    ensures value { IfOk result (λ bound. parameter_variables bound.items
        ≡ bind (variables (map (λ name. Some name) (parameter_names (map named_seen params.now))) sorts.now) []) }
    ensures variables { IfOk result (λ bound. map variable_of_param bound.items
        ≡ variables (map (λ name. Some name) (parameter_names (map named_seen params.now))) sorts.now) }
    ensures err { OnErr result (result ≡ Err CommandError.NoMemory) }
{
    let mut params_left = params;
    let mut sorts_left = sorts;
    let mut bound = Vec::with_capacity(alloc, params.len())?;
    while let [param, more_params @ ..] = params_left {
        let [sort, more_sorts @ ..] = sorts_left else {
            return Ok(bound);
        };
        let name = Bytes::new(Vec::from_slice(alloc, param.name)?);
        bound.push(Param { name, sort: *sort })?;
        params_left = more_params;
        sorts_left = more_sorts;
    }
    Ok(bound)
}

/// What is asserted of a Boolean formula with this label: the definition that the label names, of which the formula is the body, or
/// the formula itself.
pub(crate) fn define_label(
    alloc: Global,
    scope: &mut Scope,
    label: Option<&[u8]>,
    formula: Tree,
) -> Result<Tree, CommandError>
    requires sorted { IsSorted scope.old.sig [] (formula_of formula) bool_sort }
    ensures ok { IfOk result (λ t. (context_in scope.new ≡ context_with (context_in scope.old) (bytes_seen label.entry) (formula_of formula))
        × (formula_of t ≡ asserted_as (context_in scope.old) (bytes_seen label.entry) (formula_of formula))) }
    ensures sorted { IfOk result (λ t. IsSorted scope.new.sig [] (formula_of t) bool_sort) }
    ensures accepted { OnOk result ((n : ℕ) → IsFirstCause symbol_taken (IsTakenLabel scope.old.sig (bytes_seen label.entry))
        (IsFirstCause too_many (HasNoRoomForLabel scope.old.sig (bytes_seen label.entry)) IsNone) n → ⊥) }
    ensures refused { (n : ℕ) → IsErrOf result (CommandError.Refused n)
        → IsFirstCause symbol_taken (IsTakenLabel scope.old.sig (bytes_seen label.entry))
        (IsFirstCause too_many (HasNoRoomForLabel scope.old.sig (bytes_seen label.entry)) IsNone) n }
    ensures unchanged { OnErr result ((scope.new.sig ≡ scope.old.sig) × (scope.new.bodies ≡ scope.old.bodies)) }
{
    match label {
        Some(name) => define_truth(alloc, scope, name, formula),
        None => Ok(formula),
    }
}

// Adds a Boolean definition without parameters, and gives it as a formula.
fn define_truth(
    alloc: Global,
    scope: &mut Scope,
    name: &[u8],
    formula: Tree,
) -> Result<Tree, CommandError>
    requires sorted { IsSorted scope.old.sig [] (formula_of formula) bool_sort }
    ensures ok { IfOk result (λ t. (context_in scope.new ≡ context_with (context_in scope.old) (Some name.now) (formula_of formula))
        × (formula_of t ≡ asserted_as (context_in scope.old) (Some name.now) (formula_of formula))) }
    ensures sorted { IfOk result (λ t. IsSorted scope.new.sig [] (formula_of t) bool_sort) }
    ensures accepted { OnOk result ((n : ℕ) → IsFirstCause symbol_taken (IsUnavailable (symbol_names scope.old.sig) name.now)
        (IsFirstCause too_many (most_definitions ≤ length scope.old.sig.definitions) IsNone) n → ⊥) }
    ensures refused { (n : ℕ) → IsErrOf result (CommandError.Refused n)
        → IsFirstCause symbol_taken (IsUnavailable (symbol_names scope.old.sig) name.now)
        (IsFirstCause too_many (most_definitions ≤ length scope.old.sig.definitions) IsNone) n }
    ensures unchanged { OnErr result ((scope.new.sig ≡ scope.old.sig) × (scope.new.bodies ≡ scope.old.bodies)) }
{
    stack_theorems();
    scope.sig.sorts();
    let number = DefId(scope.sig.mark().defs());
    let name = Name::from_slice(alloc, name)?;
    let definition = Definition {
        args: Vec::new(alloc),
        result: BOOL,
        body: formula,
    };
    add_definition(alloc, scope, name, definition)?;
    Ok(Tree::Def(number, Vec::new(alloc)))
}

// Adds the definition and its body, or leaves all as it was.
fn add_definition(
    alloc: Global,
    scope: &mut Scope,
    name: Name,
    definition: Definition,
) -> Result<(), CommandError>
    requires args { All (IsSort scope.old.sig) definition.args.items }
    requires sort { IsSort scope.old.sig definition.result }
    ensures ok { OnOk result ((scope.new.sig ≡ with_definition scope.old.sig (definition_seen name definition).0)
        × (map formula_of scope.new.bodies ≡ map formula_of scope.old.bodies ++ (definition_seen name definition).1 ∷ [])) }
    ensures accepted { OnOk result ((n : ℕ) → IsFirstCause symbol_taken (IsUnavailable (symbol_names scope.old.sig) name)
        (IsFirstCause too_many (most_definitions ≤ length scope.old.sig.definitions) IsNone) n → ⊥) }
    ensures refused { (n : ℕ) → IsErrOf result (CommandError.Refused n)
        → IsFirstCause symbol_taken (IsUnavailable (symbol_names scope.old.sig) name)
        (IsFirstCause too_many (most_definitions ≤ length scope.old.sig.definitions) IsNone) n }
    ensures unchanged { OnErr result ((scope.new.sig ≡ scope.old.sig) × (scope.new.bodies ≡ scope.old.bodies)) }
{
    growth();
    let before = scope.sig.mark();
    declare_definition(&mut scope.sig, name, definition.args, definition.result)?;
    match push_body(alloc, &mut scope.bodies, definition.body) {
        Ok(()) => Ok(()),
        Err(AllocError) => {
            scope.sig.cut_to(&before);
            Err(CommandError::NoMemory)
        }
    }
}

// Declares the definition.
fn declare_definition(
    sig: &mut Signature,
    name: Name,
    args: Vec<SortId>,
    sort: SortId,
) -> Result<(), CommandError>
    requires args { All (IsSort sig.old) args.items }
    requires sort { IsSort sig.old sort }
    ensures ok { OnOk result (sig.new ≡ with_definition sig.old (record { name = name; args = args.items; result = sort })) }
    ensures accepted { OnOk result ((n : ℕ) → IsFirstCause symbol_taken (IsUnavailable (symbol_names sig.old) name)
        (IsFirstCause too_many (most_definitions ≤ length sig.old.definitions) IsNone) n → ⊥) }
    ensures refused { (n : ℕ) → IsErrOf result (CommandError.Refused n)
        → IsFirstCause symbol_taken (IsUnavailable (symbol_names sig.old) name)
        (IsFirstCause too_many (most_definitions ≤ length sig.old.definitions) IsNone) n }
    ensures unchanged { OnErr result (sig.new ≡ sig.old) }
{
    match sig.add_def(name, args, sort) {
        Ok(_) => Ok(()),
        Err(SigError::Refused(code)) => Err(CommandError::Refused(code)),
        Err(SigError::NoMemory) => Err(CommandError::NoMemory),
    }
}

// Adds a body at the end.
fn push_body(alloc: Global, bodies: &mut Items<Tree>, body: Tree) -> Result<(), AllocError>
    ensures ok { OnOk result (bodies.new ≡ bodies.old ++ body ∷ []) }
    ensures unchanged { OnErr result (bodies.new ≡ bodies.old) }
{
    let mut all = std::mem::replace(bodies, Items::new(Vec::new(alloc))).into_vec();
    let reserved = all.reserve(1);
    if reserved.is_ok() {
        all.push(body).unwrap();
    }
    *bodies = Items::new(all);
    reserved
}
