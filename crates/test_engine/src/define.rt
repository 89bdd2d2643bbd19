//! Scopes that a case declares: declarations, and then definitions with their bodies.
ghost use Rattle.std.specs.Prelude.{◌≡◌, ◌++◌, ◌∷◌, [], All, length, IfOk, OnOk, map};
ghost use Rattle.ct_sorts.specs.Declarations.{start, IsSort};
ghost use Rattle.ct_formulas.specs.Formula.{bind};
ghost use Rattle.ct_formulas.specs.FormulaSorts.{IsSorted};
ghost use Rattle.ct_formulas.specs.TreeFormula.{formula_of};
ghost use Rattle.ct_names.specs.declared.variables.Param.{Param};
ghost use Rattle.test_engine.specs.Scopes.{IsSound};

use crate::elaborate::{params_of, term_of};
use ct_cases::{CaseError, declare as declare_step, items_of, name_of, sort_of, split_word};
use ct_check::Param;
use ct_compile::Scope;
use ct_formulas::{Tree, scopes};
use ct_sexpr::Sexpr;
use ct_sorts::{Items, Name, Signature, SortId};
use std::alloc::Global;

/// The sort Bool.
pub const BOOL: SortId = SortId(0);

/// The scope of nothing but Bool.
pub fn new_scope(alloc: Global) -> Result<Box<Scope>, CaseError>
    ensures new { IfOk result (λ scope. (scope.value.sig ≡ start) × (scope.value.bodies ≡ [])) }
    ensures sound { IfOk result (λ scope. IsSound scope.value) }
{
    scope_of(alloc, Signature::new(alloc)?)
}

/// The scope of these declarations, with no definition.
fn scope_of(alloc: Global, sig: Signature) -> Result<Box<Scope>, CaseError>
    ensures new { IfOk result (λ scope. (scope.value.sig ≡ sig) × (scope.value.bodies ≡ [])) }
{
    let bodies = Items::new(Vec::new(alloc));
    Ok(Box::new(alloc, Scope { sig, bodies })?)
}

/// The scope that the steps declare: first all that is no definition with a body.
pub fn declare(alloc: Global, steps: &[Sexpr]) -> Result<Box<Scope>, CaseError>
    ensures sound { IfOk result (λ scope. IsSound scope.value) }
{
    let mut scope = declarations(alloc, steps)?;
    for step in steps {
        if is_definition(step)? {
            define(alloc, &mut scope, step)?;
        }
    }
    Ok(scope)
}

/// The scope of the steps that are no definitions with a body.
#[tactic(auto, using(crate::proofs::ScopeLemmas::sound_without_definitions))]
fn declarations(alloc: Global, steps: &[Sexpr]) -> Result<Box<Scope>, CaseError>
    ensures sound { IfOk result (λ scope. IsSound scope.value) }
{
    let mut scope = new_scope(alloc)?;
    for step in steps {
        if !is_definition(step)? {
            declare_step(alloc, &mut scope.sig, step)??;
        }
    }
    if definitions(alloc, &scope.sig)? > 0 {
        return Err(CaseError::Bad);
    }
    Ok(scope)
}

/// How many definitions are declared: the number that the next one gets, in a copy.
fn definitions(alloc: Global, sig: &Signature) -> Result<u32, CaseError>
    ensures value { IfOk result (λ n. n ≡ length sig.now.definitions) }
{
    let mut copy = Box::new(alloc, sig.copy()?)?;
    let mut name = Vec::new(alloc);
    name.extend_from_slice(b"the next definition")?;
    let next = copy.add_def(Name::new(name), Vec::new(alloc), BOOL)?;
    Ok(next.0)
}

/// Whether the step is a definition with a body.
fn is_definition(step: &Sexpr) -> Result<bool, CaseError> {
    let (word, _) = split_word(step)?;
    Ok(word == "define")
}

/// Adds a definition and its body.
fn define(alloc: Global, scope: &mut Scope, step: &Sexpr) -> Result<(), CaseError>
    requires before { IsSound scope.old }
    ensures sound { OnOk result (IsSound scope.new) }
{
    match items_of(step)? {
        [_, name, params, sort, body] => {
            let params = params_of(alloc, &scope.sig, items_of(params)?)?;
            let wanted = sort_of(alloc, &scope.sig, sort)?;
            let (tree, found) = term_of(alloc, scope, &params, body)?;
            if found != wanted {
                return Err(CaseError::Bad);
            }
            let name = name_of(alloc, name)?;
            add_definition(alloc, scope, name, &params, wanted, tree)
        }
        _ => Err(CaseError::Bad),
    }
}

/// Adds a definition over these parameters, of this sort, and its body.
fn add_definition(
    alloc: Global,
    scope: &mut Scope,
    name: Name,
    params: &[Param],
    sort: SortId,
    body: Tree,
) -> Result<(), CaseError>
    requires before { IsSound scope.old }
    requires params { All (λ (p : Param). IsSort scope.old.sig p.sort) params.now }
    requires sort { IsSort scope.old.sig sort }
    requires body { IsSorted scope.old.sig (bind (map (λ (p : Param). p.sort) params.now) [])
        (formula_of body) sort }
    ensures sound { OnOk result (IsSound scope.new) }
{
    scopes();
    let sorts = sorts_of(alloc, params)?;
    scope.sig.add_def(name, sorts, sort)?;
    push_body(alloc, scope, body)?;
    Ok(())
}

/// The sorts of parameters.
fn sorts_of(alloc: Global, params: &[Param]) -> Result<Vec<SortId>, CaseError>
    ensures value { IfOk result (λ sorts. sorts.items ≡ map (λ (p : Param). p.sort) params.now) }
{
    let mut sorts = Vec::new(alloc);
    for param in params {
        sorts.push(param.sort)?;
    }
    Ok(sorts)
}

/// Adds the body of the last definition.
fn push_body(alloc: Global, scope: &mut Scope, body: Tree) -> Result<(), CaseError>
    ensures sig { scope.new.sig ≡ scope.old.sig }
    ensures bodies { OnOk result (scope.new.bodies ≡ scope.old.bodies ++ body ∷ []) }
{
    let bodies = std::mem::replace(&mut scope.bodies, Items::new(Vec::new(alloc)));
    let mut bodies = bodies.into_vec();
    bodies.push(body)?;
    scope.bodies = Items::new(bodies);
    Ok(())
}
