//! Whether the parameters of written sorts are those of their declarations.
ghost use Rattle.std.specs.Prelude.{◌≡◌, ◌↔◌, Bool, true, map, IsTrue, All};
ghost use Rattle.std.specs.List.{list_all};
ghost use Rattle.ct_generics.specs.declared.expr.SortExpr.TheFolds.{fold-SortExpr};
ghost use Rattle.ct_generics.specs.declared.decl.Field.{Field};
ghost use Rattle.ct_generics.specs.declared.decl.CtorDecl.{CtorDecl};
ghost use Rattle.ct_sorts.specs.Written.{AreParametersBelow, AreBlockParametersBelow};
ghost use Rattle.ct_generics.specs.WellFormed.{has_below};

use ct_generics::{CtorDecl, SortDecl, SortExpr};

/// Whether all parameters in the written sort are below a number.
#[cycle(parameters)]
pub fn are_parameters_below(params: u64, expr: &SortExpr) -> bool
    ensures below { IsTrue result ↔ AreParametersBelow params expr.now }
{
    match expr {
        SortExpr::Param(i) => *i < params,
        SortExpr::App(_, args) => are_all_below(params, args.as_slice()),
    }
}

// Whether each parameter in these written sorts is one of so many.
#[cycle(parameters)]
fn are_all_below(params: u64, exprs: &[SortExpr]) -> bool
    ensures below { IsTrue result ↔ (list_all (λ below. below) (map (fold-SortExpr Bool (has_below params)) exprs.now) ≡ true) }
{
    for expr in exprs {
        if !are_parameters_below(params, expr) {
            return false;
        }
    }
    true
}

/// Whether each parameter in the block is one of its declaration.
pub fn are_block_parameters_below(block: &[SortDecl]) -> bool
    ensures below { IsTrue result ↔ AreBlockParametersBelow block.now }
{
    for decl in block {
        if !are_decl_parameters_below(decl) {
            return false;
        }
    }
    true
}

// Whether each parameter in a declaration is one of its own.
fn are_decl_parameters_below(decl: &SortDecl) -> bool
    ensures below { IsTrue result ↔ All (λ (c : CtorDecl). All (λ (f : Field). AreParametersBelow decl.now.params f.sort) c.fields) decl.now.ctors }
{
    are_ctor_parameters_below(decl.params, decl.ctors.as_slice())
}

// Whether each parameter in these constructors is one of so many.
fn are_ctor_parameters_below(params: u64, ctors: &[CtorDecl]) -> bool
    ensures below { IsTrue result ↔ All (λ (c : CtorDecl). All (λ (f : Field). AreParametersBelow params f.sort) c.fields) ctors.now }
{
    ctors
        .iter()
        .all(|ctor| are_field_parameters_below(params, ctor))
}

// Whether each parameter in the fields of a constructor is one of so many.
fn are_field_parameters_below(params: u64, ctor: &CtorDecl) -> bool
    ensures below { IsTrue result ↔ All (λ (f : Field). AreParametersBelow params f.sort) ctor.now.fields }
{
    ctor.fields
        .as_slice()
        .iter()
        .all(|field| are_parameters_below(params, &field.sort))
}
