//! Environments: what the variables in scope stand for.
ghost use Rattle.std.specs.Prelude.{◌≡◌, ◌<◌, [], length, drop, Some, slice_get, OnOk, OnErr};
ghost use Rattle.ct_formulas.specs.Formula.{bind as bound_over};

use crate::bound::Bound;
use std::alloc::{AllocError, Global};
use std::marker::Model;

/// What the variables in scope stand for, on one stack: what is bound last is on top. Clauses see a list, variable 0 first.
#[derive(Drop)]
pub struct Environment {
    bounds: Vec<Bound>,
}

impl Model for Environment {
    ghost use Rattle.std.specs.Prelude.{List, reverse};
    ghost use Rattle.ct_scope.specs.declared.bound.Bound.{Bound};

    ghost Value = { List Bound };

    ghost view = { λ env. reverse env.bounds.items };
}

impl Environment {
    /// No variables. Takes no memory.
    pub fn new(alloc: Global) -> Environment
        ensures empty { result ≡ [] }
    {
        Environment {
            bounds: Vec::new(alloc),
        }
    }

    /// These alone, which are bound in order. Takes no memory.
    pub fn of(bounds: Vec<Bound>) -> Environment
        ensures bound { result ≡ bound_over bounds.items [] }
    {
        Environment { bounds }
    }

    /// Binds these as well, in order.
    pub fn bind(&mut self, bounds: &[Bound]) -> Result<(), AllocError>
        ensures bound { OnOk result (self.new ≡ bound_over bounds.now self.old) }
        ensures unchanged { OnErr result (self.new ≡ self.old) }
    {
        self.bounds.extend_from_slice(bounds)
    }

    /// Unbinds the variables that were bound last, as many as given.
    pub fn unbind(&mut self, count: usize)
        ensures rest { self.new ≡ drop count self.old }
    {
        let left = self.bounds.len().saturating_sub(count);
        self.bounds.truncate(left);
    }

    /// What a variable stands for.
    pub fn at(&self, variable: usize) -> Bound
        requires inside { variable < length self.now }
        ensures value { slice_get self.now variable ≡ Some result }
    {
        self.bounds[self.bounds.len() - 1 - variable]
    }
}
