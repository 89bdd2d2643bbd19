//! The stack of lists whose closing parenthesis has not been read yet.

ghost use Rattle.std.specs.Prelude.{◌≡◌, ◌+◌, ◌-◌, ◌<◌, [], ◌∷◌, ◌++◌, OnOk, OnErr, IfErr};
ghost use Rattle.ct_sexpr.specs.Token.{opening, closing};
ghost use Rattle.ct_sexpr.specs.Expression.{tokens_of};
ghost use Rattle.ct_sexpr.specs.View.{expression_of};
ghost use Rattle.ct_sexpr.specs.Open.{none_open};

use crate::error::ReadError;
use crate::sexpr::Sexpr;
use std::alloc::Global;
use std::marker::Model;

/// The greatest nesting of parentheses in a command.
pub(crate) const NESTING_LIMIT: usize = 1_000;

/// The lists of a command that are not yet closed, the outermost first, each with its items so far.
#[derive(Drop)]
pub(crate) struct OpenLists {
    lists: Vec<Vec<Sexpr>>,
}

impl Model for OpenLists {
    ghost use Rattle.std.specs.Prelude.{length};
    ghost use Rattle.ct_sexpr.specs.Open.{Open};

    ghost Value = { Open };

    ghost use Rattle.ct_sexpr.specs.OpenTokens.{tokens_of_lists};

    ghost view = { λ o. record { tokens = tokens_of_lists o.lists.items; depth = length o.lists.items } };
}

impl OpenLists {
    /// No list is open.
    pub(crate) fn new(alloc: Global) -> OpenLists
        ensures empty { result ≡ none_open }
    {
        OpenLists {
            lists: Vec::new(alloc),
        }
    }

    /// How many lists are open.
    pub(crate) fn depth(&self) -> usize
        ensures depth { result ≡ self.now.depth }
    {
        self.lists.len()
    }

    /// Opens a list inside the innermost.
    pub(crate) fn open(&mut self, alloc: Global) -> Result<(), ReadError>
        ensures ok { OnOk result (self.new ≡ record { tokens = self.old.tokens ++ opening ∷ []; depth = self.old.depth + 1 }) }
        ensures refused { OnErr result (self.new ≡ self.old) }
        ensures err { IfErr result (λ e. e ≡ ReadError.NoMemory) }
    {
        self.lists.push(Vec::new(alloc))?;
        Ok(())
    }

    /// Puts an item into the innermost list. Where none is open, nothing is done.
    pub(crate) fn add(&mut self, item: Sexpr) -> Result<(), ReadError>
        ensures outside { self.old.depth ≡ 0 → self.new ≡ self.old }
        ensures ok { 0 < self.old.depth → OnOk result (self.new ≡ record { tokens = self.old.tokens ++ tokens_of (expression_of item); depth = self.old.depth }) }
        ensures refused { OnErr result (self.new ≡ self.old) }
        ensures err { IfErr result (λ e. e ≡ ReadError.NoMemory) }
    {
        let depth = self.lists.len();
        if depth == 0 {
            return Ok(());
        }
        self.lists[depth - 1].push(item)?;
        Ok(())
    }

    /// Closes the innermost list, which becomes an item of the one around it.
    pub(crate) fn close(&mut self) -> Result<(), ReadError>
        requires inner { 1 < self.old.depth }
        ensures ok { OnOk result (self.new ≡ record { tokens = self.old.tokens ++ closing ∷ []; depth = self.old.depth - 1 }) }
        ensures refused { OnErr result (self.new ≡ self.old) }
        ensures err { IfErr result (λ e. e ≡ ReadError.NoMemory) }
    {
        let outer = self.lists.len() - 2;
        self.lists[outer].reserve(1)?;
        let Some(items) = self.lists.pop() else {
            unreachable!();
        };
        self.lists[outer].push(Sexpr::List(items))?;
        Ok(())
    }

    /// Closes the one list that is open, which is the command.
    pub(crate) fn finish(&mut self) -> Sexpr
        requires one { self.old.depth ≡ 1 }
        ensures command { tokens_of (expression_of result) ≡ self.old.tokens ++ closing ∷ [] }
        ensures after { self.new ≡ none_open }
    {
        match self.lists.pop() {
            Some(items) => Sexpr::List(items),
            None => unreachable!(),
        }
    }
}
