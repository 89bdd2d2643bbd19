//! The variables in scope as a stack, with the position of the innermost of each name.
ghost use Rattle.std.specs.Prelude.{◌≡◌, ◌∷◌, [], List, ℕ, map, drop, option_map, if◌then◌else◌, IfOk, IfErr, OnOk, OnErr};
ghost use Rattle.ct_formulas.specs.Formula.{bind};
ghost use Rattle.ct_names.specs.Variables.{find, is_named};
ghost use Rattle.ct_names.specs.Bounds.{variable_of, held_name};
ghost use Rattle.ct_names.specs.Stack.{stored_position, stored_position_at, flat, HasNoPosition};
ghost use Rattle.ct_names.specs.declared.variables.Found.{Found};

use crate::error::CheckError;
use crate::variables::{BoundVariable, Found};
use ct_sorts::SortId;
use indexmap::IndexMap;
use std::alloc::Global;
use std::marker::Model;

/// Where a variable stands: how many were bound before it, and its sort.
#[derive(Clone, Copy)]
struct Position {
    before: usize,
    sort: SortId,
}

/// A variable on the stack, with the position that its name had before.
#[derive(Clone, Copy)]
struct Entry<'e> {
    bound: BoundVariable<'e>,
    shadowed: Option<Position>,
}

/// The variables in scope, for a walk over an expression: a binder enters its variables before its
/// body, and they leave after it. A clause sees them from the innermost outwards.
///
/// A look-up takes about constant time, and a variable that is bound or that leaves too.
#[derive(Drop)]
pub struct Variables<'e> {
    // In the order in which they were bound.
    entries: Vec<Entry<'e>>,
    // The position of the innermost variable of each name, none where all of this name have left.
    positions: IndexMap<&'e [u8], Option<Position>>,
}

impl<'e> Model for Variables<'e> {
    ghost use Rattle.std.specs.Prelude.{List, []};
    ghost use Rattle.ct_names.specs.Variables.{Variable};

    ghost Value = { List Variable };

    ghost use Rattle.ct_formulas.specs.Formula.{bind};
    ghost use Rattle.ct_names.specs.Stack.{variables_of, IsStack};

    ghost view = { λ s. variables_of (bind s.entries.items []) };

    ghost invariant = { λ s. IsStack s.entries.items s.positions };
}

impl<'e> Variables<'e> {
    /// No variables. Takes no memory.
    pub fn new(alloc: Global) -> Variables<'e>
        ensures none { result ≡ [] }
    {
        Variables {
            entries: Vec::new(alloc),
            positions: IndexMap::new(alloc),
        }
    }

    /// The variable of this name that was bound last; none if no variable in scope has the name.
    pub fn find(&self, name: &[u8]) -> Option<Found>
        ensures found { option_map (λ (f : Found). (f.number, f.sort)) result ≡ find self.now
            name.now }
    {
        match stored(&self.positions, name) {
            Some(position) => Some(Found {
                number: (self.entries.len() - 1 - position.before) as u64,
                sort: position.sort,
            }),
            None => None,
        }
    }

    /// Binds a variable as the new innermost.
    fn push(&mut self, variable: BoundVariable<'e>) -> Result<(), CheckError>
        ensures pushed { OnOk result (self.new ≡ variable_of variable.entry ∷ self.old) }
        ensures unchanged { OnErr result (self.new ≡ self.old) }
        ensures err { IfErr result (λ e. e ≡ CheckError.NoMemory) }
    {
        self.entries.reserve(1)?;
        let position = Position {
            before: self.entries.len(),
            sort: variable.sort,
        };
        let shadowed = put(&mut self.positions, variable.name, Some(position))?;
        self.entries
            .push(Entry {
                bound: variable,
                shadowed,
            })
            .unwrap();
        Ok(())
    }

    /// Lets the innermost variable leave, where there is one.
    fn pop(&mut self)
        ensures rest { self.new ≡ drop 1 self.old }
    {
        let Some(last) = self.entries.pop() else {
            return;
        };
        // A name that has a position takes no memory.
        let _ = put(&mut self.positions, last.bound.name, last.shadowed);
    }

    /// Unbinds this many of the innermost variables, or all if there are fewer.
    pub fn leave(&mut self, count: usize)
        ensures rest { self.new ≡ drop count self.old }
    {
        for _ in 0..count {
            self.pop();
        }
    }

    /// Binds variables in order, each as the new innermost one; none of them if memory runs out.
    pub fn enter(&mut self, inner: &[BoundVariable<'e>]) -> Result<(), CheckError>
        ensures bound { OnOk result (self.new ≡ bind (map variable_of inner.now) self.old) }
        ensures unchanged { OnErr result (self.new ≡ self.old) }
        ensures err { IfErr result (λ e. e ≡ CheckError.NoMemory) }
    {
        let mut entered = 0;
        let mut left = inner;
        while let [first, others @ ..] = left {
            if let Err(error) = self.push(*first) {
                self.leave(entered);
                return Err(error);
            }
            entered += 1;
            left = others;
        }
        Ok(())
    }
}

// The position that is stored for the name.
fn stored(positions: &IndexMap<&[u8], Option<Position>>, name: &[u8]) -> Option<Position>
    ensures position { result ≡ stored_position positions.now name.now }
{
    match positions.get(name) {
        Some(position) => *position,
        None => None,
    }
}

// Stores the position for the name, where there is one. The answer is the position that was stored for it.
fn put<'e>(
    positions: &mut IndexMap<&'e [u8], Option<Position>>,
    name: Option<&'e [u8]>,
    position: Option<Position>,
) -> Result<Option<Position>, CheckError>
    ensures before { IfOk result (λ old. old ≡ stored_position_at positions.old (held_name name.entry)) }
    ensures put { OnOk result ((other : List ℕ) → stored_position positions.new other ≡ (if is_named other (held_name name.entry) then position else stored_position positions.old other)) }
    ensures unchanged { OnErr result ((other : List ℕ) → stored_position positions.new other ≡ stored_position positions.old other) }
    ensures absent { OnErr result (HasNoPosition positions.old (held_name name.entry)) }
    ensures err { IfErr result (λ e. e ≡ CheckError.NoMemory) }
{
    match name {
        Some(own) => {
            let old = positions.insert(own, position)?;
            Ok(flat(old))
        }
        None => Ok(None),
    }
}

// The position, where there is one.
fn flat(position: Option<Option<Position>>) -> Option<Position>
    ensures flat { result ≡ flat position }
{
    match position {
        Some(position) => position,
        None => None,
    }
}
