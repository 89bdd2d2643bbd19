//! Marks: the lengths to which declarations can be cut back.

ghost use Rattle.std.specs.Prelude.{◌≡◌, ◌≤◌};

use std::marker::Model;

/// How much a signature had declared: the numbers of sorts, constructors, selectors, functions and definitions, of sorts
/// without parameters and generics, of synonyms, and of names of constructors and selectors of these.
#[derive(Clone, Copy, Debug, PartialEq, Eq)]
pub struct Mark {
    pub(crate) sorts: u32,
    pub(crate) ctors: u32,
    pub(crate) sels: u32,
    pub(crate) funs: u32,
    pub(crate) defs: u32,
    pub(crate) heads: u32,
    pub(crate) synonyms: u32,
    pub(crate) symbols: u64,
}

impl Model for Mark {
    ghost use Rattle.std.specs.Prelude.{◌≤◌};
    ghost use Rattle.ct_sorts.specs.Lengths.{Lengths};

    ghost Value = { Lengths };

    ghost view = { λ m. record { sorts = m.sorts; ctors = m.ctors; sels = m.sels; functions = m.funs; definitions = m.defs; heads = m.heads; synonyms = m.synonyms; symbols = m.symbols; origins = m.sorts; spellings = m.heads } };

    ghost invariant = { λ m. 1 ≤ m.sorts };

    ghost inverse = { λ l. record { sorts = l.sorts; ctors = l.ctors; sels = l.sels; funs = l.functions; defs = l.definitions; heads = l.heads; synonyms = l.synonyms; symbols = l.symbols } };
}

impl Mark {
    /// The number of sorts. Bool is always among them.
    pub fn sorts(&self) -> u32
        ensures value { result ≡ self.now.sorts }
        ensures has_bool { 1 ≤ result }
    {
        self.sorts
    }

    /// The number of constructors.
    pub fn ctors(&self) -> u32
        ensures value { result ≡ self.now.ctors }
    {
        self.ctors
    }

    /// The number of selectors.
    pub fn sels(&self) -> u32
        ensures value { result ≡ self.now.sels }
    {
        self.sels
    }

    /// The number of functions.
    pub fn funs(&self) -> u32
        ensures value { result ≡ self.now.functions }
    {
        self.funs
    }

    /// The number of definitions.
    pub fn defs(&self) -> u32
        ensures value { result ≡ self.now.definitions }
    {
        self.defs
    }

    /// The number of sorts without parameters and generics.
    pub fn heads(&self) -> u32
        ensures value { result ≡ self.now.heads }
    {
        self.heads
    }

    /// The number of synonyms.
    pub fn synonyms(&self) -> u32
        ensures value { result ≡ self.now.synonyms }
    {
        self.synonyms
    }

    /// The number of names of constructors and selectors of sorts without parameters and generics.
    pub fn symbols(&self) -> u64
        ensures value { result ≡ self.now.symbols }
    {
        self.symbols
    }
}
