//! Numbers of sorts, constructors, selectors, functions, definitions and generics.

/// The number of a sort. Bool is 0.
#[derive(Clone, Copy, Debug, PartialEq, Eq, Hash)]
pub struct SortId(pub u32);

/// The number of a constructor. `true` is 0 and `false` is 1.
#[derive(Clone, Copy, Debug, PartialEq, Eq, Hash)]
pub struct CtorId(pub u32);

/// The number of a selector.
#[derive(Clone, Copy, Debug, PartialEq, Eq, Hash)]
pub struct SelId(pub u32);

/// The number of a function, in the order of declarations. A constant is a function without arguments.
#[derive(Clone, Copy, Debug, PartialEq, Eq, Hash)]
pub struct FunId(pub u32);

/// The number of a definition, in the order of definitions.
#[derive(Clone, Copy, Debug, PartialEq, Eq, Hash)]
pub struct DefId(pub u32);

/// The number of a generic, among the sorts without parameters and the generics in the order of declarations.
#[derive(Clone, Copy, Debug, PartialEq, Eq, Hash)]
pub struct GenId(pub u32);

/// What a block gave a number to.
#[derive(Clone, Copy, Debug, PartialEq, Eq, Hash)]
pub enum Declared {
    /// A sort without parameters.
    Sort(SortId),
    /// A generic.
    Generic(GenId),
}

/// What a name stands for. Constructors, selectors, functions and definitions share one space of names.
#[derive(Clone, Copy, Debug, PartialEq, Eq, Hash)]
pub enum Symbol {
    /// A constructor.
    Ctor(CtorId),
    /// A selector.
    Sel(SelId),
    /// A function.
    Fun(FunId),
    /// A definition.
    Def(DefId),
    /// A constructor of a generic, by its index among the constructors.
    GenCtor(GenId, u32),
    /// A selector of a generic, by the index of its constructor and the index of its field there.
    GenSel(GenId, u32, u32),
}

/// What kind of sort a sort is.
#[derive(Clone, Copy, Debug, PartialEq, Eq, Hash)]
pub enum Kind {
    /// The sort Bool, of the two truth values.
    Bool,
    /// An uninterpreted sort (SMT-LIB 2.7, section 4.2.3, `declare-sort`).
    Free,
    /// A datatype, whose values are finite constructor trees (SMT-LIB 2.7, section 4.2.3, `declare-datatypes`).
    Data,
    /// A codatatype, whose values are finite or infinite constructor trees (cvc5, `declare-codatatypes`).
    Codata,
}
