//! What a command says, with names and expressions still as they were read.

use crate::option::{Info, OptionName, Setting};
use ct_sexpr::Sexpr;

/// Whether a block declares datatypes, whose values are finite, or codatatypes.
#[derive(Clone, Copy, Debug, PartialEq, Eq)]
pub enum Family {
    /// Datatypes (SMT-LIB 2.7, section 4.2.3).
    Data,
    /// Codatatypes (cvc5, `declare-codatatypes`).
    Codata,
}

/// A name and the sort beside it: a field of a constructor, or a parameter of a definition.
#[derive(Clone, Copy, Debug)]
pub struct Named<'a> {
    /// The name.
    pub name: &'a [u8],
    /// The expression of the sort.
    pub sort: &'a Sexpr,
}

/// A sort of a block by its name and its number of arguments.
#[derive(Clone, Copy, Debug)]
pub struct SortHead<'a> {
    /// The name.
    pub name: &'a [u8],
    /// How many arguments the sort takes.
    pub arity: u128,
}

/// A constructor with its fields (SMT-LIB 2.7, section 3.9, `constructor_dec`).
#[derive(Debug, Drop)]
pub struct Constructor<'a> {
    /// The name.
    pub name: &'a [u8],
    /// The selectors, each with the sort of its field.
    pub fields: Vec<Named<'a>>,
}

/// What is declared of one sort of a block (SMT-LIB 2.7, section 3.9, `datatype_dec`).
#[derive(Debug, Drop)]
pub struct Body<'a> {
    /// The type parameters, those of `(par (X ..) ..)`; none where this is not written.
    pub params: Vec<&'a [u8]>,
    /// The constructors, in order.
    pub ctors: Vec<Constructor<'a>>,
}

/// A command (SMT-LIB 2.7, section 3.9; cvc5 for codatatypes).
#[derive(Debug, Drop)]
pub enum Command<'a> {
    /// `set-logic`, with the name of the logic, which may be unknown.
    SetLogic(&'a [u8]),
    /// `set-option`, with a known option and a value of its kind.
    SetOption(Setting),
    /// `set-option :diagnostic-output-channel`, with the string literal as it was read.
    SetDiagnosticOutput(&'a Sexpr),
    /// `get-option`, with a known option.
    GetOption(OptionName),
    /// `set-info`.
    SetInfo,
    /// `get-info`, with a known info.
    GetInfo(Info),
    /// `declare-sort`: an uninterpreted sort by its name and how many arguments it takes.
    DeclareSort(&'a [u8], u8),
    /// `define-sort`: a synonym with its parameters, and the sort for which it stands.
    DefineSort(&'a [u8], Vec<&'a [u8]>, &'a Sexpr),
    /// `declare-datatypes`, `declare-codatatypes`, and the forms of one sort.
    DeclareBlock(Family, Vec<SortHead<'a>>, Vec<Body<'a>>),
    /// `declare-fun` with the sorts of arguments and result; `declare-const` without arguments.
    DeclareFun(&'a [u8], &'a [Sexpr], &'a Sexpr),
    /// `define-fun` with parameters, the sort of the result, and the body; `define-const` without parameters.
    DefineFun(&'a [u8], Vec<Named<'a>>, &'a Sexpr, &'a Sexpr),
    /// `assert`, with the name by which the term is labelled, where its outermost form is `(! t .. :named n ..)`.
    Assert(&'a Sexpr, Option<&'a [u8]>),
    /// `check-sat`.
    CheckSat,
    /// `check-sat-assuming`, with the terms that are assumed, in order.
    CheckSatAssuming(&'a [Sexpr]),
    /// `push`, with how many levels are added; 1 where no number is written.
    Push(u128),
    /// `pop`, with how many levels are removed; 1 where no number is written.
    Pop(u128),
    /// `reset-assertions`.
    ResetAssertions,
    /// `reset`.
    Reset,
    /// `get-model`.
    GetModel,
    /// `get-value`, with one term at least.
    GetValue(&'a [Sexpr]),
    /// `get-proof`.
    GetProof,
    /// `get-unsat-core`.
    GetUnsatCore,
    /// `get-unsat-assumptions`.
    GetUnsatAssumptions,
    /// `echo`, with the string literal as it was read.
    Echo(&'a Sexpr),
    /// `exit`.
    Exit,
    /// A command, an option or an info that is answered `unsupported` (SMT-LIB 2.7, section 4.1.1).
    Unsupported,
}
