//! The tables of the program.
ghost use Rattle.std.specs.Prelude.{◌≡◌};
ghost use Rattle.ct_words.specs.Words.{command_names, option_names, client_option_names, value_names, unrestricted_logic_names, logic_part_names, derivation_names, error_names};

use crate::name_table::NameTable;

/// The number of different commands.
pub const COMMANDS: usize = 34;

/// The number of different options.
pub const OPTIONS: usize = 11;

/// The number of different options that clients set whatever the solver.
pub const CLIENT_OPTIONS: usize = 4;

/// The number of different words that are values of options and infos.
pub const VALUE_WORDS: usize = 6;

/// The number of different logics whose names have no parts.
pub const UNRESTRICTED_LOGICS: usize = 2;

/// The number of different parts of the names of logics.
pub const LOGIC_PARTS: usize = 15;

/// The number of different words of derivations.
pub const DERIVATION_WORDS: usize = 52;

/// The number of different texts of errors.
pub const ERROR_TEXTS: usize = 43;

// The text of these names, each ended by a byte 10.
macro_rules! names {
    ($($name:literal),+) => {
        concat!($($name, "\n"),+).as_bytes()
    };
}

/// The names of the commands, in the order in which the reference of commands first has them.
pub fn commands() -> NameTable<COMMANDS>
    ensures names { result ≡ command_names }
{
    NameTable::new(names!(
        "set-logic",
        "set-option",
        "get-option",
        "set-info",
        "get-info",
        "declare-sort",
        "define-sort",
        "declare-datatype",
        "declare-codatatype",
        "declare-datatypes",
        "declare-codatatypes",
        "declare-const",
        "declare-fun",
        "define-fun",
        "define-const",
        "assert",
        "check-sat",
        "push",
        "pop",
        "reset-assertions",
        "reset",
        "get-model",
        "get-value",
        "get-proof",
        "echo",
        "exit",
        "define-fun-rec",
        "define-funs-rec",
        "declare-sort-parameter",
        "get-assertions",
        "get-assignment",
        "check-sat-assuming",
        "get-unsat-core",
        "get-unsat-assumptions"
    ))
}

/// The names of the options that the solver has, each with its colon.
pub fn options() -> NameTable<OPTIONS>
    ensures names { result ≡ option_names }
{
    NameTable::new(names!(
        ":print-success",
        ":global-declarations",
        ":reproducible-resource-limit",
        ":produce-models",
        ":produce-proofs",
        ":produce-assertions",
        ":produce-assignments",
        ":produce-unsat-cores",
        ":produce-unsat-assumptions",
        ":verbosity",
        ":minimal-unsat-cores"
    ))
}

/// The names of options that clients set whatever the solver, each with its colon: the channels and the seed (SMT-LIB 2.7,
/// section 4.1.7), and what follows an error.
pub fn client_options() -> NameTable<CLIENT_OPTIONS>
    ensures names { result ≡ client_option_names }
{
    NameTable::new(names!(
        ":diagnostic-output-channel",
        ":regular-output-channel",
        ":random-seed",
        ":error-behavior"
    ))
}

/// The words that are values of options and infos (SMT-LIB 2.7, sections 4.1.7 and 4.1.8), strings without their quotation
/// marks: what follows an error, the channels, and why a check was answered `unknown`.
pub fn value_words() -> NameTable<VALUE_WORDS>
    ensures names { result ≡ value_names }
{
    NameTable::new(names!(
        "continued-execution",
        "immediate-exit",
        "stderr",
        "stdout",
        "incomplete",
        "resourceout"
    ))
}

/// The logics whose names have no parts: whatever the solver can do.
pub fn unrestricted_logics() -> NameTable<UNRESTRICTED_LOGICS>
    ensures names { result ≡ unrestricted_logic_names }
{
    NameTable::new(names!("ALL", "ALL_SUPPORTED"))
}

/// The parts of which the names of other logics of SMT-LIB are made, after `QF_` where formulas have no quantifiers.
pub fn logic_parts() -> NameTable<LOGIC_PARTS>
    ensures names { result ≡ logic_part_names }
{
    NameTable::new(names!(
        "A", "AX", "UF", "BV", "FP", "DT", "S", "IDL", "RDL", "LIA", "LRA", "LIRA", "NIA", "NRA",
        "NIRA"
    ))
}

/// The words of derivations: those of rules, equality steps and items, each at its first occurrence.
pub fn derivation_words() -> NameTable<DERIVATION_WORDS>
    ensures names { result ≡ derivation_names }
{
    NameTable::new(names!(
        "input",
        "gate",
        "true",
        "false",
        "and-pos",
        "and-neg",
        "or-pos",
        "or-neg",
        "iff-1",
        "iff-2",
        "iff-3",
        "iff-4",
        "ite-1",
        "ite-2",
        "ite-3",
        "ite-4",
        "then",
        "else",
        "exhaust",
        "theory",
        "learn",
        "hyp",
        "refl",
        "sym",
        "trans",
        "cong",
        "inject",
        "sel",
        "test",
        "expand",
        "equal-in",
        "equal-out",
        "neg",
        "single",
        "unique",
        "pair",
        "clash",
        "cycle",
        "cosmt-derivation",
        "t",
        "con",
        "app",
        "is",
        "=",
        "not",
        "and",
        "or",
        "iff",
        "ite",
        "s",
        "end",
        "assuming"
    ))
}

/// The texts of the errors, in the order of their numbers, which have gaps.
pub fn error_texts() -> NameTable<ERROR_TEXTS>
    ensures names { result ≡ error_names }
{
    NameTable::new(names!(
        "byte begins no token",
        "closing parenthesis without opening",
        "input ends inside an expression",
        "nesting above 1000",
        "atom outside a command",
        "numeral above 128 bits",
        "name taken",
        "unknown sort",
        "no constructor",
        "datatype is not well founded",
        "counts differ",
        "too many declarations",
        "mixed recursion",
        "non-uniform recursion",
        "sort of constructor not determined",
        "too many terms",
        "unknown symbol",
        "wrong number of arguments",
        "wrong sort",
        "assertion is not Bool",
        "pattern of another sort",
        "match not exhaustive",
        "variable repeated",
        "form out of scope",
        "name taken by another symbol",
        "closure too large",
        "quantifier over too many values",
        "derivation form",
        "number not yet defined",
        "term line does not fit the script",
        "no such check-sat",
        "model form",
        "model does not fit the script",
        "datatype value is cyclic",
        "pop above the levels",
        "no model",
        "no derivation",
        "option not allowed now",
        "unknown logic",
        "unknown command",
        "wrong form",
        "too many levels",
        "form not built yet"
    ))
}
