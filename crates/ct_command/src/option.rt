//! The options that a script sets and asks for, and the infos that it asks for.

/// An option whose value is a Boolean (SMT-LIB 2.7, section 4.1.7).
#[derive(Clone, Copy, Debug, PartialEq, Eq)]
pub enum BooleanOption {
    /// `:print-success`: a command without an answer of its own answers `success`.
    PrintSuccess,
    /// `:global-declarations`: what is declared and defined belongs to no level.
    GlobalDeclarations,
    /// `:produce-models`.
    ProduceModels,
    /// `:produce-proofs`.
    ProduceProofs,
    /// `:produce-assertions`.
    ProduceAssertions,
    /// `:produce-assignments`.
    ProduceAssignments,
    /// `:produce-unsat-cores`.
    ProduceUnsatCores,
    /// `:produce-unsat-assumptions`.
    ProduceUnsatAssumptions,
    /// `:minimal-unsat-cores`: cores are shrunk until each assertion is needed (cvc5).
    MinimalUnsatCores,
}

/// An option whose value is a numeral (SMT-LIB 2.7, section 4.1.7).
#[derive(Clone, Copy, Debug, PartialEq, Eq)]
pub enum NumeralOption {
    /// `:reproducible-resource-limit`: how much each check may search.
    ResourceLimit,
    /// `:verbosity`.
    Verbosity,
    /// `:random-seed`.
    RandomSeed,
}

/// What follows an error, the value of `:error-behavior` (SMT-LIB 2.7, section 4.1.8).
#[derive(Clone, Copy, Debug, PartialEq, Eq)]
pub enum ErrorBehavior {
    /// `continued-execution`: the next command is answered.
    ContinuedExecution,
    /// `immediate-exit`: the script ends.
    ImmediateExit,
}

/// An output channel, an option whose value is a string (SMT-LIB 2.7, section 4.1.7).
#[derive(Clone, Copy, Debug, PartialEq, Eq)]
pub enum Channel {
    /// `:diagnostic-output-channel`, where any string is taken.
    Diagnostic,
    /// `:regular-output-channel`, which is always `"stdout"`.
    Regular,
}

/// An option by its name.
#[derive(Clone, Copy, Debug, PartialEq, Eq)]
pub enum OptionName {
    /// Its value is a Boolean.
    Boolean(BooleanOption),
    /// Its value is a numeral.
    Numeral(NumeralOption),
    /// `:error-behavior`.
    ErrorBehavior,
    /// Its value is a string.
    Channel(Channel),
}

/// An option with the value that it is set to, where that is no string.
#[derive(Clone, Copy, Debug, PartialEq, Eq)]
pub enum Setting {
    /// Set to `true` or `false`.
    Boolean(BooleanOption, bool),
    /// Set to this number.
    Numeral(NumeralOption, u128),
    /// What follows an error is set to this.
    ErrorBehavior(ErrorBehavior),
}

/// What a script may ask of the solver (SMT-LIB 2.7, section 4.1.8).
#[derive(Clone, Copy, Debug, PartialEq, Eq)]
pub enum Info {
    /// `:name`.
    Name,
    /// `:version`.
    Version,
    /// `:authors`.
    Authors,
    /// `:error-behavior`.
    ErrorBehavior,
    /// `:assertion-stack-levels`: how many levels stand.
    AssertionStackLevels,
    /// `:reason-unknown`: why the last check was answered `unknown`.
    ReasonUnknown,
}
