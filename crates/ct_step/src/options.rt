//! The options of a session (SMT-LIB 2.7, section 4.1.7).
ghost use Rattle.std.specs.Prelude.{◌≡◌, IfOk};
ghost use Rattle.std.specs.Fmt.{decimal};
ghost use Rattle.ct_step.specs.Options.{first_options, with_boolean, with_numeral, with_setting, sets_global, boolean_of, numeral_of, ends_at_error, truth_text, behavior_text, channel_text, value_text, budget};

use ct_command::{BooleanOption, Channel, ErrorBehavior, NumeralOption, OptionName, Setting};
use std::alloc::{AllocError, Global};

/// The values of the options.
#[derive(Clone, Copy, Debug, PartialEq, Eq)]
pub struct Options {
    /// Whether a command without an answer of its own answers `success`.
    pub print_success: bool,
    /// Whether what is declared and defined belongs to no level.
    pub global_declarations: bool,
    /// Without effect: there is always a model after `sat`.
    pub produce_models: bool,
    /// Without effect: there is always a derivation after `unsat`.
    pub produce_proofs: bool,
    /// Without effect.
    pub produce_assertions: bool,
    /// Without effect.
    pub produce_assignments: bool,
    /// Without effect.
    pub produce_unsat_cores: bool,
    /// Without effect: there are always cores of assumptions after `unsat`.
    pub produce_unsat_assumptions: bool,
    /// Whether a core is shrunk before it is printed.
    pub minimal_unsat_cores: bool,
    /// How many decisions a check may take; 0 is no limit.
    pub limit: u128,
    /// Without effect.
    pub verbosity: u128,
    /// Without effect.
    pub random_seed: u128,
    /// What follows an error.
    pub error_behavior: ErrorBehavior,
    /// What followed an error at the start, and does so again after `reset`.
    pub first_error_behavior: ErrorBehavior,
}

impl Options {
    /// The options at the start, where this follows an error.
    pub fn new(behavior: ErrorBehavior) -> Options
        ensures value { result ≡ first_options behavior }
    {
        Options {
            print_success: false,
            global_declarations: false,
            produce_models: true,
            produce_proofs: true,
            produce_assertions: true,
            produce_assignments: true,
            produce_unsat_cores: true,
            produce_unsat_assumptions: true,
            minimal_unsat_cores: false,
            limit: 100_000,
            verbosity: 0,
            random_seed: 0,
            error_behavior: behavior,
            first_error_behavior: behavior,
        }
    }

    /// The options with one of them set.
    pub(crate) fn with_setting(self, setting: Setting) -> Options
        ensures value { result ≡ with_setting self setting }
    {
        match setting {
            Setting::Boolean(option, value) => self.with_boolean(option, value),
            Setting::Numeral(option, value) => self.with_numeral(option, value),
            Setting::ErrorBehavior(behavior) => Options {
                error_behavior: behavior,
                ..self
            },
        }
    }

    // The options with a Boolean option set.
    fn with_boolean(self, option: BooleanOption, value: bool) -> Options
        ensures value { result ≡ with_boolean self option value }
    {
        match option {
            BooleanOption::PrintSuccess => Options {
                print_success: value,
                ..self
            },
            BooleanOption::GlobalDeclarations => Options {
                global_declarations: value,
                ..self
            },
            BooleanOption::ProduceModels => Options {
                produce_models: value,
                ..self
            },
            BooleanOption::ProduceProofs => Options {
                produce_proofs: value,
                ..self
            },
            BooleanOption::ProduceAssertions => Options {
                produce_assertions: value,
                ..self
            },
            BooleanOption::ProduceAssignments => Options {
                produce_assignments: value,
                ..self
            },
            BooleanOption::ProduceUnsatCores => Options {
                produce_unsat_cores: value,
                ..self
            },
            BooleanOption::ProduceUnsatAssumptions => Options {
                produce_unsat_assumptions: value,
                ..self
            },
            BooleanOption::MinimalUnsatCores => Options {
                minimal_unsat_cores: value,
                ..self
            },
        }
    }

    // The options with a numeral option set.
    fn with_numeral(self, option: NumeralOption, value: u128) -> Options
        ensures value { result ≡ with_numeral self option value }
    {
        match option {
            NumeralOption::ResourceLimit => Options {
                limit: value,
                ..self
            },
            NumeralOption::Verbosity => Options {
                verbosity: value,
                ..self
            },
            NumeralOption::RandomSeed => Options {
                random_seed: value,
                ..self
            },
        }
    }

    // The value of a Boolean option.
    fn boolean(self, option: BooleanOption) -> bool
        ensures value { result ≡ boolean_of self option }
    {
        match option {
            BooleanOption::PrintSuccess => self.print_success,
            BooleanOption::GlobalDeclarations => self.global_declarations,
            BooleanOption::ProduceModels => self.produce_models,
            BooleanOption::ProduceProofs => self.produce_proofs,
            BooleanOption::ProduceAssertions => self.produce_assertions,
            BooleanOption::ProduceAssignments => self.produce_assignments,
            BooleanOption::ProduceUnsatCores => self.produce_unsat_cores,
            BooleanOption::ProduceUnsatAssumptions => self.produce_unsat_assumptions,
            BooleanOption::MinimalUnsatCores => self.minimal_unsat_cores,
        }
    }

    // The value of a numeral option.
    fn numeral(self, option: NumeralOption) -> u128
        ensures value { result ≡ numeral_of self option }
    {
        match option {
            NumeralOption::ResourceLimit => self.limit,
            NumeralOption::Verbosity => self.verbosity,
            NumeralOption::RandomSeed => self.random_seed,
        }
    }

    /// Whether the script ends with an error.
    pub fn ends_at_error(self) -> bool
        ensures value { result ≡ ends_at_error self.error_behavior }
    {
        match self.error_behavior {
            ErrorBehavior::ContinuedExecution => false,
            ErrorBehavior::ImmediateExit => true,
        }
    }

    /// The value of an option as it is written, where the diagnostic channel is written so: `true`, `false`, a numeral, a string, or
    /// the words of what follows an error.
    pub(crate) fn value_text(
        self,
        alloc: Global,
        diagnostic: &[u8],
        name: OptionName,
    ) -> Result<Vec<u8>, AllocError>
        ensures text { IfOk result (λ text. text.items ≡ value_text self diagnostic.now name) }
    {
        match name {
            OptionName::Boolean(option) => {
                Vec::from_slice(alloc, truth_text(self.boolean(option)))
            }
            OptionName::Numeral(option) => numeral_text(alloc, self.numeral(option)),
            OptionName::ErrorBehavior => {
                Vec::from_slice(alloc, behavior_text(self.error_behavior))
            }
            OptionName::Channel(channel) => {
                Vec::from_slice(alloc, channel_text(diagnostic, channel))
            }
        }
    }

    /// How many decisions a check may take.
    pub(crate) fn budget(self) -> u64
        ensures value { result ≡ budget self }
    {
        if self.limit == 0 || self.limit > u128::from(u64::MAX) {
            return u64::MAX;
        }
        self.limit as u64
    }
}

/// Whether the setting is of the option that says to which level declarations belong.
pub(crate) fn sets_global(setting: Setting) -> bool
    ensures value { result ≡ sets_global setting }
{
    match setting {
        Setting::Boolean(BooleanOption::GlobalDeclarations, _) => true,
        Setting::Boolean(_, _) | Setting::Numeral(_, _) | Setting::ErrorBehavior(_) => false,
    }
}

// `true` or `false`.
fn truth_text(value: bool) -> &'static [u8]
    ensures value { result.now ≡ truth_text value }
{
    if value { b"true" } else { b"false" }
}

/// The words of what follows an error.
pub(crate) fn behavior_text(behavior: ErrorBehavior) -> &'static [u8]
    ensures value { result.now ≡ behavior_text behavior }
{
    match behavior {
        ErrorBehavior::ContinuedExecution => b"continued-execution",
        ErrorBehavior::ImmediateExit => b"immediate-exit",
    }
}

// A channel as it is written, where the diagnostic one is this.
fn channel_text(diagnostic: &[u8], channel: Channel) -> &[u8]
    ensures value { result.now ≡ channel_text diagnostic.now channel }
{
    match channel {
        Channel::Diagnostic => diagnostic,
        Channel::Regular => b"\"stdout\"",
    }
}

// A number in decimal.
fn numeral_text(alloc: Global, number: u128) -> Result<Vec<u8>, AllocError>
    ensures text { IfOk result (λ text. text.items ≡ decimal number) }
{
    let text = format!(in alloc; "{number}")?;
    Vec::from_slice(alloc, text.as_bytes())
}
