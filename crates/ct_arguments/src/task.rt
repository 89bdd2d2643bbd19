//! The tasks, and which of them the arguments ask for.

ghost use Rattle.std.specs.Prelude.{◌≡◌, ◌≢◌, IfOk, Some, None, option_map};
ghost use Rattle.clap.specs.Words.{app_of, found_of, rows_of};
ghost use Rattle.clap.specs.declared.error.kind.ErrorKind.TheVariants.{OutOfMemory};
ghost use Rattle.ct_arguments.specs.Arguments as spec;
ghost use Rattle.ct_arguments.specs.Command.{cosmt};
ghost use Rattle.ct_arguments.specs.Seen.{task_seen};

use crate::error::ArgumentError;
use crate::number::{block_count, check_number};
use clap::error::ErrorKind;
use clap::{Arg, ArgAction, ArgMatches, Command};
use ct_io::Text;
use std::alloc::{AllocError, Global};

/// What the arguments of the command line ask for.
#[derive(Clone, Copy, Debug)]
pub enum Task<'a> {
    /// To answer the script of this name. The empty name stands for standard input.
    Solve {
        /// Whether the script ends at its first error, unless it says otherwise.
        strict: bool,
        /// The name of the script.
        script: &'a str,
    },
    /// To check a derivation against its script.
    Audit {
        /// The name of the derivation.
        proof: &'a str,
        /// The name of the script.
        script: &'a str,
    },
    /// To evaluate the assertions of a check of a script in a model.
    AuditModel {
        /// The name of the model.
        model: &'a str,
        /// The number of the check, counted from 1.
        number: u64,
        /// The name of the script.
        script: &'a str,
    },
    /// To answer the generated script of so many blocks, from 1 to 2,000.
    Generate(u64),
    /// To tell how the program is called.
    Help,
    /// To tell the version of the program.
    Version,
    /// Nothing: the arguments have none of the forms.
    Faulty,
}

/// What the arguments, without the program's own name, ask for.
///
/// The only error is out of memory.
pub fn task_of<'a>(alloc: Global, words: &'a [Text]) -> Result<Task<'a>, ArgumentError>
    ensures task { IfOk result (λ t. task_seen t ≡ spec.task_of words.entry.now) }
    ensures within { IfOk result (λ t. spec.IsWithin (task_seen t)) }
{
    match command(alloc)?.try_get_matches_from(words) {
        Ok(matches) => Ok(meaning(&matches)),
        Err(error) => refusal(error.kind()),
    }
}

/// The command, whose arguments come without its name.
fn command<'a>(alloc: Global) -> Result<Command<'a>, AllocError>
    ensures app { IfOk result (λ c. app_of c ≡ cosmt) }
{
    let audit = Arg::new(alloc, "audit").long("audit");
    let count = Arg::new(alloc, "gen").long("gen");
    let model = Arg::new(alloc, "audit-model").long("audit-model");
    let check = Arg::new(alloc, "at").long("at");
    let strict = Arg::new(alloc, "strict")
        .long("strict")
        .action(ArgAction::SetTrue);
    let version = Arg::new(alloc, "version")
        .long("version")
        .action(ArgAction::SetTrue);
    let file = Arg::new(alloc, "file");
    Command::new(alloc, "cosmt")
        .no_binary_name(true)
        .arg(audit)?
        .arg(count)?
        .arg(model)?
        .arg(check)?
        .arg(strict)?
        .arg(version)?
        .arg(file)
}

/// What the arguments ask for that were accepted.
fn meaning<'a>(matches: &ArgMatches<'a>) -> Task<'a>
    ensures task { task_seen result ≡ spec.asked_for (rows_of (found_of matches.now)) }
{
    asked_with(
        is_met(matches.get_str("version")),
        is_met(matches.get_str("strict")),
        matches.get_str("gen"),
        matches.get_str("audit"),
        matches.get_str("audit-model"),
        matches.get_str("at"),
        matches.get_str("file"),
    )
}

/// Whether an option without a value was met, by what stands for it.
fn is_met(value: Option<&str>) -> bool
    ensures met { result ≡ spec.is_met (option_map (λ s. s.now) value.entry) }
{
    match value {
        Some(text) => text.as_bytes() == b"true".as_slice(),
        None => false,
    }
}

/// What the values of the other options and of the file ask for, beside `--version` and `--strict`, which are met or not.
fn asked_with<'a>(
    version: bool,
    strict: bool,
    count: Option<&'a str>,
    proof: Option<&'a str>,
    model: Option<&'a str>,
    check: Option<&'a str>,
    script: Option<&'a str>,
) -> Task<'a>
    ensures task { task_seen result ≡ spec.asked_with version strict (option_map (λ s. s.now) count.entry) (option_map (λ s. s.now) proof.entry)
        (option_map (λ s. s.now) model.entry) (option_map (λ s. s.now) check.entry) (option_map (λ s. s.now) script.entry) }
{
    match (version, strict) {
        (true, true) => Task::Faulty,
        (true, false) => alone(count, proof, model, check, script),
        (false, true) => strictly(asked_by(count, proof, model, check, script)),
        (false, false) => asked_by(count, proof, model, check, script),
    }
}

/// What `--version` asks for, which stands alone.
fn alone<'a>(
    count: Option<&'a str>,
    proof: Option<&'a str>,
    model: Option<&'a str>,
    check: Option<&'a str>,
    script: Option<&'a str>,
) -> Task<'a>
    ensures task { task_seen result ≡ spec.alone (option_map (λ s. s.now) count.entry) (option_map (λ s. s.now) proof.entry)
        (option_map (λ s. s.now) model.entry) (option_map (λ s. s.now) check.entry) (option_map (λ s. s.now) script.entry) }
{
    match (count, proof, model, check, script) {
        (None, None, None, None, None) => Task::Version,
        _ => Task::Faulty,
    }
}

/// The same beside `--strict`, which stands beside a script alone.
fn strictly<'a>(task: Task<'a>) -> Task<'a>
    ensures task { task_seen result ≡ spec.strictly (task_seen task.entry) }
{
    match task {
        Task::Solve { script, .. } => Task::Solve {
            strict: true,
            script,
        },
        Task::Audit { .. }
        | Task::AuditModel { .. }
        | Task::Generate(_)
        | Task::Help
        | Task::Version
        | Task::Faulty => Task::Faulty,
    }
}

/// What the values of `--gen`, of `--audit`, of `--audit-model`, of `--at` and of the file ask for.
fn asked_by<'a>(
    count: Option<&'a str>,
    proof: Option<&'a str>,
    model: Option<&'a str>,
    check: Option<&'a str>,
    script: Option<&'a str>,
) -> Task<'a>
    ensures task { task_seen result ≡ spec.asked_by (option_map (λ s. s.now) count.entry) (option_map (λ s. s.now) proof.entry)
        (option_map (λ s. s.now) model.entry) (option_map (λ s. s.now) check.entry) (option_map (λ s. s.now) script.entry) }
{
    match (count, proof) {
        (Some(count), None) => asked_of_count(count, model, check, script),
        (None, Some(proof)) => asked_of_proof(proof, model, check, script),
        (None, None) => asked_of_script(model, check, script),
        (Some(_), Some(_)) => Task::Faulty,
    }
}

/// The same beside the value of `--gen`.
fn asked_of_count<'a>(
    count: &'a str,
    model: Option<&'a str>,
    check: Option<&'a str>,
    script: Option<&'a str>,
) -> Task<'a>
    ensures task { task_seen result ≡ spec.asked_by (Some count.entry.now) None
        (option_map (λ s. s.now) model.entry) (option_map (λ s. s.now) check.entry) (option_map (λ s. s.now) script.entry) }
{
    match (model, check, script) {
        (None, None, None) => generation(count),
        _ => Task::Faulty,
    }
}

/// The same beside the value of `--audit`.
fn asked_of_proof<'a>(
    proof: &'a str,
    model: Option<&'a str>,
    check: Option<&'a str>,
    script: Option<&'a str>,
) -> Task<'a>
    ensures task { task_seen result ≡ spec.asked_of_proof proof.entry.now
        (option_map (λ s. s.now) model.entry) (option_map (λ s. s.now) check.entry) (option_map (λ s. s.now) script.entry) }
{
    match (model, check, script) {
        (None, None, Some(script)) => Task::Audit { proof, script },
        _ => Task::Faulty,
    }
}

/// The same beside neither.
fn asked_of_script<'a>(
    model: Option<&'a str>,
    check: Option<&'a str>,
    script: Option<&'a str>,
) -> Task<'a>
    ensures task { task_seen result ≡ spec.asked_of_script
        (option_map (λ s. s.now) model.entry) (option_map (λ s. s.now) check.entry) (option_map (λ s. s.now) script.entry) }
{
    match (model, check, script) {
        (Some(model), Some(check), Some(script)) => model_audit(model, check, script),
        (None, None, Some(script)) => Task::Solve {
            strict: false,
            script,
        },
        (None, None, None) => Task::Solve {
            strict: false,
            script: "",
        },
        (Some(_), None, _) | (Some(_), Some(_), None) | (None, Some(_), _) => Task::Faulty,
    }
}

/// What the values of `--audit-model`, of `--at` and of the file ask for.
fn model_audit<'a>(model: &'a str, check: &str, script: &'a str) -> Task<'a>
    ensures task { task_seen result ≡ spec.model_audit model.entry.now check.now script.entry.now }
{
    match check_number(check) {
        Some(number) => Task::AuditModel {
            model,
            number,
            script,
        },
        None => Task::Faulty,
    }
}

/// What the value of `--gen` asks for, where it stands alone.
fn generation<'a>(text: &str) -> Task<'a>
    ensures task { task_seen result ≡ spec.generation text.now }
{
    match block_count(text) {
        Some(count) => Task::Generate(count),
        None => Task::Faulty,
    }
}

/// What arguments ask for that were refused, by the kind of the refusal.
fn refusal<'a>(kind: ErrorKind) -> Result<Task<'a>, ArgumentError>
    ensures task { IfOk result (λ t. task_seen t ≡ spec.refusal (spec.is_help kind)) }
    ensures refused { IfOk result (λ _. kind ≢ OutOfMemory) }
{
    match kind {
        ErrorKind::OutOfMemory => Err(ArgumentError),
        ErrorKind::DisplayHelp => Ok(Task::Help),
        _ => Ok(Task::Faulty),
    }
}
