//! One line on standard error that says to the person who called the program why there are no answers, or not all.
use ct_arguments::{Task, task_of};
use ct_io::{Desk, HostDesk, Slot, Status, Text};
use std::io;

/// The options of the command line.
const OPTIONS: [&str; 8] = [
    "--strict",
    "--audit",
    "--audit-model",
    "--at",
    "--gen",
    "--version",
    "--help",
    "-h",
];

/// Writes why a run on these arguments ended with this status: which argument, which file, which fault. Nothing is written of a
/// script that was answered to its end.
pub(crate) fn explain(rt: &HostRuntime, words: &[Text], status: Status) -> io::Result<()> {
    match status {
        Status::Done | Status::Refused => Ok(()),
        Status::Usage => explain_usage(rt, words),
        Status::InputFault => explain_input(rt, words),
        Status::OutputFault => eprintln!(rt; "cosmt: the answers cannot be written"),
        Status::NoMemory => eprintln!(rt; "cosmt: out of memory"),
        Status::Rejected => explain_rejection(rt, words),
        Status::TooLong => explain_length(rt, words),
    }
}

/// Says what is wrong with the arguments: an option that does not exist, or how they are combined.
fn explain_usage(rt: &HostRuntime, words: &[Text]) -> io::Result<()> {
    for word in words {
        if is_unknown(word.as_str()) {
            return eprintln!(rt; "cosmt: unknown option {}", word.as_str());
        }
    }
    eprintln!(rt; "cosmt: these arguments cannot be combined")
}

/// Whether the argument looks like an option and is none.
fn is_unknown(word: &str) -> bool {
    let name = match word.split_once('=') {
        Some((name, _)) => name,
        None => word,
    };
    name.len() > 1 && name.starts_with('-') && !OPTIONS.contains(&name)
}

/// Says which file cannot be read.
fn explain_input(rt: &HostRuntime, words: &[Text]) -> io::Result<()> {
    let (audited, script) = files_of(rt, words);
    let name = match audited {
        Some(name) if !is_readable(rt, name) => name,
        Some(_) | None => script,
    };
    eprintln!(rt; "cosmt: {} cannot be read", shown(name))
}

/// Says which file was rejected.
fn explain_rejection(rt: &HostRuntime, words: &[Text]) -> io::Result<()> {
    match files_of(rt, words).0 {
        Some(name) => eprintln!(rt; "cosmt: {} does not pass the audit", shown(name)),
        None => Ok(()),
    }
}

/// Says which file is too long, or which of two.
fn explain_length(rt: &HostRuntime, words: &[Text]) -> io::Result<()> {
    let (audited, script) = files_of(rt, words);
    match audited {
        Some(name) => {
            eprintln!(rt;
                "cosmt: {} or {} is longer than 67,108,864 bytes",
                shown(name),
                shown(script)
            )
        }
        None => eprintln!(rt; "cosmt: {} is longer than 67,108,864 bytes", shown(script)),
    }
}

/// The name of the file that is audited, where there is one, and that of the script.
fn files_of<'a>(rt: &HostRuntime, words: &'a [Text]) -> (Option<&'a str>, &'a str) {
    match task_of(rt.alloc(), words) {
        Ok(Task::Solve { script, .. }) => (None, script),
        Ok(Task::Audit { proof, script }) => (Some(proof), script),
        Ok(Task::AuditModel { model, script, .. }) => (Some(model), script),
        Ok(Task::Generate(_)) | Ok(Task::Help) | Ok(Task::Version) | Ok(Task::Faulty) | Err(_) => (
            None, "",
        ),
    }
}

/// Whether a first byte of the file can be read now, or its end. Standard input, which was read, is not asked again.
fn is_readable(rt: &HostRuntime, name: &str) -> bool {
    if name.is_empty() {
        return true;
    }
    let mut desk = HostDesk::new(*rt);
    let mut byte = [0u8];
    desk.open(Slot::Script, name).is_ok() && desk.read(Slot::Script, &mut byte).is_ok()
}

/// The name of a file as it is shown.
fn shown(name: &str) -> &str {
    if name.is_empty() {
        return "standard input";
    }
    name
}
