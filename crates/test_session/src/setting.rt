//! Which calls fail in a run, how many bytes a call takes at most, and the derivation or the model that is audited, with where it ends.
use crate::script::script_of;
use ct_cases::{CaseError, number_of, split_word};
use ct_io::{DeskInMemory, SinkInMemory, Text};
use ct_sexpr::Sexpr;
use std::alloc::Global;

/// The numbers of the calls that fail, if any, the most bytes that a call takes, whether the calls of the desk are counted although
/// none of them fails, the derivation or the model, if there is one, and the number of the check of a model.
#[derive(Clone, Copy)]
pub struct Setting<'a> {
    desk_fails: Option<u64>,
    sink_fails: Option<u64>,
    piece: usize,
    counts: bool,
    proof: Option<&'a Sexpr>,
    proof_ends: usize,
    check: Option<&'a Sexpr>,
}

impl Setting<'_> {
    /// Whether the number of calls of the desk is shown: where one of them fails, or where it is asked for.
    pub fn counts_calls(self) -> bool {
        self.counts
    }

    /// Whether there is a derivation or a model.
    pub fn has_proof(self) -> bool {
        self.proof.is_some()
    }
}

impl<'a> Setting<'a> {
    /// The number of the check of the model, where one is to be audited.
    pub fn check(self) -> Option<&'a Sexpr> {
        self.check
    }

    /// The same, but this call of the desk fails.
    pub fn with_desk_failing(self, call: u64) -> Setting<'a> {
        Setting {
            desk_fails: Some(call),
            ..self
        }
    }

    /// The same, but this write of the sink fails.
    pub fn with_sink_failing(self, call: u64) -> Setting<'a> {
        Setting {
            sink_fails: Some(call),
            ..self
        }
    }

    /// The same, but the derivation or the model ends after so many bytes.
    pub fn with_proof_ending(self, bytes: usize) -> Setting<'a> {
        Setting {
            proof_ends: bytes,
            ..self
        }
    }
}

/// The setting of these parts: without any, nothing fails, and every call takes all.
pub fn setting_of(parts: &[Sexpr]) -> Result<Setting<'_>, CaseError> {
    let mut setting = Setting {
        desk_fails: None,
        sink_fails: None,
        piece: 1 << 30,
        counts: false,
        proof: None,
        proof_ends: usize::MAX,
        check: None,
    };
    for part in parts {
        setting = with_part(setting, part)?;
    }
    Ok(setting)
}

/// The setting with one part.
fn with_part<'a>(setting: Setting<'a>, part: &'a Sexpr) -> Result<Setting<'a>, CaseError> {
    match split_word(part)? {
        ("desk-fails", [call]) => Ok(Setting {
            desk_fails: Some(number_of(call)?),
            counts: true,
            ..setting
        }),
        ("sink-fails", [call]) => Ok(Setting {
            sink_fails: Some(number_of(call)?),
            ..setting
        }),
        ("piece", [count]) => Ok(Setting {
            piece: number_of(count)? as usize,
            ..setting
        }),
        ("counts-calls", []) => Ok(Setting {
            counts: true,
            ..setting
        }),
        ("proof", [proof]) => Ok(Setting {
            proof: Some(proof),
            ..setting
        }),
        ("check", [number]) => Ok(Setting {
            check: Some(number),
            ..setting
        }),
        _ => Err(CaseError::Bad),
    }
}

/// A desk with the script under the name `s`, and the derivation or the model under the name `p`.
pub fn desk_of(
    alloc: Global,
    script: Vec<u8>,
    setting: Setting<'_>,
) -> Result<DeskInMemory, CaseError> {
    let mut files = Vec::new(alloc);
    files.push((Text::new(String::from_str(alloc, "s")?), script))?;
    if setting.has_proof() {
        let mut proof = proof_of(alloc, setting)?;
        proof.truncate(setting.proof_ends);
        files.push((Text::new(String::from_str(alloc, "p")?), proof))?;
    }
    let fails = numbers(alloc, setting.desk_fails)?;
    Ok(DeskInMemory::new(files, fails, setting.piece.max(1)))
}

/// The derivation or the model; nothing where there is none.
pub fn proof_of(alloc: Global, setting: Setting<'_>) -> Result<Vec<u8>, CaseError> {
    match setting.proof {
        Some(proof) => script_of(alloc, proof),
        None => Ok(Vec::new(alloc)),
    }
}

/// A sink that has taken nothing.
pub fn sink_of(alloc: Global, setting: Setting<'_>) -> Result<SinkInMemory, CaseError> {
    let fails = numbers(alloc, setting.sink_fails)?;
    Ok(SinkInMemory::new(alloc, fails, setting.piece.max(1)))
}

/// The list of a number, if there is one.
fn numbers(alloc: Global, number: Option<u64>) -> Result<Vec<u64>, CaseError> {
    let mut all = Vec::new(alloc);
    if let Some(number) = number {
        all.push(number)?;
    }
    Ok(all)
}
