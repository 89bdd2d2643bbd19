//! What a run of the program reports to its caller.
ghost use Rattle.std.specs.Prelude.{◌≡◌, []};
ghost use Rattle.ct_step.specs.Evidence.{no_evidence};
ghost use Rattle.ct_script.specs.Given.{evidence_in};
ghost use Rattle.ct_run.specs.Kept.{kept_in};
ghost use Rattle.ct_run.specs.Refusal.{status_of_error};

use ct_engine::Verdict;
use ct_io::{SinkError, Status};
use ct_script::{CheckResponse, Given, ScriptError};
use ct_shrink::Shrunk;
use std::alloc::Global;

/// How a run ended, with the answers of the checks and the errors of the commands that were answered.
#[derive(Drop)]
pub struct Report {
    /// How the run ended.
    pub status: Status,
    /// The answers of the checks, in order.
    pub responses: Vec<CheckResponse>,
    /// The errors in order.
    pub errors: Vec<ScriptError>,
    /// The last verdict, with what shows that it is right. A run by `--gen` reports none.
    pub last: Option<Verdict>,
    /// The last core that was shrunk, with what shows of each of its members whether it is needed.
    pub shrunk: Option<Shrunk>,
}

/// The report of a run that answered nothing. Takes no memory.
pub fn unanswered(alloc: Global, status: Status) -> Report
    ensures status { result.status ≡ status }
    ensures kept { kept_in result ≡ no_evidence }
    ensures errors { result.errors.items ≡ [] }
{
    Report {
        status,
        responses: Vec::new(alloc),
        errors: Vec::new(alloc),
        last: None,
        shrunk: None,
    }
}

/// The report of what a session gave. Takes no memory.
pub(crate) fn reported(status: Status, given: Given) -> Report
    ensures status { result.status ≡ status }
    ensures kept { kept_in result ≡ evidence_in given }
    ensures errors { result.errors.items ≡ given.errors.items }
{
    Report {
        status,
        responses: given.responses,
        errors: given.errors,
        last: given.last,
        shrunk: given.shrunk,
    }
}

/// The status of a run that a sink's error ends.
pub fn status_of(error: SinkError) -> Status
    ensures value { result ≡ status_of_error error }
{
    match error {
        SinkError::Fault => Status::OutputFault,
        SinkError::NoMemory => Status::NoMemory,
    }
}
