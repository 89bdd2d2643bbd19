//! How many checks of a script had each answer, and the line that reports it.

ghost use Rattle.std.specs.Prelude.{◌≡◌, IfOk, count_by, string_bytes};
ghost use Rattle.ct_run.specs.Generated as spec;

use ct_script::CheckResponse;
use std::alloc::{AllocError, Global};

/// The line of a generated script of so many blocks.
pub fn counts_line(alloc: Global, n: u64, responses: &[CheckResponse]) -> Result<String, AllocError>
    ensures line { IfOk result (λ line. string_bytes line ≡ spec.counts_line n responses.now) }
{
    let sat = count_sat(responses);
    let unsat = count_unsat(responses);
    let unknown = count_unknown(responses);
    format!(in alloc; "gen {n}: {sat} sat, {unsat} unsat, {unknown} unknown\n")
}

/// How many checks were answered `sat`.
fn count_sat(responses: &[CheckResponse]) -> usize
    ensures count { result ≡ count_by spec.is_sat responses.now }
{
    responses.iter().filter(|response| is_sat(response)).count()
}

/// How many checks were answered `unsat`.
fn count_unsat(responses: &[CheckResponse]) -> usize
    ensures count { result ≡ count_by spec.is_unsat responses.now }
{
    responses
        .iter()
        .filter(|response| is_unsat(response))
        .count()
}

/// How many checks were answered `unknown`.
fn count_unknown(responses: &[CheckResponse]) -> usize
    ensures count { result ≡ count_by spec.is_unknown responses.now }
{
    responses
        .iter()
        .filter(|response| is_unknown(response))
        .count()
}

fn is_sat(response: &CheckResponse) -> bool
    ensures value { result ≡ spec.is_sat response.now }
{
    matches!(response, CheckResponse::Sat)
}

fn is_unsat(response: &CheckResponse) -> bool
    ensures value { result ≡ spec.is_unsat response.now }
{
    matches!(response, CheckResponse::Unsat)
}

fn is_unknown(response: &CheckResponse) -> bool
    ensures value { result ≡ spec.is_unknown response.now }
{
    matches!(response, CheckResponse::Unknown)
}
