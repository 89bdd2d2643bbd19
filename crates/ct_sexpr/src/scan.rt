//! Reads as many bytes as belong to the next command.

ghost use Rattle.std.specs.Prelude.{◌≡◌, ◌+◌, ◌<◌, ◌≤◌, ◌^◌, length, drop};
ghost use Rattle.ct_sexpr.specs.Scanning.{Scans, Takes};

use crate::error::ReadError;
use crate::scanner::{ScanStep, Scanner};

/// What reading many bytes gave.
#[derive(Drop)]
pub(crate) struct Scanned {
    /// How many of the bytes were read.
    pub(crate) count: usize,
    /// What stopped the scan; it is `Going` where nothing did, so that all bytes were read.
    pub(crate) outcome: Result<ScanStep, ReadError>,
}

/// Reads bytes until a command is complete, an error is definite, memory runs out or none is left.
pub(crate) fn scan_bytes(scanner: &mut Scanner, bytes: &[u8]) -> Scanned
    requires few { scanner.old.line_feeds + length bytes.now < 2 ^ 64 }
    ensures within { result.count ≤ length bytes.now }
    ensures takes { Takes (length bytes.now) result.count result.outcome }
    ensures scans { Scans scanner.old scanner.new bytes.now (drop result.count bytes.now) result.outcome }
{
    for (index, byte) in bytes.iter().enumerate() {
        match scanner.step(*byte) {
            Ok(ScanStep::Going) => {}
            Ok(ScanStep::Command(command)) => {
                return Scanned {
                    count: index + 1,
                    outcome: Ok(ScanStep::Command(command)),
                };
            }
            Ok(ScanStep::Wrong(code)) => {
                return Scanned {
                    count: index,
                    outcome: Ok(ScanStep::Wrong(code)),
                };
            }
            Err(error) => {
                return Scanned {
                    count: index,
                    outcome: Err(error),
                };
            }
        }
    }
    Scanned {
        count: bytes.len(),
        outcome: Ok(ScanStep::Going),
    }
}
