//! Input and output: desks that provide bytes, sinks that take them, and the exit status of the program.
//!
//! Design choices:
//!
//! **Faults.** A fault is reported only if a count of 64 bits rose. A count at its last value cannot rise, and a fault may then
//! be reported too (`Rose`). Every answer that is not a fault leaves the count unchanged, out of memory included. A status that
//! is not a fault therefore says that no call failed, unless the count was at its last value. No clause says that a run that
//! ends with a fault met only one. The host reports every error of the operating system as a fault; a write that takes nothing
//! is one too.
//!
//! **The count of a host write.** The kit says of a host write only that its result is at most the length of the piece, and a
//! clause cannot name a result produced inside a body. The clauses are therefore on the private `settle`, to which `write`
//! passes the result. That `write` passes on this result is read, not proved.
//!
//! **Calls in memory.** `DeskInMemory` and `SinkInMemory` number their calls from 0, so a test can choose which ones fail.
//! There is no next number once 64 bits no longer hold it. A write that finds no memory counts as a call. `DeskInMemory`
//! reveals nothing about a name without a file, and opening it fails; `SteadyDesk` has an empty file there. Of two files with
//! one name the first counts.
#![tactic(auto)]

mod desk;
mod host;
mod memory;
mod sink;
mod status;
mod text;

pub use desk::{Desk, DeskError, Slot};
pub use host::{HostDesk, HostSink};
pub use memory::{DeskInMemory, SinkInMemory, SteadyDesk, SteadySink};
pub use sink::{Sink, SinkError, write_all};
pub use status::Status;
pub use text::Text;
