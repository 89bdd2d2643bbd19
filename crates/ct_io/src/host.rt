//! The trusted edge: the files, the standard input and the standard output of the process.

mod desk;
mod faults;
mod sink;
mod sources;

pub use desk::HostDesk;
pub use sink::HostSink;
