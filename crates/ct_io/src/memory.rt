//! Desks and sinks in memory: two that fail on request, and two that never fail.

mod calls;
mod desk;
mod sink;
mod steady_desk;
mod steady_sink;
mod store;

pub use desk::DeskInMemory;
pub use sink::SinkInMemory;
pub use steady_desk::SteadyDesk;
pub use steady_sink::SteadySink;
