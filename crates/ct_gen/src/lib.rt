//! The script of the program's own benchmark: pairs of streams that end in themselves.
#![tactic(auto)]

mod error;
mod script;

pub use error::GenError;
pub use script::gen_script;
