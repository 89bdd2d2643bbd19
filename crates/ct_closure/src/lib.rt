//! The closure of a script's assertions: all terms that a search for a model refers to.
#![tactic(auto)]

mod add;
mod cases;
mod closure;
mod error;
mod facts;
mod further;
mod listing;
mod steps;
mod theorems;

pub use closure::{Closure, close};
pub use error::CloseError;
pub use further::close_further;
pub use theorems::{closed_beginnings, closed_tables, nothing_closed};
