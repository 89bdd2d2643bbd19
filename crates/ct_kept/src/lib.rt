//! A store of theory lemmas from earlier checks, for use in later ones.
#![tactic(auto)]

mod error;
mod kept;
mod lemma;
mod lines;
mod moving;
mod naming;
mod renaming;
mod taking;
mod terms;
mod within;

pub use error::KeptError;
pub use kept::Kept;
pub use lemma::Lemma;
pub use lines::moved_lines;
