//! Texts of models: tables of functions and of wrongly applied selectors, whole models, and terms with their values.
#![tactic(auto)]

mod body;
mod error;
mod model;
mod pairs;
mod table;
mod words;

pub use error::ModelError;
pub use model::model_text;
pub use pairs::value_pairs_text;
pub use table::table_text;
