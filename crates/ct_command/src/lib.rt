//! Recognises the commands of scripts by their form, before any name in them is looked up.
//!
//! Design choices:
//!
//! **The form first.** `ct_command` recognises commands before any name is looked up, so errors 56 and 57 come before all
//! others. A command begins with a simple symbol: `(|exit|)` has no form and is error 57. A word of the standard that the
//! solver does not support is a command that is answered `unsupported`, whatever follows it; so is an unknown option or info of
//! the right form. A word that is no command is error 56, as in `(let)`. A reserved word in the place of a name is a wrong
//! form, as in `(set-logic let)`. The value of a Boolean option is a name, so `|true|` is `true`.
//!
//! **One command for two words.** `declare-const` is `declare-fun` without arguments, `define-const` is `define-fun` without
//! parameters, and `declare-datatype` is a block of one sort.
#![tactic(auto)]

mod block;
mod command;
mod error;
mod forms;
mod items;
mod labels;
mod option;
mod read;
mod settings;
mod theorems;
mod words;

pub use command::{Body, Command, Constructor, Family, Named, SortHead};
pub use error::CommandError;
pub use items::name_of;
pub use option::{BooleanOption, Channel, ErrorBehavior, Info, NumeralOption, OptionName, Setting};
pub use read::command_of;
pub use theorems::known_words;
