//! A theorem on the tables of words.
ghost use Rattle.std.specs.Prelude.{◌≡◌, ◌++◌};
ghost use Rattle.ct_words.specs.Words.{command_names, option_names, client_option_names};
ghost use Rattle.ct_command.specs.OptionForms.{options};
ghost use Rattle.ct_command.specs.Reading.{words};
ghost use Rattle.ct_command.specs.Tables.{entries_named};

/// The words that begin commands and the keywords of options are the program's tables of them.
pub fn known_words()
    ensures commands { entries_named words ≡ command_names }
    ensures options { entries_named options ≡ option_names ++ client_option_names }
{}
