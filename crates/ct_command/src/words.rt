//! The words of the commands.
ghost use Rattle.std.specs.Prelude.{◌≡◌};
ghost use Rattle.ct_command.specs.Tables.{beside};
ghost use Rattle.ct_command.specs.Reading.{words, setting_words, sort_words, function_words, session_words, answer_words, unsupported_words, last_words};

/// The word of a command.
#[derive(Clone, Copy, Debug, PartialEq, Eq)]
pub enum Word {
    /// `set-logic`.
    SetLogic,
    /// `set-option`.
    SetOption,
    /// `get-option`.
    GetOption,
    /// `set-info`.
    SetInfo,
    /// `get-info`.
    GetInfo,
    /// `declare-sort`.
    DeclareSort,
    /// `define-sort`.
    DefineSort,
    /// `declare-datatype`.
    DeclareDatatype,
    /// `declare-codatatype`.
    DeclareCodatatype,
    /// `declare-datatypes`.
    DeclareDatatypes,
    /// `declare-codatatypes`.
    DeclareCodatatypes,
    /// `declare-const`.
    DeclareConst,
    /// `declare-fun`.
    DeclareFun,
    /// `define-fun`.
    DefineFun,
    /// `define-const`.
    DefineConst,
    /// `assert`.
    Assert,
    /// `check-sat`.
    CheckSat,
    /// `check-sat-assuming`.
    CheckSatAssuming,
    /// `push`.
    Push,
    /// `pop`.
    Pop,
    /// `reset-assertions`.
    ResetAssertions,
    /// `reset`.
    Reset,
    /// `get-model`.
    GetModel,
    /// `get-value`.
    GetValue,
    /// `get-proof`.
    GetProof,
    /// `get-unsat-core`.
    GetUnsatCore,
    /// `get-unsat-assumptions`.
    GetUnsatAssumptions,
    /// `echo`.
    Echo,
    /// `exit`.
    Exit,
    /// A word that is answered `unsupported`, whatever follows.
    Unsupported,
}

/// The command that a word begins.
pub(crate) fn known_word(word: &[u8]) -> Option<Word>
    ensures value { result ≡ beside words word.now }
{
    if let Some(known) = setting_word(word) {
        return Some(known);
    }
    if let Some(known) = sort_word(word) {
        return Some(known);
    }
    if let Some(known) = function_word(word) {
        return Some(known);
    }
    if let Some(known) = session_word(word) {
        return Some(known);
    }
    if let Some(known) = answer_word(word) {
        return Some(known);
    }
    if let Some(known) = unsupported_word(word) {
        return Some(known);
    }
    last_word(word)
}

// A word that sets or asks for options and infos.
fn setting_word(word: &[u8]) -> Option<Word>
    ensures value { result ≡ beside setting_words word.now }
{
    if b"set-logic".as_slice() == word {
        return Some(Word::SetLogic);
    }
    if b"set-option".as_slice() == word {
        return Some(Word::SetOption);
    }
    if b"get-option".as_slice() == word {
        return Some(Word::GetOption);
    }
    if b"set-info".as_slice() == word {
        return Some(Word::SetInfo);
    }
    if b"get-info".as_slice() == word {
        return Some(Word::GetInfo);
    }
    None
}

// A word that declares sorts.
fn sort_word(word: &[u8]) -> Option<Word>
    ensures value { result ≡ beside sort_words word.now }
{
    if b"declare-sort".as_slice() == word {
        return Some(Word::DeclareSort);
    }
    if b"define-sort".as_slice() == word {
        return Some(Word::DefineSort);
    }
    if b"declare-datatype".as_slice() == word {
        return Some(Word::DeclareDatatype);
    }
    if b"declare-codatatype".as_slice() == word {
        return Some(Word::DeclareCodatatype);
    }
    if b"declare-datatypes".as_slice() == word {
        return Some(Word::DeclareDatatypes);
    }
    if b"declare-codatatypes".as_slice() == word {
        return Some(Word::DeclareCodatatypes);
    }
    None
}

// A word that declares or defines functions.
fn function_word(word: &[u8]) -> Option<Word>
    ensures value { result ≡ beside function_words word.now }
{
    if b"declare-const".as_slice() == word {
        return Some(Word::DeclareConst);
    }
    if b"declare-fun".as_slice() == word {
        return Some(Word::DeclareFun);
    }
    if b"define-fun".as_slice() == word {
        return Some(Word::DefineFun);
    }
    if b"define-const".as_slice() == word {
        return Some(Word::DefineConst);
    }
    None
}

// A word that asserts, checks or changes levels.
fn session_word(word: &[u8]) -> Option<Word>
    ensures value { result ≡ beside session_words word.now }
{
    if b"assert".as_slice() == word {
        return Some(Word::Assert);
    }
    if b"check-sat".as_slice() == word {
        return Some(Word::CheckSat);
    }
    if b"push".as_slice() == word {
        return Some(Word::Push);
    }
    if b"pop".as_slice() == word {
        return Some(Word::Pop);
    }
    if b"reset-assertions".as_slice() == word {
        return Some(Word::ResetAssertions);
    }
    if b"reset".as_slice() == word {
        return Some(Word::Reset);
    }
    None
}

// A word that asks for an answer, or ends the script.
fn answer_word(word: &[u8]) -> Option<Word>
    ensures value { result ≡ beside answer_words word.now }
{
    if b"get-model".as_slice() == word {
        return Some(Word::GetModel);
    }
    if b"get-value".as_slice() == word {
        return Some(Word::GetValue);
    }
    if b"get-proof".as_slice() == word {
        return Some(Word::GetProof);
    }
    if b"echo".as_slice() == word {
        return Some(Word::Echo);
    }
    if b"exit".as_slice() == word {
        return Some(Word::Exit);
    }
    None
}

// A word that is answered `unsupported`.
fn unsupported_word(word: &[u8]) -> Option<Word>
    ensures value { result ≡ beside unsupported_words word.now }
{
    if b"define-fun-rec".as_slice() == word {
        return Some(Word::Unsupported);
    }
    if b"define-funs-rec".as_slice() == word {
        return Some(Word::Unsupported);
    }
    if b"declare-sort-parameter".as_slice() == word {
        return Some(Word::Unsupported);
    }
    if b"get-assertions".as_slice() == word {
        return Some(Word::Unsupported);
    }
    if b"get-assignment".as_slice() == word {
        return Some(Word::Unsupported);
    }
    None
}

// A word that the table of commands has last.
fn last_word(word: &[u8]) -> Option<Word>
    ensures value { result ≡ beside last_words word.now }
{
    if b"check-sat-assuming".as_slice() == word {
        return Some(Word::CheckSatAssuming);
    }
    if b"get-unsat-core".as_slice() == word {
        return Some(Word::GetUnsatCore);
    }
    if b"get-unsat-assumptions".as_slice() == word {
        return Some(Word::GetUnsatAssumptions);
    }
    None
}
