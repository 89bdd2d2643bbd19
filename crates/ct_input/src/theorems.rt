//! Theorems on commands that come in pieces, and on the parts of expressions.

ghost use Rattle.std.specs.Prelude.{◌≡◌, List, ℕ, ◌<◌, ◌++◌, length, Some};
ghost use Rattle.ct_sexpr.specs.Expression.{Expression, tokens_of};
ghost use Rattle.ct_sexpr.specs.Token.{AreTokens};
ghost use Rattle.ct_sexpr.specs.Reading.{BeginsCommand, HasNoCommand};
ghost use Rattle.ct_input.specs.Parts.{part_of, StandsAt};

/// Theorem: if bytes begin with no complete command, and a piece after them completes one, fewer bytes follow the
/// command than the piece has. The function does nothing.
pub fn last_piece()
    ensures ends_in_piece { (bytes piece : List ℕ) (e : Expression) (rest : List ℕ) → HasNoCommand bytes → BeginsCommand (bytes ++ piece) e rest → length rest < length piece }
{}

/// Each part of an expression stands somewhere in the bytes with which the expression begins, and is what is read there. The function
/// does nothing.
pub fn parts_stand()
    ensures part_stands { (e part : Expression) (path bytes rest : List ℕ) → AreTokens (tokens_of e) bytes rest → part_of e path ≡ Some part
        → (from : List ℕ) × (end : List ℕ) × StandsAt e path bytes from end × AreTokens (tokens_of part) from end }
{}
