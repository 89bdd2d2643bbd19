//! Parses a text that must be a single expression, such as a derivation or a model.
ghost use Rattle.std.specs.Prelude.{◌≡◌, ◌∷◌, true, List, option_map, IfOk};
ghost use Rattle.ct_sexpr.specs.Text.{Located, Ending, Reads};
ghost use Rattle.ct_sexpr.specs.View.{expression_of};
ghost use Rattle.ct_replay.specs.One.{one_expression};

use crate::error::ReplayError;
use ct_sexpr::{Next, ReadError, Reader, Sexpr, one_text};

/// The expression that the text is, if it is one and nothing else.
pub fn one_expression(reader: &mut Reader) -> Result<Option<Sexpr>, ReplayError>
    requires ended { reader.old.ended ≡ true }
    ensures read { IfOk result (λ expr. (commands : List Located) × (ending : Ending) × Reads reader.old.line reader.old.bytes commands ending
        × (one_expression commands ending ≡ option_map expression_of expr)) }
{
    one_text();
    match reader.next() {
        Ok(Next::Command { expr, .. }) => alone(reader, expr),
        Ok(Next::Need) => unreachable!(),
        Ok(Next::End) => Ok(None),
        Err(ReadError::Lexical { .. }) => Ok(None),
        Err(ReadError::NoMemory) => Err(ReplayError),
    }
}

// The expression, where nothing comes after it.
fn alone(reader: &mut Reader, expr: Sexpr) -> Result<Option<Sexpr>, ReplayError>
    requires ended { reader.old.ended ≡ true }
    ensures read { IfOk result (λ alone. (first : Located) → first.command ≡ expression_of expr
        → (commands : List Located) × (ending : Ending) × Reads reader.old.line reader.old.bytes commands ending
        × (one_expression (first ∷ commands) ending ≡ option_map expression_of alone)) }
{
    one_text();
    match reader.next() {
        Ok(Next::Command { .. }) => Ok(None),
        Ok(Next::Need) => unreachable!(),
        Ok(Next::End) => Ok(Some(expr)),
        Err(ReadError::Lexical { .. }) => Ok(None),
        Err(ReadError::NoMemory) => Err(ReplayError),
    }
}
