//! The theorem about printed models. It is the contract of a function that does nothing.
ghost use Rattle.std.specs.Prelude.{◌≡◌, ℕ, ◌≤◌, List, []};
ghost use Rattle.ct_sorts.specs.Declarations.{Declarations};
ghost use Rattle.ct_sorts.specs.Consistent.{IsConsistent};
ghost use Rattle.ct_sexpr.specs.Expression.{Expression, Expressions, list, nesting};
ghost use Rattle.ct_sexpr.specs.Written.{canonical};
ghost use Rattle.ct_sexpr.specs.Readable.{IsReadable};
ghost use Rattle.ct_sexpr.specs.Spaced.{IsSpaced};
ghost use Rattle.ct_sexpr.specs.Reading.{BeginsCommand, nesting_limit};
ghost use Rattle.ct_eval.specs.declared.interp.Interp.{Interp};
ghost use Rattle.ct_eval.specs.Interpretation.{IsProper};
ghost use Rattle.ct_card.specs.Sizes.{Table as Sizes};
ghost use Rattle.ct_model.specs.ModelText.{IsModelText};
ghost use Rattle.ct_readback.specs.Printed.{IsInRange, ReadsBack};

use ct_sexpr::written_texts;

/// The theorem on models that `get-model` printed (SMT-LIB 2.7, section 4.2.6). It does nothing: a proof that needs it calls it.
pub fn printed_models()
    // The text of a model is that of one expression, which reads back; and where its parentheses nest no deeper than a reader takes, it is
    // read as that expression.
    ensures written { (d : Declarations) (sizes : Sizes) (i : Interp) (text : List ℕ)
        → IsConsistent d
        → IsProper d i
        → IsInRange d i
        → IsModelText d i text
        → (es : Expressions) × IsReadable (list es) × IsSpaced (list es) text
        × ReadsBack d sizes i (canonical (list es))
        × (nesting (list es) ≤ nesting_limit → BeginsCommand text (canonical (list es)) []) }

    // Whatever is read of the text, as a whole, reads back.
    ensures read { (d : Declarations) (sizes : Sizes) (i : Interp) (text : List ℕ) (e : Expression)
        → IsConsistent d
        → IsProper d i
        → IsInRange d i
        → IsModelText d i text
        → BeginsCommand text e []
        → ReadsBack d sizes i e }
{
    written_texts();
}
