//! Synonyms: what a name with parameters stands for.
ghost use Rattle.std.specs.Prelude.{◌≡◌, ◌≤◌, ℕ, Ok, Err, IfErr, IsErrOf, OnOk, OnErr};
ghost use Rattle.ct_generics.specs.Expression.{Expression};
ghost use Rattle.ct_generics.specs.Declarations.{Declared, Synonym};
ghost use Rattle.ct_generics.specs.Names.{IsListed};
ghost use Rattle.ct_generics.specs.Resolved.{resolved};
ghost use Rattle.ct_generics.specs.Text.{text_length, most_text};
ghost use Rattle.ct_generics.specs.Stored.{AreDeclared, IsStoredSynonym};
ghost use Rattle.ct_generics.specs.Synonyms.{IsSynonymRefusal, with_synonym};

use crate::error::GenericError;
use crate::expr::SortExpr;
use crate::generics::Generics;
use crate::heads::StoredSynonym;
use crate::name::Name;
use crate::nodes::Expressions;
use crate::resolution::resolve;
use crate::text::{is_long, text_lengths};
use std::alloc::Global;

/// The text of the body is too long.
const TOO_MANY: u16 = 16;

/// Declares a synonym whose name is new among those of synonyms (SMT-LIB 2.7, section 4.2.3, `define-sort`). It is refused
/// with 12 at an unknown name and with 22 at a wrong number of arguments in its body, by place, and then with 16 where the
/// text of the body is longer than 65,536 bytes.
pub fn add_synonym(
    alloc: Global,
    g: &mut Generics,
    name: &Name,
    params: u64,
    body: &SortExpr,
) -> Result<(), GenericError>
    requires declared { (d : Declared) × AreDeclared g.old d }
    requires fresh { IsListed g.old.synonym_names name.now → ⊥ }
    ensures ok { OnOk result ((d : Declared) → AreDeclared g.old d → (e : Expression) × (resolved d body.now ≡ Ok e)
        × (text_length d.heads e ≤ most_text)
        × AreDeclared g.new (with_synonym d (record { name = name.now; params = params; body = e }))) }
    ensures refused { (n : ℕ) (d : Declared) → IsErrOf result (GenericError.Refused n) → AreDeclared g.old d → IsSynonymRefusal d body.now n }
    ensures unchanged { OnErr result (g.new ≡ g.old) }
{
    let mut template = Expressions::new(alloc);
    let body = resolve(alloc, g, &mut template, body)?;
    let counts = text_lengths(alloc, g.heads.as_slice(), &template)?;
    if is_long(counts.as_slice(), body) {
        return Err(GenericError::Refused(TOO_MANY));
    }
    let name = Name::from_slice(alloc, name.as_slice())?;
    store_synonym(
        alloc,
        g,
        StoredSynonym {
            name,
            params,
            template,
            body,
        },
    )
}

// Stores a synonym whose name is new. The only error is `NoMemory`.
fn store_synonym(
    alloc: Global,
    g: &mut Generics,
    synonym: StoredSynonym,
) -> Result<(), GenericError>
    requires fresh { IsListed g.old.synonym_names synonym.name → ⊥ }
    ensures ok { OnOk result ((d : Declared) (s : Synonym) → AreDeclared g.old d → IsStoredSynonym synonym s → AreDeclared g.new (with_synonym d s)) }
    ensures unchanged { OnErr result (g.new ≡ g.old) }
    ensures err { IfErr result (λ e. e ≡ GenericError.NoMemory) }
{
    let first = g.synonyms.len();
    let listed = Name::from_slice(alloc, synonym.name.as_slice())?;
    g.synonyms.push(synonym)?;
    match g.synonym_names.push(listed) {
        Ok(()) => Ok(()),
        Err(error) => {
            g.synonyms.truncate(first);
            Err(error)
        }
    }
}
