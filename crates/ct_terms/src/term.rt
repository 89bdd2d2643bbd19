//! Core terms, with one variant for each kind of term.

ghost use Rattle.std.specs.Prelude.{◌≡◌, ◌<◌, ◌^◌, IfOk};
ghost use Rattle.ct_terms.specs.Core.{head, core_digest, hashed_core, hashed_core_alike};

use crate::args::{Args, digest_from, mix};
use crate::ids::TermId;
use ct_sorts::{CtorId, FunId, SelId};
use std::alloc::AllocError;
use std::hash::{Hash, Hasher};

/// A term over the numbers of the terms right under it.
#[derive(Debug, Drop, PartialEq, Eq)]
pub enum Core {
    /// A constructor with its arguments, one a selector.
    Con(CtorId, Args),
    /// A field of a term, by its selector. Of a term of another constructor its value is free.
    Sel(SelId, TermId),
    /// Whether the term is built by the constructor.
    Test(CtorId, TermId),
    /// A function with its arguments; a constant has none.
    Apply(FunId, Args),
    /// Whether two terms of one sort other than Bool are equal.
    Eq(TermId, TermId),
    /// The negation of a Boolean term.
    Not(TermId),
    /// The conjunction of one or more Boolean terms.
    And(Args),
    /// The disjunction of one or more Boolean terms.
    Or(Args),
    /// Whether two Boolean terms have one value.
    Iff(TermId, TermId),
    /// The second where the first, which is Boolean, holds, and else the third, both of one sort.
    Ite(TermId, TermId, TermId),
}

impl Core {
    /// An equal term. Its only error is out of memory.
    pub fn copy(&self) -> Result<Core, AllocError>
        ensures ok { IfOk result (λ core. core ≡ self.now) }
    {
        match self {
            Core::Con(c, args) => Ok(Core::Con(*c, args.copy()?)),
            Core::Sel(s, t) => Ok(Core::Sel(*s, *t)),
            Core::Test(c, t) => Ok(Core::Test(*c, *t)),
            Core::Apply(f, args) => Ok(Core::Apply(*f, args.copy()?)),
            Core::Eq(a, b) => Ok(Core::Eq(*a, *b)),
            Core::Not(t) => Ok(Core::Not(*t)),
            Core::And(args) => Ok(Core::And(args.copy()?)),
            Core::Or(args) => Ok(Core::Or(args.copy()?)),
            Core::Iff(a, b) => Ok(Core::Iff(*a, *b)),
            Core::Ite(c, a, b) => Ok(Core::Ite(*c, *a, *b)),
        }
    }
}

impl Hash for Core {
    ghost hash_input = { hashed_core };

    ghost respects_eq = { hashed_core_alike };

    fn hash<H: Hasher>(&self, state: &mut H) {
        state.write_u64(digest(self));
    }
}

// The term as one number, which is the same for equal ones: one number is hashed in place of each field.
fn digest(core: &Core) -> u64
    ensures value { result ≡ core_digest core.now }
{
    match core {
        Core::Con(c, args) => digest_from(head(0, c.0), args.as_slice()),
        Core::Sel(s, t) => mix(head(1, s.0), t.0),
        Core::Test(c, t) => mix(head(2, c.0), t.0),
        Core::Apply(f, args) => digest_from(head(3, f.0), args.as_slice()),
        Core::Eq(a, b) => mix(mix(4, a.0), b.0),
        Core::Not(t) => mix(5, t.0),
        Core::And(args) => digest_from(6, args.as_slice()),
        Core::Or(args) => digest_from(7, args.as_slice()),
        Core::Iff(a, b) => mix(mix(8, a.0), b.0),
        Core::Ite(c, a, b) => mix(mix(mix(9, c.0), a.0), b.0),
    }
}

// The kind of a term with its symbol.
fn head(kind: u64, symbol: u32) -> u64
    requires few { kind < 16 }
    ensures value { result ≡ head kind symbol }
{
    symbol as u64 * 16 + kind
}
