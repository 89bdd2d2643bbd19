//! The arguments of a term, which contracts see as a list.

ghost use Rattle.std.specs.Prelude.{◌≡◌, [], ◌∷◌, ◌++◌, OnOk, OnErr, IfOk};
ghost use Rattle.std.specs.Cmp.{partial_equiv_from_equiv};
ghost use Rattle.ct_terms.specs.Args.{same_ids, same_ids_equiv, mix, digest_from, hashed_ids, hashed_ids_alike};

use crate::ids::TermId;
use smallvec::SmallVec;
use std::alloc::{AllocError, Global};
use std::hash::{Hash, Hasher};
use std::marker::Model;

// An odd number without a pattern: 2 to the power of 64 over the golden ratio.
const MULTIPLIER: u64 = 0x9e37_79b9_7f4a_7c15;

/// The arguments of a term, in order. Up to two take no memory of their own. Clauses see a list.
#[derive(Debug, Drop)]
pub struct Args {
    terms: SmallVec<TermId, 2>,
}

impl Model for Args {
    ghost use Rattle.std.specs.Prelude.{List};
    ghost use Rattle.ct_terms.specs.declared.ids.TermId.{TermId};

    ghost Value = { List TermId };

    ghost view = { λ args. args.terms.items };
}

impl Args {
    /// No arguments. Takes no memory.
    pub fn new(alloc: Global) -> Args
        ensures empty { result ≡ [] }
    {
        Args {
            terms: SmallVec::new(alloc),
        }
    }

    /// Appends an argument. An error changes nothing.
    pub fn push(&mut self, term: TermId) -> Result<(), AllocError>
        ensures ok { OnOk result (self.new ≡ self.old ++ term ∷ []) }
        ensures err { OnErr result (self.new ≡ self.old) }
    {
        self.terms.push(term)?;
        Ok(())
    }

    /// Equal arguments. Its only error is out of memory.
    pub fn copy(&self) -> Result<Args, AllocError>
        ensures ok { IfOk result (λ args. args ≡ self.now) }
    {
        Ok(Args {
            terms: SmallVec::from_slice(*self.terms.allocator(), self.terms.as_slice())?,
        })
    }

    /// The arguments.
    pub fn as_slice(&self) -> &[TermId]
        ensures value { result.now ≡ self.now }
    {
        self.terms.as_slice()
    }
}

impl PartialEq for Args {
    ghost eq = { same_ids };

    ghost laws = { partial_equiv_from_equiv same_ids_equiv };

    fn eq(&self, other: &Args) -> bool {
        self.as_slice() == other.as_slice()
    }
}

impl Eq for Args {
    ghost laws = { same_ids_equiv };
}

impl Hash for Args {
    ghost hash_input = { hashed_ids };

    ghost respects_eq = { hashed_ids_alike };

    fn hash<H: Hasher>(&self, state: &mut H) {
        state.write_u64(digest_from(1, self.as_slice()));
    }
}

// The digest after each of these terms was mixed in, in their order.
pub(crate) fn digest_from(digest: u64, terms: &[TermId]) -> u64
    ensures value { result ≡ digest_from digest terms.now }
{
    let mut sum = digest;
    let mut rest = terms;
    while let [t, others @ ..] = rest {
        sum = mix(sum, t.0);
        rest = others;
    }
    sum
}

// The digest after one more number was mixed in. No two numbers take one digest to the same result, and the digest is not a
// polynomial, for which lists with one digest are easily found.
#[tactic(auto, unfolding(crate::specs::Args::mix))]
pub(crate) fn mix(digest: u64, number: u32) -> u64
    ensures value { result ≡ mix digest number }
{
    let added = digest.wrapping_add(number as u64 + 1);
    (added ^ (added >> 32)).wrapping_mul(MULTIPLIER)
}
