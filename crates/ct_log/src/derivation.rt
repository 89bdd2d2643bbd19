//! Derivations: records whose lines are all accepted.
ghost use Rattle.std.specs.Prelude.{◌≡◌, [], ◌∷◌, ◌++◌, OnOk, OnErr, IfErr};
ghost use Rattle.ct_log.specs.Acceptance.{IsAccepted, clauses_of};
ghost use Rattle.ct_log.specs.Recorded.{AreJudges, IsDerivation};

use crate::error::LogError;
use crate::judges::Judges;
use crate::line::Line;
use crate::lines::Record;
use ct_card::Sizes;
use ct_sorts::Signature;
use ct_terms::{TermId, TermTable};
use std::alloc::Global;
use std::marker::Model;

/// A record over a signature, its sizes and assertions, every line of which is accepted after those before it.
#[derive(Drop)]
pub struct Derivation {
    judges: Judges,
    rec: Record,
    asserts: Vec<TermId>,
}

impl Model for Derivation {
    ghost use Rattle.ct_log.specs.Recorded.{Derived, IsDerivation};

    ghost Value = { Derived };

    ghost use Rattle.std.specs.Coded.{codes};
    ghost use Rattle.ct_sorts.specs.ExpressionCode.{coded_expression};

    ghost coded = { Prim.hlevel (codes, coded_expression) };

    ghost view = { λ stored. record { declarations = stored.judges.declarations; sizes = stored.judges.sizes; rec = stored.rec; asserts = stored.asserts.items } };

    ghost invariant = { λ stored. IsDerivation (record { declarations = stored.judges.declarations; sizes = stored.judges.sizes; rec = stored.rec; asserts = stored.asserts.items }) };
}

impl Derivation {
    /// A derivation without lines. It keeps nothing of the signature and the sizes. Takes no memory.
    pub fn new(
        alloc: Global,
        sig: &Signature,
        sizes: &Sizes,
        table: TermTable,
        asserts: Vec<TermId>,
    ) -> Derivation
        requires judges { AreJudges sig.now sizes.now table asserts.items }
        ensures begun { result ≡ record { declarations = sig.now; sizes = sizes.now; rec = record { terms = table; lines = [] }; asserts = asserts.items } }
    {
        Derivation {
            judges: Judges::of(sig, sizes),
            rec: Record::new(table, Vec::new(alloc)),
            asserts,
        }
    }

    /// Appends a line that is accepted after the others. Its only error is out of memory, which changes nothing.
    pub fn push(&mut self, line: Line) -> Result<(), LogError>
        requires accepted { IsAccepted self.old.declarations self.old.rec.terms self.old.asserts (clauses_of self.old.rec.lines) line }
        ensures ok { OnOk result (self.new ≡ record self.old { rec = record self.old.rec { lines = self.old.rec.lines ++ line ∷ [] } }) }
        ensures err { IfErr result (λ e. e ≡ LogError.NoMemory) }
        ensures refused { OnErr result (self.new ≡ self.old) }
    {
        self.rec.push(line)?;
        Ok(())
    }

    /// Moves all lines out, so that others may follow. Takes no memory.
    pub fn take_lines(&mut self, alloc: Global) -> Vec<Line>
        ensures lines { result.items ≡ self.old.rec.lines }
        ensures none { self.new ≡ record self.old { rec = record self.old.rec { lines = [] } } }
        ensures derivation { IsDerivation self.old }
    {
        self.rec.take_lines(alloc)
    }

    /// The terms and the lines. Every line is accepted after those before it.
    pub fn rec(&self) -> &Record
        ensures value { result.now ≡ self.now.rec }
        ensures derivation { IsDerivation self.now }
    {
        &self.rec
    }

    /// The assertions.
    pub fn asserts(&self) -> &[TermId]
        ensures value { result.now ≡ self.now.asserts }
        ensures derivation { IsDerivation self.now }
    {
        self.asserts.as_slice()
    }
}
