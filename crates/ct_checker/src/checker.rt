//! The check of a whole record.
ghost use Rattle.std.specs.Prelude.{◌≡◌, OnOk, OnErr, IfOk, IfErr, MatchOption};
ghost use Rattle.ct_sorts.specs.Consistent.{IsConsistent};
ghost use Rattle.ct_terms.specs.Terms.{AreOrdered, BeginsWithTruths};
ghost use Rattle.ct_eval.specs.declared.interp.Interp.{Interp};
ghost use Rattle.ct_eval.specs.Interpretation.{IsProper};
ghost use Rattle.ct_eval.specs.Truth.{Holds};
ghost use Rattle.ct_log.specs.Acceptance.{Passes};
ghost use Rattle.ct_log.specs.Recorded.{AreJudges};
ghost use Rattle.ct_log.specs.Rooms.{IsRoomOf};
ghost use Rattle.ct_checker.specs.Rejection.{IsRejectedAt};

use crate::error::CheckerError;
use crate::lines::{ends_empty, first_refused};
use crate::reject::{Reject, Why};
use crate::theorems::accepted_lines;
use ct_card::Sizes;
use ct_log::{Record, Room};
use ct_sorts::Signature;
use ct_terms::{TermId, TermTable};
use std::alloc::Global;
use std::marker::Model;

/// A record with what its lines are judged over, and the memory to judge them.
#[derive(Drop)]
pub struct Checker<'a> {
    sig: &'a Signature,
    sizes: &'a Sizes,
    rec: &'a Record,
    asserts: &'a [TermId],
    room: Room,
}

impl<'a> Model for Checker<'a> {
    ghost use Rattle.ct_log.specs.Recorded.{Derived, AreJudges};
    ghost use Rattle.ct_log.specs.Rooms.{IsRoomOf};

    ghost Value = { Derived };

    ghost use Rattle.std.specs.Coded.{codes};
    ghost use Rattle.ct_sorts.specs.ExpressionCode.{coded_expression};

    ghost coded = { Prim.hlevel (codes, coded_expression) };

    ghost view = { λ stored. record { declarations = stored.sig.now; sizes = stored.sizes.now; rec = stored.rec.now; asserts = stored.asserts.now } };

    ghost invariant = { λ stored. AreJudges stored.sig.now stored.sizes.now stored.rec.now.terms stored.asserts.now × IsRoomOf stored.room stored.rec.now.terms stored.rec.now.lines };
}

impl<'a> Checker<'a> {
    /// A checker of the record over the assertions, which takes all memory that the check needs. Its only error is out of
    /// memory.
    pub fn new(
        alloc: Global,
        sig: &'a Signature,
        sizes: &'a Sizes,
        rec: &'a Record,
        asserts: &'a [TermId],
    ) -> Result<Checker<'a>, CheckerError>
        requires judges { AreJudges sig.now sizes.now rec.now.terms asserts.now }
        ensures begun { IfOk result (λ checker. checker ≡ record { declarations = sig.now; sizes = sizes.now; rec = rec.now; asserts = asserts.now }) }
    {
        let room = Room::new(alloc, rec)?;
        Ok(Checker {
            sig,
            sizes,
            rec,
            asserts,
            room,
        })
    }

    /// Whether the record passes: each line is accepted after those before it, and the last has the empty clause. Else an
    /// error names the first line that is not accepted, or the number after the last. Takes no memory, and changes nothing.
    pub fn run(&mut self) -> Result<(), Reject>
        ensures passes { OnOk result (Passes self.old.declarations self.old.rec.terms self.old.asserts self.old.rec.lines) }
        ensures rejected { IfErr result (λ reject. IsRejectedAt self.old.declarations self.old.rec.terms self.old.asserts self.old.rec.lines reject.step reject.why) }
        ensures fails { OnErr result (Passes self.old.declarations self.old.rec.terms self.old.asserts self.old.rec.lines → ⊥) }

        // Where it passes, no proper interpretation makes all assertions true.
        ensures no_model { OnOk result ((i : Interp)
            → IsProper self.old.declarations i
            → Holds self.old.declarations i self.old.rec.terms self.old.asserts
            → ⊥) }
        ensures same { self.new ≡ self.old }
    {
        accepted_lines();
        always(self.sig, self.rec.table());
        if let Some(reject) = judged(self.sig, self.sizes, self.rec, self.asserts, &mut self.room) {
            return Err(reject);
        }
        Ok(())
    }
}

// Where the record does not pass, and why.
fn judged(
    sig: &Signature,
    sizes: &Sizes,
    rec: &Record,
    asserts: &[TermId],
    room: &mut Room,
) -> Option<Reject>
    requires judges { AreJudges sig.now sizes.now rec.now.terms asserts.now }
    requires room { IsRoomOf room.old rec.now.terms rec.now.lines }
    ensures judged { MatchOption result
        (Passes sig.now rec.now.terms asserts.now rec.now.lines)
        (λ reject. IsRejectedAt sig.now rec.now.terms asserts.now rec.now.lines reject.step reject.why) }
    ensures room { room.new ≡ room.old }
{
    let lines = rec.lines();
    match first_refused(sig, sizes, rec, asserts, room) {
        Some(index) => Some(Reject {
            step: index + 1,
            why: Why::Step,
        }),
        None => {
            if ends_empty(lines) {
                return None;
            }
            Some(Reject {
                step: lines.len() as u64 + 1,
                why: Why::NoEmptyClause,
            })
        }
    }
}

// What always holds of a signature and of a table.
fn always(sig: &Signature, table: &TermTable)
    ensures consistent { IsConsistent sig.now }
    ensures ordered { AreOrdered table.now }
    ensures begins { BeginsWithTruths table.now }
{
    prove!(sig.sorts() > 0);
    prove!(table.len() <= 400_000);
}
