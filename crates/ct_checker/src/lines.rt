//! The lines of a record one after the other, and its end.
ghost use Rattle.std.specs.Prelude.{◌≡◌, ◌↔◌, IsTrue, MatchOption};
ghost use Rattle.ct_log.specs.Acceptance.{AreAccepted};
ghost use Rattle.ct_log.specs.Recorded.{AreJudges};
ghost use Rattle.ct_log.specs.Rooms.{IsRoomOf};
ghost use Rattle.ct_checker.specs.Rejection.{IsFirstRefused, EndsEmpty};

use ct_card::Sizes;
use ct_log::{Line, Record, Room, accepted_at};
use ct_sorts::Signature;
use ct_terms::TermId;

/// The index of the first line that is not accepted after those before it. Takes no memory.
pub(crate) fn first_refused(
    sig: &Signature,
    sizes: &Sizes,
    rec: &Record,
    asserts: &[TermId],
    room: &mut Room,
) -> Option<u64>
    requires judges { AreJudges sig.now sizes.now rec.now.terms asserts.now }
    requires room { IsRoomOf room.old rec.now.terms rec.now.lines }
    ensures first { MatchOption result
        (AreAccepted sig.now rec.now.terms asserts.now rec.now.lines)
        (IsFirstRefused sig.now rec.now.terms asserts.now rec.now.lines) }
    ensures room { room.new ≡ room.old }
{
    for index in 0..rec.lines().len() as u64 {
        if !accepted_at(sig, sizes, rec, asserts, index, room) {
            return Some(index);
        }
    }
    None
}

/// Whether there is a last line and its clause is empty.
pub(crate) fn ends_empty(lines: &[Line]) -> bool
    ensures ends { IsTrue result ↔ EndsEmpty lines.now }
{
    if lines.is_empty() {
        return false;
    }
    lines[lines.len() - 1].clause.len() == 0
}
