//! Whether a line is accepted after others.
ghost use Rattle.std.specs.Prelude.{◌≡◌, ◌↔◌, ◌<◌, ◌≤◌, ◌+◌, ◌*◌, [], ◌∷◌, length, take, All, Contains, Some, slice_get, IfOk, IfErr, IfSome, IfNone, IsTrue};
ghost use Rattle.ct_terms.specs.Literal.{literal_of, IsStripped};
ghost use Rattle.ct_terms.specs.Clause.{opposites};
ghost use Rattle.ct_terms.specs.Terms.{IsBoolean};
ghost use Rattle.ct_log.specs.declared.line.Line.{Line};
ghost use Rattle.ct_terms.specs.Propagation.{Rup};
ghost use Rattle.ct_card.specs.Sizes.{AreSizes};
ghost use Rattle.ct_log.specs.Acceptance.{IsAccepted, IsRefuted, clauses_of};
ghost use Rattle.ct_log.specs.Marks.{AreMarked};
ghost use Rattle.ct_log.specs.Recorded.{AreJudges};
ghost use Rattle.ct_log.specs.Rooms.{IsRoomOf, HasRoomFor};

use crate::error::LogError;
use crate::exhaust::is_exhaustion;
use crate::gate::is_gate_clause;
use crate::line::{Line, Step};
use crate::lines::Record;
use crate::look::signed;
use crate::marks::Marks;
use crate::places::Places;
use crate::propagation::follows;
use crate::room::{Room, size_of};
use crate::rules::{Close, EqStep};
use crate::theory::is_refuted;
use ct_card::Sizes;
use ct_sorts::{Signature, SortId};
use ct_terms::{Core, Lit, TermId, TermTable};
use std::alloc::Global;

/// The sort of Boolean terms.
const BOOL: SortId = SortId(0);

/// Whether the line is accepted after all lines of the record. It takes room for this one line, so that its cost is linear
/// in the table. Its only error is out of memory.
pub fn accepted(
    alloc: Global,
    sig: &Signature,
    sizes: &Sizes,
    rec: &Record,
    asserts: &[TermId],
    line: &Line,
) -> Result<bool, LogError>
    requires judges { AreJudges sig.now sizes.now rec.now.terms asserts.now }
    ensures exact { IfOk result (λ yes. IsTrue yes ↔ IsAccepted sig.now rec.now.terms asserts.now (clauses_of rec.now.lines) line.now) }
    ensures err { IfErr result (λ e. e ≡ LogError.NoMemory) }
{
    let mut room = Room::with(alloc, rec.table().len(), size_of(line))?;
    let answer = is_accepted(
        sig,
        sizes,
        rec.table(),
        asserts,
        rec.lines(),
        line,
        &mut room,
    );
    Ok(answer)
}

/// Whether the line of the record at this index is accepted after the lines before it. Takes no memory. Its cost is the
/// length of the line and of the clauses that it names; beside these, each assertion is gone over once in all, an
/// `input` line that is refused since its term is no assertion goes over all of them once more, and an expansion costs
/// the fields of its constructor.
pub fn accepted_at(
    sig: &Signature,
    sizes: &Sizes,
    rec: &Record,
    asserts: &[TermId],
    at: u64,
    room: &mut Room,
) -> bool
    requires judges { AreJudges sig.now sizes.now rec.now.terms asserts.now }
    requires within { at < length rec.now.lines }
    requires room { IsRoomOf room.old rec.now.terms rec.now.lines }
    ensures exact { (line : Line) → slice_get rec.now.lines at ≡ Some line
        → IsTrue result ↔ IsAccepted sig.now rec.now.terms asserts.now (clauses_of (take at rec.now.lines)) line }
    ensures room { room.new ≡ room.old }
{
    let lines = rec.lines();
    let index = at as usize;
    is_accepted(
        sig,
        sizes,
        rec.table(),
        asserts,
        &lines[..index],
        &lines[index],
        room,
    )
}

/// Whether the line is accepted after the earlier ones, using working memory that is reused from line to line. Takes no
/// memory. Its cost is the length of the line and of the clauses that it names, as that of `accepted_at`.
pub fn is_accepted(
    sig: &Signature,
    sizes: &Sizes,
    table: &TermTable,
    asserts: &[TermId],
    earlier: &[Line],
    line: &Line,
    room: &mut Room,
) -> bool
    requires judges { AreJudges sig.now sizes.now table.now asserts.now }
    requires literals { length table.now * 2 ≤ room.old.literals }
    requires fits { HasRoomFor room.old line.now.step }
    ensures exact { IsTrue result ↔ IsAccepted sig.now table.now asserts.now (clauses_of earlier.now) line.now }
    ensures room { room.new ≡ room.old }
{
    let clause = line.clause.as_slice();
    if !are_stripped(table, clause) {
        return false;
    }
    match &line.step {
        Step::Input(t) => { is_input(table, asserts, *t, clause, &mut room.asserted) }
        Step::Gate(gate, t, place) => is_gate_clause(table, *gate, *t, *place, clause),
        Step::Exhaust(t) => is_exhaustion(sig, table, *t, clause),
        Step::Theory(steps, close) => {
            is_theory(sig, sizes, table, clause, steps.as_slice(), close, room)
        }
        Step::Learn(hints) => is_learned(earlier, clause, hints.as_slice(), room),
    }
}

// Whether the steps give equations that contradict each other, from the opposites of the clause's literals.
fn is_theory(
    sig: &Signature,
    sizes: &Sizes,
    table: &TermTable,
    clause: &[Lit],
    steps: &[EqStep],
    close: &Close,
    room: &mut Room,
) -> bool
    requires sizes { AreSizes sig.now sizes.now }
    requires within { All (λ l. l.term.0 * 2 + 1 < room.old.literals) clause.now }
    requires fits { length steps.now ≤ room.old.equations }
    ensures refuted { IsTrue result ↔ IsRefuted sig.now table.now clause.now steps.now close.now }
    ensures room { room.new ≡ room.old }
{
    mark_opposites(&mut room.marks, clause);
    is_refuted(
        sig,
        sizes,
        table,
        &room.marks,
        steps,
        close,
        &mut room.given,
    )
}

// Whether the clause follows from the lines by the hints.
fn is_learned(earlier: &[Line], clause: &[Lit], hints: &[u64], room: &mut Room) -> bool
    requires within { All (λ l. l.term.0 * 2 + 1 < room.old.literals) clause.now }
    requires fits { length hints.now ≤ room.old.others }
    ensures follows { IsTrue result ↔ Rup (clauses_of earlier.now) hints.now clause.now }
    ensures room { room.new ≡ room.old }
{
    mark_opposites(&mut room.marks, clause);
    follows(earlier, hints, &mut room.marks)
}

// Whether all literals are over Boolean terms of the table that are no negations.
fn are_stripped(table: &TermTable, clause: &[Lit]) -> bool
    ensures stripped { IsTrue result ↔ All (λ l. IsStripped table.now l.term) clause.now }
{
    for l in clause {
        if !is_stripped(table, l.term) {
            return false;
        }
    }
    true
}

// Whether this is a Boolean term of the table that is no negation.
fn is_stripped(table: &TermTable, t: TermId) -> bool
    ensures stripped { IsTrue result ↔ IsStripped table.now t }
{
    if t.0 >= table.len() || table.sort(t) != BOOL {
        return false;
    }
    match table.core(t) {
        Core::Not(_) => false,
        _ => true,
    }
}

// Whether the clause is the literal of the assertion.
fn is_input(
    table: &TermTable,
    asserts: &[TermId],
    t: TermId,
    clause: &[Lit],
    places: &mut Places,
) -> bool
    requires booleans { All (IsBoolean table.now) asserts.now }
    ensures input { IsTrue result ↔ (Contains asserts.now t × (clause.now ≡ literal_of table.now t ∷ [])) }
{
    if !places.is_found(asserts, t) {
        return false;
    }
    match clause {
        [l] => *l == table.lit(t),
        [] => false,
        [_, _, ..] => false,
    }
}

// Marks the opposites of the clause's literals, and nothing else.
fn mark_opposites(marks: &mut Marks, clause: &[Lit])
    requires within { All (λ l. l.term.0 * 2 + 1 < length marks.old.stamps) clause.now }
    ensures marked { AreMarked marks.new (opposites clause.now) }
    ensures stamps { length marks.new.stamps ≡ length marks.old.stamps }
    ensures others { marks.new.others ≡ [] }
    ensures room { marks.new.room ≡ marks.old.room }
{
    marks.clear();
    for l in clause {
        marks.mark(signed(false, *l));
    }
}
