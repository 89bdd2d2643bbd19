//! Paths down through layers: to an uninterpreted sort, to a value that was made before, or until nothing of the number is left.
ghost use Rattle.std.specs.Prelude.{◌≡◌, ◌<◌, false, length, Some, None, IfOk, IsTrue};
ghost use Rattle.std.specs.Bool.{OnFalse};
ghost use Rattle.ct_card.specs.Cardinality.{IsInfinite};
ghost use Rattle.ct_card.specs.Departures.{AreLayers};
ghost use Rattle.ct_values.specs.declared.node.NodeId.{NodeId};
ghost use Rattle.ct_card.specs.Descent.{LeavesDigit, LeavesLess, LeadsTo, EndsAt, LeadsDown, HasComeDown, IsStepDown};
ghost use Rattle.ct_card.specs.Made.{IsMade};

use crate::defaults::is_free;
use crate::departure::{Departure, Layer, Step};
use crate::error::CardError;
use crate::made::{Made, find_made};
use ct_sorts::{Signature, SortId, structure};
use ct_values::NodeId;
use std::alloc::Global;

/// Which value is wanted: its sort, its number, and whether it is the turn of a digit, as which a layer is read then that can
/// depart by a field alone.
#[derive(Clone, Copy, Debug)]
pub(crate) struct Wanted {
    pub(crate) sort: usize,
    pub(crate) number: u64,
    pub(crate) turn: bool,
}

/// A layer that was passed: its sort, and the field that has its second value there, if one has.
#[derive(Clone, Copy, Debug)]
pub(crate) struct Passed {
    pub(crate) sort: usize,
    pub(crate) set: Option<Step>,
}

/// A way down: the layers that were passed, the value that is wanted below them, and its node, if it was made before.
#[derive(Debug, Drop)]
pub(crate) struct Descent {
    pub(crate) way: Vec<Passed>,
    pub(crate) wanted: Wanted,
    pub(crate) top: Option<NodeId>,
}

/// The way down from an infinite sort with this number.
pub(crate) fn descend(
    alloc: Global,
    sig: &Signature,
    several: &[usize],
    layers: &[Layer],
    made: &[Option<Made>],
    s: usize,
    n: u64,
) -> Result<Descent, CardError>
    requires inside { s < length sig.now.sorts }
    requires infinite { IsInfinite sig.now s }
    requires layered { AreLayers sig.now several.now layers.now }
    ensures down { IfOk result (λ down. LeadsDown sig.now layers.now (record { sort = s; number = n; turn = false }) down.way.items down.wanted) }
    ensures inside { IfOk result (λ down. down.wanted.sort < length sig.now.sorts) }
    ensures infinite { IfOk result (λ down. IsInfinite sig.now down.wanted.sort) }
    ensures end { IfOk result (λ down. down.top ≡ None → HasComeDown sig.now layers.now down.wanted) }
    ensures made { IfOk result (λ down. (k : NodeId) → down.top ≡ Some k → (down.wanted.turn ≡ false) × IsMade made.now down.wanted.sort down.wanted.number k) }
{
    let mut down = Descent {
        way: Vec::new(alloc),
        wanted: Wanted {
            sort: s,
            number: n,
            turn: false,
        },
        top: find_made(made, s, n),
    };
    while go_down(sig, several, layers, made, &mut down)? {}
    Ok(down)
}

// Goes one layer further down, if no value is known there and the end is not reached. Whether it did.
fn go_down(
    sig: &Signature,
    several: &[usize],
    layers: &[Layer],
    made: &[Option<Made>],
    down: &mut Descent,
) -> Result<bool, CardError>
    requires inside { down.old.wanted.sort < length sig.now.sorts }
    requires infinite { IsInfinite sig.now down.old.wanted.sort }
    requires layered { AreLayers sig.now several.now layers.now }
    requires made { (k : NodeId) → down.old.top ≡ Some k → (down.old.wanted.turn ≡ false) × IsMade made.now down.old.wanted.sort down.old.wanted.number k }
    ensures further { IfOk result (λ further. IsTrue further → IsStepDown sig.now several.now layers.now down.old.way.items down.old.wanted down.new.way.items down.new.wanted) }
    ensures same { IfOk result (λ further. OnFalse further (down.new ≡ down.old)) }
    ensures end { IfOk result (λ further. OnFalse further (down.old.top ≡ None → HasComeDown sig.now layers.now down.old.wanted)) }
    ensures made { IfOk result (λ further. (k : NodeId) → down.new.top ≡ Some k → (down.new.wanted.turn ≡ false) × IsMade made.now down.new.wanted.sort down.new.wanted.number k) }
{
    structure();
    prove!(down.wanted.sort < sig.sorts() as usize);
    if down.top.is_some() {
        return Ok(false);
    }
    if is_free(sig.kind(SortId(down.wanted.sort as u32))) {
        return Ok(false);
    }
    let Some(below) = wanted_below(layers[down.wanted.sort], down.wanted) else {
        return Ok(false);
    };
    down.way.push(Passed {
        sort: down.wanted.sort,
        set: below.set,
    })?;
    down.wanted = below.wanted;
    down.top = made_before(made, below.wanted);
    Ok(true)
}

// The node of the value that is wanted, if it was made before. Those that are kept begin with the turn of an end.
fn made_before(made: &[Option<Made>], wanted: Wanted) -> Option<NodeId>
    ensures made { (k : NodeId) → result ≡ Some k → (wanted.turn ≡ false) × IsMade made.now wanted.sort wanted.number k }
{
    if wanted.turn {
        return None;
    }
    find_made(made, wanted.sort, wanted.number)
}

/// The value that is wanted below a layer, and the field of the layer that is set.
#[derive(Clone, Copy, Debug)]
struct Below {
    wanted: Wanted,
    set: Option<Step>,
}

// What is wanted below the layer, or nothing where the value departs there.
fn wanted_below(layer: Layer, wanted: Wanted) -> Option<Below>
    ensures ends { result ≡ None → EndsAt layer wanted }
    ensures leads { (below : Below) → result ≡ Some below → LeadsTo layer wanted below.wanted below.set }
{
    match layer.departure {
        Departure::Nowhere => Some(Below {
            wanted: Wanted {
                sort: layer.step.next,
                number: wanted.number,
                turn: wanted.turn,
            },
            set: None,
        }),
        Departure::Constructor(_) => less_by_one(
            layer.digit,
            layer.step.next,
            wanted.turn,
            wanted.number,
        ),
        Departure::Field(step) => {
            if wanted.turn {
                Some(last_digit(step, layer.step.next, false, wanted.number))
            } else {
                less_by_one(None, layer.step.next, true, wanted.number)
            }
        }
    }
}

// What is wanted, of the sort and with the turn, below a layer at which a value could have ended, or nothing where it does.
fn less_by_one(digit: Option<Step>, sort: usize, turn: bool, n: u64) -> Option<Below>
    ensures ends { result ≡ None → n ≡ 0 }
    ensures leads { (below : Below) → result ≡ Some below → (below.wanted.sort ≡ sort) × (below.wanted.turn ≡ turn) × LeavesLess digit n below.wanted.number below.set }
{
    if n == 0 {
        return None;
    }
    match digit {
        None => Some(Below {
            wanted: Wanted {
                sort,
                number: n - 1,
                turn,
            },
            set: None,
        }),
        Some(step) => Some(last_digit(step, sort, turn, n - 1)),
    }
}

// What is wanted, of the sort and with the turn, where the field of the step shows the last digit of the number.
fn last_digit(step: Step, sort: usize, turn: bool, n: u64) -> Below
    ensures sort { result.wanted.sort ≡ sort }
    ensures turn { result.wanted.turn ≡ turn }
    ensures leaves { LeavesDigit step n result.wanted.number result.set }
{
    let wanted = Wanted {
        sort,
        number: n / 2,
        turn,
    };
    if n % 2 == 1 {
        return Below {
            wanted,
            set: Some(step),
        };
    }
    Below { wanted, set: None }
}
