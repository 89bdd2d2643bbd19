//! Writes lines.
ghost use Rattle.std.specs.Prelude.{◌≡◌, List, [], ◌∷◌, ◌++◌, OnOk};
ghost use Rattle.ct_sexpr.specs.Expression.{more, none, list, word};
ghost use Rattle.ct_sexpr.specs.Written.{written, written_after, written_items};
ghost use Rattle.ct_log.specs.declared.rules.EqStep.TheVariants as EqStep;
ghost use Rattle.ct_log.specs.declared.rules.Close.TheVariants as Close;
ghost use Rattle.ct_log.specs.declared.line.Step.TheVariants as Step;
ghost use Rattle.ct_log_text.specs.Written.{numbers, items_as, literal, entry_item, pair_item, hop_item, step_item, close_item, gate_numbers, rule_parts, line_item};

use crate::put::{open_row, put_number, put_number_after, put_numbers, put_row, put_word_after};
use ct_log::{Close, Entry, EqStep, Gate, Hop, Line, Pair, Step};
use ct_log_lines::{gate_name, has_place, has_term};
use ct_terms::{Lit, TermId};
use std::alloc::{AllocError, Global};

/// Writes a literal.
fn put_literal(alloc: Global, l: Lit, out: &mut Vec<u8>) -> Result<(), AllocError>
    ensures ok { OnOk result (out.new.items ≡ out.old.items ++ written (literal l)) }
{
    if l.positive {
        return put_number(alloc, l.term.0 as u64, out);
    }
    put_row(alloc, b"not", &[l.term.0 as u64], out)
}

/// Writes literals, each after a space.
fn put_literals_after(alloc: Global, literals: &[Lit], out: &mut Vec<u8>) -> Result<(), AllocError>
    ensures ok { OnOk result (out.new.items ≡ out.old.items ++ written_after (items_as literal literals.now)) }
{
    let mut rest = literals;
    while let [l, others @ ..] = rest {
        out.push(b' ')?;
        put_literal(alloc, *l, out)?;
        rest = others;
    }
    Ok(())
}

/// Writes literals, with a space between two.
fn put_literals(alloc: Global, literals: &[Lit], out: &mut Vec<u8>) -> Result<(), AllocError>
    ensures ok { OnOk result (out.new.items ≡ out.old.items ++ written_items (items_as literal literals.now)) }
{
    match literals {
        [] => Ok(()),
        [first, others @ ..] => {
            put_literal(alloc, *first, out)?;
            put_literals_after(alloc, others, out)
        }
    }
}

/// Writes a clause.
fn put_clause(alloc: Global, clause: &[Lit], out: &mut Vec<u8>) -> Result<(), AllocError>
    ensures ok { OnOk result (out.new.items ≡ out.old.items ++ written (list (items_as literal clause.now))) }
{
    out.push(b'(')?;
    put_literals(alloc, clause, out)?;
    Ok(out.push(b')')?)
}

/// Writes an entry of a pair.
fn put_entry(alloc: Global, entry: Entry, out: &mut Vec<u8>) -> Result<(), AllocError>
    ensures ok { OnOk result (out.new.items ≡ out.old.items ++ written (entry_item entry)) }
{
    match entry {
        Entry::Step(i) => put_number(alloc, i, out),
        Entry::Pair(k, i, j) => put_row(alloc, b"pair", &[k, i, j], out),
    }
}

/// Writes entries, each after a space.
fn put_entries(alloc: Global, entries: &[Entry], out: &mut Vec<u8>) -> Result<(), AllocError>
    ensures ok { OnOk result (out.new.items ≡ out.old.items ++ written_after (items_as entry_item entries.now)) }
{
    let mut rest = entries;
    while let [entry, others @ ..] = rest {
        out.push(b' ')?;
        put_entry(alloc, *entry, out)?;
        rest = others;
    }
    Ok(())
}

/// Writes a pair.
fn put_pair(alloc: Global, pair: &Pair, out: &mut Vec<u8>) -> Result<(), AllocError>
    ensures ok { OnOk result (out.new.items ≡ out.old.items ++ written (pair_item pair.now)) }
{
    out.push(b'(')?;
    put_number(alloc, pair.left.0 as u64, out)?;
    put_number_after(alloc, pair.right.0 as u64, out)?;
    put_entries(alloc, pair.entries.as_slice(), out)?;
    Ok(out.push(b')')?)
}

/// Writes pairs, each after a space.
fn put_pairs(alloc: Global, pairs: &[Pair], out: &mut Vec<u8>) -> Result<(), AllocError>
    ensures ok { OnOk result (out.new.items ≡ out.old.items ++ written_after (items_as pair_item pairs.now)) }
{
    let mut rest = pairs;
    while let [pair, others @ ..] = rest {
        out.push(b' ')?;
        put_pair(alloc, pair, out)?;
        rest = others;
    }
    Ok(())
}

/// Writes a step of uniqueness.
fn put_unique(
    alloc: Global,
    chosen: u64,
    pairs: &[Pair],
    out: &mut Vec<u8>,
) -> Result<(), AllocError>
    ensures ok { OnOk result (out.new.items ≡ out.old.items ++ written (step_item (EqStep.Unique chosen pairs.now))) }
{
    open_row(b"unique", out)?;
    put_number_after(alloc, chosen, out)?;
    put_pairs(alloc, pairs, out)?;
    Ok(out.push(b')')?)
}

/// Writes a step of congruence.
fn put_congruence(
    alloc: Global,
    t: TermId,
    u: TermId,
    steps: &[u64],
    out: &mut Vec<u8>,
) -> Result<(), AllocError>
    ensures ok { OnOk result (out.new.items ≡ out.old.items ++ written (step_item (EqStep.Cong t u steps.now))) }
{
    open_row(b"cong", out)?;
    put_number_after(alloc, t.0 as u64, out)?;
    put_number_after(alloc, u.0 as u64, out)?;
    put_numbers(alloc, steps, out)?;
    Ok(out.push(b')')?)
}

/// Writes a hypothesis.
fn put_hypothesis(alloc: Global, l: Lit, out: &mut Vec<u8>) -> Result<(), AllocError>
    ensures ok { OnOk result (out.new.items ≡ out.old.items ++ written (step_item (EqStep.Hyp l))) }
{
    open_row(b"hyp", out)?;
    out.push(b' ')?;
    put_literal(alloc, l, out)?;
    Ok(out.push(b')')?)
}

/// Writes an equality step.
fn put_step(alloc: Global, step: &EqStep, out: &mut Vec<u8>) -> Result<(), AllocError>
    ensures ok { OnOk result (out.new.items ≡ out.old.items ++ written (step_item step.now)) }
{
    match step {
        EqStep::Hyp(l) => put_hypothesis(alloc, *l, out),
        EqStep::Refl(t) => put_row(alloc, b"refl", &[t.0 as u64], out),
        EqStep::Sym(i) => put_row(alloc, b"sym", &[*i], out),
        EqStep::Trans(i, j) => put_row(alloc, b"trans", &[*i, *j], out),
        EqStep::Cong(t, u, steps) => put_congruence(alloc, *t, *u, steps.as_slice(), out),
        EqStep::Inject(i, k) => put_row(alloc, b"inject", &[*i, *k], out),
        EqStep::Sel(t, i) => put_row(alloc, b"sel", &[t.0 as u64, *i], out),
        EqStep::Test(t, i) => put_row(alloc, b"test", &[t.0 as u64, *i], out),
        EqStep::Expand(i, c) => put_row(alloc, b"expand", &[*i, c.0 as u64], out),
        EqStep::EqualIn(t, i) => put_row(alloc, b"equal-in", &[t.0 as u64, *i], out),
        EqStep::EqualOut(i) => put_row(alloc, b"equal-out", &[*i], out),
        EqStep::Neg(t, i) => put_row(alloc, b"neg", &[t.0 as u64, *i], out),
        EqStep::Single(x, y) => put_row(alloc, b"single", &[x.0 as u64, y.0 as u64], out),
        EqStep::Unique(chosen, pairs) => put_unique(alloc, *chosen, pairs.as_slice(), out),
    }
}

/// Writes equality steps, each after a space.
fn put_steps_after(alloc: Global, steps: &[EqStep], out: &mut Vec<u8>) -> Result<(), AllocError>
    ensures ok { OnOk result (out.new.items ≡ out.old.items ++ written_after (items_as step_item steps.now)) }
{
    let mut rest = steps;
    while let [step, others @ ..] = rest {
        out.push(b' ')?;
        put_step(alloc, step, out)?;
        rest = others;
    }
    Ok(())
}

/// Writes equality steps, with a space between two.
fn put_steps(alloc: Global, steps: &[EqStep], out: &mut Vec<u8>) -> Result<(), AllocError>
    ensures ok { OnOk result (out.new.items ≡ out.old.items ++ written_items (items_as step_item steps.now)) }
{
    match steps {
        [] => Ok(()),
        [first, others @ ..] => {
            put_step(alloc, first, out)?;
            put_steps_after(alloc, others, out)
        }
    }
}

/// Writes a term of a cycle.
fn put_hop(alloc: Global, hop: Hop, out: &mut Vec<u8>) -> Result<(), AllocError>
    ensures ok { OnOk result (out.new.items ≡ out.old.items ++ written (hop_item hop)) }
{
    out.push(b'(')?;
    put_number(alloc, hop.con.0 as u64, out)?;
    put_number_after(alloc, hop.place, out)?;
    put_number_after(alloc, hop.step, out)?;
    Ok(out.push(b')')?)
}

/// Writes terms of a cycle, each after a space.
fn put_hops(alloc: Global, hops: &[Hop], out: &mut Vec<u8>) -> Result<(), AllocError>
    ensures ok { OnOk result (out.new.items ≡ out.old.items ++ written_after (items_as hop_item hops.now)) }
{
    let mut rest = hops;
    while let [hop, others @ ..] = rest {
        out.push(b' ')?;
        put_hop(alloc, *hop, out)?;
        rest = others;
    }
    Ok(())
}

/// Writes a cycle.
fn put_cycle(alloc: Global, hops: &[Hop], out: &mut Vec<u8>) -> Result<(), AllocError>
    ensures ok { OnOk result (out.new.items ≡ out.old.items ++ written (close_item (Close.Cycle hops.now))) }
{
    open_row(b"cycle", out)?;
    put_hops(alloc, hops, out)?;
    Ok(out.push(b')')?)
}

/// Writes how a theory line ends.
fn put_close(alloc: Global, close: &Close, out: &mut Vec<u8>) -> Result<(), AllocError>
    ensures ok { OnOk result (out.new.items ≡ out.old.items ++ written (close_item close.now)) }
{
    match close {
        Close::Clash(i) => put_row(alloc, b"clash", &[*i], out),
        Close::Cycle(hops) => put_cycle(alloc, hops.as_slice(), out),
    }
}

/// Writes a word and numbers, each after a space.
fn put_rule(alloc: Global, text: &[u8], ns: &[u64], out: &mut Vec<u8>) -> Result<(), AllocError>
    ensures ok { OnOk result (out.new.items ≡ out.old.items ++ written_after (more (word text.now) (numbers ns.now))) }
{
    put_word_after(text, out)?;
    put_numbers(alloc, ns, out)
}

/// Writes the term and the place of a gate, where it has them.
fn put_gate_numbers(
    alloc: Global,
    gate: Gate,
    t: TermId,
    place: u64,
    out: &mut Vec<u8>,
) -> Result<(), AllocError>
    ensures ok { OnOk result (out.new.items ≡ out.old.items ++ written_after (numbers (gate_numbers gate t place))) }
{
    if has_place(gate) {
        return put_numbers(alloc, &[t.0 as u64, place], out);
    }
    if has_term(gate) {
        return put_number_after(alloc, t.0 as u64, out);
    }
    Ok(())
}

/// Writes the rule of a gate.
fn put_gate(
    alloc: Global,
    gate: Gate,
    t: TermId,
    place: u64,
    out: &mut Vec<u8>,
) -> Result<(), AllocError>
    ensures ok { OnOk result (out.new.items ≡ out.old.items ++ written_after (rule_parts (Step.Gate gate t place))) }
{
    put_word_after(b"gate", out)?;
    put_word_after(gate_name(gate), out)?;
    put_gate_numbers(alloc, gate, t, place, out)
}

/// Writes the rule of a theory line.
fn put_theory(
    alloc: Global,
    steps: &[EqStep],
    close: &Close,
    out: &mut Vec<u8>,
) -> Result<(), AllocError>
    ensures ok { OnOk result (out.new.items ≡ out.old.items ++ written_after (rule_parts (Step.Theory steps.now close.now))) }
{
    put_word_after(b"theory", out)?;
    out.push(b' ')?;
    out.push(b'(')?;
    put_steps(alloc, steps, out)?;
    out.push(b')')?;
    out.push(b' ')?;
    put_close(alloc, close, out)
}

/// Writes the rule of a line.
fn put_step_of_line(alloc: Global, step: &Step, out: &mut Vec<u8>) -> Result<(), AllocError>
    ensures ok { OnOk result (out.new.items ≡ out.old.items ++ written_after (rule_parts step.now)) }
{
    match step {
        Step::Input(t) => put_rule(alloc, b"input", &[t.0 as u64], out),
        Step::Gate(gate, t, place) => put_gate(alloc, *gate, *t, *place, out),
        Step::Exhaust(t) => put_rule(alloc, b"exhaust", &[t.0 as u64], out),
        Step::Theory(steps, close) => put_theory(alloc, steps.as_slice(), close, out),
        Step::Learn(hints) => put_rule(alloc, b"learn", hints.as_slice(), out),
    }
}

/// Writes the line with this number.
pub(crate) fn put_line(
    alloc: Global,
    n: u64,
    line: &Line,
    out: &mut Vec<u8>,
) -> Result<(), AllocError>
    ensures ok { OnOk result (out.new.items ≡ out.old.items ++ written (line_item n line.now)) }
{
    open_row(b"s", out)?;
    put_number_after(alloc, n, out)?;
    out.push(b' ')?;
    put_clause(alloc, line.clause.as_slice(), out)?;
    put_step_of_line(alloc, &line.step, out)?;
    Ok(out.push(b')')?)
}
