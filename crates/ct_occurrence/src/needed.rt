//! Computes the notes on the definitions that a formula needs: those that it names, and those that their bodies name.
ghost use Rattle.std.specs.Prelude.{◌≤◌, length, map, Contains, OnOk};
ghost use Rattle.ct_sorts.specs.declared.ids.DefId.{DefId};
ghost use Rattle.ct_formulas.specs.Formula.{MentionsBelow};
ghost use Rattle.ct_formulas.specs.FormulaSorts.{AreSound};
ghost use Rattle.ct_formulas.specs.TreeFormula.{formula_of};
ghost use Rattle.ct_occurrence.specs.Calls.{CallsAre, AreBelow};
ghost use Rattle.ct_occurrence.specs.Marks.{worked_in, IsKnown};
ghost use Rattle.ct_occurrence.specs.Working.{AreRight, StayKnown};

use crate::definitions::Definitions;
use crate::names::add_names;
use crate::under_way::work_out;
use ct_formulas::Tree;
use ct_sorts::{DefId, Signature};
use std::alloc::{AllocError, Global};

/// Works out the definitions that a formula names, all of which are below the number, and those that their bodies name.
pub fn work_out_named(
    alloc: Global,
    sig: &Signature,
    bodies: &[Tree],
    definitions: &mut Definitions,
    below: usize,
    tree: &Tree,
) -> Result<(), AllocError>
    requires sound { AreSound sig.now (map formula_of bodies.now) }
    requires within { below ≤ length bodies.now }
    requires mentions { MentionsBelow below (formula_of tree.now) }
    requires right { AreRight sig.now (map formula_of bodies.now) (worked_in definitions.old) }
    ensures right { OnOk result (AreRight sig.now (map formula_of bodies.now) (worked_in definitions.new)) }
    ensures stay { OnOk result (StayKnown (worked_in definitions.old) (worked_in definitions.new)) }
    ensures known { OnOk result (CallsAre (IsKnown (worked_in definitions.new)) (formula_of tree.now)) }
{
    let mut names = Vec::new(alloc);
    add_names(tree, &mut names)?;
    work_out_all(alloc, sig, bodies, definitions, below, names.as_slice())?;
    Ok(())
}

// Works out these definitions, all of which are below the number, and those that their bodies name.
fn work_out_all(
    alloc: Global,
    sig: &Signature,
    bodies: &[Tree],
    definitions: &mut Definitions,
    below: usize,
    names: &[DefId],
) -> Result<(), AllocError>
    requires sound { AreSound sig.now (map formula_of bodies.now) }
    requires within { below ≤ length bodies.now }
    requires below { AreBelow below names.now }
    requires right { AreRight sig.now (map formula_of bodies.now) (worked_in definitions.old) }
    ensures right { OnOk result (AreRight sig.now (map formula_of bodies.now) (worked_in definitions.new)) }
    ensures stay { OnOk result (StayKnown (worked_in definitions.old) (worked_in definitions.new)) }
    ensures known { OnOk result ((k : DefId) → Contains names.now k → IsKnown (worked_in definitions.new) k) }
{
    let mut rest = names;
    while let [k, others @ ..] = rest {
        work_out(alloc, sig, bodies, definitions, *k)?;
        rest = others;
    }
    Ok(())
}
