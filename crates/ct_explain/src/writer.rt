//! Appends steps, each with the equation that it gives.
ghost use Rattle.std.specs.Prelude.{◌≡◌, ◌<◌, ◌^◌, [], IfOk, OnOk, length};
ghost use Rattle.ct_terms.specs.declared.ids.TermId.{TermId};
ghost use Rattle.ct_congr.specs.State.{State};
ghost use Rattle.ct_explain.specs.Writing.{Told, IsStep, HasWrittenMore};

use crate::error::ExplainError;
use ct_log::EqStep;
use ct_rules::Equation;
use ct_terms::TermId;
use std::alloc::Global;
use std::marker::Model;

/// Steps to be put after others, each with its equation.
#[derive(Drop)]
pub(crate) struct Writer {
    first: usize,
    steps: Vec<EqStep>,
    stated: Vec<Equation>,
}

impl Model for Writer {
    ghost use Rattle.std.specs.Prelude.{◌≡◌, ◌<◌, ◌^◌, length};
    ghost use Rattle.std.specs.Vec.{vec_len};
    ghost use Rattle.ct_explain.specs.Writing.{Written};

    ghost Value = { Written };

    ghost view = { λ w. record { first = w.first; steps = w.steps.items; stated = w.stated.items } };

    ghost invariant = { λ w. w.first < 2 ^ 63 };
}

impl Writer {
    /// Nothing yet, after so many steps.
    pub(crate) fn new(alloc: Global, first: usize) -> Writer
        requires few { first < 2 ^ 63 }
        ensures first { result.first ≡ first }
        ensures steps { result.steps ≡ [] }
        ensures stated { result.stated ≡ [] }
    {
        Writer {
            first,
            steps: Vec::new(alloc),
            stated: Vec::new(alloc),
        }
    }

    /// Writes the step, which gives the equation. The answer is its number.
    pub(crate) fn write(
        &mut self,
        step: EqStep,
        left: TermId,
        right: TermId,
    ) -> Result<u64, ExplainError>
        ensures grown { OnOk result ((state : State) → IsStep state self.old step left right → HasWrittenMore state self.old self.new) }
        ensures told { IfOk result (λ n. Told self.new n left right) }
    {
        let number = self.first + self.stated.len();
        self.steps.push(step)?;
        self.stated.push(Equation { left, right })?;
        Ok(number as u64)
    }

    /// The steps.
    pub(crate) fn into_steps(self) -> Vec<EqStep>
        ensures value { result.items ≡ self.steps }
    {
        drop(self.stated);
        self.steps
    }
}

/// Writes that the term equals itself.
pub(crate) fn write_same(writer: &mut Writer, t: TermId) -> Result<u64, ExplainError>
    ensures grown { OnOk result ((state : State) → t.0 < length state.terms → HasWrittenMore state writer.old writer.new) }
    ensures told { IfOk result (λ n. Told writer.new n t t) }
{
    let number = writer.write(EqStep::Refl(t), t, t)?;
    Ok(number)
}

/// Writes the equation of a step turned round.
pub(crate) fn write_turned(
    writer: &mut Writer,
    number: u64,
    left: TermId,
    right: TermId,
) -> Result<u64, ExplainError>
    requires told { Told writer.old number left right }
    ensures grown { OnOk result ((state : State) → HasWrittenMore state writer.old writer.new) }
    ensures told { IfOk result (λ n. Told writer.new n right left) }
{
    let number = writer.write(EqStep::Sym(number), right, left)?;
    Ok(number)
}

/// Writes what follows from the equations of two steps that meet in a term.
pub(crate) fn write_joined(
    writer: &mut Writer,
    first: u64,
    second: u64,
    left: TermId,
    middle: TermId,
    right: TermId,
) -> Result<u64, ExplainError>
    requires first { Told writer.old first left middle }
    requires second { Told writer.old second middle right }
    ensures grown { OnOk result ((state : State) → HasWrittenMore state writer.old writer.new) }
    ensures told { IfOk result (λ n. Told writer.new n left right) }
{
    let number = writer.write(EqStep::Trans(first, second), left, right)?;
    Ok(number)
}
