//! Graphs that are prepared for values of infinite sorts, which share their parts there.
ghost use Rattle.std.specs.Prelude.{◌≡◌, IfOk};

use crate::error::CardError;
use crate::made::Made;
use std::marker::Model;

/// Where in a graph default values and second values of all sorts begin, and the values that were made there before.
#[derive(Debug, Drop)]
pub struct Prepared {
    pub(crate) base: u64,
    pub(crate) second: u64,
    pub(crate) made: Vec<Option<Made>>,
}

impl Model for Prepared {
    ghost use Rattle.ct_card.specs.Made.{Prepared};

    ghost Value = { Prepared };

    ghost view = { λ stored. record { base = stored.base; second = stored.second; made = stored.made.items } };
}

impl Prepared {
    /// An equal one.
    pub fn copy(&self) -> Result<Prepared, CardError>
        ensures value { IfOk result (λ copy. copy ≡ self.now) }
    {
        Ok(Prepared {
            base: self.base,
            second: self.second,
            made: self.made.clone()?,
        })
    }
}
