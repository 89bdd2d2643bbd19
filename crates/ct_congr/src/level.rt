//! How many merges, hypotheses and equations there were at each mark.
ghost use Rattle.std.specs.Prelude.{◌≡◌, [], ◌∷◌, ◌++◌, map, take, IfOk, OnOk, OnErr};
ghost use Rattle.ct_congr.specs.Marks.{mark_of};

use crate::error::CongrError;
use crate::merge::ClassMark;
use std::alloc::Global;
use std::marker::Model;

/// How much stood when a mark was set.
#[derive(Clone, Copy, Debug)]
pub(crate) struct Level {
    /// The number of merges.
    pub(crate) merges: usize,
    /// The number of hypotheses.
    pub(crate) hypotheses: usize,
    /// The number of given equations.
    pub(crate) given: usize,
    /// The number of rows.
    pub(crate) keys: usize,
}

/// How much stood at each mark, in the order in which they were set. Clauses see a list of levels.
#[derive(Drop)]
pub(crate) struct Levels {
    levels: Vec<Level>,
    // The mark of each level.
    marks: Vec<ClassMark>,
}

impl Model for Levels {
    ghost use Rattle.std.specs.Prelude.{◌≡◌, List, map};
    ghost use Rattle.ct_congr.specs.declared.level.Level.{Level};
    ghost use Rattle.ct_congr.specs.Marks.{mark_of};

    ghost Value = { List Level };

    ghost view = { λ l. l.levels.items };

    ghost invariant = { λ l. l.marks.items ≡ map mark_of l.levels.items };
}

impl Levels {
    /// No levels. Takes no memory.
    pub(crate) fn new(alloc: Global) -> Levels
        ensures empty { result ≡ [] }
    {
        Levels {
            levels: Vec::new(alloc),
            marks: Vec::new(alloc),
        }
    }

    /// The levels.
    pub(crate) fn as_slice(&self) -> &[Level]
        ensures value { result.now ≡ self.now }
    {
        self.levels.as_slice()
    }

    /// The mark of each level.
    pub(crate) fn marks(&self) -> &[ClassMark]
        ensures value { result.now ≡ map mark_of self.now }
    {
        self.marks.as_slice()
    }

    /// One more level at the end, and its mark. An error changes nothing.
    pub(crate) fn push(&mut self, level: Level) -> Result<ClassMark, CongrError>
        ensures mark { IfOk result (λ mark. mark ≡ mark_of level) }
        ensures pushed { OnOk result (self.new ≡ self.old ++ level ∷ []) }
        ensures unchanged { OnErr result (self.new ≡ self.old) }
    {
        let mark = ClassMark {
            merges: level.merges as u64,
        };
        self.levels.reserve(1)?;
        self.marks.push(mark)?;
        self.levels.push(level).unwrap();
        Ok(mark)
    }

    /// Keeps the first levels, so many as `len` says. Takes no memory.
    pub(crate) fn cut(&mut self, len: usize)
        ensures first { self.new ≡ take len self.old }
    {
        self.levels.truncate(len);
        self.marks.truncate(len);
    }
}
