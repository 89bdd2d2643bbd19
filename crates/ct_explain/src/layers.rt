//! What classes imply, in layers: the truth value of a term is explained over those that were explained before it, so that no
//! explanation grows with how many stand behind it.
//!
//! The merges of the classes are followed in their order, in trees in which the equations of known literals cost nothing. As soon
//! as a term comes to the tree of a truth value its equation with that is explained by what the way between them rests on; from
//! then on it is known itself, and what it states takes the place of the latest merge on the way between its sides. So ways lead
//! over known literals where they can, and the premises of a merge still rest on earlier ones alone. Nothing is claimed of the
//! steps: who uses them has them checked.
ghost use Rattle.std.specs.Prelude.{◌<◌, length};

use crate::error::ExplainError;
use crate::proof::EqProof;
use crate::ways::Ways;
use ct_congr::{Classes, Merge, Reason};
use ct_sorts::CtorId;
use ct_terms::{Args, Core, Lit, TermId, TermTable};
use std::alloc::Global;

/// A truth value that classes imply.
#[derive(Debug, Drop)]
pub struct Implied {
    /// The literal that is true.
    pub literal: Lit,
    /// Steps that name literals known before it.
    pub proof: EqProof,
    /// The number of the step that states the equation of the literal's term and its truth value.
    pub number: u64,
}

/// How far classes were followed, and what is known of their terms.
#[derive(Drop)]
pub struct Layers {
    alloc: Global,
    ways: Ways,
    // For each term whether it may have a truth value that is not known yet.
    open: Vec<bool>,
    // Terms that came to the tree of a truth value and were not looked at.
    waiting: Vec<TermId>,
    // What is implied and was not handed out.
    found: Vec<Implied>,
    // How many hypotheses and merges of the classes were followed.
    hypotheses: usize,
    merges: usize,
}

impl Layers {
    /// Nothing was followed of these classes. Explanations of more than so many steps are not given.
    pub fn new(alloc: Global, classes: &Classes, most: usize) -> Result<Layers, ExplainError> {
        Ok(Layers {
            alloc,
            ways: Ways::new(alloc, classes.table().len(), most)?,
            open: open_terms(alloc, classes.table())?,
            waiting: Vec::new(alloc),
            found: Vec::new(alloc),
            hypotheses: 0,
            merges: 0,
        })
    }

    /// The truth values that the classes imply by the hypotheses and merges that came since the last call, in the order in which
    /// they rest on each other. The classes are those of the last call with more.
    pub fn follow(&mut self, classes: &Classes) -> Result<Vec<Implied>, ExplainError> {
        let hypotheses = classes.hypotheses();
        for at in self.hypotheses..hypotheses.len() {
            self.know(classes, hypotheses[at])?;
        }
        self.hypotheses = hypotheses.len();
        self.look(classes)?;
        let merges = classes.merges();
        for at in self.merges..merges.len() {
            let number = self.ways.number_of(at);
            self.connect(merges[at].left, merges[at].right, number)?;
            self.look(classes)?;
        }
        self.merges = merges.len();
        let mut found = Vec::new(self.alloc);
        found.append(&mut self.found)?;
        Ok(found)
    }

    // Joins the trees of the terms by the edge, where they are two. Where one is that of a truth value, the terms of the other
    // are to be looked at.
    fn connect(&mut self, x: TermId, y: TermId, edge: usize) -> Result<(), ExplainError> {
        if self.ways.trees.are_joined(x, y) {
            return Ok(());
        }
        if self.has_value(x) {
            self.wait(y)?;
        } else if self.has_value(y) {
            self.wait(x)?;
        }
        self.ways.trees.join(x, y, edge)
    }

    // Whether the term is of the tree of a truth value.
    fn has_value(&self, t: TermId) -> bool {
        self.ways.trees.are_joined(t, TermId(0)) || self.ways.trees.are_joined(t, TermId(1))
    }

    // The terms of the term's tree are to be looked at.
    fn wait(&mut self, t: TermId) -> Result<(), ExplainError> {
        let mut members = self.ways.trees.members(t)?;
        self.waiting.append(&mut members)?;
        Ok(())
    }

    // Explains the truth values of the terms that wait.
    fn look(&mut self, classes: &Classes) -> Result<(), ExplainError> {
        for at in 0..classes.table().len() as usize {
            match self.waiting.get(at).copied() {
                Some(t) => self.look_at(classes, t)?,
                None => break,
            }
        }
        self.waiting.clear();
        Ok(())
    }

    // Explains the truth value of the term, where it is not known.
    fn look_at(&mut self, classes: &Classes, t: TermId) -> Result<(), ExplainError> {
        if !is_set(&self.open, t) {
            return Ok(());
        }
        let positive = self.ways.trees.are_joined(t, TermId(0));
        let mut proof = EqProof {
            steps: Vec::new(self.alloc),
        };
        let Some(number) = self.ways.explain(classes, t, truth(positive), &mut proof)? else {
            return Ok(());
        };
        let literal = Lit { term: t, positive };
        self.found.push(Implied {
            literal,
            proof,
            number,
        })?;
        self.know(classes, literal)
    }

    // Notes that the literal is known, and joins what it states to be equal.
    fn know(&mut self, classes: &Classes, literal: Lit) -> Result<(), ExplainError> {
        let t = literal.term;
        if t.0 >= classes.table().len() {
            return Ok(());
        }
        if (t.0 as usize) < self.open.len() {
            self.open[t.0 as usize] = false;
        }
        self.state(t, truth(literal.positive), Reason::Hyp(literal))?;
        if !literal.positive {
            return Ok(());
        }
        match classes.table().core(t) {
            Core::Eq(a, b) => self.state(*a, *b, Reason::EqualOut(t)),
            Core::Test(c, x) => match constant(self.alloc, classes.table(), *c) {
                Some(con) => self.state(*x, con, Reason::Expand(t, con)),
                None => Ok(()),
            },
            _ => Ok(()),
        }
    }

    // Puts an edge of what is known between the two terms.
    fn state(&mut self, left: TermId, right: TermId, why: Reason) -> Result<(), ExplainError> {
        let joined = self.ways.trees.are_joined(left, right);
        let Some(edge) = self.ways.state(Merge { left, right, why }, joined)? else {
            return Ok(());
        };
        self.connect(left, right, edge)
    }
}

// For each term whether it is a variable of the search.
fn open_terms(alloc: Global, table: &TermTable) -> Result<Vec<bool>, ExplainError> {
    let mut open = Vec::new(alloc);
    for number in 0..table.len() {
        open.push(is_variable(table, TermId(number)))?;
    }
    Ok(open)
}

// Whether the term is Boolean and no negation.
fn is_variable(table: &TermTable, t: TermId) -> bool
    requires inside { t.0 < length table.now }
{
    if table.sort(t).0 != 0 {
        return false;
    }
    match table.core(t) {
        Core::Not(_) => false,
        _ => true,
    }
}

// The term of the constructor without arguments, where the table has it.
fn constant(alloc: Global, table: &TermTable, c: CtorId) -> Option<TermId> {
    table.find(&Core::Con(c, Args::new(alloc)))
}

// Whether the flag of the term is set.
fn is_set(flags: &[bool], t: TermId) -> bool {
    match flags.get(t.0 as usize) {
        Some(flag) => *flag,
        None => false,
    }
}

// The truth value as a term.
fn truth(positive: bool) -> TermId {
    if positive { TermId(0) } else { TermId(1) }
}
