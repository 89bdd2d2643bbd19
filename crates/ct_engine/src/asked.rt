//! What the theory was asked last, and which literals are news to it.
ghost use Rattle.std.specs.Prelude.{◌≡◌, ◌≤◌, ◌<◌, length, IfOk, IsErrOf};

use crate::error::SolveError;
use ct_terms::{Core, Lit, TermId, TermTable};
use std::alloc::Global;

/// How far the trail is still the one that the theory was asked about last.
#[derive(Drop)]
pub(crate) struct Asked {
    /// So many of its first literals are those that the theory was told then.
    pub(crate) shared: usize,
    // So many of its first literals are no news to the theory.
    seen: usize,
    // For each term whether the theory can conclude something from its value.
    news: Vec<bool>,
}

impl Asked {
    /// Nothing was asked yet of the theory of these terms.
    pub(crate) fn new(alloc: Global, table: &TermTable) -> Result<Asked, SolveError>
        ensures shared { IfOk result (λ asked. asked.shared ≡ 0) }
        ensures err { IsErrOf result SolveError.TooLarge → ⊥ }
    {
        let news = news_of(alloc, table)?;
        Ok(Asked {
            shared: 0,
            seen: 0,
            news,
        })
    }

    /// Whether some literal is news to the theory, as far as this is plain: with the answer nothing is claimed.
    pub(crate) fn has_news(&mut self, literals: &[Lit]) -> bool
        ensures shared { self.new.shared ≡ self.old.shared }
    {
        let from = if self.seen < literals.len() {
            self.seen
        } else {
            literals.len()
        };
        if is_new(self.news.as_slice(), &literals[from..]) {
            return true;
        }
        self.seen = literals.len();
        false
    }

    /// Notes that the theory was asked about so many literals.
    pub(crate) fn note(&mut self, count: usize)
        ensures shared { self.new.shared ≡ count }
    {
        self.shared = count;
        self.seen = count;
    }

    /// Notes that no more than so many of the literals still stand.
    pub(crate) fn cut_to(&mut self, count: usize)
        ensures fewer { self.new.shared ≤ self.old.shared }
        ensures cut { self.new.shared ≤ count }
    {
        if count < self.seen {
            self.seen = count;
        }
        if count < self.shared {
            self.shared = count;
        }
    }
}

// Whether one of the literals is over such a term.
fn is_new(news: &[bool], literals: &[Lit]) -> bool {
    for literal in literals {
        if is_set(news, literal.term) {
            return true;
        }
    }
    false
}

// Whether the flag of the term is set.
fn is_set(flags: &[bool], t: TermId) -> bool {
    match flags.get(t.0 as usize) {
        Some(flag) => *flag,
        None => false,
    }
}

// For each term whether its value says something to the theory: equations, testers, applications, and Boolean terms that are
// arguments of a constructor or a function. What the others say stands in clauses.
fn news_of(alloc: Global, table: &TermTable) -> Result<Vec<bool>, SolveError>
    ensures err { IsErrOf result SolveError.TooLarge → ⊥ }
{
    let mut news = vec![in alloc; false; table.len() as usize]?;
    for t in 0..table.len() {
        look_at(table, TermId(t), &mut news);
    }
    Ok(news)
}

// Sets the flag of the term or those of its arguments.
fn look_at(table: &TermTable, t: TermId, news: &mut Vec<bool>)
    requires inside { t.0 < length table.now }
{
    match table.core(t) {
        Core::Eq(_, _) | Core::Test(_, _) | Core::Sel(_, _) => set(news, t),
        Core::Con(_, args) => set_all(table, news, args.as_slice()),
        Core::Apply(_, args) => {
            if !args.as_slice().is_empty() {
                set(news, t);
                set_all(table, news, args.as_slice());
            }
        }
        _ => {}
    }
}

// Sets the flags of the terms, or of what they negate.
fn set_all(table: &TermTable, news: &mut Vec<bool>, terms: &[TermId]) {
    for t in terms {
        set(news, *t);
        if t.0 < table.len() {
            set_negated(table, news, *t);
        }
    }
}

// Sets the flag of what the term negates, if it is a negation.
fn set_negated(table: &TermTable, news: &mut Vec<bool>, t: TermId)
    requires inside { t.0 < length table.now }
{
    if let Core::Not(negated) = table.core(t) {
        set(news, *negated);
    }
}

// Sets the flag of the term.
fn set(flags: &mut Vec<bool>, t: TermId) {
    let place = t.0 as usize;
    if place < flags.len() {
        flags[place] = true;
    }
}
