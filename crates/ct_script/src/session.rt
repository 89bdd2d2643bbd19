//! The session: commands in order, with the answers and the errors that they gave.
ghost use Rattle.std.specs.Prelude.{◌≡◌, map, None, Ok, IfOk, OnErr};
ghost use Rattle.ct_sexpr.specs.View.{expression_of};
ghost use Rattle.ct_formulas.specs.TreeFormula.{formula_of};
ghost use Rattle.ct_command.specs.Reading.{command};
ghost use Rattle.ct_command.specs.Command.{check_sat_assuming};
ghost use Rattle.ct_command.specs.Seen.{all_seen, items_seen, command_seen};
ghost use Rattle.ct_stack.specs.Stack.{in_force};
ghost use Rattle.ct_stack.specs.Held.{context_in, as_one, IsSoundLevel, IsHeld};
ghost use Rattle.ct_step.specs.State.{first_state, context_of};
ghost use Rattle.ct_step.specs.Store.{first_store, IsStoreOf, StoresBy};
ghost use Rattle.ct_step.specs.Evidence.{no_evidence};
ghost use Rattle.ct_step.specs.Rehearsal.{assumed_terms};
ghost use Rattle.ct_script.specs.Replay.{Replays, IsStepped, is_check, hangs, changes, standing_by, unless_refused};
ghost use Rattle.ct_step.specs.Done.{IsAnswer};
ghost use Rattle.ct_script.specs.Given.{evidence_in};
ghost use Rattle.ct_script.specs.Session.{after, starting_course, reached};
ghost use Rattle.ct_step.specs.Step.{CommandEffect, Step, Steps, counted_with, one_more};

use crate::error::SessionError;
use crate::replay::{Replayed, Standing};
use ct_check::Scope;
use ct_command::{Command, CommandError, ErrorBehavior, command_of};
use ct_engine::{Kept, Verdict};
use ct_formulas::Tree;
use ct_sexpr::Sexpr;
use ct_shrink::Shrunk;
use ct_sorts::growth;
use ct_stack::{AssertionStack, ModelValues};
use ct_step::{
    Answer, Cache, CheckResponse, Options, SessionState, empty_cache, perform, refused,
    rehearse_assuming,
};
use ct_terms::{TermId, TermTable};
use std::alloc::Global;
use std::marker::Model;

/// An error of a script: its line, counted from 1, and its number.
pub type ScriptError = (u64, u16);

/// What a session gave.
#[derive(Drop)]
pub struct Given {
    /// The answers of its checks, in order.
    pub responses: Vec<CheckResponse>,
    /// Its errors, in order.
    pub errors: Vec<ScriptError>,
    /// The last verdict, with what shows that it is right.
    pub last: Option<Verdict>,
    /// The last core that was shrunk, with what shows of each of its members whether it is needed.
    pub shrunk: Option<Shrunk>,
}

/// What a script has declared and asserted, its options, and what was answered.
#[derive(Drop)]
pub struct Session {
    alloc: Global,
    state: SessionState,
    // The clauses that the theory gave in earlier checks.
    store: Kept,
    // What is stored for speed alone.
    cache: Cache,
    // What is known of values in the model that stands.
    known: Option<ModelValues>,
    errors: Vec<ScriptError>,
    // How many checks there were.
    number: u64,
}

impl Model for Session {
    ghost use Rattle.ct_step.specs.Done.{state_of, evidence_of};
    ghost use Rattle.ct_step.specs.Store.{IsSoundWith};
    ghost use Rattle.ct_step.specs.Cache.{IsCacheOf};
    ghost use Rattle.ct_step.specs.State.{declared};
    ghost use Rattle.ct_step.specs.Known.{AreKnown};
    ghost use Rattle.ct_script.specs.Session.{Course};

    ghost Value = { Course };

    ghost use Rattle.std.specs.Coded.{codes};
    ghost use Rattle.ct_sorts.specs.ExpressionCode.{coded_expression};
    ghost use Rattle.ct_stack.specs.FormulaCode.{coded_formula};

    ghost coded = { Prim.hlevel (codes, coded_expression, coded_formula) };

    ghost view = { λ s. record { state = state_of s.state; number = s.number; evidence = evidence_of s.state; errors = s.errors.items; store = s.store } };

    ghost invariant = { λ s. IsSoundWith (state_of s.state) s.store × IsCacheOf (declared (state_of s.state)) s.cache × AreKnown (state_of s.state) s.known };
}

impl Session {
    /// A session in which nothing is declared and nothing is asserted, where this follows an error.
    pub fn new(alloc: Global, behavior: ErrorBehavior) -> Result<Session, SessionError>
        ensures empty { IfOk result (λ s. s ≡ starting_course behavior) }
    {
        let store = new_store(alloc)?;
        let stack = AssertionStack::new(alloc)?;
        Ok(Session {
            alloc,
            state: SessionState {
                stack,
                labels: Vec::new(alloc),
                options: Options::new(behavior),
                diagnostic_output: None,
                responses: Vec::new(alloc),
                last: None,
                shrunk: None,
                kept: None,
            },
            store,
            cache: empty_cache(),
            known: None,
            errors: Vec::new(alloc),
            number: 0,
        })
    }

    /// Answers a command that begins on this line. A refused command changes nothing but the list of errors, and ends the script
    /// under immediate exit; and a check without assumptions, also one that is refused, is counted. Where memory runs out nothing has
    /// changed.
    ///
    /// A check begins with the clauses that the theory gave in earlier checks and keeps those that it gave in this one; a
    /// command that takes declarations back takes the clauses that name them.
    pub fn command(&mut self, line: u64, expr: &Sexpr) -> Result<Answer, SessionError>
        ensures stepped { IfOk result (λ a. (e : CommandEffect) × Step self.old.state self.old.number line (expression_of expr.now) e
            × (self.new ≡ after self.old line (expression_of expr.now) e self.new.store) × IsAnswer e a) }
        ensures stored { IfOk result (λ a. StoresBy self.old.state (command (expression_of expr.now)) a.error self.new.evidence.last self.old.store self.new.store) }
        ensures unchanged { OnErr result (self.new ≡ self.old) }
    {
        match command_of(self.alloc, expr) {
            Ok(command) => self.perform(line, command),
            Err(CommandError::Refused(code)) => {
                let options = self.state.options;
                Ok(refused(self.alloc, &mut self.errors, options, line, code)?)
            }
            Err(CommandError::NoMemory) => Err(SessionError),
        }
    }

    /// Makes the change of declarations, assertions, levels and options that a command on this line makes, without solving and
    /// without an answer: a check is only counted, one with assumptions declares the sorts that its terms need, and a question about
    /// what the last verdict left is passed over, if its refusal hangs on that verdict. A refused command changes nothing but the list
    /// of errors, and ends the script under immediate exit. Where memory runs out nothing has changed. The caller keeps of what check a
    /// verdict stands.
    pub fn replay(
        &mut self,
        line: u64,
        expr: &Sexpr,
        standing: Standing,
    ) -> Result<Replayed, SessionError>
        requires unanswered { self.old.evidence ≡ no_evidence }
        ensures replayed { IfOk result (Replays self.old standing line (command (expression_of expr.now)) self.new) }
        ensures unanswered { self.new.evidence ≡ no_evidence }
        ensures unchanged { OnErr result (self.new ≡ self.old) }
    {
        match command_of(self.alloc, expr) {
            Ok(command) => self.replay_command(line, command, standing),
            Err(CommandError::Refused(code)) => {
                let options = self.state.options;
                let answer = refused(self.alloc, &mut self.errors, options, line, code)?;
                Ok(Replayed {
                    check: false,
                    stop: answer.stop,
                    standing,
                })
            }
            Err(CommandError::NoMemory) => Err(SessionError),
        }
    }

    /// How many checks there were.
    pub fn checks(&self) -> u64
        ensures value { result ≡ self.now.number }
    {
        self.number
    }

    /// What is declared and defined.
    pub fn scope(&self) -> &Scope
        ensures value { context_in result.now ≡ context_of self.now.state }
        ensures sound { IsSoundLevel (as_one self.now.state.stack) }
    {
        self.state.stack.scope()
    }

    /// The assertions in force.
    pub fn assertions(&self) -> &[Tree]
        ensures value { map formula_of result.now ≡ in_force self.now.state.stack }
    {
        self.state.stack.assertions()
    }

    /// The table of the core terms of the assertions in force, with their subterms and no others, and the numbers of these core
    /// terms, in order.
    pub fn core_terms(&self) -> (&TermTable, &[TermId])
        ensures held { IsHeld (as_one self.now.state.stack) result.0.now result.1.now }
    {
        self.state.stack.core_terms()
    }

    /// The theory lemmas of the checks so far that can still be named, at most 4,096.
    pub fn kept(&self) -> &Kept
        ensures value { result.now ≡ self.now.store }
        ensures sorted { IsStoreOf self.now.state self.now.store }
    {
        &self.store
    }

    /// The answers of all checks so far.
    pub fn responses(&self) -> &[CheckResponse]
        ensures value { result.now ≡ self.now.evidence.responses }
    {
        self.state.responses.as_slice()
    }

    /// What the session gave: the answers of its checks, its errors, the last verdict, and the last core that was shrunk.
    pub fn finish(self) -> Given
        ensures kept { evidence_in result ≡ self.evidence }
        ensures errors { result.errors.items ≡ self.errors }
    {
        let state = self.state;
        drop(state.stack);
        drop(self.store);
        drop(self.cache);
        drop(self.known);
        drop(state.labels);
        drop(state.kept);
        Given {
            responses: state.responses,
            errors: self.errors,
            last: state.last,
            shrunk: state.shrunk,
        }
    }

    // Counts a check, passes over what hangs on a verdict, and does every other command, of a check with assumptions all but its verdict.
    fn replay_command(
        &mut self,
        line: u64,
        command: Command<'_>,
        standing: Standing,
    ) -> Result<Replayed, SessionError>
        ensures replayed { IfOk result (Replays self.old standing line (Ok (command_seen command.entry)) self.new) }
        ensures unanswered { self.old.evidence ≡ no_evidence → self.new.evidence ≡ no_evidence }
        ensures unchanged { OnErr result (self.new ≡ self.old) }
    {
        if is_check(&command) {
            self.number = next(self.number);
            return Ok(Replayed {
                check: true,
                stop: false,
                standing: Standing::Check,
            });
        }
        if hangs(standing, &command) {
            return Ok(Replayed {
                check: false,
                stop: false,
                standing,
            });
        }
        if let Some(terms) = assumed_terms(&command) {
            return self.rehearse(line, terms, standing);
        }
        self.nothing_kept();
        let changes = changes(&command);
        let answer = self.perform(line, command)?;
        Ok(Replayed {
            check: false,
            stop: answer.stop,
            standing: standing_after(standing, changes, answer.error),
        })
    }

    // Nothing is kept of a verdict where none was given.
    fn nothing_kept(&self)
        ensures kept { self.now.evidence ≡ no_evidence → self.now.state.kept ≡ None }
    {
        let _number = self.number;
    }

    // Does what a check does that assumes these terms, but for its verdict.
    fn rehearse(
        &mut self,
        line: u64,
        terms: &[Sexpr],
        standing: Standing,
    ) -> Result<Replayed, SessionError>
        ensures rehearsed { IfOk result (IsStepped self.old standing line (Ok (check_sat_assuming (all_seen terms.now))) self.new) }
        ensures unanswered { self.old.evidence ≡ no_evidence → self.new.evidence ≡ no_evidence }
        ensures unchanged { OnErr result (self.new ≡ self.old) }
    {
        let options = self.state.options;
        match rehearse_assuming(self.alloc, &mut self.state, terms) {
            Ok(()) => Ok(Replayed {
                check: false,
                stop: false,
                standing: Standing::Assuming,
            }),
            Err(CommandError::Refused(code)) => {
                let answer = refused(self.alloc, &mut self.errors, options, line, code)?;
                Ok(Replayed {
                    check: false,
                    stop: answer.stop,
                    standing,
                })
            }
            Err(CommandError::NoMemory) => Err(SessionError),
        }
    }

    // Does a command, or answers why it is refused.
    fn perform(&mut self, line: u64, command: Command<'_>) -> Result<Answer, SessionError>
        ensures stepped { IfOk result (λ a. (e : CommandEffect) × Steps self.old.state (counted_with self.old.number (command_seen command.entry)) line (Ok (command_seen command.entry)) e
            × (self.new ≡ reached self.old line (counted_with self.old.number (command_seen command.entry)) e self.new.store) × IsAnswer e a) }
        ensures stored { IfOk result (λ a. StoresBy self.old.state (Ok (command_seen command.entry)) a.error self.new.evidence.last self.old.store self.new.store) }
        ensures unchanged { OnErr result (self.new ≡ self.old) }
    {
        let number = counted(self.number, &command);
        let options = self.state.options;
        match perform(
            self.alloc,
            &mut self.state,
            &mut self.store,
            &mut self.cache,
            &mut self.known,
            number,
            command,
        ) {
            Ok(answer) => {
                self.number = number;
                Ok(answer)
            }
            Err(CommandError::Refused(code)) => {
                let answer = refused(self.alloc, &mut self.errors, options, line, code)?;
                self.number = number;
                Ok(answer)
            }
            Err(CommandError::NoMemory) => Err(SessionError),
        }
    }
}

// How many checks there were, with this command; the last number stays.
fn counted(number: u64, command: &Command<'_>) -> u64
    ensures value { result ≡ counted_with number (command_seen command.now) }
{
    if matches!(command, Command::CheckSat) {
        return next(number);
    }
    number
}

// Whether the command is a check.
fn is_check(command: &Command<'_>) -> bool
    ensures value { result ≡ is_check (Ok (command_seen command.now)) }
{
    matches!(command, Command::CheckSat)
}

// What the command assumes, where it is a check with assumptions.
fn assumed_terms<'a>(command: &Command<'a>) -> Option<&'a [Sexpr]>
    ensures value { items_seen result ≡ assumed_terms (Ok (command_seen command.now)) }
{
    match command {
        Command::CheckSatAssuming(terms) => Some(terms),
        _ => None,
    }
}

// Whether the command asks for what the last verdict left, and hangs on that verdict.
fn hangs(standing: Standing, command: &Command<'_>) -> bool
    ensures value { result ≡ hangs standing (Ok (command_seen command.now)) }
{
    match command {
        Command::GetModel | Command::GetValue(_) | Command::GetUnsatCore => standing.stands(),
        Command::GetProof => standing.is_numbered(),
        Command::GetUnsatAssumptions => standing.is_assuming(),
        _ => false,
    }
}

// Whether no verdict stands after the command, where it is accepted.
fn changes(command: &Command<'_>) -> bool
    ensures value { result ≡ changes (Ok (command_seen command.now)) }
{
    matches!(
        command,
        Command::DeclareSort(..)
            | Command::DefineSort(..)
            | Command::DeclareBlock(..)
            | Command::DeclareFun(..)
            | Command::DefineFun(..)
            | Command::Assert(..)
            | Command::Push(_)
            | Command::Pop(_)
            | Command::ResetAssertions
            | Command::Reset
    )
}

// Of what check a verdict stands after a command that is no check, by its error.
fn standing_after(standing: Standing, changes: bool, error: Option<u16>) -> Standing
    ensures value { result ≡ unless_refused error standing (standing_by None changes standing) }
{
    if error.is_some() || !changes {
        return standing;
    }
    Standing::Nothing
}

// One more; the last number stays.
fn next(number: u64) -> u64
    ensures value { result ≡ one_more number }
{
    if number < u64::MAX {
        return number + 1;
    }
    number
}

// A store without clauses.
fn new_store(alloc: Global) -> Result<Kept, SessionError>
    ensures empty { IfOk result (λ store. store ≡ first_store) }
    ensures sorted { IfOk result (IsStoreOf first_state) }
{
    growth();
    match Kept::new(alloc) {
        Ok(store) => Ok(store),
        Err(_) => Err(SessionError),
    }
}
