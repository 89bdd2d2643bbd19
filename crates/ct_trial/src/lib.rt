//! The model of an earlier check, tried on what is asserted now: an interpretation that grows, with the values of terms in it.
//!
//! A trial has the values of the first terms of a table in an interpretation of what is declared. It is asked whether assertions are
//! true, which costs what is new since it was last asked: the values of terms stay, also where terms and functions are taken back
//! behind them. The interpretation is the caller's, who hands it over for each call: while a verdict with it stands it is not changed.
//!
//! Design choices:
//!
//! **How the interpretation grows.** A function declared since gets a table whose default is some node of its sort. Where a term
//! applies a function to values for which there is no row, a row is put at the end of the function's table. So each application
//! that has a value has a row for its arguments, and a new row changes no value that is known: rows are found by their arguments,
//! and no other application has these.
//!
//! **What a new row gives.** Any node of the sort would be right, since what is true is found by evaluation. A term that a new
//! assertion equates with another one takes that one's value, and one that is asserted becomes `true`. Any other term of an
//! uninterpreted sort takes an element that nothing is equal to yet, so that it differs from all that was there. Where neither
//! applies, the row gives the table's default.
//!
//! **Elements that nothing is equal to yet** are put into the graph once, when the trial begins, as many as the graph has nodes
//! and at least some hundreds. When they run out, the trial ends: the next search gives a model with which another one begins.
//! Since nothing is put into the graph but these and the values of terms, its size stays within a constant factor of what the
//! model and the terms need.
//!
//! **What ends a trial.** An error, after which nothing is said of it. Sorts and constructors that go take nodes of the graph
//! with them, so a trial goes too; `cut` therefore asks that none went.
//!
//! **A last model** is a trial with its interpretation and a copy of the terms whose values it has. Which of these terms still have
//! their numbers is found by comparing them with the table at hand, so its only condition is that it is of what is declared, or of an
//! earlier state of that (`IsLastModel`). What it gives is a copy of its interpretation.
#![tactic(auto)]

mod error;
mod functions;
mod graph;
mod last_model;
mod over;
mod rows;
mod same;
mod sources;
mod stored;
mod supply;
mod tables;
mod theorems;
mod trial;

pub use error::TrialError;
pub use last_model::LastModel;
pub use tables::copied;
pub use theorems::lasting_models;
pub use trial::Trial;
