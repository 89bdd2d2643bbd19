//! What an interpretation is: a graph of values, and tables of functions and selectors.

ghost use Rattle.std.specs.Prelude.{◌≡◌};

use ct_values::{Graph, NodeId, NodeIds};
use std::marker::Model;

/// A row of a table: what the table gives for these arguments.
#[derive(Debug, Drop)]
pub struct Row {
    /// The arguments, in order.
    pub args: NodeIds,
    /// The value that the table gives for them.
    pub result: NodeId,
}

/// The rows of a table, in order. Clauses see a list.
#[derive(Debug, Drop)]
pub struct Rows {
    rows: Vec<Row>,
}

impl Model for Rows {
    ghost use Rattle.std.specs.Prelude.{List};
    ghost use Rattle.ct_eval.specs.declared.interp.Row.{Row};

    ghost Value = { List Row };

    ghost view = { λ stored. stored.rows.items };
}

impl Rows {
    /// These rows. Takes no memory.
    pub fn new(rows: Vec<Row>) -> Rows
        ensures value { result ≡ rows.items }
    {
        Rows { rows }
    }

    /// The rows.
    pub fn as_slice(&self) -> &[Row]
        ensures value { result.now ≡ self.now }
    {
        self.rows.as_slice()
    }

    /// The vector that the rows were made from. Takes no memory.
    pub fn into_vec(self) -> Vec<Row>
        ensures value { result.items ≡ self }
    {
        self.rows
    }
}

/// What a function gives for all arguments, or a selector where it is wrongly applied. The first
/// row whose arguments are equal values as those that are given decides, and where there is none
/// the default.
#[derive(Debug, Drop)]
pub struct Table {
    /// The rows, of which the first that fits decides.
    pub rows: Rows,
    /// What the table gives for all other arguments.
    pub default: NodeId,
}

/// Tables, in order. Clauses see a list.
#[derive(Debug, Drop)]
pub struct Tables {
    tables: Vec<Table>,
}

impl Model for Tables {
    ghost use Rattle.std.specs.Prelude.{List};
    ghost use Rattle.ct_eval.specs.declared.interp.Table.{Table};

    ghost Value = { List Table };

    ghost view = { λ stored. stored.tables.items };
}

impl Tables {
    /// These tables. Takes no memory.
    pub fn new(tables: Vec<Table>) -> Tables
        ensures value { result ≡ tables.items }
    {
        Tables { tables }
    }

    /// The tables.
    pub fn as_slice(&self) -> &[Table]
        ensures value { result.now ≡ self.now }
    {
        self.tables.as_slice()
    }

    /// The vector that the tables were made from. Takes no memory.
    pub fn into_vec(self) -> Vec<Table>
        ensures value { result.items ≡ self }
    {
        self.tables
    }
}

/// An interpretation: the values that it speaks of, and the tables of functions and selectors.
#[derive(Debug, Drop)]
pub struct Interp {
    /// The nodes of which the tables speak.
    pub graph: Graph,
    /// The table of each function, in the order of their numbers.
    pub funs: Tables,
    /// The table of each selector for wrong applications, in the order of their numbers.
    pub offs: Tables,
}

/// What the terms of a table mean in an interpretation.
#[derive(Debug, Drop)]
pub struct Valuation {
    /// The graph of the interpretation, with further nodes after it.
    pub graph: Graph,
    /// A node for each term, in the order of their numbers.
    pub nodes: NodeIds,
}
