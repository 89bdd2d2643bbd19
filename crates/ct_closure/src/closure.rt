//! The closure of assertions, made in their table.
ghost use Rattle.std.specs.Prelude.{◌≡◌, ◌↔◌, ◌<◌, ◌≤◌, length, All, Contains, OnOk, IfOk, IsErrOf};
ghost use Rattle.ct_sorts.specs.declared.ids.SortId.{SortId};
ghost use Rattle.ct_sorts.specs.Grown.{Begins};
ghost use Rattle.ct_card.specs.Sizes.{AreSizes};
ghost use Rattle.ct_terms.specs.declared.ids.TermId.{TermId};
ghost use Rattle.ct_terms.specs.Terms.{IsBoolean, AreSorted};
ghost use Rattle.ct_terms.specs.CoreTree.{CoreTree};
ghost use Rattle.ct_closure.specs.Closed.{InClosure, HasVariables, HasMoreThan, most_closure_terms};
ghost use Rattle.ct_closure.specs.ClosedTable.{HasTree, IsClosedTable, IsSplitTerm, AreSubtermsOf, AreRising, terms_at};
ghost use Rattle.ct_closure.specs.Variables.{variable_count};

use crate::add::MOST_TERMS;
use crate::error::CloseError;
use crate::facts::{begins, declared, sound, trees};
use crate::listing::{count_variables, marked};
use crate::steps::close_table;
use ct_card::Sizes;
use ct_sorts::Signature;
use ct_terms::{TermId, TermTable};
use std::alloc::Global;
use std::marker::Model;

/// What a search needs to know of the closure of its assertions, beside the table that holds it.
#[derive(Debug, Drop)]
pub struct Closure {
    pub(crate) split: Vec<TermId>,
    pub(crate) variables: u64,
}

impl Model for Closure {
    ghost use Rattle.ct_closure.specs.ClosedTable.{ClosureValue};

    ghost Value = { ClosureValue };

    ghost view = { λ c. record { split = c.split.items; variables = c.variables } };
}

impl Closure {
    /// The terms that are split on the constructors of their sorts, in the order of their numbers.
    pub fn split(&self) -> &[TermId]
        ensures value { result.now ≡ self.now.split }
    {
        &self.split
    }

    /// How many terms are Boolean and neither `true`, `false` nor a negation: the propositional
    /// variables of a search.
    pub fn variables(&self) -> u64
        ensures value { result ≡ self.now.variables }
    {
        self.variables
    }
}

/// Makes the closure of the assertions in their table, which holds `true`, `false`, the assertions
/// and their subterms: the least set of terms with these that has
///
/// - the subterms of its terms,
/// - for each conditional `t` that is no formula the equations of `t` with both of its branches,
/// - for each term `t` that is split and each constructor of its sort the test of `t`, and the
///   constructor term over the fields of `t`.
///
/// A term of a datatype or codatatype that is no constructor term is split where it is the argument
/// of a selection or of a test, or where its sort has more than one and finitely many values
/// (Reynolds and Blanchette 2015, on splitting). The time is near-linear in the closure.
///
/// `TooLarge` comes exactly where the closure has more than 200,000 terms. After an error the table
/// holds its old terms and some of the closure's, and is of no further use.
pub fn close(
    alloc: Global,
    sig: &Signature,
    sizes: &Sizes,
    table: &mut TermTable,
    asserts: &[TermId],
) -> Result<Closure, CloseError>
    requires sizes { AreSizes sig.now sizes.now }
    requires sorted { AreSorted sig.now table.old }
    requires asserts { All (IsBoolean table.old) asserts.now }
    requires exact { AreSubtermsOf table.old asserts.now }
    ensures grown { Begins table.old table.new }
    ensures sorted { AreSorted sig.now table.new }

    // The table holds exactly the closure.
    ensures closure { OnOk result ((t : CoreTree) → HasTree table.new t ↔ InClosure sig.now (terms_at table.old asserts.now) t) }
    ensures closed { OnOk result (IsClosedTable sig.now table.new) }
    ensures few { OnOk result (length table.new ≤ most_closure_terms) }

    // Which terms are split, and how many are propositional variables.
    ensures split { IfOk result (λ c. (t : TermId) → Contains c.split t ↔ ((sort : SortId) × IsSplitTerm sig.now table.new t sort)) }
    ensures rising { IfOk result (λ c. AreRising c.split) }
    ensures variables { IfOk result (λ c. c.variables ≡ variable_count table.new) }
    ensures propositional { IfOk result (λ c. HasVariables sig.now (terms_at table.old asserts.now) c.variables) }

    // It is refused only where it has more terms.
    ensures too_large { IsErrOf result CloseError.TooLarge → HasMoreThan sig.now (terms_at table.old asserts.now) most_closure_terms }
{
    trees();
    declared(sig);
    sound(sig, table);
    if table.len() > MOST_TERMS {
        return Err(CloseError::TooLarge);
    }
    let marks = close_table(alloc, sig, sizes, table)?;
    let split = marked(alloc, &marks)?;
    begins(table);
    let variables = count_variables(table);
    Ok(Closure { split, variables })
}
