//! Facts about all classes.
ghost use Rattle.std.specs.Prelude.{◌≡◌, ◌≤◌, length};
ghost use Rattle.ct_sorts.specs.declared.ids.SortId.{SortId};
ghost use Rattle.ct_sorts.specs.Consistent.{IsConsistent};
ghost use Rattle.ct_sorts.specs.Structure.{AreOfTheirSorts};
ghost use Rattle.ct_terms.specs.declared.ids.TermId.{TermId};
ghost use Rattle.ct_terms.specs.Terms.{IsOfSort, AreSorted, AreOrdered, AreSingle, BeginsWithTruths};
ghost use Rattle.ct_build.specs.ClassValues.{Laws};
ghost use Rattle.ct_build.specs.Known.{Known};
ghost use Rattle.ct_congr.specs.State.{AreEqual};

use ct_card::different_values;
use ct_closure::closed_tables;
use ct_congr::Classes;
use ct_sorts::structure;
use ct_values::{agreement, fitting_graphs};

/// What the steps rest on. It does nothing: a proof that needs it calls it.
pub(crate) fn facts(classes: &Classes)
    ensures long { length classes.now.reps ≡ length classes.now.terms }
    ensures sorted { AreSorted classes.now.declarations classes.now.terms }
    ensures ordered { AreOrdered classes.now.terms }
    ensures single { AreSingle classes.now.terms }
    ensures begins { BeginsWithTruths classes.now.terms }
    ensures one_sort { (x y : TermId) (s : SortId) → AreEqual classes.now x y → IsOfSort classes.now.terms x s → IsOfSort classes.now.terms y s }
    ensures consistent { IsConsistent classes.now.declarations }
    ensures of_their_sorts { AreOfTheirSorts classes.now.declarations }
    ensures some { 1 ≤ length classes.now.declarations.sorts }
{
    structure();
    let _merges = classes.merges();
    let table = classes.table();
    let _len = table.len();
    let sig = classes.signature();
    let _sorts = sig.sorts();
}

/// What holds of all classes, and the theorems on which their values rest. It does nothing: a proof that needs it calls it.
pub(crate) fn known(classes: &Classes)
    ensures known { Known classes.now }
{
    facts(classes);
    laws();
    structure();
    closed_tables();
    different_values();
    fitting_graphs();
}

// The theorems on agreement.
fn laws()
    ensures laws { Laws }
{
    agreement();
}
