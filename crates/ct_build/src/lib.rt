//! Interpretations built from congruence classes: each class gets a value, and functions and selectors get tables.
//!
//! Design choices:
//!
//! **The value of a class.** A class with a constructor term gets that constructor over the values of its arguments' classes. A
//! class of an infinite sort without one is *open*, and its value is chosen. Any other class gets the default value of its
//! sort. A function has a row for each list of values to which the terms apply it, and a selector one for each value of another
//! constructor to which it is applied.
//!
//! **Small values first.** `build_small` gives every open class the first value of its sort, and then looks for equations that are false
//! and whose sides have one value, and for applications to the same values with different results. For each it follows
//! constructors down to two classes of which one is open, and asks that these differ. The numbers of the values are then the smallest that
//! do what was asked, and all starts again, a few times. `compact` gives tables fewer rows. Nothing is proved of either result but that it
//! is well formed: whoever takes it judges it, and `bench/readable` measures it.
//!
//! **Values of open classes.** In `build` open classes must get values such that no two classes have the same value. All are tried at
//! once, with values that are 1, 2, 4 and up to 4,096 numbers apart. If none of these works, values are chosen one after the
//! other, while each open class without a value has a mark: an element of a sort that no signature has. For two classes, at
//! most one value of an open class makes their values equal. The search therefore need not backtrack, and one of as many values
//! as there are pairs of terms, plus one, works.
//!
//! **Why two classes have different values.** If all open classes have marks, classes with the same value are related by a
//! bisimulation, so they are one class. If a value makes two classes equal, they lead down to its open class and to another
//! class with that value. Two values that do so for one pair of classes are the same to each depth, since the children of
//! either are the other's, or lead down again.
#![tactic(auto)]

mod choice;
mod chosen;
mod class_graph;
mod class_list;
mod class_nodes;
mod class_terms;
mod collision;
mod compacting;
mod defaults;
mod demands;
mod differences;
mod error;
mod facts;
mod functions;
mod given;
mod interpretation;
mod numbering;
mod open_classes;
mod rows;
mod selectors;
mod small;
mod small_values;
mod valued;

pub use compacting::compact;
pub use error::BuildError;
pub use interpretation::build;
pub use small::build_small;
