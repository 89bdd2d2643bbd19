//! Which open classes must have different values, and the smallest numbers of values that are so.
use crate::class_terms::{core_of, is_false, rep_of};
use crate::error::BuildError;
use crate::open_classes::{OpenClass, term_sort};
use ct_congr::Classes;
use ct_sorts::Kind;
use ct_terms::{Core, TermId};
use std::alloc::Global;

// In how many rounds the next number is tried, and from how many others a class may be told there.
const STEPS: u32 = 3;

const FEW: u64 = 64;

/// What is asked of the numbers of values of open classes. Nobody relies on it: whether terms mean what they must is judged
/// in the interpretation.
#[derive(Debug, Drop)]
pub(crate) struct Demands {
    /// For each term the index of the open class that it represents.
    index: Vec<Option<usize>>,
    /// For each open class those before it that must have another number.
    others: Vec<Vec<usize>>,
    /// For each open class the least number that it may have.
    least: Vec<u64>,
    /// For each open class how many classes that are not open an equation tells it from.
    apart: Vec<u64>,
}

impl Demands {
    /// Nothing is asked yet.
    pub(crate) fn new(
        alloc: Global,
        classes: &Classes,
        unbuilt: &[OpenClass],
    ) -> Result<Demands, BuildError> {
        let mut index = vec![in alloc; None; classes.table().len() as usize]?;
        let mut others = Vec::new(alloc);
        for i in 0..unbuilt.len() {
            set_index(unbuilt[i].rep, i, &mut index);
            others.push(Vec::new(alloc))?;
        }
        let least = vec![in alloc; 0u64; unbuilt.len()]?;
        let apart = count_apart(alloc, classes, &index, unbuilt.len())?;
        Ok(Demands {
            index,
            others,
            least,
            apart,
        })
    }

    /// The smallest numbers that meet the demands, for one open class after the other.
    pub(crate) fn numbers(&self, alloc: Global) -> Result<Vec<u64>, BuildError> {
        let mut numbers = Vec::new(alloc);
        for i in 0..self.least.len() {
            let number = if i < self.others.len() {
                least_free(alloc, self.least[i], &self.others[i], &numbers)?
            } else {
                self.least[i]
            };
            numbers.push(number)?;
        }
        Ok(numbers)
    }

    /// Asks that the two classes of these representatives, which have one value where open classes have the values of these
    /// numbers, have different ones. Whether that can be asked: one of them is open.
    pub(crate) fn add(
        &mut self,
        left: TermId,
        right: TermId,
        numbers: &[u64],
        round: u32,
    ) -> Result<bool, BuildError> {
        let Some(i) = open_index(&self.index, left) else {
            return Ok(self.raise_if_open(right, numbers, round));
        };
        let Some(j) = open_index(&self.index, right) else {
            raise(&self.apart, &mut self.least, i, numbers, round);
            return Ok(true);
        };
        if i < j {
            add_other(&mut self.others, j, i)?;
        } else {
            add_other(&mut self.others, i, j)?;
        }
        Ok(true)
    }

    // Asks for another number of the class of this representative, if it is open: whether it is.
    fn raise_if_open(&mut self, rep: TermId, numbers: &[u64], round: u32) -> bool {
        match open_index(&self.index, rep) {
            Some(i) => {
                raise(&self.apart, &mut self.least, i, numbers, round);
                true
            }
            None => false,
        }
    }

    /// Asks that open classes of sorts without constructors of which something is asked have values of their own.
    pub(crate) fn spread(&mut self, classes: &Classes, unbuilt: &[OpenClass]) {
        for i in 0..unbuilt.len() {
            if is_element(classes, unbuilt[i].rep) && is_asked(&self.others, &self.least, i) {
                raise_to(&mut self.least, i, unbuilt[i].rank);
            }
        }
    }
}

// Whether something is asked of the number of the class.
fn is_asked(others: &[Vec<usize>], least: &[u64], class: usize) -> bool {
    if class >= others.len() || class >= least.len() {
        return false;
    }
    least[class] > 0 || !others[class].is_empty()
}

// For each open class how many equations tell it from a class that is not open.
fn count_apart(
    alloc: Global,
    classes: &Classes,
    index: &[Option<usize>],
    count: usize,
) -> Result<Vec<u64>, BuildError> {
    let mut apart = vec![in alloc; 0u64; count]?;
    for t in 0..classes.table().len() {
        if let Some(class) = apart_at(classes, index, TermId(t)) {
            add_one(&mut apart, class);
        }
    }
    Ok(apart)
}

// The open class that this term tells from a class that is not open.
fn apart_at(classes: &Classes, index: &[Option<usize>], t: TermId) -> Option<usize> {
    let Some(Core::Eq(a, b)) = core_of(classes, t) else {
        return None;
    };
    if !is_false(classes, t) {
        return None;
    }
    let left = open_index(index, rep_of(classes, *a));
    let right = open_index(index, rep_of(classes, *b));
    match (left, right) {
        (Some(class), None) => Some(class),
        (None, Some(class)) => Some(class),
        _ => None,
    }
}

// Counts one more for the class.
fn add_one(counts: &mut Vec<u64>, class: usize) {
    if class < counts.len() {
        counts[class] = counts[class].saturating_add(1);
    }
}

// Whether the sort of the term has no constructors.
fn is_element(classes: &Classes, t: TermId) -> bool {
    if t.0 >= classes.table().len() {
        return false;
    }
    match classes.signature().kind(term_sort(classes, t)) {
        Kind::Free => true,
        _ => false,
    }
}

// The index of the open class that the term represents.
fn open_index(index: &[Option<usize>], t: TermId) -> Option<usize> {
    if t.0 as usize >= index.len() {
        return None;
    }
    index[t.0 as usize]
}

// The term represents the open class at this index.
fn set_index(t: TermId, i: usize, index: &mut Vec<Option<usize>>) {
    if (t.0 as usize) < index.len() {
        index[t.0 as usize] = Some(i);
    }
}

// Asks that the class has another number than an earlier one.
fn add_other(others: &mut Vec<Vec<usize>>, class: usize, earlier: usize) -> Result<(), BuildError> {
    if class < others.len() {
        others[class].push(earlier)?;
    }
    Ok(())
}

// Asks for a number above the one that the class has.
fn raise(apart: &[u64], least: &mut Vec<u64>, class: usize, numbers: &[u64], round: u32) {
    if class < numbers.len() && class < apart.len() {
        let next = next_number(numbers[class], apart[class], round);
        raise_to(least, class, next);
    }
}

// The number to try after this one: the next where the class is told from few others, and after a few rounds as many as these are, and then
// one further and further away.
fn next_number(number: u64, apart: u64, round: u32) -> u64 {
    if round < STEPS && apart <= FEW {
        return number.saturating_add(1);
    }
    if number < apart {
        return apart;
    }
    number.saturating_mul(2).saturating_add(1)
}

// Asks for this number at least.
fn raise_to(least: &mut Vec<u64>, class: usize, number: u64) {
    if class < least.len() && least[class] < number {
        least[class] = number;
    }
}

// The least number from this one on that none of the others has.
fn least_free(
    alloc: Global,
    least: u64,
    others: &[usize],
    numbers: &[u64],
) -> Result<u64, BuildError> {
    if others.is_empty() {
        return Ok(least);
    }
    let mut taken = vec![in alloc; false; others.len()]?;
    for other in others {
        take(least, numbers.get(*other).copied(), &mut taken);
    }
    Ok(least.saturating_add(first_free(&taken) as u64))
}

// Notes that the number is taken, which counts from the least.
fn take(least: u64, number: Option<u64>, taken: &mut Vec<bool>) {
    let Some(n) = number else {
        return;
    };
    if n < least {
        return;
    }
    if n - least < taken.len() as u64 {
        taken[(n - least) as usize] = true;
    }
}

// The first place that is not taken.
fn first_free(taken: &[bool]) -> usize {
    for place in 0..taken.len() {
        if !taken[place] {
            return place;
        }
    }
    taken.len()
}
