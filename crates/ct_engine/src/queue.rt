//! Variables ordered by their activity in conflicts, the most active first. Nothing that is proved rests on the order.

use std::alloc::{AllocError, Global};

// Above this activities and their increment are divided.
const TOP: u64 = 1 << 50;

// By how many bits they are shifted then.
const SHIFT: u32 = 30;

// The first increment.
const FIRST: u64 = 1 << 20;

/// Places of variables in a heap: first the one with the highest activity, of several the lowest.
#[derive(Drop)]
pub(crate) struct Queue {
    // The heap, in the first so many elements.
    heap: Vec<u32>,
    size: usize,
    // For each place its index in the heap, or a number past all.
    indices: Vec<u32>,
    // For each place its activity.
    activities: Vec<u64>,
    // What a conflict adds to an activity.
    increment: u64,
}

impl Queue {
    /// A queue of all places below this number.
    pub(crate) fn new(alloc: Global, places: usize) -> Result<Queue, AllocError> {
        let mut queue = Queue {
            heap: vec![in alloc; 0u32; places]?,
            size: 0,
            indices: vec![in alloc; u32::MAX; places]?,
            activities: vec![in alloc; 0u64; places]?,
            increment: FIRST,
        };
        for place in 0..places {
            queue.insert(number_of(place));
        }
        Ok(queue)
    }

    /// Puts a place into the queue, if it is not there.
    pub(crate) fn insert(&mut self, place: u32) {
        let index = number_of(self.size);
        if read(&self.indices, place) < index || self.size >= self.heap.len() {
            return;
        }
        self.size = self.size.saturating_add(1);
        self.put(index, place);
        self.rise(index);
    }

    /// Takes the first place out of the queue; none where it is empty.
    pub(crate) fn pop(&mut self) -> Option<u32> {
        if self.size == 0 {
            return None;
        }
        let first = read(&self.heap, 0);
        self.size -= 1;
        let last = read(&self.heap, number_of(self.size));
        write(&mut self.indices, first, u32::MAX);
        if self.size > 0 {
            self.put(0, last);
            self.sink();
        }
        Some(first)
    }

    /// Raises the activity of a place.
    pub(crate) fn bump(&mut self, place: u32) {
        let at = place as usize;
        if at >= self.activities.len() {
            return;
        }
        self.activities[at] = self.activities[at].saturating_add(self.increment);
        let index = read(&self.indices, place);
        if (index as usize) < self.size {
            self.rise(index);
        }
    }

    /// Makes later conflicts count for more: activities decay by a twentieth.
    pub(crate) fn decay(&mut self) {
        self.increment = self.increment.saturating_add(self.increment / 19);
        if self.increment < TOP {
            return;
        }
        self.increment >>= SHIFT;
        for place in 0..self.activities.len() {
            if place < self.activities.len() {
                self.activities[place] >>= SHIFT;
            }
        }
    }

    // Moves the place at this index up to where it belongs.
    fn rise(&mut self, index: u32) {
        let mut index = index;
        for _ in 0..32 {
            if index == 0 {
                return;
            }
            let parent = (index - 1) / 2;
            if !self.is_before(index, parent) {
                return;
            }
            self.swap(index, parent);
            index = parent;
        }
    }

    // Moves the first place down to where it belongs.
    fn sink(&mut self) {
        let mut index = 0;
        for _ in 0..32 {
            let child = self.first_child(index);
            if child as usize >= self.size {
                return;
            }
            if !self.is_before(child, index) {
                return;
            }
            self.swap(index, child);
            index = child;
        }
    }

    // Of the two indices below this one the one whose place comes first.
    fn first_child(&self, index: u32) -> u32 {
        let left = index.saturating_mul(2).saturating_add(1);
        let right = left.saturating_add(1);
        if right as usize >= self.size {
            return left;
        }
        if self.is_before(right, left) {
            right
        } else {
            left
        }
    }

    // Whether the place at the one index comes before that at the other.
    fn is_before(&self, index: u32, other: u32) -> bool {
        let a = read(&self.heap, index);
        let b = read(&self.heap, other);
        let x = self.activity(a);
        let y = self.activity(b);
        x > y || (x == y && a < b)
    }

    // The activity of a place.
    fn activity(&self, place: u32) -> u64 {
        let at = place as usize;
        if at < self.activities.len() {
            self.activities[at]
        } else {
            0
        }
    }

    // Exchanges the places at two indices.
    fn swap(&mut self, index: u32, other: u32) {
        let a = read(&self.heap, index);
        let b = read(&self.heap, other);
        self.put(index, b);
        self.put(other, a);
    }

    // Puts a place at an index.
    fn put(&mut self, index: u32, place: u32) {
        write(&mut self.heap, index, place);
        write(&mut self.indices, place, index);
    }
}

/// The number, where it has 32 bits; else the highest one.
pub(crate) fn number_of(index: usize) -> u32 {
    if index < u32::MAX as usize {
        index as u32
    } else {
        u32::MAX
    }
}

/// The number at this index; the highest one past all.
pub(crate) fn read(numbers: &Vec<u32>, index: u32) -> u32 {
    let at = index as usize;
    if at < numbers.len() {
        numbers[at]
    } else {
        u32::MAX
    }
}

/// Sets the number at this index, where there is one.
pub(crate) fn write(numbers: &mut Vec<u32>, index: u32, number: u32) {
    let at = index as usize;
    if at < numbers.len() {
        numbers[at] = number;
    }
}
