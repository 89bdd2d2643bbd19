//! Tables of names that are known in advance.
ghost use Rattle.std.specs.Prelude.{◌≡◌, ℕ, ◌<◌, ◌↔◌, length, Some, slice_get, IfSome, IfNone};
ghost use Rattle.ct_words.specs.NameList.{AreDistinct, IsListed, names_in, text_of_names};

use crate::buckets::Buckets;
use crate::text::{bucket_of, equal_bytes, first_name};
use std::marker::Model;

/// A table of `N` different names that are known beforehand. It takes no memory.
#[derive(Drop)]
pub struct NameTable<const N: usize> {
    text: &'static [u8],
    buckets: Buckets<N>,
}

// Clauses see the names in order.
impl<const N: usize> Model for NameTable<N> {
    ghost use Rattle.std.specs.Prelude.{List, ℕ};
    ghost use Rattle.ct_words.specs.NameList.{names_in};
    ghost use Rattle.ct_words.specs.Storage.{IsStorage};

    ghost Value = { List (List ℕ) };

    ghost view = { λ table. names_in table.text.now };

    ghost invariant = { λ table. IsStorage table.text.now N table.buckets.starts table.buckets.lasts table.buckets.befores };
}

impl<const N: usize> NameTable<N> {
    /// The table of the names in the text, in their order. Each is ended by a byte 10.
    pub fn new(text: &'static [u8]) -> NameTable<N>
        requires ended { text_of_names (names_in text.now) ≡ text.now }
        requires count { length (names_in text.now) ≡ N }
        requires distinct { AreDistinct (names_in text.now) }
        ensures names { result ≡ names_in text.now }
    {
        NameTable {
            text,
            buckets: Buckets::of(text),
        }
    }

    /// The index of the text among the names, counted from 0. Only names of the text's bucket are
    /// compared with it.
    pub fn find(&self, text: &[u8]) -> Option<usize>
        ensures found { IfSome result (λ index. slice_get self.now index ≡ Some text.now) }
        ensures within { IfSome result (λ index. index < N) }
        ensures none { IfNone result (IsListed self.now text.now → ⊥) }
        ensures exact { (index : ℕ) → (result ≡ Some index) ↔ (slice_get self.now index ≡ Some text.now) }
    {
        let bucket = bucket_of(text);
        let mut left = self.buckets.last(bucket);
        while left > 0 {
            let index = left - 1;
            if equal_bytes(self.name(index), text) {
                return Some(index);
            }
            left = self.buckets.before(index);
        }
        None
    }

    /// The name at an index.
    pub fn name(&self, index: usize) -> &[u8]
        requires within { index < N }
        ensures name { slice_get self.now index ≡ Some result.now }
    {
        let start = self.buckets.start(index);
        let text = self.text;
        first_name(&text[start..])
    }
}
