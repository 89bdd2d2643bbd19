//! Where the names of a text are found.
ghost use Rattle.std.specs.Prelude.{◌≡◌, ℕ, ◌<◌, length, get_or};
ghost use Rattle.ct_words.specs.NameList.{names_in};
ghost use Rattle.ct_words.specs.Storage.{AreStarts, IsChained, bucket_at};

use crate::text::{BUCKETS, bucket_of, first_name};

/// Where each of `N` names starts, and the indices of the names that share a bucket, in chains from
/// the last index down.
#[derive(Drop)]
pub(crate) struct Buckets<const N: usize> {
    // Where each name starts in the text.
    starts: [usize; N],
    // One more than the last index of each bucket, or 0.
    lasts: [usize; BUCKETS],
    // One more than the index before each index in its bucket, or 0.
    befores: [usize; N],
}

impl<const N: usize> Buckets<N> {
    /// The indices of the names of a text.
    pub(crate) fn of(text: &[u8]) -> Buckets<N>
        requires count { length (names_in text.now) ≡ N }
        ensures starts { AreStarts text.now N result.starts }
        ensures chained { IsChained (bucket_at (names_in text.now)) N result.lasts result.befores }
    {
        let starts = starts::<N>(text);
        let mut lasts = [0; BUCKETS];
        let mut befores = [0; N];
        for index in 0..N {
            let bucket = bucket_of(first_name(&text[starts[index]..]));
            befores[index] = lasts[bucket];
            lasts[bucket] = index + 1;
        }
        Buckets {
            starts,
            lasts,
            befores,
        }
    }

    /// Where the name at an index starts.
    pub(crate) fn start(&self, index: usize) -> usize
        requires within { index < N }
        ensures start { result ≡ get_or self.now.starts index 0 }
    {
        self.starts[index]
    }

    /// One more than the last index of a bucket, or 0.
    pub(crate) fn last(&self, bucket: usize) -> usize
        requires within { bucket < 64 }
        ensures last { result ≡ get_or self.now.lasts bucket 0 }
    {
        self.lasts[bucket]
    }

    /// One more than the index before this one in its bucket, or 0.
    pub(crate) fn before(&self, index: usize) -> usize
        requires within { index < N }
        ensures before { result ≡ get_or self.now.befores index 0 }
    {
        self.befores[index]
    }
}

// Where each name starts in the text.
fn starts<const N: usize>(text: &[u8]) -> [usize; N]
    requires count { length (names_in text.now) ≡ N }
    ensures starts { AreStarts text.now N result }
    ensures length { length result ≡ N }
{
    let mut starts = [0; N];
    let mut start = 0;
    for index in 0..N {
        starts[index] = start;
        start += first_name(&text[start..]).len() + 1;
    }
    starts
}
