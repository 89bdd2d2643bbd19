//! Files in memory, and what is left of each slot.

ghost use Rattle.std.specs.Prelude.{[], ◌≡◌, ◌+◌, ◌^◌, ◌<◌, min, length, take, drop, ◌++◌, position, bytes_eq, Some, option_map, IfSome, IfNone, is_some};
ghost use Rattle.ct_io.specs.FileStore.{contents, unopened, file_named, left_in, with_left};
ghost use Rattle.ct_io.specs.FileOffset.{left_at};

use crate::desk::Slot;
use crate::text::Text;
use std::marker::Model;

/// An offset in one of the files: which file it is, and how many of its bytes were taken.
#[derive(Clone, Copy)]
struct FileOffset {
    file: usize,
    taken: usize,
}

/// Files in memory, and an offset in one of them for each slot that was opened.
#[derive(Drop)]
pub(crate) struct FilesInMemory {
    files: Vec<(Text, Vec<u8>)>,
    script: Option<FileOffset>,
    proof: Option<FileOffset>,
}

impl Model for FilesInMemory {
    ghost use Rattle.ct_io.specs.FileStore.{FileStore, contents};
    ghost use Rattle.ct_io.specs.FileOffset.{left_at};

    ghost Value = { FileStore };

    ghost view = { λ store.
        let files = contents store.files.items in
        record {
          files = files;
          script = left_at files store.script;
          proof = left_at files store.proof;
        } };
}

/// Which of the files is the first of this name.
fn find(files: &[(Text, Vec<u8>)], name: &str) -> Option<usize>
    ensures value { result ≡ position (λ file. bytes_eq file.0 name.now) files.now }
{
    files.iter().position(|file| file.0.as_str() == name)
}

/// Where the first file of this name begins.
fn start(files: &[(Text, Vec<u8>)], name: &str) -> Option<FileOffset>
    ensures named { file_named (contents files.now) name.now
        ≡ option_map (λ offset. left_at (contents files.now) (Some offset)) result }
{
    let file = find(files, name)?;
    Some(FileOffset { file, taken: 0 })
}

/// What is left of a file from this offset on.
fn rest(files: &[(Text, Vec<u8>)], offset: FileOffset) -> &[u8]
    ensures left { result.now ≡ left_at (contents files.now) (Some offset) }
    ensures fits { offset.taken + length result.now < 2 ^ 64 }
{
    let Some((_, bytes)) = files.get(offset.file) else {
        return &[];
    };
    bytes.get(offset.taken..).unwrap_or(&[])
}

impl FilesInMemory {
    /// Nothing is left in the slots.
    pub(crate) fn new(files: Vec<(Text, Vec<u8>)>) -> FilesInMemory
        ensures value { result ≡ unopened (contents files.items) }
    {
        FilesInMemory {
            files,
            script: None,
            proof: None,
        }
    }

    /// The offset from which the slot goes on.
    fn offset(&self, slot: Slot) -> Option<FileOffset>
        ensures left { left_in self.now slot ≡ left_at self.now.files result }
    {
        match slot {
            Slot::Script => self.script,
            Slot::Proof => self.proof,
        }
    }

    /// Lets the slot go on from this offset.
    fn set_offset(&mut self, slot: Slot, offset: Option<FileOffset>)
        ensures after { self.new ≡ with_left self.old slot (left_at self.old.files offset) }
    {
        match slot {
            Slot::Script => self.script = offset,
            Slot::Proof => self.proof = offset,
        }
    }

    /// Leaves nothing in the slot.
    pub(crate) fn clear(&mut self, slot: Slot)
        ensures after { self.new ≡ with_left self.old slot [] }
    {
        self.set_offset(slot, None);
    }

    /// Puts the file of this name into the slot, or says that there is none.
    pub(crate) fn open(&mut self, slot: Slot, name: &str) -> bool
        ensures answer { result ≡ is_some (file_named self.old.files name.now) }
        ensures found { IfSome (file_named self.old.files name.now)
            (λ bytes. self.new ≡ with_left self.old slot bytes) }
        ensures missing { IfNone (file_named self.old.files name.now) (self.new ≡ self.old) }
    {
        let Some(offset) = start(&self.files, name) else {
            return false;
        };
        self.set_offset(slot, Some(offset));
        true
    }

    /// Moves the next bytes that are left in the slot into the start of `buf`, `most` or fewer, and
    /// says how many.
    pub(crate) fn read(&mut self, slot: Slot, buf: &mut [u8], most: usize) -> usize
        ensures count { result ≡ min most (min (length buf.old) (length (left_in self.old slot))) }
        ensures bytes { buf.new ≡ take result (left_in self.old slot) ++ drop result buf.old }
        ensures after { self.new ≡ with_left self.old slot (drop result (left_in self.old slot)) }
    {
        let Some(offset) = self.offset(slot) else {
            return 0;
        };
        let left = rest(&self.files, offset);
        let count = most.min(buf.len().min(left.len()));
        buf[..count].copy_from_slice(&left[..count]);
        let taken = offset.taken + count;
        self.set_offset(slot, Some(FileOffset { taken, ..offset }));
        count
    }
}
