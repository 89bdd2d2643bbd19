//! The trait of desks, which provide the bytes of files.

ghost use Rattle.std.specs.Prelude.{◌≡◌, ◌≢◌, ◌≤◌, ℕ, List, Option, length, OnOk, OnErr, IfOk, IfSome};
ghost use Rattle.ct_io.specs.Bytes.{remaining, ReadsBytes};
ghost use Rattle.ct_io.specs.Fault.{HasCause};

/// The two inputs of the program, each opened under a name of its own.
#[derive(Clone, Copy, Debug, PartialEq, Eq)]
pub enum Slot {
    /// The script of commands.
    Script,
    /// The derivation to be audited.
    Proof,
}

/// Why a desk did not do what was asked.
#[derive(Clone, Copy, Debug, PartialEq, Eq)]
pub enum DeskError {
    /// The outside failed: the desk's count of faults rose.
    Fault,
    /// Memory ran out.
    NoMemory,
}

/// Where the program's input comes from.
///
/// A desk may tell what it holds under each name and what is left in each slot; clauses on content
/// hold where it does. Its count of faults never falls: it rises with each fault that is answered,
/// unless it stands at its last value, and every other answer leaves it as it was.
pub trait Desk {
    ghost use Rattle.ct_io.specs.declared.desk.Slot.{Slot};

    /// What is held under a name, where the desk tells it.
    ghost held: { Self → List ℕ → Option (List ℕ) };

    /// What is left in a slot, where the desk tells it.
    ghost left: { Self → Slot → Option (List ℕ) };

    /// How often the outside has failed.
    ghost faults: { Self → ℕ };

    /// Puts what the desk holds under the name into the slot, replacing what was left there.
    fn open(&mut self, slot: Slot, name: &str) -> Result<(), DeskError>
        ensures opened { OnOk result (left self.new slot ≡ held self.old name.now) }
        ensures refused { OnErr result (left self.new slot ≡ left self.old slot) }
        ensures other { (s : Slot) → s ≢ slot → left self.new s ≡ left self.old s }
        ensures names { (n : List ℕ) → held self.new n ≡ held self.old n }
        ensures cause { HasCause DeskError.Fault (faults self.old) (faults self.new) result };

    /// Moves the next bytes of the slot to the start of `buf` and returns how many: none only if `buf` is empty or
    /// nothing is left.
    fn read(&mut self, slot: Slot, buf: &mut [u8]) -> Result<usize, DeskError>
        ensures bound { IfOk result (λ n. n ≤ length buf.old) }
        ensures bytes { IfOk result (λ n. IfSome (left self.old slot) (λ bytes. ReadsBytes bytes n buf.old buf.new)) }
        ensures taken { IfOk result (λ n. left self.new slot ≡ remaining n (left self.old slot)) }
        ensures refused { OnErr result (left self.new slot ≡ left self.old slot) }
        ensures other { (s : Slot) → s ≢ slot → left self.new s ≡ left self.old s }
        ensures names { (n : List ℕ) → held self.new n ≡ held self.old n }
        ensures cause { HasCause DeskError.Fault (faults self.old) (faults self.new) result };
}
