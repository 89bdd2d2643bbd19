//! The status with which a run ends, and its exit code.

ghost use Rattle.std.specs.Prelude.{◌≡◌};
ghost use Rattle.ct_io.specs.Status.{code_of};

/// How a run of the program ended.
#[derive(Clone, Copy, Debug, PartialEq, Eq)]
pub enum Status {
    /// Everything was done.
    Done,
    /// The script was answered to its end, with at least one error.
    Refused,
    /// The arguments of the command line have none of the accepted forms.
    Usage,
    /// The desk could not give what was asked of it.
    InputFault,
    /// The sink could not take what was written.
    OutputFault,
    /// Memory ran out.
    NoMemory,
    /// A derivation has no reading, or does not pass the checker.
    Rejected,
    /// A slot holds more than 67,108,864 bytes.
    TooLong,
}

impl Status {
    /// The exit status of the process: 0 to 7, in the order of the variants.
    pub fn code(self) -> u8
        ensures value { result ≡ code_of self }
    {
        match self {
            Status::Done => 0,
            Status::Refused => 1,
            Status::Usage => 2,
            Status::InputFault => 3,
            Status::OutputFault => 4,
            Status::NoMemory => 5,
            Status::Rejected => 6,
            Status::TooLong => 7,
        }
    }
}
