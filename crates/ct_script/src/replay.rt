//! What a replay returns for a command, and what it knows of the last check without solving.
ghost use Rattle.std.specs.Prelude.{◌≡◌};
ghost use Rattle.ct_script.specs.Replay.{stands, is_numbered, is_assuming};

/// Of what check a verdict stands, whatever that verdict is.
#[derive(Clone, Copy, Debug, PartialEq, Eq)]
pub enum Standing {
    /// Of none: nothing was checked, or something has changed since.
    Nothing,
    /// Of a check without assumptions.
    Check,
    /// Of a check with assumptions, even if these were none.
    Assuming,
}

impl Standing {
    /// Whether a verdict stands.
    pub(crate) fn stands(self) -> bool
        ensures value { result ≡ stands self }
    {
        matches!(self, Standing::Check | Standing::Assuming)
    }

    /// Whether that of a check without assumptions stands.
    pub(crate) fn is_numbered(self) -> bool
        ensures value { result ≡ is_numbered self }
    {
        matches!(self, Standing::Check)
    }

    /// Whether that of a check with assumptions stands.
    pub(crate) fn is_assuming(self) -> bool
        ensures value { result ≡ is_assuming self }
    {
        matches!(self, Standing::Assuming)
    }
}

/// What is told of a command that is replayed.
#[derive(Clone, Copy, Debug, PartialEq, Eq)]
pub struct Replayed {
    /// Whether the command is a check.
    pub check: bool,
    /// Whether the script ends with the command.
    pub stop: bool,
    /// Of what check a verdict stands after the command.
    pub standing: Standing,
}
