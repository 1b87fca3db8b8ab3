//! How a command ends that was done.
ghost use Rattle.std.specs.Prelude.{◌≡◌, ◌⊎◌, if◌then◌else◌, max};
ghost use Rattle.ps_command.specs.Statuses.{ended_status};

/// How a command ends that was done, the worst at last.
#[derive(Clone, Copy)]
pub(crate) enum Ended {
    Done,
    /// What is printed says that the files are refused, or one of them, or what it warns of.
    Refused,
    /// A file could not be read, and the others are printed.
    Unread,
}

impl Ended {
    /// The end of a command of which this says whether what it prints is a refusal.
    pub(crate) fn of(refused: bool) -> Ended
        ensures { ended_status result ≡ (if refused then 1 else 0) }
    {
        if refused { Ended::Refused } else { Ended::Done }
    }

    /// The worse of two ends.
    pub(crate) fn worse(self, other: Ended) -> Ended
        ensures { ended_status result ≡ max (ended_status self) (ended_status other) }
    {
        match (self, other) {
            (Ended::Unread, _) | (_, Ended::Unread) => Ended::Unread,
            (Ended::Refused, _) | (_, Ended::Refused) => Ended::Refused,
            (Ended::Done, Ended::Done) => Ended::Done,
        }
    }

    /// What the process ends with.
    pub(crate) fn status(self) -> u8
        ensures value { result ≡ ended_status self }
        ensures known { (result ≡ 0) ⊎ (result ≡ 1) ⊎ (result ≡ 3) }
    {
        match self {
            Ended::Done => 0,
            Ended::Refused => 1,
            Ended::Unread => 3,
        }
    }
}
