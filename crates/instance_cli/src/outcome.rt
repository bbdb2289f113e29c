//! How the whole job ends: the statuses, their numbers and their texts on standard error.
ghost use Rattle.std.specs.Prelude.{◌≡◌};
ghost use Rattle.std.specs.Option.{option_map};

/// The status that the program ends with.
#[derive(Clone, Copy, Debug, PartialEq, Eq)]
pub enum Status {
    /// The whole job was done, and no line was refused.
    Done,
    /// The whole script was run, and some line was refused.
    DoneRefused,
    /// The words mean no settings.
    Usage,
    /// The script isn't there.
    Missing,
    /// A file couldn't be read.
    ReadFault,
    /// The report couldn't be written.
    WriteFault,
    /// Memory was short.
    Memory,
    /// The script is above 16 MiB.
    TooLong,
    /// The script isn't UTF-8.
    NotText,
    /// The report isn't accepted.
    Rejected,
    /// The weights file isn't as it must be.
    BadWeights,
}

impl Status {
    ghost use Rattle.instance_cli.specs.Statuses.{status_number, status_text};

    /// The number that the program ends with.
    pub fn number(self) -> u8
        ensures { result ≡ status_number self }
    {
        match self {
            Status::Done => 0,
            Status::DoneRefused => 1,
            Status::Usage => 2,
            Status::Missing => 3,
            Status::ReadFault => 4,
            Status::WriteFault => 5,
            Status::Memory => 6,
            Status::TooLong => 7,
            Status::NotText => 8,
            Status::Rejected => 9,
            Status::BadWeights => 10,
        }
    }

    /// What the program says on standard error, if anything.
    pub fn text(self) -> Option<&'static str>
        ensures { option_map (λ text. text.now) result ≡ status_text self }
    {
        match self {
            Status::Done => None,
            Status::DoneRefused => None,
            Status::Usage => Some("scr: usage"),
            Status::Missing => Some("scr: missing file"),
            Status::ReadFault => Some("scr: read fault"),
            Status::WriteFault => Some("scr: write fault"),
            Status::Memory => Some("scr: out of memory"),
            Status::TooLong => Some("scr: too long"),
            Status::NotText => Some("scr: not text"),
            Status::Rejected => Some("scr: rejected"),
            Status::BadWeights => Some("scr: bad weights"),
        }
    }
}
