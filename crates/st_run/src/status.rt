ghost use Rattle.std.specs.Prelude.{◌≡◌};

/// How a run ends.
#[derive(Clone, Copy, Debug, PartialEq, Eq)]
pub enum Status {
    /// The report was written.
    Ok,
    /// The words are no command.
    Usage,
    /// The input could not be read.
    ReadFault,
    /// The text could not be written.
    WriteFault,
    /// The input is none that is taken.
    BadInput,
    /// Memory was refused.
    OutOfMemory,
    /// The input delivers a seal that nobody made.
    Forged,
    /// A disk failed.
    DiskFault,
    /// A link failed.
    LinkFault,
    /// A server's file is no journal.
    NotJournal,
    /// The input is too long, or too much would be sent.
    TooLarge,
    /// A server's journal is full.
    JournalFull,
}

impl Status {
    ghost use Rattle.st_run.specs.Exit.{exit_code};

    /// The exit status of the program.
    pub fn exit_code(self) -> u8
        ensures { result ≡ exit_code self }
    {
        match self {
            Status::Ok => 0,
            Status::Usage => 1,
            Status::ReadFault => 2,
            Status::WriteFault => 3,
            Status::BadInput => 4,
            Status::OutOfMemory => 5,
            Status::Forged => 6,
            Status::DiskFault => 7,
            Status::LinkFault => 8,
            Status::NotJournal => 9,
            Status::TooLarge => 10,
            Status::JournalFull => 11,
        }
    }
}
