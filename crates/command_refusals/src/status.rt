//! How a call of the program ends.

ghost use Rattle.std.specs.Prelude.{◌≡◌};
ghost use Rattle.command_refusals.specs.Statuses.{status_code};

/// How a call of the program ended.
#[derive(Clone, Copy)]
pub enum Status {
    /// All was done and written.
    Ok,
    /// The words are no command.
    Usage,
    /// A file could not be read, or is too large.
    FileFault,
    /// The description is refused.
    BadDescription,
    /// A source is refused.
    BadSource,
    /// The script is refused.
    BadScript,
    /// A capsule is refused.
    BadCapsule,
    /// The run met the limit of records; the report so far was written.
    LogFull,
    /// Standard output failed.
    SinkFault,
    /// Memory was refused.
    NoMemory,
    /// A report was refuted.
    Refuted,
    /// A stream ends within a frame.
    BadStream,
}

impl Status {
    /// The exit status of the program.
    pub fn code(&self) -> u8
        ensures { result ≡ status_code self.now }
    {
        match self {
            Status::Ok => 0,
            Status::Usage => 2,
            Status::FileFault => 3,
            Status::BadDescription => 4,
            Status::BadSource => 5,
            Status::BadScript => 6,
            Status::BadCapsule => 7,
            Status::LogFull => 8,
            Status::SinkFault => 9,
            Status::NoMemory => 10,
            Status::Refuted => 11,
            Status::BadStream => 12,
        }
    }
}
