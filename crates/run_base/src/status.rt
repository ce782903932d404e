//! How a command ends.
ghost use Rattle.std.specs.Prelude.{◌≡◌};
ghost use Rattle.run_base.specs.Statuses.{code_of_status};

use relay_store::StoreFault;

/// How a run ended. A place or an end is in bytes from the front of its tape, stream or log.
#[derive(Clone, Copy, Debug, PartialEq, Eq)]
pub enum Status {
    /// All was done, and all that is to be written was written.
    Done,
    /// What stands on the tape from this place on is no record.
    BadTape(u64),
    /// The words are no command.
    Usage,
    /// A call of the input failed.
    ReadFault,
    /// A call of the output failed.
    WriteFault,
    /// A call of a disk failed.
    Disk,
    /// All authorities of an account's method have fallen.
    Authority,
    /// A call of the repositories failed.
    Repos,
    /// A call of the feed failed.
    Feed,
    /// The door didn't say who comes next.
    Door,
    /// The disks hold no journal, and show it at this place.
    BadLog(u64),
    /// The log has no room for the next row, which would end there.
    Full(u64),
    /// The last number was given, and another one is wanted.
    SeqEnd,
    /// The input is longer than its limit.
    TooLong,
    /// Memory ran out.
    Memory,
    /// The message or the word was refused, with this number.
    Refused(u8),
    /// A call of the clock failed.
    Clock,
    /// What stands in the stream from this place on is no message that can be taken.
    BadStream(u64),
    /// The wire didn't give the next request.
    Wire,
}

impl Status {
    /// The number that the program ends with.
    pub fn code(&self) -> u8
        ensures { result ≡ code_of_status self.now }
    {
        match self {
            Status::Done => 0,
            Status::BadTape(_) => 1,
            Status::Usage => 2,
            Status::ReadFault => 3,
            Status::WriteFault => 4,
            Status::Disk => 5,
            Status::Authority => 6,
            Status::Repos => 7,
            Status::Feed => 8,
            Status::Door => 9,
            Status::BadLog(_) => 10,
            Status::Full(_) => 11,
            Status::SeqEnd => 12,
            Status::TooLong => 13,
            Status::Memory => 14,
            Status::Refused(_) => 15,
            Status::Clock => 17,
            Status::BadStream(_) => 18,
            Status::Wire => 19,
        }
    }
}

impl From<StoreFault> for Status {
    ghost use Rattle.run_base.specs.Statuses.{status_of_fault};

    ghost from_gives = { λ fault status. status ≡ status_of_fault fault };

    fn from(fault: StoreFault) -> Status {
        match fault {
            StoreFault::Disk => Status::Disk,
            StoreFault::BadLog(place) => Status::BadLog(place),
            StoreFault::Full(end) => Status::Full(end),
            StoreFault::SeqEnd => Status::SeqEnd,
            StoreFault::Authority => Status::Authority,
            StoreFault::Repos => Status::Repos,
            StoreFault::Memory => Status::Memory,
            StoreFault::Clock => Status::Clock,
        }
    }
}
