//! How a run ends.

ghost use Rattle.std.specs.Prelude.{◌≡◌};
ghost use Rattle.tipc_sim.specs.Statuses.{after_flush, after_streams, code_of};

/// How a run ends. (This project's profile.)
#[derive(Clone, Copy, Debug, PartialEq, Eq)]
pub enum Status {
    /// The script was run to its end, or the audit of a live run said yes and no bearer was seen to fail.
    Ok,
    /// The words after the program's name aren't a form: nothing is read or written.
    Usage,
    /// A line isn't in the grammar, names a node that isn't there, or makes one that is.
    BadLine,
    /// The source failed in this call: nothing is written.
    ReadFault,
    /// The sink failed in this call, or took nothing of a piece that isn't empty.
    WriteFault,
    /// Memory ran out.
    NoMemory,
    /// A limit is reached: the script is too long, or the world has had too many events, frames or journal entries.
    Limit,
    /// A bearer of a live run failed, or a socket couldn't be bound.
    BearerFault,
    /// The journals of a live run aren't those of a run of the world, or one doesn't show the plan and has no room for
    /// a call.
    Differ,
}

impl Status {
    /// How the run ends, by whether a read and whether a write of it failed.
    pub fn after_streams(self, unread: bool, unwritten: bool) -> Status
        ensures { result ≡ after_streams self unread unwritten }
    {
        if unread {
            Status::ReadFault
        } else if unwritten {
            Status::WriteFault
        } else {
            self
        }
    }

    /// How the run ends, by whether all that it wrote could be given out at its end: where it couldn't, the output
    /// failed. At Usage nothing was written.
    pub fn after_flush(self, flushed: bool) -> Status
        ensures { result ≡ after_flush self flushed }
    {
        if flushed || self == Status::Usage {
            self
        } else {
            Status::WriteFault
        }
    }

    /// The exit status of the program, from 0 to 8.
    pub fn code(self) -> u8
        ensures { result ≡ code_of self }
    {
        match self {
            Status::Ok => 0,
            Status::Usage => 1,
            Status::BadLine => 2,
            Status::ReadFault => 3,
            Status::WriteFault => 4,
            Status::NoMemory => 5,
            Status::Limit => 6,
            Status::BearerFault => 7,
            Status::Differ => 8,
        }
    }
}
