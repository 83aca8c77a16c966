//! The limits at which a run ends.

ghost use Rattle.std.specs.Prelude.{◌≡◌};
ghost use Rattle.tipc_report.specs.Closing.{limit_number, limit_word};

/// A limit of a scripted run. (This project's profile.)
#[derive(Clone, Copy, Debug, PartialEq, Eq)]
pub enum Which {
    /// The bytes of the script.
    Bytes,
    /// The lines of the script.
    Lines,
    /// The events of the run.
    Events,
    /// The frames in the air of both bearers together.
    Frames,
    /// The entries of a journal.
    Journal,
}

impl Which {
    /// How many there may be.
    pub fn number(self) -> u64
        ensures { result ≡ limit_number self }
    {
        match self {
            Which::Bytes => 16_777_216,
            Which::Lines => 65_536,
            Which::Events => 300_000,
            Which::Frames => 100_000,
            Which::Journal => 1_048_576,
        }
    }

    /// How it is written.
    pub(crate) fn word(self) -> &'static str
        ensures { result.now ≡ limit_word self }
    {
        match self {
            Which::Bytes => "bytes",
            Which::Lines => "lines",
            Which::Events => "events",
            Which::Frames => "frames",
            Which::Journal => "journal",
        }
    }
}
