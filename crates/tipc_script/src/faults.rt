//! What is wrong with a line, and where.

ghost use Rattle.std.specs.Prelude.{◌≡◌};
ghost use Rattle.tipc_script.specs.declared.faults.LineFault.TheVariants as faults;

/// Why a line is refused. (This project's profile.)
#[derive(Clone, Copy, Debug, PartialEq, Eq)]
pub enum LineWhy {
    /// There is no such first word, or it can't be repeated.
    Command,
    /// The token is no number, or is out of range.
    Number,
    /// There is no such form, importance, scope or filter.
    Word,
    /// The token is no body.
    Body,
    /// A token is missing, or there are too many.
    End,
    /// The node isn't there, or is there already. A line alone doesn't tell this: whoever knows the
    /// nodes looks at it, in a line that has no other fault.
    Node,
}

/// What came in place of a command.
#[derive(Clone, Copy, Debug, PartialEq, Eq)]
pub enum LineFault {
    /// The line isn't in the grammar.
    BadLine {
        /// The byte place, from 1, of the first token that fails; for a missing token the line's length plus 1.
        place: u32,
        /// Why it fails.
        why: LineWhy,
    },
    /// Memory ran out.
    NoMemory,
}

impl From<tipc_types::NoMemory> for LineFault {
    ghost from_gives = { λ _ fault. fault ≡ faults.NoMemory };

    fn from(_error: tipc_types::NoMemory) -> LineFault {
        LineFault::NoMemory
    }
}
