//! The script is read from its source.

ghost use Rattle.std.specs.Prelude.{◌≡◌, ◌<◌, ◌≤◌, ◌^◌, IfErr, IfOk, IfSome, IsErrOf, Some, [], length, vec_len};
ghost use Rattle.tipc_outside.specs.Causes.{Rose};
ghost use Rattle.tipc_sim.specs.Lines.{lines_of, IsWithin};
ghost use Rattle.tipc_sim.specs.Unread.{StopsReading};

use crate::scripts::line_count;
use std::alloc::{AllocError, Global};
use tipc_outside::Source;

/// The most bytes of a script. (This project's profile.)
const MOST_BYTES: usize = 16_777_216;

/// The most lines of a script. (This project's profile.)
const MOST_LINES: usize = 65_536;

/// How many bytes are asked for at once.
const PIECE: usize = 65_536;

/// Why a source wasn't read.
#[derive(Clone, Copy, Debug, PartialEq, Eq)]
pub enum ReadStop {
    /// The source failed.
    Failed,
    /// There are more than MOST_BYTES bytes.
    TooLong,
    /// There are more than MOST_LINES lines.
    TooMany,
    /// Memory ran out.
    NoMemory,
}

impl From<AllocError> for ReadStop {
    ghost use Rattle.std.specs.Prelude.{◌≡◌};
    ghost use Rattle.tipc_sim.specs.declared.reading.ReadStop.TheVariants.{NoMemory};

    ghost from_gives = { λ _ stop. stop ≡ NoMemory };

    fn from(_error: AllocError) -> ReadStop {
        ReadStop::NoMemory
    }
}

/// Room for the bytes that are asked for at once.
fn piece_room(alloc: Global) -> Result<Vec<u8>, AllocError>
    ensures { IfOk result (λ room. vec_len room ≡ 65536) }
{
    vec![in alloc; 0; PIECE]
}

/// Reads a source to its end.
fn read_script<S: Source>(alloc: Global, source: &mut S) -> Result<Vec<u8>, ReadStop>
    ensures all { IfOk result (λ script. IfSome (S.left source.old) (λ bytes. script.items ≡ bytes)) }
    ensures end { IfOk result (λ script. IfSome (S.left source.old) (λ bytes. S.left source.new ≡ Some [])) }
    ensures short { IfOk result (λ script. length script.items ≤ 16777216) }
    ensures failed { IsErrOf result ReadStop.Failed → Rose (S.faults source.old) (S.faults source.new) }
    ensures long { IsErrOf result ReadStop.TooLong → IfSome (S.left source.old) (λ bytes. 16777216 < length bytes) }
    ensures uncounted { IsErrOf result ReadStop.TooMany → ⊥ }
    ensures later { S.faults source.old ≤ S.faults source.new }
{
    let mut script = Vec::new(alloc);
    let mut room = piece_room(alloc)?;
    for _ in 0..=MOST_BYTES {
        let Ok(count) = source.read(room.as_mut_slice()) else {
            return Err(ReadStop::Failed);
        };
        if count == 0 {
            return Ok(script);
        }
        script.extend_from_slice(&room[..count])?;
        if script.len() > MOST_BYTES {
            return Err(ReadStop::TooLong);
        }
    }
    unreachable!()
}

/// Reads a source to its end, where that is within the limits of a script.
pub fn read_within<S: Source>(alloc: Global, source: &mut S) -> Result<Vec<u8>, ReadStop>
    ensures all { IfOk result (λ script. IfSome (S.left source.old) (λ bytes. script.items ≡ bytes)) }
    ensures end { IfOk result (λ script. IfSome (S.left source.old) (λ bytes. S.left source.new ≡ Some [])) }
    ensures within { IfOk result (λ script. IsWithin script.items) }
    ensures stopped { IfErr result (λ stop. IfSome (S.left source.old) (λ bytes. StopsReading stop bytes)) }
    ensures failed { IsErrOf result ReadStop.Failed → Rose (S.faults source.old) (S.faults source.new) }
    ensures later { S.faults source.old ≤ S.faults source.new }
{
    let script = read_script(alloc, source)?;
    if line_count(script.as_slice()) > MOST_LINES {
        return Err(ReadStop::TooMany);
    }
    Ok(script)
}
