//! A script is cut into lines.

ghost use Rattle.std.specs.Prelude.{◌≡◌, ◌<◌, ◌≤◌, ◌+◌, ◌==◌, ◌∷◌, length, position};
ghost use Rattle.tipc_sim.specs.Lines.{lines_of, is_newline};

/// Where the first newline stands, if there is one.
fn newline_in(bytes: &[u8]) -> Option<usize>
    ensures { result ≡ position is_newline bytes.now }
{
    bytes.iter().position(|byte| *byte == b'\n')
}

/// The first line of some bytes without its newline, and the bytes behind it.
pub fn first_line(bytes: &[u8]) -> (&[u8], &[u8])
    requires { 0 < length bytes.now }
    ensures lines { lines_of bytes.now ≡ result.0.now ∷ lines_of result.1.now }
    ensures within { length result.0.now ≤ length bytes.now }
    ensures shorter { length result.1.now < length bytes.now }
{
    let Some(len) = newline_in(bytes) else {
        return (bytes, &bytes[bytes.len()..]);
    };
    (&bytes[..len], &bytes[len + 1..])
}

/// How many lines some bytes have.
pub fn line_count(script: &[u8]) -> usize
    ensures { result ≡ length (lines_of script.now) }
{
    let mut rest = script;
    let mut count = 0;
    while !rest.is_empty() {
        let (_line, behind) = first_line(rest);
        count += 1;
        rest = behind;
    }
    count
}
