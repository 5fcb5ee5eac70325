// The file of call lists. It has, for each list, the list's length, the list, the length of its
// answers, and the answers that the list has to have, both byte for byte as docs/HOST.md says. Behind
// the last list stand a length of 0, the number of lists and the number of calls, and nothing more.
// Every number has eight bytes, the lowest first.
ghost use Rattle.std.specs.Prelude.{◌≡◌};
ghost use Rattle.host.specs.Bytes.{number_at};

use super::error::ReplayError;
use std::io::Read;

// Room for a list, or for its answers and what stands behind them, full of one byte;
// rust/replay/src/file.rs writes nothing that is longer.
pub(crate) const ROOM: [u8; 8192] = [0xa5; 8192];

// The number of eight bytes, the lowest first: a function of its own for its clause, which has the definition
// of docs/HOST.md's numbers.
pub(crate) fn number(bytes: [u8; 8]) -> u64
    ensures { result ≡ number_at bytes 0 }
{
    u64::from_le_bytes(bytes)
}

// Reads the next n bytes into the front of the room, where they have room.
pub(crate) fn read<'a, R: Read>(
    file: &mut R,
    room: &'a mut [u8],
    n: usize,
) -> Result<&'a [u8], ReplayError> {
    let front = room.get_mut(..n).ok_or(ReplayError::Malformed)?;
    file.read_exact(front)?;
    Ok(front)
}

// Reads the next number.
pub(crate) fn read_number<R: Read>(file: &mut R) -> Result<u64, ReplayError> {
    let mut bytes = [0; 8];
    file.read_exact(&mut bytes)?;
    Ok(number(bytes))
}

// Whether nothing more is in the file.
pub(crate) fn at_end<R: Read>(file: &mut R) -> Result<bool, ReplayError> {
    let mut more = [0; 1];
    Ok(file.read(&mut more)? == 0)
}
