//! The bytes of a table, from wherever they are read.

ghost use Rattle.std.specs.Prelude.{◌≡◌, ◌≤◌, IfOk, IfSome, None, length, take};
ghost use Rattle.std.specs.Io.KnownBytes.{Consumes, IsAtEnd};

use std::alloc::Global;
use std::io;
use std::io::{ErrorKind, Read};

/// The size of the buffer: at most this many bytes are read at once.
const ROOM: usize = 8192;

/// The first capacity, in bytes, so that bytes are seldom copied as more are read. Memory that is
/// never written to isn't touched.
const FIRST_ROOM: usize = 1 << 20;

/// Gives all bytes that a reader has left, where contracts know these. They are read through a
/// buffer that is filled with zeros once: `fs::read` fills with zeros all the memory that it then
/// overwrites.
pub fn read_bytes<R: Read>(alloc: Global, reader: &mut R) -> io::Result<Vec<u8>>
    ensures { IfOk result (λ v. IfSome (R.remaining reader.old) (λ bytes. v.items ≡ bytes)) }
{
    let mut room = [0; ROOM];
    let mut bytes = Vec::with_capacity(alloc, FIRST_ROOM)?;
    // the turns are counted, so that the loop is known to end
    for _turn in 0..u64::MAX {
        match read_part(reader, &mut room)? {
            Some(count) => bytes.extend_from_slice(&room[..count])?,
            None => return Ok(bytes),
        }
    }
    Err(io::Error::from(ErrorKind::TimedOut))
}

/// Reads some bytes to the front of a buffer and returns how many: 0 where a signal interrupted,
/// None if the reader is at its end.
fn read_part<R: Read>(reader: &mut R, room: &mut [u8]) -> io::Result<Option<usize>>
    requires { length room.old ≡ ROOM }
    ensures within { IfOk result (λ part. IfSome part (λ n. n ≤ length room.new)) }
    ensures part { IfOk result
        (λ part. IfSome part (λ n. Consumes (R.remaining reader.old) (R.remaining reader.new)
        (take n room.new))) }
    ensures end { IfOk result (λ part. part ≡ None → IsAtEnd (R.remaining reader.old)) }
{
    match reader.read(room) {
        Ok(0) => Ok(None),
        Ok(count) => Ok(Some(count)),
        Err(error) if error.kind() == ErrorKind::Interrupted => Ok(Some(0)),
        Err(error) => Err(error),
    }
}
