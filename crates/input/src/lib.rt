// Reads an input whole into a buffer, or tells why it could not, from what the system answered.

#![tactic(auto)]

ghost use Rattle.std.specs.Prelude.{◌≤◌, length, take, IfOk, IfErr};
ghost use Rattle.std.specs.Io.KnownBytes.{Consumes, IsAtEnd};
ghost use Rattle.input.specs.Ended.{Ended, GoesOn};

use std::io;
use std::io::{ErrorKind, Read};

// Why a buffer has not the whole of an input.
#[derive(Clone, Copy, Debug)]
pub enum Unread {
    // The input goes on after the buffer's end.
    TooLong,
    // A read failed, or told an end too early, so that the buffer may have a part of the input only.
    Failed(io::Error),
}

// Reads all of an input into the front of buf, and answers the bytes.
pub fn read_whole<'a, R: Read>(reader: &mut R, buf: &'a mut [u8]) -> Result<&'a [u8], Unread>
    ensures within { IfOk result (λ bytes. length bytes.now ≤ length buf.old) }
    ensures bytes { IfOk result (λ bytes. Consumes (R.remaining reader.old) (R.remaining reader.new) bytes.now) }
    ensures end { IfOk result (λ _. IsAtEnd (R.remaining reader.new)) }
    ensures too_long { IfErr result (λ why. GoesOn why (length buf.old) (R.remaining reader.old)) }
{
    let len = read_full(reader, buf);
    let mut next = [0u8; 1];
    let more = reader.read(&mut next);
    ended(len, buf.len(), more)?;
    Ok(&buf[..len])
}

// Reads until buf is full, the input ends or a read fails, and answers how many bytes it put at the
// front of buf.
pub fn read_full<R: Read>(reader: &mut R, buf: &mut [u8]) -> usize
    ensures within { result ≤ length buf.new }
    ensures bytes { Consumes (R.remaining reader.old) (R.remaining reader.new) (take result buf.new) }
{
    // No index: each read says how far it came. The buffer is fixed memory, and its length is the answer.
    let mut done: usize = 0;
    while done < buf.len() {
        let n = read(reader, &mut buf[done..]);
        if n == 0 {
            return done;
        }
        done += n;
    }
    done
}

// `read_full` stops alike where the input ends and where a read fails, and answers the `len` bytes
// that a buffer of `room` then has. What one read more answers tells the two apart.
pub fn ended(len: usize, room: usize, more: io::Result<usize>) -> Result<(), Unread>
    ensures { Ended len room more result }
{
    match more {
        Ok(0) => Ok(()),
        Ok(_) => Err(if len < room {
            Unread::Failed(io::Error::from(ErrorKind::Interrupted))
        } else {
            Unread::TooLong
        }),
        Err(error) => Err(Unread::Failed(error)),
    }
}

// One read: how many bytes it put at the front of buf, and 0 where it failed. No Result: `read_full` is public and always
// answers a count, and one read more tells why it stopped.
fn read<R: Read>(reader: &mut R, buf: &mut [u8]) -> usize
    ensures within { result ≤ length buf.new }
    ensures bytes { Consumes (R.remaining reader.old) (R.remaining reader.new) (take result buf.new) }
{
    reader.read(buf).unwrap_or(0)
}
