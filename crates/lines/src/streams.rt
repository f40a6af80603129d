// Bytes written to the last, and what is said where a read or a write fails.
ghost use Rattle.std.specs.Prelude.{◌≤◌, length};

use std::io::{Cursor, ErrorKind, Write};
use std::{io, str};

// Writes all of some bytes, or fails at the first write that fails or takes nothing. A write that a signal cut short
// has failed: how much of it was done is not known.
pub fn write_all<W: Write>(to: &mut W, bytes: &[u8]) -> io::Result<()> {
    let mut rest = bytes;
    // Stays a while loop: what is left goes on by what each write takes, which no iterator says plainer.
    while !rest.is_empty() {
        let n = to.write(rest)?;
        if n == 0 {
            return Err(io::Error::from(ErrorKind::WriteZero));
        }
        rest = &rest[n..];
    }
    Ok(())
}

// Writes all of some bytes to standard output, and says so where that fails; answers whether it was done.
pub fn print<P: Print + Eprint>(rt: &P, bytes: &[u8]) -> bool {
    let mut to = io::writer(rt);
    match write_all(&mut to, bytes) {
        Ok(()) => true,
        Err(e) => {
            fail(rt, "standard output", e);
            false
        }
    }
}

// Says what failed and why, in a line of its own: what it was, a colon, and the system's words for it. Where that
// fails there is nobody to be told. Stays over a buffer: the programs ask for no memory.
pub fn fail<E: Eprint>(rt: &E, what: &str, error: io::Error) {
    let mut text = [0u8; 128];
    let reason = reason_of(put_error(&mut text, error));
    let _ = eprintln!(rt; "{what}: {reason}");
}

// The error as std writes it, at the front of what is lent for it.
fn put_error(text: &mut [u8], error: io::Error) -> &[u8]
    ensures { length result.now ≤ length text.old }
{
    let mut cursor = Cursor::new(&mut *text);
    let _ = write!(cursor, "{error}");
    let n = cursor.position() as usize;
    &text[..n.min(text.len())]
}

// The system's words alone, without the number that std puts behind them.
fn reason_of(text: &[u8]) -> &str {
    let Ok(whole) = str::from_utf8(text) else {
        return "";
    };
    match whole.split_once(" (os error ") {
        Some((reason, _)) => reason,
        None => whole,
    }
}
