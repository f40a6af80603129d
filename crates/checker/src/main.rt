// The program: a partner's treated list on standard input, the verdict on standard output: `yes`, the
// number of the first code at fault and its fault, or `! 29`. What the verdict is, is `treated`'s; this
// file reads the list and spells the answer. A read or a write that fails is said on standard error.
#![tactic(auto)]

ghost use Rattle.std.specs.Prelude.{◌≡◌, ◌≤◌, ◌<◌, length, take, IfOk, IfSome};
ghost use Rattle.std.specs.Io.KnownBytes.{Consumes, IsAtEnd};
ghost use Rattle.treated.specs.Treated.{check_of};
ghost use Rattle.treated.specs.Answers.{said_check};

use lines::{fail, print};
use std::io;
use std::io::{ErrorKind, Read};
use treated::{CheckError, Fault};

// As many bytes as 512 codes can have, and one more: they tell the verdict, whatever comes after them
// (proofs/FirstBytes.antt of `treated`).
const ENOUGH: usize = 4609;

// Reads to the end of the list, or until its room is full, and answers how much that is. Each read has all the room
// that is left: of what comes in packets none is cut. A read that a signal cut short has read nothing, and the next
// turn reads again.
fn read_front<R: Read>(from: &mut R, list: &mut [u8]) -> io::Result<usize>
    ensures within { IfOk result (λ n. n ≤ length list.old) }
    ensures bytes { IfOk result (λ n. Consumes (R.remaining from.old) (R.remaining from.new) (take n list.new)) }
    ensures whole { IfOk result (λ n. n < length list.old → IsAtEnd (R.remaining from.new)) }
{
    let mut n = 0;
    for _ in 0..u64::MAX {
        if n == list.len() {
            return Ok(n);
        }
        match from.read(&mut list[n..]) {
            Ok(0) => return Ok(n),
            Ok(count) => n += count,
            Err(e) if e.kind() == ErrorKind::Interrupted => {}
            Err(e) => return Err(e),
        }
    }
    Err(io::Error::from(ErrorKind::Interrupted))
}

// The verdict on all that a reader gives, of which the front tells it.
fn verdict<R: Read>(from: &mut R) -> io::Result<Result<usize, CheckError>>
    ensures { IfOk result (λ v. IfSome (R.remaining from.old) (λ list. said_check v ≡ check_of list)) }
{
    let mut front = [0u8; ENOUGH];
    let n = read_front(from, &mut front)?;
    Ok(treated::check(&front[..n]))
}

fn word(fault: Fault) -> &'static str {
    match fault {
        Fault::Unsound => " unsound\n",
        Fault::Marked => " marked\n",
        Fault::Orientation => " orientation\n",
        Fault::Overlap => " overlap\n",
    }
}

// Whether a number was written; where that fails it is said.
// Stays apart from the words, each in a write of its own: one `println!` for all cuts what is written another way.
fn number<P: Print + Eprint>(rt: &P, n: u64) -> bool {
    match print!(rt; "{n}") {
        Ok(()) => true,
        Err(e) => {
            fail(rt, "standard output", e);
            false
        }
    }
}

// Whether the answer was written; where that fails it is said.
fn say<P: Print + Eprint>(rt: &P, answer: Result<usize, CheckError>) -> bool {
    match answer {
        Ok(_) => print(rt, b"yes\n"),
        Err(CheckError::Faulty(f, n)) => number(rt, n as u64) && print(rt, word(f).as_bytes()),
        Err(CheckError::Refused(e)) => {
            print(rt, b"! ") && number(rt, u64::from(e.number())) && print(rt, b"\n")
        }
    }
}

fn main(rt: HostRuntime) {
    match verdict(&mut rt.stdin()) {
        Ok(answer) => {
            say(&rt, answer);
        }
        Err(e) => fail(&rt, "standard input", e),
    }
}
