// All lines of the input answered, each on a line of the output.
ghost use Rattle.std.specs.Prelude.{◌+◌, ◌≤◌, length};

use crate::Exchange;
use std::io::Read;

// Room for an answer and its LF.
const ROOM: usize = 256;

// What a program answers.
pub trait Answers {
    // Puts the answer to a line at the front of what is lent, and answers its length.
    fn answer(&self, line: &[u8], out: &mut [u8]) -> usize
        ensures { result ≤ length out.old };
}

// Answers all lines of the input, or so many as can be read and answered. A line is kept as far as what is lent for
// it goes. No input is so long that it uses up the turns. It has no clause: what it does is done to the streams, of which a
// contract cannot speak.
pub fn answer_lines<A: Answers, R: Read, P: Print + Eprint>(
    answers: &A,
    from: &mut R,
    rt: &P,
    line: &mut [u8],
) {
    let mut piece = [0u8; 65536];
    let mut out = [0u8; 65536];
    let mut exchange = Exchange::new();
    for turns in (1..u64::MAX).rev() {
        let next = exchange.next(from, rt, &mut piece, line, &out, ROOM);
        exchange = answered(next, answers, line, &mut out);
        if exchange.left(turns) == 0 {
            break;
        }
    }
    exchange.close(rt, &out);
}

// With the answer to a whole line, and LF.
fn answered<A: Answers>(exchange: Exchange, answers: &A, line: &[u8], out: &mut [u8]) -> Exchange
    requires kept { exchange.kept ≤ length line.now }
    requires room { exchange.gathered + 256 ≤ length out.old }
{
    if !exchange.is_whole() {
        return exchange;
    }
    let at = exchange.gathered;
    let end = at + answers.answer(&line[..exchange.kept], &mut out[at..at + (ROOM - 1)]);
    out[end] = b'\n';
    Exchange {
        gathered: end + 1,
        ..exchange
    }
}
