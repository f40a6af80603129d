// The program: lines in, lines out. A query on each line of standard input, its answer on a line of
// standard output, and nothing else. What a line asks and what is answered is `query`'s; how the input
// is cut and the output gathered, and what is said where a read or a write fails, is `lines`'s.
#![tactic(auto)]

use lines::{Answers, answer_lines};
use query::answer::answer_line;

#[derive(Clone, Copy)]
struct Queries;

impl Answers for Queries {
    // There is always room, since no answer is as long as what is lent for it.
    fn answer(&self, line: &[u8], out: &mut [u8]) -> usize {
        let room = out.len();
        answer_line(line, out).unwrap_or(0).min(room)
    }
}

// All of standard input, or so much of it as can be read and answered. A line of more than 64 bytes is kept as 65,
// which is as many as it takes to refuse it.
fn main(rt: HostRuntime) {
    let mut from = rt.stdin();
    let mut line = [0u8; 65];
    answer_lines(&Queries, &mut from, &rt, &mut line);
}
