// A test program: the Rust's answers, replayed where `wedge` does not reach. Each line of standard
// input asks for one operation of the crates below, and its answer is a line of standard output: the
// values, or `!` and the number of a refusal. The lines are made by compare/make-vectors.
//
//     S x y z                       corner sum of a triple: a b
//     I a b                         triple of a corner sum: x y z
//     W o r s                       code of a position: its bytes, in decimal
//     K byte byte ..                what a code reads as: o r s, and how many bytes it took
//     N o r motif flip a b digit    child step: x y z flavor, and the node below, o r motif flip a b
//     G at k text                   numbers of a grammar, compiled from entry `at` of a table of 2048 on:
//                                   its states, and the 41 of state k
//     D at start states passes token s text place value ..
//                                   cell at place s of what the states from entry `start` on give, in a
//                                   table that has the text's from entry `at` on and ends with it, the
//                                   values put at their places of it first: a b flavor
//
// A node's a and b are the 16 hex digits of an f64's bits. A text has `_` for a space and `/` for
// LF, and its refusals are answered with the line at fault. What is answered is the crates'; how the
// input is cut and the output gathered, and what is said where a read or a write fails, is `lines`'s.
#![tactic(auto)]

use lines::{Answers, answer_lines};
use print::{Answer, Fault};
use triple::refusal::Refusal;
use words::Words;

mod ask;
mod grammars;
mod print;
mod words;

// What a line asks for is what its letter says.
// Stays a match on the letter: a table of functions has the same pairs and needs a search besides.
fn answered(words: Words<'_>, out: &mut Answer<'_>) -> Result<(), Fault> {
    match words.at(0) {
        [b'S'] => ask::corner_sum(words, out),
        [b'I'] => ask::triple(words, out),
        [b'W'] => ask::code(words, out),
        [b'K'] => ask::reading(words, out),
        [b'N'] => ask::child(words, out),
        [b'G'] => grammars::state(words, out),
        [b'D'] => grammars::descent(words, out),
        _ => Err(Fault::from(Refusal::Line)),
    }
}

#[derive(Clone, Copy)]
struct Replay;

impl Answers for Replay {
    // None, where it has no room.
    fn answer(&self, line: &[u8], out: &mut [u8]) -> usize {
        let room = out.len();
        let mut answer = Answer::new(out);
        if let Err(e) = answered(Words::new(line), &mut answer) {
            answer.fault(e);
        }
        let end = answer.end();
        if end > room { 0 } else { end }
    }
}

// All of standard input, or so much of it as can be read and answered.
fn main(rt: HostRuntime) {
    let mut from = rt.stdin();
    let mut line = [0u8; 4096];
    answer_lines(&Replay, &mut from, &rt, &mut line);
}
