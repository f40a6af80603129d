// Answers for lines in and lines out: standard input cut into lines, of any number and any length, and
// what is answered gathered and written in large pieces, at the latest before the next read, which may
// wait. A read or a write that fails is said on standard error and ends the exchange; what it cut short
// is no line. What a line asks and what it is answered is the program's, and so is the reader: `from` is
// standard input, and `rt` writes to standard output and says what fails.
#![tactic(auto)]

ghost use Rattle.std.specs.Prelude.{◌≡◌, ◌-◌, ◌≤◌, length};
ghost use Rattle.lines.specs.Exchanges.{is_whole, is_over, left_of, fresh, Within, Stopped};
ghost use Rattle.lines.specs.Inside.Steps.{amid, ended, at_end, count_of, after_read, Sound};

use std::io::{ErrorKind, Read};

mod answering;
mod arguments;
mod streams;

pub use answering::{Answers, answer_lines};
pub use arguments::{argument, is_given};
pub use streams::{fail, print, write_all};

// Where a step of an exchange stops.
#[derive(Clone, Copy)]
pub enum Stop {
    // At the end of the piece that was read last.
    Piece,
    // Just past LF: what is kept is a whole line.
    Line,
    // At the end of the input: what is kept is its last line, which lacks LF.
    Last,
    // At the end of the input, with nothing kept.
    End,
    // At a read or a write that failed.
    Failed,
}

// How far an exchange of lines is: the next byte of the piece that was read last, and that piece's end;
// how many bytes of a line are kept, and how many of the output are gathered; and where the last step
// stopped. Of a line that is longer than what is lent for it, the rest is passed over.
// Stays places beside the buffers, which are lent to each step: `Within` and `Stopped`, which theorems are about, say
// of an exchange by value where it is in what is lent.
#[derive(Clone, Copy)]
pub struct Exchange {
    pub at: usize,
    pub end: usize,
    pub kept: usize,
    pub gathered: usize,
    pub stop: Stop,
}

impl Exchange {
    pub fn new() -> Self
        ensures { result ≡ fresh }
    {
        Self::amid(0, 0, 0, 0)
    }

    // In the midst of a line.
    fn amid(at: usize, end: usize, kept: usize, gathered: usize) -> Self
        ensures { result ≡ amid at end kept gathered }
    {
        Self {
            at,
            end,
            kept,
            gathered,
            stop: Stop::Piece,
        }
    }

    // With nothing more to be read.
    fn ended(kept: usize, gathered: usize, stop: Stop) -> Self
        ensures { result ≡ ended kept gathered stop }
    {
        Self {
            at: 0,
            end: 0,
            kept,
            gathered,
            stop,
        }
    }

    // Whether what is kept is a whole line.
    pub fn is_whole(self) -> bool
        ensures { result ≡ is_whole self.stop }
    {
        matches!(self.stop, Stop::Line | Stop::Last)
    }

    // Whether nothing more is to be read.
    pub fn is_over(self) -> bool
        ensures { result ≡ is_over self.stop }
    {
        matches!(self.stop, Stop::Last | Stop::End | Stop::Failed)
    }

    // How many of some turns are left: none where nothing more is to be read, and else one less.
    #[tactic(auto, unfolding(crate::specs::Exchanges::left_of))]
    pub fn left(self, turns: u64) -> u64
        ensures value { result ≡ left_of self.stop turns }
        ensures upper_bound { result ≤ turns - 1 }
    {
        if self.is_over() {
            return 0;
        }
        turns.saturating_sub(1)
    }

    // Goes on to the end of the next line, of the piece or of the input, whichever is first. What is
    // gathered is written before that where less than some room is left after it, and where there is a
    // new piece to be read.
    pub fn next<R: Read, P: Print + Eprint>(
        self,
        from: &mut R,
        rt: &P,
        piece: &mut [u8],
        line: &mut [u8],
        out: &[u8],
        room: usize,
    ) -> Self
        ensures within { Within (length piece.old) (length line.old) (length out.now - room) result }
        ensures stopped { Stopped piece.new result }
    {
        let begun = self.begun(piece.len(), line.len());
        let filled = begun.filled(from, rt, piece, out, room);
        if filled.is_over() {
            return filled;
        }
        filled.cut(piece, line)
    }

    // Writes what is still gathered.
    pub fn close<P: Print + Eprint>(self, rt: &P, out: &[u8]) {
        write(rt, out, self.gathered);
    }

    // After a whole line, a new one. A piece that does not lie within what is lent for it counts as
    // used up.
    fn begun(self, piece: usize, line: usize) -> Self
        ensures { Sound piece line self.gathered result }
    {
        let at = self.at;
        let end = self.end;
        let kept = self.carried(line);
        let gathered = self.gathered;
        if at <= end && end <= piece {
            return Self::amid(at, end, kept, gathered);
        }
        Self::amid(0, 0, kept, gathered)
    }

    // How much of a line is there already: none after a whole one, nor of one that has more bytes
    // than are lent for it.
    fn carried(self, line: usize) -> usize
        ensures { result ≤ line }
    {
        if self.is_whole() || self.kept > line {
            return 0;
        }
        self.kept
    }

    // With some room in the output, and a new piece where the last one is used up.
    fn filled<R: Read, P: Print + Eprint>(
        self,
        from: &mut R,
        rt: &P,
        piece: &mut [u8],
        out: &[u8],
        room: usize,
    ) -> Self
        requires { Sound (length piece.old) self.kept self.gathered self }
        ensures { Sound (length piece.old) self.kept (length out.now - room) result }
    {
        let ready = self.ready(rt, out, room);
        if ready.is_over() || ready.at < ready.end {
            return ready;
        }
        ready.read(from, rt, piece)
    }

    // With what is gathered written where it leaves too little room, or where a read is next, which may
    // wait.
    fn ready<P: Print + Eprint>(self, rt: &P, out: &[u8], room: usize) -> Self
        requires { Sound self.end self.kept self.gathered self }
        ensures { Sound self.end self.kept (length out.now - room) result }
    {
        let gathered = self.gathered;
        if self.at < self.end && gathered <= out.len() && out.len() - gathered >= room {
            return self;
        }
        self.written(rt, out)
    }

    // With nothing gathered, since it is written. Where that fails, so has the exchange.
    fn written<P: Print + Eprint>(self, rt: &P, out: &[u8]) -> Self
        requires { self.at ≤ self.end }
        ensures { Sound self.end self.kept 0 result }
    {
        if write(rt, out, self.gathered) {
            return Self::amid(self.at, self.end, self.kept, 0);
        }
        Self::ended(0, 0, Stop::Failed)
    }

    // With a new piece. A read that a signal cut short has read nothing, and the next step reads again.
    fn read<R: Read, P: Eprint>(self, from: &mut R, rt: &P, piece: &mut [u8]) -> Self
        requires { Sound (length piece.old) self.kept self.gathered self }
        ensures { Sound (length piece.old) self.kept self.gathered result }
    {
        match from.read(piece) {
            Ok(n) => self.after_read(Some(n), piece),
            Err(e) if e.kind() == ErrorKind::Interrupted => self,
            Err(e) => {
                fail(rt, "standard input", e);
                self.after_read(None, piece)
            }
        }
    }

    // What a read makes of it: a failure, the end of the input, or the length of a new piece.
    #[tactic(auto, unfolding(crate::specs::Inside::Steps::after_read))]
    fn after_read(self, got: Option<usize>, piece: &[u8]) -> Self
        ensures { result ≡ after_read (length piece.now) (count_of got) self }
    {
        match got {
            None => Self::ended(0, 0, Stop::Failed),
            Some(0) => self.at_end(),
            Some(n) => Self::amid(0, n.min(piece.len()), self.kept, self.gathered),
        }
    }

    // The bytes that are kept at the end of the input are a line that lacks LF.
    #[tactic(auto, using(crate::proofs::StepLaws::end_stops), unfolding(crate::specs::Inside::Steps::at_end))]
    fn at_end(self) -> Self
        ensures { result ≡ at_end self }
    {
        let stop = if self.kept > 0 { Stop::Last } else { Stop::End };
        Self::ended(self.kept, self.gathered, stop)
    }

    // Keeps the bytes up to LF, or to the end of the piece.
    fn cut(self, piece: &[u8], line: &mut [u8]) -> Self
        requires { Within (length piece.now) (length line.old) self.gathered self }
        ensures within { Within (length piece.now) (length line.old) self.gathered result }
        ensures stopped { Stopped piece.now result }
    {
        let (at, end) = (self.at, self.end);
        let (kept, gathered) = (self.kept, self.gathered);
        let rest = &piece[at..end];
        match rest.iter().position(|b| *b == b'\n') {
            Some(n) => Self {
                at: at + n + 1,
                end,
                kept: keep(line, kept, &rest[..n]),
                gathered,
                stop: Stop::Line,
            },
            None => Self::amid(end, end, keep(line, kept, rest), gathered),
        }
    }
}

// Some bytes of a line behind those that are kept, as many as there is room for.
fn keep(line: &mut [u8], kept: usize, bytes: &[u8]) -> usize
    requires { kept ≤ length line.old }
    ensures { result ≤ length line.old }
{
    let n = bytes.len().min(line.len() - kept);
    line[kept..kept + n].copy_from_slice(&bytes[..n]);
    kept + n
}

// Writes so many bytes, or all there are where that is fewer; answers whether it was done.
fn write<P: Print + Eprint>(rt: &P, out: &[u8], n: usize) -> bool {
    print(rt, &out[..n.min(out.len())])
}
