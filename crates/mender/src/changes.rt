// The lines that tell what was changed: the offset in the old list, a space, and `spare`, `turned` or `dropped`.
use lines::write_all;
use mend::Change;
use std::io;
use text::put::{put_bytes, put_natural};

// A line has at most 29 bytes: 20 digits, a space, a word of seven letters and LF.
const ROOM: usize = 32;

// The lines that are gathered, the offset in the old list of the piece that is mended, and the first failure of a
// line, after which none is gathered or printed.
// Stays an array with a count: a list is mended without memory being asked for, and `writeln!` into a `String` took a
// quarter longer where much is changed.
#[derive(Drop)]
pub(crate) struct Changes<'a, P> {
    rt: &'a P,
    offset: u64,
    lines: [u8; 4096],
    gathered: usize,
    failure: Option<io::Error>,
}

impl<'a, P: Print> Changes<'a, P> {
    pub(crate) fn new(rt: &'a P) -> Self {
        Self {
            rt,
            offset: 0,
            lines: [0u8; 4096],
            gathered: 0,
            failure: None,
        }
    }

    // What was done to the code or byte at a place of the piece: two lines at the most.
    pub(crate) fn tell(&mut self, at: usize, change: Change) {
        for k in 0..mend::count_of(change) {
            if self.failure.is_none() {
                self.failure = self.tell_one(at, mend::telling(change, k)).err();
            }
        }
    }

    // No file is so long that an offset has no u64.
    fn tell_one(&mut self, at: usize, change: Change) -> io::Result<()> {
        let word = match change {
            Change::Spare => " spare\n",
            Change::Turned => " turned\n",
            Change::Dropped => " dropped\n",
            _ => return Ok(()),
        };
        if self.gathered > self.lines.len() - ROOM {
            self.print()?;
        }
        let offset = self.offset.wrapping_add(at as u64);
        let numbered = put_natural(&mut self.lines, self.gathered, offset);
        self.gathered = put_bytes(&mut self.lines, numbered, word.as_bytes());
        Ok(())
    }

    // Goes on behind so many bytes of the piece, where no line failed.
    pub(crate) fn pass(&mut self, taken: usize) -> io::Result<()> {
        self.offset = self.offset.wrapping_add(taken as u64);
        match self.failure.take() {
            Some(e) => Err(e),
            None => Ok(()),
        }
    }

    // Prints the lines that are gathered.
    pub(crate) fn print(&mut self) -> io::Result<()> {
        let mut to = io::writer(self.rt);
        let n = self.gathered.min(self.lines.len());
        write_all(&mut to, &self.lines[..n])?;
        self.gathered = 0;
        Ok(())
    }
}
