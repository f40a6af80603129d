// An answer, put number by number, and what it is where a line is refused.
use tables::compiler::CompileError;
use text::put::{
    put, put_float, put_integer, put_natural, put_next_float, put_next_integer, put_next_natural,
};
use triple::refusal::Refusal;

// Why a line has no values, and of a text which of its lines is at fault.
#[derive(Clone, Copy)]
pub(crate) struct Fault {
    refusal: Refusal,
    line: Option<usize>,
}

impl From<Refusal> for Fault {
    fn from(refusal: Refusal) -> Self {
        Self {
            refusal,
            line: None,
        }
    }
}

impl From<CompileError> for Fault {
    fn from(error: CompileError) -> Self {
        match error {
            CompileError::Fault(f) => Self {
                refusal: f.refusal,
                line: Some(f.line),
            },
            CompileError::Refused(e) => Self::from(e),
        }
    }
}

// The numbers that are put so far, a space between them, at the front of what is lent. Where it has no room for one,
// the end is past it, and nothing more is put.
#[derive(Drop)]
pub(crate) struct Answer<'a> {
    out: &'a mut [u8],
    end: usize,
}

impl<'a> Answer<'a> {
    pub(crate) fn new(out: &'a mut [u8]) -> Self {
        Self { out, end: 0 }
    }

    pub(crate) fn natural(&mut self, n: u64) {
        self.end = match self.end {
            0 => put_natural(self.out, 0, n),
            at => put_next_natural(self.out, at, n),
        };
    }

    pub(crate) fn integer(&mut self, z: i64) {
        self.end = match self.end {
            0 => put_integer(self.out, 0, z),
            at => put_next_integer(self.out, at, z),
        };
    }

    pub(crate) fn float(&mut self, x: f64) {
        self.end = match self.end {
            0 => put_float(self.out, 0, x),
            at => put_next_float(self.out, at, x),
        };
    }

    // A refusal, in the place of values.
    pub(crate) fn fault(&mut self, fault: Fault) {
        self.end = put(self.out, 0, b'!');
        self.natural(fault.refusal.number() as u64);
        if let Some(line) = fault.line {
            self.natural(line as u64);
        }
    }

    // Where it ends.
    pub(crate) fn end(&self) -> usize {
        self.end
    }
}
