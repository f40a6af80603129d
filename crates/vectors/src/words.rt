// The words of a line: the first is a letter, and the others are numbers and texts.
use triple::refusal::Refusal;

#[derive(Clone, Copy)]
pub(crate) struct Words<'a> {
    line: &'a [u8],
}

impl<'a> Words<'a> {
    pub(crate) fn new(line: &'a [u8]) -> Self {
        Self { line }
    }

    pub(crate) fn count(self) -> usize {
        text::words::count(self.line)
    }

    // Word k; empty where there is none.
    pub(crate) fn at(self, k: usize) -> &'a [u8] {
        text::words::word(self.line, k)
    }

    // The number that word k writes. A line that has none there does not parse.
    pub(crate) fn number<T, F: Fn(&[u8]) -> Option<T>>(
        self,
        k: usize,
        read: F,
    ) -> Result<T, Refusal>
        requires { F.IsAlwaysCallable read }
    {
        read(self.at(k)).ok_or(Refusal::Line)
    }
}
