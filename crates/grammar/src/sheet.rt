// A text with the places of its lines, of which no rule has more than 24 bytes and no draw more than
// 12: what the tests 13 to 19 are asked of.
ghost use Rattle.std.specs.Prelude.{◌≡◌, ◌<◌};
ghost use Rattle.grammar.specs.Inside.Places.{line_at, Sized};

use crate::lines::{Lines, draw_book, rule_book};

#[derive(Clone, Copy)]
pub(crate) struct Sheet<'a> {
    pub text: &'a [u8],
    pub lines: Lines,
    ghost sized: { Sized lines },
}

impl<'a> Sheet<'a> {
    pub(crate) fn rule(&self, i: usize) -> &'a [u8]
        requires { i < 8 }
        ensures { result.now ≡ (line_at self.now.text.now self.now.lines i).rule }
    {
        rule_book(self.lines).word(self.text, i)
    }

    pub(crate) fn draw(&self, i: usize) -> &'a [u8]
        requires { i < 8 }
        ensures { result.now ≡ (line_at self.now.text.now self.now.lines i).draw }
    {
        draw_book(self.lines).word(self.text, i)
    }
}
