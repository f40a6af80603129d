// Where the walk along a word's draws ends: test 19 compares two of them.
ghost use Rattle.std.specs.Prelude.{◌≡◌, ◌*◌, ◌<◌, ◌≤◌, length, take};
ghost use Rattle.turtle.specs.Plane.{◌⊕◌, equal_ab};
ghost use Rattle.turtle.specs.Inside.Sizes.{Small};
ghost use Rattle.turtle.specs.Walk.{symbol_of, symbols_of, start, final};
ghost use Rattle.grammar.specs.Words.{expand_once};
ghost use Rattle.grammar.specs.Curves.{rules, draws};
ghost use Rattle.grammar.specs.Inside.Sheets.{lines_in};

use crate::lines::{draw_book, rule_book};
use crate::sheet::Sheet;
use crate::word::{count, expand_once, word_at};
use turtle::AB;
use turtle::walk::{Stepped, Turtle};

fn stepped(t: Turtle, b: u8) -> Turtle
    requires { Small 65536 t.at × (t.heading < 6) }
    ensures { result ≡ final (symbol_of b) t }
{
    match t.step(b) {
        Stepped::Drew(_, next) | Stepped::Turned(next) => next,
        Stepped::NoDraw | Stepped::Lost => t,
    }
}

// Where the walk along a word ends that starts at the origin.
fn walk_end(w: &[u8]) -> AB
    requires { length w.now ≤ 8192 }
    ensures { (result ≡ (final (symbols_of w.now) start).at) × Small 65536 result }
{
    let mut t = Turtle {
        at: AB::new(0, 0),
        heading: 0,
    };
    for b in w {
        t = stepped(t, *b);
    }
    t.at
}

impl Sheet<'_> {
    // Where the walk along the draws of a word's letters ends.
    pub(crate) fn drawn_end(&self, w: &[u8]) -> AB
        requires { length w.now ≤ 576 }
        ensures { (result ≡ (final (symbols_of (expand_once (draws (lines_in self.now)) w.now)) start).at) × Small 65536 result }
    {
        let mut drawn = [0u8; 6912];
        let n = count(expand_once(self.text, draw_book(self.lines), w, &mut drawn));
        walk_end(word_at(&drawn, 0, n))
    }

    // One pass of the rules over a word, written to the front of a buffer with room for it.
    pub(crate) fn ruled<'b>(&self, w: &[u8], out: &'b mut [u8]) -> &'b [u8]
        requires { 24 * length w.now ≤ length out.old }
        ensures { (result.now ≡ expand_once (rules (lines_in self.now)) w.now) × (length result.now ≤ 24 * length w.now) }
    {
        let n = count(expand_once(self.text, rule_book(self.lines), w, out));
        word_at(out, 0, n)
    }

    // Where the walk along the draws ends after one pass more.
    pub(crate) fn ruled_end(&self, w: &[u8]) -> AB
        requires { length w.now ≤ 24 }
        ensures { result ≡ (final (symbols_of (expand_once (draws (lines_in self.now)) (expand_once (rules (lines_in self.now)) w.now))) start).at }
    {
        let mut out = [0u8; 576];
        self.drawn_end(self.ruled(w, &mut out))
    }
}

pub(crate) fn is_twice(p: AB, q: AB) -> bool
    requires { Small 65536 q }
    ensures { result ≡ equal_ab p (q ⊕ q) }
{
    p.a == q.a + q.a && p.b == q.b + q.b
}
