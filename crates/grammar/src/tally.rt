// What the bytes of a rule or of a draw come to: how many letters, the heading at the end, whether
// each letter is met at heading 0 or 3, and whether each byte may stand there.
ghost use Rattle.std.specs.Prelude.{◌≡◌, List, ℕ, ◌<◌};
ghost use Rattle.grammar.specs.Inside.Places.{lines_by};
ghost use Rattle.grammar.specs.Inside.Tallies.{no_tally, still_upright, tally_with, RuleByte, DrawByte, RuleWord, DrawWord, Counts};

use crate::lines::{Lines, is_listed};

// A byte of a word: a turn, a letter that may stand there, one that may not, or neither.
#[derive(Clone, Copy)]
enum Kind {
    Left,
    Right,
    Letter,
    Stray,
    Nothing,
}

// What the bytes of a word come to: how many letters, the heading at the end, whether each letter
// is met at heading 0 or 3, and whether each byte may stand there.
// Stays flags beside the counts: a tally goes on behind a byte that may not stand there, for the test of the count.
#[derive(Clone, Copy)]
pub(crate) struct Tally {
    pub letters: usize,
    pub heading: u8,
    pub upright: bool,
    pub lawful: bool,
}

fn rule_byte(lines: Lines, b: u8) -> Kind
    ensures { (text : List ℕ) → RuleByte (lines_by text lines) b result }
{
    match b {
        b'+' => Kind::Left,
        b'-' => Kind::Right,
        _ if is_listed(lines, b) => Kind::Letter,
        _ => Kind::Nothing,
    }
}

fn draw_byte(b: u8) -> Kind
    ensures { DrawByte b result }
{
    match b {
        b'+' => Kind::Left,
        b'-' => Kind::Right,
        b'E' | b'e' | b'S' | b's' | b'D' | b'd' | b'T' | b't' => Kind::Letter,
        b'U' | b'u' => Kind::Stray,
        _ => Kind::Nothing,
    }
}

impl Tally {
    fn new() -> Self
        ensures { result ≡ no_tally }
    {
        Self {
            letters: 0,
            heading: 0,
            upright: true,
            lawful: true,
        }
    }

    // Whether a letter met here leaves the word upright.
    fn stays_upright(self) -> bool
        ensures { result ≡ still_upright self }
    {
        self.upright && (self.heading == 0 || self.heading == 3)
    }

    // One byte more.
    fn with(self, kind: Kind) -> Self
        requires { (self.letters < 18446744073709551615) × (self.heading < 6) }
        ensures { result ≡ tally_with kind self }
    {
        match kind {
            Kind::Left => Self {
                heading: (self.heading + 1) % 6,
                ..self
            },
            Kind::Right => Self {
                heading: (self.heading + 5) % 6,
                ..self
            },
            Kind::Letter => Self {
                letters: self.letters + 1,
                upright: self.stays_upright(),
                ..self
            },
            Kind::Stray => Self {
                letters: self.letters + 1,
                upright: self.stays_upright(),
                lawful: false,
                ..self
            },
            Kind::Nothing => Self {
                lawful: false,
                ..self
            },
        }
    }
}

// What the bytes of a word come to, by the kind of each.
fn tallied<F: Fn(u8) -> Kind>(w: &[u8], kind_of: F) -> Tally
    requires { F.IsAlwaysCallable kind_of }
    ensures { Counts (F.post kind_of) no_tally w.now result }
{
    let mut t = Tally::new();
    for b in w {
        t = t.with(kind_of(*b));
    }
    t
}

pub(crate) fn rule_word(lines: Lines, w: &[u8]) -> Tally
    ensures { (text : List ℕ) → RuleWord (lines_by text lines) w.now result }
{
    tallied(w, |b| rule_byte(lines, b))
}

pub(crate) fn draw_word(w: &[u8]) -> Tally
    ensures { DrawWord w.now result }
{
    tallied(w, draw_byte)
}
