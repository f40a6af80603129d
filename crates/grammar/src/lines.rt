// The lines of a text by the places of their parts: what each test of a line, and the compiler, find
// a motif's letter, its rule and its draw by.
ghost use Rattle.std.specs.Prelude.{◌≡◌, ◌≤◌, min};
ghost use Rattle.grammar.specs.Words.{upper};
ghost use Rattle.grammar.specs.Scans.{has_name, rule_book, draw_book};

use crate::word::Book;

// Where the parts of a text's lines stand in it, line by line, for the first `count` lines: the
// motif's letter, the place of the rule's first byte and the rule's length, the same of the draw.
// Stays arrays side by side: no heap, and the definition `with_line` of specs/Scans.antt names each.
#[derive(Clone, Copy)]
pub struct Lines {
    pub name: [u8; 8],
    pub rule: [usize; 8],
    pub rule_len: [usize; 8],
    pub draw: [usize; 8],
    pub draw_len: [usize; 8],
    pub count: usize,
}

// Whether one of the first `n` lines has the letter `b`.
pub(crate) fn is_named(lines: Lines, n: usize, b: u8) -> bool
    requires { n ≤ 8 }
    ensures { result ≡ has_name lines.name b n 0 }
{
    lines.name[..n].contains(&b)
}

// Whether a byte is a letter, in either case, of a motif that is listed.
pub fn is_listed(lines: Lines, b: u8) -> bool
    ensures { result ≡ has_name lines.name (upper b) (min lines.count 8) 0 }
{
    is_named(lines, lines.count.min(8), b.to_ascii_uppercase())
}

// Stays two functions, this and the next: each names its two arrays, and one that is told which is longer.
pub fn rule_book(lines: Lines) -> Book
    ensures { result ≡ rule_book lines }
{
    let letters = lines.name;
    let from = lines.rule;
    let len = lines.rule_len;
    Book {
        letters,
        from,
        len,
        count: lines.count,
    }
}

pub fn draw_book(lines: Lines) -> Book
    ensures { result ≡ draw_book lines }
{
    let letters = lines.name;
    let from = lines.draw;
    let len = lines.draw_len;
    Book {
        letters,
        from,
        len,
        count: lines.count,
    }
}
