// A text cut into lines, of which the places of their parts are kept.
ghost use Rattle.std.specs.Prelude.{◌≡◌, ◌&&◌, ◌<◌, ◌≤◌, leb, length, drop};
ghost use Rattle.grammar.specs.Scans.{no_lines, with_line, scan_of};
ghost use Rattle.text.specs.Words.{until};
ghost use Rattle.grammar.specs.Inside.RowCuts.{WholeRow, FirstRow};
ghost use Rattle.grammar.specs.Inside.Places.{LineRoom, row_added};

use crate::lines::Lines;
use crate::word::word_at;

// The lines of a text before the first that is at fault by 12, and the number of that one; all lines
// and 0 where there is none. Behind the last line the arrays have 0.
// Stays a number that is 0 where there is none: the definition `scan_of` of specs/Scans.antt says so.
#[derive(Clone, Copy)]
pub struct Scan {
    pub lines: Lines,
    pub fault: usize,
}

// The lines of the rows so far, and where the next row begins.
#[derive(Clone, Copy)]
struct Scanner {
    lines: Lines,
    at: usize,
}

// How many bytes stand before the first `b`.
fn until(s: &[u8], b: u8) -> usize
    ensures { result ≡ until b s.now }
{
    s.iter().position(|c| *c == b).unwrap_or(s.len())
}

fn rest_of(s: &[u8], from: usize) -> &[u8]
    requires { from ≤ length s.now }
    ensures { result.now ≡ drop from s.now }
{
    &s[from..]
}

// From 1 to `most`.
fn fits(n: usize, most: usize) -> bool
    ensures { result ≡ (leb 1 n && leb n most) }
{
    (1..=most).contains(&n)
}

// Stays one return after the other: each test cuts what the next one looks at.
fn whole_row(row: &[u8]) -> Option<(usize, usize)>
    ensures { WholeRow row.now result }
{
    let name = until(row, b' ');
    if row.len() <= name {
        return None;
    }
    let rest = rest_of(row, name + 1);
    let rule = until(rest, b' ');
    if rest.len() <= rule {
        return None;
    }
    let last = rest_of(rest, rule + 1);
    let draw = until(last, b' ');
    if draw < last.len() {
        return None;
    }
    if fits(name, 1) && fits(rule, 24) && fits(draw, 12) {
        Some((rule, row.len()))
    } else {
        None
    }
}

fn first_row(t: &[u8]) -> Option<(usize, usize)>
    requires { 0 < length t.now }
    ensures { FirstRow t.now result }
{
    let n = until(t, b'\n');
    if t.len() <= n {
        return None;
    }
    whole_row(word_at(t, 0, n))
}

fn no_lines() -> Lines
    ensures { result ≡ no_lines }
{
    Lines {
        name: [0u8; 8],
        rule: [0usize; 8],
        rule_len: [0usize; 8],
        draw: [0usize; 8],
        draw_len: [0usize; 8],
        count: 0,
    }
}

// One line more: its motif's letter, and the places and lengths of its rule and its draw.
fn with_line(
    mut lines: Lines,
    name: u8,
    rule: usize,
    long: usize,
    draw: usize,
    wide: usize,
) -> Lines
    requires { lines.count < 8 }
    ensures { result ≡ with_line lines name rule long draw wide }
{
    let i = lines.count;
    lines.name[i] = name;
    lines.rule[i] = rule;
    lines.rule_len[i] = long;
    lines.draw[i] = draw;
    lines.draw_len[i] = wide;
    lines.count = i + 1;
    lines
}

// The row at hand as one line more: n bytes before its LF, and as many of them its rule's as `long`.
fn with_row(text: &[u8], so_far: Scanner, long: usize, n: usize) -> Scanner
    requires { (so_far.lines.count < 8) × LineRoom text.now so_far.at long n }
    ensures { result ≡ row_added text.now so_far long n }
{
    let at = so_far.at;
    Scanner {
        lines: with_line(
            so_far.lines,
            text[at],
            at + 2,
            long,
            at + (long + 3),
            n - (long + 3),
        ),
        at: at + (n + 1),
    }
}

// The text cut into lines, at most eight, up to the first that is at fault by 12. Nothing of them is
// tested but their shape.
pub fn scan_text(text: &[u8]) -> Scan
    ensures { result ≡ scan_of text.now }
{
    let mut so_far = Scanner {
        lines: no_lines(),
        at: 0,
    };
    // Stays a while loop: the place goes on by what each row takes, which no iterator says plainer.
    while so_far.at < text.len() {
        let lines = so_far.lines;
        if lines.count == 8 {
            return Scan { lines, fault: 9 };
        }
        let row = first_row(rest_of(text, so_far.at));
        let Some((long, n)) = row else {
            return Scan {
                lines,
                fault: lines.count + 1,
            };
        };
        so_far = with_row(text, so_far, long, n);
    }
    Scan {
        lines: so_far.lines,
        fault: 0,
    }
}
