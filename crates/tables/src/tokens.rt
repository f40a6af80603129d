// A text's tokens, and the words that its lines have for them.
ghost use Rattle.std.specs.Prelude.{◌≡◌, List, [], ◌∷◌, ◌++◌, ℕ, ◌≤◌, ◌<◌, ◌+◌, length, take};
ghost use Rattle.turtle.specs.Walk.{symbols_of};
ghost use Rattle.grammar.specs.Words.{expand_once};
ghost use Rattle.grammar.specs.Curves.{rules, strokes, token_bytes, place_in};
ghost use Rattle.grammar.specs.Inside.Places.{lines_by, Sized};
ghost use Rattle.tables.specs.Inside.Sources.{listed_from, letters_in};

use crate::Source;
use grammar::lines::{Lines, draw_book, is_listed, rule_book};
use grammar::word::{count, expand_once};

fn no_tokens(lines: Lines) -> Source
    ensures { (result.lines ≡ lines) × ((result.count ≡ 0) × (letters_in result ≡ [])) }
{
    Source {
        lines,
        bytes: [0u8; 52],
        count: 0,
    }
}

fn with_token(source: Source, b: u8) -> Source
    requires { source.count < 52 }
    ensures { (result.lines ≡ source.lines) × ((result.count ≡ source.count + 1) × (letters_in result ≡ letters_in source ++ (b ∷ []))) }
{
    let n = source.count;
    let lines = source.lines;
    let mut bytes = source.bytes;
    bytes[n] = b;
    Source {
        lines,
        bytes,
        count: n + 1,
    }
}

// The byte as a further token, if it is a letter of a listed motif.
fn with_listed(source: Source, b: u8) -> Source
    requires { source.count < 52 }
    ensures { (result.lines ≡ source.lines) × ((result.count ≤ source.count + 1) × (letters_in result ≡ letters_in source ++ listed_from source.lines 1 b)) }
{
    let lines = source.lines;
    if is_listed(lines, b) {
        return with_token(source, b);
    }
    source
}

// Those of 26 bytes that are letters of listed motifs, as further tokens.
fn with_letters(source: Source, first: u8) -> Source
    requires { (source.count ≤ 26) × (first ≤ 97) }
    ensures { (result.lines ≡ source.lines) × ((result.count ≤ source.count + 26) × (letters_in result ≡ letters_in source ++ listed_from source.lines 26 first)) }
{
    let mut all = source;
    for b in first..first + 26 {
        all = with_listed(all, b);
    }
    all
}

// The lines and their tokens.
pub(crate) fn source_of(lines: Lines) -> Source
    ensures { (result.lines ≡ lines) × ((text : List ℕ) → letters_in result ≡ token_bytes (lines_by text lines)) }
{
    let motifs = with_letters(no_tokens(lines), b'A');
    with_letters(motifs, b'a')
}

// The token of a letter; the number of tokens where there is none.
// Stays a number where there is none: `place_in` of the definitions answers so.
pub(crate) fn token_of(source: Source, b: u8) -> usize
    ensures { result ≡ place_in (letters_in source) b }
{
    source.bytes[..source.count]
        .iter()
        .position(|a| *a == b)
        .unwrap_or(source.count)
}

// The rule of a letter.
pub(crate) fn rule_into(text: &[u8], lines: Lines, letter: u8, out: &mut [u8]) -> usize
    requires { Sized lines × (24 ≤ length out.old) }
    ensures { (take result out.new ≡ expand_once (rules (lines_by text.now lines)) (letter ∷ [])) × (result ≤ 24) }
{
    let word = [letter; 1];
    count(expand_once(text, rule_book(lines), &word, out))
}

// The draws of a letter's rule.
pub(crate) fn strokes_into(text: &[u8], lines: Lines, letter: u8, out: &mut [u8]) -> usize
    requires { Sized lines × (288 ≤ length out.old) }
    ensures { (symbols_of (take result out.new) ≡ strokes (lines_by text.now lines) 1 letter) × (result ≤ 288) }
{
    let mut rule = [0u8; 24];
    let n = rule_into(text, lines, letter, &mut rule);
    count(expand_once(text, draw_book(lines), &rule[..n], out))
}
