// Grammars and their tables. A text is one word of the line, with `_` for a space and `/` for LF.
ghost use Rattle.std.specs.Prelude.{◌≤◌, length};

use crate::print::{Answer, Fault};
use crate::words::Words;
use descent::{TableCell, descend_table};
use tables::compiler::{CompileError, compile_grammar};
use text::number::{byte, integer, natural};
use triple::refusal::Refusal;

// The numbers of a state.
const SIZE: usize = 41;

fn letter_of(b: u8) -> u8 {
    match b {
        b'_' => b' ',
        b'/' => 10,
        _ => b,
    }
}

// The text that a word writes, at the front of what is lent for it.
fn text_of<'a>(word: &[u8], text: &'a mut [u8]) -> &'a [u8]
    ensures { length result.now ≤ length text.old }
{
    let n = word.len().min(text.len());
    for (letter, b) in text.iter_mut().zip(word) {
        *letter = letter_of(*b);
    }
    &text[..n]
}

// How many states the text that a word writes has, in a table from an entry on.
fn compiled(word: &[u8], table: &mut [i32], at: usize) -> Result<usize, CompileError> {
    let mut text = [0u8; 512];
    compile_grammar(text_of(word, &mut text), table, at)
}

// The number of states of a grammar, and the numbers of one of them, where the table has it.
pub(crate) fn state(words: Words<'_>, out: &mut Answer<'_>) -> Result<(), Fault> {
    let (at, k) = (
        words.number(1, natural)? as usize,
        words.number(2, byte)? as usize,
    );
    let mut table = [0i32; 2048];
    let states = compiled(words.at(3), &mut table, at)?;
    out.natural(states as u64);
    if k < 32 {
        for entry in table.iter().skip(at).skip(SIZE * k).take(SIZE) {
            out.integer(*entry as i64);
        }
    }
    Ok(())
}

// The cell at a place of what a grammar's table gives after the line's changes.
pub(crate) fn descent(words: Words<'_>, out: &mut Answer<'_>) -> Result<(), Fault> {
    let at = words.number(1, natural)? as usize;
    let mut table = [0i32; 2048];
    let states = compiled(words.at(7), &mut table, at)?;
    change(words, &mut table);
    let held = at.saturating_add(states.saturating_mul(SIZE)).min(2048);
    let cell = descend(words, &table[..held])?;
    out.integer(cell.sum.a);
    out.integer(cell.sum.b);
    out.natural(cell.flavor as u64);
    Ok(())
}

// The table's entries changed as the words after the text say: places, and the numbers to stand there. A pair that
// does not parse changes nothing.
fn change(words: Words<'_>, table: &mut [i32]) {
    for k in (9..words.count()).step_by(2) {
        if let (Ok(place), Ok(value)) = (words.number(k - 1, natural), words.number(k, integer)) {
            if let Some(entry) = table.get_mut(place as usize) {
                *entry = value;
            }
        }
    }
}

fn descend(words: Words<'_>, table: &[i32]) -> Result<TableCell, Refusal> {
    let start = words.number(2, natural)? as usize;
    let states = words.number(3, natural)? as usize;
    let passes = words.number(4, byte)?;
    let token = words.number(5, natural)? as usize;
    descend_table(
        table,
        start,
        states,
        passes,
        token,
        words.number(6, natural)?,
    )
}
