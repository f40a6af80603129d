// A query line, read from its words.
ghost use Rattle.std.specs.Prelude.{◌≡◌};
ghost use Rattle.text.specs.Words.{words_of};
ghost use Rattle.query.specs.Lines.{position_rest, cell_rest, point_rest, query_of};
ghost use Rattle.triple.specs.Refusals.{said};

use crate::Query;
use text::number;
use text::words::{count, word};
use triple::Triple;
use triple::refusal::Refusal;

// P o r s, of which o and r are read.
fn position_query(line: &[u8], o: u8, r: u8) -> Result<Query, Refusal>
    ensures { said result ≡ position_rest o r (words_of line.now) }
{
    let Some(s) = number::natural(word(line, 3)) else {
        return Err(Refusal::Line);
    };
    Ok(Query::Position(o, r, s))
}

// C o r x y z, of which o and r are read.
fn cell_query(line: &[u8], o: u8, r: u8) -> Result<Query, Refusal>
    ensures { said result ≡ cell_rest o r (words_of line.now) }
{
    let Some(x) = number::integer(word(line, 3)) else {
        return Err(Refusal::Line);
    };
    let Some(y) = number::integer(word(line, 4)) else {
        return Err(Refusal::Line);
    };
    let Some(z) = number::integer(word(line, 5)) else {
        return Err(Refusal::Line);
    };
    Ok(Query::Cell(o, r, Triple::new(x, y, z)))
}

// R o r i j, of which o and r are read.
fn point_query(line: &[u8], o: u8, r: u8) -> Result<Query, Refusal>
    ensures { said result ≡ point_rest o r (words_of line.now) }
{
    let Some(i) = number::float(word(line, 3)) else {
        return Err(Refusal::Line);
    };
    let Some(j) = number::float(word(line, 4)) else {
        return Err(Refusal::Line);
    };
    Ok(Query::Point(o, r, i, j))
}

// The query that a line of at most 64 bytes, without LF, writes.
pub fn read_line(line: &[u8]) -> Result<Query, Refusal>
    ensures { said result ≡ query_of line.now }
{
    if line.len() > 64 {
        return Err(Refusal::Line);
    }
    let head = word(line, 0);
    if head.len() != 1 {
        return Err(Refusal::Line);
    }
    let letter = head[0];
    let words = count(line);
    let Some(o) = number::byte(word(line, 1)) else {
        return Err(Refusal::Line);
    };
    let Some(r) = number::byte(word(line, 2)) else {
        return Err(Refusal::Line);
    };
    match (letter, words) {
        (b'P', 4) => position_query(line, o, r),
        (b'C', 6) => cell_query(line, o, r),
        (b'R', 5) => point_query(line, o, r),
        _ => Err(Refusal::Line),
    }
}
