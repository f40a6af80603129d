// What a query finds, and a line's whole answer.
ghost use Rattle.std.specs.Prelude.{◌≡◌};
ghost use Rattle.triple.specs.Refusals.{told, said};
ghost use Rattle.triple.specs.Lent.{count_of, after_call};
ghost use Rattle.query.specs.declared.Query.{Query};
ghost use Rattle.query.specs.Lines.{answer_line};
ghost use Rattle.query.specs.Queries.{answer_of, point_found};

use crate::line::read_line;
use crate::print::print;
use crate::{Found, Query};
use curve::{PointCell, round_to_triple};
use lsystem::cell::s_to_cell;
use lsystem::lookup::triple_to_s;
use triple::Triple;
use triple::domain::domain_of;
use triple::refusal::Refusal;

pub fn answer(query: Query) -> Result<Found, Refusal>
    ensures { said result ≡ answer_of query }
{
    match query {
        Query::Position(o, r, s) => cell_found(o, r, s),
        Query::Cell(o, r, t) => position_found(o, r, t),
        Query::Point(o, r, i, j) => point_found(o, r, i, j),
    }
}

fn cell_found(o: u8, r: u8, s: u64) -> Result<Found, Refusal>
    ensures { said result ≡ answer_of (Query.Position o r s) }
{
    let c = s_to_cell(o, r, s)?;
    Ok(Found::Cell(c))
}

fn position_found(o: u8, r: u8, t: Triple) -> Result<Found, Refusal>
    ensures { said result ≡ answer_of (Query.Cell o r t) }
{
    let l = triple_to_s(o, r, t)?;
    Ok(Found::Position(l.position))
}

fn point_found(o: u8, r: u8, i: f64, j: f64) -> Result<Found, Refusal>
    ensures { said result ≡ answer_of (Query.Point o r i j) }
{
    domain_of(o, r)?;
    let c = round_to_triple(i, j, r)?;
    point_position(o, r, c)
}

fn point_position(o: u8, r: u8, c: PointCell) -> Result<Found, Refusal>
    ensures { said result ≡ point_found o r c }
{
    let l = triple_to_s(o, r, c.triple)?;
    Ok(Found::Point(c, l.position))
}

// The answer to one line, without LF.
pub fn answer_line(line: &[u8], out: &mut [u8]) -> Result<usize, Refusal>
    ensures { (said result ≡ count_of (told (answer_line line.now)) out.old) × (out.new ≡ after_call (told (answer_line line.now)) out.old) }
{
    let read = read_line(line);
    match read {
        Ok(q) => print(answer(q), out),
        Err(e) => print(Err(e), out),
    }
}
