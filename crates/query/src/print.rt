// What a query finds, printed as a line of decimals with single spaces between them.
ghost use Rattle.std.specs.Prelude.{◌≡◌, [], ◌≤◌, length};
ghost use Rattle.text.specs.Words.{spaced};
ghost use Rattle.query.specs.declared.Found.{Found};
ghost use Rattle.query.specs.Lines.{triple_words, position_words};
ghost use Rattle.query.specs.Prints.{found_text};
ghost use Rattle.query.specs.Inside.Printing.{Printed};
ghost use Rattle.triple.specs.Refusals.{told, said};
ghost use Rattle.triple.specs.Lent.{count_of, after_call};

use crate::Found;
use curve::PointCell;
use lsystem::Position;
use text::put::{put, put_bytes, put_integer, put_natural, put_next_integer, put_next_natural};
use triple::Triple;
use triple::refusal::Refusal;

// An i32 takes at most 11 bytes, a u64 20, a u8 3 and a mark 1: so a triple at most 35, and a line at
// most 62.
fn write_triple(out: &mut [u8], t: Triple) -> usize
    requires { 35 ≤ length out.old }
    ensures { Printed 35 out.old (spaced (triple_words t [])) out.new result }
{
    let x = t.x as i64;
    let y = t.y as i64;
    let z = t.z as i64;
    let after_x = put_integer(out, 0, x);
    let after_y = put_next_integer(out, after_x, y);
    put_next_integer(out, after_y, z)
}

fn write_named(out: &mut [u8], t: Triple, p: Position) -> usize
    requires { 60 ≤ length out.old }
    ensures { Printed 60 out.old (spaced (triple_words t (position_words p []))) out.new result }
{
    let s = p.s;
    let flavor = p.flavor;
    let after_triple = write_triple(out, t);
    let after_s = put_next_natural(out, after_triple, s);
    put_next_natural(out, after_s, flavor as u64)
}

fn write_point(out: &mut [u8], c: PointCell, p: Position) -> usize
    requires { 62 ≤ length out.old }
    ensures { Printed 62 out.old (found_text (told (Found.Point c p))) out.new result }
{
    let t = c.triple;
    let after_position = write_named(out, t, p);
    put_next_natural(out, after_position, c.mark() as u64)
}

fn write_found(out: &mut [u8], found: Found) -> usize
    requires { 62 ≤ length out.old }
    ensures { Printed 62 out.old (found_text (told found)) out.new result }
{
    match found {
        Found::Cell(c) => {
            let t = c.triple;
            let flavor = c.flavor;
            let after_triple = write_triple(out, t);
            put_next_natural(out, after_triple, flavor as u64)
        }
        Found::Position(p) => {
            let s = p.s;
            let flavor = p.flavor;
            let after_s = put_natural(out, 0, s);
            put_next_natural(out, after_s, flavor as u64)
        }
        Found::Point(c, p) => write_point(out, c, p),
    }
}

fn write(out: &mut [u8], found: Result<Found, Refusal>) -> usize
    requires { 62 ≤ length out.old }
    ensures { Printed 62 out.old (found_text (said found)) out.new result }
{
    match found {
        Ok(f) => write_found(out, f),
        Err(e) => {
            let after_mark = put(out, 0, b'!');
            put_next_natural(out, after_mark, e.number() as u64)
        }
    }
}

// Answers the line's length. It is written aside first: a buffer that is too short stays as it is.
pub fn print(found: Result<Found, Refusal>, out: &mut [u8]) -> Result<usize, Refusal>
    ensures { (said result ≡ count_of (told (found_text (said found))) out.old) × (out.new ≡ after_call (told (found_text (said found))) out.old) }
{
    let mut text = [0u8; 62];
    let n = write(&mut text, found);
    let end = put_bytes(out, 0, &text[..n]);
    if end > out.len() {
        return Err(Refusal::Room);
    }
    Ok(end)
}
