// One function for each letter: the words of its line read, the operation called, its answer printed.
ghost use Rattle.std.specs.Prelude.{◌≤◌, length};

use crate::print::{Answer, Fault};
use crate::words::Words;
use nodes::{Frame, Node};
use text::number::{byte, float, integer, natural, wide_integer};
use triple::Triple;
use turtle::AB;

pub(crate) fn corner_sum(words: Words<'_>, out: &mut Answer<'_>) -> Result<(), Fault> {
    let t = Triple::new(
        words.number(1, integer)?,
        words.number(2, integer)?,
        words.number(3, integer)?,
    );
    let p = turtle::corner::corner_sum(t)?;
    out.integer(p.a);
    out.integer(p.b);
    Ok(())
}

pub(crate) fn triple(words: Words<'_>, out: &mut Answer<'_>) -> Result<(), Fault> {
    let p = AB::new(
        words.number(1, wide_integer)?,
        words.number(2, wide_integer)?,
    );
    put_triple(out, p.to_triple()?);
    Ok(())
}

fn put_triple(out: &mut Answer<'_>, t: Triple) {
    out.integer(t.x as i64);
    out.integer(t.y as i64);
    out.integer(t.z as i64);
}

pub(crate) fn code(words: Words<'_>, out: &mut Answer<'_>) -> Result<(), Fault> {
    let (o, r, s) = (
        words.number(1, byte)?,
        words.number(2, byte)?,
        words.number(3, natural)?,
    );
    let mut bytes = [0u8; 9];
    let n = code::write(o, r, s, &mut bytes)?;
    for b in bytes.iter().take(n) {
        out.natural(*b as u64);
    }
    Ok(())
}

pub(crate) fn reading(words: Words<'_>, out: &mut Answer<'_>) -> Result<(), Fault> {
    let mut bytes = [0u8; 16];
    let n = take_bytes(words, &mut bytes);
    let r = code::read(&bytes[..n])?;
    out.natural(r.orientation as u64);
    out.natural(r.resolution as u64);
    out.natural(r.s);
    out.natural(r.used as u64);
    out.natural(r.old as u64);
    Ok(())
}

// The bytes that the words after the first write, up to one that is none; answers how many.
// Stays a count: the loop that lends the bytes one by one cannot answer a part of them.
fn take_bytes(words: Words<'_>, bytes: &mut [u8]) -> usize
    ensures { result ≤ length bytes.old }
{
    for (n, b) in bytes.iter_mut().enumerate() {
        match words.number(n + 1, byte) {
            Ok(x) => *b = x,
            Err(_) => return n,
        }
    }
    bytes.len()
}

// The step from the node of a frame, an orientation and a resolution, by a digit: the cell, and the node below it.
pub(crate) fn child(words: Words<'_>, out: &mut Answer<'_>) -> Result<(), Fault> {
    let (motif, flip) = (words.number(3, natural)?, words.number(4, byte)?);
    let frame = Frame::new(
        motif,
        flip,
        words.number(5, float)?,
        words.number(6, float)?,
    );
    let node = Node::new(words.number(1, byte)?, words.number(2, byte)?, frame);
    let c = node.child(words.number(7, byte)?)?;
    put_triple(out, c.cell.triple);
    out.natural(c.cell.flavor as u64);
    put_node(out, c.node);
    Ok(())
}

fn put_node(out: &mut Answer<'_>, node: Node) {
    let frame = node.frame;
    out.natural(node.orientation as u64);
    out.natural(node.resolution as u64);
    out.natural(frame.motif);
    out.natural(frame.flip as u64);
    out.float(frame.pos_a);
    out.float(frame.pos_b);
}
