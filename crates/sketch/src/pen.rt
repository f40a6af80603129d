// The pen that the turtle carries: it knows where in the buffer the next cell goes.
ghost use Rattle.std.specs.Prelude.{◌≡◌, ◌+◌, ◌≤◌, length};
ghost use Rattle.std.proofs.lemmas.List.Edits.{sets};
ghost use Rattle.turtle.specs.Corners.{triple_of};
ghost use Rattle.turtle.specs.Walk.{symbol_of};
ghost use Rattle.lsystem.specs.Cells.{flavor_in};
ghost use Rattle.sketch.specs.Inside.Pens.{Room, triple_in, entries_of, pen_after, inked};

use triple::Triple;
use triple::orientation::place_from;
use turtle::AB;
use turtle::walk::{DrawnCell, Stepped, Turtle};

// Of so many cells the first `drawn` are in the buffer: from its front up, or from the last cell's
// place down.
#[derive(Clone, Copy)]
pub(crate) struct Pen {
    pub turtle: Turtle,
    pub drawn: u64,
    pub cells: u64,
    pub backward: bool,
}

fn triple_in(sum: AB) -> Triple
    ensures { result ≡ triple_in (triple_of sum) }
{
    match sum.to_triple() {
        Ok(t) => t,
        Err(_) => Triple::new(0, 0, 0),
    }
}

fn flavor_in(flavor: Option<u8>) -> u8
    ensures { result ≡ flavor_in flavor }
{
    match flavor {
        Some(f) => f,
        None => 0,
    }
}

// x y z flavor, from an entry on.
fn put(cell: DrawnCell, at: usize, out: &mut [i32])
    requires { at + 4 ≤ length out.old }
    ensures { out.new ≡ sets out.old at (entries_of cell) }
{
    let t = triple_in(cell.sum);
    let flavor = flavor_in(cell.flavor) as i32;
    out[at..at + 4].copy_from_slice(&[t.x, t.y, t.z, flavor]);
}

// A letter draws a cell and a turn turns the turtle; any other byte does nothing.
pub(crate) fn stepped(pen: Pen, b: u8, out: &mut [i32]) -> Pen
    requires { Room (symbol_of b) pen out.old }
    ensures { (result ≡ pen_after (symbol_of b) pen) × (out.new ≡ inked (symbol_of b) pen out.old) }
{
    match pen.turtle.step(b) {
        Stepped::Drew(cell, next) => {
            let place = place_from(pen.backward, pen.cells, pen.drawn);
            put(cell, 4 * place as usize, out);
            Pen {
                turtle: next,
                drawn: pen.drawn + 1,
                ..pen
            }
        }
        Stepped::Turned(next) => Pen {
            turtle: next,
            ..pen
        },
        Stepped::NoDraw | Stepped::Lost => pen,
    }
}
