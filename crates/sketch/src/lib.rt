// Answers for A5's curve drawn from its rules alone: the cells of 1 to 6 passes, in order, into a lent
// buffer, in any of the six orientations. It reads no table, and so it is a second opinion on those that
// do: what it lists is what a descent over A5's compiled table gives, place by place (proofs/SecondOpinion.antt).
#![tactic(auto)]

ghost use Rattle.std.specs.Prelude.{◌≡◌, ◌*◌, ◌^◌, ◌≤◌, length};
ghost use Rattle.triple.specs.Lent.{count_of, after_call};
ghost use Rattle.sketch.specs.Drawings.{draw_call};
ghost use Rattle.sketch.specs.Inside.Pens.{start_of, Drawable};
ghost use Rattle.triple.specs.Refusals.{said};

use pen::Pen;
use triple::domain::{position_count, row_count};
use triple::orientation::{GREATEST_ORIENTATION, recipe_of};
use triple::refusal::Refusal;
use turtle::AB;
use turtle::walk::Turtle;
use walk::met;

mod pen;
mod walk;
mod word;

pub const GREATEST_PASSES: u8 = 6;

// Draws the curve: x y z flavor of each cell, in the order of its positions.
pub fn draw(orientation: u8, resolution: u8, out: &mut [i32]) -> Result<usize, Refusal>
    ensures { (said result ≡ count_of (draw_call orientation resolution) out.old) × (out.new ≡ after_call (draw_call orientation resolution) out.old) }
{
    if resolution == 0 {
        return Err(Refusal::Passes);
    }
    if resolution > GREATEST_PASSES {
        return Err(Refusal::Passes);
    }
    if orientation > GREATEST_ORIENTATION {
        return Err(Refusal::Orientation);
    }
    let cells = position_count(resolution);
    let entries = 4 * cells as usize;
    if out.len() < entries {
        return Err(Refusal::Room);
    }
    fill(orientation, resolution, out);
    Ok(entries)
}

// The axiom's letter walked, into a buffer that has room.
fn fill(orientation: u8, resolution: u8, out: &mut [i32])
    requires { Drawable orientation resolution × (4 * 4 ^ resolution ≤ length out.old) }
    ensures { out.new ≡ after_call (draw_call orientation resolution) out.old }
{
    let recipe = recipe_of(orientation);
    let pen = Pen {
        turtle: Turtle {
            at: start_of(recipe.shifted, resolution),
            heading: 0,
        },
        drawn: 0,
        cells: position_count(resolution),
        backward: recipe.backward,
    };
    met(b'A' + recipe.motif as u8, resolution + 1, pen, out);
}

// Where the walk starts. A step of (4, -4) is a triple's step of (-1, 1, 0), so that a walk that starts
// 2^r of them away draws its triples moved by (-2^r, 2^r, 0).
fn start_of(shifted: bool, resolution: u8) -> AB
    requires { resolution ≤ 6 }
    ensures { result ≡ start_of shifted resolution }
{
    if !shifted {
        return AB::new(0, 0);
    }
    let side = 4 * row_count(resolution);
    AB::new(side, -side)
}
