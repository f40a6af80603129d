// Nodes and child steps for callers in C and Rust.
ghost use Rattle.std.specs.Prelude.{◌≡◌, ◌<◌};
ghost use Rattle.triple.specs.Lent.{status_of, after_call, first_of, second_of};
ghost use Rattle.capi.specs.Calls.{node_call, step_call};
ghost use Rattle.capi.specs.Inside.Given.{clipped, frame_clipped};

use crate::put::{put_node, put_step};
use nodes::{Frame, Node};
use triple::Triple;

// The node below a cell: orientation resolution motif flip to `numbers`, and its two positions to
// `places`.
pub fn hb_node(
    orientation: u8,
    resolution: u8,
    x: i32,
    y: i32,
    z: i32,
    numbers: &mut [i32],
    places: &mut [f64],
) -> u8
    ensures { (result ≡ status_of (first_of (node_call orientation resolution x y z) places.old) numbers.old) × (numbers.new ≡ after_call (first_of (node_call orientation resolution x y z) places.old) numbers.old) × (places.new ≡ after_call (second_of (node_call orientation resolution x y z) numbers.old) places.old) }
{
    let answer = nodes::triple_to_curve_node(orientation, resolution, Triple::new(x, y, z));
    match answer {
        Ok(p) => put_node(p.node, numbers, places),
        Err(e) => e.number(),
    }
}

// The child step from a node, at its own resolution and in its own orientation: x y z flavor of the
// child's cell and orientation resolution motif flip of the node below it to `numbers`, and that node's
// two positions to `places`.
pub fn hb_child(
    orientation: u8,
    resolution: u8,
    motif: i32,
    flip: i32,
    a: f64,
    b: f64,
    digit: u8,
    numbers: &mut [i32],
    places: &mut [f64],
) -> u8
    ensures { (result ≡ status_of (first_of (step_call orientation resolution motif flip a b digit) places.old) numbers.old) × (numbers.new ≡ after_call (first_of (step_call orientation resolution motif flip a b digit) places.old) numbers.old) × (places.new ≡ after_call (second_of (step_call orientation resolution motif flip a b digit) numbers.old) places.old) }
{
    let frame = frame_given(motif, flip, a, b);
    let answer = Node::new(orientation, resolution, frame).child(digit);
    match answer {
        Ok(c) => put_step(c, numbers, places),
        Err(e) => e.number(),
    }
}

// The frame of the numbers that a caller hands over. A motif or flip that no good one has need not fit
// a frame's field: one more than the greatest stands for it, and is refused as it would be.
fn frame_given(motif: i32, flip: i32, a: f64, b: f64) -> Frame
    ensures { result ≡ frame_clipped motif flip a b }
{
    let m = clipped(motif, Frame::GREATEST_MOTIF as u8);
    let f = clipped(flip, Frame::GREATEST_FLIP);
    Frame::new(m as u64, f, a, b)
}

// A number from 0 to the greatest; one more than the greatest for every other.
fn clipped(number: i32, greatest: u8) -> u8
    requires { greatest < 255 }
    ensures { result ≡ clipped greatest number }
{
    if number < 0 {
        return greatest + 1;
    }
    if number > greatest as i32 {
        return greatest + 1;
    }
    number as u8
}
