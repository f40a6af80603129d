// Answers for nodes and for the child steps that go down A5's curve from one to the next. A node knows its
// walk's orientation and resolution, so a step asks for a digit alone. The positions of its frame
// are f64: they are tested whole from their bits, worked on as i64 and returned by exact casts. Which
// position names a cell is `lsystem`'s; the table that a step reads is `a5`'s.
#![tactic(auto)]

ghost use Rattle.std.specs.Prelude.{◌≡◌, ◌^◌, ◌<◌, ◌≤◌, true, ◌==◌, unsigned_abs};
ghost use Rattle.triple.specs.Orientations.{moved_by};
ghost use Rattle.turtle.specs.Plane.{ab};
ghost use Rattle.nodes.specs.Nodes.{good_position, good_frame, good_node, can_step, frame, bounded, node_below, cell_below_of, child_step_of, frame_at, node_of};
ghost use Rattle.nodes.specs.NodeAnswers.{axiom_node_of, said_bounded};
ghost use Rattle.nodes.specs.Inside.Descents.{place_of_frame, frame_of_place, named_by, Exact};
ghost use Rattle.triple.specs.Refusals.{said};

use crate::descent::{Drawn, Place, descend};
use crate::words::Digit;
use lsystem::Position;
use lsystem::cell::Cell;
use lsystem::lookup::triple_to_s;
use triple::domain::{position_count, row_count};
use triple::orientation::{GREATEST_ORIENTATION, place_from, recipe_of};
use triple::refusal::Refusal;
use triple::{Triple, in_bounds_wide};

pub mod descent;
pub mod words;

// A piece of the curve below a cell, from which the cell's children are read: the four fields of the
// Rust's node. Good ones have a motif of at most 13, a flip of 0 or 1, and positions that are whole
// multiples of 4, at most 2^36 in size, and not negative zero.
#[derive(Clone, Copy)]
pub struct Frame {
    pub motif: u64,
    pub flip: u8,
    pub pos_a: f64,
    pub pos_b: f64,
}

// A frame and the walk that came to it: its orientation, and the resolution of the cell above it. So a
// step cannot be taken in another orientation or to another resolution than the walk's own. Good nodes
// have an orientation of at most 5, a resolution of at most 30 and a good frame.
#[derive(Clone, Copy)]
pub struct Node {
    pub orientation: u8,
    pub resolution: u8,
    pub frame: Frame,
}

// What a child step answers: the child's cell, and the node below it.
#[derive(Clone, Copy)]
pub struct ChildStep {
    pub cell: Cell,
    pub node: Node,
}

// What a lookup of a cell's node answers: the cell's position, and the node below it.
#[derive(Clone, Copy)]
pub struct Reached {
    pub position: Position,
    pub node: Node,
}

impl Frame {
    pub const GREATEST_MOTIF: u64 = 13;

    pub const GREATEST_FLIP: u8 = 1;
    // The largest size of a position.
    pub const LIMIT: f64 = 68719476736.0;

    // The one place where a frame is made. Anything may stand in it: whether it is within the limits is
    // what `is_good` tells.
    pub fn new(motif: u64, flip: u8, pos_a: f64, pos_b: f64) -> Self
        ensures { result ≡ record { motif = motif; flip = flip; pos_a = pos_a; pos_b = pos_b } }
    {
        Self {
            motif,
            flip,
            pos_a,
            pos_b,
        }
    }

    // The frame of whole positions. They may be beyond the limit, as those below a good frame can be, and
    // are exact all the same.
    fn whole(motif: u64, flip: u8, a: i64, b: i64) -> Self
        requires { (flip ≤ 1) × ((unsigned_abs a ≤ 2 ^ 38) × (unsigned_abs b ≤ 2 ^ 38)) }
        ensures { result ≡ frame motif (flip == 1) (ab a b) }
    {
        Self::new(motif, flip, a as f64, b as f64)
    }

    pub fn is_good(self) -> bool
        ensures { result ≡ good_frame self }
    {
        self.motif <= Self::GREATEST_MOTIF
            && self.flip <= Self::GREATEST_FLIP
            && is_position(self.pos_a)
            && is_position(self.pos_b)
    }

    // Where a good frame stands in the descent.
    // Stays two functions, this and `at`: each requires something of its argument, which `From` does not, and none refuses.
    fn place(self) -> Place
        requires { good_frame self ≡ true }
        ensures { result ≡ place_of_frame self }
    {
        Place {
            a: self.pos_a as i64,
            b: self.pos_b as i64,
            state: 2 * self.motif + self.flip as u64,
        }
    }

    // The frame that stands at a place of the descent.
    fn at(p: Place) -> Self
        requires { Exact p }
        ensures { result ≡ frame_of_place p }
    {
        Self::whole(p.state / 2, (p.state % 2) as u8, p.a, p.b)
    }
}

impl Node {
    // The one place where a node is made. Anything may stand in it.
    pub fn new(orientation: u8, resolution: u8, frame: Frame) -> Self
        ensures { result ≡ record { orientation = orientation; resolution = resolution; frame = frame } }
    {
        Self {
            orientation,
            resolution,
            frame,
        }
    }

    pub fn is_good(self) -> bool
        ensures { result ≡ good_node self }
    {
        self.orientation <= GREATEST_ORIENTATION
            && self.resolution <= Triple::GREATEST_RESOLUTION
            && self.frame.is_good()
    }

    // Whether it is good and has children: below the last resolution there are none.
    pub fn can_step(self) -> bool
        ensures { result ≡ can_step self }
    {
        self.is_good() && self.resolution < Triple::GREATEST_RESOLUTION
    }

    // The child with a digit of the curve, that is the last digit of its position: its cell, one
    // resolution down, and the node below it.
    pub fn child(self, digit: u8) -> Result<ChildStep, Refusal>
        ensures { said result ≡ child_step_of self digit }
    {
        if !self.can_step() {
            return Err(Refusal::Node);
        }
        if digit > 3 {
            return Err(Refusal::Digit);
        }
        let recipe = recipe_of(self.orientation);
        let digit = Digit {
            value: place_from(recipe.backward, 4, digit as u64),
        };
        let found = self.cell_below(digit);
        let Some(cell) = found else {
            return Err(Refusal::Bounds);
        };
        Ok(ChildStep {
            cell,
            node: self.below(digit),
        })
    }

    // The cell of the child at a place of the node's four.
    fn cell_below(self, place: Digit) -> Option<Cell>
        requires { can_step self ≡ true }
        ensures { said_bounded result ≡ cell_below_of self place.value }
    {
        let recipe = recipe_of(self.orientation);
        cell_within(
            recipe.shifted,
            self.resolution + 1,
            self.frame.place().leaf(place),
        )
    }

    // The node below that cell.
    fn below(self, place: Digit) -> Self
        requires { can_step self ≡ true }
        ensures { result ≡ node_below self place.value }
    {
        let next = Frame::at(self.frame.place().down(place));
        Self::new(self.orientation, self.resolution + 1, next)
    }
}

// A whole multiple of 4, at most the limit in size, and not negative zero: cut to a whole number and
// cast back, it has the bits that it had.
fn is_position(x: f64) -> bool
    ensures { result ≡ good_position x }
{
    if x >= -Frame::LIMIT && x <= Frame::LIMIT {
        let t = std::num::truncating_f64_to_i64(x);
        return f64::to_bits(t as f64) == f64::to_bits(x) && t % 4 == 0;
    }
    false
}

// The node of the orientation's own axiom, at resolution 0, from which a walk down starts.
pub fn axiom_node(orientation: u8) -> Result<Node, Refusal>
    ensures { said result ≡ axiom_node_of orientation }
{
    if orientation > GREATEST_ORIENTATION {
        return Err(Refusal::Orientation);
    }
    let recipe = recipe_of(orientation);
    Ok(Node::new(orientation, 0, Frame::whole(recipe.motif, 0, 0, 0)))
}

// Three coordinates that may not fit an i32.
// Stays a type beside `Triple`, whose fields are i32 for C and for every crate: of one type over both the public fields would change.
#[derive(Clone, Copy)]
struct Wide {
    x: i64,
    y: i64,
    z: i64,
}

fn moved_wide(moves: bool, resolution: u8, t: Triple) -> Wide
    requires { resolution ≤ 30 }
    ensures { record { x = result.x; y = result.y; z = result.z } ≡ moved_by moves resolution t }
{
    let x = t.x as i64;
    let y = t.y as i64;
    let z = t.z as i64;
    if moves {
        let rows = row_count(resolution);
        return Wide {
            x: x - rows,
            y: y + rows,
            z,
        };
    }
    Wide { x, y, z }
}

// A drawn cell, if it is in bounds. Each whose corner sum has no triple is out of them.
fn cell_within(moves: bool, resolution: u8, drawn: Drawn) -> Option<Cell>
    requires { (0 < resolution) × (resolution ≤ 30) }
    ensures { said_bounded result ≡ bounded resolution (named_by moves resolution drawn) }
{
    let sum = drawn.sum;
    let found = sum.to_triple();
    let Ok(t) = found else {
        return None;
    };
    let Wide { x, y, z } = moved_wide(moves, resolution, t);
    if !in_bounds_wide(x, y, z, resolution) {
        return None;
    }
    Some(Cell {
        triple: Triple::new(x as i32, y as i32, z as i32),
        flavor: drawn.flavor,
    })
}

// A cell's position and flavor, and the node below it: where a walk down to the cell by `child` would
// arrive, in one descent.
pub fn triple_to_curve_node(orientation: u8, resolution: u8, t: Triple) -> Result<Reached, Refusal>
    ensures { said result ≡ node_of orientation resolution t }
{
    let l = triple_to_s(orientation, resolution, t)?;
    let position = l.position;
    let frame = frame_below(orientation, resolution, position.s);
    let node = Node::new(orientation, resolution, frame);
    Ok(Reached { position, node })
}

// The frame below the cell that s names.
fn frame_below(orientation: u8, resolution: u8, s: u64) -> Frame
    requires { (resolution ≤ 30) × (s < 4 ^ resolution) }
    ensures { result ≡ frame_at orientation resolution s }
{
    let recipe = recipe_of(orientation);
    let place = place_from(recipe.backward, position_count(resolution), s);
    Frame::at(descend(2 * recipe.motif, resolution as u64, place))
}
