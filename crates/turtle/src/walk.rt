// A walk's single step, and the corners of the cell that it draws.
ghost use Rattle.std.specs.Prelude.{◌≡◌, [], ◌∷◌};
ghost use Rattle.turtle.specs.Walk.{step_of, corners_of, step_by, letter, turtle, cell, corners, corner as corner_of, turned_flavor};
ghost use Rattle.turtle.specs.Plane.{◌⊕◌, rot, rots};
ghost use Rattle.turtle.specs.Inside.Sizes.{Near, Roomy, Short, SmallStroke};

use crate::AB;
use crate::letter::{Stroke, stroke_of};

#[derive(Clone, Copy)]
pub struct Turtle {
    pub at: AB,
    pub heading: u8,
}

// A drawn cell: its corner sum and flavor.
#[derive(Clone, Copy)]
pub struct DrawnCell {
    pub sum: AB,
    pub flavor: Option<u8>,
}

#[derive(Clone, Copy)]
pub struct Corners {
    pub p: AB,
    pub q: AB,
    pub r: AB,
}

// `Lost`: the turtle is beyond `AB::LIMIT`, far from every cell that is in bounds.
// Stays an enum: two of its four outcomes are answers, and a byte that draws nothing is no error of a walk.
#[derive(Clone, Copy)]
pub enum Stepped {
    Drew(DrawnCell, Turtle),
    Turned(Turtle),
    NoDraw,
    Lost,
}

// Why a letter hosts no cell: it draws none, or the turtle is beyond `AB::LIMIT`.
#[derive(Clone, Copy)]
pub enum Unhosted {
    NoDraw,
    Lost,
}

impl Turtle {
    // A letter draws a cell and moves the turtle, a turn turns it, any other byte does nothing.
    pub fn step(self, letter: u8) -> Stepped
        ensures { result ≡ step_of letter self }
    {
        let at = self.at;
        if at.is_far() {
            return Stepped::Lost;
        }
        let heading = self.heading % 6;
        if letter == b'+' {
            return Stepped::Turned(Turtle {
                at,
                heading: (heading + 1) % 6,
            });
        }
        if letter == b'-' {
            return Stepped::Turned(Turtle {
                at,
                heading: (heading + 5) % 6,
            });
        }
        let Some(s) = stroke_of(letter) else {
            return Stepped::NoDraw;
        };
        drew(s, at, heading)
    }

    // The three corners of the cell that a letter hosts.
    pub fn corners(self, letter: u8) -> Result<Corners, Unhosted>
        ensures { result ≡ corners_of letter self }
    {
        let at = self.at;
        if at.is_far() {
            return Err(Unhosted::Lost);
        }
        let Some(s) = stroke_of(letter) else {
            return Err(Unhosted::NoDraw);
        };
        Ok(corners_of(s, at, self.heading % 6))
    }
}

// Stays with sizes in the contracts: pairs of three sizes meet in one sum, and a type for each would be made and
// taken apart at every call.
fn drew(s: Stroke, at: AB, heading: u8) -> Stepped
    requires { SmallStroke s × Near at }
    ensures { result ≡ step_by (letter s ∷ []) (turtle at heading) }
{
    let cell = cell_of(s, at, heading);
    let next = corner(s.step, at, heading);
    Stepped::Drew(cell, Turtle { at: next, heading })
}

fn cell_of(s: Stroke, at: AB, heading: u8) -> DrawnCell
    requires { SmallStroke s × Near at }
    ensures { result ≡ cell s (turtle at heading) }
{
    let c = corners_of(s, at, heading);
    let sum = add(add(c.p, c.q), c.r);
    DrawnCell {
        sum,
        flavor: turned(s.flavor, heading),
    }
}

fn corners_of(s: Stroke, at: AB, heading: u8) -> Corners
    requires { SmallStroke s × Near at }
    ensures { result ≡ corners s (turtle at heading) }
{
    let p = corner(s.p, at, heading);
    let q = corner(s.q, at, heading);
    let r = corner(s.r, at, heading);
    Corners { p, q, r }
}

fn corner(c: AB, at: AB, heading: u8) -> AB
    requires { Short c × Near at }
    ensures { result ≡ corner_of (turtle at heading) c }
{
    add(at, rot_times(c, heading))
}

// A flavor's low bit turns over with the heading's.
// Stays a match, and no `map`: of what its closure answers the proof learns nothing that closes it.
fn turned(flavor: Option<u8>, heading: u8) -> Option<u8>
    ensures { result ≡ turned_flavor heading flavor }
{
    match flavor {
        Some(f) => Some(f ^ (heading % 2)),
        None => None,
    }
}

fn rot_times(p: AB, n: u8) -> AB
    requires { Short p }
    ensures { result ≡ rots n p }
{
    let mut q = p;
    for _ in 0..n {
        q = rot60(q);
    }
    q
}

// 60 degrees counterclockwise.
fn rot60(p: AB) -> AB
    requires { Short p }
    ensures { result ≡ rot p }
{
    let a = p.a;
    let b = p.b;
    AB::new(-b, a + b)
}

fn add(p: AB, q: AB) -> AB
    requires { Roomy p × Roomy q }
    ensures { result ≡ p ⊕ q }
{
    AB::new(p.a + q.a, p.b + q.b)
}
