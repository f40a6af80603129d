// Answers for the turtle on the lattice of corner pairs: the ten draw letters, rotation, a walk's
// single step, and the corner sum by which a cell of the plane and a triple name each other.
// Which letters are drawn, and in which order, is `grammar`'s.
#![tactic(auto)]

ghost use Rattle.std.specs.Prelude.{◌≡◌};
ghost use Rattle.turtle.specs.Plane.{far};

pub mod corner;
pub mod letter;
pub mod walk;

// A point of the lattice with the basis u = (√3/4, 1/4), v = (0, 1/2), or a sum of three such.
#[derive(Clone, Copy, PartialEq, Eq)]
pub struct AB {
    pub a: i64,
    pub b: i64,
}

impl AB {
    // The largest size of a pair that is taken. Every cell in bounds has a corner sum within it; a
    // triple near the ends of i32 need not.
    pub const LIMIT: i64 = 17179869184;

    pub fn new(a: i64, b: i64) -> Self
        ensures { result ≡ record { a = a; b = b } }
    {
        Self { a, b }
    }

    pub fn is_far(self) -> bool
        ensures { result ≡ far self }
    {
        self.a.unsigned_abs().max(self.b.unsigned_abs()) > Self::LIMIT.unsigned_abs()
    }
}
