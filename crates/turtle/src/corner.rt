// The exact map between a triple and the corner sum of its cell.
ghost use Rattle.std.specs.Prelude.{◌≡◌, false, ◌≤◌};
ghost use Rattle.turtle.specs.Corners.{corner_sum, corner_sum_of, candidate, narrowed, triple_of};
ghost use Rattle.turtle.specs.Inside.Candidates.{with_sum};
ghost use Rattle.turtle.specs.Plane.{far};
ghost use Rattle.triple.specs.Refusals.{said};

use crate::AB;
use triple::Triple;
use triple::refusal::Refusal;

// The corner sum of a triple's cell.
pub fn corner_sum(t: Triple) -> Result<AB, Refusal>
    ensures { said result ≡ corner_sum_of t }
{
    t.parity()?;
    Ok(sum_of_corners(t))
}

// The Rust's b = 4 (2x - y - z) - 4 and a = (12 (y - z) + 12 - b) / 2, multiplied out.
fn sum_of_corners(t: Triple) -> AB
    ensures { result ≡ corner_sum t }
{
    let x = t.x as i64;
    let y = t.y as i64;
    let z = t.z as i64;
    let a = 8 * y - 4 * x - 4 * z + 8;
    let b = 8 * x - 4 * y - 4 * z - 4;
    AB::new(a, b)
}

// The triple with these coordinates, where each is an i32.
pub fn narrowed(x: i64, y: i64, z: i64) -> Option<Triple>
    ensures { result ≡ narrowed (record { x = x; y = y; z = z }) }
{
    let x = i32::try_from(x).ok()?;
    let y = i32::try_from(y).ok()?;
    let z = i32::try_from(z).ok()?;
    Some(Triple::new(x, y, z))
}

// The only triple of sum s that can have the corner sum p, where its coordinates are i32.
fn candidate(s: u8, p: AB) -> Option<Triple>
    requires { (s ≤ 1) × (far p ≡ false) }
    ensures { result ≡ narrowed (candidate s p) }
{
    let sum = i64::from(s);
    let x = (p.b + 4 + 4 * sum) / 12;
    let y = (p.a - 8 + 4 * sum) / 12;
    narrowed(x, y, sum - x - y)
}

// The triple of sum s that has the corner sum p. The sum of the three proves nothing: the halves of a
// pair off the lattice can sum to 0 as well.
fn with_sum(s: u8, p: AB) -> Option<Triple>
    requires { (s ≤ 1) × (far p ≡ false) }
    ensures { result ≡ with_sum s p }
{
    let t = candidate(s, p)?;
    if sum_of_corners(t) == p {
        Some(t)
    } else {
        None
    }
}

impl AB {
    // The triple that has this corner sum.
    pub fn to_triple(self) -> Result<Triple, Refusal>
        ensures { said result ≡ triple_of self }
    {
        if self.is_far() {
            return Err(Refusal::Pair);
        }
        if let Some(even) = with_sum(0, self) {
            return Ok(even);
        }
        with_sum(1, self).ok_or(Refusal::Pair)
    }
}
