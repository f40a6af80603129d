// A state's 41 numbers, and how they are written.
ghost use Rattle.std.specs.Prelude.{◌≡◌, ◌++◌, ◌≤◌, ◌<◌, length, drop};
ghost use Rattle.tables.specs.Inside.StateNumbers.{state_in, coordinate_at, factor_at, number_of, numbers_of};

use crate::frames::flipped;
use crate::{Child, StateParts};
use classifier::{Corner, Separator};

// The state of a child in its parent's frame.
fn state_of(child: Child, flip: bool) -> i32
    requires { child.token < 52 }
    ensures { result ≡ state_in flip child }
{
    (2 * child.token + usize::from(flipped(flip, child.flip))) as i32
}

// Stays beside `factor_at`: this one picks of two bytes, that one of three numbers.
fn coordinate_at(c: Corner, j: usize) -> i32
    ensures { result ≡ coordinate_at c j }
{
    i32::from(if j % 2 == 0 { c.a } else { c.b })
}

fn factor_at(s: Separator, j: usize) -> i32
    ensures { result ≡ factor_at s j }
{
    match j % 3 {
        0 => s.x,
        1 => s.y,
        _ => s.c,
    }
}

// Number j of a state.
// Stays by the place of a number: so is its definition, and so the table is read.
#[tactic(auto, using(crate::proofs::StateNumberLaws::numbered))]
fn number_at(parts: StateParts, j: usize) -> i32
    requires { j < 41 }
    ensures { result ≡ number_of parts j }
{
    if j < 4 {
        state_of(parts.children[j], parts.flip)
    } else if j < 12 {
        coordinate_at(parts.starts[(j - 4) / 2], j)
    } else if j < 20 {
        coordinate_at(parts.leaves[(j - 12) / 2].sum, j)
    } else if j < 24 {
        parts.leaves[j - 20].flavor
    } else if j < 33 {
        factor_at(parts.classes.separators[(j - 24) / 3], j)
    } else {
        i32::from(parts.classes.choices[j - 33])
    }
}

// A state's numbers at the front of its part of the table.
#[tactic(auto, using(crate::proofs::StateNumberLaws::pouring))]
pub(crate) fn write_numbers(parts: StateParts, out: &mut [i32])
    requires { 41 ≤ length out.old }
    ensures { out.new ≡ numbers_of parts ++ drop 41 out.old }
{
    for j in 0..41 {
        out[j] = number_at(parts, j);
    }
}
