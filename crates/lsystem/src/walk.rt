// From place to cell: a walk down A5's curve by the digits of a place, highest first, three of them a step.
ghost use Rattle.std.specs.Prelude.{◌≡◌, ◌<◌, ◌≤◌, ◌+◌, ◌-◌, ◌^◌, ◌/◌, ◌%◌};
ghost use Rattle.strides.specs.Walks.{on_row_of, three_down, end_below, end_after};
ghost use Rattle.lsystem.specs.Inside.Rooms.{WalkRoom};

use crate::axiom::{Column, Curve};
use strides::{End, Walk, walk_end, walk_step};

// Three levels down.
fn step(w: Walk, digits: Column) -> Walk
    requires { WalkRoom 0 w }
    ensures { result ≡ three_down w digits.at }
{
    let q = walk_step(w.row + digits.at);
    Walk {
        x: 8 * w.x + q.x,
        y: 8 * w.y + q.y,
        row: q.row,
    }
}

// Two levels down, and the leaf.
fn end(w: Walk, digits: Column) -> End
    requires { WalkRoom 0 w }
    ensures { result ≡ end_below w digits.at }
{
    let e = walk_end(w.row + digits.at);
    End {
        x: 4 * w.x + e.x,
        flavor: e.flavor,
        y: 4 * w.y + e.y,
    }
}

// Where the digits of a place lead on an axiom's curve. The walk begins in the row in which the digits before its own
// first one, none to two, count for nothing.
pub(crate) fn walk_to(curve: Curve, place: u64) -> End
    ensures { result ≡ end_after (curve.resolution - 1) place (on_row_of (28 + curve.letter)) }
{
    let resolution = curve.resolution as u64;
    let steps = (resolution - 1) / 3;
    let mut w = Walk {
        x: 0,
        y: 0,
        row: 64 * (28 + 3 * (3 * steps + 3 - resolution) + curve.letter),
    };
    for k in (0..steps).rev() {
        w = step(w, Column::last(place >> (6 * k + 6)));
    }
    end(w, Column::last(place))
}
