// From spot to digits: a search from tile to tile by the bits of a spot's three numbers, highest first, three
// levels a step.
ghost use Rattle.std.specs.Prelude.{◌≡◌, ◌<◌, ◌≤◌, ◌+◌, ◌^◌};
ghost use Rattle.a5.specs.Inside.Spots.{spot};
ghost use Rattle.strides.specs.Searches.{on_tile, three_below, turns_at, digits_below, digits_after};
ghost use Rattle.lsystem.specs.Inside.Rooms.{SearchRoom};

use crate::axiom::{Column, Curve};
use strides::{Search, search_end, search_step};

// A cell by its spot in the footprint of an axiom.
#[derive(Clone, Copy)]
pub(crate) struct Spot {
    pub x: u64,
    pub y: u64,
    pub g: u64,
}

impl Spot {
    // Which way three levels go, by the bits of its numbers from n up.
    fn turns(self, n: u64) -> Column
        requires { n ≤ 30 }
        ensures { result.at ≡ turns_at n (spot self.x self.y self.g) }
    {
        Column {
            at: ((self.x ^ self.g) >> n) % 8 + 8 * (((self.y ^ self.g) >> n) % 8),
        }
    }
}

// Three levels down.
fn step(q: Search, turns: Column) -> Search
    requires { SearchRoom 0 q }
    ensures { result ≡ three_below q turns.at }
{
    let e = search_step(q.row + turns.at);
    Search {
        row: e.row,
        s: 64 * q.s + e.s,
    }
}

// The digits with those of the last three levels and the leaf's.
fn end(q: Search, turns: Column) -> u64
    requires { SearchRoom 0 q }
    ensures { result ≡ digits_below q turns.at }
{
    256 * q.s + search_end(q.row + turns.at)
}

// The digits on the way from a curve's axiom to a spot. The turns of a step are worked out in the step before it: what
// is looked up waits for nothing else.
pub(crate) fn search(curve: Curve, p: Spot) -> u64
    ensures { result ≡ digits_after curve.resolution (spot p.x p.y p.g) (on_tile (32 + curve.letter)) }
{
    let resolution = curve.resolution as u64;
    let steps = (resolution - 1) / 3;
    let mut q = Search {
        row: 64 * (32 + 3 * (3 * steps + 3 - resolution) + curve.letter),
        s: 0,
    };
    let mut turns = p.turns(3 * steps);
    for k in (0..steps).rev() {
        q = step(q, turns);
        turns = p.turns(3 * k);
    }
    end(q, turns)
}
