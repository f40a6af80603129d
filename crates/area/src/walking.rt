// The walk along two areas: the cells of what an operation makes of them, one after another.
ghost use Rattle.std.specs.Prelude.{true, not, cond, ◌&&◌, ◌≡◌, ◌++◌, ◌+◌, ◌*◌, ◌^◌, ◌<◌, ◌≤◌, ltb, length, drop, set};
ghost use Rattle.fold.specs.Cells.{pairs};
ghost use Rattle.area.specs.Areas.{made_of};
ghost use Rattle.area.specs.Inside.Rooms.{Cut};

use crate::cursors::{END, START};
use crate::cutting::level;
use crate::overlay::Overlay;
use triple::domain::position_count;

// Stores a pair, or nothing where the cells are only counted.
// Stays a flag beside the buffer: with a closure that stores, tried in its place, a proof knows neither that its
// index is inside the buffer nor what the buffer holds after the walk.
fn note(writing: bool, n: usize, resolution: u64, position: u64, out: &mut [u64])
    requires { writing ≡ true → 2 * n + 1 < length out.old }
    ensures { out.new ≡ cond writing (set (set out.old (2 * n) resolution) (2 * n + 1) position) out.old }
{
    if writing {
        out[2 * n] = resolution;
        out[2 * n + 1] = position;
    }
}

// Cuts the first cell off the run from lo to hi: notes it, and returns its size.
fn cut(writing: bool, n: usize, lo: u64, hi: u64, out: &mut [u64]) -> u64
    requires { (lo < hi) × (hi ≤ 4 ^ 30) × (writing ≡ true → 2 * n + 1 < length out.old) }
    ensures { Cut writing n lo hi out.old result out.new }
{
    let k = level(lo, hi);
    note(writing, n, (30 - k) as u64, lo >> (2 * k), out);
    position_count(k)
}

// Whether the run from lo to hi is not empty and goes no further: what comes next is not kept.
fn is_closed(inside: bool, lo: u64, hi: u64) -> bool
    ensures { result ≡ (not inside && ltb lo hi) }
{
    !inside && lo < hi
}

// Where the run begins once the next piece is taken: as before, or behind what is not kept.
fn begin(inside: bool, lo: u64, end: u64) -> u64
    ensures { result ≡ cond inside lo end }
{
    if inside { lo } else { end }
}

impl Overlay<'_> {
    // The cells that the operation makes of the two areas: counted, and written or not. The run from lo to
    // hi is kept, and x is the piece from hi on.
    pub(crate) fn walk(&self, writing: bool, out: &mut [u64]) -> usize
        requires { writing ≡ true → 2 * length (made_of self.now.operation self.now.a.now self.now.b.now) ≤ length out.old }
        ensures { (result ≡ length (made_of self.now.operation self.now.a.now self.now.b.now)) × (out.new ≡ cond writing (pairs (made_of self.now.operation self.now.a.now self.now.b.now) ++ drop (2 * length (made_of self.now.operation self.now.a.now self.now.b.now)) out.old) out.old) }
    {
        let mut n = 0;
        let mut lo = 0;
        let mut hi = 0;
        let mut x = self.piece_after(START);
        // Stays a loop: each turn cuts a cell off the run or takes the next piece, and no list is gone through.
        loop {
            if is_closed(x.inside, lo, hi) {
                lo += cut(writing, n, lo, hi, out);
                n += 1;
                continue;
            }
            lo = begin(x.inside, lo, x.end);
            hi = x.end;
            if hi >= END {
                return n;
            }
            x = self.piece_after(x);
        }
    }
}
