// Answers for A5's curve three levels a look: where three digits lead from a state, which cell two digits and a
// leaf's lead to, which tile and digits three bits of a spot lead to, and the last digits of all. Each is one
// load from a table. The walks and searches that go by these looks are `lsystem`'s; what the tables hold is read
// off `a5`'s table.
#![tactic(auto)]

ghost use Rattle.std.specs.Prelude.{◌≡◌, slice_index_or};
ghost use Rattle.strides.specs.Walks.{walk_step, walk_end};
ghost use Rattle.strides.specs.Searches.{search_step, search_end};

use entries::{SEARCH_ENDS, SEARCH_STEPS, WALK_ENDS, WALK_STEPS};

mod entries;

// Where a walk is: the first entry of a state's row, and the beginning of the state's footprint, in units of its
// own scale, as seen from where the walk began. A spot's third number is not carried: the parity of its cell and
// the first two say it.
#[derive(Clone, Copy)]
pub struct Walk {
    pub x: u64,
    pub y: u64,
    pub row: u64,
}

// Where a walk ends: the first two numbers of a cell's spot, and its flavor. They stand apart, so that they are
// worked out apart: side by side the compiler makes one vector of them, which is slower.
#[derive(Clone, Copy)]
pub struct End {
    pub x: u64,
    pub flavor: u8,
    pub y: u64,
}

// Where a search is: the first entry of a tile's row, and the digits on the way there.
#[derive(Clone, Copy)]
pub struct Search {
    pub row: u64,
    pub s: u64,
}

// The entry at a place of a table, and past its end `none`.
fn entry_of<T: Copy>(table: &[T], i: u64, none: T) -> T
    ensures { result ≡ slice_index_or table.now i none }
{
    table.get(i as usize).copied().unwrap_or(none)
}

// Entry 64 * k + c: three levels down from the row k by the three digits of c.
pub fn walk_step(i: u64) -> Walk
    ensures { result ≡ walk_step i }
{
    let e = entry_of(&WALK_STEPS, i, 0);
    Walk {
        x: (e % 16) as u64,
        y: (e / 2048) as u64,
        row: (64 * (e / 64 % 32)) as u64,
    }
}

// Entry 64 * k + c: two levels down from the row k, and at the leaf there, by the three digits of c.
pub fn walk_end(i: u64) -> End
    ensures { result ≡ walk_end i }
{
    let e = entry_of(&WALK_ENDS, i, 0);
    End {
        x: (e % 16) as u64,
        flavor: (e / 512) as u8,
        y: (e / 16 % 32) as u64,
    }
}

// Entry 64 * t + c: three levels down from the tile t by the three pairs of bits of c.
pub fn search_step(i: u64) -> Search
    ensures { result ≡ search_step i }
{
    let e = entry_of(&SEARCH_STEPS, i, 0);
    Search {
        row: (64 * (e / 64)) as u64,
        s: (e % 64) as u64,
    }
}

// Entry 64 * t + c: the digits of the same three levels, and that of the leaf which the tile there is.
pub fn search_end(i: u64) -> u64
    ensures { result ≡ search_end i }
{
    entry_of(&SEARCH_ENDS, i, 0) as u64
}
