// Folding: from each entry on the largest cell that begins with it and is whole.
//
// Because the list is strictly ascending, the 4^k positions from s on are all there exactly when the
// entry 4^k - 1 places further is s + 4^k - 1. So that cell is found by one look for each resolution,
// and its positions are passed over at once.
ghost use Rattle.std.specs.Prelude.{◌≡◌, ◌++◌, ◌*◌, ◌/◌, ◌^◌, ◌<◌, ◌≤◌, leb, length, get_or, drop};
ghost use Rattle.triple.specs.Refusals.{told, said};
ghost use Rattle.triple.specs.Lent.{valued, count_of, after_call};
ghost use Rattle.fold.specs.Cells.{pairs};
ghost use Rattle.fold.specs.Folds.{all_below, ascending, fold_of, fold_call};
ghost use Rattle.fold.specs.Inside.Blocks.{Listed, block_at, Level};

use triple::domain::{domain_of, position_count};
use triple::refusal::Refusal;

// Writes the fold of a list at the front of a buffer, as pairs of resolution and position in curve
// order. A refused call leaves the buffer as it was.
pub fn fold(
    orientation: u8,
    resolution: u8,
    positions: &[u64],
    out: &mut [u64],
) -> Result<usize, Refusal>
    ensures { (said result ≡ valued (λ n. n / 2) (count_of (fold_call orientation resolution positions.now) out.old)) × (out.new ≡ after_call (fold_call orientation resolution positions.now) out.old) }
{
    domain_of(orientation, resolution)?;
    let ordered = is_ascending(positions);
    if !all_inside(ordered, position_count(resolution), positions) {
        return Err(Refusal::Position);
    }
    if !ordered {
        return Err(Refusal::Order);
    }
    Listing {
        resolution,
        positions,
    }
    .fold(out)
}

fn all_below(limit: u64, positions: &[u64]) -> bool
    ensures { result ≡ all_below limit positions.now }
{
    positions.iter().all(|s| *s < limit)
}

fn is_ascending(positions: &[u64]) -> bool
    ensures { result ≡ ascending positions.now }
{
    positions.is_sorted_by(|s, t| s < t)
}

// Whether all are below a limit, of a list of which it is known whether it ascends: where it does, its
// last entry tells.
fn all_inside(ordered: bool, limit: u64, positions: &[u64]) -> bool
    requires { ordered ≡ ascending positions.now }
    ensures { result ≡ all_below limit positions.now }
{
    if !ordered {
        return all_below(limit, positions);
    }
    match positions.last() {
        Some(last) => *last < limit,
        None => true,
    }
}

// Whether the positions of a cell stand from an entry on; it is k resolutions above them, and begins where
// a cell so large does.
fn is_block(positions: &[u64], i: usize, k: u8) -> bool
    requires { (i < length positions.now) × (k ≤ 30) × (get_or positions.now i 0 < 2 ^ 60) }
    ensures { result ≡ block_at positions.now i k }
{
    let further = position_count(k) - 1;
    let s = positions[i];
    let behind = s & further;
    behind == 0
        && positions.len() - i > further as usize
        && positions[i + further as usize] == s + further
}

// A list that has passed its tests: positions of a resolution, ascending.
#[derive(Clone, Copy)]
struct Listing<'a> {
    resolution: u8,
    positions: &'a [u64],
    ghost listed: { Listed resolution positions.now },
}

impl Listing<'_> {
    // What is left to test is the room.
    fn fold(&self, out: &mut [u64]) -> Result<usize, Refusal>
        ensures { (said result ≡ valued (λ n. n / 2) (count_of (told (pairs (fold_of self.now.resolution self.now.positions.now))) out.old)) × (out.new ≡ after_call (told (pairs (fold_of self.now.resolution self.now.positions.now))) out.old) }
    {
        if !self.has_room(out.len() / 2) {
            return Err(Refusal::Room);
        }
        Ok(self.put(out))
    }

    // How far above the positions the largest cell stands whose positions stand from an entry on.
    fn level(&self, i: usize) -> u8
        requires { i < length self.now.positions.now }
        ensures { Level self.now.resolution self.now.positions.now i result }
    {
        for k in 0..self.resolution {
            if !is_block(self.positions, i, k + 1) {
                return k;
            }
        }
        self.resolution
    }

    // Stays apart from `put`, which goes the same way: with a closure that stores a pair or none, a proof does not
    // know what the buffer holds afterwards.
    fn count_cells(&self) -> usize
        ensures { result ≡ length (fold_of self.now.resolution self.now.positions.now) }
    {
        let mut n = 0;
        let mut i = 0;
        // Stays a while loop: the index goes on by as many entries as a cell covers, which no iterator says plainer.
        while i < self.positions.len() {
            i += position_count(self.level(i)) as usize;
            n += 1;
        }
        n
    }

    // A fold has no more cells than its list has entries, so a buffer that has room for so many needs no
    // count beforehand.
    fn has_room(&self, room: usize) -> bool
        ensures { result ≡ leb (length (fold_of self.now.resolution self.now.positions.now)) room }
    {
        self.positions.len() <= room || self.count_cells() <= room
    }

    fn put(&self, out: &mut [u64]) -> usize
        requires { 2 * length (fold_of self.now.resolution self.now.positions.now) ≤ length out.old }
        ensures { (result ≡ length (fold_of self.now.resolution self.now.positions.now)) × (out.new ≡ pairs (fold_of self.now.resolution self.now.positions.now) ++ drop (2 * length (fold_of self.now.resolution self.now.positions.now)) out.old) }
    {
        let mut n = 0;
        let mut i = 0;
        // Stays a while loop: the index goes on by as many entries as a cell covers, which no iterator says plainer.
        while i < self.positions.len() {
            let k = self.level(i);
            out[2 * n] = (self.resolution - k) as u64;
            out[2 * n + 1] = self.positions[i] >> (2 * k);
            i += position_count(k) as usize;
            n += 1;
        }
        n
    }
}
