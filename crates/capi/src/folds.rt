// Folding and unfolding for callers in C and Rust.
ghost use Rattle.std.specs.Prelude.{◌≡◌};
ghost use Rattle.triple.specs.Lent.{status_of, after_call, first_of, second_of};
ghost use Rattle.capi.specs.Calls.{folded_call, unfolded_call};

use crate::put::{lendable, put_count};

// The fewest whole cells that cover a list of positions: resolution and position of each, in curve
// order, to `pairs`, and how many cells they are to `count`.
pub fn hb_fold(
    orientation: u8,
    resolution: u8,
    positions: &[u64],
    pairs: &mut [u64],
    count: &mut [u64],
) -> u8
    ensures { (result ≡ status_of (first_of (folded_call orientation resolution positions.now) count.old) pairs.old) × (pairs.new ≡ after_call (first_of (folded_call orientation resolution positions.now) count.old) pairs.old) × (count.new ≡ after_call (second_of (folded_call orientation resolution positions.now) pairs.old) count.old) }
{
    let room = lendable(pairs.len(), count.len());
    let answer = fold::folding::fold(orientation, resolution, positions, &mut pairs[..room]);
    match answer {
        Ok(cells) => put_count(cells, count),
        Err(e) => e.number(),
    }
}

// The positions at a resolution that cells cover, ascending, to `positions`, and how many they are to
// `count`.
pub fn hb_unfold(
    orientation: u8,
    resolution: u8,
    pairs: &[u64],
    positions: &mut [u64],
    count: &mut [u64],
) -> u8
    ensures { (result ≡ status_of (first_of (unfolded_call orientation resolution pairs.now) count.old) positions.old) × (positions.new ≡ after_call (first_of (unfolded_call orientation resolution pairs.now) count.old) positions.old) × (count.new ≡ after_call (second_of (unfolded_call orientation resolution pairs.now) positions.old) count.old) }
{
    let room = lendable(positions.len(), count.len());
    let answer = fold::unfolding::unfold(orientation, resolution, pairs, &mut positions[..room]);
    match answer {
        Ok(covered) => put_count(covered, count),
        Err(e) => e.number(),
    }
}
