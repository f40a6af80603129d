// Areas for callers in C and Rust: pairs of resolution and position in curve order, any slice of which may
// be handed in.
ghost use Rattle.std.specs.Prelude.{◌≡◌};
ghost use Rattle.triple.specs.Refusals.{told};
ghost use Rattle.triple.specs.Lent.{status_of, after_call, first_of, second_of};
ghost use Rattle.area.specs.declared.operation.Operation.{Operation};
ghost use Rattle.capi.specs.AreaCalls.{combined_call, flag_values, area_contains_call, area_size_call, reported_call, reported_work};

use crate::put::{lendable, put_count};
use area::operation::Operation;

// What an operation makes of two areas: the pairs to `pairs`, and how many cells they are to `count`.
// Stays written out, as all of these functions: the C interface has one for each operation, with its own values and slices.
fn combined(operation: Operation, a: &[u64], b: &[u64], pairs: &mut [u64], count: &mut [u64]) -> u8
    ensures { (result ≡ status_of (first_of (combined_call operation a.now b.now) count.old) pairs.old) × (pairs.new ≡ after_call (first_of (combined_call operation a.now b.now) count.old) pairs.old) × (count.new ≡ after_call (second_of (combined_call operation a.now b.now) pairs.old) count.old) }
{
    let room = lendable(pairs.len(), count.len());
    let answer = area::combining::combine(operation, a, b, &mut pairs[..room]);
    match answer {
        Ok(cells) => put_count(cells, count),
        Err(e) => e.number(),
    }
}

// The area that covers what one of two covers, folded.
pub fn hb_area_union(a: &[u64], b: &[u64], pairs: &mut [u64], count: &mut [u64]) -> u8
    ensures { (result ≡ status_of (first_of (combined_call Operation.Union a.now b.now) count.old) pairs.old) × (pairs.new ≡ after_call (first_of (combined_call Operation.Union a.now b.now) count.old) pairs.old) × (count.new ≡ after_call (second_of (combined_call Operation.Union a.now b.now) pairs.old) count.old) }
{
    combined(Operation::Union, a, b, pairs, count)
}

// The area that covers what both of two cover, folded.
pub fn hb_area_intersection(a: &[u64], b: &[u64], pairs: &mut [u64], count: &mut [u64]) -> u8
    ensures { (result ≡ status_of (first_of (combined_call Operation.Intersection a.now b.now) count.old) pairs.old) × (pairs.new ≡ after_call (first_of (combined_call Operation.Intersection a.now b.now) count.old) pairs.old) × (count.new ≡ after_call (second_of (combined_call Operation.Intersection a.now b.now) pairs.old) count.old) }
{
    combined(Operation::Intersection, a, b, pairs, count)
}

// The area that covers what the first of two covers and the second does not, folded.
pub fn hb_area_difference(a: &[u64], b: &[u64], pairs: &mut [u64], count: &mut [u64]) -> u8
    ensures { (result ≡ status_of (first_of (combined_call Operation.Difference a.now b.now) count.old) pairs.old) × (pairs.new ≡ after_call (first_of (combined_call Operation.Difference a.now b.now) count.old) pairs.old) × (count.new ≡ after_call (second_of (combined_call Operation.Difference a.now b.now) pairs.old) count.old) }
{
    combined(Operation::Difference, a, b, pairs, count)
}

// 0 or 1
fn put_flag(b: bool, out: &mut [u64]) -> u8
    ensures { (result ≡ status_of (told (flag_values b)) out.old) × (out.new ≡ after_call (told (flag_values b)) out.old) }
{
    if b {
        return put_count(1, out);
    }
    put_count(0, out)
}

// Whether an area covers all of a cell: 0 or 1.
pub fn hb_area_contains(a: &[u64], resolution: u8, s: u64, out: &mut [u64]) -> u8
    ensures { (result ≡ status_of (area_contains_call a.now resolution s) out.old) × (out.new ≡ after_call (area_contains_call a.now resolution s) out.old) }
{
    let answer = area::questions::contains(a, resolution, s);
    match answer {
        Ok(inside) => put_flag(inside, out),
        Err(e) => e.number(),
    }
}

// How many cells of a resolution an area covers.
pub fn hb_area_size(a: &[u64], resolution: u8, out: &mut [u64]) -> u8
    ensures { (result ≡ status_of (area_size_call a.now resolution) out.old) × (out.new ≡ after_call (area_size_call a.now resolution) out.old) }
{
    let answer = area::questions::size(a, resolution);
    match answer {
        Ok(cells) => put_count(cells as usize, out),
        Err(e) => e.number(),
    }
}

// The area that a module reports by triples, in any order and repeated or not, folded: its pairs, and how
// many cells they are to `count`. `work` has one number for each triple.
pub fn hb_area_report(
    orientation: u8,
    resolution: u8,
    triples: &[i32],
    work: &mut [u64],
    pairs: &mut [u64],
    count: &mut [u64],
) -> u8
    ensures { (result ≡ status_of (first_of (reported_call orientation resolution triples.now work.old pairs.old) count.old) pairs.old) × (pairs.new ≡ after_call (first_of (reported_call orientation resolution triples.now work.old pairs.old) count.old) pairs.old) × (count.new ≡ after_call (second_of (reported_call orientation resolution triples.now work.old pairs.old) pairs.old) count.old) × (work.new ≡ after_call (reported_work orientation resolution triples.now work.old pairs.old count.old) work.old) }
{
    let room = lendable(pairs.len(), count.len());
    let answer = report::reporting::report(
        orientation,
        resolution,
        triples,
        work,
        &mut pairs[..room],
    );
    match answer {
        Ok(cells) => put_count(cells, count),
        Err(e) => e.number(),
    }
}
