// Areas for callers in C and Rust: pairs of resolution and position in curve order, any slice of which may
// be handed in.
ghost use Rattle.std.specs.Prelude.{◌≡◌};
ghost use Rattle.triple.specs.Refusals.{told};
ghost use Rattle.triple.specs.Lent.{status_of, after_call, first_of, second_of};
ghost use Rattle.area.specs.declared.operation.Operation.{Operation};
ghost use Rattle.capi.specs.AreaCalls.{combined_call, flag_values, area_contains_call, area_size_call, reported_call, reported_work};

// The area that covers what one of two covers, folded.
#[unsafe(no_mangle)]
pub extern "C" fn hb_area_union(a: &[u64], b: &[u64], pairs: &mut [u64], count: &mut [u64]) -> u8
    ensures { (result ≡ status_of (first_of (combined_call Operation.Union a.now b.now) count.old) pairs.old) × (pairs.new ≡ after_call (first_of (combined_call Operation.Union a.now b.now) count.old) pairs.old) × (count.new ≡ after_call (second_of (combined_call Operation.Union a.now b.now) pairs.old) count.old) }
{
    capi::areas::hb_area_union(a, b, pairs, count)
}

// The area that covers what both of two cover, folded.
#[unsafe(no_mangle)]
pub extern "C" fn hb_area_intersection(
    a: &[u64],
    b: &[u64],
    pairs: &mut [u64],
    count: &mut [u64],
) -> u8
    ensures { (result ≡ status_of (first_of (combined_call Operation.Intersection a.now b.now) count.old) pairs.old) × (pairs.new ≡ after_call (first_of (combined_call Operation.Intersection a.now b.now) count.old) pairs.old) × (count.new ≡ after_call (second_of (combined_call Operation.Intersection a.now b.now) pairs.old) count.old) }
{
    capi::areas::hb_area_intersection(a, b, pairs, count)
}

// The area that covers what the first of two covers and the second does not, folded.
#[unsafe(no_mangle)]
pub extern "C" fn hb_area_difference(
    a: &[u64],
    b: &[u64],
    pairs: &mut [u64],
    count: &mut [u64],
) -> u8
    ensures { (result ≡ status_of (first_of (combined_call Operation.Difference a.now b.now) count.old) pairs.old) × (pairs.new ≡ after_call (first_of (combined_call Operation.Difference a.now b.now) count.old) pairs.old) × (count.new ≡ after_call (second_of (combined_call Operation.Difference a.now b.now) pairs.old) count.old) }
{
    capi::areas::hb_area_difference(a, b, pairs, count)
}

// Whether an area covers all of a cell: 0 or 1.
#[unsafe(no_mangle)]
pub extern "C" fn hb_area_contains(a: &[u64], resolution: u8, s: u64, out: &mut [u64]) -> u8
    ensures { (result ≡ status_of (area_contains_call a.now resolution s) out.old) × (out.new ≡ after_call (area_contains_call a.now resolution s) out.old) }
{
    capi::areas::hb_area_contains(a, resolution, s, out)
}

// How many cells of a resolution an area covers.
#[unsafe(no_mangle)]
pub extern "C" fn hb_area_size(a: &[u64], resolution: u8, out: &mut [u64]) -> u8
    ensures { (result ≡ status_of (area_size_call a.now resolution) out.old) × (out.new ≡ after_call (area_size_call a.now resolution) out.old) }
{
    capi::areas::hb_area_size(a, resolution, out)
}

// The area that a module reports by triples, in any order and repeated or not, folded: its pairs, and how
// many cells they are to `count`. `work` has one number for each triple.
#[unsafe(no_mangle)]
pub extern "C" fn hb_area_report(
    orientation: u8,
    resolution: u8,
    triples: &[i32],
    work: &mut [u64],
    pairs: &mut [u64],
    count: &mut [u64],
) -> u8
    ensures { (result ≡ status_of (first_of (reported_call orientation resolution triples.now work.old pairs.old) count.old) pairs.old) × (pairs.new ≡ after_call (first_of (reported_call orientation resolution triples.now work.old pairs.old) count.old) pairs.old) × (count.new ≡ after_call (second_of (reported_call orientation resolution triples.now work.old pairs.old) pairs.old) count.old) × (work.new ≡ after_call (reported_work orientation resolution triples.now work.old pairs.old count.old) work.old) }
{
    capi::areas::hb_area_report(orientation, resolution, triples, work, pairs, count)
}
