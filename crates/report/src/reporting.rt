// A report: the positions of its triples, in order and each once, folded.
ghost use Rattle.std.specs.Prelude.{true, ◌||◌, ◌≡◌, ◌*◌, ◌/◌, ◌^◌, ◌≤◌, ltb, length, map};
ghost use Rattle.triple.specs.Refusals.{told, said};
ghost use Rattle.triple.specs.Triples.{good_sum, is_in_bounds};
ghost use Rattle.triple.specs.Lent.{valued, count_of, after_call};
ghost use Rattle.lsystem.specs.Cells.{position_of};
ghost use Rattle.fold.specs.Cells.{pairs};
ghost use Rattle.fold.specs.Folds.{all_below, fold_of};
ghost use Rattle.report.specs.Reports.{triples_in, every, place_in, places_of, in_order, settled, report_to, work_to};
ghost use Rattle.report.specs.Inside.Triples.{triple_of, Reported};

use crate::ordering::{distinct, order};
use fold::folding::fold;
use lsystem::lookup::triple_to_s;
use triple::Triple;
use triple::domain::domain_of;
use triple::refusal::Refusal;

// Writes the folded area of the triples at the front of a buffer. `work` has one number for each triple and
// the buffer two; afterwards the front of `work` has the positions of the triples, ascending and each
// once, and zeros behind them up to one for each triple. A refused call leaves both as they were: so the
// buffer is asked for all that it may take, since what it does take is known only when `work` is
// overwritten.
pub fn report(
    orientation: u8,
    resolution: u8,
    triples: &[i32],
    work: &mut [u64],
    out: &mut [u64],
) -> Result<usize, Refusal>
    ensures { (said result ≡ valued (λ n. n / 2) (count_of (report_to orientation resolution triples.now work.old out.old) out.old)) × (out.new ≡ after_call (report_to orientation resolution triples.now work.old out.old) out.old) × (work.new ≡ after_call (work_to orientation resolution triples.now work.old out.old) work.old) }
{
    domain_of(orientation, resolution)?;
    if !have_good_sums(triples) {
        return Err(Refusal::Sum);
    }
    if !are_in_bounds(resolution, triples) {
        return Err(Refusal::Bounds);
    }
    report_listed(orientation, resolution, triples, work, out)
}

// The same of triples that have passed their tests: what is left is that none is cut short, and the room.
// Stays five parameters: a struct of them would be built for two calls and be taken apart in both again.
fn report_listed(
    orientation: u8,
    resolution: u8,
    triples: &[i32],
    work: &mut [u64],
    out: &mut [u64],
) -> Result<usize, Refusal>
    requires { Reported orientation resolution triples.now }
    ensures { (said result ≡ valued (λ n. n / 2) (count_of (report_to orientation resolution triples.now work.old out.old) out.old)) × (out.new ≡ after_call (report_to orientation resolution triples.now work.old out.old) out.old) × (work.new ≡ after_call (work_to orientation resolution triples.now work.old out.old) work.old) }
{
    if triples.len() % 3 != 0 {
        return Err(Refusal::Order);
    }
    let n = triples.len() / 3;
    if is_too_short(n, work.len(), out.len()) {
        return Err(Refusal::Room);
    }
    report_tested(orientation, resolution, triples, &mut work[..n], out)
}

fn is_too_short(n: usize, work: usize, out: usize) -> bool
    ensures { result ≡ (ltb work n || ltb out (2 * n)) }
{
    work < n || out / 2 < n
}

// The same of a report that has passed its tests, with as much of `work` as it takes.
fn report_tested(
    orientation: u8,
    resolution: u8,
    triples: &[i32],
    work: &mut [u64],
    out: &mut [u64],
) -> Result<usize, Refusal>
    requires { Reported orientation resolution triples.now × (length work.old ≡ length (triples_in triples.now)) }
    ensures { (said result ≡ valued (λ n. n / 2) (count_of (told (pairs (fold_of resolution (places_of orientation resolution (triples_in triples.now))))) out.old)) × (out.new ≡ after_call (told (pairs (fold_of resolution (places_of orientation resolution (triples_in triples.now))))) out.old) × (work.new ≡ settled resolution (places_of orientation resolution (triples_in triples.now))) × (length (settled resolution (places_of orientation resolution (triples_in triples.now))) ≡ length (triples_in triples.now)) }
{
    gather(orientation, resolution, triples, work);
    let n = settle(resolution, work);
    fold(orientation, resolution, &work[..n], out)
}

// The triples, three numbers each: what is left at the end is no triple.
fn given(triples: &[i32]) -> &[[i32; 3]]
    ensures { map triple_of result.now ≡ triples_in triples.now }
{
    triples.as_chunks::<3>().0
}

fn triple_of(numbers: &[i32; 3]) -> Triple
    ensures { result ≡ triple_of numbers.now }
{
    Triple::new(numbers[0], numbers[1], numbers[2])
}

fn has_good_sum(t: Triple) -> bool
    ensures { result ≡ good_sum t }
{
    let parity = t.parity();
    match parity {
        Ok(_) => true,
        Err(_) => false,
    }
}

fn have_good_sums(triples: &[i32]) -> bool
    ensures { result ≡ every good_sum (triples_in triples.now) }
{
    given(triples).iter().all(|t| has_good_sum(triple_of(t)))
}

fn are_in_bounds(resolution: u8, triples: &[i32]) -> bool
    requires { resolution ≤ 30 }
    ensures { result ≡ every (is_in_bounds resolution) (triples_in triples.now) }
{
    given(triples)
        .iter()
        .all(|t| triple_of(t).in_bounds(resolution))
}

// The position of a triple; 0 where it has none.
fn place_of(orientation: u8, resolution: u8, t: Triple) -> u64
    ensures { result ≡ place_in (position_of orientation resolution t) }
{
    let answer = triple_to_s(orientation, resolution, t);
    match answer {
        Ok(l) => l.position.s,
        Err(_) => 0,
    }
}

fn gather(orientation: u8, resolution: u8, triples: &[i32], work: &mut [u64])
    requires { length work.old ≡ length (triples_in triples.now) }
    ensures { work.new ≡ places_of orientation resolution (triples_in triples.now) }
{
    for (k, t) in given(triples).iter().enumerate() {
        work[k] = place_of(orientation, resolution, triple_of(t));
    }
}

// Puts positions in order, each once and zeros behind them, and returns how many they are.
fn settle(resolution: u8, work: &mut [u64]) -> usize
    requires { (resolution ≤ 30) × (all_below (4 ^ resolution) work.old ≡ true) }
    ensures { (result ≡ length (in_order resolution work.old)) × (work.new ≡ settled resolution work.old) × (length (settled resolution work.old) ≡ length work.old) }
{
    order(work, 2 * resolution);
    let n = distinct(work);
    work[n..].fill(0);
    n
}
