// Unfolding: the positions that cells cover, one after another.
ghost use Rattle.std.specs.Prelude.{◌≡◌, ◌++◌, ◌+◌, ◌^◌, ◌≤◌, length, drop};
ghost use Rattle.triple.specs.Refusals.{told, said};
ghost use Rattle.triple.specs.Lent.{Counted};
ghost use Rattle.fold.specs.Cells.{cells_in};
ghost use Rattle.fold.specs.Unfolds.{run, unfold_of, unfold_call};
ghost use Rattle.fold.specs.Inside.Pairs.{refusal_at};

use crate::pairs::{Cells, Fault};
use triple::domain::position_count;
use triple::orientation::GREATEST_ORIENTATION;
use triple::refusal::Refusal;

// Writes the positions that cells cover at the front of a buffer, ascending. A refused call leaves the
// buffer as it was.
pub fn unfold(
    orientation: u8,
    resolution: u8,
    pairs: &[u64],
    out: &mut [u64],
) -> Result<usize, Refusal>
    ensures { Counted (unfold_call orientation resolution pairs.now) out.old (said result) out.new }
{
    let cells = Cells::read(resolution, pairs).map_err(|fault| refusal_at(orientation, fault))?;
    if orientation > GREATEST_ORIENTATION {
        return Err(Refusal::Orientation);
    }
    cells.unfold(out)
}

// The orientation is tested behind the resolutions of the pairs, and before all else.
fn refusal_at(orientation: u8, fault: Fault) -> Refusal
    ensures { result ≡ refusal_at orientation fault }
{
    match fault {
        Fault::Position | Fault::Order if orientation > GREATEST_ORIENTATION =>
            Refusal::Orientation,
        _ => fault.into(),
    }
}

impl Cells<'_> {
    // What is left to test is the room.
    fn unfold(&self, out: &mut [u64]) -> Result<usize, Refusal>
        ensures { Counted (told (unfold_of self.now.resolution (cells_in self.now.pairs.now))) out.old (said result) out.new }
    {
        if (out.len() as u64) < self.count_positions() {
            return Err(Refusal::Room);
        }
        Ok(self.put_runs(out))
    }

    // How many positions they cover. Cells that are apart cover no more than there are, so no sum is too
    // large.
    pub fn count_positions(&self) -> u64
        ensures { result ≡ length (unfold_of self.now.resolution (cells_in self.now.pairs.now)) }
    {
        let (cells, _) = self.pairs.as_chunks::<2>();
        let mut n = 0;
        for [m, _] in cells {
            n += position_count(self.resolution - *m as u8);
        }
        n
    }

    fn put_runs(&self, out: &mut [u64]) -> usize
        requires { length (unfold_of self.now.resolution (cells_in self.now.pairs.now)) ≤ length out.old }
        ensures { (result ≡ length (unfold_of self.now.resolution (cells_in self.now.pairs.now))) × (out.new ≡ unfold_of self.now.resolution (cells_in self.now.pairs.now) ++ drop (length (unfold_of self.now.resolution (cells_in self.now.pairs.now))) out.old) }
    {
        let (cells, _) = self.pairs.as_chunks::<2>();
        let mut n = 0;
        for [m, p] in cells {
            let count = position_count(self.resolution - *m as u8);
            put_run(*p * count, count, &mut out[n..]);
            n += count as usize;
        }
        n
    }
}

fn put_run(first: u64, count: u64, out: &mut [u64])
    requires { (count ≤ length out.old) × (first + count ≤ 4 ^ 30) }
    ensures { out.new ≡ run first count ++ drop count out.old }
{
    for (d, s) in out[..count as usize].iter_mut().enumerate() {
        *s = first + d as u64;
    }
}
