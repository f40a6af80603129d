// Two areas into a third, folded.
ghost use Rattle.std.specs.Prelude.{cond, ◌≡◌, ◌/◌, ltb, leb, length};
ghost use Rattle.triple.specs.Refusals.{told, said};
ghost use Rattle.triple.specs.Lent.{valued, count_of, after_call};
ghost use Rattle.fold.specs.Cells.{pairs};
ghost use Rattle.area.specs.Areas.{made_of, made_call};
ghost use Rattle.area.specs.Inside.Rooms.{ample};
ghost use Rattle.area.specs.declared.operation.Operation.{Operation};

use crate::operation::Operation;
use crate::overlay::Overlay;
use triple::refusal::Refusal;

// Writes the folded area that covers what one of two covers, at the front of a buffer. A refused call
// leaves the buffer as it was.
// Stays three functions beside `combine`: docs/CONTRACTS.md names them and their theorems.
pub fn union(a: &[u64], b: &[u64], out: &mut [u64]) -> Result<usize, Refusal>
    ensures { (said result ≡ valued (λ n. n / 2) (count_of (made_call Operation.Union a.now b.now) out.old)) × (out.new ≡ after_call (made_call Operation.Union a.now b.now) out.old) }
{
    combine(Operation::Union, a, b, out)
}

// The same of what both cover.
pub fn intersection(a: &[u64], b: &[u64], out: &mut [u64]) -> Result<usize, Refusal>
    ensures { (said result ≡ valued (λ n. n / 2) (count_of (made_call Operation.Intersection a.now b.now) out.old)) × (out.new ≡ after_call (made_call Operation.Intersection a.now b.now) out.old) }
{
    combine(Operation::Intersection, a, b, out)
}

// The same of what the first covers and the second does not.
pub fn difference(a: &[u64], b: &[u64], out: &mut [u64]) -> Result<usize, Refusal>
    ensures { (said result ≡ valued (λ n. n / 2) (count_of (made_call Operation.Difference a.now b.now) out.old)) × (out.new ≡ after_call (made_call Operation.Difference a.now b.now) out.old) }
{
    combine(Operation::Difference, a, b, out)
}

// The same of an operation by its name.
pub fn combine(
    operation: Operation,
    a: &[u64],
    b: &[u64],
    out: &mut [u64],
) -> Result<usize, Refusal>
    ensures { (said result ≡ valued (λ n. n / 2) (count_of (made_call operation a.now b.now) out.old)) × (out.new ≡ after_call (made_call operation a.now b.now) out.old) }
{
    let overlay = Overlay::read(operation, a, b)?;
    overlay.combine(out)
}

impl Overlay<'_> {
    // What is left to test is the room.
    fn combine(&self, out: &mut [u64]) -> Result<usize, Refusal>
        ensures { (said result ≡ valued (λ n. n / 2) (count_of (told (pairs (made_of self.now.operation self.now.a.now self.now.b.now))) out.old)) × (out.new ≡ after_call (told (pairs (made_of self.now.operation self.now.a.now self.now.b.now))) out.old) }
    {
        if !self.has_room(out.len() / 2) {
            return Err(Refusal::Room);
        }
        Ok(self.walk(true, out))
    }

    // Whether there is room for as many pairs as the operation makes. Where there is for any two areas so
    // long, they are not counted.
    fn has_room(&self, room: usize) -> bool
        ensures { result ≡ leb (length (made_of self.now.operation self.now.a.now self.now.b.now)) room }
    {
        is_ample(self.operation, self.a.len() / 2, self.b.len() / 2, room)
            || self.count_cells() <= room
    }

    // How many cells the operation makes of the two areas.
    pub(crate) fn count_cells(&self) -> usize
        ensures { result ≡ length (made_of self.now.operation self.now.a.now self.now.b.now) }
    {
        self.walk(false, &mut [])
    }
}

// Whether a room is enough for what an operation makes of any two areas of so many cells. A difference can
// have more cells than both together; the others have no more.
fn is_ample(operation: Operation, a: usize, b: usize, room: usize) -> bool
    ensures { result ≡ ample operation a b room }
{
    match operation {
        Operation::Union | Operation::Intersection => a <= room && b <= room - a,
        Operation::Difference => false,
    }
}
