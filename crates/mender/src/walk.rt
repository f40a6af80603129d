// How far a list is mended that comes piece by piece: of each code at least nine bytes are seen, or all that is left,
// so that what is written is what the whole list gives in one.
ghost use Rattle.std.specs.Prelude.{◌≡◌, ◌≤◌, length};
ghost use Rattle.triple.specs.Refusals.{told, said};
ghost use Rattle.triple.specs.Lent.{after_call};
ghost use Rattle.mend.specs.Mends.{piece_of};
ghost use Rattle.mender.specs.Carries.{Carried};
ghost use Rattle.mender.specs.Inside.Steps.{limit_of, Given, whole_step};

use crate::changes::Changes;
use mend::{Change, Stepped};
use triple::refusal::Refusal;

// Up to where a piece of so many bytes is mended: no code has more than nine, and the last piece has no more to come.
fn limit_of(size: usize, is_last: bool) -> usize
    ensures { result ≡ limit_of is_last size }
{
    if is_last {
        return size;
    }
    size.saturating_sub(8)
}

// What a step answered. With room for it, it is never refused.
fn stepped(answer: Result<Stepped, Refusal>) -> Stepped
    ensures { Given (said answer) result }
{
    match answer {
        Ok(x) => x,
        Err(_) => Stepped {
            taken: 0,
            written: 0,
            change: Change::Kept,
        },
    }
}

// A step where there is room for it.
fn step(rest: &[u8], out: &mut [u8]) -> Stepped
    requires { length (piece_of rest.now).bytes ≤ length out.old }
    ensures { (result ≡ whole_step rest.now) × (out.new ≡ after_call (told (piece_of rest.now).bytes) out.old) }
{
    let answer = mend::step(rest, out);
    stepped(answer)
}

// How much of a piece was taken, and how much was written for it.
#[derive(Clone, Copy)]
pub struct Walk {
    pub taken: usize,
    pub written: usize,
}

// Mends a piece up to its limit, and tells the changes.
#[tactic(auto, using(crate::proofs::CarryLaws::carrying))]
pub fn walk_piece<P: Print>(
    piece: &[u8],
    is_last: bool,
    out: &mut [u8],
    changes: &mut Changes<'_, P>,
) -> Walk
    requires { length piece.now ≤ length out.old }
    ensures { Carried piece.now out.new is_last result }
{
    let limit = limit_of(piece.len(), is_last);
    let mut at = 0;
    let mut written = 0;
    // Stays a while loop: the place goes on by what each code takes, which no iterator says plainer.
    while at < limit {
        let x = step(&piece[at..], &mut out[written..]);
        changes.tell(at, x.change);
        at += x.taken;
        written += x.written;
    }
    Walk { taken: at, written }
}
