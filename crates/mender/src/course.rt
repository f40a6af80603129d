// A list mended that is read from one file and written to another, piece by piece. What is mended of a piece is
// `walk`'s.
ghost use Rattle.std.specs.Prelude.{◌≡◌, ◌-◌, ◌≤◌, ◌<◌, ◌++◌, length, take, drop, IfOk};
ghost use Rattle.mend.specs.Mends.{longest_code};

use crate::changes::Changes;
use crate::failure::Failure;
use crate::walk::walk_piece;
use lines::write_all;
use std::io::{ErrorKind, Read, Write};

// All of the old list: a piece is read behind what is kept of the one before, mended, and written. A read that a
// signal cut short has read nothing, and the next turn reads again. No list is so long that it uses up the turns.
pub(crate) fn carry_over<R: Read, W: Write, P: Print>(
    from: &mut R,
    to: &mut W,
    rt: &P,
) -> Result<(), Failure<'static>> {
    let mut piece = [0u8; 65536];
    let mut out = [0u8; 65536];
    let mut changes = Changes::new(rt);
    let mut kept = 0;
    for _ in 0..u64::MAX {
        match from.read(&mut piece[kept..]) {
            Ok(n) => {
                kept = carried(to, &mut piece, kept + n, n == 0, &mut out, &mut changes)?;
                if n == 0 {
                    return printed(&mut changes);
                }
            }
            Err(e) if e.kind() == ErrorKind::Interrupted => {}
            Err(error) => return Err(Failure {
                what: "the old list",
                error,
            }),
        }
    }
    Err(Failure::of("the old list", ErrorKind::FileTooLarge))
}

// Writes what is mended of the first bytes of a piece, and brings the rest of them to its front; answers how many
// those are.
fn carried<W: Write, P: Print>(
    to: &mut W,
    piece: &mut [u8],
    end: usize,
    is_last: bool,
    out: &mut [u8],
    changes: &mut Changes<'_, P>,
) -> Result<usize, Failure<'static>>
    requires inside { end ≤ length piece.old }
    requires room { length piece.old ≤ length out.old }
    ensures { IfOk result (λ kept. kept < longest_code) }
{
    let walk = walk_piece(&piece[..end], is_last, out, changes);
    changes.pass(walk.taken).map_err(|error| Failure {
        what: "standard output",
        error,
    })?;
    write_all(to, &out[..walk.written]).map_err(|error| Failure {
        what: "the new list",
        error,
    })?;
    Ok(keep(piece, walk.taken, end))
}

// The lines that are still gathered.
fn printed<P: Print>(changes: &mut Changes<'_, P>) -> Result<(), Failure<'static>> {
    changes.print().map_err(|error| Failure {
        what: "standard output",
        error,
    })
}

// Brings what is left of a piece to its front, and answers how much that is.
fn keep(piece: &mut [u8], from: usize, end: usize) -> usize
    requires { (from ≤ end) × (end ≤ length piece.old) }
    ensures { (result ≡ end - from) × (piece.new ≡ take (end - from) (drop from piece.old) ++ drop (end - from) piece.old) }
{
    piece.copy_within(from..end, 0);
    end - from
}
