// Query lines for callers in C and Rust.
ghost use Rattle.std.specs.Prelude.{◌≡◌};
ghost use Rattle.triple.specs.Lent.{status_of, after_call, first_of, second_of};
ghost use Rattle.capi.specs.Calls.{line_call};

use crate::put::{lendable, put_count};

// The answer to a query line as the program prints it, without LF, to `text`, and its length to `out`.
// A line that is refused has an answer too, `!` and the number.
pub fn hb_line(line: &[u8], text: &mut [u8], out: &mut [u64]) -> u8
    ensures { (result ≡ status_of (first_of (line_call line.now) out.old) text.old) × (text.new ≡ after_call (first_of (line_call line.now) out.old) text.old) × (out.new ≡ after_call (second_of (line_call line.now) text.old) out.old) }
{
    let room = lendable(text.len(), out.len());
    let answer = query::answer::answer_line(line, &mut text[..room]);
    match answer {
        Ok(count) => put_count(count, out),
        Err(e) => e.number(),
    }
}
