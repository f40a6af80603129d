// Query lines for callers in C and Rust.
ghost use Rattle.std.specs.Prelude.{◌≡◌};
ghost use Rattle.triple.specs.Lent.{status_of, after_call, first_of, second_of};
ghost use Rattle.capi.specs.Calls.{line_call};

// The answer to a query line as the program prints it, without LF, to `text`, and its length to `out`.
// A line that is refused has an answer too, `!` and the number.
#[unsafe(no_mangle)]
pub extern "C" fn hb_line(line: &[u8], text: &mut [u8], out: &mut [u64]) -> u8
    ensures { (result ≡ status_of (first_of (line_call line.now) out.old) text.old) × (text.new ≡ after_call (first_of (line_call line.now) out.old) text.old) × (out.new ≡ after_call (second_of (line_call line.now) text.old) out.old) }
{
    capi::queries::hb_line(line, text, out)
}
