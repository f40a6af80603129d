// Position codes for callers in C and Rust, lists of them mended, and treated lists checked.
ghost use Rattle.std.specs.Prelude.{◌≡◌};
ghost use Rattle.triple.specs.Lent.{status_of, after_call, first_of, second_of};
ghost use Rattle.capi.specs.Calls.{read_call, write_call, mend_both, mend_step_both};
ghost use Rattle.capi.specs.Verdicts.{check_call};

use crate::put::{lendable, put_count, put_reading, put_stepped, put_tally};
use crate::verdict::{fault_number, put_verdict};
use treated::CheckError;
use triple::refusal::Refusal;

// Writes a position's code to `bytes`, and the count of its bytes to `out`.
pub fn hb_code_write(
    orientation: u8,
    resolution: u8,
    s: u64,
    bytes: &mut [u8],
    out: &mut [u64],
) -> u8
    ensures { (result ≡ status_of (first_of (write_call orientation resolution s) out.old) bytes.old) × (bytes.new ≡ after_call (first_of (write_call orientation resolution s) out.old) bytes.old) × (out.new ≡ after_call (second_of (write_call orientation resolution s) bytes.old) out.old) }
{
    let room = lendable(bytes.len(), out.len());
    let answer = code::write(orientation, resolution, s, &mut bytes[..room]);
    match answer {
        Ok(count) => put_count(count, out),
        Err(e) => e.number(),
    }
}

// Reads the code at the front of some bytes: orientation resolution s count old.
pub fn hb_code_read(bytes: &[u8], out: &mut [u64]) -> u8
    ensures { (result ≡ status_of (read_call bytes.now) out.old) × (out.new ≡ after_call (read_call bytes.now) out.old) }
{
    let answer = code::read(bytes);
    match answer {
        Ok(r) => put_reading(r, out),
        Err(e) => e.number(),
    }
}

// Mends a list of codes to `out`, which is as long as the list, and puts the length of the mended list and
// the number of changes to `counts`.
pub fn hb_mend(list: &[u8], out: &mut [u8], counts: &mut [u64]) -> u8
    ensures { (result ≡ status_of (first_of (mend_both list.now out.old) counts.old) out.old) × (out.new ≡ after_call (first_of (mend_both list.now out.old) counts.old) out.old) × (counts.new ≡ after_call (second_of (mend_both list.now out.old) out.old) counts.old) }
{
    if counts.len() < 2 {
        return Refusal::Room.number();
    }
    let answer = mend::mend(list, out);
    match answer {
        Ok(t) => put_tally(t, counts),
        Err(e) => e.number(),
    }
}

// The first step of mending what is left of a list: what it writes to `out`, and to `counts` how many
// bytes it takes, how many it writes and the change's number.
pub fn hb_mend_step(rest: &[u8], out: &mut [u8], counts: &mut [u64]) -> u8
    ensures { (result ≡ status_of (first_of (mend_step_both rest.now) counts.old) out.old) × (out.new ≡ after_call (first_of (mend_step_both rest.now) counts.old) out.old) × (counts.new ≡ after_call (second_of (mend_step_both rest.now) out.old) counts.old) }
{
    if counts.len() < 3 {
        return Refusal::Room.number();
    }
    let answer = mend::step(rest, out);
    match answer {
        Ok(x) => put_stepped(x, counts),
        Err(e) => e.number(),
    }
}

// Checks a partner's treated list: fault number. The fault is 0 where the list is good, and the number
// how many codes it has; else the number is that of the first code at fault.
pub fn hb_check(list: &[u8], out: &mut [u64]) -> u8
    ensures { (result ≡ status_of (check_call list.now) out.old) × (out.new ≡ after_call (check_call list.now) out.old) }
{
    let answer = treated::check(list);
    match answer {
        Ok(n) => put_verdict(0, n, out),
        Err(e) => match e {
            CheckError::Faulty(f, n) => put_verdict(fault_number(f), n, out),
            CheckError::Refused(e) => e.number(),
        },
    }
}
