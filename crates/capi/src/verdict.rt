// How the verdict on a treated list is laid out in a lent slice, as in `put`.
ghost use Rattle.std.specs.Prelude.{◌≡◌};
ghost use Rattle.triple.specs.Refusals.{told};
ghost use Rattle.triple.specs.Lent.{status_of, after_call};
ghost use Rattle.capi.specs.Verdicts.{verdict_numbers, fault_number};

use treated::Fault;
use triple::refusal::Refusal;

// fault number
pub(crate) fn put_verdict(fault: u64, number: usize, out: &mut [u64]) -> u8
    ensures { (result ≡ status_of (told (verdict_numbers fault number)) out.old) × (out.new ≡ after_call (told (verdict_numbers fault number)) out.old) }
{
    if out.len() < 2 {
        return Refusal::Room.number();
    }
    out[0] = fault;
    out[1] = number as u64;
    0
}

pub(crate) fn fault_number(fault: Fault) -> u64
    ensures { result ≡ fault_number fault }
{
    match fault {
        Fault::Unsound => 1,
        Fault::Marked => 2,
        Fault::Orientation => 3,
        Fault::Overlap => 4,
    }
}
