// The domain: resolutions 0 to 30 and orientations 0 to 5. At resolution r there are 2^r rows and 4^r
// positions; at a resolution that there is not, none.
ghost use Rattle.std.specs.Prelude.{◌≡◌, pos};
ghost use Rattle.triple.specs.Domain.{domain_of, row_count, position_count};
ghost use Rattle.triple.specs.Refusals.{said};

use crate::Triple;
use crate::orientation::GREATEST_ORIENTATION;
use crate::refusal::Refusal;

// The two tests that come first in every operation on an orientation and a resolution.
pub fn domain_of(orientation: u8, resolution: u8) -> Result<(), Refusal>
    ensures { said result ≡ domain_of orientation resolution }
{
    if resolution > Triple::GREATEST_RESOLUTION {
        return Err(Refusal::Resolution);
    }
    if orientation > GREATEST_ORIENTATION {
        return Err(Refusal::Orientation);
    }
    Ok(())
}

pub fn row_count(resolution: u8) -> i64
    ensures { result ≡ pos (row_count resolution) }
{
    if resolution > Triple::GREATEST_RESOLUTION {
        return 0;
    }
    (1u64 << resolution) as i64
}

pub fn position_count(resolution: u8) -> u64
    ensures { result ≡ position_count resolution }
{
    if resolution > Triple::GREATEST_RESOLUTION {
        return 0;
    }
    1u64 << (2 * resolution)
}
