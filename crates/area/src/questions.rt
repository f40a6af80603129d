// Two questions of one area: how much it covers, and whether it covers a cell.
ghost use Rattle.std.specs.Prelude.{◌≡◌};
ghost use Rattle.area.specs.Areas.{size_call, contains_call};
ghost use Rattle.triple.specs.Refusals.{said};

use crate::operation::Operation;
use crate::overlay::Overlay;
use fold::pairs::Cells;
use triple::refusal::Refusal;

// How many cells of a resolution an area covers. None of its own may be finer.
pub fn size(a: &[u64], resolution: u8) -> Result<u64, Refusal>
    ensures { said result ≡ size_call a.now resolution }
{
    let cells = Cells::read(resolution, a)?;
    Ok(cells.count_positions())
}

// Whether an area covers all of a cell: nothing of the cell is left without the area.
pub fn contains(a: &[u64], resolution: u8, s: u64) -> Result<bool, Refusal>
    ensures { said result ≡ contains_call a.now resolution s }
{
    let cell = [resolution as u64, s];
    let overlay = Overlay::read(Operation::Difference, &cell, a)?;
    Ok(overlay.count_cells() == 0)
}
