// From position to cell.
ghost use Rattle.std.specs.Prelude.{◌≡◌, ◌<◌, ◌≤◌, ◌+◌, ◌-◌, ◌^◌};
ghost use Rattle.strides.specs.Walks.{state_in};
ghost use Rattle.lsystem.specs.Cells.{cell_of};
ghost use Rattle.lsystem.specs.Inside.CellParts.{triple_by, cell_by};
ghost use Rattle.triple.specs.Refusals.{said};

use crate::axiom::Curve;
use crate::walk::walk_to;
use triple::Triple;
use triple::domain::{domain_of, position_count, row_count};
use triple::orientation::{place_from, recipe_of};
use triple::refusal::Refusal;

// A cell as a position names it.
#[derive(Clone, Copy)]
pub struct Cell {
    pub triple: Triple,
    pub flavor: u8,
}

// The triple whose spot begins (x, y), by its parity: the sum of its numbers.
fn triple_at(resolution: u8, x: u64, y: u64, parity: u8) -> Triple
    requires { (resolution ≤ 30) × ((x < 2 ^ 30) × ((y < 2 ^ 30) × (parity < 2))) }
    ensures { result ≡ triple_by (2 ^ resolution) x y parity }
{
    let column = (x + 1) as i64 - row_count(resolution);
    let up = parity as i64 - column - y as i64;
    Triple::new(column as i32, y as i32, up as i32)
}

// The cell at a place of an axiom's curve.
fn cell_at(curve: Curve, place: u64) -> Cell
    ensures { result ≡ cell_by (state_in (28 + curve.letter)) (curve.resolution - 1) place }
{
    let e = walk_to(curve, place);
    Cell {
        triple: triple_at(curve.resolution, e.x, e.y, e.flavor % 2),
        flavor: e.flavor,
    }
}

// The cell that the position s names.
pub fn s_to_cell(orientation: u8, resolution: u8, s: u64) -> Result<Cell, Refusal>
    ensures { said result ≡ cell_of orientation resolution s }
{
    domain_of(orientation, resolution)?;
    let cells = position_count(resolution);
    if s >= cells {
        return Err(Refusal::Position);
    }
    if resolution == 0 {
        return Ok(Cell {
            triple: Triple::new(0, 0, 0),
            flavor: 2,
        });
    }
    let recipe = recipe_of(orientation);
    let place = place_from(recipe.backward, cells, s);
    Ok(cell_at(Curve::of(orientation, resolution), place))
}
