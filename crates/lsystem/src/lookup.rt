// From cell to position: the digits on the way to a cell's spot are searched from tile to tile.
ghost use Rattle.std.specs.Prelude.{◌≡◌, true, ◌<◌, ◌≤◌, ◌-◌, ◌^◌};
ghost use Rattle.triple.specs.Refusals.{told, said};
ghost use Rattle.triple.specs.Triples.{is_in_bounds, closed_flavor};
ghost use Rattle.a5.specs.Inside.Spots.{spot, spot_at};
ghost use Rattle.lsystem.specs.Cells.{seek};
ghost use Rattle.lsystem.specs.Looks.{with_looks, located_of};

use crate::axiom::Curve;
use crate::search::{Spot, search};
use crate::{Located, Position};
use triple::Triple;
use triple::domain::{domain_of, position_count, row_count};
use triple::orientation::{place_from, recipe_of};
use triple::refusal::Refusal;

fn spot_of(resolution: u8, t: Triple) -> Spot
    requires { (0 < resolution) × ((resolution ≤ 30) × (is_in_bounds resolution t ≡ true)) }
    ensures { spot result.x result.y result.g ≡ spot_at (resolution - 1) t }
{
    let x = row_count(resolution) - 1 + t.x as i64;
    let g = -(t.z as i64);
    Spot {
        x: x as u64,
        y: t.y as u64,
        g: g as u64,
    }
}

// The position of a triple in bounds, whose flavor is known. The looks are not taken: from the place on the axiom's
// curve, how many they would be is a remainder away.
fn looked_up(orientation: u8, resolution: u8, t: Triple, flavor: u8) -> Located
    requires { (orientation ≤ 5) × ((0 < resolution) × ((resolution ≤ 30) × ((is_in_bounds resolution t ≡ true) × (flavor ≡ closed_flavor resolution t)))) }
    ensures { told result ≡ with_looks orientation resolution t (seek orientation resolution t (4 ^ resolution) 0) }
{
    let place = search(Curve::of(orientation, resolution), spot_of(resolution, t));
    let recipe = recipe_of(orientation);
    let s = place_from(recipe.backward, position_count(resolution), place);
    Located {
        picks: resolution - 1,
        position: Position { s, flavor },
        comparisons: (place % 4) as u8 + 1,
    }
}

// The position of a triple, and the looks of its lookup. The one cell of resolution 0 is on no tile, and takes none.
pub fn triple_to_s(orientation: u8, resolution: u8, t: Triple) -> Result<Located, Refusal>
    ensures { said result ≡ located_of orientation resolution t }
{
    domain_of(orientation, resolution)?;
    let flavor = t.flavor(resolution)?;
    if resolution > 0 {
        return Ok(looked_up(orientation, resolution, t, flavor));
    }
    Ok(Located {
        picks: 0,
        position: Position { s: 0, flavor },
        comparisons: 0,
    })
}
