// The six orientations of the curve: which corner of the wedge it starts at and which it ends at, as WV
// starts at w and ends at v. By their numbers they are 0 UV, 1 VU, 2 UW, 3 WU, 4 VW and 5 WV.
ghost use Rattle.std.specs.Prelude.{◌≡◌, ◌-◌};
ghost use Rattle.triple.specs.Orientations.{recipe_of, place_from};

pub const GREATEST_ORIENTATION: u8 = 5;

// How an orientation's curve is drawn: its axiom's motif (A 0, B 1, C 2), whether it is walked from its
// other end, and whether its triples are moved.
#[derive(Clone, Copy)]
pub struct Recipe {
    pub motif: u64,
    pub backward: bool,
    pub shifted: bool,
}

// Read off words and not by arms: where orientations are mixed, a branch by them costs as much as a short
// descent. Past the last orientation it is what the definitions' last cases have.
pub fn recipe_of(orientation: u8) -> Recipe
    ensures { result ≡ recipe_of orientation }
{
    if orientation > GREATEST_ORIENTATION {
        return Recipe {
            motif: 1,
            backward: false,
            shifted: false,
        };
    }
    let o = orientation as u64;
    Recipe {
        motif: (0b010110100000u64 >> (2 * o)) % 4,
        backward: (0b011010u64 >> o) % 2 == 1,
        shifted: orientation > 3,
    }
}

// A place of `count`, or the place as far from the other end. From past the end that is the first. Both are worked
// out and one is taken: where orientations are mixed, a branch by them costs as much as a short descent.
pub fn place_from(backward: bool, count: u64, place: u64) -> u64
    ensures { result ≡ place_from backward count place }
{
    let turned = from_end(count, place);
    if backward { turned } else { place }
}

fn from_end(count: u64, place: u64) -> u64
    ensures { result ≡ count - 1 - place }
{
    if place >= count {
        return 0;
    }
    count - 1 - place
}
