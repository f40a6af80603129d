// What the walk and the search are asked for: an axiom's curve, and which entries of a row are looked up.
ghost use Rattle.std.specs.Prelude.{◌≡◌, ◌<◌, ◌≤◌, ◌/◌, ◌%◌};

// The curve of an axiom, A, C or B by the number of its letter among them, at a resolution above 0.
#[derive(Clone, Copy)]
pub(crate) struct Curve {
    pub letter: u64,
    pub resolution: u8,
    ghost one_of_three: { letter < 3 },
    ghost some: { 0 < resolution },
    ghost most: { resolution ≤ 30 },
}

impl Curve {
    // That of an orientation's axiom.
    pub(crate) fn of(orientation: u8, resolution: u8) -> Self
        requires { (orientation ≤ 5) × ((0 < resolution) × (resolution ≤ 30)) }
        ensures { (result.letter ≡ orientation / 2) × (result.resolution ≡ resolution) }
    {
        Self {
            letter: (orientation / 2) as u64,
            resolution,
        }
    }
}

// A place in a row of 64 entries: three digits of a place, or three turns of a spot.
#[derive(Clone, Copy)]
pub(crate) struct Column {
    pub at: u64,
    ghost in_row: { at < 64 },
}

impl Column {
    // The last three digits.
    pub(crate) fn last(place: u64) -> Self
        ensures { result.at ≡ place % 64 }
    {
        Self { at: place % 64 }
    }
}
