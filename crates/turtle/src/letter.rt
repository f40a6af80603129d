// The ten draw letters. A lowercase letter steps as its uppercase one does, and hosts the cell on
// the other side.
ghost use Rattle.std.specs.Prelude.{◌≡◌};
ghost use Rattle.turtle.specs.Letters.{stroke_of};

use crate::AB;

// What a letter draws at heading 0: its step, the three corners of the cell that it hosts, and the
// cell's flavor.
#[derive(Clone, Copy)]
pub struct Stroke {
    pub step: AB,
    pub p: AB,
    pub q: AB,
    pub r: AB,
    pub flavor: Option<u8>,
}

// Stays a match: it is a table, and each row is proved by its arm.
pub fn stroke_of(letter: u8) -> Option<Stroke>
    ensures { result ≡ stroke_of letter }
{
    match letter {
        b'E' => Some(Stroke {
            step: AB::new(4, 0),
            p: AB::new(0, 0),
            q: AB::new(4, 0),
            r: AB::new(4, -4),
            flavor: Some(2),
        }),
        b'e' => Some(Stroke {
            step: AB::new(4, 0),
            p: AB::new(0, 0),
            q: AB::new(4, 0),
            r: AB::new(0, 4),
            flavor: Some(3),
        }),
        b'S' => Some(Stroke {
            step: AB::new(4, -2),
            p: AB::new(0, 0),
            q: AB::new(4, 0),
            r: AB::new(4, -4),
            flavor: Some(0),
        }),
        b's' => Some(Stroke {
            step: AB::new(4, -2),
            p: AB::new(4, -2),
            q: AB::new(0, 2),
            r: AB::new(0, -2),
            flavor: Some(1),
        }),
        b'U' => Some(Stroke {
            step: AB::new(0, 2),
            p: AB::new(0, 2),
            q: AB::new(0, -2),
            r: AB::new(4, -2),
            flavor: None,
        }),
        b'u' => Some(Stroke {
            step: AB::new(0, 2),
            p: AB::new(0, 0),
            q: AB::new(0, 4),
            r: AB::new(-4, 4),
            flavor: None,
        }),
        b'D' => Some(Stroke {
            step: AB::new(0, -2),
            p: AB::new(0, 2),
            q: AB::new(0, -2),
            r: AB::new(4, -2),
            flavor: Some(1),
        }),
        b'd' => Some(Stroke {
            step: AB::new(0, -2),
            p: AB::new(0, 0),
            q: AB::new(0, -4),
            r: AB::new(-4, 0),
            flavor: Some(0),
        }),
        b'T' => Some(Stroke {
            step: AB::new(-4, 0),
            p: AB::new(0, -4),
            q: AB::new(-4, 0),
            r: AB::new(-4, -4),
            flavor: Some(3),
        }),
        b't' => Some(Stroke {
            step: AB::new(-4, 0),
            p: AB::new(-4, 4),
            q: AB::new(0, 0),
            r: AB::new(0, 4),
            flavor: Some(2),
        }),
        _ => None,
    }
}
