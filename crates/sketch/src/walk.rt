// The walk of a letter. The bytes of its word are met one after the other, each with one pass less: those of a
// lowercase letter from the word's end, those of an uppercase one from its front.
ghost use Rattle.std.specs.Prelude.{◌≡◌, [], ◌∷◌};
ghost use Rattle.sketch.specs.Inside.Marks.{marks};
ghost use Rattle.sketch.specs.Inside.Pens.{Room, pen_after, inked};

use crate::pen::{Pen, stepped};
use crate::word::word_of;
use grammar::word::mirrored;

// `left`: the passes left, the draw pass the last of them. A byte that has no word is a step of the pen. From its
// end a word has each letter's case swapped and each turn flipped.
pub(crate) fn met(b: u8, left: u8, pen: Pen, out: &mut [i32]) -> Pen
    requires { Room (marks left (b ∷ [])) pen out.old }
    ensures { (result ≡ pen_after (marks left (b ∷ [])) pen) × (out.new ≡ inked (marks left (b ∷ [])) pen out.old) }
{
    let word = word_of(b, left);
    if word.is_empty() {
        return stepped(pen, b, out);
    }
    let mut p = pen;
    if b.is_ascii_lowercase() {
        for c in word.iter().rev() {
            p = met(mirrored(*c), left - 1, p, out);
        }
    } else {
        for d in word {
            p = met(*d, left - 1, p, out);
        }
    }
    p
}
