// The program: a picture of the curve, drawn from its rules. Two arguments, an orientation 0 to 5 and 1 to 6
// passes; the picture is SVG on standard output. What it draws is `sketch`'s, how a picture is written is
// `svg`'s; this file has the arguments. Arguments of any other kind are said on standard error, with no picture.
#![tactic(auto)]

use lines::{argument, is_given};
use std::env::Env;
use svg::print_picture;
use text::number::byte;

mod svg;

// An argument that is a number below 256; 255 where it is none, which is refused as it would be.
fn number_at<E: Env>(rt: &E, i: usize) -> u8 {
    // Stays a buffer: a longer word is no number below 256.
    let mut word = [0u8; 8];
    byte(argument(rt, i, &mut word)).unwrap_or(255)
}

fn say_usage<E: Eprint>(rt: &E) {
    let _ = eprintln!(rt; "two arguments, an orientation 0 to 5 and passes 1 to 6");
}

fn main(rt: HostRuntime) {
    if !is_given(&rt, 2) || is_given(&rt, 3) {
        say_usage(&rt);
        return;
    }
    let orientation = number_at(&rt, 1);
    let passes = number_at(&rt, 2);
    let mut cells = [0i32; 16384];
    match sketch::draw(orientation, passes, &mut cells) {
        Ok(n) => {
            let n = n.min(cells.len());
            print_picture(&rt, orientation, passes, &cells[..n]);
        }
        Err(_) => say_usage(&rt),
    }
}
