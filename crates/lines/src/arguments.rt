// The arguments that a program was started with, its own name the first of them.
ghost use Rattle.std.specs.Prelude.{◌≤◌, length};

use std::env::{Env, FillError};

// Whether there is an argument at a place.
pub fn is_given<E: Env>(rt: &E, i: usize) -> bool {
    let mut word = [0u8; 8];
    !matches!(rt.arg(i, &mut word), Err(FillError::NotPresent))
}

// An argument, at the front of what is lent for it; empty where there is none or it is longer than that.
pub fn argument<'a, E: Env>(rt: &E, i: usize, word: &'a mut [u8]) -> &'a [u8]
    ensures { length result.now ≤ length word.old }
{
    match rt.arg(i, word) {
        Ok(n) => &word[..n],
        Err(_) => &[],
    }
}
