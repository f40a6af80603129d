// Answers for grammars: their text form and its tests, reversal and expansion of words of bytes,
// and the drawing that a grammar makes. Purely symbolic: what a letter draws is `turtle`'s, and the
// compilation to descent tables is `tables`'s.
#![tactic(auto)]

pub mod lines;
mod nets;
pub mod scan;
mod sheet;
mod tally;
pub mod tests;
pub mod word;
