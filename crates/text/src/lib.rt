// Answers for text: the words of a line, numbers read from bytes, and text put at a place of what is
// lent. It knows of no refusal: what a word that is no number spoils is said by the crates that read.
#![tactic(auto)]

mod digits;
pub mod number;
pub mod place;
pub mod put;
pub mod words;
