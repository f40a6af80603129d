// Answers for folding and unfolding: a list of positions as the fewest whole cells that cover the same
// ground, and back. It looks at numbers alone: which cell a position names is `lsystem`'s.
//
// A cell stands in a slice as a pair of numbers, its resolution and its position there. At a resolution
// r it covers the positions that begin with its digits: those from p * 4^(r - m) on, 4^(r - m) of them.
#![tactic(auto)]

pub mod folding;
pub mod pairs;
pub mod unfolding;
