// Answers for areas: what two of them cover together, what both cover, what one covers without the other;
// whether an area covers a cell, and how much it covers. It looks at numbers alone: which cell a position
// names is `lsystem`'s, and a list of pairs is `fold`'s.
//
// An area is a slice of pairs, a resolution and a position each, of cells in curve order, none of them in
// another. It covers all or nothing of each stretch between two places on the curve where it begins or
// ends. So along two areas at once an operation keeps all or nothing of each piece between two such
// places; pieces that are kept and touch are one run; and a run is cut from its front into the largest
// cells that begin there, which is its fold. No position is looked at by itself.
#![tactic(auto)]

pub mod combining;
pub mod cursors;
pub mod cutting;
pub mod operation;
mod overlay;
pub mod questions;
pub mod walking;
