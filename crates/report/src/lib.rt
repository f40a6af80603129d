// Answers for reports: the triples that a module reports, in any order and repeated or not, as a folded
// area. Where a triple stands on the curve is `lsystem`'s, folding is `fold`'s, and what is done with areas
// is `area`'s.
#![tactic(auto)]

mod ordering;
pub mod reporting;
