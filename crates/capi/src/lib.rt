// Answers for callers in C and Rust: the operations of the crates below on numbers and slices, which
// the static library `capi_c` exports, declared in include/haspbarley.h. What each answers is its
// crate's; what stands here is how an answer becomes a status and a few numbers in a slice.
//
// Every function takes every input. It answers 0 and writes its values at the front of the slice that
// it is lent, or it answers the number of a refusal and leaves the slice as it was. Too short a slice
// is refusal 10, tested last. A slice passes as a pointer and then a length.
#![tactic(auto)]

pub mod areas;
pub mod cells;
pub mod children;
pub mod codes;
pub mod folds;
pub mod grammars;
pub mod places;
pub mod polygons;
mod put;
pub mod queries;
mod verdict;
