// Answers for telling a state's four children apart: the convex hull of a footprint, the lines
// through its edges, the first of them that splits a set of children cleanly, and what the splits
// come to: three separators, and a child for each pattern of sides. Whose footprints they are is
// `tables`'s.
#![tactic(auto)]

mod edges;
mod groups;
pub mod hulls;
pub mod splits;

// A corner of a footprint, or where one stands. A token's four cells reach no further than 40.
#[derive(Clone, Copy, PartialEq, Eq, PartialOrd, Ord)]
pub struct Corner {
    pub a: i8,
    pub b: i8,
}

// The corners of a convex hull in order: the first `count` of these.
// Stays an array with a count: no heap, and `hull_by` of specs/Shapes and `tables` name both fields.
#[derive(Clone, Copy)]
pub struct Hull {
    pub corners: [Corner; 24],
    pub count: usize,
}

// A child's footprint: its hull, turned by half where flipped, at its offset.
#[derive(Clone, Copy)]
pub struct Placed {
    pub hull: Hull,
    pub at: Corner,
    pub flip: bool,
}

// The line where x * a + y * b + c is 0.
#[derive(Clone, Copy, PartialEq, Eq)]
pub struct Separator {
    pub x: i32,
    pub y: i32,
    pub c: i32,
}

// Three separators, those unused zero, and the child for each pattern of sides. `whole` where every
// set of children was split.
// Stays a flag beside the answer: `classifier_of` of specs/Shapes says all three of every set.
#[derive(Clone, Copy)]
pub struct Classifier {
    pub separators: [Separator; 3],
    pub choices: [u8; 8],
    pub whole: bool,
}
