// Answers for descent tables: the compiler of a grammar's text (children, hulls, leaves, classifier,
// each state's 41 numbers), and what following a table gives, whoever wrote it. The grammar's text and
// its drawing are `grammar`'s, telling children apart is `classifier`'s; the operations on A5's own
// table are `lsystem`'s.
#![tactic(auto)]

ghost use Rattle.std.specs.Prelude.{◌≡◌, ◌≤◌, length};
ghost use Rattle.tables.specs.Inside.Tokens.{Tokened};

use classifier::{Classifier, Corner};
use grammar::lines::Lines;

mod accepted;
mod children;
pub mod compiler;
mod frames;
mod leaves;
pub mod parts;
mod rows;
mod states;
mod tokens;

// A child of a token: met at heading 0, or flipped: at heading 3.
#[derive(Clone, Copy)]
pub(crate) struct Child {
    pub token: usize,
    pub flip: bool,
}

// A text's lines and its tokens: the motifs in letter order, then their lowercase forms.
// Stays an array with a count: no heap.
#[derive(Clone, Copy)]
pub(crate) struct Source {
    pub lines: Lines,
    pub bytes: [u8; 52],
    pub count: usize,
    ghost room: { length bytes ≡ 52 },
    ghost few: { count ≤ 52 },
}

// A drawn cell, as a table has it.
#[derive(Clone, Copy)]
pub(crate) struct DrawnLeaf {
    pub sum: Corner,
    pub flavor: i32,
}

// What a token draws with one pass: the corners of its four cells, the cells as a table has them, and
// where the walk ends.
#[derive(Clone, Copy)]
pub(crate) struct Drawn {
    pub corners: [Corner; 12],
    pub leaves: [DrawnLeaf; 4],
    pub end: Corner,
}

// What a state's 41 numbers are read from: its children, where they start, its cells, and what tells its
// children apart.
#[derive(Clone, Copy)]
pub(crate) struct StateParts {
    pub children: [Child; 4],
    pub flip: bool,
    pub starts: [Corner; 4],
    pub leaves: [DrawnLeaf; 4],
    pub classes: Classifier,
    ghost tokened: { Tokened children },
}
