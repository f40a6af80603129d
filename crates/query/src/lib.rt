// Answers for queries: a line of bytes read into one, what it finds, and that printed as a line.
// What is found is `lsystem`'s and `curve`'s, words and numbers are `text`'s; the lines of an input and
// the output are the program `wedge`'s.
#![tactic(auto)]

use curve::PointCell;
use lsystem::Position;
use lsystem::cell::Cell;
use triple::Triple;
use triple::refusal::Refusal;

pub mod answer;
pub mod line;
pub mod print;

// Each names an orientation and a resolution, and then a position, a triple or a point of two f64.
#[derive(Clone, Copy)]
pub enum Query {
    Position(u8, u8, u64),
    Cell(u8, u8, Triple),
    Point(u8, u8, f64, f64),
}

// A position's cell; a triple's position; a point's cell and its position.
#[derive(Clone, Copy)]
pub enum Found {
    Cell(Cell),
    Position(Position),
    Point(PointCell, Position),
}
