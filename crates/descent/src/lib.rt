// Answers for the descent in a part of a lent table, whoever wrote it: the cell at a place of what the part gives.
// What a table of a grammar holds, and what following a table gives, is `tables`'s; A5's own curve is
// `lsystem`'s.
#![tactic(auto)]

ghost use Rattle.std.specs.Prelude.{◌≡◌, ◌*◌, ◌≤◌, length};
ghost use Rattle.tables.specs.Descent.{descent_of, descent_in};
ghost use Rattle.descent.specs.Answers.{said_descent};

use crate::level::reach;
use crate::readable::is_good_table;
use tables::parts::is_past;
use triple::Triple;
use triple::refusal::Refusal;
use turtle::AB;

pub mod level;
pub mod readable;

// A drawn cell, as a table has it.
#[derive(Clone, Copy)]
pub struct TableCell {
    pub sum: AB,
    pub flavor: u8,
}

// The cell at place s of what a part of a table gives, from entry `start` on: any table, any start, any
// state count, any token. All that stands outside the part is never looked at.
pub fn descend_table(
    table: &[i32],
    start: usize,
    states: usize,
    passes: u8,
    token: usize,
    s: u64,
) -> Result<TableCell, Refusal>
    ensures { said_descent result ≡ descent_in table.now start states passes token s }
{
    if is_past(table.len(), start, states) {
        return Err(Refusal::Part);
    }
    let end = start + 41 * states;
    descend_part(&table[start..end], states, passes, token, s)
}

// The same of the part alone, which holds its states.
// Stays one refusal after the other: each has its own number, in the order of the definition.
fn descend_part(
    part: &[i32],
    states: usize,
    passes: u8,
    token: usize,
    s: u64,
) -> Result<TableCell, Refusal>
    requires { 41 * states ≤ length part.now }
    ensures { said_descent result ≡ descent_of part.now states passes token s }
{
    if passes == 0 {
        return Err(Refusal::Resolution);
    }
    if passes > Triple::GREATEST_RESOLUTION {
        return Err(Refusal::Resolution);
    }
    if !is_good_table(part, states, token) {
        return Err(Refusal::Table);
    }
    if s >> (2 * passes) > 0 {
        return Err(Refusal::Position);
    }
    let p = reach(part, 2 * token, (passes - 1) as u64, s);
    Ok(p.leaf(part, (s % 4) as usize))
}
