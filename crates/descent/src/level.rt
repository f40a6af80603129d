// The way down a readable table: a place in units of its own level, which doubles at each step.
ghost use Rattle.std.specs.Prelude.{◌≡◌, ◌+◌, ◌*◌, ◌<◌, ◌≤◌, ◌^◌, ◌/◌, ◌%◌, nat_abs, ◌+ℤ◌, ◌*ℤ◌, length};
ghost use Rattle.turtle.specs.Plane.{origin};
ghost use Rattle.tables.specs.Descent.{entry, follow};
ghost use Rattle.descent.specs.Answers.{said_leaf};
ghost use Rattle.descent.specs.Inside.LevelStates.{Known, RoomBelow, down_in, level_start};

use crate::TableCell;
use turtle::AB;

// A state, and where its frame starts, in units of its level.
// Stays beside the table, what is known of both in the contracts: a struct of the two holds the table by reference, a loop takes such a struct apart, and its invariant says all of it again (tried); the room shrinks at each step.
#[derive(Clone, Copy)]
pub(crate) struct LevelState {
    pub a: i64,
    pub b: i64,
    pub state: usize,
}

fn digit_of(s: u64, k: u64) -> usize
    requires { k ≤ 30 }
    ensures { result ≡ s / 4 ^ k % 4 }
{
    ((s >> (2 * k)) % 4) as usize
}

fn entry_at(table: &[i32], state: usize, j: usize) -> i64
    requires { (state < 32) × (41 * state + j < length table.now) }
    ensures { result ≡ entry table.now state j }
{
    i64::from(table[41 * state + j])
}

// So many times a place, and an entry: a place doubles one level down, and counts three times in a corner sum, which adds
// three corners.
fn times_plus(n: i64, place: i64, entry: i64) -> i64
    requires { (nat_abs n ≤ 3) × ((nat_abs place ≤ 2 ^ 42) × (nat_abs entry ≤ 4096)) }
    ensures { result ≡ n *ℤ place +ℤ entry }
{
    n * place + entry
}

impl LevelState {
    fn down(self, table: &[i32], digit: usize) -> LevelState
        requires { (Known table.now self.state) × ((RoomBelow 0 self) × (digit < 4)) }
        ensures { result ≡ down_in table.now self digit }
    {
        let a = entry_at(table, self.state, 4 + 2 * digit);
        let b = entry_at(table, self.state, 5 + 2 * digit);
        let child = entry_at(table, self.state, digit);
        LevelState {
            a: times_plus(2, self.a, a),
            b: times_plus(2, self.b, b),
            state: child as usize,
        }
    }

    pub(crate) fn leaf(self, table: &[i32], digit: usize) -> TableCell
        requires { (Known table.now self.state) × ((RoomBelow 0 self) × (digit < 4)) }
        ensures { said_leaf result ≡ follow table.now 0 (level_start self) self.state digit }
    {
        let a = entry_at(table, self.state, 12 + 2 * digit);
        let b = entry_at(table, self.state, 13 + 2 * digit);
        let flavor = entry_at(table, self.state, 20 + digit);
        TableCell {
            sum: AB::new(times_plus(3, self.a, a), times_plus(3, self.b, b)),
            flavor: flavor as u8,
        }
    }
}

// Down from a state at the origin, by the digits `levels` to 1 of s.
pub(crate) fn reach(table: &[i32], state: usize, levels: u64, s: u64) -> LevelState
    requires { (Known table.now state) × (levels ≤ 29) }
    ensures { (Known table.now result.state) × ((RoomBelow 0 result) × (follow table.now 0 (level_start result) result.state s ≡ follow table.now levels origin state s)) }
{
    let mut p = LevelState { a: 0, b: 0, state };
    for k in (0..levels).rev() {
        p = p.down(table, digit_of(s, k + 1));
    }
    p
}
