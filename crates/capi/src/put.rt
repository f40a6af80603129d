// How values are laid out in a lent slice: each writer puts those of one type at the slice's front and
// answers 0; it answers 10 where the slice is too short, and then leaves it as it was.
ghost use Rattle.std.specs.Prelude.{◌≡◌, ltb, cond, ◌≤◌};
ghost use Rattle.triple.specs.Refusals.{told};
ghost use Rattle.descent.specs.Answers.{said_leaf};
ghost use Rattle.triple.specs.Lent.{status_of, after_call, first_of, second_of};
ghost use Rattle.lsystem.specs.Cells.{cell_values};
ghost use Rattle.lsystem.specs.Looks.{located_values};
ghost use Rattle.capi.specs.Calls.{triple_values, point_values, node_values, step_values, pair_values, drawn_values, count_values, reading_values, tally_values, change_number, stepped_values};

use code::Reading;
use curve::PointCell;
use descent::TableCell;
use lsystem::Located;
use lsystem::cell::Cell;
use mend::{Change, Stepped, Tally};
use nodes::{ChildStep, Node};
use triple::Triple;
use triple::refusal::Refusal;
use turtle::AB;

// x y z
pub(crate) fn put_triple(t: Triple, out: &mut [i32]) -> u8
    ensures { (result ≡ status_of (told (triple_values t)) out.old) × (out.new ≡ after_call (told (triple_values t)) out.old) }
{
    if out.len() < 3 {
        return Refusal::Room.number();
    }
    let x = t.x;
    let y = t.y;
    let z = t.z;
    out[0] = x;
    out[1] = y;
    out[2] = z;
    0
}

// x y z flavor
pub(crate) fn put_cell(c: Cell, out: &mut [i32]) -> u8
    ensures { (result ≡ status_of (told (cell_values c)) out.old) × (out.new ≡ after_call (told (cell_values c)) out.old) }
{
    if out.len() < 4 {
        return Refusal::Room.number();
    }
    let t = c.triple;
    let x = t.x;
    let y = t.y;
    let z = t.z;
    let flavor = c.flavor as i32;
    out[0] = x;
    out[1] = y;
    out[2] = z;
    out[3] = flavor;
    0
}

// x y z moved
pub(crate) fn put_point(p: PointCell, out: &mut [i32]) -> u8
    ensures { (result ≡ status_of (told (point_values p)) out.old) × (out.new ≡ after_call (told (point_values p)) out.old) }
{
    if out.len() < 4 {
        return Refusal::Room.number();
    }
    let t = p.triple;
    let x = t.x;
    let y = t.y;
    let z = t.z;
    let mark = p.mark() as i32;
    out[0] = x;
    out[1] = y;
    out[2] = z;
    out[3] = mark;
    0
}

// s flavor picks comparisons
pub(crate) fn put_position(l: Located, out: &mut [u64]) -> u8
    ensures { (result ≡ status_of (told (located_values l)) out.old) × (out.new ≡ after_call (told (located_values l)) out.old) }
{
    if out.len() < 4 {
        return Refusal::Room.number();
    }
    let position = l.position;
    out[0] = position.s;
    out[1] = position.flavor as u64;
    out[2] = l.picks as u64;
    out[3] = l.comparisons as u64;
    0
}

// orientation resolution motif flip, and the two positions
pub(crate) fn put_node(n: Node, numbers: &mut [i32], places: &mut [f64]) -> u8
    requires { n.frame.motif ≤ 13 }
    ensures { (result ≡ status_of (first_of (told (node_values n)) places.old) numbers.old) × (numbers.new ≡ after_call (first_of (told (node_values n)) places.old) numbers.old) × (places.new ≡ after_call (second_of (told (node_values n)) numbers.old) places.old) }
{
    if numbers.len() < 4 {
        return Refusal::Room.number();
    }
    if places.len() < 2 {
        return Refusal::Room.number();
    }
    let frame = n.frame;
    let orientation = n.orientation as i32;
    let resolution = n.resolution as i32;
    let motif = frame.motif as i32;
    let flip = frame.flip as i32;
    numbers[0] = orientation;
    numbers[1] = resolution;
    numbers[2] = motif;
    numbers[3] = flip;
    places[0] = frame.pos_a;
    places[1] = frame.pos_b;
    0
}

// x y z flavor, then the node's orientation resolution motif flip, and its two positions
pub(crate) fn put_step(c: ChildStep, numbers: &mut [i32], places: &mut [f64]) -> u8
    requires { c.node.frame.motif ≤ 13 }
    ensures { (result ≡ status_of (first_of (told (step_values c)) places.old) numbers.old) × (numbers.new ≡ after_call (first_of (told (step_values c)) places.old) numbers.old) × (places.new ≡ after_call (second_of (told (step_values c)) numbers.old) places.old) }
{
    if numbers.len() < 8 {
        return Refusal::Room.number();
    }
    if places.len() < 2 {
        return Refusal::Room.number();
    }
    let cell = c.cell;
    let t = cell.triple;
    let x = t.x;
    let y = t.y;
    let z = t.z;
    let flavor = cell.flavor as i32;
    let node = c.node;
    let frame = node.frame;
    let orientation = node.orientation as i32;
    let resolution = node.resolution as i32;
    let motif = frame.motif as i32;
    let flip = frame.flip as i32;
    numbers[0] = x;
    numbers[1] = y;
    numbers[2] = z;
    numbers[3] = flavor;
    numbers[4] = orientation;
    numbers[5] = resolution;
    numbers[6] = motif;
    numbers[7] = flip;
    places[0] = frame.pos_a;
    places[1] = frame.pos_b;
    0
}

// a b
pub(crate) fn put_pair(p: AB, out: &mut [i64]) -> u8
    ensures { (result ≡ status_of (told (pair_values p)) out.old) × (out.new ≡ after_call (told (pair_values p)) out.old) }
{
    if out.len() < 2 {
        return Refusal::Room.number();
    }
    let a = p.a;
    let b = p.b;
    out[0] = a;
    out[1] = b;
    0
}

// a b flavor
pub(crate) fn put_drawn(c: TableCell, out: &mut [i64]) -> u8
    ensures { (result ≡ status_of (told (drawn_values (said_leaf c))) out.old) × (out.new ≡ after_call (told (drawn_values (said_leaf c))) out.old) }
{
    if out.len() < 3 {
        return Refusal::Room.number();
    }
    let p = c.sum;
    let a = p.a;
    let b = p.b;
    let flavor = c.flavor as i64;
    out[0] = a;
    out[1] = b;
    out[2] = flavor;
    0
}

// count
pub(crate) fn put_count(count: usize, out: &mut [u64]) -> u8
    ensures { (result ≡ status_of (told (count_values count)) out.old) × (out.new ≡ after_call (told (count_values count)) out.old) }
{
    if out.len() < 1 {
        return Refusal::Room.number();
    }
    out[0] = count as u64;
    0
}

// orientation resolution s count old
pub(crate) fn put_reading(r: Reading, out: &mut [u64]) -> u8
    ensures { (result ≡ status_of (told (reading_values r)) out.old) × (out.new ≡ after_call (told (reading_values r)) out.old) }
{
    if out.len() < 5 {
        return Refusal::Room.number();
    }
    out[0] = r.orientation as u64;
    out[1] = r.resolution as u64;
    out[2] = r.s;
    out[3] = r.used as u64;
    out[4] = r.old as u64;
    0
}

// written changes
pub(crate) fn put_tally(t: Tally, out: &mut [u64]) -> u8
    ensures { (result ≡ status_of (told (tally_values t)) out.old) × (out.new ≡ after_call (told (tally_values t)) out.old) }
{
    if out.len() < 2 {
        return Refusal::Room.number();
    }
    out[0] = t.written as u64;
    out[1] = t.changes as u64;
    0
}

// taken written change
pub(crate) fn put_stepped(x: Stepped, out: &mut [u64]) -> u8
    ensures { (result ≡ status_of (told (stepped_values x)) out.old) × (out.new ≡ after_call (told (stepped_values x)) out.old) }
{
    if out.len() < 3 {
        return Refusal::Room.number();
    }
    let change = x.change;
    let number = change_number(change);
    out[0] = x.taken as u64;
    out[1] = x.written as u64;
    out[2] = number;
    0
}

fn change_number(change: Change) -> u64
    ensures { result ≡ change_number change }
{
    match change {
        Change::Kept => 0,
        Change::Spare => 1,
        Change::Turned => 2,
        Change::Both => 3,
        Change::Dropped => 4,
    }
}

// How much of `bytes` a writer is lent: nothing where the count has no place in `out`. No code fits
// into nothing, so that one which is not refused otherwise is then refused for room.
pub(crate) fn lendable(bytes: usize, out: usize) -> usize
    ensures { (result ≤ bytes) × (result ≡ cond (ltb out 1) 0 bytes) }
{
    if out < 1 {
        return 0;
    }
    bytes
}
