// Cells as pairs of numbers: the tests by which any list of numbers is one of cells in curve order, none
// of them in another.
ghost use Rattle.std.specs.Prelude.{◌≡◌, ◌≤◌, IfOk};
ghost use Rattle.fold.specs.Unfolds.{passes, passed_by, refusal_for};
ghost use Rattle.fold.specs.Inside.Pairs.{seen_pair};

use triple::Triple;
use triple::domain::position_count;
use triple::refusal::Refusal;

// The tests of a list of pairs, in their order: its resolutions, its positions, and that its cells are in
// curve order and apart. One of them that a list fails.
#[derive(Clone, Copy, PartialEq, Eq, PartialOrd, Ord)]
pub enum Fault {
    Resolution,
    Position,
    Order,
}

impl From<Fault> for Refusal {
    ghost from_gives = { λ fault r. r ≡ refusal_for fault };

    fn from(fault: Fault) -> Refusal {
        match fault {
            Fault::Resolution => Refusal::Resolution,
            Fault::Position => Refusal::Position,
            Fault::Order => Refusal::Order,
        }
    }
}

// Pairs that have passed the tests, by a resolution that none of their cells is finer than.
#[derive(Clone, Copy)]
pub struct Cells<'a> {
    pub resolution: u8,
    // Stays one flat list: C lends it so.
    pub pairs: &'a [u64],
    pub ghost tested: { passes resolution pairs.now ≡ 3 },
}

impl<'a> Cells<'a> {
    // The cells of a list, or the first test that it fails.
    pub fn read(resolution: u8, pairs: &'a [u64]) -> Result<Cells<'a>, Fault>
        ensures passed { passed_by result ≡ passes resolution pairs.now }
        ensures cells { IfOk result (λ c. (c.resolution ≡ resolution) × (c.pairs.now ≡ pairs.now)) }
    {
        match tests_passed(resolution, pairs) {
            0 => Err(Fault::Resolution),
            1 => Err(Fault::Position),
            2 => Err(Fault::Order),
            _ => Ok(Cells { resolution, pairs }),
        }
    }
}

// How many of the tests a list passes. One walk tells all three, since a cell that is outside ends the search
// for one that is out of order, but not the search for one that is too deep.
// Stays a number: docs/CONTRACTS.md names it and `tests_passed_determined`.
pub fn tests_passed(resolution: u8, pairs: &[u64]) -> u8
    ensures { result ≡ passes resolution pairs.now }
{
    if resolution > Triple::GREATEST_RESOLUTION {
        return 0;
    }
    let mut seen = Seen {
        bounded: true,
        sorted: true,
        end: 0,
    };
    let (cells, alone) = pairs.as_chunks::<2>();
    for [m, p] in cells {
        if *m > resolution as u64 {
            return 0;
        }
        seen = see_pair(seen, resolution, *m, *p);
    }
    if !seen.bounded {
        return 1;
    }
    if !(seen.sorted && alone.is_empty()) {
        return 2;
    }
    3
}

// What is seen of the pairs up to an entry: whether each has a position of its resolution; whether the
// others are in curve order and apart; and where the last of these ends.
#[derive(Clone, Copy)]
struct Seen {
    bounded: bool,
    sorted: bool,
    end: u64,
}

fn see_pair(seen: Seen, resolution: u8, m: u64, p: u64) -> Seen
    requires { (resolution ≤ 30) × (m ≤ resolution) }
    ensures { result ≡ seen_pair resolution seen m p }
{
    if p >= position_count(m as u8) {
        return Seen {
            bounded: false,
            ..seen
        };
    }
    let n = position_count(resolution - m as u8);
    let first = p * n;
    Seen {
        sorted: seen.sorted && seen.end <= first,
        end: first + n,
        ..seen
    }
}
