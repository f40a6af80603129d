// Answers for checking a partner's treated list: up to 512 codes at mixed resolutions, one after another.
// It is good where every code is sound, unmarked and of the first code's orientation, and no cell equals
// or contains another; else the first code that breaks this is named. What a code says is `code`'s.
#![tactic(auto)]

ghost use Rattle.std.specs.Prelude.{◌≡◌, ◌^◌, ◌<◌, ◌≤◌};
ghost use Rattle.std.specs.List.{list_any};
ghost use Rattle.code.specs.Codes.{read_of};
ghost use Rattle.treated.specs.Treated.{check_of};
ghost use Rattle.treated.specs.Answers.{said_check};
ghost use Rattle.treated.specs.Inside.Grounds.{beginning, ground_of, meets, differs, judge_by, judge_reading};

use code::Reading;
use triple::refusal::Refusal;

// Why a code is not good, taken together with those before it; the earliest of these where several hold.
#[derive(Clone, Copy)]
pub enum Fault {
    // It does not read.
    Unsound,
    // It is of a backward orientation.
    Marked,
    // It is not of the first code's orientation.
    Orientation,
    // Its cell equals one before it, or contains it, or is contained in it.
    Overlap,
}

// Why a list is not good: its first code at fault, by its number from 0; or that it is too long.
#[derive(Clone, Copy)]
pub enum CheckError {
    Faulty(Fault, usize),
    Refused(Refusal),
}

// Where a cell starts and ends on the curve at resolution 30.
#[derive(Clone, Copy)]
struct Ground {
    start: u64,
    end: u64,
}

impl Ground {
    // Whether it has a position in common with another: each starts before the other's end.
    fn meets(&self, other: Ground) -> bool
        ensures { result ≡ meets self.now other }
    {
        (self.start < other.end) & (other.start < self.end)
    }
}

// The most codes of a list.
pub const MOST_CODES: usize = 512;

// Checks a list. Of each cell so far it keeps where its ground starts and ends on the curve at resolution
// 30: all of them are of one orientation, so two overlap where neither ends before the other starts.
pub fn check(list: &[u8]) -> Result<usize, CheckError>
    ensures { said_check result ≡ check_of list.now }
{
    let mut grounds = [Ground { start: 0, end: 0 }; MOST_CODES];
    let mut first = None;
    let mut at = 0;
    let mut n = 0;
    // Stays a while loop: the place goes on by what each code takes, which no iterator says plainer.
    while at < list.len() {
        if n >= MOST_CODES {
            return Err(CheckError::Refused(Refusal::Long));
        }
        let judged = judge(&list[at..], first, &grounds[..n]);
        match judged {
            Ok(x) => {
                grounds[n] = ground_of(x);
                first = Some(x.orientation);
                at += x.used;
                n += 1;
            }
            Err(f) => {
                return Err(CheckError::Faulty(f, n));
            }
        }
    }
    Ok(n)
}

// The code at the front of a rest, by the first orientation of those before it, if there are any, and
// their grounds.
fn judge(rest: &[u8], first: Option<u8>, grounds: &[Ground]) -> Result<Reading, Fault>
    ensures { result ≡ judge_by first grounds.now (read_of rest.now) }
{
    match code::read(rest) {
        Ok(x) => judge_reading(x, first, grounds),
        Err(_) => Err(Fault::Unsound),
    }
}

// The same of a code that reads: its mark, its orientation, and where its own ground lies.
fn judge_reading(x: Reading, first: Option<u8>, grounds: &[Ground]) -> Result<Reading, Fault>
    requires { (x.resolution ≤ 30) × (x.s < 4 ^ x.resolution) }
    ensures { result ≡ judge_reading first grounds.now x }
{
    let strays = differs(x.orientation, first);
    if x.old {
        return Err(Fault::Marked);
    }
    if strays {
        return Err(Fault::Orientation);
    }
    let own = ground_of(x);
    if touches(grounds, own) {
        return Err(Fault::Overlap);
    }
    Ok(x)
}

// Whether one of some grounds meets a ground. All of them are tested: no branch hangs on where one lies.
fn touches(grounds: &[Ground], own: Ground) -> bool
    ensures { result ≡ list_any (λ g. meets g own) grounds.now }
{
    let mut met = false;
    for ground in grounds {
        met |= ground.meets(own);
    }
    met
}

// Whether an orientation is another than that of the first of some codes.
fn differs(own: u8, first: Option<u8>) -> bool
    ensures { result ≡ differs own first }
{
    first.is_some_and(|o| o != own)
}

// The ground of a code's cell.
fn ground_of(x: Reading) -> Ground
    requires { (x.resolution ≤ 30) × (x.s < 4 ^ x.resolution) }
    ensures { result ≡ ground_of x }
{
    Ground {
        start: begin(x.resolution, x.s),
        end: begin(x.resolution, x.s + 1),
    }
}

// Where a position of a resolution begins at resolution 30. The one behind the last position begins at
// the curve's end.
fn begin(resolution: u8, s: u64) -> u64
    requires { (resolution ≤ 30) × (s ≤ 4 ^ resolution) }
    ensures { result ≡ beginning resolution s }
{
    s << (2 * (30 - resolution))
}
