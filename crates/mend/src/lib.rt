// Answers for mending a list of codes that stand one after another: sound codes are copied, spare bits
// are cleared, old codes are turned forward, and a byte where no code can be read is dropped. What a code
// says is `code`'s; how changes are printed is the program's.
#![tactic(auto)]

ghost use Rattle.std.specs.Prelude.{◌≡◌, ◌++◌, ◌<◌, ◌≤◌, length, get_or, take, drop};
ghost use Rattle.triple.specs.Refusals.{told, said};
ghost use Rattle.triple.specs.Lent.{after_call};
ghost use Rattle.code.specs.Codes.{code_of, read_of};
ghost use Rattle.mend.specs.Mends.{unread_of, piece_of, tellings, step_of, mend_call, mended_to};
ghost use Rattle.mend.specs.Inside.Plans.{piece_for, Sure, plan_step};
ghost use Rattle.mend.specs.declared.Change.TheVariants.{Kept};

use code::Reading;
use triple::refusal::Refusal;

// What was done to the code, or the byte, at the front of a rest.
#[derive(Clone, Copy)]
pub enum Change {
    Kept,
    Spare,
    Turned,
    Both,
    Dropped,
}

// How many bytes a step took from the front of a rest, how many it wrote for them, and the change.
#[derive(Clone, Copy)]
pub struct Stepped {
    pub taken: usize,
    pub written: usize,
    pub change: Change,
}

// How many bytes were written, and how many changes there are to tell: of a code with both faults, two.
#[derive(Clone, Copy)]
pub struct Tally {
    pub written: usize,
    pub changes: usize,
}

// What to do with the front of a rest: copy a code of so many bytes, write anew what a code says, or drop
// a byte.
// Stays without an invariant: `Sure`, in three contracts, is of a plan and the rest together, and no plan holds a rest.
#[derive(Clone, Copy)]
enum Plan {
    Copy(usize),
    Anew(Reading, Change),
    Drop,
}

// Mends a list into the front of a buffer that is at least as long. A refused call leaves the buffer as
// it was.
pub fn mend(list: &[u8], out: &mut [u8]) -> Result<Tally, Refusal>
    ensures { (said result ≡ mended_to list.now out.old) × (out.new ≡ after_call (mend_call list.now out.old) out.old) }
{
    if out.len() < list.len() {
        return Err(Refusal::Room);
    }
    let mut at = 0;
    let mut written = 0;
    let mut changes = 0;
    // Stays a while loop: the place goes on by what each code takes, which no iterator says plainer.
    while at < list.len() {
        let seen = code::read(&list[at..]);
        let plan = plan_of(seen, &list[at..]);
        lay(plan, &list[at..], &mut out[written..]);
        let x = step_by(plan);
        at += x.taken;
        written += x.written;
        let change = x.change;
        changes += count_of(change);
    }
    Ok(Tally { written, changes })
}

// The first step of mending what is left of a list, for a caller that tells each change: it goes on
// behind the bytes that were taken and behind those that were written. Of nothing, nothing is taken.
pub fn step(rest: &[u8], out: &mut [u8]) -> Result<Stepped, Refusal>
    ensures { (said result ≡ step_of rest.now out.old) × (out.new ≡ after_call (told (piece_of rest.now).bytes) out.old) }
{
    if rest.len() == 0 {
        return Ok(Stepped {
            taken: 0,
            written: 0,
            change: Change::Kept,
        });
    }
    let plan = plan_of(code::read(rest), rest);
    let x = step_by(plan);
    if out.len() < x.written {
        return Err(Refusal::Room);
    }
    lay(plan, rest, out);
    Ok(x)
}

// How many lines tell a change.
pub fn count_of(change: Change) -> usize
    ensures { result ≡ length (tellings change) }
{
    match change {
        Change::Kept => 0,
        Change::Spare => 1,
        Change::Turned => 1,
        Change::Both => 2,
        Change::Dropped => 1,
    }
}

// The k-th of those lines, from 0: spare, turned or dropped; kept past the last. Both faults are told as
// spare and then as turned, and nothing else has a second line.
pub fn telling(change: Change, k: usize) -> Change
    ensures { result ≡ get_or (tellings change) k Kept }
{
    if k >= count_of(change) {
        return Change::Kept;
    }
    if k > 0 {
        return Change::Turned;
    }
    match change {
        Change::Kept => Change::Kept,
        Change::Spare => Change::Spare,
        Change::Turned => Change::Turned,
        Change::Both => Change::Spare,
        Change::Dropped => Change::Dropped,
    }
}

// The plan, by what the code reader answers on the rest.
fn plan_of(seen: Result<Reading, Refusal>, rest: &[u8]) -> Plan
    requires { (said seen ≡ read_of rest.now) × (0 < length rest.now) }
    ensures { (piece_for rest.now result ≡ piece_of rest.now) × Sure rest.now result }
{
    match seen {
        Ok(x) => {
            if x.old {
                return Plan::Anew(x, Change::Turned);
            }
            Plan::Copy(x.used)
        }
        Err(_) => plan_unread(rest),
    }
}

// The same where the reader refuses: a code whose spare bits alone are at fault, or a byte to drop.
fn plan_unread(rest: &[u8]) -> Plan
    ensures { (piece_for rest.now result ≡ unread_of rest.now) × Sure rest.now result }
{
    let seen = code::read_loose(rest);
    match seen {
        Ok(x) => {
            if x.old {
                return Plan::Anew(x, Change::Both);
            }
            Plan::Anew(x, Change::Spare)
        }
        Err(_) => Plan::Drop,
    }
}

fn step_by(plan: Plan) -> Stepped
    ensures { result ≡ plan_step plan }
{
    match plan {
        Plan::Copy(n) => Stepped {
            taken: n,
            written: n,
            change: Change::Kept,
        },
        Plan::Anew(x, change) => Stepped {
            taken: x.used,
            written: x.used,
            change,
        },
        Plan::Drop => Stepped {
            taken: 1,
            written: 0,
            change: Change::Dropped,
        },
    }
}

fn lay(plan: Plan, rest: &[u8], out: &mut [u8])
    requires { Sure rest.now plan × ((plan_step plan).written ≤ length out.old) }
    ensures { out.new ≡ after_call (told (piece_for rest.now plan).bytes) out.old }
{
    match plan {
        Plan::Copy(n) => copy(rest, n, out),
        Plan::Anew(x, _) => rewrite(x, out),
        Plan::Drop => {}
    }
}

// Copies the first n bytes. Stays byte by byte: they are few, and `copy_from_slice` calls the system's copy
// for them, which mended a list of codes of one byte 5 % slower.
fn copy(from: &[u8], n: usize, out: &mut [u8])
    requires { (n ≤ length from.now) × (n ≤ length out.old) }
    ensures { out.new ≡ take n from.now ++ drop n out.old }
{
    for k in 0..n {
        out[k] = from[k];
    }
}

fn rewrite(x: Reading, out: &mut [u8])
    ensures { out.new ≡ after_call (code_of x.orientation x.resolution x.s) out.old }
{
    let _ = code::write(x.orientation, x.resolution, x.s, out);
}
