// The classifier of four children: each set of them is split by the first edge of theirs that
// leaves each child on one side, and each of the two smaller sets again.
ghost use Rattle.std.specs.Prelude.{◌≡◌, true, false, [], ◌+◌, ◌/◌, ◌%◌, ◌^◌, ◌<◌, ◌≤◌, eqb, length};
ghost use Rattle.classifier.specs.Splits.{separator_index, with_separator};
ghost use Rattle.classifier.specs.Shapes.{polygons_of, classifier_of};
ghost use Rattle.classifier.specs.Inside.Sets.{members, three_of, Through, Led};

use crate::groups::Group;
use crate::{Classifier, Placed, Separator};
use std::array;
use std::marker::Model;

// The lines met so far, each once, those unused zero. `whole` where each set met was split.
// Stays an array with a count: no heap, and the classifier that comes of it has the array.
#[derive(Drop)]
struct Gathered {
    lines: [Separator; 3],
    count: usize,
    whole: bool,
}

impl Model for Gathered {
    ghost use Rattle.classifier.specs.Inside.Sets.{Lines};

    ghost Value = { Lines };

    ghost use Rattle.classifier.specs.Inside.Gathered.{gathered, Kept};

    ghost view = { gathered };

    ghost invariant = { Kept };
}

impl Gathered {
    fn new() -> Gathered
        ensures { result ≡ record { lines = []; whole = true } }
    {
        Gathered {
            lines: [Separator { x: 0, y: 0, c: 0 }; 3],
            count: 0,
            whole: true,
        }
    }

    // Where a line stands among those gathered; their count where it is none of them.
    fn index_of(&self, s: Separator) -> usize
        ensures place { result ≡ separator_index self.now.lines s }
        ensures few { result ≤ 3 }
    {
        self.lines[..self.count]
            .iter()
            .position(|t| *t == s)
            .unwrap_or(self.count)
    }

    // One line more, if it is not among those gathered.
    fn add(&mut self, s: Separator)
        requires { length self.old.lines < 3 }
        ensures { self.new ≡ record { lines = with_separator self.old.lines s; whole = self.old.whole } }
    {
        if self.index_of(s) == self.count {
            self.lines[self.count] = s;
            self.count += 1;
        }
    }

    // A set was met that no edge splits.
    fn mark_stuck(&mut self)
        ensures { self.new ≡ record { lines = self.old.lines; whole = false } }
    {
        self.whole = false;
    }

    // The lines, those unused zero.
    fn lines(&self) -> [Separator; 3]
        ensures { result ≡ three_of self.now.lines }
    {
        self.lines
    }

    fn is_whole(&self) -> bool
        ensures { result ≡ self.now.whole }
    {
        self.whole
    }
}

// The lines that split a set and the smaller sets it is split into, after those gathered before.
fn gather(group: &Group, found: &mut Gathered)
    requires { length found.old.lines + length (members group.now) ≤ 4 }
    ensures { Through (members group.now) found.old found.new }
{
    let n = group.size();
    if n == 0 {
        found.mark_stuck();
        return;
    }
    if n == 1 {
        return;
    }
    let Some(s) = group.first_clean() else {
        found.mark_stuck();
        return;
    };
    found.add(s);
    gather(&group.side(true, s), found);
    gather(&group.side(false, s), found);
}

// Bit i of a pattern.
fn bit(pattern: u8, i: usize) -> bool
    requires { i ≤ 3 }
    ensures { result ≡ eqb (pattern / 2 ^ i % 2) 1 }
{
    (pattern >> i) % 2 == 1
}

// The child of a set that a pattern of sides leads to: bit i is 1 on the side over line i.
fn choose(group: &Group, found: &Gathered, pattern: u8) -> u8
    ensures { Led (members group.now) found.now.lines pattern result }
{
    let n = group.size();
    if n == 0 {
        return 0;
    }
    if n == 1 {
        return group.first_digit();
    }
    let Some(s) = group.first_clean() else {
        return 0;
    };
    let above = bit(pattern, found.index_of(s));
    choose(&group.side(above, s), found, pattern)
}

// The classifier of a state's four children.
pub fn classifier_of(children: [Placed; 4]) -> Classifier
    ensures { result ≡ classifier_of (polygons_of children) }
{
    let all = Group {
        children: &children,
        has: [true; 4],
    };
    let mut found = Gathered::new();
    gather(&all, &mut found);
    Classifier {
        separators: found.lines(),
        choices: array::from_fn(|pattern| choose(&all, &found, pattern as u8)),
        whole: found.is_whole(),
    }
}
