// The tests of a grammar text by number, 12 to 19, each over all lines before the next.
ghost use Rattle.std.specs.Prelude.{◌≡◌, ◌+◌, ◌<◌, min, take, MatchOption};
ghost use Rattle.grammar.specs.Tests.{first, bad_motif, bad_rule, bad_count, bad_heading, bad_draw, bad_turns, bad_net, line_tests, text_tests, fine};
ghost use Rattle.grammar.specs.Scans.{scan_of};
ghost use Rattle.grammar.specs.TextAnswers.{said_text};
ghost use Rattle.grammar.specs.Inside.Places.{lines_from};
ghost use Rattle.grammar.specs.Inside.Sheets.{lines_in, line_in};
ghost use Rattle.grammar.specs.Inside.LineTests.{test_of};

use crate::lines::{Lines, is_named};
use crate::nets::is_twice;
use crate::scan::{Scan, scan_text};
use crate::sheet::Sheet;
use crate::tally::{draw_word, rule_word};
use crate::word::{word_at, write_back};
use triple::refusal::Refusal;

// A refusal from 12 to 19, with the number from 1 of the line at fault, or 0 of the empty text.
#[derive(Clone, Copy)]
pub struct Fault {
    pub refusal: Refusal,
    pub line: usize,
}

// The lines of a text as its scan keeps them, and what its tests say.
#[derive(Clone, Copy)]
pub struct Reading {
    pub lines: Lines,
    pub answer: Result<(), Fault>,
}

// The tests of a line.
#[derive(Clone, Copy)]
enum Test {
    Motif,
    Rule,
    Count,
    Heading,
    Draw,
    Turns,
    Net,
}

impl Sheet<'_> {
    // 13: not uppercase, one of E S U D T, or the letter of a line before.
    fn bad_motif(&self, i: usize) -> bool
        requires { i < 8 }
        ensures { result ≡ bad_motif (lines_from self.now.text.now self.now.lines i 0) (line_in self.now i) }
    {
        let b = self.lines.name[i];
        !b.is_ascii_uppercase() || b"ESUDT".contains(&b) || is_named(self.lines, i, b)
    }

    // 14: a byte that may not stand in a rule.
    fn bad_rule(&self, i: usize) -> bool
        requires { i < 8 }
        ensures { result ≡ bad_rule (lines_in self.now) (line_in self.now i) }
    {
        !rule_word(self.lines, self.rule(i)).lawful
    }

    // 15: not four children.
    fn bad_count(&self, i: usize) -> bool
        requires { i < 8 }
        ensures { result ≡ bad_count (lines_in self.now) (line_in self.now i) }
    {
        rule_word(self.lines, self.rule(i)).letters != 4
    }

    // 16: a child at a heading other than 0 or 3, in the rule or its reverse.
    fn bad_heading(&self, i: usize) -> bool
        requires { i < 8 }
        ensures { result ≡ bad_heading (lines_in self.now) (line_in self.now i) }
    {
        let rule = self.rule(i);
        let mut back = [0u8; 24];
        write_back(rule, &mut back);
        let back = word_at(&back, 0, rule.len());
        !rule_word(self.lines, rule).upright || !rule_word(self.lines, back).upright
    }

    // 17: a byte that may not stand in a draw, or not one letter.
    fn bad_draw(&self, i: usize) -> bool
        requires { i < 8 }
        ensures { result ≡ bad_draw (line_in self.now i) }
    {
        let t = draw_word(self.draw(i));
        !t.lawful || t.letters != 1
    }

    // 18: the rule or the draw does not end at heading 0.
    fn bad_turns(&self, i: usize) -> bool
        requires { i < 8 }
        ensures { result ≡ bad_turns (lines_in self.now) (line_in self.now i) }
    {
        rule_word(self.lines, self.rule(i)).heading != 0 || draw_word(self.draw(i)).heading != 0
    }

    // 19: the net after two passes is not twice the net after one.
    fn bad_net(&self, i: usize) -> bool
        requires { i < 8 }
        ensures { result ≡ bad_net (lines_in self.now) (line_in self.now i) }
    {
        let motif = [self.lines.name[i]; 1];
        let mut rule = [0u8; 24];
        let word = self.ruled(&motif, &mut rule);
        !is_twice(self.ruled_end(word), self.drawn_end(word))
    }

    // Whether line i is at fault by a test.
    // Stays a match on names: a table of the seven says no more.
    fn is_bad(&self, test: Test, i: usize) -> bool
        requires { i < min self.now.lines.count 8 }
        ensures { result ≡ test_of (lines_in self.now) test (take i (lines_in self.now)) (line_in self.now i) }
    {
        match test {
            Test::Motif => self.bad_motif(i),
            Test::Rule => self.bad_rule(i),
            Test::Count => self.bad_count(i),
            Test::Heading => self.bad_heading(i),
            Test::Draw => self.bad_draw(i),
            Test::Turns => self.bad_turns(i),
            Test::Net => self.bad_net(i),
        }
    }

    // The first line that is at fault by a test.
    fn first_bad(&self, test: Test) -> Option<usize>
        ensures { MatchOption result (first (test_of (lines_in self.now) test) (lines_in self.now) ≡ 0) (λ i. (i < 8) × (first (test_of (lines_in self.now) test) (lines_in self.now) ≡ i + 1)) }
    {
        (0..self.lines.count.min(8)).find(|i| self.is_bad(test, *i))
    }

    // 13 to 19 over the lines.
    fn test(&self) -> Result<(), Fault>
        ensures { said_text result ≡ line_tests (lines_in self.now) fine }
    {
        let tests = [
            (Test::Motif, Refusal::Motif),
            (Test::Rule, Refusal::Rule),
            (Test::Count, Refusal::Children),
            (Test::Heading, Refusal::Heading),
            (Test::Draw, Refusal::Draw),
            (Test::Turns, Refusal::Turns),
            (Test::Net, Refusal::Net),
        ];
        for (test, refusal) in tests {
            if let Some(i) = self.first_bad(test) {
                return Err(Fault {
                    refusal,
                    line: i + 1,
                });
            }
        }
        Ok(())
    }
}

// The tests 12 to 19 of a text that is scanned.
fn test_scan(text: &[u8], found: Scan) -> Result<(), Fault>
    requires { found ≡ scan_of text.now }
    ensures { said_text result ≡ text_tests text.now fine }
{
    if text.is_empty() {
        return Err(Fault {
            refusal: Refusal::Shape,
            line: 0,
        });
    }
    if found.fault != 0 {
        return Err(Fault {
            refusal: Refusal::Shape,
            line: found.fault,
        });
    }
    let lines = found.lines;
    Sheet { text, lines }.test()
}

// A text's lines, and what the tests 12 to 19 say of it: one scan for both.
pub fn read_text(text: &[u8]) -> Reading
    ensures { (result.lines ≡ (scan_of text.now).lines) × (said_text result.answer ≡ text_tests text.now fine) }
{
    let found = scan_text(text);
    let lines = found.lines;
    Reading {
        lines,
        answer: test_scan(text, found),
    }
}

// The tests 12 to 19 of a grammar text.
pub fn test_text(text: &[u8]) -> Result<(), Fault>
    ensures { said_text result ≡ text_tests text.now fine }
{
    read_text(text).answer
}
