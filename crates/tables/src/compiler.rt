// The compiler of a grammar's text: its tests, and its table into a part of a lent slice.
ghost use Rattle.std.specs.Prelude.{◌≡◌, ◌++◌, ◌+◌, ◌*◌, ◌/◌, ◌%◌, ◌≤◌, ◌<◌, min, eqb, length, drop, MatchOption};
ghost use Rattle.grammar.specs.Texts.{lines_of};
ghost use Rattle.grammar.specs.Tests.{first};
ghost use Rattle.grammar.specs.Inside.Places.{line_at};
ghost use Rattle.tables.specs.Compiler.{said_compiled, compiled_in, compiled_to, after_compile, table_for};
ghost use Rattle.tables.specs.declared.compiler.CompileError.TheVariants.{Fault as IsFault};
ghost use Rattle.tables.specs.Table.{state_row};
ghost use Rattle.tables.specs.Verdicts.{bad_split};

use crate::accepted::Grammar;
use crate::parts::is_past;
use crate::rows::write_numbers;
use crate::tokens::{source_of, token_of};
use grammar::tests::{Fault, read_text};
use triple::refusal::Refusal;

// Why there is no table: a refusal from 12 to 20 with the number of the line at fault; or that the states'
// part is past the table.
#[derive(Clone, Copy)]
pub enum CompileError {
    Fault(Fault),
    Refused(Refusal),
}

impl From<Fault> for CompileError {
    ghost from_gives = { λ f e. e ≡ IsFault f };

    fn from(f: Fault) -> CompileError {
        CompileError::Fault(f)
    }
}

impl Grammar<'_> {
    // 20: the children of a line's motif, or of its lowercase form, do not split cleanly.
    fn bad_split(&self, i: usize) -> bool
        requires { i < min self.now.source.lines.count 8 }
        ensures { result ≡ bad_split (lines_of self.now.text.now) (line_at self.now.text.now self.now.source.lines i) }
    {
        let source = self.source;
        let b = source.lines.name[i];
        !(self.splits(token_of(source, b)) && self.splits(token_of(source, b + 32)))
    }

    // The number of the first line at fault by 20.
    fn first_unsplit(&self) -> Option<usize>
        ensures { MatchOption result (first (λ _. bad_split (lines_of self.now.text.now)) (lines_of self.now.text.now) ≡ 0) (λ line. (0 < line) × (line ≡ first (λ _. bad_split (lines_of self.now.text.now)) (lines_of self.now.text.now))) }
    {
        for i in 0..self.source.lines.count.min(8) {
            if self.bad_split(i) {
                return Some(i + 1);
            }
        }
        None
    }

    // A state's numbers at the front of its own part of the table.
    #[tactic(auto, using(crate::proofs::StateWriteLaws::writing))]
    fn write_state(&self, state: usize, part: &mut [i32])
        requires { (state < 2 * self.now.source.count) × (41 ≤ length part.old) }
        ensures { part.new ≡ state_row (lines_of self.now.text.now) (state / 2) (eqb (state % 2) 1) ++ drop 41 part.old }
    {
        write_numbers(self.state(state / 2, state % 2 == 1).parts(), part);
    }

    // Each state's numbers into its own part of the table.
    #[tactic(auto, using(crate::proofs::StateWriteLaws::writing))]
    fn write_states(&self, table: &mut [i32])
        requires { 82 * self.now.source.count ≤ length table.old }
        ensures { table.new ≡ table_for self.now.text.now ++ drop (length (table_for self.now.text.now)) table.old }
    {
        for state in 0..2 * self.source.count {
            self.write_state(state, &mut table[41 * state..]);
        }
    }

    // What compiling the text into a table of `size` entries, from `start` on, answers.
    fn judge(&self, size: usize, start: usize) -> Result<usize, CompileError>
        ensures { said_compiled result ≡ compiled_in self.now.text.now size start }
    {
        if let Some(line) = self.first_unsplit() {
            return Err(CompileError::Fault(Fault {
                refusal: Refusal::Split,
                line,
            }));
        }
        let states = 2 * self.source.count;
        if is_past(size, start, states) {
            return Err(CompileError::Refused(Refusal::Part));
        }
        Ok(states)
    }

    // That answer, and the states in their part of the table.
    fn compile(&self, table: &mut [i32], start: usize) -> Result<usize, CompileError>
        ensures { (said_compiled result ≡ compiled_to self.now.text.now table.old start) × (table.new ≡ after_compile self.now.text.now table.old start) }
    {
        let states = self.judge(table.len(), start)?;
        self.write_states(&mut table[start..]);
        Ok(states)
    }
}

// What compiling a grammar's text into a table of `size` entries, from `start` on, would answer. Nothing
// is written.
pub fn judge_grammar(text: &[u8], size: usize, start: usize) -> Result<usize, CompileError>
    ensures { said_compiled result ≡ compiled_in text.now size start }
{
    let read = read_text(text);
    read.answer?;
    let grammar = Grammar {
        text,
        source: source_of(read.lines),
    };
    grammar.judge(size, start)
}

// Tests a grammar's text, and writes its table from entry `start` of what is lent.
pub fn compile_grammar(text: &[u8], table: &mut [i32], start: usize) -> Result<usize, CompileError>
    ensures { (said_compiled result ≡ compiled_to text.now table.old start) × (table.new ≡ after_compile text.now table.old start) }
{
    let read = read_text(text);
    read.answer?;
    let grammar = Grammar {
        text,
        source: source_of(read.lines),
    };
    grammar.compile(table, start)
}
