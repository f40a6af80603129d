// Grammars compiled into tables, and descents over them, for callers in C and Rust.
ghost use Rattle.std.specs.Prelude.{◌≡◌, [], ◌+◌, ◌*◌, ◌≤◌, length};
ghost use Rattle.triple.specs.Lent.{status_of, after_call};
ghost use Rattle.capi.specs.Calls.{descend_call, compile_status, table_after, count_after};
ghost use Rattle.triple.specs.Refusals.{number_of};

use crate::put::{put_count, put_drawn};
use tables::compiler::CompileError;
use triple::refusal::Refusal;

// The cell at place s of what a part of a table gives, whoever wrote it, after `passes` passes from a
// token: a b flavor. The part begins at entry `start` and has `states` states.
pub fn hb_descend(
    table: &[i32],
    start: u64,
    states: u64,
    passes: u8,
    token: u64,
    s: u64,
    out: &mut [i64],
) -> u8
    ensures { (result ≡ status_of (descend_call table.now start states passes token s) out.old) × (out.new ≡ after_call (descend_call table.now start states passes token s) out.old) }
{
    let from = start as usize;
    let count = states as usize;
    let answer = descent::descend_table(table, from, count, passes, token as usize, s);
    match answer {
        Ok(c) => put_drawn(c, out),
        Err(e) => e.number(),
    }
}

// Compiles a grammar's text: its table from entry `start` of `table` on, and the number of states to
// `out`. Of a text that is refused, the status has the line at fault in its high byte.
pub fn hb_compile(text: &[u8], table: &mut [i32], start: u64, out: &mut [u64]) -> u16
    ensures { (result ≡ compile_status text.now (length table.old) start out.old) × (table.new ≡ table_after text.now table.old start out.old) × (out.new ≡ count_after text.now (length table.old) start out.old) }
{
    if out.len() < 1 {
        return status_without_place(text, table.len(), start as usize);
    }
    let answer = tables::compiler::compile_grammar(text, table, start as usize);
    match answer {
        Ok(count) => put_count(count, out) as u16,
        Err(e) => match e {
            CompileError::Fault(f) => status_at(f.refusal, f.line),
            CompileError::Refused(e) => e.number() as u16,
        },
    }
}

// The status where the number of states has no place: room is tested last, so that a text or a part at
// fault is refused as such.
fn status_without_place(text: &[u8], size: usize, start: usize) -> u16
    ensures { result ≡ compile_status text.now size start [] }
{
    let answer = tables::compiler::judge_grammar(text, size, start);
    match answer {
        Ok(_) => Refusal::Room.number() as u16,
        Err(e) => match e {
            CompileError::Fault(f) => status_at(f.refusal, f.line),
            CompileError::Refused(e) => e.number() as u16,
        },
    }
}

// A refusal's number in the low byte, the line at fault in the high byte.
fn status_at(e: Refusal, line: usize) -> u16
    requires { line ≤ 9 }
    ensures { result ≡ 256 * line + number_of e }
{
    256 * line as u16 + e.number() as u16
}
