// Grammars compiled into tables, and descents over them, for callers in C and Rust.
ghost use Rattle.std.specs.Prelude.{◌≡◌, [], ◌+◌, ◌*◌, ◌≤◌, length};
ghost use Rattle.triple.specs.Lent.{status_of, after_call};
ghost use Rattle.capi.specs.Calls.{descend_call, compile_status, table_after, count_after};
ghost use Rattle.triple.specs.Refusals.{number_of};

// The cell at place s of what a part of a table gives, whoever wrote it, after `passes` passes from a
// token: a b flavor. The part begins at entry `start` and has `states` states.
#[unsafe(no_mangle)]
pub extern "C" fn hb_descend(
    table: &[i32],
    start: u64,
    states: u64,
    passes: u8,
    token: u64,
    s: u64,
    out: &mut [i64],
) -> u8
    ensures { (result ≡ status_of (descend_call table.now start states passes token s) out.old) × (out.new ≡ after_call (descend_call table.now start states passes token s) out.old) }
{
    capi::grammars::hb_descend(table, start, states, passes, token, s, out)
}

// Compiles a grammar's text: its table from entry `start` of `table` on, and the number of states to
// `out`. Of a text that is refused, the status has the line at fault in its high byte.
#[unsafe(no_mangle)]
pub extern "C" fn hb_compile(text: &[u8], table: &mut [i32], start: u64, out: &mut [u64]) -> u16
    ensures { (result ≡ compile_status text.now (length table.old) start out.old) × (table.new ≡ table_after text.now table.old start out.old) × (out.new ≡ count_after text.now (length table.old) start out.old) }
{
    capi::grammars::hb_compile(text, table, start, out)
}
