// Whether a table can be read, whoever wrote it: every entry of the stated states that a walk could meet
// is tested, whether or not this one would.
ghost use Rattle.std.specs.Prelude.{◌≡◌, ◌+◌, ◌*◌, ◌≤◌, length};
ghost use Rattle.tables.specs.Descent.{entry, child_at, flavor_at, readable_child, readable_size, readable_flavor, all_below, readable_state, good_table};

fn is_readable_child(entry: i32, states: usize) -> bool
    requires { states ≤ 32 }
    ensures { result ≡ readable_child states entry }
{
    entry >= 0 && entry < states as i32
}

fn is_readable_size(entry: i32) -> bool
    ensures { result ≡ readable_size entry }
{
    entry >= -4096 && entry <= 4096
}

fn is_readable_flavor(entry: i32) -> bool
    ensures { result ≡ readable_flavor entry }
{
    entry >= 0 && entry <= 3
}

// The tests of a state look at its own part of the table, and at its first numbers alone.
fn readable_state(part: &[i32], states: usize) -> bool
    requires { (states ≤ 32) × (24 ≤ length part.now) }
    ensures { result ≡ readable_state part.now states 0 }
{
    part[..4].iter().all(|e| is_readable_child(*e, states))
        && part[4..20].iter().all(|e| is_readable_size(*e))
        && part[20..24].iter().all(|e| is_readable_flavor(*e))
}

fn readable_states(table: &[i32], states: usize) -> bool
    requires { (states ≤ 32) × (41 * states ≤ length table.now) }
    ensures { result ≡ all_below (readable_state table.now states) states }
{
    (0..states).all(|k| readable_state(&table[41 * k..], states))
}

pub(crate) fn is_good_table(table: &[i32], states: usize, token: usize) -> bool
    requires { 41 * states ≤ length table.now }
    ensures { result ≡ good_table table.now states token }
{
    states >= 4
        && states <= 32
        && states % 4 == 0
        && token < states / 2
        && readable_states(table, states)
}
