// Parts of a lent table: so many states from an entry on, 41 numbers each.
ghost use Rattle.std.specs.Prelude.{◌≡◌};
ghost use Rattle.tables.specs.Parts.{is_past};

// Whether a part's start, or its end, is past a table of `size` entries. The room is counted in states: the
// end of a part that is past every number could not be worked out.
pub fn is_past(size: usize, start: usize, states: usize) -> bool
    ensures { result ≡ is_past size start states }
{
    start > size || (size - start) / 41 < states
}
