// A run of positions cut from its front: the largest cell that begins there.
ghost use Rattle.std.specs.Prelude.{◌^◌, ◌<◌, ◌≤◌};
ghost use Rattle.area.specs.Inside.Cursors.{Fits};

// How far above resolution 30 the largest cell stands that begins at lo and ends at hi or before: lo is a
// multiple of its size, a power of four, and there are as many positions from lo to hi.
pub(crate) fn level(lo: u64, hi: u64) -> u8
    requires { (lo < hi) × (hi ≤ 4 ^ 30) }
    ensures { Fits lo hi result }
{
    let even = lo.trailing_zeros() / 2;
    let wide = (hi - lo).ilog2() / 2;
    even.min(wide) as u8
}
