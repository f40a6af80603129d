// The operations on two areas: which positions each keeps.
ghost use Rattle.std.specs.Prelude.{◌≡◌};
ghost use Rattle.area.specs.Areas.{kept};

#[derive(Clone, Copy)]
pub enum Operation {
    Union,
    Intersection,
    Difference,
}

// Whether a position is kept, by whether each of the two areas covers it.
pub(crate) fn is_kept(operation: Operation, x: bool, y: bool) -> bool
    ensures { result ≡ kept operation x y }
{
    match operation {
        Operation::Union => x || y,
        Operation::Intersection => x && y,
        Operation::Difference => x && !y,
    }
}
