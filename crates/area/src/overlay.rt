// Two areas that an operation is to be done on: the tests by which two lists are areas.
ghost use Rattle.std.specs.Prelude.{◌≡◌, min, IfOk};
ghost use Rattle.fold.specs.Unfolds.{passes, passed_by};

use crate::operation::Operation;
use fold::pairs::{Cells, Fault};
use triple::Triple;

// An operation and two areas: lists of pairs that have passed their tests at the greatest resolution.
#[derive(Clone, Copy)]
pub(crate) struct Overlay<'a> {
    pub operation: Operation,
    pub a: &'a [u64],
    pub b: &'a [u64],
    pub ghost first: { passes 30 a.now ≡ 3 },
    pub ghost second: { passes 30 b.now ≡ 3 },
}

impl<'a> Overlay<'a> {
    // The two areas, or the first of the tests that one of the lists fails.
    pub(crate) fn read(
        operation: Operation,
        a: &'a [u64],
        b: &'a [u64],
    ) -> Result<Overlay<'a>, Fault>
        ensures passed { passed_by result ≡ min (passes 30 a.now) (passes 30 b.now) }
        ensures same { IfOk result (λ x. (x.operation ≡ operation) × (x.a.now ≡ a.now) × (x.b.now ≡ b.now)) }
    {
        match (
            Cells::read(Triple::GREATEST_RESOLUTION, a),
            Cells::read(Triple::GREATEST_RESOLUTION, b),
        ) {
            (Ok(_), Ok(_)) => Ok(Overlay { operation, a, b }),
            (Err(e), Err(f)) => Err(e.min(f)),
            (Err(e), Ok(_)) => Err(e),
            (Ok(_), Err(f)) => Err(f),
        }
    }
}
