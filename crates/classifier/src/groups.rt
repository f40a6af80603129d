// Sets of children, and the first edge of theirs that splits a set cleanly: each child is on one side
// of it, and there are some on either.
ghost use Rattle.std.specs.Prelude.{◌≡◌, ◌<◌, length};
ghost use Rattle.classifier.specs.Splits.{edges, all_edges, polygons_on, all_under, clean, first_clean};
ghost use Rattle.classifier.specs.Shapes.{placed_corners};
ghost use Rattle.classifier.specs.Inside.Sets.{stays, members, first_digit};

use crate::{Placed, Separator};
use std::array;

// A set of a state's four children: which of them it has.
// Stays flags beside the children: every set is of the same four, which it borrows.
#[derive(Clone, Copy)]
pub(crate) struct Group<'a> {
    pub children: &'a [Placed; 4],
    pub has: [bool; 4],
}

impl<'a> Group<'a> {
    // Whether the child of a digit is of the set, and on that side of the line.
    fn stays(&self, above: bool, s: Separator, d: usize) -> bool
        requires { d < 4 }
        ensures { result ≡ stays above s self.now.children.now self.now.has d }
    {
        self.has[d] && self.children[d].is_over(s) == above
    }

    // The children that are over the line, or those that are not.
    pub(crate) fn side(&self, above: bool, s: Separator) -> Group<'a>
        ensures { members result ≡ polygons_on above s (members self.now) }
    {
        Group {
            children: self.children,
            has: array::from_fn(|d| self.stays(above, s, d)),
        }
    }

    // How many children it has.
    pub(crate) fn size(&self) -> usize
        ensures { result ≡ length (members self.now) }
    {
        self.has.iter().filter(|has| **has).count()
    }

    // The digit of its first child.
    pub(crate) fn first_digit(&self) -> u8
        ensures { result ≡ first_digit (members self.now) }
    {
        self.has.iter().position(|has| *has).map_or(0, |d| d as u8)
    }

    fn all_under(&self, s: Separator) -> bool
        ensures { result ≡ all_under s (members self.now) }
    {
        self.has
            .iter()
            .zip(self.children)
            .all(|(has, g)| !*has || g.is_under(s))
    }

    // Whether each child is on one side of the line, and some are on either.
    fn is_clean(&self, s: Separator) -> bool
        ensures { result ≡ clean (members self.now) s }
    {
        let under = self.side(false, s);
        under.all_under(s) && self.side(true, s).size() != 0 && under.size() != 0
    }

    // The first edge of one footprint that splits the set.
    fn clean_edge(&self, g: &Placed) -> Option<Separator>
        ensures { result ≡ first_clean (members self.now) (edges (placed_corners g.now)) }
    {
        (0..g.corner_count())
            .map(|i| g.edge(i))
            .find(|s| self.is_clean(*s))
    }

    // The first edge of its footprints that splits the set.
    pub(crate) fn first_clean(&self) -> Option<Separator>
        ensures { result ≡ first_clean (members self.now) (all_edges (members self.now)) }
    {
        for (d, g) in self.children.iter().enumerate() {
            if self.has[d] {
                if let Some(s) = self.clean_edge(g) {
                    return Some(s);
                }
            }
        }
        None
    }
}
