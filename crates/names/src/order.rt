//! The order of names in a directory.
ghost use Rattle.std.specs.Prelude.{◌≡◌, map};
ghost use Rattle.std.specs.Cmp.Lexicographic.{slice_cmp};
ghost use Rattle.std.specs.Ordering.{nat_cmp};
ghost use Rattle.names.specs.Units.{codes};
ghost use Rattle.names.specs.Keys.{key_of};
ghost use Rattle.names.specs.Order.{order, Ordered};

use crate::folding::Folding;
use crate::utf16::code_points;
use std::cmp::Ordering;

/// How two names compare: the shorter first, by its units; of two of one length, by their folded code points.
pub fn compare_names<F: Folding>(folding: &F, left: &[u16], right: &[u16]) -> Ordering
    ensures { result ≡ order (key_of (F.folds folding.now) left.now) (key_of (F.folds folding.now) right.now) }
{
    left.len()
        .cmp(&right.len())
        .then_with(|| compare_folded(folding, left, right))
}

fn compare_folded<F: Folding>(folding: &F, left: &[u16], right: &[u16]) -> Ordering
    ensures { result ≡ slice_cmp nat_cmp (map (F.folds folding.now) (codes left.now)) (map (F.folds folding.now) (codes right.now)) }
{
    // No `cmp` of two mapped iterators: where it was timed, it took up to twice as long.
    let mut others = code_points(right);
    for x in code_points(left) {
        let Some(y) = others.next() else {
            return Ordering::Greater;
        };
        match folding.fold(x).cmp(&folding.fold(y)) {
            Ordering::Equal => {}
            other => return other,
        }
    }
    match others.next() {
        Some(_) => Ordering::Less,
        None => Ordering::Equal,
    }
}

/// States that names are totally ordered by `compare_names`, for proofs to call; it does nothing.
pub fn names_are_ordered<F: Folding>(folding: &F)
    ensures { Ordered (F.folds folding.now) }
{}
