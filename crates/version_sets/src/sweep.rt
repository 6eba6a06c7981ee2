//! Goes through two lists of boundaries together, from the lowest to the highest.

ghost use Rattle.std.specs.Prelude.{◌≡◌, false, map};
ghost use Rattle.std.specs.Iterator.{YieldsFirstBy, item_count};
ghost use Rattle.semver_texts.specs.Precedence.{precedence};
ghost use Rattle.version_sets.specs.Steps.Sweeps.{sweep};
ghost use Rattle.version_sets.specs.Steps.SweepViews.{piece_value, pieces_left};

use crate::boundary::Boundary;
use std::cmp::Ordering;

/// The versions between one boundary and the next boundary of either list.
#[derive(Drop)]
pub(crate) struct Piece<'a, T> {
    /// The boundary at the beginning of the piece.
    pub from: &'a T,
    /// Whether the piece is in the first set.
    pub in_first: bool,
    /// Whether the piece is in the second set.
    pub in_second: bool,
}

/// The rest of two lists of boundaries, and whether the versions right below it are in the two
/// sets.
#[derive(Drop)]
pub(crate) struct Sweep<'a, T> {
    first: &'a [T],
    second: &'a [T],
    in_first: bool,
    in_second: bool,
}

impl<'a, T: Boundary> Sweep<'a, T> {
    /// Returns the pieces of two sets, which are given by their increasing boundaries. For the
    /// boundaries 1, 3 and 2, 3 the pieces are: from 1 only in the first, from 2 in both, from 3 in
    /// neither.
    pub(crate) fn over(first: &'a [T], second: &'a [T]) -> Sweep<'a, T>
        ensures { pieces_left T.place result ≡ sweep precedence (map T.place first.now)
            false false (map T.place second.now) }
    {
        Sweep {
            first,
            second,
            in_first: false,
            in_second: false,
        }
    }
}

impl<'a, T: Boundary> Iterator for Sweep<'a, T> {
    type Item = Piece<'a, T>;

    ghost next_gives = { YieldsFirstBy (piece_value T.place) (pieces_left T.place) };

    ghost remaining = { item_count (pieces_left T.place) };

    #[inline(always)]
    fn next(&mut self) -> Option<Piece<'a, T>> {
        let (from, turns) = match (self.first.first(), self.second.first()) {
            (None, None) => return None,
            (Some(a), None) => (a, Ordering::Less),
            (None, Some(b)) => (b, Ordering::Greater),
            (Some(a), Some(b)) => match a.compare(b) {
                Ordering::Greater => (b, Ordering::Greater),
                turns => (a, turns),
            },
        };
        if turns.is_le() {
            self.first = &self.first[1..];
            self.in_first = !self.in_first;
        }
        if turns.is_ge() {
            self.second = &self.second[1..];
            self.in_second = !self.in_second;
        }
        Some(Piece {
            from,
            in_first: self.in_first,
            in_second: self.in_second,
        })
    }
}
