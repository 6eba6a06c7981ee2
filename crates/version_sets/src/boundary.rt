//! The trait of both kinds of boundaries: they have a position in the order of precedence.

ghost use Rattle.std.specs.Prelude.{◌≡◌, [], Bool, IfOk, option_map};
ghost use Rattle.semver_ranges.specs.RewritingTable.{comparator as plain_comparator};
ghost use Rattle.semver_texts.specs.Versions.{PlainVersion};
ghost use Rattle.semver_texts.specs.Precedence.{precedence};
ghost use Rattle.version_sets.specs.Releases.{release_value};
ghost use Rattle.version_sets.specs.SetRanges.{Kind, is_lowest_pre, is_same_end};
ghost use Rattle.version_sets.specs.Steps.ComparatorRefs.{comparator_value};

use crate::comparators::ComparatorRef;
use crate::release::{Release, next_numbers};
use semver_ranges::Op;
use semver_texts::grammar::Digits;
use std::alloc::{AllocError, Global};
use std::cmp::Ordering;

/// A boundary of a set: from its position on, versions of its kind are in the set, or no longer
/// are.
pub(crate) trait Boundary: Drop {
    ghost place: { Self → PlainVersion };

    ghost are_releases: { Bool };

    ghost kind: { Kind };

    /// Compares two boundaries by precedence.
    fn compare(&self, other: &Self) -> Ordering
        ensures { result ≡ precedence (place self.now) (place other.now) };

    /// Returns a boundary at the same position. `Err` means out of memory.
    fn at_same_place(&self, alloc: Global) -> Result<Self, AllocError>
        ensures { IfOk result (λ boundary. place boundary ≡ place self.now) };

    /// Returns the three numbers of its version.
    fn numbers(&self) -> Release
        ensures { release_value result ≡ record (place self.now) { pre = [] } };

    /// Returns whether its version has no pre-release, or only the lowest, `0`.
    fn has_lowest_pre(&self) -> bool
        ensures { result ≡ is_lowest_pre (place self.now).pre };

    /// Returns whether the boundary's version is the only one of its kind that is at or above it
    /// and below `to`, if `to` is given.
    fn is_alone(&self, to: Option<&Self>) -> bool
        ensures { result ≡ is_same_end (option_map (λ x. Self.place x.now) to.entry)
            (kind.next (Self.place self.now)) };

    /// Returns the comparator with an operator and the boundary's version.
    fn comparator<'a>(&'a self, op: Op) -> ComparatorRef<'a>
        ensures { comparator_value result ≡ plain_comparator op (Self.place self.now) };

    /// Returns the upper comparator of the interval from this boundary up to another.
    fn upper_comparator<'a>(&self, to: &'a Self) -> ComparatorRef<'a>
        ensures { comparator_value result
            ≡ plain_comparator Op.Lt (kind.end (Self.place self.now) (Self.place to.now)) };
}

impl Boundary for Release {
    ghost use Rattle.std.specs.Prelude.{true};
    ghost use Rattle.version_sets.specs.Releases.{release_value};
    ghost use Rattle.version_sets.specs.SetRanges.{of_releases};

    ghost place = { release_value };

    ghost are_releases = { true };

    ghost kind = { of_releases };

    fn compare(&self, other: &Release) -> Ordering {
        self.cmp(other)
    }

    /// Copies the numbers. It does not allocate.
    fn at_same_place(&self, _alloc: Global) -> Result<Release, AllocError> {
        Ok(*self)
    }

    fn numbers(&self) -> Release {
        *self
    }

    fn has_lowest_pre(&self) -> bool {
        true
    }

    fn is_alone(&self, to: Option<&Release>) -> bool {
        match (to, next_numbers(*self)) {
            (Some(to), Some(next)) => to.compare(&next).is_eq(),
            (None, None) => true,
            _ => false,
        }
    }

    fn comparator<'a>(&'a self, op: Op) -> ComparatorRef<'a> {
        ComparatorRef {
            op,
            numbers: *self,
            pre: &[],
            digits: Digits::Kept,
        }
    }

    fn upper_comparator<'a>(&self, to: &'a Release) -> ComparatorRef<'a> {
        to.comparator(Op::Lt)
    }
}
