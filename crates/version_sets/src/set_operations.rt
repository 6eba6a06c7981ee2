//! Union, intersection and difference of sets.

ghost use Rattle.std.specs.Prelude.{Err, IfErr, IfOk, map, option_map, slice_get};
ghost use Rattle.std.specs.Prelude.{true, ◌≡◌, ◌≢◌, ◌↔◌};
ghost use Rattle.semver_texts.specs.Versions.{PlainVersion};
ghost use Rattle.version_sets.specs.Combinations.{KeepsSome, keeps};
ghost use Rattle.version_sets.specs.Printable.{IsPrintable};
ghost use Rattle.version_sets.specs.Steps.Combined.{combined, keeps_some, pieces};
ghost use Rattle.version_sets.specs.VersionSets.{contains};

use crate::boundary::Boundary;
use crate::sweep::Sweep;
use crate::version_set::VersionSet;
use std::alloc::{AllocError, Global};
use thiserror::Error;

/// The error of an operation on two ranges or two sets of versions.
#[derive(Clone, Copy, PartialEq, Eq, Debug, Error)]
#[non_exhaustive]
pub enum OperationError {
    /// The ranges differ in their dialects, or in which pre-releases count. No operation on sets
    /// returns it.
    #[error("the ranges have different meanings")]
    DifferentMeanings,
    /// The dialects read numeric identifiers above 2^64 - 1 differently: to Cargo and npm they are
    /// numbers, and to the crate `semver-parser` they are alphanumerics.
    #[error("the ranges read numbers from 2^64 on differently")]
    DifferentDigits,
    /// An allocation failed.
    #[error("out of memory")]
    OutOfMemory,
}

// Determined by: equation.
impl From<AllocError> for OperationError {
    ghost use Rattle.std.specs.Prelude.{◌≡◌};
    ghost use Rattle.version_sets.specs.declared.set_operations.OperationError.TheVariants as error;

    ghost from_gives = { λ _ e. e ≡ error.OutOfMemory };

    fn from(_error: AllocError) -> OperationError {
        OperationError::OutOfMemory
    }
}

/// How two ranges or two sets of versions are combined.
#[derive(Clone, Copy, PartialEq, Eq, Debug)]
pub enum Combination {
    /// The versions that are in the first or in the second, or in both.
    Union,
    /// The versions that are in both.
    Intersection,
    /// The versions that are in the first and not in the second.
    Difference,
}

impl Combination {
    /// Returns whether a version is in the combination, given whether it is in each set.
    fn keeps(self, in_first: bool, in_second: bool) -> bool
        ensures { result ≡ keeps self in_first in_second }
    {
        match self {
            Combination::Union => in_first || in_second,
            Combination::Intersection => in_first && in_second,
            Combination::Difference => in_first && !in_second,
        }
    }

    /// Returns whether some piece of two sets is in the combination. It does not allocate.
    pub(crate) fn keeps_some<T: Boundary>(self, first: &[T], second: &[T]) -> bool
        ensures { result ≡ keeps_some self
            (pieces (map T.place first.now) (map T.place second.now)) }
    {
        Sweep::over(first, second).any(|piece| self.keeps(piece.in_first, piece.in_second))
    }

    /// Returns the first boundary of the combination: the beginning of the first piece in it. It
    /// does not allocate.
    pub(crate) fn first<'a, T: Boundary>(self, first: &'a [T], second: &'a [T]) -> Option<&'a T>
        ensures { option_map (λ x. T.place x.now) result ≡ slice_get (combined self
            (pieces (map T.place first.entry.now) (map T.place second.entry.now))) 0 }
    {
        for piece in Sweep::over(first, second) {
            if self.keeps(piece.in_first, piece.in_second) {
                return Some(piece.from);
            }
        }
        None
    }

    /// Returns the boundaries of the combination. These are the boundaries at which a version
    /// begins or ceases to be in it. Nothing is allocated if there are none. `Err` means out of
    /// memory.
    pub(crate) fn of<T: Boundary>(
        self,
        alloc: Global,
        first: &[T],
        second: &[T],
    ) -> Result<Vec<T>, AllocError>
        ensures combined { IfOk result (λ boundaries. map T.place boundaries.items
            ≡ combined self (pieces (map T.place first.now) (map T.place second.now))) }
        ensures out_of_memory { IfErr result (λ _. keeps_some self
            (pieces (map T.place first.now) (map T.place second.now)) ≡ true) }
    {
        let mut boundaries = Vec::new(alloc);
        let mut is_kept = false;
        for piece in Sweep::over(first, second) {
            if self.keeps(piece.in_first, piece.in_second) != is_kept {
                boundaries.push(piece.from.at_same_place(alloc)?)?;
                is_kept = !is_kept;
            }
        }
        Ok(boundaries)
    }
}

impl VersionSet {
    // Determined by: law result_laws::sets::one_combined.
    /// Returns the union, the intersection or the difference of two sets. It takes time linear in
    /// the number of their boundaries.
    ///
    /// The result is allocated as it grows, and not at all if it is empty.
    ///
    /// # Errors
    ///
    /// `DifferentDigits` if the sets read numeric identifiers differently, and `OutOfMemory` if an
    /// allocation failed.
    pub fn combined(
        &self,
        alloc: Global,
        how: Combination,
        other: &VersionSet,
    ) -> Result<VersionSet, OperationError>
        ensures refused { (result ≡ Err OperationError.DifferentDigits)
            ↔ (self.now.digits ≢ other.now.digits) }
        ensures any_meaning { result ≢ Err OperationError.DifferentMeanings }
        ensures contains { IfOk result (λ set. (v : PlainVersion)
            → contains set v ≡ keeps how (contains self.now v) (contains other.now v)) }
        ensures digits { IfOk result (λ set. set.digits ≡ self.now.digits) }
        // If the identifiers of both can be parsed back from their strings, so can the result's.
        ensures printable { IsPrintable self.now → IsPrintable other.now
            → IfOk result IsPrintable }
        // It can run out of memory only if the result would contain a version.
        ensures out_of_memory { result ≡ Err OperationError.OutOfMemory
            → KeepsSome how self.now other.now }
    {
        if self.digits != other.digits {
            return Err(OperationError::DifferentDigits);
        }
        let releases = how.of(alloc, &self.releases, &other.releases)?;
        let pre_releases = how.of(alloc, &self.pre_releases, &other.pre_releases)?;
        Ok(VersionSet::of_boundaries(self.digits, releases, pre_releases))
    }
}
