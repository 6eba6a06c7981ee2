//! Set operations on ranges with the same meaning, comparisons, and hashes.

ghost use Rattle.std.specs.Prelude.{◌≡◌, ◌≢◌, ◌↔◌, Err, IfOk, false, true};
ghost use Rattle.semver_texts.specs.Versions.{PlainVersion};
ghost use Rattle.version_sets.specs.Combinations.{KeepsSome, keeps};
ghost use Rattle.version_sets.specs.Printable.{IsPrintable};
ghost use Rattle.version_sets.specs.VersionSets.{IsIn, contains};

use crate::version_range::VersionRange;
use std::alloc::Global;
use std::hash::{Hash, Hasher};
use version_sets::{Combination, OperationError};

impl VersionRange {
    // Determined by: law result_laws::version_ranges::one_combined.
    /// Returns the union, the intersection or the difference of two ranges with the same meaning.
    ///
    /// # Errors
    ///
    /// `DifferentMeanings` if the ranges differ in their dialects, or in which pre-releases count;
    /// `OutOfMemory` if an allocation failed.
    pub fn combined(
        &self,
        alloc: Global,
        how: Combination,
        other: &VersionRange,
    ) -> Result<VersionRange, OperationError>
        ensures refused { (result ≡ Err OperationError.DifferentMeanings)
            ↔ (self.now.meaning ≢ other.now.meaning) }
        ensures same_digits { result ≢ Err OperationError.DifferentDigits }
        ensures contains { IfOk result (λ r. (v : PlainVersion) → contains r.versions v
            ≡ keeps how (contains self.now.versions v) (contains other.now.versions v)) }
        ensures meaning { IfOk result (λ r. r.meaning ≡ self.now.meaning) }
        // If the identifiers of both can be parsed back from their strings, so can the result's.
        ensures printable { IsPrintable self.now.versions → IsPrintable other.now.versions
            → IfOk result (λ r. IsPrintable r.versions) }
        // It can run out of memory only if the result would contain a version.
        ensures out_of_memory { result ≡ Err OperationError.OutOfMemory
            → KeepsSome how self.now.versions other.now.versions }
    {
        if self.meaning != other.meaning {
            return Err(OperationError::DifferentMeanings);
        }
        let versions = self.versions.combined(alloc, how, &other.versions)?;
        Ok(VersionRange {
            versions,
            meaning: self.meaning,
        })
    }

    // Determined by: equation.
    /// Returns whether the other range contains every version that this one does. Their meanings
    /// may differ. It does not allocate.
    ///
    /// # Errors
    ///
    /// Only `DifferentDigits`, if one range is in a dialect of the crate `semver-parser` and the
    /// other in Cargo's or npm's: a version with a numeric identifier above 2^64 - 1 isn't the same
    /// to both.
    pub fn is_subset_of(&self, other: &VersionRange) -> Result<bool, OperationError>
        ensures refused { (result ≡ Err OperationError.DifferentDigits)
            ↔ (self.now.versions.digits ≢ other.now.versions.digits) }
        ensures any_meaning { result ≢ Err OperationError.DifferentMeanings }
        ensures no_memory { result ≢ Err OperationError.OutOfMemory }
        ensures subset { IfOk result (λ is. (is ≡ true) ↔ ((v : PlainVersion)
            → IsIn v self.now.versions → IsIn v other.now.versions)) }
        // If it isn't a subset, this range contains a version that the other doesn't.
        ensures witness { IfOk result (λ is. is ≡ false
            → KeepsSome Combination.Difference self.now.versions other.now.versions) }
    {
        self.versions.is_subset(&other.versions)
    }

    // Determined by: equation.
    /// Returns whether no version is in both ranges. Their meanings may differ. It does not
    /// allocate.
    ///
    /// # Errors
    ///
    /// The errors of [`VersionRange::is_subset_of`].
    pub fn is_disjoint_from(&self, other: &VersionRange) -> Result<bool, OperationError>
        ensures refused { (result ≡ Err OperationError.DifferentDigits)
            ↔ (self.now.versions.digits ≢ other.now.versions.digits) }
        ensures any_meaning { result ≢ Err OperationError.DifferentMeanings }
        ensures no_memory { result ≢ Err OperationError.OutOfMemory }
        ensures disjoint { IfOk result (λ is. (is ≡ true) ↔ ((v : PlainVersion)
            → IsIn v self.now.versions → ¬ IsIn v other.now.versions)) }
        // If they aren't disjoint, some version is in both.
        ensures witness { IfOk result (λ is. is ≡ false
            → KeepsSome Combination.Intersection self.now.versions other.now.versions) }
    {
        self.versions.is_disjoint(&other.versions)
    }
}

// Determined by: equation.
impl PartialEq for VersionRange {
    ghost use Rattle.std.specs.Cmp.{partial_equiv_from_equiv};
    ghost use Rattle.tool_ranges.specs.VersionRanges.{same_range};
    ghost use Rattle.tool_ranges.specs.Steps.SameRanges.{ranges_equiv};

    ghost eq = { same_range };

    ghost laws = { partial_equiv_from_equiv ranges_equiv };

    /// Returns whether both ranges have the same meaning and contain the same versions. It does not
    /// allocate.
    ///
    /// ```
    /// use semver_parser::{Dialect, VersionRange};
    ///
    /// let range = VersionRange::parse("^1.2", Dialect::Npm)?;
    /// assert!(range == VersionRange::parse(">=1.2.0 <2.0.0-0", Dialect::Npm)?);
    /// assert!(range != VersionRange::parse("^1.2", Dialect::Cargo)?);
    /// # Ok::<(), semver_parser::Error>(())
    /// ```
    fn eq(&self, other: &VersionRange) -> bool
        ensures value { result ≡ same_range self.now other.now }
        ensures same_versions { (result ≡ true) ↔ ((self.now.meaning ≡ other.now.meaning)
            × ((v : PlainVersion) → IsIn v self.now.versions ↔ IsIn v other.now.versions)) }
    {
        self.meaning == other.meaning && self.versions == other.versions
    }
}

impl Eq for VersionRange {
    ghost use Rattle.tool_ranges.specs.Steps.SameRanges.{ranges_equiv};

    ghost laws = { ranges_equiv };
}

impl Hash for VersionRange {
    ghost use Rattle.tool_ranges.specs.HashedRanges.{hashed_range};
    ghost use Rattle.tool_ranges.specs.Steps.HashedRanges.{same_ranges_hash_alike};

    ghost hash_input = { hashed_range };

    ghost respects_eq = { same_ranges_hash_alike };

    /// Hashes the rules, the boundaries of the releases, and the three numbers of each boundary of
    /// the pre-releases.
    fn hash<H: Hasher>(&self, state: &mut H) {
        self.meaning.hash(state);
        self.versions.hash(state);
    }
}
