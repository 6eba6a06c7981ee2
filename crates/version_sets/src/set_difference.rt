//! Compares two sets: what is lost, gained and shared, and whether one is a subset of the other,
//! disjoint from it, or equal to it.

ghost use Rattle.std.specs.Prelude.{Err, IfErr, IfOk, false, true, ◌↔◌, ◌≡◌, ◌≢◌, ◌⊎◌};
ghost use Rattle.semver_texts.specs.Versions.{PlainVersion};
ghost use Rattle.version_sets.specs.Combinations.{IsKept, KeepsSome};
ghost use Rattle.version_sets.specs.Comparisons.{LowestIsPreRelease, TellsLowest};
ghost use Rattle.version_sets.specs.VersionSets.{IsIn, same_set};

use crate::boundaries::are_same;
use crate::lowest::lower;
use crate::set_operations::{Combination, OperationError};
use crate::version_set::VersionSet;
use crate::within::First;
use semver_versions::version::Version;
use std::alloc::{AllocError, Global};

/// The difference of an old and a new set, and their intersection, each represented by its lowest
/// version by precedence. None of these has build metadata.
#[derive(Debug, PartialEq, Eq, Drop)]
pub struct Comparison {
    /// The lowest version that is in the old set and not in the new one, or `None` if there is
    /// none.
    pub lost: Option<Version>,
    /// The lowest version that is in the new set and not in the old one, or `None` if there is
    /// none.
    pub gained: Option<Version>,
    /// The lowest version that is in both sets, or `None` if there is none.
    pub shared: Option<Version>,
}

impl VersionSet {
    // Determined by: law result_laws::sets::one_compare.
    /// Compares the set with a new one that is to replace it. It takes time linear in the number of
    /// their boundaries.
    ///
    /// Both sets contain the same versions if and only if nothing is lost or gained.
    ///
    /// It allocates only for the identifiers of pre-releases that it returns.
    ///
    /// # Errors
    ///
    /// `DifferentDigits` if the sets read numeric identifiers differently, and `OutOfMemory` if an
    /// allocation failed.
    pub fn compare(&self, alloc: Global, new: &VersionSet) -> Result<Comparison, OperationError>
        ensures refused { (result ≡ Err OperationError.DifferentDigits)
            ↔ (self.now.digits ≢ new.now.digits) }
        ensures any_meaning { result ≢ Err OperationError.DifferentMeanings }
        ensures lost { IfOk result (λ answer.
            TellsLowest (IsKept Combination.Difference self.now new.now) answer.lost) }
        ensures gained { IfOk result (λ answer.
            TellsLowest (IsKept Combination.Difference new.now self.now) answer.gained) }
        ensures shared { IfOk result (λ answer.
            TellsLowest (IsKept Combination.Intersection self.now new.now) answer.shared) }
        // It can run out of memory only if the lowest version that is lost, gained or shared is a
        // pre-release.
        ensures out_of_memory { result ≡ Err OperationError.OutOfMemory
            → LowestIsPreRelease (IsKept Combination.Difference self.now new.now)
            ⊎ LowestIsPreRelease (IsKept Combination.Difference new.now self.now)
            ⊎ LowestIsPreRelease (IsKept Combination.Intersection self.now new.now) }
    {
        if self.digits != new.digits {
            return Err(OperationError::DifferentDigits);
        }
        Ok(Comparison {
            lost: self.lowest_combined(alloc, Combination::Difference, new)?,
            gained: new.lowest_combined(alloc, Combination::Difference, self)?,
            shared: self.lowest_combined(alloc, Combination::Intersection, new)?,
        })
    }

    /// Returns the lowest version of a combination. `Err` means out of memory.
    fn lowest_combined(
        &self,
        alloc: Global,
        how: Combination,
        other: &VersionSet,
    ) -> Result<Option<Version>, AllocError>
        ensures lowest { IfOk result (TellsLowest (IsKept how self.now other.now)) }
        ensures out_of_memory { IfErr result (λ _.
            LowestIsPreRelease (IsKept how self.now other.now)) }
    {
        let release = how.first(&self.releases, &other.releases);
        let pre_release = how.first(&self.pre_releases, &other.pre_releases);
        lower(alloc, First::at(release), First::at(pre_release))
    }
}

impl VersionSet {
    // Determined by: equation.
    /// Returns whether the set contains no version. It does not allocate.
    #[must_use]
    pub fn is_empty(&self) -> bool
        ensures { (result ≡ true) ↔ ((v : PlainVersion) → ¬ IsIn v self.now) }
    {
        self.releases.is_empty() && self.pre_releases.is_empty()
    }

    // Determined by: equation.
    /// Returns whether every version in this set is in the other, too. It takes time linear in the
    /// number of their boundaries, and does not allocate.
    ///
    /// # Errors
    ///
    /// Only `DifferentDigits`, if the sets read numeric identifiers differently.
    pub fn is_subset(&self, other: &VersionSet) -> Result<bool, OperationError>
        ensures refused { (result ≡ Err OperationError.DifferentDigits)
            ↔ (self.now.digits ≢ other.now.digits) }
        ensures any_meaning { result ≢ Err OperationError.DifferentMeanings }
        ensures no_memory { result ≢ Err OperationError.OutOfMemory }
        ensures subset { IfOk result (λ is. (is ≡ true)
            ↔ ((v : PlainVersion) → IsIn v self.now → IsIn v other.now)) }
        // If it isn't a subset, some version is in this set and not in the other.
        ensures witness { IfOk result (λ is. is ≡ false
            → KeepsSome Combination.Difference self.now other.now) }
    {
        if self.digits != other.digits {
            return Err(OperationError::DifferentDigits);
        }
        Ok(!self.keeps_some(Combination::Difference, other))
    }

    // Determined by: equation.
    /// Returns whether no version is in both sets. It takes time linear in the number of their
    /// boundaries, and does not allocate.
    ///
    /// # Errors
    ///
    /// Only `DifferentDigits`, if the sets read numeric identifiers differently.
    pub fn is_disjoint(&self, other: &VersionSet) -> Result<bool, OperationError>
        ensures refused { (result ≡ Err OperationError.DifferentDigits)
            ↔ (self.now.digits ≢ other.now.digits) }
        ensures any_meaning { result ≢ Err OperationError.DifferentMeanings }
        ensures no_memory { result ≢ Err OperationError.OutOfMemory }
        ensures disjoint { IfOk result (λ is. (is ≡ true)
            ↔ ((v : PlainVersion) → IsIn v self.now → ¬ IsIn v other.now)) }
        // If they aren't disjoint, some version is in both.
        ensures witness { IfOk result (λ is. is ≡ false
            → KeepsSome Combination.Intersection self.now other.now) }
    {
        if self.digits != other.digits {
            return Err(OperationError::DifferentDigits);
        }
        Ok(!self.keeps_some(Combination::Intersection, other))
    }

    /// Returns whether a combination of two sets contains a version.
    fn keeps_some(&self, how: Combination, other: &VersionSet) -> bool
        ensures { (result ≡ true) ↔ KeepsSome how self.now other.now }
    {
        how.keeps_some(&self.releases, &other.releases)
            || how.keeps_some(&self.pre_releases, &other.pre_releases)
    }
}

// Determined by: equation.
impl PartialEq for VersionSet {
    ghost use Rattle.version_sets.specs.VersionSets.{same_set};
    ghost use Rattle.std.specs.Cmp.{partial_equiv_from_equiv};
    ghost use Rattle.version_sets.specs.Steps.SameSets.{sets_equiv};

    ghost eq = { same_set };

    ghost laws = { partial_equiv_from_equiv sets_equiv };

    /// Returns whether both sets read numeric identifiers in the same way, and contain the same
    /// versions. It takes time linear in the number of their boundaries, and does not allocate.
    ///
    /// The sets of `>=1.0.0 <2.0.0 || >=2.0.0 <3.0.0` and of `>=1.0.0 <3.0.0` are equal.
    fn eq(&self, other: &VersionSet) -> bool
        ensures value { result ≡ same_set self.now other.now }
        ensures same_versions { (result ≡ true) ↔ ((self.now.digits ≡ other.now.digits)
            × ((v : PlainVersion) → IsIn v self.now ↔ IsIn v other.now)) }
        ensures one_form { (result ≡ true) ↔ (self.now ≡ other.now) }
    {
        if self.digits != other.digits {
            return false;
        }
        are_same(&self.releases, &other.releases)
            && are_same(&self.pre_releases, &other.pre_releases)
    }
}

impl Eq for VersionSet {
    ghost use Rattle.version_sets.specs.Steps.SameSets.{sets_equiv};

    ghost laws = { sets_equiv };
}
