//! Sets of versions, and which versions are in them.

ghost use Rattle.std.specs.Prelude.{◌≡◌, ◌&&◌, IfOk, false, length, map, not, true};
ghost use Rattle.std.specs.List.{AllByRecursion};
ghost use Rattle.semver_texts.specs.Digits.{plain_by};
ghost use Rattle.semver_texts.specs.Texts.{Text, is_empty};
ghost use Rattle.semver_texts.specs.Versions.{PlainVersion, VersionValue};
ghost use Rattle.semver_texts.specs.VersionGrammar.{SpellsVersion};
ghost use Rattle.semver_texts.specs.VersionViews.{version_value};
ghost use Rattle.semver_versions.specs.VersionRefs.{IsVersionRefOf, kept_version_of};
ghost use Rattle.version_sets.specs.Printable.{IsPrintable};
ghost use Rattle.version_sets.specs.Releases.{release_value};
ghost use Rattle.version_sets.specs.VersionSets.{contains, contains_kept, Fits, IsNormal};
ghost use Rattle.version_sets.specs.Steps.Places.{set_of};

use crate::conjunction::{Conjunction, Ranges};
use crate::release::Release;
use crate::{batch, boundaries};
use semver_texts::grammar::Digits;
use semver_versions::laws;
use semver_versions::read_version::ReadVersion;
use semver_versions::version::{Version, VersionRef};
use std::alloc::{AllocError, Global};
use std::marker::Model;

/// A set of versions in a normal form: one list of boundaries for releases and one for
/// pre-releases, each in ascending order of precedence (SemVer 2.0.0, section 11). A version is in
/// the set if and only if an odd number of the boundaries of its kind are at or below it. Its build
/// metadata is ignored.
///
/// A set also knows what a numeric identifier above 2^64 - 1 is: a number, as in the dialects of
/// Cargo and npm, or a string, as in those of the crate `semver-parser`. Sets that differ in this
/// can't be combined or compared.
///
/// The releases of `>=1.2.0 <2.0.0 || 3.1.4` have the boundaries 1.2.0, 2.0.0, 3.1.4 and 3.1.5.
#[derive(Debug, Drop)]
pub struct VersionSet {
    /// The boundaries of the releases.
    pub(crate) releases: Vec<Release>,
    /// The boundaries of the pre-releases. Each has a pre-release.
    pub(crate) pre_releases: Vec<ReadVersion>,
    /// How numeric identifiers are read.
    pub(crate) digits: Digits,
}

impl Model for VersionSet {
    ghost use Rattle.version_sets.specs.VersionSets.{SetValue, IsNormal};
    ghost use Rattle.version_sets.specs.Steps.Places.{set_of};

    ghost Value = { SetValue };

    ghost view = { λ s. set_of s.digits s.releases.items s.pre_releases.items };

    ghost invariant = { λ s. IsNormal (set_of s.digits s.releases.items s.pre_releases.items) };
}

impl VersionSet {
    // Determined by: law result_laws::sets::one_empty.
    /// Returns the empty set, for versions whose numeric identifiers are read as `digits` says. It
    /// does not allocate.
    #[must_use]
    pub fn empty(alloc: Global, digits: Digits) -> VersionSet
        ensures empty { (v : PlainVersion) → contains result v ≡ false }
        ensures printable { IsPrintable result }
        ensures digits { result.digits ≡ digits }
    {
        VersionSet::of_boundaries(digits, Vec::new(alloc), Vec::new(alloc))
    }

    // Determined by: law result_laws::sets::one_all.
    /// Returns the set of all versions, whose numeric identifiers are read as `digits` says. `Err`
    /// means out of memory.
    pub fn all(alloc: Global, digits: Digits) -> Result<VersionSet, AllocError>
        ensures all { IfOk result (λ set. (v : PlainVersion) → Fits v → contains set v ≡ true) }
        ensures printable { IfOk result IsPrintable }
        ensures digits { IfOk result (λ set. set.digits ≡ digits) }
    {
        let all = Conjunction::new();
        let mut ranges = Ranges::new(alloc);
        ranges.push_pre_releases(&all)?;
        ranges.into_set(alloc, &all, digits)
    }

    /// Returns the set with these boundaries, which are in the normal form. It does not allocate.
    pub(crate) fn of_boundaries(
        digits: Digits,
        releases: Vec<Release>,
        pre_releases: Vec<ReadVersion>,
    ) -> VersionSet
        requires { IsNormal (set_of digits releases.items pre_releases.items) }
        ensures { result ≡ set_of digits releases.items pre_releases.items }
    {
        VersionSet {
            releases,
            pre_releases,
            digits,
        }
    }

    // Determined by: equation.
    /// Returns how a numeric identifier above 2^64 - 1 is read, in the versions of the set.
    #[must_use]
    pub fn digits(&self) -> Digits
        ensures { result ≡ self.now.digits }
    {
        self.digits
    }

    // Determined by: law result_laws::sets::one_only_releases.
    /// Returns the releases of the set. It does not allocate.
    #[must_use]
    pub fn only_releases(self, alloc: Global) -> VersionSet
        ensures releases { (v : PlainVersion) → contains result v
            ≡ (is_empty v.pre && contains self v) }
        ensures printable { IsPrintable result }
        ensures digits { result.digits ≡ self.digits }
    {
        VersionSet::of_boundaries(self.digits, self.releases, Vec::new(alloc))
    }

    // Determined by: law result_laws::sets::one_only_pre_releases.
    /// Returns the pre-releases of the set. It does not allocate.
    #[must_use]
    pub fn only_pre_releases(self, alloc: Global) -> VersionSet
        ensures pre_releases { (v : PlainVersion) → contains result v
            ≡ (not (is_empty v.pre) && contains self v) }
        // If identifiers can be parsed back from their strings, so can the result's.
        ensures printable { IsPrintable self → IsPrintable result }
        ensures digits { result.digits ≡ self.digits }
    {
        VersionSet::of_boundaries(self.digits, Vec::new(alloc), self.pre_releases)
    }

    // Determined by: equation.
    /// Returns whether a version is in the set. Its build metadata is ignored. It takes time
    /// logarithmic in the number of boundaries, and does not allocate.
    ///
    /// A `Version` keeps a numeric identifier above 2^64 - 1 as a string; here it is read as the
    /// set reads such identifiers.
    #[must_use]
    pub fn contains(&self, version: &Version) -> bool
        ensures contains { result ≡ contains_kept self.now (version_value version.now).plain }
        // The numbers of a version fit 64 bits.
        ensures fits { Fits (version_value version.now).plain }
    {
        let release = Release::from_version(version);
        let is_release = version.pre.is_empty();
        if self.pre_releases.is_empty() {
            // Evaluates both sides, so the result doesn't depend on a branch.
            return is_release & self.contains_release(release);
        }
        if is_release {
            return self.contains_release(release);
        }
        boundaries::contains_version(&self.pre_releases, version, self.digits)
    }

    // Determined by: equation.
    /// Writes to `answers`, for each version, whether it is in the set, like
    /// [`VersionSet::contains`]. It is faster for many versions: if the set contains no pre-release
    /// and has at most two boundaries of releases, such as the set of `^1.2.0`, no answer depends
    /// on a branch. It does not allocate.
    ///
    /// `answers` must have the same length as `versions`. For 1.1.0, 1.9.0 and 2.0.0 and the set of
    /// `^1.2.0`, the answers are `false`, `true` and `false`.
    pub fn contains_each(&self, versions: &[Version], answers: &mut [bool])
        requires { length answers.old ≡ length versions.now }
        ensures each { answers.new
            ≡ map (λ v. contains_kept self.now (version_value v).plain) versions.now }
        // The numbers of each version fit 64 bits.
        ensures fit { AllByRecursion (λ v. Fits (version_value v).plain) versions.now }
    {
        match self.releases.as_slice() {
            [from] if self.pre_releases.is_empty() => batch::is_release_between(
                *from, None, versions, answers,
            ),
            [from, to] if self.pre_releases.is_empty() => batch::is_release_between(
                *from,
                Some(*to),
                versions,
                answers,
            ),
            _ => batch::contains(self, versions, answers),
        }
    }

    // Determined by: equation.
    /// Returns whether a release is in the set, like [`VersionSet::contains`] for a version.
    #[must_use]
    #[inline(always)]
    pub fn contains_release(&self, release: Release) -> bool
        ensures contains { result ≡ contains self.now (release_value release) }
    {
        boundaries::contains_release(&self.releases, &release)
    }

    // Determined by: equation.
    /// Returns whether a borrowed version is in the set, like [`VersionSet::contains`] for a
    /// version. Its identifiers are compared as they are in the string, and the numeric ones are
    /// read as the set reads them, whatever the dialect of the borrowed version. It does not
    /// allocate.
    #[must_use]
    #[inline(always)]
    pub fn contains_ref(&self, borrowed: &VersionRef<'_>) -> bool
        // The result is that for the version of each string that has this borrowed version.
        ensures contains { (text : Text) (v : VersionValue) → IsVersionRefOf text borrowed.now
            → SpellsVersion v text → result ≡ contains_kept self.now v.plain }
        // It is also that for the version that the borrowed version stands for.
        ensures of_version { result ≡ contains_kept self.now (kept_version_of borrowed.now).plain }
    {
        laws::one_borrowed_version();
        if borrowed.is_pre_release() {
            return boundaries::contains_ref(&self.pre_releases, borrowed, self.digits);
        }
        self.contains_release(Release {
            major: borrowed.major(),
            minor: borrowed.minor(),
            patch: borrowed.patch(),
        })
    }
}
