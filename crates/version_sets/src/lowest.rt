//! The lowest version of a set.

ghost use Rattle.std.specs.Prelude.{◌≡◌, ◌↔◌, None, Some, [], IfOk, IfErr, IfSome};
ghost use Rattle.std.specs.Prelude.{false, option_map, true};
ghost use Rattle.semver_texts.specs.Digits.{plain_kept};
ghost use Rattle.semver_texts.specs.Versions.{PlainVersion, without_build as unbuilt};
ghost use Rattle.semver_texts.specs.VersionViews.{version_value};
ghost use Rattle.version_sets.specs.Printable.{IsPrintable};
ghost use Rattle.version_sets.specs.Releases.{release_value};
ghost use Rattle.version_sets.specs.VersionSets.{Fits, IsRelease, IsPreRelease};
ghost use Rattle.version_sets.specs.VersionSets.{IsLowest, IsWithin, HasNone};
ghost use Rattle.version_sets.specs.Steps.Within.{first_value};
ghost use Rattle.version_sets.specs.Steps.Lower.{is_below, lower};
ghost use Rattle.semver_versions.specs.ReadVersions.{read_plain};
ghost use Rattle.semver_versions.specs.VersionRefs.{HasPartTexts};

use crate::release::Release;
use crate::version_set::VersionSet;
use crate::within::{First, first_inside};
use semver_versions::read_version::ReadVersion;
use semver_versions::version::Version;
use std::alloc::{AllocError, Global};

impl VersionSet {
    // Determined by: law result_laws::sets::one_lowest.
    /// Returns the lowest version in the set by precedence, without build metadata, or `None` if
    /// and only if the set is empty.
    ///
    /// It allocates only if the result is a pre-release. `Err` means out of memory.
    pub fn lowest(&self, alloc: Global) -> Result<Option<Version>, AllocError>
        // A `Version` keeps a number of 2^64 or more as a string.
        ensures lowest { IfOk result (λ lowest. IfSome lowest (λ version. (v : PlainVersion)
            × IsLowest Fits self.now v × ((version_value version).plain ≡ plain_kept v))) }
        ensures no_build { IfOk result (λ lowest. IfSome lowest (λ version.
            (version_value version).build ≡ [])) }
        ensures none { IfOk result (λ lowest. (lowest ≡ None) ↔ HasNone Fits self.now) }
        // It can run out of memory only if the lowest version is a pre-release.
        ensures out_of_memory { IfErr result (λ _. (v : PlainVersion)
            × IsLowest Fits self.now v × IsPreRelease v) }
    {
        let release = First::at(self.releases.first());
        lower(alloc, release, First::at(self.pre_releases.first()))
    }

    // Determined by: law result_laws::sets::one_lowest_within.
    /// Returns the lowest version in the set by precedence whose three numbers are at most `most`,
    /// without build metadata, or `None` if and only if the set has no such version.
    ///
    /// It takes time linear in the number of boundaries, and allocates only if the result is a
    /// pre-release. `Err` means out of memory.
    pub fn lowest_within(&self, alloc: Global, most: u64) -> Result<Option<Version>, AllocError>
        // A `Version` keeps a number of 2^64 or more as a string.
        ensures lowest { IfOk result (λ lowest. IfSome lowest (λ version. (v : PlainVersion)
            × IsLowest (IsWithin most) self.now v
            × ((version_value version).plain ≡ plain_kept v))) }
        ensures no_build { IfOk result (λ lowest. IfSome lowest (λ version.
            (version_value version).build ≡ [])) }
        ensures none { IfOk result (λ lowest.
            (lowest ≡ None) ↔ HasNone (IsWithin most) self.now) }
        // If the set was read from a string, its pre-release can be written in one.
        ensures parts { IsPrintable self.now → IfOk result (λ lowest. IfSome lowest (λ version.
            HasPartTexts (version_value version).plain)) }
        // It can run out of memory only if that version is a pre-release.
        ensures out_of_memory { IfErr result (λ _. (v : PlainVersion)
            × IsLowest (IsWithin most) self.now v × IsPreRelease v) }
    {
        let release = first_inside(&self.releases, most);
        lower(alloc, release, first_inside(&self.pre_releases, most))
    }

    // Determined by: law result_laws::sets::one_lowest_release.
    /// Returns the lowest release in the set by precedence, or `None` if and only if the set
    /// contains no release. It does not allocate.
    pub fn lowest_release(&self) -> Option<Release>
        ensures lowest { IfSome result (λ release.
            IsLowest IsRelease self.now (release_value release)) }
        ensures none { (result ≡ None) ↔ HasNone IsRelease self.now }
    {
        self.releases.first().copied()
    }
}

/// Returns the lower of a release and a pre-release, or the only one that is given, without build
/// metadata. It allocates only if the result is the pre-release. `Err` means out of memory.
pub(crate) fn lower(
    alloc: Global,
    release: Option<First<'_, Release>>,
    pre_release: Option<First<'_, ReadVersion>>,
) -> Result<Option<Version>, AllocError>
    ensures lowest { IfOk result (λ lowest. option_map version_value lowest
        ≡ option_map (λ v. unbuilt (plain_kept v))
        (lower (option_map (first_value true release_value) release.entry)
        (option_map (first_value false read_plain) pre_release.entry))) }
    ensures out_of_memory { IfErr result (λ _. (p : PlainVersion)
        × (option_map (first_value false read_plain) pre_release.entry ≡ Some p)
        × (lower (option_map (first_value true release_value) release.entry)
        (option_map (first_value false read_plain) pre_release.entry) ≡ Some p)) }
{
    let Some(pre_release) = pre_release else {
        return Ok(as_version(alloc, &release));
    };
    if is_above(&pre_release, &release) {
        return Ok(as_version(alloc, &release));
    }
    Ok(Some(pre_release.version(alloc)?))
}

/// Returns whether a pre-release is above a release, if one is given.
fn is_above(pre_release: &First<'_, ReadVersion>, release: &Option<First<'_, Release>>) -> bool
    ensures { result ≡ is_below (option_map (first_value true release_value) release.now)
        (first_value false read_plain pre_release.now) }
{
    match release {
        Some(release) => pre_release.is_above(&release.numbers),
        None => false,
    }
}

/// Returns a release as a version, if one is given.
fn as_version(alloc: Global, release: &Option<First<'_, Release>>) -> Option<Version>
    ensures { option_map version_value result
        ≡ option_map unbuilt (option_map (first_value true release_value) release.now) }
{
    match release {
        Some(release) => Some(release.numbers.version(alloc)),
        None => None,
    }
}
