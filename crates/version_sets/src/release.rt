//! Releases: versions without a pre-release and build metadata.

ghost use Rattle.std.specs.Prelude.{◌≡◌, ◌+◌, ◌*◌, ◌<◌, [], option_map};
ghost use Rattle.std.specs.Ordering.{is_lt, is_gt};
ghost use Rattle.semver_texts.specs.Precedence.{precedence};
ghost use Rattle.semver_texts.specs.VersionViews.{version_value};
ghost use Rattle.semver_texts.specs.Versions.{PlainVersion};
ghost use Rattle.version_sets.specs.Releases.{release_value};
ghost use Rattle.version_sets.specs.SetRanges.{next_release};
ghost use Rattle.version_sets.specs.Steps.Numbers.{numbers_cmp, reaches};
ghost use Rattle.version_sets.specs.VersionSets.{Fits};

use semver_versions::version::Version;
use std::alloc::Global;

/// A release: the three numbers of a version. Its derived order is precedence.
#[derive(Clone, Copy, PartialEq, Eq, PartialOrd, Ord, Hash, Debug)]
pub struct Release {
    /// The first number: 1 in 1.2.3.
    pub major: u64,
    /// The second number: 2 in 1.2.3.
    pub minor: u64,
    /// The third number: 3 in 1.2.3.
    pub patch: u64,
}

impl Release {
    // Determined by: equation.
    /// Returns the numbers of a version, without its pre-release and build metadata.
    pub fn from_version(version: &Version) -> Release
        ensures { release_value result
            ≡ record (version_value version.now).plain { pre = [] } }
    {
        Release {
            major: version.major,
            minor: version.minor,
            patch: version.patch,
        }
    }

    // Determined by: equation.
    /// Returns the release as a version, without a pre-release and build metadata. It does not
    /// allocate.
    pub fn version(self, alloc: Global) -> Version
        ensures { version_value result ≡ record { plain = release_value self; build = [] } }
    {
        Version {
            major: self.major,
            minor: self.minor,
            patch: self.patch,
            pre: Vec::new(alloc),
            build: Vec::new(alloc),
        }
    }

    /// Returns whether a release is below another by precedence. The numbers are compared without
    /// branches, for speed.
    #[inline(always)]
    pub(crate) fn is_below(&self, other: &Release) -> bool
        ensures { result ≡ is_lt (precedence (release_value self.now) (release_value other.now)) }
    {
        (self.major < other.major)
            | ((self.major == other.major) & (self.after_major() < other.after_major()))
    }

    /// Returns the second and the third number combined in one integer, which can be compared in
    /// one step.
    #[inline(always)]
    fn after_major(&self) -> u128
        ensures value { result ≡ self.now.minor * 18446744073709551616 + self.now.patch }
        ensures fit { self.now.patch < 18446744073709551616 }
    {
        u128::from(self.minor) * 0x1_0000_0000_0000_0000 + u128::from(self.patch)
    }
}

/// The lowest numbers.
pub(crate) const LOWEST: Release = Release {
    major: 0,
    minor: 0,
    patch: 0,
};

/// Returns the numbers right after the given ones, or `None` after the highest.
pub(crate) fn next_numbers(numbers: Release) -> Option<Release>
    ensures above { (v : PlainVersion) → Fits v
        → reaches result v ≡ is_gt (numbers_cmp v (release_value numbers)) }
    ensures next { option_map release_value result ≡ next_release (release_value numbers) }
{
    let (major, minor) = (numbers.major, numbers.minor);
    if let Some(patch) = numbers.patch.checked_add(1) {
        return Some(Release {
            major,
            minor,
            patch,
        });
    }
    if let Some(minor) = minor.checked_add(1) {
        return Some(Release {
            major,
            minor,
            patch: 0,
        });
    }
    let major = major.checked_add(1)?;
    Some(Release {
        major,
        minor: 0,
        patch: 0,
    })
}
