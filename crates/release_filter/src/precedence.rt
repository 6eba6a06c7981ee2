//! Compares a version with the version of a comparator by precedence (SemVer 2.0.0, section 11).

ghost use Rattle.std.specs.Prelude.{◌≡◌};
ghost use Rattle.semver_texts.specs.Precedence.{precedence};
ghost use Rattle.semver_ranges.specs.RangeViews.{comparator_of};
ghost use Rattle.semver_texts.specs.VersionViews.{version_value};

use semver_ranges::Comparator;
use semver_texts::precedence;
use semver_versions::version::Version;
use std::cmp::Ordering;

/// Compares a version with that of a comparator: first the three numbers, and if these are equal,
/// the pre-releases.
#[inline(always)]
pub fn compare(version: &Version, comparator: &Comparator) -> Ordering
    ensures { result ≡ precedence (version_value version.now).plain
        (comparator_of comparator.now).version }
{
    precedence::compare(
        (version.major, version.minor, version.patch),
        version.pre.as_slice(),
        (comparator.major, comparator.minor, comparator.patch),
        comparator.pre.as_slice(),
    )
}
