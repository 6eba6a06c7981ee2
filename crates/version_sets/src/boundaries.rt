//! Lists of boundaries: whether a version is inside, and whether two lists are equal.

ghost use Rattle.std.specs.Prelude.{◌≡◌, ◌%◌, map, nat_eq};
ghost use Rattle.std.specs.Ordering.{eq_by_cmp};
ghost use Rattle.std.specs.Cmp.Lexicographic.{pointwise};
ghost use Rattle.semver_texts.specs.Digits.{plain_by};
ghost use Rattle.semver_versions.specs.VersionRefs.{kept_version_of};
ghost use Rattle.semver_texts.specs.Precedence.{precedence};
ghost use Rattle.semver_versions.specs.ReadVersions.{read_plain};
ghost use Rattle.version_sets.specs.Steps.Places.{version_place};
ghost use Rattle.version_sets.specs.Releases.{release_value};
ghost use Rattle.version_sets.specs.Boundaries.{is_inside, IsIncreasing};

use crate::boundary::Boundary;
use crate::release::Release;
use semver_texts::grammar::Digits;
use semver_versions::read_version::ReadVersion;
use semver_versions::version::{Version, VersionRef};

/// Returns whether an odd number of the boundaries are at or below a boundary's version. It takes
/// time logarithmic in their number, and does not allocate.
pub(crate) fn contains<T: Boundary>(boundaries: &[T], place: &T) -> bool
    requires { IsIncreasing precedence (map T.place boundaries.now) }
    ensures { result ≡ is_inside precedence (map T.place boundaries.now) (T.place place.now) }
{
    is_odd(boundaries.partition_point(|boundary| boundary.compare(place).is_le()))
}

/// Returns whether an odd number of the boundaries are at or below a version, whose numeric
/// identifiers are read as `digits` says. It takes time logarithmic in their number, and does not
/// allocate.
pub(crate) fn contains_version(
    boundaries: &[ReadVersion],
    version: &Version,
    digits: Digits,
) -> bool
    requires { IsIncreasing precedence (map read_plain boundaries.now) }
    ensures { result ≡ is_inside precedence (map read_plain boundaries.now)
        (plain_by digits (version_place version.now)) }
{
    is_odd(boundaries.partition_point(|boundary| boundary.compare_version(version, digits).is_le()))
}

/// Up to this number, boundaries of releases are compared one by one, which is faster than a binary
/// search.
const FEW: usize = 8;

/// Returns whether an odd number of the boundaries are at or below a release. It takes time
/// logarithmic in their number, and does not allocate.
#[inline(always)]
pub(crate) fn contains_release(boundaries: &[Release], release: &Release) -> bool
    requires { IsIncreasing precedence (map release_value boundaries.now) }
    ensures { result
        ≡ is_inside precedence (map release_value boundaries.now) (release_value release.now) }
{
    if boundaries.len() > FEW {
        return contains(boundaries, release);
    }
    let mut is_in = false;
    for boundary in boundaries {
        is_in ^= !release.is_below(boundary);
    }
    is_in
}

/// Returns whether an odd number of the boundaries are at or below a borrowed version, whose
/// numeric identifiers are read as `digits` says. It takes time logarithmic in their number, and
/// does not allocate.
#[inline(always)]
pub(crate) fn contains_ref(
    boundaries: &[ReadVersion],
    borrowed: &VersionRef<'_>,
    digits: Digits,
) -> bool
    requires { IsIncreasing precedence (map read_plain boundaries.now) }
    ensures { result ≡ is_inside precedence (map read_plain boundaries.now)
        (plain_by digits (kept_version_of borrowed.now).plain) }
{
    let mut low = 0;
    let mut high = boundaries.len();
    while low < high {
        let middle = low + (high - low) / 2;
        if boundaries[middle].compared_ref(borrowed, digits).is_ge() {
            low = middle + 1;
        } else {
            high = middle;
        }
    }
    is_odd(low)
}

/// Returns whether a number is odd.
fn is_odd(number: usize) -> bool
    ensures { result ≡ nat_eq (number % 2) 1 }
{
    number % 2 == 1
}

/// Returns whether two lists have the same boundaries. It does not allocate.
pub(crate) fn are_same<T: Boundary>(boundaries: &[T], others: &[T]) -> bool
    ensures { result ≡ pointwise (eq_by_cmp precedence) (map T.place boundaries.now)
        (map T.place others.now) }
{
    boundaries.len() == others.len()
        && boundaries
            .iter()
            .zip(others)
            .all(|(boundary, other)| boundary.compare(other).is_eq())
}
