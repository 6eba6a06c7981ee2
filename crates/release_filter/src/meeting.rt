//! Decides whether a version satisfies a range set, with and without pre-releases.

ghost use Rattle.std.specs.Prelude.{◌≡◌, ◌&&◌};
ghost use Rattle.std.specs.List.{list_all, list_any};
ghost use Rattle.semver_ranges.specs.SatisfiedComparators.{meets_comparator, meets_range};
ghost use Rattle.semver_ranges.specs.SatisfiedComparators.{meets_set};
ghost use Rattle.semver_ranges.specs.RangeViews.{comparator_of, range_of, set_of};
ghost use Rattle.semver_texts.specs.VersionViews.{version_value};
ghost use Rattle.version_sets.specs.PreReleaseRules.{is_release};

use crate::precedence;
use semver_ranges::{Comparator, Op, Range, RangeSet};
use semver_versions::version::Version;

// Determined by: equation.
/// Returns whether a version is a release that satisfies a range set. It must have no pre-release,
/// and it must satisfy all comparators of at least one range by precedence (SemVer 2.0.0, section
/// 11).
///
/// No version satisfies a set without ranges, and every release satisfies a range without
/// comparators. It does not allocate.
///
/// ```
/// use semver_parser::filters::release_meets;
/// use semver_parser::{version, Compat, RangeSet};
///
/// let set = RangeSet::parse("^0.2 || 2.x", Compat::Npm)?;
/// assert!(release_meets(&set, &version::parse("2.5.0")?));
/// assert!(!release_meets(&set, &version::parse("2.0.0-rc")?));
/// assert!(!release_meets(&set, &version::parse("0.3.0")?));
/// # Ok::<(), String>(())
/// ```
pub fn release_meets(set: &RangeSet, version: &Version) -> bool
    ensures meets { result ≡ (is_release (version_value version.now)
        && meets_set (version_value version.now).plain (set_of set.now)) }
{
    version.pre.is_empty() && version_meets(set, version)
}

// Determined by: equation.
/// Returns whether a version, even a pre-release, satisfies a range set. It must satisfy all
/// comparators of at least one range by precedence (SemVer 2.0.0, section 11). Build metadata is
/// ignored.
///
/// A pre-release needs no comparator with its own numbers: `2.0.0-alpha` satisfies `>=1.0.0`, and
/// also `<2.0.0`. No version satisfies a set without ranges, and every version satisfies a range
/// without comparators. It does not allocate.
pub fn version_meets(set: &RangeSet, version: &Version) -> bool
    ensures meets { result ≡ meets_set (version_value version.now).plain (set_of set.now) }
{
    some_range_is_met(&set.ranges, version)
}

/// Returns whether a version satisfies at least one range.
fn some_range_is_met(ranges: &[Range], version: &Version) -> bool
    ensures { result ≡ list_any (λ range. meets_range (version_value version.now).plain
        (range_of range)) ranges.now }
{
    ranges.iter().any(|range| range_is_met(range, version))
}

/// Returns whether a version satisfies all comparators of a range.
fn range_is_met(range: &Range, version: &Version) -> bool
    ensures { result ≡ meets_range (version_value version.now).plain (range_of range.now) }
{
    each_comparator_is_met(&range.comparator_set, version)
}

/// Returns whether a version satisfies all comparators.
fn each_comparator_is_met(comparators: &[Comparator], version: &Version) -> bool
    ensures { result ≡ list_all (λ comparator. meets_comparator (version_value version.now).plain
        (comparator_of comparator)) comparators.now }
{
    comparators
        .iter()
        .all(|comparator| comparator_is_met(comparator, version))
}

/// Returns whether a version satisfies a comparator.
#[inline(always)]
fn comparator_is_met(comparator: &Comparator, version: &Version) -> bool
    ensures { result ≡ meets_comparator (version_value version.now).plain
        (comparator_of comparator.now) }
{
    let ordering = precedence::compare(version, comparator);
    match comparator.op {
        Op::Lt => ordering.is_lt(),
        Op::Lte => ordering.is_le(),
        Op::Gt => ordering.is_gt(),
        Op::Gte => ordering.is_ge(),
        Op::Eq => ordering.is_eq(),
    }
}
