//! Functions that read a range, combine two, or check versions against one.

ghost use Rattle.std.specs.Prelude.{◌≡◌, alloc_error, IfOk, option_map};
ghost use Rattle.semver_parser.specs.VersionViews.{version_value};
ghost use Rattle.result_laws.specs.OneResult.{AreOne, itself};
ghost use Rattle.result_laws.specs.SameSets.{AreAlikeRanges};
ghost use Rattle.version_sets.specs.Printable.{IsPrintable};

use semver_parser::laws::precedence_is_total;
use semver_parser::version::Version;
use semver_ranges::RangeError;
use semver_versions::owned;
use semver_versions::placed::PlacedVersion;
use std::alloc::{AllocError, Global};
use tool_ranges::highest::Extreme;
use tool_ranges::laws::ranges_read_digits;
use tool_ranges::meaning::Rules;
use tool_ranges::satisfying::SatisfiesError;
use tool_ranges::version_range::VersionRange;
use version_sets::laws::{one_set, sets_are_normal};
use version_sets::{Combination, OperationError};

/// Two ranges that were returned are equal if they have the same meaning and contain the same
/// versions. It does nothing.
fn results_are_alike<E>(first: &Result<VersionRange, E>, second: &Result<VersionRange, E>)
    ensures alike { IfOk first.now (λ a. IfOk second.now (AreAlikeRanges a)) }
{
    one_set();
    let Ok(first) = first else {
        return;
    };
    let Ok(second) = second else {
        return;
    };
    sets_are_normal(first.versions());
    sets_are_normal(second.versions());
    ranges_read_digits(first);
    ranges_read_digits(second);
}

/// `VersionRange::parse` has only one permitted result.
pub fn one_range(
    alloc: Global,
    range: &str,
    meaning: Rules,
) -> (
    Result<VersionRange, RangeError>,
    Result<VersionRange, RangeError>,
)
    ensures one { AreOne RangeError.OutOfMemory itself result.0 result.1 }
{
    let first = VersionRange::parse(alloc, range, meaning);
    let second = VersionRange::parse(alloc, range, meaning);
    results_are_alike(&first, &second);
    (first, second)
}

/// `VersionRange::lowest_version` has only one permitted result.
pub fn one_lowest_version(
    alloc: Global,
    range: &VersionRange,
) -> (
    Result<Option<Version>, AllocError>,
    Result<Option<Version>, AllocError>,
)
    ensures one { AreOne alloc_error (option_map version_value) result.0 result.1 }
{
    precedence_is_total();
    (range.lowest_version(alloc), range.lowest_version(alloc))
}

/// `VersionRange::lowest_owned` has only one permitted result.
pub fn one_lowest_owned(
    alloc: Global,
    range: &VersionRange,
) -> (
    Result<Option<owned::Version>, AllocError>,
    Result<Option<owned::Version>, AllocError>,
)
    requires printable { IsPrintable range.now.versions }
    ensures one { AreOne alloc_error itself result.0 result.1 }
{
    precedence_is_total();
    (range.lowest_owned(alloc), range.lowest_owned(alloc))
}

/// `VersionRange::contains_bytes` has only one permitted result.
pub fn one_contains(
    range: &VersionRange,
    version: &[u8],
) -> (Result<bool, SatisfiesError>, Result<bool, SatisfiesError>)
    ensures one { result.0 ≡ result.1 }
{
    semver_versions::laws::one_version_in();
    (range.contains_bytes(version), range.contains_bytes(version))
}

/// `VersionRange::extreme_index` has only one permitted result.
pub fn one_extreme_index(
    range: &VersionRange,
    which: Extreme,
    versions: &[&[u8]],
) -> (Option<usize>, Option<usize>)
    ensures one { result.0 ≡ result.1 }
{
    (
        range.extreme_index(which, versions),
        range.extreme_index(which, versions),
    )
}

/// `VersionRange::member` has only one permitted result.
pub fn one_member(
    range: &VersionRange,
    version: &str,
) -> (Option<PlacedVersion>, Option<PlacedVersion>)
    ensures one { result.0 ≡ result.1 }
{
    semver_versions::laws::one_version_in();
    (range.member(version), range.member(version))
}

/// `VersionRange::combined` has only one permitted result.
pub fn one_combined(
    alloc: Global,
    range: &VersionRange,
    how: Combination,
    other: &VersionRange,
) -> (
    Result<VersionRange, OperationError>,
    Result<VersionRange, OperationError>,
)
    ensures one { AreOne OperationError.OutOfMemory itself result.0 result.1 }
{
    let first = range.combined(alloc, how, other);
    let second = range.combined(alloc, how, other);
    results_are_alike(&first, &second);
    (first, second)
}
