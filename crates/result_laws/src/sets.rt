//! Functions that return a set of versions, or a fact about sets.

ghost use Rattle.std.specs.Prelude.{◌≡◌, alloc_error, IfOk, option_map};
ghost use Rattle.semver_parser.specs.VersionViews.{version_value};
ghost use Rattle.semver_parser.specs.VersionRefs.{version_of};
ghost use Rattle.version_sets.specs.VersionSets.{Fits};
ghost use Rattle.result_laws.specs.OneResult.{AreOne, itself};
ghost use Rattle.result_laws.specs.SameSets.{AreAlike, comparison_value};

use semver_parser::version::{Version, VersionRef};
use semver_parser::{RangeError, laws};
use semver_texts::grammar::Digits;
use std::alloc::{AllocError, Global};
use tool_ranges::meaning::{self, Rules};
use version_sets::laws::{one_set, sets_are_normal};
use version_sets::{Combination, Comparison, OperationError, Release, VersionSet};

/// Two results of a function that reads a range, for the same inputs.
type Read = (
    Result<VersionSet, RangeError>,
    Result<VersionSet, RangeError>,
);

/// Two sets are equal if they read numeric identifiers in the same way and contain the same
/// versions. It does nothing.
fn are_alike(first: &VersionSet, second: &VersionSet)
    ensures alike { AreAlike first.now second.now }
{
    one_set();
    sets_are_normal(first);
    sets_are_normal(second);
}

/// The same law for two sets that were returned. It does nothing.
fn results_are_alike<E>(first: &Result<VersionSet, E>, second: &Result<VersionSet, E>)
    ensures alike { IfOk first.now (λ a. IfOk second.now (AreAlike a)) }
{
    let Ok(first) = first else {
        return;
    };
    let Ok(second) = second else {
        return;
    };
    are_alike(first, second);
}

/// `meaning::read` has only one permitted result.
pub fn one_read(alloc: Global, meaning: Rules, range: &str) -> Read
    ensures one { AreOne RangeError.OutOfMemory itself result.0 result.1 }
{
    let first = meaning::read(alloc, meaning, range);
    let second = meaning::read(alloc, meaning, range);
    results_are_alike(&first, &second);
    (first, second)
}

/// `meaning::satisfies` has only one permitted result.
pub fn one_satisfies(
    version: &VersionRef<'_>,
    range: &str,
    meaning: Rules,
) -> (Result<bool, RangeError>, Result<bool, RangeError>)
    ensures one { result.0 ≡ result.1 }
{
    (
        meaning::satisfies(version, range, meaning),
        meaning::satisfies(version, range, meaning),
    )
}

/// `meaning::satisfies` returns whether the set of the range contains the version, whose numeric
/// identifiers are read as in the dialect.
pub fn satisfies_as_the_set(
    alloc: Global,
    version: &VersionRef<'_>,
    range: &str,
    meaning: Rules,
) -> (Result<bool, RangeError>, Result<bool, RangeError>)
    ensures same { AreOne RangeError.OutOfMemory itself result.0 result.1 }
{
    semver_versions::laws::numbers_of_refs_fit(version);
    let contains = match meaning::read(alloc, meaning, range) {
        Ok(set) => Ok(set.contains_ref(version)),
        Err(error) => Err(error),
    };
    (contains, meaning::satisfies(version, range, meaning))
}

/// `VersionSet::combined` has only one permitted result.
pub fn one_combined(
    alloc: Global,
    set: &VersionSet,
    how: Combination,
    other: &VersionSet,
) -> (
    Result<VersionSet, OperationError>,
    Result<VersionSet, OperationError>,
)
    ensures one { AreOne OperationError.OutOfMemory itself result.0 result.1 }
{
    let first = set.combined(alloc, how, other);
    let second = set.combined(alloc, how, other);
    results_are_alike(&first, &second);
    (first, second)
}

/// `VersionSet::empty` has only one permitted result.
pub fn one_empty(alloc: Global, digits: Digits) -> (VersionSet, VersionSet)
    ensures one { result.0 ≡ result.1 }
{
    let first = VersionSet::empty(alloc, digits);
    let second = VersionSet::empty(alloc, digits);
    are_alike(&first, &second);
    (first, second)
}

/// `VersionSet::all` has only one permitted result.
pub fn one_all(
    alloc: Global,
    digits: Digits,
) -> (
    Result<VersionSet, AllocError>,
    Result<VersionSet, AllocError>,
)
    ensures one { AreOne alloc_error itself result.0 result.1 }
{
    let first = VersionSet::all(alloc, digits);
    let second = VersionSet::all(alloc, digits);
    results_are_alike(&first, &second);
    (first, second)
}

/// `VersionSet::only_releases` has only one permitted result. It is called for two equal sets,
/// since it consumes its argument.
pub fn one_only_releases(
    alloc: Global,
    set: VersionSet,
    equal_set: VersionSet,
) -> (VersionSet, VersionSet)
    requires { set ≡ equal_set }
    ensures one { result.0 ≡ result.1 }
{
    let first = set.only_releases(alloc);
    let second = equal_set.only_releases(alloc);
    are_alike(&first, &second);
    (first, second)
}

/// `VersionSet::only_pre_releases` has only one permitted result. It is called for two equal sets,
/// since it consumes its argument.
pub fn one_only_pre_releases(
    alloc: Global,
    set: VersionSet,
    equal_set: VersionSet,
) -> (VersionSet, VersionSet)
    requires { set ≡ equal_set }
    ensures one { result.0 ≡ result.1 }
{
    let first = set.only_pre_releases(alloc);
    let second = equal_set.only_pre_releases(alloc);
    are_alike(&first, &second);
    (first, second)
}

/// `VersionSet::lowest` has only one permitted result.
pub fn one_lowest(
    alloc: Global,
    set: &VersionSet,
) -> (
    Result<Option<Version>, AllocError>,
    Result<Option<Version>, AllocError>,
)
    ensures one { AreOne alloc_error (option_map version_value) result.0 result.1 }
{
    laws::precedence_is_total();
    (set.lowest(alloc), set.lowest(alloc))
}

/// `VersionSet::lowest_within` has only one permitted result.
pub fn one_lowest_within(
    alloc: Global,
    set: &VersionSet,
    most: u64,
) -> (
    Result<Option<Version>, AllocError>,
    Result<Option<Version>, AllocError>,
)
    ensures one { AreOne alloc_error (option_map version_value) result.0 result.1 }
{
    laws::precedence_is_total();
    (
        set.lowest_within(alloc, most),
        set.lowest_within(alloc, most),
    )
}

/// `VersionSet::lowest_release` has only one permitted result.
pub fn one_lowest_release(set: &VersionSet) -> (Option<Release>, Option<Release>)
    ensures one { result.0 ≡ result.1 }
{
    laws::precedence_is_total();
    (set.lowest_release(), set.lowest_release())
}

/// `VersionSet::compare` has only one permitted result.
pub fn one_compare(
    alloc: Global,
    set: &VersionSet,
    new: &VersionSet,
) -> (
    Result<Comparison, OperationError>,
    Result<Comparison, OperationError>,
)
    ensures one { AreOne OperationError.OutOfMemory comparison_value result.0 result.1 }
{
    laws::precedence_is_total();
    (set.compare(alloc, new), set.compare(alloc, new))
}
