//! Filters the releases that satisfy a range from many versions.

ghost use Rattle.std.specs.Prelude.{◌≡◌, IfOk, map};
ghost use Rattle.semver_ranges.specs.RangeTexts.{RefusesExactly};
ghost use Rattle.semver_ranges.specs.RangeTree.{SetTree, Spells};
ghost use Rattle.semver_texts.specs.Versions.{VersionValue};
ghost use Rattle.semver_texts.specs.declared.grammar.Digits.TheVariants.{Kept};
ghost use Rattle.version_sets.specs.PreReleaseRules.{meant_with};
ghost use Rattle.version_sets.specs.VersionSets.{contains, Fits};
ghost use Rattle.version_sets.specs.declared.rules.PreReleases.TheVariants.{Excluded};
ghost use Rattle.release_filter.specs.KeptReleases.{kept_releases};

use crate::contained::contained;
use semver_ranges::dialect::Dialect;
use semver_ranges::{Compat, RangeError};
use semver_versions::version::Version;
use std::alloc::Global;
use tool_ranges::meaning::{self, Rules};
use version_sets::{PreReleases, VersionSet};

/// The releases of a range in Cargo mode.
const CARGO: Rules = Rules {
    dialect: Dialect::CrateCargo,
    pre_releases: PreReleases::Excluded,
};

/// The releases of a range in npm mode.
const NPM: Rules = Rules {
    dialect: Dialect::CrateNpm,
    pre_releases: PreReleases::Excluded,
};

// Determined by: law result_laws::filters::one_filter_text.
/// Returns the versions without a pre-release that satisfy a range. They are in the given order,
/// with repeats. Pre-releases are never in the result, whatever the range says.
///
/// Each version is checked once. The result is allocated as it grows, and not at all if no version
/// is kept.
///
/// # Errors
///
/// The range is read first, so its errors don't depend on the versions:
///
/// - `NotARange` if the string isn't in the range grammar.
/// - `NumberTooLarge` if it is in the grammar, but one of its numbers, or a raised bound, is above
///   2^64 - 1.
/// - `OutOfMemory` if an allocation failed. A string with one of the first two errors never gives
///   this one.
///
/// ```
/// use semver_parser::filters::filter_text;
/// use semver_parser::{version, Compat};
///
/// let versions = ["0.2.0", "0.3.0", "2.0.0-rc", "2.5.0", "2.5.0"];
/// let versions = versions.map(|text| version::parse(text).unwrap());
/// let kept = filter_text("^0.2 || 2.x", Compat::Cargo, &versions)?;
/// assert_eq!(kept, [&versions[0], &versions[3], &versions[4]]);
/// # Ok::<(), semver_parser::RangeError>(())
/// ```
pub fn filter_text<'v>(
    alloc: Global,
    text: &str,
    compat: Compat,
    versions: &'v [Version],
) -> Result<Vec<&'v Version>, RangeError>
    ensures refusals { RefusesExactly compat text.now result }
    // The result is what the syntax tree of the range keeps.
    ensures kept { IfOk result (λ kept. (tree : SetTree) → Spells tree text.now
        → map (λ v. v.now) kept.items ≡ kept_releases compat tree versions.now) }
{
    let set = read_releases(alloc, text, compat)?;
    match contained(alloc, &set, versions) {
        Ok(kept) => Ok(kept),
        Err(_) => Err(RangeError::OutOfMemory),
    }
}

/// Returns the set of the releases that satisfy a range in a mode.
fn read_releases(alloc: Global, text: &str, compat: Compat) -> Result<VersionSet, RangeError>
    ensures refusals { RefusesExactly compat text.now result }
    ensures meaning { IfOk result (λ set. (tree : SetTree) (v : VersionValue)
        → Spells tree text.now → Fits v.plain
        → contains set v.plain ≡ meant_with Excluded compat tree v) }
    ensures digits { IfOk result (λ set. set.digits ≡ Kept) }
{
    match compat {
        Compat::Cargo => meaning::read(alloc, CARGO, text),
        Compat::Npm => meaning::read(alloc, NPM, text),
    }
}
