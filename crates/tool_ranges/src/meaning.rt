//! The meaning of a range string: its dialect, and which pre-releases satisfy it.
//!
//! What reads a string is compiled once for each dialect: with one copy for all, which looks at the
//! dialect for each term, the calls take up to a third more instructions.

ghost use Rattle.std.specs.Prelude.{◌≡◌, ◌≢◌, ◌&&◌, Bool, true, Err, IfOk};
ghost use Rattle.semver_texts.specs.Digits.{digits_in, version_by};
ghost use Rattle.semver_texts.specs.Texts.{Text, is_empty};
ghost use Rattle.semver_texts.specs.Versions.{PlainVersion, without_build};
ghost use Rattle.semver_texts.specs.declared.grammar.Digits.{Digits};
ghost use Rattle.semver_texts.specs.declared.grammar.Digits.TheVariants.{AnySize};
ghost use Rattle.semver_ranges.specs.declared.dialect.Dialect.{Dialect as SomeDialect};
ghost use Rattle.semver_ranges.specs.declared.dialect.Dialect.TheVariants as dialect;
ghost use Rattle.semver_versions.specs.VersionRefs.{kept_version_of};
ghost use Rattle.semver_ranges.specs.RangeTexts.{RefusesExactly};
ghost use Rattle.semver_ranges.specs.RangeTree.{SetTree, Spells};
ghost use Rattle.version_sets.specs.Printable.{IsPrintable};
ghost use Rattle.version_sets.specs.PreReleaseRules.{meant_with, numbers_fit};
ghost use Rattle.version_sets.specs.declared.rules.PreReleases.TheVariants.{ByDialect};
ghost use Rattle.tool_ranges.specs.Dialects.{RefusesAs, SpellsAs};
ghost use Rattle.semver_ranges.specs.DialectTable.{grammar_of};
ghost use Rattle.tool_ranges.specs.Meanings.{MeansAs, meant_as};

use crate::matching::answer;
use crate::{reading, sets};
use semver_ranges::RangeError;
use semver_ranges::dialect::Dialect;
use semver_versions::version::VersionRef;
use std::alloc::Global;
use version_sets::{PreReleases, VersionSet};

/// The dialect of a range string, and which pre-releases satisfy it (page `docs::meaning`). The
/// three rules for pre-releases are the same in every dialect.
///
/// ```
/// use semver_parser::{satisfies, Dialect, PreReleases, Rules};
///
/// let rules = Dialect::Npm.with(PreReleases::Included);
/// assert!(satisfies("1.3.0-rc.1", "^1.2", rules)?);
/// assert_eq!(Rules::from(Dialect::Npm), Dialect::Npm.with(PreReleases::ByDialect));
/// # Ok::<(), semver_parser::Error>(())
/// ```
#[derive(Clone, Copy, PartialEq, Eq, Hash, Debug)]
pub struct Rules {
    /// The dialect in which the string is read.
    pub dialect: Dialect,
    /// Which pre-releases count. With `ByDialect` these are the ones that Cargo and npm match by
    /// default; with `Included`, every one within the bounds, as with node-semver's
    /// `includePrerelease`; with `Excluded`, none.
    pub pre_releases: PreReleases,
}

// Determined by: equation.
impl From<Dialect> for Rules {
    ghost from_gives = { λ it rules.
        rules ≡ record { dialect = it; pre_releases = ByDialect } };

    /// Returns `dialect.with(PreReleases::ByDialect)`.
    fn from(dialect: Dialect) -> Rules {
        Rules {
            dialect,
            pre_releases: PreReleases::ByDialect,
        }
    }
}

// Determined by: law result_laws::sets::one_read.
/// Reads a range string into the set of the versions that satisfy it.
///
/// The set of `^1.2.0, <1.5` contains 1.4.0 in Cargo's dialect; in the others that string is not a
/// range. In Cargo's and npm's dialects, with `PreReleases::Included`, the set of `^1.2` begins
/// with 1.2.0-0, and that of `*` contains every version.
///
/// # Errors
///
/// - `NotARange` if the string is not a range in the dialect.
/// - `NumberTooLarge` if it is a range, but one of its numbers, or a bound that is raised by one,
///   is above 2^64 - 1, or above 2^53 - 1 in npm's dialect.
/// - `OutOfMemory` if an allocation fails. The first two errors are returned without allocating.
pub fn read(alloc: Global, meaning: Rules, range: &str) -> Result<VersionSet, RangeError>
    // `NotARange` and `NumberTooLarge` are returned for exactly the strings for which they are
    // defined.
    ensures refusals { RefusesAs meaning.dialect range.now result }
    // A version is in the set if and only if it satisfies the range.
    ensures meaning { IfOk result (λ set. MeansAs meaning range.now set) }
    // Its identifiers can be parsed back from their strings.
    ensures printable { IfOk result IsPrintable }
    // It reads numeric identifiers as the dialect does.
    ensures digits { IfOk result (λ set. set.digits ≡ digits_in (grammar_of meaning.dialect)) }
{
    let rule = meaning.pre_releases;
    match meaning.dialect {
        Dialect::Cargo => sets::read(alloc, range, Dialect::Cargo, rule),
        Dialect::Npm => sets::read(alloc, range, Dialect::Npm, rule),
        Dialect::CrateCargo => sets::read(alloc, range, Dialect::CrateCargo, rule),
        Dialect::CrateNpm => sets::read(alloc, range, Dialect::CrateNpm, rule),
    }
}

// Determined by: law result_laws::sets::one_satisfies.
/// Returns whether a version satisfies a range. 1.9.0 satisfies `^1.2` in every dialect and 2.0.0
/// in none; `>=1.2.3, <2` is a range only in Cargo's.
///
/// The range is read once, from left to right, and nothing is allocated. To check many versions
/// against one range, read a [`VersionRange`](crate::version_range::VersionRange). The page
/// `docs::meaning` defines which versions satisfy each range.
///
/// # Errors
///
/// The errors of [`read`], except `OutOfMemory`: `NotARange` if the string is not a range in the
/// dialect, and `NumberTooLarge` if it is a range, but one of its numbers, or a bound that is
/// raised by one, is above the dialect's limit.
#[inline(always)]
pub fn satisfies(version: &VersionRef<'_>, range: &str, meaning: Rules) -> Result<bool, RangeError>
    // `NotARange` and `NumberTooLarge` are returned for exactly the strings for which they are
    // defined.
    ensures refusals { RefusesAs meaning.dialect range.now result }
    ensures no_memory { result ≢ Err RangeError.OutOfMemory }
    // The result is whether the version, whose numeric identifiers are read as the dialect reads
    // them, satisfies the range by definition.
    ensures meaning { IfOk result (λ met. (tree : SetTree)
        → SpellsAs meaning.dialect tree range.now
        → met ≡ meant_as meaning tree
        (version_by (digits_in (grammar_of meaning.dialect)) (kept_version_of version.now))) }
{
    let version = version.read_by(meaning.dialect.grammar().digits());
    let rule = meaning.pre_releases;
    match meaning.dialect {
        Dialect::Cargo => answer(&version, range, Dialect::Cargo, rule),
        Dialect::Npm => answer(&version, range, Dialect::Npm, rule),
        Dialect::CrateCargo => answer(&version, range, Dialect::CrateCargo, rule),
        Dialect::CrateNpm => answer(&version, range, Dialect::CrateNpm, rule),
    }
}

// Determined by: equation.
/// Checks that a string is a range, with the errors of [`satisfies`]: `^1.2` is one, and `1 ||`
/// isn't in Cargo's dialect. It does not allocate.
#[inline(never)]
pub fn check(meaning: Rules, range: &str) -> Result<(), RangeError>
    // `NotARange` and `NumberTooLarge` are returned for exactly the strings for which they are
    // defined.
    ensures refusals { RefusesAs meaning.dialect range.now result }
    ensures no_memory { result ≢ Err RangeError.OutOfMemory }
{
    match meaning.dialect {
        Dialect::Cargo => reading::check(range, Dialect::Cargo),
        Dialect::Npm => reading::check(range, Dialect::Npm),
        Dialect::CrateCargo => reading::check(range, Dialect::CrateCargo),
        Dialect::CrateNpm => reading::check(range, Dialect::CrateNpm),
    }
}
