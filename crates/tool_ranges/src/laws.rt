//! Laws over the definitions: each is the contract of a function that does nothing.

ghost use Rattle.std.specs.Prelude.{◌≡◌};
ghost use Rattle.semver_texts.specs.Digits.{digits_in};
ghost use Rattle.semver_texts.specs.Texts.{Text};
ghost use Rattle.semver_ranges.specs.RangeTree.{SetTree};
ghost use Rattle.semver_ranges.specs.declared.dialect.Dialect.{Dialect as SomeDialect};
ghost use Rattle.tool_ranges.specs.Dialects.{SpellsAs};
ghost use Rattle.tool_ranges.specs.VersionRanges.{versions_grammar};

use crate::at_or_above::has_at_or_above;
use crate::meaning::Rules;
use crate::satisfying::{SatisfiesError, satisfies};
use crate::version_range::VersionRange;
use semver_ranges::RangeError;
use semver_ranges::dialect::Dialect;
use semver_versions::laws::one_version_in;
use semver_versions::version::VersionRef;

/// No range string has two syntax trees in a dialect.
pub fn one_tree()
    ensures same_tree { (dialect : SomeDialect) (tree other : SetTree) (t : Text)
        → SpellsAs dialect tree t → SpellsAs dialect other t → tree ≡ other }
{}

/// A range reads numeric identifiers as its dialect does.
pub fn ranges_read_digits(range: &VersionRange)
    ensures digits { range.now.versions.digits ≡ digits_in (versions_grammar range.now) }
{
    // The access to a field tells the prover the type's invariant.
    let _ = &range.versions;
}

/// A number is that of one dialect, or of none.
pub fn one_dialect_of_number(number: i32) -> (Option<Dialect>, Option<Dialect>)
    ensures one { result.0 ≡ result.1 }
{
    (Dialect::from_number(number), Dialect::from_number(number))
}

/// `satisfying::satisfies` has only one permitted result.
pub fn one_satisfies(
    version: &[u8],
    range: &str,
    meaning: Rules,
) -> (Result<bool, SatisfiesError>, Result<bool, SatisfiesError>)
    ensures one { result.0 ≡ result.1 }
{
    one_version_in();
    (
        satisfies(version, range, meaning),
        satisfies(version, range, meaning),
    )
}

/// `has_at_or_above` has only one permitted result.
pub fn one_has_at_or_above(
    version: &VersionRef<'_>,
    range: &str,
    meaning: Rules,
) -> (Result<bool, RangeError>, Result<bool, RangeError>)
    ensures one { result.0 ≡ result.1 }
{
    (
        has_at_or_above(version, range, meaning),
        has_at_or_above(version, range, meaning),
    )
}
