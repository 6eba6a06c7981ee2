//! npm's dialect: `>1.2` is `>=1.3.0`, and `v1` is a range.

ghost use Rattle.std.specs.Prelude.{◌≡◌, [], IsTrue, IfOk};
ghost use Rattle.std.specs.List.{list_all};
ghost use Rattle.std.specs.Str.{chars};
ghost use Rattle.semver_texts.specs.Versions.{PlainVersion};
ghost use Rattle.semver_ranges.specs.declared.range.Compat.TheVariants.{Npm};
ghost use Rattle.semver_ranges.specs.RangeTree.{SetTree, Spells};
ghost use Rattle.semver_ranges.specs.RangeViews.{set_of};
ghost use Rattle.semver_ranges.specs.SatisfiedComparators.{meets_set};
ghost use Rattle.semver_ranges.specs.PrintedRanges.{IsPrintableSet, set_text};
ghost use Rattle.semver_ranges.specs.RewritingTable.{fits, rewritten};
ghost use Rattle.version_sets.specs.declared.rules.PreReleases.TheVariants.{ByDialect, Included};
ghost use Rattle.tool_ranges.specs.AnySize.{set_any};
ghost use Rattle.tool_ranges.specs.Rewritten.{rewritten_included};
ghost use Rattle.tool_ranges.specs.NpmGrammar.{may_stand, SpellsNpmRange};
ghost use Rattle.tool_ranges.specs.NpmMeaning.{meets_npm};
ghost use Rattle.tool_ranges.specs.Dialects.{IsRewrittenAs, RefusesAs};
ghost use Rattle.semver_ranges.specs.declared.dialect.Dialect.TheVariants as dialect;

use crate::rewriting::rewrite_with;
use semver_ranges::dialect::Dialect;
use semver_ranges::rewriting::Style;
use semver_ranges::{RangeError, RangeSet};
use semver_texts::white_space::is_white_space_beyond_ascii;
use std::alloc::Global;

// Determined by: law result_laws::ranges::one_npm_rewrite.
/// Rewrites a range in npm's dialect into plain comparators with exact bounds.
///
/// The string is one or more ranges separated by `||`. The page `docs::grammar` has the grammar,
/// and `docs::meaning` defines which versions satisfy each range in npm. The result has the ranges
/// in the order of the string, in Npm mode. Each term of a range with which npm matches everything,
/// such as `*`, becomes `>=0.0.0`.
///
/// `>1.2` gives `>=1.3.0`, `<2` gives `<2.0.0-0`, `v1.2.3` gives `=1.2.3`, and `^1.2 || 3.x` gives
/// `>=1.2.0 <2.0.0-0 || >=3.0.0 <4.0.0-0`.
///
/// A release satisfies the result if and only if it satisfies the range. Which pre-releases satisfy
/// it can't be expressed by comparators: [`meaning::read`](crate::meaning::read) returns them as a
/// set.
///
/// # Errors
///
/// - `NotARange` if the string is not in npm's grammar, such as `>=1, <2` or `1.2.3-01`, or if a
///   part of it is too long for node-semver: the version of a comparator has at most 256
///   characters, and `docs::grammar` has the limits of numbers and identifiers.
/// - `NumberTooLarge` if the string is a range, but one of its numbers, or a bound that is raised
///   by one, is above 2^53 - 1, such as `>1.9007199254740991`.
/// - `OutOfMemory` if an allocation fails. The first two errors are returned without allocating.
pub fn rewrite(alloc: Global, range: &str) -> Result<RangeSet, RangeError>
    // `NotARange` and `NumberTooLarge` are returned for exactly the strings for which they are
    // defined; all others are read. The result is what the syntax tree of the string is rewritten
    // to.
    ensures refusals { RefusesAs dialect.Npm range.now result }
    ensures as_rewritten { IfOk result (λ set. IsRewrittenAs dialect.Npm range.now (set_of set)) }
    // A release satisfies the result if and only if it satisfies the range.
    ensures releases { IfOk result (λ set. (tree : SetTree) (v : PlainVersion)
        → SpellsNpmRange tree range.now → v.pre ≡ [] →
        meets_set v (set_of set) ≡ meets_npm ByDialect tree v) }
    // The result is printable: printed, it is a range that `RangeSet::parse` rewrites to the same
    // set.
    ensures printable { IfOk result (λ set. IsPrintableSet (set_of set)) }
    ensures reads_back { IfOk result (λ set. (tree : SetTree)
        × Spells tree (set_text (set_of set)) × IsTrue (fits Npm tree)
        × (rewritten Npm tree ≡ set_of set)) }
{
    rewrite_with(alloc, range, Dialect::Npm, Style::Exact)
}

// Determined by: law result_laws::ranges::one_npm_rewrite_included.
/// Rewrites a range, as npm reads it with `includePrerelease`, into plain comparators that say
/// which pre-releases satisfy it, too: `^1.2` gives `>=1.2.0-0 <2.0.0-0`.
///
/// A version satisfies the result, compared by precedence, if and only if it satisfies the range
/// and pre-releases are included. The result has the ranges in the order of the string, in Npm
/// mode. `*` becomes `>=0.0.0-0`.
///
/// # Errors
///
/// Those of [`rewrite`].
pub fn rewrite_included(alloc: Global, range: &str) -> Result<RangeSet, RangeError>
    // `NotARange` and `NumberTooLarge` are returned for exactly the strings for which they are
    // defined; all others are read.
    ensures refusals { RefusesAs dialect.Npm range.now result }
    // The result is what the syntax tree of the string is rewritten to.
    ensures as_rewritten { IfOk result (λ set. (tree : SetTree) → SpellsNpmRange tree range.now
        → set_of set ≡ rewritten_included tree) }
    // A version satisfies the result if and only if it satisfies the range with all pre-releases.
    // Identifiers of only digits are compared as numbers of any size.
    ensures versions { IfOk result (λ set. (tree : SetTree) (v : PlainVersion)
        → SpellsNpmRange tree range.now
        → meets_set v (set_any (set_of set)) ≡ meets_npm Included tree v) }
{
    rewrite_with(alloc, range, Dialect::Npm, Style::Lowest)
}

/// Returns whether every non-ASCII character of a string is white space to JavaScript. Strings of
/// only ASCII are recognized first, for speed.
pub(crate) fn may_stand(range: &str) -> bool
    ensures { result ≡ list_all may_stand (chars range.now) }
{
    range.is_ascii()
        || range.chars().all(|character| character.is_ascii()
            || is_white_space_beyond_ascii(character))
}
