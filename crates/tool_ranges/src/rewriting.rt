//! A range in each dialect as plain comparators.

ghost use Rattle.std.specs.Prelude.{◌≡◌, [], IfOk, IsTrue};
ghost use Rattle.semver_texts.specs.Versions.{PlainVersion};
ghost use Rattle.semver_ranges.specs.DialectTable.{mode_of};
ghost use Rattle.semver_ranges.specs.PrintedRanges.{IsPrintableSet, set_text};
ghost use Rattle.semver_ranges.specs.RangeTree.{SetTree, Spells};
ghost use Rattle.semver_ranges.specs.RangeViews.{set_of};
ghost use Rattle.semver_ranges.specs.RewritingTable.{fits, rewritten};
ghost use Rattle.semver_ranges.specs.SatisfiedComparators.{meets_set};
ghost use Rattle.tool_ranges.specs.Dialects.{IsRewrittenAs, RefusesAs, SpellsAs};
ghost use Rattle.tool_ranges.specs.Dialects.{means_release};
ghost use Rattle.tool_ranges.specs.Steps.Printed.{IsPrintedAs};

use crate::reading::events_of;
use crate::{cargo, npm};
use semver_ranges::dialect::Dialect;
use semver_ranges::rewriting::{Style, rewrite as rewrite_events};
use semver_ranges::{Compat, RangeError, RangeSet};
use std::alloc::Global;

// Determined by: law result_laws::ranges::one_rewrite.
/// Rewrites a range in a dialect into plain comparators with exact bounds.
///
/// It calls [`cargo::rewrite`](crate::cargo::rewrite), [`npm::rewrite`](crate::npm::rewrite) or
/// `RangeSet::parse_exact`: `1.2` gives `>=1.2.0 <2.0.0-0` in Cargo's dialect, and
/// `>=1.2.0 <1.3.0-0` in the others. A release satisfies the result if and only if it satisfies the
/// range. Printed, the result is a range that `RangeSet::parse` rewrites to the same set.
///
/// # Errors
///
/// - `NotARange` if the string is not a range in the dialect.
/// - `NumberTooLarge` if it is a range, but one of its numbers, or a bound that is raised by one,
///   is above 2^64 - 1, or above 2^53 - 1 in npm's dialect.
/// - `OutOfMemory` if an allocation fails. The first two errors are returned without allocating.
pub fn rewrite(alloc: Global, dialect: Dialect, range: &str) -> Result<RangeSet, RangeError>
    // `NotARange` and `NumberTooLarge` are returned for exactly the strings for which they are
    // defined. The result is what the syntax tree of the string is rewritten to.
    ensures refusals { RefusesAs dialect range.now result }
    ensures as_rewritten { IfOk result (λ set. IsRewrittenAs dialect range.now (set_of set)) }
    // A release satisfies the result if and only if it satisfies the range.
    ensures releases { IfOk result (λ set. (tree : SetTree) (v : PlainVersion)
        → SpellsAs dialect tree range.now → v.pre ≡ [] →
        meets_set v (set_of set) ≡ means_release dialect tree v) }
    // The result is printable: printed, it is a range that `RangeSet::parse` rewrites to the same
    // set, in the set's mode.
    ensures printable { IfOk result (λ set. IsPrintableSet (set_of set)) }
    ensures reads_back { IfOk result (λ set. (tree : SetTree)
        × Spells tree (set_text (set_of set)) × IsTrue (fits (mode_of dialect) tree)
        × (rewritten (mode_of dialect) tree ≡ set_of set)) }
{
    match dialect {
        Dialect::Cargo => cargo::rewrite(alloc, range),
        Dialect::Npm => npm::rewrite(alloc, range),
        Dialect::CrateCargo => RangeSet::parse_exact(alloc, range, Compat::Cargo),
        Dialect::CrateNpm => RangeSet::parse_exact(alloc, range, Compat::Npm),
    }
}

/// Rewrites a range in a dialect into plain comparators. The string is checked first, so that an
/// invalid one doesn't allocate.
#[inline(always)]
pub(crate) fn rewrite_with(
    alloc: Global,
    range: &str,
    dialect: Dialect,
    style: Style,
) -> Result<RangeSet, RangeError>
    ensures refusals { RefusesAs dialect range.now result }
    ensures printed { IfOk result
        (λ set. IsPrintedAs style dialect (mode_of dialect) range.now (set_of set)) }
{
    let begin = events_of(range, dialect)?;
    rewrite_events(alloc, begin, dialect, style)
}
