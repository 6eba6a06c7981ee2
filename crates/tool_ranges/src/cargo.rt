//! Cargo's dialect: `1.2` is `>=1.2.0 <2.0.0`, and commas separate comparators.

ghost use Rattle.std.specs.Prelude.{◌≡◌, ◌≤◌, [], IfOk, IsTrue, length};
ghost use Rattle.semver_ranges.specs.RangeTree.{SetTree, Spells};
ghost use Rattle.semver_texts.specs.Versions.{PlainVersion};
ghost use Rattle.semver_ranges.specs.RangeViews.{set_of};
ghost use Rattle.semver_ranges.specs.declared.range.Compat.TheVariants.{Cargo};
ghost use Rattle.semver_ranges.specs.SatisfiedComparators.{meets_set};
ghost use Rattle.semver_ranges.specs.PrintedRanges.{IsPrintableSet, set_text};
ghost use Rattle.semver_ranges.specs.RewritingTable.{fits, rewritten};
ghost use Rattle.version_sets.specs.declared.rules.PreReleases.TheVariants.{ByDialect};
ghost use Rattle.semver_ranges.specs.CargoGrammar.{SpellsRequirement};
ghost use Rattle.tool_ranges.specs.CargoMeaning.{meets_requirement};
ghost use Rattle.tool_ranges.specs.Dialects.{IsRewrittenAs, RefusesAs};
ghost use Rattle.tool_ranges.specs.Steps.TextEvents.{commas, has_few_commas};
ghost use Rattle.semver_ranges.specs.declared.dialect.Dialect.TheVariants as dialect;

use crate::rewriting::rewrite_with;
use semver_ranges::dialect::Dialect;
use semver_ranges::rewriting::Style;
use semver_ranges::{RangeError, RangeSet};
use std::alloc::Global;

/// The maximum number of comparators in a requirement.
const MOST_COMPARATORS: usize = 32;

// Determined by: law result_laws::ranges::one_cargo_rewrite.
/// Rewrites a requirement in Cargo's dialect into plain comparators with exact bounds.
///
/// A requirement is either a single wildcard, or 1 to 32 comparators separated by commas. The page
/// `docs::grammar` has the grammar, and `docs::meaning` defines which versions satisfy each
/// comparator in Cargo. The result has one range, in Cargo mode.
///
/// `1.2` gives `>=1.2.0 <2.0.0-0`, `>=1.2.3, <2` gives `>=1.2.3 <2.0.0`, `>1.2` gives `>=1.3.0`,
/// and `*` gives `>=0.0.0`.
///
/// A release satisfies the result if and only if it satisfies the requirement. Which pre-releases
/// satisfy it can't be expressed by comparators.
///
/// # Errors
///
/// - `NotARange` if the string is not a requirement in Cargo's dialect, such as `1.2 || 3`,
///   `>=1 <2` or `1.x.3`.
/// - `NumberTooLarge` if the string is a requirement, but one of its numbers, or a bound that is
///   raised by one, is above 2^64 - 1, such as `>1.18446744073709551615`.
/// - `OutOfMemory` if an allocation fails. The first two errors are returned without allocating.
pub fn rewrite(alloc: Global, requirement: &str) -> Result<RangeSet, RangeError>
    // `NotARange` and `NumberTooLarge` are returned for exactly the strings for which they are
    // defined; all others are read. The result is what the syntax tree of the string is rewritten
    // to.
    ensures refusals { RefusesAs dialect.Cargo requirement.now result }
    ensures as_rewritten { IfOk result
        (λ set. IsRewrittenAs dialect.Cargo requirement.now (set_of set)) }
    // A release satisfies the result if and only if it satisfies the requirement.
    ensures releases { IfOk result (λ set. (tree : SetTree) (v : PlainVersion)
        → SpellsRequirement tree requirement.now → v.pre ≡ [] →
        meets_set v (set_of set) ≡ meets_requirement ByDialect tree v) }
    // The result is printable: printed, it is a range that `RangeSet::parse` rewrites to the same
    // set.
    ensures printable { IfOk result (λ set. IsPrintableSet (set_of set)) }
    ensures reads_back { IfOk result (λ set. (tree : SetTree)
        × Spells tree (set_text (set_of set)) × IsTrue (fits Cargo tree)
        × (rewritten Cargo tree ≡ set_of set)) }
{
    rewrite_with(alloc, requirement, Dialect::Cargo, Style::Exact)
}

/// Returns whether a string has fewer commas than a requirement may have comparators.
#[inline(always)]
pub(crate) fn has_few_commas(text: &[u8]) -> bool
    ensures { result ≡ has_few_commas text.now }
{
    text.len() < MOST_COMPARATORS || commas(text) < MOST_COMPARATORS
}

/// Returns the number of commas in a string.
fn commas(text: &[u8]) -> usize
    ensures value { result ≡ commas text.now }
    ensures within { result ≤ length text.now }
{
    let mut commas = 0;
    for at in 0..text.len() {
        if text[at] == b',' {
            commas += 1;
        }
    }
    commas
}
