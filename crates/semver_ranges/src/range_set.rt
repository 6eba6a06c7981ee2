//! Range sets: the ranges of a string in one of two modes, and how they are printed.

ghost use Rattle.std.specs.Prelude.{Some, ◌≡◌, ◌⊎◌, [], IsTrue, IfOk, IsOkAnd};
ghost use Rattle.semver_texts.specs.Versions.{PlainVersion};
ghost use Rattle.semver_ranges.specs.RangeTree.{SetTree, Spells};
ghost use Rattle.semver_ranges.specs.CrateMeaning.{meets_tree};
ghost use Rattle.semver_ranges.specs.RewritingTable.{PlainSet, fits, rewritten};
ghost use Rattle.semver_ranges.specs.RangeTexts.{RefusesExactly};
ghost use Rattle.semver_ranges.specs.ParsedSets.{IsParsed};
ghost use Rattle.semver_ranges.specs.ExactBounds.{rewritten_exactly};
ghost use Rattle.semver_ranges.specs.SatisfiedComparators.{meets_set, meets_tree_or_bounds};
ghost use Rattle.semver_ranges.specs.PrintedRanges.{IsPrintableSet, set_text};
ghost use Rattle.semver_ranges.specs.RangeViews.{set_of};
ghost use Rattle.semver_ranges.specs.TermComparators.{pre_of};
ghost use Rattle.semver_ranges.specs.Steps.Answers.{IsAnswer};

use crate::dialect::Dialect;
use crate::events::Events;
use crate::range::{Compat, Range};
use crate::rewriting::{Style, rewrite};
use semver_texts::grammar::Grammar;
use semver_texts::printing::write_joined;
use std::alloc::Global;
use std::fmt;
use thiserror::Error;

/// A range set: ranges, at least one of which a version has to satisfy.
///
/// ```
/// use semver_parser::{Compat, RangeSet};
///
/// let set = RangeSet::parse("^1.2.3 || 3.x", Compat::Npm)?;
/// assert_eq!(set.ranges.len(), 2);
/// assert_eq!(set.to_string(), ">=1.2.3 <2.0.0 || >=3.0.0 <4.0.0");
/// # Ok::<(), String>(())
/// ```
#[derive(Clone, PartialEq, Eq, PartialOrd, Ord, Hash, Debug, Drop)]
pub struct RangeSet {
    /// The ranges, in the order of the string.
    pub ranges: Vec<Range>,
    /// The mode in which the string was read.
    pub compat: Compat,
}

/// The error of a range string.
///
/// ```
/// use semver_parser::{Compat, RangeError, RangeSet};
///
/// let refused = |range| RangeSet::try_parse(range, Compat::Npm).unwrap_err();
/// assert_eq!(refused("v1.2.3"), RangeError::NotARange);
/// assert_eq!(refused("99999999999999999999"), RangeError::NumberTooLarge);
/// ```
#[derive(Clone, Copy, PartialEq, Eq, Debug, Error)]
pub enum RangeError {
    /// The string is not a range.
    #[error("not a range")]
    NotARange,
    /// The string is a range, but one of its numbers, or a raised bound, is above 2^64 - 1, or
    /// above 2^53 - 1 in npm's dialect.
    #[error("number too large")]
    NumberTooLarge,
    /// The string is a range and its numbers fit, but an allocation failed.
    #[error("out of memory")]
    OutOfMemory,
}

impl RangeSet {
    // In Rust: try_parse.
    // Determined by: law result_laws::ranges::one_parse.
    /// Reads a range string, such as `>=1.2 <2 || 3.x`, into plain comparators.
    ///
    /// A comma gives `NotARange`. The original crate accepts one comma after a comparator: replace
    /// commas by spaces to keep that meaning. `Dialect::Cargo` reads commas as Cargo does today.
    ///
    /// The string is one or more ranges separated by `||`. The page `docs::original_crate` has the
    /// whole grammar, the comparators of each term, and which versions satisfy it. A range is one
    /// of these:
    /// - nothing;
    /// - one or more terms separated by blanks, where a term is a partial after `=`, `<`, `<=`,
    ///   `>`, `>=`, `~`, `~>`, `^` or no operator;
    /// - two partials around a hyphen, with blanks on both sides.
    ///
    /// A blank is a space or a tab.
    ///
    /// The result has the ranges in the order of the string, each with its comparators in order,
    /// and `compat` in the set and in each range. It has at least one range, and each range has at
    /// least one comparator. The mode decides only how a bare version of three numbers is read.
    /// Build metadata is dropped.
    ///
    /// A version satisfies the result if and only if, in at least one range of the string, it
    /// satisfies every term or is a pre-release of that term's raised bound. For example,
    /// `2.0.0-alpha` is below the `<2.0.0` of `^1.2.3`. `RangeSet::parse_exact` has no such
    /// exception.
    ///
    /// # Errors
    ///
    /// - `NotARange` if the string isn't in the grammar, such as `1.2.3 -4`, `>=1.0.0, <2.0.0` or
    ///   `v1.2.3`.
    /// - `NumberTooLarge` if it is in the grammar, but a number before the first wildcard of its
    ///   partial, or an upper bound that is raised by one, is above 2^64 - 1, such as
    ///   `<=18446744073709551615`.
    /// - `OutOfMemory` if an allocation failed. The first two errors are returned without
    ///   allocating, so a string that has one of them never gives this one.
    ///
    /// ```
    /// use semver_parser::{Compat, RangeSet};
    ///
    /// let set = RangeSet::try_parse("1.2.3 || ~2.0.0-rc", Compat::Cargo)?;
    /// assert_eq!(set.to_string(), ">=1.2.3 <2.0.0 || >=2.0.0-rc <2.1.0");
    /// let set = RangeSet::try_parse("1.2.3 || ~2.0.0-rc", Compat::Npm)?;
    /// assert_eq!(set.to_string(), "=1.2.3 || >=2.0.0-rc <2.1.0");
    /// assert_eq!(RangeSet::try_parse("", Compat::Npm)?.to_string(), ">=0.0.0");
    /// # Ok::<(), semver_parser::RangeError>(())
    /// ```
    pub fn parse(alloc: Global, input: &str, compat: Compat) -> Result<RangeSet, RangeError>
        // `NotARange` and `NumberTooLarge` are returned for exactly the strings for which they are
        // defined; all others are read. The result is what the syntax tree of the string is
        // rewritten to, in this mode.
        ensures refusals { RefusesExactly compat input.now result }
        ensures as_rewritten { IfOk result (λ set. (tree : SetTree) → Spells tree input.now
            → set_of set ≡ rewritten compat tree) }

        // A version satisfies the result if and only if, in at least one range of the string, it
        // satisfies every term or is a pre-release of that term's raised bound.
        ensures meaning { IfOk result (λ set. (tree : SetTree) (v : PlainVersion)
            → Spells tree input.now →
            meets_set v (set_of set) ≡ meets_tree_or_bounds compat tree v) }
        // So a release satisfies the result if and only if it satisfies the string, and every
        // version that satisfies the string satisfies the result.
        ensures releases { IfOk result (λ set. (tree : SetTree) (v : PlainVersion)
            → Spells tree input.now → v.pre ≡ [] →
            meets_set v (set_of set) ≡ meets_tree compat tree v) }
        ensures implied { IfOk result (λ set. (tree : SetTree) (v : PlainVersion)
            → Spells tree input.now → IsTrue (meets_tree compat tree v) →
            IsTrue (meets_set v (set_of set))) }

        // The result is printable, and a printable set in this mode, printed and read, gives that
        // set again.
        ensures printable { IfOk result (λ set. IsPrintableSet (set_of set)) }
        ensures reads_back { (s : PlainSet) → IsPrintableSet s → s.compat ≡ compat
            → input.now ≡ set_text s →
            (result ≡ Err RangeError.OutOfMemory) ⊎ IsOkAnd result (λ set. set_of set ≡ s) }
    {
        parse_with(alloc, input, compat, Style::Plain)
    }

    // Determined by: law result_laws::ranges::one_parse_exact.
    /// Reads a range string like `RangeSet::parse`, but with exact bounds: each upper bound that is
    /// raised by one gets the lowest pre-release, `0`. The Rust crate has no such function; npm
    /// writes its bounds like this.
    ///
    /// A bound that is written in the string stays as it is.
    ///
    /// No version with the numbers 2.0.0 is below `2.0.0-0`. So a version, even a pre-release,
    /// satisfies the result if and only if it satisfies the string: the exception of
    /// `RangeSet::parse` for pre-releases of raised bounds doesn't exist.
    ///
    /// # Errors
    ///
    /// The errors of `RangeSet::parse`, for the same strings. `OutOfMemory` is returned only if the
    /// string has a set.
    ///
    /// ```
    /// use semver_parser::{Compat, RangeSet};
    ///
    /// let exact = |range| RangeSet::parse_exact(range, Compat::Npm).unwrap().to_string();
    /// assert_eq!(exact("^1.2.3-beta.4"), ">=1.2.3-beta.4 <2.0.0-0");
    /// assert_eq!(exact("<=1.2"), "<1.3.0-0");
    /// assert_eq!(exact("1.x - 2"), ">=1.0.0 <3.0.0-0");
    /// assert_eq!(exact("<2"), "<2.0.0");
    /// assert_eq!(exact(">1"), ">1.0.0");
    /// ```
    pub fn parse_exact(alloc: Global, input: &str, compat: Compat) -> Result<RangeSet, RangeError>
        // `NotARange` and `NumberTooLarge` are returned for exactly the strings for which they are
        // defined; all others are read. The result is what the syntax tree of the string is
        // rewritten to with exact bounds, in this mode.
        ensures refusals { RefusesExactly compat input.now result }
        ensures as_rewritten { IfOk result (λ set. (tree : SetTree) → Spells tree input.now
            → set_of set ≡ rewritten_exactly compat tree) }

        // A version satisfies the result if and only if it satisfies the string.
        ensures meaning { IfOk result (λ set. (tree : SetTree) (v : PlainVersion)
            → Spells tree input.now →
            meets_set v (set_of set) ≡ meets_tree compat tree v) }

        // The result is printable: printed, it is a range that `RangeSet::parse` rewrites to the
        // same set.
        ensures printable { IfOk result (λ set. IsPrintableSet (set_of set)) }
        ensures reads_back { IfOk result (λ set. (tree : SetTree)
            × Spells tree (set_text (set_of set)) × IsTrue (fits compat tree)
            × (rewritten compat tree ≡ set_of set)) }
        // This function returns the same set, too: a printable set in this mode, printed and read,
        // gives that set again.
        ensures reads_exactly_back { (s : PlainSet) → IsPrintableSet s → s.compat ≡ compat
            → input.now ≡ set_text s →
            (result ≡ Err RangeError.OutOfMemory) ⊎ IsOkAnd result (λ set. set_of set ≡ s) }
    {
        parse_with(alloc, input, compat, Style::Exact)
    }

    // In Rust: try_from_str.
    // Determined by: law result_laws::ranges::one_from_str.
    /// Reads a range string in Cargo mode. Result and errors are those of `RangeSet::parse` with
    /// `Compat::Cargo`.
    pub fn from_str(alloc: Global, input: &str) -> Result<RangeSet, RangeError>
        ensures parsed { IsParsed Compat.Cargo input.now result }
    {
        RangeSet::parse(alloc, input, Compat::Cargo)
    }
}

/// Returns the range set of a string in the crate's own dialect of a mode, or the reason why there
/// is none.
fn parse_with(
    alloc: Global,
    input: &str,
    compat: Compat,
    style: Style,
) -> Result<RangeSet, RangeError>
    ensures { IsAnswer (pre_of style) input.now compat result }
{
    let begin = Events::new(input.as_bytes(), Grammar::Crate);
    rewrite(alloc, begin, Dialect::of_mode(compat), style)
}

// Determined by: equation.
impl fmt::Display for RangeSet {
    ghost output = { λ s. Some (set_text (set_of s)) };

    /// Writes the ranges, separated by ` || `: `>=1.2.3 <2.0.0 || =3.0.0`. The mode isn't written.
    /// It does not allocate, and its only error is the writer's.
    fn fmt<W: fmt::Write>(&self, f: &mut fmt::Formatter<W>) -> fmt::Result {
        write_joined(f, " || ", &self.ranges)
    }
}
