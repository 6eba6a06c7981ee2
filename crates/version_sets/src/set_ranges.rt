//! A set as ranges of plain comparators, and as a string.

ghost use Rattle.std.specs.Prelude.{◌≡◌, not, map, Some, IfOk, IfErr, IsTrue};
ghost use Rattle.std.specs.List.{list_all};
ghost use Rattle.semver_ranges.specs.declared.range.Compat.TheVariants.{Npm};
ghost use Rattle.semver_ranges.specs.SatisfiedComparators.{meets_set};
ghost use Rattle.semver_ranges.specs.PrintedRanges.{is_printable_version};
ghost use Rattle.semver_ranges.specs.RangeViews.{comparator_of, range_of, set_of};
ghost use Rattle.semver_texts.specs.Versions.{PlainVersion};
ghost use Rattle.version_sets.specs.DigitViews.{set_kept};
ghost use Rattle.version_sets.specs.SetRanges.{release_ranges, pre_release_ranges};
ghost use Rattle.version_sets.specs.SetRanges.{is_whole, ranges_text, ReadsBack};
ghost use Rattle.version_sets.specs.SetRanges.{is_lowest_pre as lowest_pre};
ghost use Rattle.version_sets.specs.SetRanges.{is_from_lowest as from_lowest};
ghost use Rattle.version_sets.specs.VersionSets.{contains, IsIn, IsRelease, IsPreRelease};

use crate::comparators::ranges_of;
use crate::version_set::VersionSet;
use semver_ranges::{Comparator, Compat, Op, Range, RangeSet, laws};
use semver_texts::identifiers::AsIdentifier;
use semver_texts::precedence::IdentifierRef;
use std::alloc::{AllocError, Global};
use std::fmt;

/// The releases or the pre-releases of a set as ranges of plain comparators: one range for each
/// interval, in ascending order.
///
/// `Display` writes a range in npm mode: `*` if all are in the set, and `<0.0.0-0`, which no
/// version satisfies, if none is.
#[derive(Debug, Drop)]
pub struct SetRanges {
    /// The ranges, in `Compat::Npm`. Each has one or two comparators.
    pub range_set: RangeSet,
}

impl VersionSet {
    // Determined by: equation.
    /// Returns the releases of the set as ranges of plain comparators.
    ///
    /// The ranges are:
    ///
    /// - `=1.2.0` if 1.2.0 is the only release in its interval, otherwise `>=1.9.0 <2.0.0`;
    /// - `>=1.9.0` if the interval has no end, and `<2.0.0` if it begins with 0.0.0;
    /// - only `>=0.0.0` if all releases are in the set, which `Display` writes as `*`;
    /// - no range if the set contains no release.
    ///
    /// It takes time linear in the number of boundaries, and allocates only if the set contains a
    /// release. `Err` means out of memory.
    pub fn release_ranges(&self, alloc: Global) -> Result<SetRanges, AllocError>
        ensures ranges { IfOk result (λ ranges.
            set_of ranges.range_set ≡ release_ranges self.now) }
        // A release satisfies them if and only if it is in the set.
        ensures meaning { IfOk result (λ ranges. (v : PlainVersion) → IsRelease v
            → meets_set v (set_of ranges.range_set) ≡ contains self.now v) }
        // Printed and read in npm mode, they give comparators that the same releases satisfy.
        ensures reads_back { IfOk result (λ ranges.
            ReadsBack (ranges_text (set_of ranges.range_set)) IsRelease self.now) }
        // It can run out of memory only if the set contains a release.
        ensures out_of_memory { IfErr result (λ _. (v : PlainVersion)
            × IsRelease v × IsIn v self.now) }
    {
        laws::printed_sets_read_back();
        let ranges = ranges_of(alloc, &self.releases)?;
        Ok(in_npm_mode(ranges))
    }

    // Determined by: equation.
    /// Returns the pre-releases of the set as ranges of plain comparators, like
    /// [`VersionSet::release_ranges`] for the releases. A pre-release satisfies them by precedence.
    ///
    /// Each lower bound has a pre-release. An upper bound is a release if all pre-releases right
    /// below it are in the set, as in `>=1.2.3-b <1.2.3`. The version right above 1.2.3-a is
    /// 1.2.3-a.0, so if only 1.2.3-a is in the interval, it is written as `=1.2.3-a`. The lowest
    /// pre-release is 0.0.0-0, and all pre-releases are `>=0.0.0-0`.
    ///
    /// It takes time linear in the number of boundaries, and allocates only if the set contains a
    /// pre-release. `Err` means out of memory.
    pub fn pre_release_ranges(&self, alloc: Global) -> Result<SetRanges, AllocError>
        ensures ranges { IfOk result (λ ranges.
            set_of ranges.range_set ≡ set_kept (pre_release_ranges self.now)) }
        // A pre-release satisfies them if and only if it is in the set. The result keeps a number
        // of 2^64 or more as a string.
        ensures meaning { IfOk result (λ ranges. (v : PlainVersion) → IsPreRelease v
            → meets_set v (pre_release_ranges self.now) ≡ contains self.now v) }
        // If the identifiers are printable, the ranges, printed and read in npm mode, give
        // comparators that the same pre-releases satisfy. The exception is `*`, which npm mode
        // reads as `>=0.0.0`.
        ensures reads_back { IsTrue (list_all is_printable_version self.now.pre_releases)
            → IfOk result (λ ranges. IsTrue (not (is_whole (set_of ranges.range_set).ranges))
            → ReadsBack (ranges_text (set_of ranges.range_set)) IsPreRelease self.now) }
        // It can run out of memory only if the set contains a pre-release.
        ensures out_of_memory { IfErr result (λ _. (v : PlainVersion)
            × IsPreRelease v × IsIn v self.now) }
    {
        laws::printed_sets_read_back();
        let ranges = ranges_of(alloc, &self.pre_releases)?;
        Ok(in_npm_mode(ranges))
    }
}

/// Returns ranges as a set in npm mode.
fn in_npm_mode(ranges: Vec<Range>) -> SetRanges
    ensures { set_of result.range_set ≡ record {
      ranges = map range_of ranges.items;
      compat = Npm;
    } }
{
    SetRanges {
        range_set: RangeSet {
            ranges,
            compat: Compat::Npm,
        },
    }
}

// Determined by: equation.
impl fmt::Display for SetRanges {
    ghost use Rattle.version_sets.specs.SetRanges.{ranges_text};

    ghost output = { λ ranges. Some (ranges_text (set_of ranges.range_set)) };

    /// Writes the ranges as a range in npm mode, separated by ` || `: `*` for `>=0.0.0` and
    /// `>=0.0.0-0`, and `<0.0.0-0` for no range. It does not allocate, and its only error is the
    /// writer's.
    fn fmt<W: fmt::Write>(&self, f: &mut fmt::Formatter<W>) -> fmt::Result {
        let (set, ranges) = (&self.range_set, self.range_set.ranges.as_slice());
        match ranges {
            [] => f.write_str("<0.0.0-0"),
            [range] if is_from_lowest(&range.comparator_set) => f.write_str("*"),
            _ => write!(f, "{set}"),
        }
    }
}

/// Returns whether the comparators are only `>=0.0.0` or only `>=0.0.0-0`.
fn is_from_lowest(comparators: &[Comparator]) -> bool
    ensures { result ≡ from_lowest (map comparator_of comparators.now) }
{
    match comparators {
        [only] => {
            let is_zero = only.major == 0 && only.minor == 0 && only.patch == 0;
            matches!(&only.op, Op::Gte) && is_zero && is_lowest_pre(&only.pre)
        }
        _ => false,
    }
}

/// Returns whether there is no pre-release, or only the lowest, `0`.
pub(crate) fn is_lowest_pre<T: AsIdentifier>(identifiers: &[T]) -> bool
    ensures { result ≡ lowest_pre (map T.value identifiers.now) }
{
    match identifiers {
        [] => true,
        [only] => matches!(only.as_identifier(), IdentifierRef::Numeric(0)),
        _ => false,
    }
}
