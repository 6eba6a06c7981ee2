//! The set of the versions that are in at least one range, where a range is the intersection of
//! intervals.

ghost use Rattle.std.specs.Prelude.{◌≡◌, ◌&&◌, ◌||◌, Bool, true, false, map, if◌then◌else◌, IfOk};
ghost use Rattle.std.specs.Prelude.{not};
ghost use Rattle.semver_texts.specs.Precedence.{precedence};
ghost use Rattle.semver_texts.specs.Texts.{is_empty};
ghost use Rattle.semver_texts.specs.Versions.{PlainVersion};
ghost use Rattle.semver_texts.specs.declared.grammar.Digits.{Digits as SomeDigits};
ghost use Rattle.semver_versions.specs.ReadVersions.{read_plain};
ghost use Rattle.version_sets.specs.Boundaries.{is_inside};
ghost use Rattle.version_sets.specs.Printable.{IsPrintable, prints_by};
ghost use Rattle.version_sets.specs.Releases.{release_value};
ghost use Rattle.version_sets.specs.VersionSets.{contains, AreBoundaries, Fits, IsPreRelease};
ghost use Rattle.version_sets.specs.VersionSets.{IsRelease};
ghost use Rattle.version_sets.specs.Steps.Cuts.{is_in_interval};
ghost use Rattle.version_sets.specs.Steps.EndPlaces.{end_place};
ghost use Rattle.version_sets.specs.Steps.Ends.{each_prints, has_numbers, in_each};
ghost use Rattle.version_sets.specs.Steps.Ends.{in_ranges, ranges_print};
ghost use Rattle.version_sets.specs.Steps.Spans.{in_some, some_empty};
ghost use Rattle.version_sets.specs.Steps.SpanViews.{bounds_hold, is_within, span_value};
ghost use Rattle.version_sets.specs.Steps.SpanViews.{spans_hold};
ghost use Rattle.std.specs.List.{list_all};

use crate::above_cuts::first_release;
use crate::conjunction::{Conjunction, Ranges};
use crate::cut::Interval;
use crate::pre_release_end::PreReleaseEnd;
use crate::release::{LOWEST, Release};
use crate::spans::{Bounds, Span, boundaries_of};
use crate::version_set::VersionSet;
use semver_texts::grammar::Digits;
use semver_versions::read_version::ReadVersion;
use std::alloc::{AllocError, Global};

impl<'text> Conjunction<'text> {
    // Determined by: equation.
    /// Returns the intersection of no intervals, which contains all versions.
    pub fn new() -> Conjunction<'text>
        ensures all { (v : PlainVersion) → Fits v → in_each result v ≡ true }
        ensures printable { (digits : SomeDigits) → each_prints digits result ≡ true }
    {
        Conjunction {
            releases: Bounds {
                from: Some(LOWEST),
                to: None,
            },
            pre_releases: Bounds {
                from: Some(PreReleaseEnd::lowest(LOWEST)),
                to: None,
            },
        }
    }

    // Determined by: equation.
    /// Returns the intersection with one more term, which has an interval for releases and one for
    /// pre-releases. `digits` says how numeric identifiers are read.
    #[inline(always)]
    pub fn and(
        self,
        releases: &Interval<'text>,
        pre_releases: &Interval<'text>,
        digits: Digits,
    ) -> Conjunction<'text>
        ensures meaning { (v : PlainVersion) → Fits v → in_each result v ≡ (in_each self.entry v
            && (if is_empty v.pre then is_in_interval digits releases.now v
            else is_in_interval digits pre_releases.now v)) }
        ensures printable { each_prints digits self.entry ≡ true
            → each_prints digits result ≡ true }
    {
        Conjunction {
            releases: self.releases.and(released(releases)),
            pre_releases: self.pre_releases.and(pre_released(pre_releases, digits)),
        }
    }
}

/// Returns the releases of an interval.
#[inline(always)]
fn released(interval: &Interval<'_>) -> Bounds<Release>
    ensures { (digits : SomeDigits) (v : PlainVersion) → IsRelease v
        → is_within release_value result v ≡ is_in_interval digits interval.now v }
{
    let from = match &interval.lower {
        Some(cut) => first_release(cut),
        None => Some(LOWEST),
    };
    let to = match &interval.upper {
        Some(cut) => first_release(cut),
        None => None,
    };
    Bounds { from, to }
}

/// Returns the pre-releases of an interval.
#[inline(always)]
fn pre_released<'text>(interval: &Interval<'text>, digits: Digits) -> Bounds<PreReleaseEnd<'text>>
    ensures meaning { (v : PlainVersion) → IsPreRelease v
        → is_within end_place result v ≡ is_in_interval digits interval.now v }
    ensures printable { bounds_hold end_place (prints_by digits) result ≡ true }
{
    let from = match &interval.lower {
        Some(cut) => PreReleaseEnd::first(cut, digits),
        None => Some(PreReleaseEnd::lowest(LOWEST)),
    };
    let to = match &interval.upper {
        Some(cut) => PreReleaseEnd::first(cut, digits),
        None => None,
    };
    Bounds { from, to }
}

impl<'text> Ranges<'text> {
    // Determined by: equation.
    /// Returns a list of no ranges, which contains no version. It does not allocate.
    pub fn new(alloc: Global) -> Ranges<'text>
        ensures none { (v : PlainVersion) → in_ranges result v ≡ false }
        ensures printable { (digits : SomeDigits) → ranges_print digits result ≡ true }
    {
        Ranges {
            releases: Vec::new(alloc),
            pre_releases: Vec::new(alloc),
        }
    }

    // Determined by: equation.
    /// Adds the releases of a range. `Err` means out of memory.
    pub fn push_releases(&mut self, range: &Conjunction<'text>) -> Result<(), AllocError>
        ensures meaning { IfOk result (λ _. (v : PlainVersion) → in_ranges self.new v
            ≡ (in_ranges self.old v || (is_empty v.pre && in_each range.now v))) }
        ensures printable { (digits : SomeDigits) → ranges_print digits self.old ≡ true
            → ranges_print digits self.new ≡ true }
    {
        range.releases.push_to(&mut self.releases)
    }

    // Determined by: equation.
    /// Adds the pre-releases of a range. `Err` means out of memory.
    pub fn push_pre_releases(&mut self, range: &Conjunction<'text>) -> Result<(), AllocError>
        ensures meaning { IfOk result (λ _. (v : PlainVersion) → in_ranges self.new v
            ≡ (in_ranges self.old v || (not (is_empty v.pre) && in_each range.now v))) }
        ensures printable { (digits : SomeDigits) → each_prints digits range.now ≡ true
            → ranges_print digits self.old ≡ true → ranges_print digits self.new ≡ true }
    {
        range.pre_releases.push_to(&mut self.pre_releases)
    }

    // Determined by: equation.
    /// Adds the pre-releases of a range that have one of the given triples of numbers. `Err` means
    /// out of memory.
    pub fn push_stated(
        &mut self,
        range: &Conjunction<'text>,
        numbers: &Release,
    ) -> Result<(), AllocError>
        ensures meaning { IfOk result (λ _. (v : PlainVersion) → Fits v → in_ranges self.new v
            ≡ (in_ranges self.old v
            || (not (is_empty v.pre) && (in_each range.now v && has_numbers v numbers.now)))) }
        ensures printable { (digits : SomeDigits) → each_prints digits range.now ≡ true
            → ranges_print digits self.old ≡ true → ranges_print digits self.new ≡ true }
    {
        range
            .pre_releases
            .and(among(*numbers))
            .push_to(&mut self.pre_releases)
    }

    // Determined by: equation.
    /// Returns the set of the versions in these ranges, and of the releases in one last range.
    /// `Err` means out of memory.
    #[inline(always)]
    pub fn into_set(
        self,
        alloc: Global,
        last: &Conjunction<'text>,
        digits: Digits,
    ) -> Result<VersionSet, AllocError>
        ensures meaning { IfOk result (λ set. (v : PlainVersion) → Fits v → contains set v
            ≡ (in_ranges self.entry v || (is_empty v.pre && in_each last.now v))) }
        ensures printable { ranges_print digits self.entry ≡ true → IfOk result IsPrintable }
        ensures digits { IfOk result (λ set. set.digits ≡ digits) }
    {
        let releases = all_releases(alloc, self.releases, &last.releases)?;
        let pre_releases = all_pre_releases(alloc, self.pre_releases)?;
        Ok(VersionSet::of_boundaries(digits, releases, pre_releases))
    }
}

/// Returns the bounds of the pre-releases with the given numbers.
pub(crate) fn among<'text>(numbers: Release) -> Bounds<PreReleaseEnd<'text>>
    ensures meaning { (v : PlainVersion) → IsPreRelease v
        → is_within end_place result v ≡ has_numbers v numbers }
    ensures printable { (digits : SomeDigits)
        → bounds_hold end_place (prints_by digits) result ≡ true }
{
    Bounds {
        from: Some(PreReleaseEnd::lowest(numbers)),
        to: PreReleaseEnd::above_numbers(numbers),
    }
}

/// Returns the boundaries of the releases, together with those of a last range. Nothing is sorted
/// if there is only the last range, for speed, since most range strings have one range.
#[inline(always)]
fn all_releases(
    alloc: Global,
    spans: Vec<Span<Release>>,
    last: &Bounds<Release>,
) -> Result<Vec<Release>, AllocError>
    requires { some_empty precedence (map (span_value release_value) spans.items) ≡ false }
    ensures boundaries { IfOk result (λ boundaries.
        AreBoundaries IsRelease (map release_value boundaries.items)) }
    ensures meaning { IfOk result (λ boundaries. (v : PlainVersion)
        → is_inside precedence (map release_value boundaries.items) v
        ≡ (in_some precedence (map (span_value release_value) spans.items) v
        || is_within release_value last.now v)) }
{
    if spans.is_empty() {
        return last.boundaries(alloc);
    }
    let mut spans = spans;
    last.push_to(&mut spans)?;
    boundaries_of(alloc, &mut spans)
}

/// Returns the boundaries of spans of pre-releases. Nothing is sorted if there are none, for speed,
/// since most range strings name no pre-release.
#[inline(always)]
fn all_pre_releases(
    alloc: Global,
    spans: Vec<Span<PreReleaseEnd<'_>>>,
) -> Result<Vec<ReadVersion>, AllocError>
    requires { some_empty precedence (map (span_value end_place) spans.items) ≡ false }
    ensures boundaries { IfOk result (λ boundaries.
        AreBoundaries IsPreRelease (map read_plain boundaries.items)) }
    ensures meaning { IfOk result (λ boundaries. (v : PlainVersion)
        → is_inside precedence (map read_plain boundaries.items) v
        ≡ in_some precedence (map (span_value end_place) spans.entry.items) v) }
    ensures holds { IfOk result (λ boundaries. (p : PlainVersion → Bool)
        → spans_hold end_place p spans.entry.items ≡ true
        → list_all p (map read_plain boundaries.items) ≡ true) }
{
    if spans.is_empty() {
        return Ok(Vec::new(alloc));
    }
    let mut spans = spans;
    boundaries_of(alloc, &mut spans)
}
