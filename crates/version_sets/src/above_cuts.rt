//! The lowest release and the lowest pre-release above a cut.

ghost use Rattle.std.specs.Prelude.{◌≡◌, true, map, option_map, IfOk};
ghost use Rattle.std.specs.List.{list_all};
ghost use Rattle.std.specs.Ordering.{is_gt};
ghost use Rattle.semver_texts.specs.Precedence.{precedence};
ghost use Rattle.semver_texts.specs.Texts.{cut_at_dots, is_part};
ghost use Rattle.semver_texts.specs.Versions.{PlainVersion};
ghost use Rattle.semver_texts.specs.VersionViews.{identifier_value};
ghost use Rattle.semver_texts.specs.declared.grammar.Digits.{Digits as SomeDigits};
ghost use Rattle.semver_ranges.specs.Partials.{kept};
ghost use Rattle.semver_ranges.specs.Steps.PartialViews.{place_number};
ghost use Rattle.version_sets.specs.Printable.{prints_by};
ghost use Rattle.version_sets.specs.Releases.{release_value};
ghost use Rattle.version_sets.specs.VersionSets.{Fits, IsPreRelease, IsRelease};
ghost use Rattle.version_sets.specs.Steps.Numbers.{lowest_place, numbers_cmp};
ghost use Rattle.version_sets.specs.Steps.Cuts.{first_numbers, is_above_cut};
ghost use Rattle.version_sets.specs.Steps.EndPlaces.{end_place, kept_end};
ghost use Rattle.version_sets.specs.Steps.Spans.{reached};
ghost use Rattle.version_sets.specs.Steps.SpanViews.{holds_at, successor};

use crate::cut::Cut;
use crate::pre_release_end::PreReleaseEnd;
use crate::release::{Release, next_numbers};
use crate::span_end::SpanEnd;
use crate::successor::Successor;
use semver_ranges::comparing::InRanges;
use semver_ranges::partial::Place;
use semver_ranges::table::Side;
use semver_texts::decimals::number_of_digits;
use semver_texts::dotted::{of_parts, text_of_parts};
use semver_texts::grammar::Digits;
use semver_texts::identifiers::{ByDigits, Joined};
use semver_texts::precedence::{Identifiers, compare_pre_releases};
use semver_versions::read_version::ReadVersion;
use semver_versions::version::{Identifier, Version};
use std::alloc::{AllocError, Global};
use std::cmp::Ordering;

/// Returns the lowest release above a cut, if there is one. If the cut is at a pre-release, that
/// release has the same numbers.
pub(crate) fn first_release(cut: &Cut<'_>) -> Option<Release>
    ensures { (digits : SomeDigits) (v : PlainVersion) → IsRelease v
        → reached precedence (option_map release_value result) v ≡ is_above_cut digits cut.now v }
{
    match cut.side {
        Side::Below | Side::At => Some(cut.numbers),
        Side::Past if !cut.pre.is_empty() => Some(cut.numbers),
        Side::Past => next_numbers(cut.numbers),
        Side::Above(place) => next_numbers(highest_numbers(cut.numbers, place)),
    }
}

/// Returns the highest numbers that are equal to the given ones up to a place.
fn highest_numbers(numbers: Release, place: Place) -> Release
    ensures { (v : PlainVersion) → Fits v → is_gt (numbers_cmp v (release_value result))
        ≡ is_gt (first_numbers (place_number place) v (release_value numbers)) }
{
    let (major, minor, patch) = (numbers.major, numbers.minor, numbers.patch);
    match place {
        Place::Major => Release {
            major,
            minor: u64::MAX,
            patch: u64::MAX,
        },
        Place::Minor => Release {
            major,
            minor,
            patch: u64::MAX,
        },
        Place::Patch => Release {
            major,
            minor,
            patch,
        },
    }
}

impl<'text> PreReleaseEnd<'text> {
    /// Returns the beginning of the pre-releases with some numbers.
    pub(crate) fn lowest(numbers: Release) -> PreReleaseEnd<'text>
        ensures place { end_place result ≡ lowest_place numbers }
        ensures printable { (digits : SomeDigits) → prints_by digits (end_place result) ≡ true }
    {
        PreReleaseEnd {
            numbers,
            pre: &[],
            successor: true,
            digits: Digits::Kept,
        }
    }

    /// Returns the beginning of the pre-releases of the next numbers, if there are any.
    pub(crate) fn above_numbers(numbers: Release) -> Option<PreReleaseEnd<'text>>
        ensures meaning { (v : PlainVersion) → IsPreRelease v
            → reached precedence (option_map end_place result) v
            ≡ is_gt (numbers_cmp v (release_value numbers)) }
        ensures printable { (digits : SomeDigits)
            → holds_at (prints_by digits) (option_map end_place result) ≡ true }
    {
        Some(PreReleaseEnd::lowest(next_numbers(numbers)?))
    }

    /// Returns the beginning of the pre-releases above a cut, if there are any. Above a release
    /// they begin with the next numbers, since no pre-release with the same numbers is above it.
    /// Directly above a pre-release comes the one that has the number 0 as one more identifier.
    #[inline(always)]
    pub(crate) fn first(cut: &Cut<'text>, digits: Digits) -> Option<PreReleaseEnd<'text>>
        ensures meaning { (v : PlainVersion) → IsPreRelease v
            → reached precedence (option_map end_place result) v ≡ is_above_cut digits cut.now v }
        ensures printable { holds_at (prints_by digits) (option_map end_place result) ≡ true }
    {
        match cut.side {
            Side::Below => Some(PreReleaseEnd::lowest(cut.numbers)),
            Side::At if !cut.pre.is_empty() => Some(PreReleaseEnd::beside(cut, false, digits)),
            Side::Past if !cut.pre.is_empty() => Some(PreReleaseEnd::beside(cut, true, digits)),
            Side::At | Side::Past => PreReleaseEnd::above_numbers(cut.numbers),
            Side::Above(place) => PreReleaseEnd::above_numbers(highest_numbers(cut.numbers, place)),
        }
    }

    /// Returns the version of a cut, or the next pre-release above it.
    fn beside(cut: &Cut<'text>, successor: bool, digits: Digits) -> PreReleaseEnd<'text>
        ensures numbers { result.numbers ≡ cut.now.numbers }
        ensures pre { result.pre.now ≡ cut.now.pre.now }
        ensures successor { result.successor ≡ successor }
        ensures digits { result.digits ≡ digits }
    {
        PreReleaseEnd {
            numbers: cut.numbers,
            pre: cut.pre,
            successor,
            digits,
        }
    }

    /// Returns the identifiers as they are compared.
    pub(crate) fn compared_pre(&self) -> ByDigits<Successor<Joined<'text, InRanges>>>
        ensures { ⟦<ByDigits<Successor<Joined<'text, InRanges>>> as Identifiers<'text>>⟧.left result
            ≡ (end_place self.now).pre }
    {
        let pre = Successor {
            identifiers: Joined::of(self.pre, InRanges),
            zero: self.successor || self.pre.is_empty(),
        };
        ByDigits::of(pre, self.digits)
    }
}

impl<'text> SpanEnd for PreReleaseEnd<'text> {
    type Boundary = ReadVersion;

    ghost place = { end_place };

    fn compare(&self, other: &PreReleaseEnd<'text>) -> Ordering {
        let turns = self.numbers.compare(&other.numbers);
        if !turns.is_eq() {
            return turns;
        }
        compare_pre_releases(self.compared_pre(), other.compared_pre())
    }

    fn boundary(&self, alloc: Global) -> Result<ReadVersion, AllocError> {
        let version = Version {
            major: self.numbers.major,
            minor: self.numbers.minor,
            patch: self.numbers.patch,
            pre: self.kept_pre(alloc)?,
            build: Vec::new(alloc),
        };
        Ok(ReadVersion {
            version,
            digits: self.digits,
        })
    }
}

impl PreReleaseEnd<'_> {
    /// Returns the identifiers as a version keeps them. `Err` means out of memory.
    fn kept_pre(&self, alloc: Global) -> Result<Vec<Identifier>, AllocError>
        ensures { IfOk result (λ pre. map identifier_value pre.items ≡ (kept_end self.now).pre) }
    {
        let mut pre = kept_parts(alloc, self.pre)?;
        if self.successor || self.pre.is_empty() {
            pre.push(Identifier::Numeric(0))?;
        }
        Ok(pre)
    }
}

/// Returns the parts of a pre-release as ranges keep them. `Err` means out of memory.
fn kept_parts(alloc: Global, pre: &[u8]) -> Result<Vec<Identifier>, AllocError>
    requires { list_all is_part (cut_at_dots pre.now) ≡ true }
    ensures { IfOk result (λ parts. map identifier_value parts.items
        ≡ map kept (cut_at_dots pre.now)) }
{
    of_parts(alloc, text_of_parts(pre), |part| kept_part(alloc, part))
}

/// Returns a part of a pre-release as ranges keep it. `Err` means out of memory.
fn kept_part(alloc: Global, part: &str) -> Result<Identifier, AllocError>
    ensures { IfOk result (λ identifier. identifier_value identifier ≡ kept part.now) }
{
    match number_of_digits(part.as_bytes()) {
        Some(number) => Ok(Identifier::Numeric(number)),
        None => Ok(Identifier::AlphaNumeric(String::from_str(alloc, part)?)),
    }
}
