//! The precedence of versions (SemVer 2.0.0, section 11).
ghost use Rattle.std.specs.Prelude.{◌≡◌, ◌∷◌, [], List, MatchOption};
ghost use Rattle.std.specs.Cmp.Lexicographic.{slice_cmp};
ghost use Rattle.semver_texts.specs.Compared.{of_numbers, ref_value};
ghost use Rattle.semver_texts.specs.Precedence.{identifier_cmp, pre_cmp, precedence};
ghost use Rattle.semver_texts.specs.Texts.{is_empty};
ghost use Rattle.semver_texts.specs.Versions.{IdentifierValue};
ghost use Rattle.semver_texts.specs.VersionViews.{version_value};

use crate::large_number::LargeNumber;
use crate::version::Version;
use std::cmp::Ordering;

/// An identifier of a pre-release for comparing.
#[derive(Clone, Copy)]
pub enum IdentifierRef<'a> {
    /// A number below 2^64.
    Numeric(u64),
    /// A number of 2^64 or more.
    LargeNumeric(LargeNumber<'a>),
    /// Any other string, as its bytes.
    AlphaNumeric(&'a [u8]),
}

/// The identifiers of a pre-release, in order.
pub trait Identifiers<'a>: Copy {
    /// The identifiers that are left.
    ghost left: { Self → List IdentifierValue };

    /// Returns whether no identifier is left.
    fn is_empty(&self) -> bool
        ensures { result ≡ is_empty (left self.now) };

    /// Takes the first of the identifiers that are left.
    fn next(&mut self) -> Option<IdentifierRef<'a>>
        ensures { MatchOption result ((left self.old ≡ []) × (left self.new ≡ []))
            (λ first. left self.old ≡ ref_value first ∷ left self.new) };
}

// Determined by: equation.
/// Compares two versions by precedence (SemVer 2.0.0, section 11). The result is `Less` if the
/// first version is below the other. Build metadata is ignored. It does not allocate.
///
/// The three numbers are compared first, from left to right. If they are equal, a version without a
/// pre-release is above each version with one, and two pre-releases are compared by the first
/// identifiers that differ: numbers numerically, strings by their bytes, and a number is below any
/// string. If no identifiers differ, the pre-release with more identifiers is above the other.
#[must_use]
pub fn cmp_precedence(version: &Version, other: &Version) -> Ordering
    ensures { result ≡ precedence (version_value version.now).plain
        (version_value other.now).plain }
{
    compare(
        (version.major, version.minor, version.patch),
        version.pre.as_slice(),
        (other.major, other.minor, other.patch),
        other.pre.as_slice(),
    )
}

// Determined by: equation.
/// Compares two versions by precedence, given by their numbers and the identifiers of their
/// pre-releases. It does not allocate.
#[inline(always)]
pub fn compare<'a, A: Identifiers<'a>, B: Identifiers<'a>>(
    numbers: (u64, u64, u64),
    pre: A,
    other_numbers: (u64, u64, u64),
    other_pre: B,
) -> Ordering
    ensures { result ≡ precedence (of_numbers numbers (A.left pre))
        (of_numbers other_numbers (B.left other_pre)) }
{
    let by_numbers = numbers.cmp(&other_numbers);
    if by_numbers.is_ne() {
        return by_numbers;
    }
    compare_pre_releases(pre, other_pre)
}

// Determined by: equation.
/// Compares two pre-releases. No pre-release is above any pre-release, and two pre-releases are
/// compared by their identifiers.
#[inline(always)]
pub fn compare_pre_releases<'a, A: Identifiers<'a>, B: Identifiers<'a>>(
    version: A,
    other: B,
) -> Ordering
    ensures { result ≡ pre_cmp (A.left version) (B.left other) }
{
    match (version.is_empty(), other.is_empty()) {
        (true, true) => Ordering::Equal,
        (true, false) => Ordering::Greater,
        (false, true) => Ordering::Less,
        (false, false) => compare_lists(version, other),
    }
}

/// Compares two lists of identifiers: by the first ones that differ, or if there are none, by
/// length.
fn compare_lists<'a, A: Identifiers<'a>, B: Identifiers<'a>>(version: A, other: B) -> Ordering
    ensures { result ≡ slice_cmp identifier_cmp (A.left version) (B.left other) }
{
    let (mut rest, mut others) = (version, other);
    while let Some(first) = rest.next() {
        let Some(beside) = others.next() else {
            return Ordering::Greater;
        };
        let ordering = compare_identifiers(first, beside);
        if ordering.is_ne() {
            return ordering;
        }
    }
    if others.is_empty() {
        Ordering::Equal
    } else {
        Ordering::Less
    }
}

/// Compares two identifiers: numbers numerically, strings by their bytes, and a number is below any
/// string.
#[inline(always)]
fn compare_identifiers(first: IdentifierRef<'_>, other: IdentifierRef<'_>) -> Ordering
    ensures { result ≡ identifier_cmp (ref_value first.entry) (ref_value other.entry) }
{
    match (first, other) {
        (IdentifierRef::Numeric(number), IdentifierRef::Numeric(bound)) => number.cmp(&bound),
        (IdentifierRef::Numeric(_), _) => Ordering::Less,
        (IdentifierRef::AlphaNumeric(text), IdentifierRef::AlphaNumeric(bound)) => text.cmp(bound),
        (IdentifierRef::AlphaNumeric(_), _) => Ordering::Greater,
        (IdentifierRef::LargeNumeric(_), IdentifierRef::Numeric(_)) => Ordering::Greater,
        (IdentifierRef::LargeNumeric(number), IdentifierRef::LargeNumeric(bound)) => {
            number.compare(&bound)
        }
        (IdentifierRef::LargeNumeric(_), IdentifierRef::AlphaNumeric(_)) => Ordering::Less,
    }
}
