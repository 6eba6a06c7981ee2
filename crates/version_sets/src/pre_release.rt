//! Boundaries of pre-releases.

ghost use Rattle.std.specs.Prelude.{◌≡◌, ◌++◌, ◌∷◌, [], map, IfOk, Some};
ghost use Rattle.std.specs.Ordering.{is_eq};
ghost use Rattle.semver_texts.specs.Precedence.{pre_cmp};
ghost use Rattle.semver_texts.specs.Versions.{numeric};
ghost use Rattle.version_sets.specs.SetRanges.{is_same_end, pre_release_above};
ghost use Rattle.semver_texts.specs.Digits.{as_kept, identifier_by, identifiers_by, plain_kept};
ghost use Rattle.semver_texts.specs.VersionViews.{identifier_value, version_value};
ghost use Rattle.semver_versions.specs.ReadVersions.{read_plain};

use crate::boundary::Boundary;
use crate::comparators::ComparatorRef;
use crate::release::{Release, next_numbers};
use crate::set_ranges::is_lowest_pre;
use crate::successor::Successor;
use semver_ranges::Op;
use semver_texts::grammar::Digits;
use semver_texts::precedence::compare_pre_releases;
use semver_versions::read_version::ReadVersion;
use semver_versions::version::{Identifier, Version};
use std::alloc::{AllocError, Global};
use std::cmp::Ordering;

/// A boundary of pre-releases: a version, and how its numeric identifiers are read.
impl Boundary for ReadVersion {
    ghost use Rattle.std.specs.Prelude.{false};
    ghost use Rattle.version_sets.specs.SetRanges.{of_pre_releases};
    ghost use Rattle.semver_versions.specs.ReadVersions.{read_plain};

    ghost place = { read_plain };

    ghost are_releases = { false };

    ghost kind = { of_pre_releases };

    fn compare(&self, other: &ReadVersion) -> Ordering {
        self.compare_read(other)
    }

    /// Copies the version without its build metadata.
    fn at_same_place(&self, alloc: Global) -> Result<ReadVersion, AllocError> {
        self.without_build(alloc)
    }

    fn numbers(&self) -> Release {
        Release::from_version(&self.version)
    }

    #[tactic(auto, using(crate::proofs::DigitLaws::lowest_by))]
    fn has_lowest_pre(&self) -> bool {
        is_lowest_pre(&self.version.pre)
    }

    fn is_alone(&self, to: Option<&ReadVersion>) -> bool {
        match to {
            Some(to) => {
                to.numbers().compare(&self.numbers()).is_eq() && are_right_above(to, self)
            }
            None => false,
        }
    }

    fn comparator<'a>(&'a self, op: Op) -> ComparatorRef<'a> {
        ComparatorRef {
            op,
            numbers: self.numbers(),
            pre: self.version.pre.as_slice(),
            digits: self.digits,
        }
    }

    fn upper_comparator<'a>(&self, to: &'a ReadVersion) -> ComparatorRef<'a> {
        if !begins_next_numbers(to, self) {
            return to.comparator(Op::Lt);
        }
        ComparatorRef {
            op: Op::Lt,
            numbers: self.numbers(),
            pre: &[],
            digits: Digits::Kept,
        }
    }
}

/// Returns whether a boundary is at the lowest pre-release of the numbers right above another's.
fn begins_next_numbers(boundary: &ReadVersion, below: &ReadVersion) -> bool
    ensures { result ≡ is_same_end (Some (read_plain boundary.now))
        (pre_release_above (read_plain below.now)) }
{
    match next_numbers(below.numbers()) {
        Some(next) => {
            boundary.numbers().compare(&next).is_eq()
                && !boundary.version.pre.is_empty()
                && boundary.has_lowest_pre()
        }
        None => false,
    }
}

/// Returns whether the identifiers of a boundary are another's followed by the number 0.
fn are_right_above(boundary: &ReadVersion, below: &ReadVersion) -> bool
    ensures { result ≡ is_eq (pre_cmp (read_plain boundary.now).pre
        ((read_plain below.now).pre ++ numeric 0 ∷ [])) }
{
    let above = Successor {
        identifiers: below.pre(),
        zero: true,
    };
    compare_pre_releases(boundary.pre(), above).is_eq()
}

/// Returns the version as a `Version` keeps it, without build metadata. `Err` means out of memory.
pub(crate) fn kept_version(alloc: Global, read: &ReadVersion) -> Result<Version, AllocError>
    ensures { IfOk result (λ version. version_value version
        ≡ record { plain = plain_kept (read_plain read.now); build = [] }) }
{
    Ok(Version {
        major: read.version.major,
        minor: read.version.minor,
        patch: read.version.patch,
        pre: kept_identifiers(alloc, &read.version.pre, read.digits)?,
        build: Vec::new(alloc),
    })
}

/// Copies identifiers, read as `digits` says, as a `Version` keeps them. `Err` means out of memory.
fn kept_identifiers(
    alloc: Global,
    identifiers: &[Identifier],
    digits: Digits,
) -> Result<Vec<Identifier>, AllocError>
    ensures { IfOk result (λ copies. map identifier_value copies.items
        ≡ map as_kept (identifiers_by digits (map identifier_value identifiers.now))) }
{
    let mut copies = Vec::with_capacity(alloc, identifiers.len())?;
    for identifier in identifiers {
        copies.push(kept_identifier(identifier, digits)?)?;
    }
    Ok(copies)
}

/// Copies an identifier, read as `digits` says, as a `Version` keeps it. `Err` means out of memory.
#[tactic(auto, using(crate::proofs::DigitLaws::kept_number, crate::proofs::DigitLaws::kept_text))]
fn kept_identifier(identifier: &Identifier, digits: Digits) -> Result<Identifier, AllocError>
    ensures { IfOk result (λ copy. identifier_value copy
        ≡ as_kept (identifier_by digits (identifier_value identifier.now))) }
{
    let _digits = digits;
    match identifier {
        Identifier::Numeric(number) => Ok(Identifier::Numeric(*number)),
        Identifier::AlphaNumeric(text) => Ok(Identifier::AlphaNumeric(text.clone()?)),
    }
}
