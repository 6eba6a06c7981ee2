//! The first version of a kind, with numbers within a limit, that is inside some boundaries.

ghost use Rattle.std.specs.Prelude.{◌≡◌, [], Bool, true, false, map, option_map, IfOk, IfSome};
ghost use Rattle.std.specs.List.{list_all};
ghost use Rattle.std.specs.Ordering.{is_eq, is_lt};
ghost use Rattle.semver_texts.specs.Digits.{plain_kept};
ghost use Rattle.semver_texts.specs.Precedence.{precedence};
ghost use Rattle.semver_texts.specs.Texts.{is_empty};
ghost use Rattle.semver_texts.specs.VersionViews.{version_value};
ghost use Rattle.semver_texts.specs.Versions.{PlainVersion};
ghost use Rattle.semver_versions.specs.ReadVersions.{read_plain};
ghost use Rattle.version_sets.specs.Releases.{release_value};
ghost use Rattle.version_sets.specs.VersionSets.{AreBoundaries};
ghost use Rattle.version_sets.specs.Steps.Numbers.{numbers_cmp};
ghost use Rattle.version_sets.specs.Steps.Within.{AreFirstNumbers, IsFirstFrom, IsFirstInside};
ghost use Rattle.version_sets.specs.Steps.Within.{IsOfKindWithin, first_value};
ghost use Rattle.version_sets.specs.Steps.Places.{IsOfKind};

use crate::boundary::Boundary;
use crate::pre_release::kept_version;
use crate::release::Release;
use semver_versions::read_version::ReadVersion;
use semver_versions::version::{Identifier, Version};
use std::alloc::{AllocError, Global};
use std::cmp::Ordering;

/// The first version of a kind at or above a boundary with numbers within a limit. It is the
/// boundary's if its numbers are these, and otherwise the lowest version with these numbers.
#[derive(Drop)]
pub(crate) struct First<'a, T> {
    pub(crate) boundary: &'a T,
    pub(crate) numbers: Release,
}

impl<'a, T: Boundary> First<'a, T> {
    /// Returns the version of a boundary, if one is given.
    pub(crate) fn at(boundary: Option<&'a T>) -> Option<First<'a, T>>
        ensures { option_map (first_value T.are_releases T.place) result
            ≡ option_map (λ b. T.place b.now) boundary.entry }
    {
        let boundary = boundary?;
        let numbers = boundary.numbers();
        Some(First { boundary, numbers })
    }

    /// Returns the first version at or above a boundary whose numbers are at most `most`.
    fn from_boundary(boundary: &'a T, most: u64) -> Option<First<'a, T>>
        requires { is_empty (T.place boundary.now).pre ≡ T.are_releases }
        ensures first { IsFirstFrom (IsOfKindWithin T.are_releases most) (T.place boundary.entry.now)
            (option_map (first_value T.are_releases T.place) result) }
        ensures boundary { IfSome result (λ first. first.boundary ≡ boundary.entry) }
    {
        let numbers = boundary.numbers().within(most)?;
        Some(First { boundary, numbers })
    }

    /// Returns whether it is the version of its boundary.
    fn is_at_boundary(&self) -> bool
        ensures { result ≡ is_eq (numbers_cmp (release_value self.now.numbers)
            (T.place self.now.boundary.now)) }
    {
        self.numbers.compare(&self.boundary.numbers()).is_eq()
    }

    /// Returns whether it is below another boundary.
    fn is_below(&self, end: &T) -> bool
        requires { is_empty (T.place end.now).pre ≡ T.are_releases }
        ensures { result ≡ is_lt (precedence (first_value T.are_releases T.place self.now)
            (T.place end.now)) }
    {
        if self.is_at_boundary() {
            return self.boundary.compare(end).is_lt();
        }
        match self.numbers.compare(&end.numbers()) {
            Ordering::Less => true,
            Ordering::Equal => !end.has_lowest_pre(),
            Ordering::Greater => false,
        }
    }
}

impl First<'_, ReadVersion> {
    /// Returns whether it is above a release.
    pub(crate) fn is_above(&self, release: &Release) -> bool
        ensures { result ≡ is_lt (precedence (release_value release.now)
            (first_value false read_plain self.now)) }
    {
        release.compare(&self.numbers).is_lt()
    }

    /// Returns it as a `Version` keeps it, without build metadata. `Err` means out of memory.
    pub(crate) fn version(&self, alloc: Global) -> Result<Version, AllocError>
        ensures { IfOk result (λ version. version_value version ≡ record {
          plain = plain_kept (first_value false read_plain self.now);
          build = [];
        }) }
    {
        if self.is_at_boundary() {
            return kept_version(alloc, self.boundary);
        }
        Ok(Version {
            major: self.numbers.major,
            minor: self.numbers.minor,
            patch: self.numbers.patch,
            pre: vec![in alloc; Identifier::Numeric(0)]?,
            build: Vec::new(alloc),
        })
    }
}

impl Release {
    /// Returns the lowest numbers at or above these of which none is above `most`, if there are
    /// any.
    fn within(&self, most: u64) -> Option<Release>
        ensures { AreFirstNumbers most (release_value self.now) result }
    {
        let (major, minor, patch) = (self.major, self.minor, self.patch);
        if major > most {
            return None;
        }
        if minor <= most {
            if patch <= most {
                return Some(*self);
            }
            if minor < most {
                return Some(Release {
                    major,
                    minor: minor + 1,
                    patch: 0,
                });
            }
        }
        if major == most {
            return None;
        }
        Some(Release {
            major: major + 1,
            minor: 0,
            patch: 0,
        })
    }
}

/// Returns the first version inside the boundaries whose numbers are at most `most`.
pub(crate) fn first_inside<T: Boundary>(boundaries: &[T], most: u64) -> Option<First<'_, T>>
    requires { AreBoundaries (IsOfKind T.are_releases) (map T.place boundaries.now) }
    ensures first { IsFirstInside (IsOfKindWithin T.are_releases most) (map T.place boundaries.now)
        (option_map (first_value T.are_releases T.place) result) }
    // What is true of each boundary is true of the one that it is at or after.
    ensures boundary { (p : PlainVersion → Bool) → list_all p (map T.place boundaries.now) ≡ true
        → IfSome result (λ first. p (T.place first.boundary.now) ≡ true) }
{
    let mut rest = boundaries;
    loop {
        let Some((begin, others)) = rest.split_first() else {
            return None;
        };
        let first = First::from_boundary(begin, most)?;
        let Some((end, after)) = others.split_first() else {
            return Some(first);
        };
        if first.is_below(end) {
            return Some(first);
        }
        rest = after;
    }
}
