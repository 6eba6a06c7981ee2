//! Partials: the numbers of a term, and its pre-release as a slice of the string.

ghost use Rattle.std.specs.Prelude.{◌≡◌, ◌-◌, ◌^◌, ◌≤◌, Some, true, map};
ghost use Rattle.std.specs.Prelude.{length, IfErr, IfOk, ◌&&◌, ◌==◌, nat_le, not, false};
ghost use Rattle.std.specs.List.{list_all};
ghost use Rattle.semver_texts.specs.Texts.{is_empty};
ghost use Rattle.semver_texts.specs.Versions.{numbers};
ghost use Rattle.semver_ranges.specs.RangeTree.{PartialTree, one, two};
ghost use Rattle.semver_texts.specs.Texts.{is_part};
ghost use Rattle.semver_ranges.specs.Partials.{kept, leading_place};
ghost use Rattle.semver_ranges.specs.RewritingTable.{comparator, up};
ghost use Rattle.semver_ranges.specs.Sides.{above, may_rise};
ghost use Rattle.semver_ranges.specs.ExactBounds.{lowest_pre_release};
ghost use Rattle.semver_ranges.specs.RangeViews.{comparator_of, identifier_of};
ghost use Rattle.semver_ranges.specs.Steps.PartialViews.{states_none, stated_of};
ghost use Rattle.semver_texts.specs.Texts.{cut_at_dots};
ghost use Rattle.semver_ranges.specs.Steps.PartialViews.{number_at, of_numbers, place_number};
ghost use Rattle.semver_ranges.specs.Steps.PartialViews.{version_of};
ghost use Rattle.semver_ranges.specs.Steps.PartialViews.{AreWritten, IsPartialOf};
ghost use Rattle.semver_ranges.specs.Steps.PartialViews.{PartsPass};

use crate::range::{Comparator, Identifier, Op};
use semver_texts::decimals::number_of_digits;
use semver_texts::dotted::{of_parts, text_of_parts};
use std::alloc::{AllocError, Global};

/// A component: a wildcard as it is written, or a number. The value of a number above 2^64 - 1 is
/// `None`.
#[derive(Clone, Copy)]
pub enum Component {
    Wildcard(u8),
    Number(Option<u64>),
}

/// The components of a partial as they are written.
#[derive(Clone, Copy)]
pub struct Components<'input> {
    /// The first.
    pub major: Component,
    /// The second, if it is written.
    pub minor: Option<Component>,
    /// The third, if it is written.
    pub patch: Option<Component>,
    /// The parts of the pre-release after three components, joined by dots.
    pub pre: &'input [u8],
    /// The parts of the build metadata after three components, joined by dots.
    pub build: &'input [u8],
}

/// How many numbers a partial has.
#[derive(Clone, Copy, Debug)]
pub enum PartialKind {
    /// None: it begins with a wildcard.
    XRangeOnly,
    /// One.
    MajorOnly,
    /// Two.
    MajorMinor,
    /// Three.
    MajorMinorPatch,
}

/// One of the three numbers of a version.
#[derive(Clone, Copy)]
pub enum Place {
    Major,
    Minor,
    Patch,
}

/// The numbers of a partial, with zeros for the missing ones, and its pre-release after three
/// numbers, as a slice of the string.
#[derive(Clone, Copy, Debug)]
pub struct Partial<'input> {
    major: u64,
    minor: u64,
    patch: u64,
    pre: &'input [u8],
    kind: PartialKind,
    fits: bool,
}

impl<'input> Partial<'input> {
    // Determined by: free, what is kept beside a number above 2^64 - 1: ../replayed_cases/stdin.
    /// Returns the partial of some components. The numbers are those before the first wildcard, and
    /// the pre-release counts only after three numbers.
    #[inline(always)]
    pub fn of(written: &Components<'input>) -> Partial<'input>
        requires { list_all is_part (cut_at_dots written.now.pre.now) ≡ true }
        ensures { (t : PartialTree) → AreWritten t written.now → IsPartialOf t result }
    {
        let nothing = Partial {
            major: 0,
            minor: 0,
            patch: 0,
            pre: &[],
            kind: PartialKind::XRangeOnly,
            fits: true,
        };
        let Component::Number(major) = written.major else {
            return nothing;
        };
        let one = Partial {
            major: major.unwrap_or(0),
            kind: PartialKind::MajorOnly,
            fits: major.is_some(),
            ..nothing
        };
        let Some(minor) = written.minor else {
            return one;
        };
        let Component::Number(minor) = minor else {
            return one;
        };
        let two = Partial {
            minor: minor.unwrap_or(0),
            kind: PartialKind::MajorMinor,
            fits: one.fits & minor.is_some(),
            ..one
        };
        let Some(patch) = written.patch else {
            return two;
        };
        let Component::Number(patch) = patch else {
            return two;
        };
        Partial {
            patch: patch.unwrap_or(0),
            pre: written.pre,
            kind: PartialKind::MajorMinorPatch,
            fits: two.fits & patch.is_some(),
            ..two
        }
    }

    // Determined by: equation.
    /// Returns how many numbers the partial has.
    #[inline(always)]
    pub fn kind(&self) -> PartialKind
        ensures { result ≡ self.now.kind }
    {
        self.kind
    }

    // Determined by: equation.
    /// Returns whether the partial has no number.
    #[inline(always)]
    pub fn states_nothing(&self) -> bool
        ensures { result ≡ states_none self.now.kind }
    {
        matches!(self.kind, PartialKind::XRangeOnly)
    }

    // Determined by: equation.
    /// Returns the place of the first number that isn't 0, or that of the last number if all are 0.
    #[inline(always)]
    pub fn leading_place(&self) -> Place
        requires { 1 ≤ length (stated_of self.now) }
        ensures leading { place_number result ≡ leading_place (stated_of self.now) }
        ensures stated { place_number result ≤ length (stated_of self.now) }
    {
        match self.kind {
            PartialKind::XRangeOnly | PartialKind::MajorOnly => Place::Major,
            PartialKind::MajorMinor | PartialKind::MajorMinorPatch if self.major > 0 =>
                Place::Major,
            PartialKind::MajorMinor => Place::Minor,
            PartialKind::MajorMinorPatch if self.minor > 0 => Place::Minor,
            PartialKind::MajorMinorPatch => Place::Patch,
        }
    }

    // Determined by: equation.
    /// Returns whether the partial has three numbers.
    #[inline(always)]
    pub fn states_three(&self) -> bool
        ensures { result ≡ (length (stated_of self.now) == 3) }
    {
        matches!(self.kind, PartialKind::MajorMinorPatch)
    }

    // Determined by: equation.
    /// Returns the first number, or 0 if it is missing.
    #[inline(always)]
    pub fn major(&self) -> u64
        ensures { result ≡ self.now.major }
    {
        self.major
    }

    // Determined by: equation.
    /// Returns the second number, or 0 if it is missing.
    #[inline(always)]
    pub fn minor(&self) -> u64
        ensures { result ≡ self.now.minor }
    {
        self.minor
    }

    // Determined by: equation.
    /// Returns the third number, or 0 if it is missing.
    #[inline(always)]
    pub fn patch(&self) -> u64
        ensures { result ≡ self.now.patch }
    {
        self.patch
    }

    // Determined by: equation.
    /// Returns the parts of the pre-release after three numbers, joined by dots.
    #[inline(always)]
    pub fn pre(&self) -> &'input [u8]
        ensures bytes { result.now ≡ self.now.pre.now }
        ensures parts { map kept (cut_at_dots result.now) ≡ (version_of self.now).pre }
    {
        self.pre
    }

    // Determined by: equation.
    /// Returns whether the partial has three numbers and a pre-release.
    #[inline(always)]
    pub fn has_pre_release(&self) -> bool
        ensures { result ≡ not (is_empty (version_of self.now).pre) }
    {
        !self.pre.is_empty()
    }

    // Determined by: equation.
    /// Returns whether all numbers of the partial are at most `most`.
    #[inline(always)]
    pub fn states_at_most(&self, most: u64) -> bool
        ensures { result ≡ (self.now.fits && list_all (λ n. nat_le n most) (stated_of self.now)) }
    {
        self.fits
            && match self.kind {
                PartialKind::XRangeOnly => true,
                PartialKind::MajorOnly => self.major <= most,
                PartialKind::MajorMinor => self.major <= most && self.minor <= most,
                PartialKind::MajorMinorPatch => self.major <= most
                    && self.minor <= most
                    && self.patch <= most,
            }
    }

    // Determined by: equation.
    /// Returns the number at a place.
    #[inline(always)]
    pub fn number(&self, place: Place) -> u64
        ensures { result ≡ number_at place self.now }
    {
        match place {
            Place::Major => self.major,
            Place::Minor => self.minor,
            Place::Patch => self.patch,
        }
    }

    // Determined by: equation.
    /// Returns the three numbers, with zeros for the missing ones.
    #[inline(always)]
    pub fn numbers(&self) -> (u64, u64, u64)
        ensures { result ≡ (self.now.major, self.now.minor, self.now.patch) }
    {
        (self.major, self.minor, self.patch)
    }

    // Determined by: free, a number that can't be raised: ../replayed_cases/stdin.
    /// Returns the numbers up to a place, with the last of them raised by one, and zeros after it.
    /// A number that is 2^64 - 1 isn't raised: `tool_ranges` also computes this for terms that
    /// don't fit.
    #[inline(always)]
    pub fn raised(&self, place: Place) -> (u64, u64, u64)
        ensures { may_rise (2 ^ 64 - 1) (Some (above (place_number place)))
            (numbers (version_of self.now)) ≡ true
            → of_numbers result ≡ up (place_number place) (numbers (version_of self.now)) }
    {
        match place {
            Place::Major => (self.major.saturating_add(1), 0, 0),
            Place::Minor => (self.major, self.minor.saturating_add(1), 0),
            Place::Patch => (self.major, self.minor, self.patch.saturating_add(1)),
        }
    }

    // Determined by: equation.
    /// Returns the comparator of an operator and this partial, with zeros for missing numbers.
    /// `Err` means out of memory.
    #[inline(always)]
    pub fn as_comparator(&self, alloc: Global, op: Op) -> Result<Comparator, AllocError>
        requires { PartsPass self.now }
        ensures value { IfOk result (λ c. comparator_of c ≡ comparator op (version_of self.now)) }
        // Memory runs out only if there is a pre-release.
        ensures out_of_memory { IfErr result (λ _. is_empty (version_of self.now).pre ≡ false) }
    {
        let pre = if self.pre.is_empty() {
            Vec::new(alloc)
        } else {
            kept_parts(alloc, self.pre)?
        };
        Ok(Comparator {
            op,
            major: self.major,
            minor: self.minor,
            patch: self.patch,
            pre,
        })
    }
}

// Determined by: equation.
/// Returns the lowest pre-release, which is `0`. `Err` means out of memory.
#[inline(always)]
pub fn lowest_pre_release(alloc: Global) -> Result<Vec<Identifier>, AllocError>
    ensures { IfOk result (λ pre. map identifier_of pre.items ≡ lowest_pre_release) }
{
    let mut pre = Vec::with_capacity(alloc, 1)?;
    pre.push_reserved(Identifier::Numeric(0));
    Ok(pre)
}

/// Returns the parts of a pre-release as they are kept. It is a separate function for speed: most
/// partials have no pre-release, and then nothing is called. `Err` means out of memory.
#[inline(never)]
fn kept_parts(alloc: Global, pre: &[u8]) -> Result<Vec<Identifier>, AllocError>
    requires { list_all is_part (cut_at_dots pre.now) ≡ true }
    ensures { IfOk result (λ parts. map identifier_of parts.items
        ≡ map kept (cut_at_dots pre.now)) }
{
    of_parts(
        alloc,
        text_of_parts(pre),
        |part| read_identifier(alloc, part),
    )
}

/// Returns a part as it is kept. `Err` means out of memory.
fn read_identifier(alloc: Global, part: &str) -> Result<Identifier, AllocError>
    ensures { IfOk result (λ i. identifier_of i ≡ kept part.now) }
{
    match number_of_digits(part.as_bytes()) {
        Some(number) => Ok(Identifier::Numeric(number)),
        None => Ok(Identifier::AlphaNumeric(String::from_str(alloc, part)?)),
    }
}
