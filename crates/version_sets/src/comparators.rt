//! The comparators of a set: one range for each interval between its boundaries.

ghost use Rattle.std.specs.Prelude.{◌≡◌, ◌<◌, ◌∷◌, [], length, map, option_map};
ghost use Rattle.std.specs.Prelude.{IfOk, IfErr, IfNone, IfSome};
ghost use Rattle.semver_ranges.specs.RangeViews.{comparator_of, identifier_of, range_of};
ghost use Rattle.semver_texts.specs.VersionViews.{identifier_value};
ghost use Rattle.semver_texts.specs.Digits.{as_kept, identifier_by, identifiers_by};
ghost use Rattle.version_sets.specs.DigitViews.{comparator_kept, range_kept};
ghost use Rattle.version_sets.specs.SetRanges.{interval, intervals, is_lowest, npm_range};
ghost use Rattle.version_sets.specs.Steps.ComparatorRefs.{interval_value, comparator_value};

use crate::boundary::Boundary;
use crate::release::Release;
use semver_ranges::{Comparator, Compat, Identifier, Op, Range};
use semver_texts::grammar::Digits;
use semver_versions::version;
use std::alloc::{AllocError, Global};

/// A comparator of a boundary, whose identifiers are borrowed from it.
#[derive(Drop)]
pub(crate) struct ComparatorRef<'a> {
    pub(crate) op: Op,
    pub(crate) numbers: Release,
    pub(crate) pre: &'a [version::Identifier],
    pub(crate) digits: Digits,
}

impl ComparatorRef<'_> {
    /// Returns the comparator with identifiers that it owns. `Err` means out of memory.
    fn owned(self, alloc: Global) -> Result<Comparator, AllocError>
        ensures { IfOk result
            (λ made. comparator_of made ≡ comparator_kept (comparator_value self.entry)) }
    {
        Ok(Comparator {
            op: self.op,
            major: self.numbers.major,
            minor: self.numbers.minor,
            patch: self.numbers.patch,
            pre: copied(alloc, self.pre, self.digits)?,
        })
    }
}

/// Returns whether a boundary is at the lowest version of its kind.
pub(crate) fn is_lowest<T: Boundary>(boundary: &T) -> bool
    ensures { result ≡ is_lowest (T.place boundary.now) }
{
    let numbers = boundary.numbers();
    numbers.major == 0 && numbers.minor == 0 && numbers.patch == 0 && boundary.has_lowest_pre()
}

/// Copies identifiers of a version, read as `digits` says, as identifiers of a range. `Err` means
/// out of memory.
fn copied(
    alloc: Global,
    identifiers: &[version::Identifier],
    digits: Digits,
) -> Result<Vec<Identifier>, AllocError>
    ensures { IfOk result (λ copies. map identifier_of copies.items
        ≡ map as_kept (identifiers_by digits (map identifier_value identifiers.now))) }
{
    let mut copies = Vec::with_capacity(alloc, identifiers.len())?;
    for identifier in identifiers {
        copies.push(copy_of(identifier, digits)?)?;
    }
    Ok(copies)
}

/// Copies an identifier of a version, read as `digits` says, as one of a range. `Err` means out of
/// memory.
#[tactic(auto, using(crate::proofs::DigitLaws::kept_number, crate::proofs::DigitLaws::kept_text))]
fn copy_of(identifier: &version::Identifier, digits: Digits) -> Result<Identifier, AllocError>
    ensures { IfOk result (λ copy. identifier_of copy
        ≡ as_kept (identifier_by digits (identifier_value identifier.now))) }
{
    let _digits = digits;
    match identifier {
        version::Identifier::Numeric(number) => Ok(Identifier::Numeric(*number)),
        version::Identifier::AlphaNumeric(text) => Ok(Identifier::AlphaNumeric(text.clone()?)),
    }
}

/// The one or two comparators of an interval.
#[derive(Drop)]
pub(crate) struct IntervalComparators<'a> {
    pub(crate) first: ComparatorRef<'a>,
    pub(crate) second: Option<ComparatorRef<'a>>,
}

/// Returns the comparators of the versions that are at or above one boundary, and below another if
/// it is given. No version is below the lowest.
fn comparators_between<'a, T: Boundary>(from: &'a T, to: Option<&'a T>) -> IntervalComparators<'a>
    ensures { interval_value result ≡ interval T.kind (T.place from.now)
        (option_map (λ x. T.place x.now) to.entry) }
{
    if from.is_alone(to) {
        return IntervalComparators {
            first: from.comparator(Op::Eq),
            second: None,
        };
    }
    match to {
        None => IntervalComparators {
            first: from.comparator(Op::Gte),
            second: None,
        },
        Some(to) if is_lowest(from) => IntervalComparators {
            first: from.upper_comparator(to),
            second: None,
        },
        Some(to) => IntervalComparators {
            first: from.comparator(Op::Gte),
            second: Some(from.upper_comparator(to)),
        },
    }
}

/// Returns the first interval of boundaries, and the boundaries that follow it, or `None` if there
/// is no boundary.
pub(crate) fn first_interval<'a, T: Boundary>(
    boundaries: &'a [T],
) -> Option<(IntervalComparators<'a>, &'a [T])>
    ensures none { IfNone result (boundaries.entry.now ≡ []) }
    ensures first { IfSome result (λ found. intervals T.kind (map T.place boundaries.entry.now)
        ≡ npm_range (interval_value found.0) ∷ intervals T.kind (map T.place found.1.now)) }
    ensures fewer { IfSome result (λ found. length found.1.now < length boundaries.entry.now) }
{
    match boundaries {
        [] => None,
        [from] => Some((comparators_between(from, None), &[])),
        [from, to, others @ ..] => Some((comparators_between(from, Some(to)), others)),
    }
}

impl IntervalComparators<'_> {
    /// Returns the interval as a range of comparators. `Err` means out of memory.
    fn range(self, alloc: Global) -> Result<Range, AllocError>
        ensures { IfOk result (λ range.
            range_of range ≡ range_kept (npm_range (interval_value self.entry))) }
    {
        let first = self.first.owned(alloc)?;
        let comparator_set = match self.second {
            None => vec![in alloc; first]?,
            Some(second) => vec![in alloc; first, second.owned(alloc)?]?,
        };
        Ok(Range {
            comparator_set,
            compat: Compat::Npm,
        })
    }
}

/// Returns the ranges of increasing boundaries in npm mode, one for each interval. It allocates
/// only if there is a boundary. `Err` means out of memory.
pub(crate) fn ranges_of<T: Boundary>(
    alloc: Global,
    boundaries: &[T],
) -> Result<Vec<Range>, AllocError>
    ensures ranges { IfOk result (λ ranges.
        map range_of ranges.items
        ≡ map range_kept (intervals T.kind (map T.place boundaries.now))) }
    ensures out_of_memory { IfErr result (λ _. 0 < length boundaries.now) }
{
    let mut ranges = Vec::new(alloc);
    let mut left = boundaries;
    while let Some((first, others)) = first_interval(left) {
        ranges.push(first.range(alloc)?)?;
        left = others;
    }
    Ok(ranges)
}
