//! Spans of one kind of versions, and the boundaries of their union.

ghost use Rattle.std.specs.Prelude.{◌≡◌, ◌&&◌, ◌||◌, ◌++◌, Bool, true, false, Some, map};
ghost use Rattle.std.specs.Prelude.{option_map, MatchOption, IfOk, IfSome};
ghost use Rattle.std.specs.Cmp.{IsTotalOrder};
ghost use Rattle.std.specs.List.{AllByRecursion, list_all};
ghost use Rattle.semver_texts.specs.Versions.{PlainVersion};
ghost use Rattle.semver_texts.specs.Precedence.{precedence};
ghost use Rattle.version_sets.specs.Boundaries.{is_inside};
ghost use Rattle.version_sets.specs.declared.spans.Span.{Span};
ghost use Rattle.version_sets.specs.VersionSets.{AreBoundaries};
ghost use Rattle.version_sets.specs.Steps.Places.{IsOfKind};
ghost use Rattle.version_sets.specs.Steps.Spans.{is_in, IsSpan, later, earlier};
ghost use Rattle.version_sets.specs.Steps.Spans.{is_below, span_boundaries, all_joined, some_empty};
ghost use Rattle.version_sets.specs.Steps.Spans.{in_some};
ghost use Rattle.version_sets.specs.Steps.SpanViews.{span_value, is_within};
ghost use Rattle.version_sets.specs.Steps.SpanViews.{bounds_hold, spans_hold};

use crate::span_end::SpanEnd;
use std::alloc::{AllocError, Global};

/// The versions at or above one end and below another. `None` is above all versions.
#[derive(Clone, Copy)]
pub(crate) struct Bounds<L> {
    /// The beginning.
    pub from: Option<L>,
    /// The end.
    pub to: Option<L>,
}

/// The versions at or above one end, and below another if there is one. The second is above the
/// first.
#[derive(Clone, Copy)]
pub(crate) struct Span<L> {
    /// The beginning.
    pub from: L,
    /// The end.
    pub to: Option<L>,
}

/// Returns the higher of two ends. `None` is above all versions.
fn later<L: SpanEnd>(first: Option<L>, second: Option<L>) -> Option<L>
    ensures { option_map L.place result
        ≡ later precedence (option_map L.place first) (option_map L.place second) }
{
    let (first, second) = (first?, second?);
    Some(if first.compare(&second).is_ge() {
        first
    } else {
        second
    })
}

/// Returns the lower of two ends. `None` is above all versions.
fn earlier<L: SpanEnd>(first: Option<L>, second: Option<L>) -> Option<L>
    ensures { option_map L.place result
        ≡ earlier precedence (option_map L.place first) (option_map L.place second) }
{
    let Some(first) = first else {
        return second;
    };
    match second {
        Some(second) => Some(if second.compare(&first).is_lt() {
            second
        } else {
            first
        }),
        None => Some(first),
    }
}

impl<L: SpanEnd> Bounds<L> {
    /// Returns the versions that are within other bounds, too.
    #[inline(always)]
    pub(crate) fn and(self, other: Bounds<L>) -> Bounds<L>
        ensures meaning { (v : PlainVersion) → is_within L.place result v
            ≡ (is_within L.place self v && is_within L.place other v) }
        ensures holds { (p : PlainVersion → Bool) → bounds_hold L.place p self ≡ true
            → bounds_hold L.place p other ≡ true → bounds_hold L.place p result ≡ true }
    {
        Bounds {
            from: later(self.from, other.from),
            to: earlier(self.to, other.to),
        }
    }

    /// Returns the span of the versions, if there is anything between the bounds.
    pub(crate) fn span(self) -> Option<Span<L>>
        ensures meaning { MatchOption result ((v : PlainVersion) → is_within L.place self v ≡ false)
            (λ span. IsSpan precedence (span_value L.place span) × ((v : PlainVersion)
            → is_in precedence (span_value L.place span) v ≡ is_within L.place self v)) }
        ensures boundaries { IfSome result (λ span. (self.from ≡ Some span.from)
            × (self.to ≡ span.to)) }
    {
        let from = self.from?;
        if let Some(to) = self.to {
            if from.compare(&to).is_ge() {
                return None;
            }
        }
        Some(Span { from, to: self.to })
    }

    /// Adds the span of the versions to others, if there is anything between the bounds. `Err`
    /// means out of memory.
    pub(crate) fn push_to(self, spans: &mut Vec<Span<L>>) -> Result<(), AllocError>
        ensures spans { some_empty precedence (map (span_value L.place) spans.old.items) ≡ false
            → some_empty precedence (map (span_value L.place) spans.new.items) ≡ false }
        ensures meaning { IfOk result (λ _. (v : PlainVersion)
            → in_some precedence (map (span_value L.place) spans.new.items) v
            ≡ (in_some precedence (map (span_value L.place) spans.old.items) v
            || is_within L.place self v)) }
        ensures holds { (p : PlainVersion → Bool) → spans_hold L.place p spans.old.items ≡ true
            → bounds_hold L.place p self ≡ true → spans_hold L.place p spans.new.items ≡ true }
    {
        if let Some(span) = self.span() {
            spans.push(span)?;
        }
        Ok(())
    }

    /// Returns the boundaries of the versions. `Err` means out of memory.
    #[inline(always)]
    pub(crate) fn boundaries(self, alloc: Global) -> Result<Vec<L::Boundary>, AllocError>
        ensures boundaries { IfOk result (λ boundaries.
            AreBoundaries (IsOfKind L.Boundary.are_releases)
            (map L.Boundary.place boundaries.items)) }
        ensures meaning { IfOk result (λ boundaries. (v : PlainVersion)
            → is_inside precedence (map L.Boundary.place boundaries.items) v
            ≡ is_within L.place self v) }
    {
        let Some(span) = self.span() else {
            return Ok(Vec::new(alloc));
        };
        let mut boundaries = Vec::with_capacity(alloc, 2)?;
        push_boundaries(alloc, &span, &mut boundaries)?;
        Ok(boundaries)
    }
}

/// Returns the boundaries of the union of the spans. `Err` means out of memory.
pub(crate) fn boundaries_of<L: SpanEnd>(
    alloc: Global,
    spans: &mut [Span<L>],
) -> Result<Vec<L::Boundary>, AllocError>
    requires { some_empty precedence (map (span_value L.place) spans.old) ≡ false }
    ensures boundaries { IfOk result (λ boundaries.
        AreBoundaries (IsOfKind L.Boundary.are_releases) (map L.Boundary.place boundaries.items)) }
    ensures meaning { IfOk result (λ boundaries. (v : PlainVersion)
        → is_inside precedence (map L.Boundary.place boundaries.items) v
        ≡ in_some precedence (map (span_value L.place) spans.old) v) }
    ensures holds { IfOk result (λ boundaries. (p : PlainVersion → Bool)
        → spans_hold L.place p spans.old ≡ true
        → list_all p (map L.Boundary.place boundaries.items) ≡ true) }
    // The sort's comparison is a total order, which Rust demands.
    ensures total_order { IsTotalOrder (λ (s t : Span L). precedence (L.place s.from)
        (L.place t.from)) }
{
    spans.sort_unstable_by(|span, other| span.from.compare(&other.from));
    joined(alloc, spans)
}

/// Returns the boundaries of ascending spans. `Err` means out of memory.
fn joined<L: SpanEnd>(alloc: Global, spans: &[Span<L>]) -> Result<Vec<L::Boundary>, AllocError>
    ensures { IfOk result (λ boundaries.
        AllByRecursion (IsOfKind L.Boundary.are_releases) (map L.Boundary.place boundaries.items)
        × (map L.Boundary.place boundaries.items
        ≡ all_joined precedence (map (span_value L.place) spans.now))) }
{
    let [first, others @ ..] = spans else {
        return Ok(Vec::new(alloc));
    };
    let mut boundaries = Vec::with_capacity(alloc, spans.len().saturating_mul(2))?;
    let mut span = *first;
    for next in others {
        if is_apart(span.to, &next.from) {
            push_boundaries(alloc, &span, &mut boundaries)?;
            span = *next;
        } else {
            span.to = later(span.to, next.to);
        }
    }
    push_boundaries(alloc, &span, &mut boundaries)?;
    Ok(boundaries)
}

/// Returns whether there is an end, and it is below another.
fn is_apart<L: SpanEnd>(end: Option<L>, boundary: &L) -> bool
    ensures { result ≡ is_below precedence (option_map L.place end) (L.place boundary.now) }
{
    match end {
        Some(end) => end.compare(boundary).is_lt(),
        None => false,
    }
}

/// Adds the boundaries of a span. `Err` means out of memory.
#[inline(always)]
fn push_boundaries<L: SpanEnd>(
    alloc: Global,
    span: &Span<L>,
    boundaries: &mut Vec<L::Boundary>,
) -> Result<(), AllocError>
    ensures kind { IfOk result (λ _.
        AllByRecursion (IsOfKind L.Boundary.are_releases)
        (map L.Boundary.place boundaries.old.items)
        → AllByRecursion (IsOfKind L.Boundary.are_releases)
        (map L.Boundary.place boundaries.new.items)) }
    ensures boundaries { IfOk result (λ _. map L.Boundary.place boundaries.new.items
        ≡ map L.Boundary.place boundaries.old.items
        ++ span_boundaries precedence (span_value L.place span.now)) }
{
    boundaries.push(span.from.boundary(alloc)?)?;
    if let Some(to) = span.to {
        boundaries.push(to.boundary(alloc)?)?;
    }
    Ok(())
}
