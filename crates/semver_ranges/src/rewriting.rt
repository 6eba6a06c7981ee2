//! A range string as plain comparators: those of the sides of its terms.
//!
//! `rewrite` makes no `Checked`, for speed: with one, it took up to 15 % more instructions for a
//! single term.

ghost use Rattle.std.specs.Prelude.{◌≡◌, ◌++◌, ◌^◌, ◌-◌, ◌∷◌, [], List, Some, IfOk, map, true};
ghost use Rattle.std.specs.List.{list_all};
ghost use Rattle.semver_texts.specs.Texts.{Text};
ghost use Rattle.semver_texts.specs.Versions.{numbers};
ghost use Rattle.semver_ranges.specs.DialectTable.{grammar_of, mode_of};
ghost use Rattle.semver_ranges.specs.RangeTree.{Simple as SimpleTree};
ghost use Rattle.semver_ranges.specs.RangeViews.{comparator_of, identifier_of, range_of};
ghost use Rattle.semver_ranges.specs.RewritingTable.{comparator, with_pre_release};
ghost use Rattle.semver_ranges.specs.Sides.{may_rise, term_fits};
ghost use Rattle.semver_ranges.specs.TermComparators.{lower_comparator, pre_of, printed_term};
ghost use Rattle.semver_ranges.specs.TermComparators.{upper_comparator};
ghost use Rattle.semver_ranges.specs.Steps.Answers.{IsAnswerBy, ranges_by};
ghost use Rattle.semver_ranges.specs.Steps.CursorViews.{HasLeft, IsBegunIn, IsSimpleOf};
ghost use Rattle.semver_ranges.specs.Steps.PartialViews.{PartsPass, of_numbers, version_of};
ghost use Rattle.semver_ranges.specs.Steps.PartialViews.{side_value};
ghost use Rattle.semver_ranges.specs.Steps.RangeEvents.{Event as SomeEvent, event_fits, events};
ghost use Rattle.semver_ranges.specs.Steps.RangeEvents.{one_simple};

use crate::checked::{first_term, survey};
use crate::dialect::Dialect;
use crate::events::{Event, Events};
use crate::grammar::Simple;
use crate::partial::{Partial, lowest_pre_release};
use crate::range::{Comparator, Identifier, Op, Range};
use crate::range_set::{RangeError, RangeSet};
use crate::table::{Side, fits, is_past, sides};
use std::alloc::{AllocError, Global};

/// How the bounds of intervals are written.
#[derive(Clone, Copy)]
pub enum Style {
    /// A raised upper bound has no pre-release, such as `<2.0.0`. Only the crate's dialects use it.
    Plain,
    /// A raised upper bound has the lowest pre-release, such as `<2.0.0-0`.
    Exact,
    /// As with `Exact`, and a lower bound below all pre-releases of its numbers has the lowest one,
    /// such as `>=1.2.0-0`.
    Lowest,
}

// Determined by: equation.
/// Rewrites a range into plain comparators. The string is checked first, so that an invalid one
/// doesn't allocate.
#[inline(always)]
pub fn rewrite(
    alloc: Global,
    begin: Events<'_>,
    dialect: Dialect,
    style: Style,
) -> Result<RangeSet, RangeError>
    requires { (t : Text) × IsBegunIn (grammar_of dialect) t begin }
    ensures { (t : Text) → IsBegunIn (grammar_of dialect) t begin.entry
        → IsAnswerBy (events (grammar_of dialect) t) (term_fits dialect)
        (printed_term style dialect) (mode_of dialect) result }
{
    let Some((first, rest)) = first_term(begin, dialect.grammar()) else {
        return Err(RangeError::NotARange);
    };
    let fit = fits(&first, dialect);
    let made = if fit & rest.is_at_end() {
        one_range(alloc, &first, dialect, style)
    } else {
        let count = survey(rest, fit, dialect)?;
        all_ranges(alloc, begin, count, dialect, style)
    };
    match made {
        Ok(ranges) => Ok(RangeSet {
            ranges,
            compat: dialect.mode(),
        }),
        Err(_) => Err(RangeError::OutOfMemory),
    }
}

/// Returns the range of the only term of a string. `Err` means out of memory.
#[inline(always)]
fn one_range(
    alloc: Global,
    simple: &Simple<'_>,
    dialect: Dialect,
    style: Style,
) -> Result<Vec<Range>, AllocError>
    requires { (s : SimpleTree) × IsSimpleOf s simple.now }
    ensures { IfOk result (λ ranges. (s : SimpleTree) → IsSimpleOf s simple.now
        → term_fits dialect s ≡ true → map range_of ranges.items
        ≡ ranges_by (printed_term style dialect) (mode_of dialect) [] (one_simple s ∷ [])) }
{
    let mut comparator_set = Vec::with_capacity(alloc, 2)?;
    push(alloc, simple, dialect, style, &mut comparator_set)?;
    let mut ranges = Vec::with_capacity(alloc, 1)?;
    ranges.push(Range {
        comparator_set,
        compat: dialect.mode(),
    })?;
    Ok(ranges)
}

/// Returns the ranges of a string that was checked, and has `count` of them. `Err` means out of
/// memory.
#[inline(always)]
fn all_ranges(
    alloc: Global,
    mut events: Events<'_>,
    count: usize,
    dialect: Dialect,
    style: Style,
) -> Result<Vec<Range>, AllocError>
    requires { (es : List SomeEvent) × HasLeft (grammar_of dialect) events (Some es)
        × (list_all (event_fits (term_fits dialect)) es ≡ true) }
    ensures { IfOk result (λ ranges. (es : List SomeEvent)
        → HasLeft (grammar_of dialect) events.entry (Some es)
        → list_all (event_fits (term_fits dialect)) es ≡ true → map range_of ranges.items
        ≡ ranges_by (printed_term style dialect) (mode_of dialect) [] es) }
{
    let grammar = dialect.grammar();
    let compat = dialect.mode();
    let mut ranges = Vec::with_capacity(alloc, count)?;
    let mut comparator_set = Vec::with_capacity(alloc, 4)?;
    while let Some(event) = events.next_in(grammar) {
        let Ok(event) = event else {
            return Ok(ranges);
        };
        match event {
            Event::Simple(simple) => push(alloc, &simple, dialect, style, &mut comparator_set)?,
            Event::NextRange => {
                ranges.push(Range {
                    comparator_set,
                    compat,
                })?;
                comparator_set = Vec::with_capacity(alloc, 4)?;
            }
        }
    }
    ranges.push(Range {
        comparator_set,
        compat,
    })?;
    Ok(ranges)
}

/// Adds the comparators of a term. `Err` means out of memory.
#[inline(always)]
fn push(
    alloc: Global,
    simple: &Simple<'_>,
    dialect: Dialect,
    style: Style,
    comparators: &mut Vec<Comparator>,
) -> Result<(), AllocError>
    requires { (s : SimpleTree) × IsSimpleOf s simple.now }
    ensures { IfOk result (λ _. (s : SimpleTree) → IsSimpleOf s simple.now
        → term_fits dialect s ≡ true → map comparator_of comparators.new.items
        ≡ map comparator_of comparators.old.items ++ printed_term style dialect s) }
{
    let partial = &simple.partial;
    let (first, last) = sides(simple, dialect);
    if first.is_some() & is_past(last) {
        comparators.push(partial.as_comparator(alloc, Op::Eq)?)?;
        return Ok(());
    }
    if let Some(side) = first {
        comparators.push(lower_comparator(alloc, partial, side, style)?)?;
    }
    if let Some(side) = last {
        comparators.push(upper_comparator(alloc, partial, side, style)?)?;
    }
    Ok(())
}

/// Returns the comparator of a lower side. With `Lowest` it is right for all versions. Otherwise
/// those of `Below` and `Above` are right only for releases: they leave out the pre-releases of
/// their numbers. `Err` means out of memory.
#[inline(always)]
fn lower_comparator(
    alloc: Global,
    partial: &Partial<'_>,
    side: Side,
    style: Style,
) -> Result<Comparator, AllocError>
    requires { PartsPass partial.now }
    ensures { may_rise (2 ^ 64 - 1) (Some (side_value side)) (numbers (version_of partial.now))
        ≡ true → IfOk result (λ c. comparator_of c
        ≡ lower_comparator style (side_value side) (version_of partial.now)) }
{
    match (side, style) {
        (Side::Below, Style::Lowest) => {
            Ok(with_numbers(Op::Gte, partial.numbers(), lowest_pre_release(alloc)?))
        }
        (Side::At | Side::Below, _) => partial.as_comparator(alloc, Op::Gte),
        (Side::Past, _) => partial.as_comparator(alloc, Op::Gt),
        (Side::Above(place), Style::Lowest) => {
            Ok(with_numbers(Op::Gte, partial.raised(place), lowest_pre_release(alloc)?))
        }
        (Side::Above(place), Style::Plain | Style::Exact) => {
            Ok(with_numbers(Op::Gte, partial.raised(place), Vec::new(alloc)))
        }
    }
}

/// Returns the comparator of an upper side. `Err` means out of memory.
#[inline(always)]
fn upper_comparator(
    alloc: Global,
    partial: &Partial<'_>,
    side: Side,
    style: Style,
) -> Result<Comparator, AllocError>
    requires { PartsPass partial.now }
    ensures { may_rise (2 ^ 64 - 1) (Some (side_value side)) (numbers (version_of partial.now))
        ≡ true → IfOk result (λ c. comparator_of c
        ≡ upper_comparator style (side_value side) (version_of partial.now)) }
{
    match side {
        Side::Below => Ok(with_numbers(Op::Lt, partial.numbers(), lowest_pre_release(alloc)?)),
        Side::At => partial.as_comparator(alloc, Op::Lt),
        Side::Past => partial.as_comparator(alloc, Op::Lte),
        Side::Above(place) => {
            Ok(with_numbers(Op::Lt, partial.raised(place), raised_pre(alloc, style)?))
        }
    }
}

/// Returns the pre-release of a raised upper bound. `Err` means out of memory.
#[inline(always)]
fn raised_pre(alloc: Global, style: Style) -> Result<Vec<Identifier>, AllocError>
    ensures { IfOk result (λ pre. map identifier_of pre.items ≡ pre_of style) }
{
    match style {
        Style::Plain => Ok(Vec::new(alloc)),
        Style::Exact | Style::Lowest => lowest_pre_release(alloc),
    }
}

/// Returns the comparator with three numbers and a pre-release.
#[inline(always)]
fn with_numbers(op: Op, numbers: (u64, u64, u64), pre: Vec<Identifier>) -> Comparator
    ensures { comparator_of result ≡ comparator op
        (with_pre_release (map identifier_of pre.items) (of_numbers numbers)) }
{
    let (major, minor, patch) = numbers;
    Comparator {
        op,
        major,
        minor,
        patch,
        pre,
    }
}
