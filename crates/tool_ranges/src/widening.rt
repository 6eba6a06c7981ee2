//! Whether a range is widened to another one. Nothing here allocates.

ghost use Rattle.std.specs.Prelude.{◌≡◌, ◌↔◌, ◌==◌, true, Some, None, if◌then◌else◌, length};
ghost use Rattle.std.specs.Prelude.{List};
ghost use Rattle.std.specs.List.{list_all};
ghost use Rattle.std.specs.Ordering.{is_eq, nat_cmp};
ghost use Rattle.std.specs.Cmp.Lexicographic.{slice_cmp};
ghost use Rattle.semver_texts.specs.Precedence.{pre_cmp};
ghost use Rattle.semver_texts.specs.Versions.{VersionValue};
ghost use Rattle.semver_ranges.specs.ExactBounds.{lowest_pre_release};
ghost use Rattle.semver_ranges.specs.RangeTree.{SetTree};
ghost use Rattle.semver_ranges.specs.Steps.CursorViews.{IsEventOf};
ghost use Rattle.semver_ranges.specs.Steps.PartialViews.{stated_of, version_of};
ghost use Rattle.semver_ranges.specs.Steps.RangeEvents.{Event as SomeEvent, event_fits};
ghost use Rattle.version_sets.specs.VersionSets.{Fits};
ghost use Rattle.version_sets.specs.declared.rules.PreReleases.{PreReleases as SomeRule};
ghost use Rattle.tool_ranges.specs.Dialects.{SpellsAs};
ghost use Rattle.semver_ranges.specs.DialectTable.{grammar_of};
ghost use Rattle.tool_ranges.specs.Meanings.{meant_by};
ghost use Rattle.semver_ranges.specs.Sides.{term_fits};
ghost use Rattle.semver_ranges.specs.Steps.Checked.{HasEvents};
ghost use Rattle.tool_ranges.specs.Steps.WidenedEvents.{AreAdded, AreWidenedEvents};
ghost use Rattle.tool_ranges.specs.Steps.WidenedEvents.{IsWidenedEvent, has_everything, read_term};
ghost use Rattle.semver_ranges.specs.declared.dialect.Dialect.{Dialect as SomeDialect};
ghost use Rattle.tool_ranges.specs.Widening.{IsWidened, IsWidenedTerm, MayBeRaised};

use crate::matching::matches_everything;
use crate::reading::checked_of;
use semver_ranges::checked::Checked;
use semver_ranges::comparing::InRanges;
use semver_ranges::dialect::Dialect;
use semver_ranges::events::Event;
use semver_ranges::grammar::Simple;
use semver_ranges::operator::Operator;
use semver_ranges::partial::{Partial, PartialKind};
use semver_texts::identifiers::Joined;
use semver_texts::precedence::compare_pre_releases;
use std::cmp::Ordering;

// Determined by: equation.
/// Returns whether a range is widened to another one. If so, each version that satisfies the range
/// also satisfies the other one, whichever pre-releases count.
///
/// ```text
/// range           other             result
/// ^1 || >=2 <3    ^1 || >=2 <4      true
/// ^1 || ^2        ^1 || ^2 || ^3    true
/// ^1 || ^2        ^1 || ^3          false
/// ^1 || =1.2.3    ^1 || =2.0.0      false
/// ```
///
/// Each alternative of the range has to be at the same position in the other one, and to have as
/// many terms there. Each term has to state the same there, or to be a raised upper bound:
///
/// - Its operator is `<` or `<=`. The right side of a hyphen range counts as `<=`.
/// - It has as many numbers as before, and they are higher.
/// - Before, it had no pre-release, except for the `0` of bounds such as `<2.0.0-0`.
///
/// The other range may have more alternatives after these. None of them may match everything, such
/// as `*`: by default in npm's dialect, no pre-release satisfies a range with such an alternative.
///
/// The result can be false although no version is lost, as in the last row. It is also false if one
/// of the strings is not a range in the dialect, or has a number that is too large. Each range is
/// checked, and then its terms are read once more. Nothing is allocated.
#[must_use]
pub fn is_widened(range: &str, other: &str, dialect: Dialect) -> bool
    ensures widened { (result ≡ true) ↔ IsWidened dialect range.now other.now }
    // If so, no version is lost, whichever pre-releases count.
    ensures keeps { result ≡ true → (rule : SomeRule) (old new : SetTree) (v : VersionValue)
        → SpellsAs dialect old range.now → SpellsAs dialect new other.now → Fits v.plain
        → meant_by dialect rule old v ≡ true → meant_by dialect rule new v ≡ true }
{
    let Ok(old) = checked_of(range, dialect) else {
        return false;
    };
    let Ok(new) = checked_of(other, dialect) else {
        return false;
    };
    are_widened(old, new, dialect)
}

/// Returns whether a range is widened to another one, where both were checked.
fn are_widened(old: Checked<'_>, new: Checked<'_>, dialect: Dialect) -> bool
    ensures { (es fs : List SomeEvent) → HasEvents (grammar_of dialect) old.entry es
        → HasEvents (grammar_of dialect) new.entry fs
        → list_all (event_fits (term_fits dialect)) es ≡ true
        → list_all (event_fits (term_fits dialect)) fs ≡ true
        → (result ≡ true) ↔ AreWidenedEvents es fs }
{
    let grammar = dialect.grammar();
    let (mut terms, mut others) = (old, new);
    while let Some(event) = terms.next(grammar) {
        let Some(other) = others.next(grammar) else {
            return false;
        };
        if !is_widened_event(&event, &other) {
            return false;
        }
    }
    are_added(others, dialect)
}

/// Returns whether the terms that are left after an alternative may be added to a range: there are
/// none, or they are of other alternatives, none of which matches everything.
fn are_added(left: Checked<'_>, dialect: Dialect) -> bool
    ensures { (es : List SomeEvent) → HasEvents (grammar_of dialect) left.entry es
        → list_all (event_fits (term_fits dialect)) es ≡ true
        → (result ≡ true) ↔ AreAdded es }
{
    let mut terms = left;
    match terms.next(dialect.grammar()) {
        Some(Event::NextRange) => !has_everything(terms, dialect),
        Some(Event::Simple(_)) => false,
        None => true,
    }
}

/// Returns whether some alternative matches everything. The first term that is left begins an
/// alternative.
fn has_everything(left: Checked<'_>, dialect: Dialect) -> bool
    ensures { (es : List SomeEvent) → HasEvents (grammar_of dialect) left.entry es
        → list_all (event_fits (term_fits dialect)) es ≡ true
        → result ≡ has_everything true es }
{
    let grammar = dialect.grammar();
    let mut terms = left;
    let (mut matches_all, mut matched_all) = (true, false);
    while let Some(event) = terms.next(grammar) {
        match event {
            Event::Simple(simple) => matches_all &= matches_everything(&simple),
            Event::NextRange => {
                matched_all |= matches_all;
                matches_all = true;
            }
        }
    }
    matched_all | matches_all
}

/// Returns whether an event is widened to another one.
fn is_widened_event(event: &Event<'_>, other: &Event<'_>) -> bool
    ensures { (d : SomeDialect) (e f : SomeEvent) → IsEventOf e event.now → IsEventOf f other.now
        → event_fits (term_fits d) e ≡ true → event_fits (term_fits d) f ≡ true
        → (result ≡ true) ↔ IsWidenedEvent e f }
{
    match (event, other) {
        (Event::Simple(term), Event::Simple(other)) => is_widened_term(term, other),
        (Event::NextRange, Event::NextRange) => true,
        _ => false,
    }
}

/// Returns whether a term is widened to another one.
fn is_widened_term(term: &Simple<'_>, other: &Simple<'_>) -> bool
    ensures { (result ≡ true) ↔ IsWidenedTerm (read_term term.now) (read_term other.now) }
{
    if term.operator != other.operator {
        return false;
    }
    match compare_numbers(&term.partial, &other.partial) {
        Some(Ordering::Equal) => have_same_pre_release(&term.partial, &other.partial),
        Some(Ordering::Less) => may_be_raised(term),
        Some(Ordering::Greater) | None => false,
    }
}

/// Compares the numbers of two partial versions, or returns `None` if one has more than the other.
fn compare_numbers(partial: &Partial<'_>, other: &Partial<'_>) -> Option<Ordering>
    ensures { result
        ≡ (if length (stated_of partial.now) == length (stated_of other.now)
        then Some (slice_cmp nat_cmp (stated_of partial.now) (stated_of other.now)) else None) }
{
    let major = partial.major().cmp(&other.major());
    let minor = partial.minor().cmp(&other.minor());
    let patch = partial.patch().cmp(&other.patch());
    match (partial.kind(), other.kind()) {
        (PartialKind::XRangeOnly, PartialKind::XRangeOnly) => Some(Ordering::Equal),
        (PartialKind::MajorOnly, PartialKind::MajorOnly) => Some(major),
        (PartialKind::MajorMinor, PartialKind::MajorMinor) => Some(major.then(minor)),
        (PartialKind::MajorMinorPatch, PartialKind::MajorMinorPatch) => {
            Some(major.then(minor.then(patch)))
        }
        _ => None,
    }
}

/// Returns whether two partial versions have the same pre-release, or both none.
fn have_same_pre_release(partial: &Partial<'_>, other: &Partial<'_>) -> bool
    ensures { result
        ≡ is_eq (pre_cmp (version_of partial.now).pre (version_of other.now).pre) }
{
    let pre = Joined::of(partial.pre(), InRanges);
    compare_pre_releases(pre, Joined::of(other.pre(), InRanges)).is_eq()
}

/// Returns whether a term is an upper bound that may be raised.
fn may_be_raised(term: &Simple<'_>) -> bool
    ensures { (result ≡ true)
        ↔ MayBeRaised term.now.operator (version_of term.now.partial).pre }
{
    match term.operator {
        Operator::Less => {
            !term.partial.has_pre_release() || has_lowest_pre_release(&term.partial)
        }
        Operator::LessOrEqual => !term.partial.has_pre_release(),
        _ => false,
    }
}

/// Returns whether the pre-release of a partial version is the lowest one, `0`.
fn has_lowest_pre_release(partial: &Partial<'_>) -> bool
    ensures { result ≡ is_eq (pre_cmp (version_of partial.now).pre lowest_pre_release) }
{
    let pre = Joined::of(partial.pre(), InRanges);
    compare_pre_releases(pre, Joined::of(b"0", InRanges)).is_eq()
}
