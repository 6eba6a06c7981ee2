//! The events of a range string in each dialect, and the check of a string. Nothing here allocates.

ghost use Rattle.std.specs.Prelude.{◌≡◌, ◌≢◌, Err, IfOk, None, MatchResult};
ghost use Rattle.semver_ranges.specs.DialectTable.{grammar_of};
ghost use Rattle.semver_ranges.specs.Steps.CursorViews.{HasLeft, IsBegunIn};
ghost use Rattle.semver_ranges.specs.Steps.RangeEvents.{events};
ghost use Rattle.tool_ranges.specs.Dialects.{RefusesAs};
ghost use Rattle.tool_ranges.specs.Steps.Checked.{IsCheckedAs};
ghost use Rattle.tool_ranges.specs.Steps.Reading.{IsRefusedAs};
ghost use Rattle.tool_ranges.specs.Steps.TextEvents.{may_be_a_range, read_as, text_events};

use crate::cargo::has_few_commas;
use crate::npm::may_stand;
use semver_ranges::RangeError;
use semver_ranges::checked::Checked;
use semver_ranges::dialect::Dialect;
use semver_ranges::events::Events;

/// Returns the events of a range string.
///
/// # Errors
///
/// `NotARange` if the string has a character that can't be in a range of npm, or more comparators
/// than a requirement of Cargo may have.
#[inline(always)]
pub(crate) fn events_of(text: &str, dialect: Dialect) -> Result<Events<'_>, RangeError>
    ensures left { MatchResult result
        (λ found. HasLeft (grammar_of dialect) found (text_events dialect text.now))
        (λ e. (e ≡ RangeError.NotARange) × (read_as dialect text.now ≡ None)) }
    ensures begun { IfOk result (λ found. IsBegunIn (grammar_of dialect) text.now found
        × (events (grammar_of dialect) text.now ≡ text_events dialect text.now)) }
{
    if may_be_a_range(text, dialect) {
        Ok(Events::new(text.as_bytes(), dialect.grammar()))
    } else {
        Err(RangeError::NotARange)
    }
}

/// Returns whether a string keeps the rule of its dialect about whole strings: Cargo's about the
/// number of commas, and npm's about characters beyond ASCII.
#[inline(always)]
fn may_be_a_range(text: &str, dialect: Dialect) -> bool
    ensures { result ≡ may_be_a_range dialect text.now }
{
    match dialect {
        Dialect::Cargo => has_few_commas(text.as_bytes()),
        Dialect::Npm => may_stand(text),
        Dialect::CrateCargo | Dialect::CrateNpm => true,
    }
}

/// Checks a range string, and returns its terms.
///
/// # Errors
///
/// `NotARange` if the string isn't a range in the dialect, and `NumberTooLarge` if one of its
/// numbers, or a number that is raised for one of its bounds, is above the limit.
#[inline(always)]
pub(crate) fn checked_of(range: &str, dialect: Dialect) -> Result<Checked<'_>, RangeError>
    ensures { MatchResult result
        (λ checked. IsCheckedAs dialect range.now checked)
        (λ e. IsRefusedAs dialect range.now e) }
{
    let begin = events_of(range, dialect)?;
    Checked::new(begin, dialect)
}

/// Checks a range string, with the errors of `checked_of`.
#[inline(always)]
pub(crate) fn check(range: &str, dialect: Dialect) -> Result<(), RangeError>
    ensures refusals { RefusesAs dialect range.now result }
    ensures no_memory { result ≢ Err RangeError.OutOfMemory }
{
    match checked_of(range, dialect) {
        Ok(_) => Ok(()),
        Err(refusal) => Err(refusal),
    }
}
