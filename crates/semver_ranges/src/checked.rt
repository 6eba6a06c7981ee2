//! Checks a range string, and then returns its terms. Nothing here allocates.
//!
//! All of it is `inline(always)`, and so are the callers in `rewriting`: without these hints, the
//! comparators of one term in Cargo's dialect take 12 % more instructions.

ghost use Rattle.std.specs.Prelude.{◌<◌, List, Option, IfSome};
ghost use Rattle.semver_texts.specs.Texts.{Text};
ghost use Rattle.semver_ranges.specs.DialectTable.{grammar_of};
ghost use Rattle.semver_ranges.specs.Steps.Checked.{FindsFirst, GivesEvent, HasEvents, IsCheckedBy};
ghost use Rattle.semver_ranges.specs.Steps.Checked.{IsSurveyed, size_after};
ghost use Rattle.semver_ranges.specs.Steps.CursorViews.{HasLeft, IsBegunIn};
ghost use Rattle.semver_ranges.specs.Steps.RangeEvents.{Event as SomeEvent, events};

use crate::dialect::Dialect;
use crate::events::{Event, Events};
use crate::grammar::Simple;
use crate::range_set::RangeError;
use crate::table::fits;
use semver_texts::grammar::Grammar;

/// The terms of a range string that was checked. If there is only one, it isn't read again.
#[derive(Clone, Copy)]
pub struct Checked<'text> {
    /// The only term, until it is returned.
    only: Option<Simple<'text>>,
    /// The part of the string that is still to be read.
    events: Events<'text>,
}

impl<'text> Checked<'text> {
    // Determined by: equation.
    /// Checks a range string, from its first event on.
    ///
    /// # Errors
    ///
    /// `NotARange` if the string isn't in the grammar, and `NumberTooLarge` if one of its numbers,
    /// or a number that is raised for one of its bounds, is above the limit of the dialect.
    #[inline(always)]
    pub fn new(begin: Events<'text>, dialect: Dialect) -> Result<Checked<'text>, RangeError>
        ensures { (t : Text) → IsBegunIn (grammar_of dialect) t begin.entry
            → IsCheckedBy dialect (events (grammar_of dialect) t) result }
    {
        let Some((first, rest)) = first_term(begin, dialect.grammar()) else {
            return Err(RangeError::NotARange);
        };
        let fit = fits(&first, dialect);
        if fit & rest.is_at_end() {
            return Ok(Checked {
                only: Some(first),
                events: rest,
            });
        }
        survey(rest, fit, dialect)?;
        Ok(Checked {
            only: None,
            events: begin,
        })
    }

    // Determined by: equation.
    /// Returns the next term, or the event that the next range begins. Returns `None` at the end.
    #[inline(always)]
    pub fn next(&mut self, grammar: Grammar) -> Option<Event<'text>>
        ensures gives { (left : List SomeEvent) → HasEvents grammar self.old left
            → GivesEvent grammar left result self.new }
        ensures fewer { IfSome result (λ _. size_after self.new < size_after self.old) }
    {
        if let Some(only) = self.only {
            self.only = None;
            return Some(Event::Simple(only));
        }
        match self.events.next_in(grammar) {
            Some(Ok(event)) => Some(event),
            Some(Err(_)) | None => None,
        }
    }
}

/// Returns the first term of a range string, and the events after it. It returns `None` if the
/// string isn't in the grammar.
#[inline(always)]
pub(crate) fn first_term<'text>(
    begin: Events<'text>,
    grammar: Grammar,
) -> Option<(Simple<'text>, Events<'text>)>
    ensures { (t : Text) → IsBegunIn grammar t begin.entry
        → FindsFirst grammar (events grammar t) result }
{
    let mut rest = begin;
    let Ok(event) = rest.next_in(grammar)? else {
        return None;
    };
    match event {
        Event::Simple(first) => Some((first, rest)),
        Event::NextRange => None,
    }
}

/// Checks the rest of a range string, where `fit` says whether the terms before it fit. Returns the
/// number of ranges of the whole string, which `rewriting` uses as a capacity.
#[inline(always)]
pub(crate) fn survey(mut rest: Events<'_>, fit: bool, dialect: Dialect) -> Result<usize, RangeError>
    ensures { (o : Option (List SomeEvent)) → HasLeft (grammar_of dialect) rest.entry o
        → IsSurveyed dialect fit o result }
{
    let grammar = dialect.grammar();
    let mut fit = fit;
    let mut ranges = 1usize;
    while let Some(event) = rest.next_in(grammar) {
        match event? {
            Event::Simple(simple) => fit &= fits(&simple, dialect),
            Event::NextRange => ranges = ranges.saturating_add(1),
        }
    }
    if fit {
        Ok(ranges)
    } else {
        Err(RangeError::NumberTooLarge)
    }
}
