//! Reads the terms of a range string one after the other, from left to right.
//!
//! Nothing here allocates, and a call looks at each byte a fixed number of times.

ghost use Rattle.std.specs.Prelude.{◌≡◌, ◌<◌, ◌++◌, ◌&&◌, not, true, false, length, codes};
ghost use Rattle.semver_texts.specs.Texts.{is_empty};
ghost use Rattle.semver_ranges.specs.CargoGrammar.{is_cargo};
ghost use Rattle.semver_ranges.specs.Steps.Reading.{after_blanks, ends_range};
ghost use Rattle.semver_ranges.specs.Steps.Items.{GivesItem, IsTermAt, TakesItem};

use crate::cargo::next_comparator;
use crate::grammar::{after_bars, after_blanks, ends_range, read_right_side, read_term};
use crate::operator::Operator;
use crate::range_set::RangeError;
use crate::term::RawTerm;
use semver_texts::dotted::strip_mark;
use semver_texts::grammar::Grammar;

/// The next part of a range string, as it is written.
#[derive(Clone, Copy)]
pub enum Event<'text> {
    /// A term of the range.
    Term(RawTerm<'text>),
    /// The range is empty.
    EmptyRange,
    /// Two bars, after which the next range begins.
    NextRange,
}

/// The part of a range string that is still to be read.
#[derive(Clone, Copy, Debug)]
pub struct Cursor<'text> {
    /// What follows the last term or the last bars, and the blanks after them.
    rest: &'text [u8],
    /// Whether no event of the current range was returned.
    begins_range: bool,
}

impl<'text> Cursor<'text> {
    // Determined by: equation.
    /// Returns the cursor at the beginning of a string.
    #[inline(always)]
    pub fn new(text: &'text [u8], grammar: Grammar) -> Cursor<'text>
        ensures rest { result.rest.now ≡ after_blanks grammar text.now }
        ensures begins { result.begins_range ≡ true }
    {
        Cursor {
            rest: after_blanks(text, grammar),
            begins_range: true,
        }
    }

    /// Returns whether nothing is left.
    #[inline(always)]
    pub(crate) fn is_at_end(&self) -> bool
        ensures { result ≡ (not self.now.begins_range && is_empty self.now.rest.now) }
    {
        !self.begins_range && self.rest.is_empty()
    }

    // Determined by: equation.
    /// Returns the next term, or the event that a range is empty or that the next range begins, or
    /// an error if the string isn't in the grammar from there on. It returns `None` at the end, and
    /// after an error.
    #[inline(always)]
    pub fn next_in(&mut self, grammar: Grammar) -> Option<Result<Event<'text>, RangeError>>
        ensures { GivesItem grammar self.old result self.new }
    {
        if !self.begins_range && self.rest.is_empty() {
            return None;
        }
        match self.read_event(grammar) {
            Some(event) => Some(Ok(event)),
            None => {
                self.rest = &[];
                Some(Err(RangeError::NotARange))
            }
        }
    }

    /// Returns the event at the beginning of the rest, and moves after it. It returns `None` if the
    /// rest isn't in the grammar.
    #[inline(always)]
    fn read_event(&mut self, grammar: Grammar) -> Option<Event<'text>>
        requires some { self.old.begins_range ≡ false → 0 < length self.old.rest.now }
        ensures { TakesItem grammar self.old.begins_range self.old.rest.now result self.new }
    {
        let begins_range = self.begins_range;
        self.begins_range = false;
        match grammar {
            Grammar::Cargo => self.read_comparator(begins_range),
            Grammar::Crate | Grammar::Npm => self.read_in_ranges(begins_range, grammar),
        }
    }

    /// Returns the event of a comparator of Cargo, and moves after it.
    #[inline(always)]
    fn read_comparator(&mut self, is_first: bool) -> Option<Event<'text>>
        requires begun { self.old.begins_range ≡ false }
        requires some { is_first ≡ false → 0 < length self.old.rest.now }
        ensures { TakesItem Grammar.Cargo is_first self.old.rest.now result self.new }
    {
        let (term, rest) = next_comparator(self.rest, is_first)?;
        self.rest = rest;
        Some(Event::Term(term))
    }

    /// Returns the event of ranges at the beginning of the rest, and moves after it.
    #[inline(always)]
    fn read_in_ranges(&mut self, begins_range: bool, grammar: Grammar) -> Option<Event<'text>>
        requires ranges { is_cargo grammar ≡ false }
        requires begun { self.old.begins_range ≡ false }
        requires some { begins_range ≡ false → 0 < length self.old.rest.now }
        ensures { TakesItem grammar begins_range self.old.rest.now result self.new }
    {
        if !ends_range(self.rest) {
            return self.read_in_range(begins_range, grammar);
        }
        if !begins_range {
            return self.read_bars(grammar);
        }
        Some(Event::EmptyRange)
    }

    /// Returns the event of two bars, and moves after them.
    #[inline(always)]
    fn read_bars(&mut self, grammar: Grammar) -> Option<Event<'text>>
        requires ranges { is_cargo grammar ≡ false }
        requires begun { self.old.begins_range ≡ false }
        requires some { 0 < length self.old.rest.now }
        requires ends { ends_range self.old.rest.now ≡ true }
        ensures { TakesItem grammar false self.old.rest.now result self.new }
    {
        self.rest = after_blanks(after_bars(self.rest)?, grammar);
        self.begins_range = true;
        Some(Event::NextRange)
    }

    /// Returns the event of a term, and moves after it. At the beginning of a range this may be a
    /// hyphen range.
    #[inline(always)]
    fn read_in_range(&mut self, begins_range: bool, grammar: Grammar) -> Option<Event<'text>>
        requires ranges { is_cargo grammar ≡ false }
        requires begun { self.old.begins_range ≡ false }
        requires goes_on { ends_range self.old.rest.now ≡ false }
        ensures { TakesItem grammar begins_range self.old.rest.now result self.new }
    {
        let (term, rest) = read_term(self.rest, grammar)?;
        match strip_mark(rest, b'-') {
            Some(after) if begins_range => self.read_upper(term, after, grammar),
            _ => {
                self.rest = rest;
                Some(Event::Term(term))
            }
        }
    }

    /// Returns the event of a hyphen range whose left side and hyphen were read, and moves after
    /// it. The left side has to be bare.
    #[inline(always)]
    fn read_upper(
        &mut self,
        left: RawTerm<'text>,
        after: &'text [u8],
        grammar: Grammar,
    ) -> Option<Event<'text>>
        requires ranges { is_cargo grammar ≡ false }
        requires begun { self.old.begins_range ≡ false }
        requires goes_on { ends_range self.old.rest.now ≡ false }
        requires left { IsTermAt grammar self.old.rest.now left (codes "-" ++ after.now) }
        ensures { TakesItem grammar true self.old.rest.now result self.new }
    {
        let Operator::Bare = left.operator else {
            return None;
        };
        let (upper, rest) = read_right_side(after, grammar)?;
        self.rest = rest;
        Some(Event::Term(RawTerm {
            operator: Operator::Hyphen,
            upper: Some(upper),
            ..left
        }))
    }
}
