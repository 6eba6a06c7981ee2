//! The events of a range string, with each term as a `Simple`, which has one version. The two sides
//! of a hyphen range are terms of their own. Nothing here allocates.

ghost use Rattle.std.specs.Prelude.{◌≡◌, ◌<◌, Some, [], Err, IfSome, List, Option, ℕ, true};
ghost use Rattle.semver_texts.specs.declared.grammar.Grammar.{Grammar as SomeGrammar};
ghost use Rattle.semver_ranges.specs.RangeTree.{PartialTree, Simple as SimpleTree};
ghost use Rattle.semver_ranges.specs.Steps.PartialViews.{IsPartialOf};
ghost use Rattle.semver_ranges.specs.Steps.RangeEvents as list;
ghost use Rattle.semver_ranges.specs.Steps.RangeEvents.{yielded_sides};
ghost use Rattle.semver_ranges.specs.TextItems.{FoundTerm, Item};
ghost use Rattle.semver_ranges.specs.Steps.Items.{IsItemOf, IsTermOf, IsViewOf, is_term};
ghost use Rattle.semver_ranges.specs.Steps.Items.{simples_of};
ghost use Rattle.semver_ranges.specs.Steps.CursorViews.{AreSides, Gives, HasLeft, IsBegunIn};
ghost use Rattle.semver_ranges.specs.Steps.CursorViews.{IsSimpleOf};
ghost use Rattle.semver_ranges.specs.Steps.CursorViews.{size_left};

use crate::cursor::{self, Cursor};
use crate::grammar::Simple;
use crate::operator::Operator;
use crate::partial::Partial;
use crate::range_set::RangeError;
use crate::term::RawTerm;
use semver_texts::grammar::Grammar;

/// The next part of a range string, with its terms as `Simple`s.
#[derive(Clone, Copy)]
pub enum Event<'input> {
    /// A term of the range. An empty range gives a bare wildcard. A hyphen range gives its left
    /// side, and its right side as a term with `<=`. A side without a number is left out if the
    /// other one has one.
    Simple(Simple<'input>),
    /// Two bars, after which the next range begins.
    NextRange,
}

/// A cursor over a range string that returns its events.
#[derive(Clone, Copy, Debug)]
pub struct Events<'input> {
    cursor: Cursor<'input>,
    /// The right side of a hyphen range, if it comes next.
    upper: Option<Simple<'input>>,
}

impl<'input> Events<'input> {
    // Determined by: equation.
    /// Returns the events of a string in a dialect.
    #[inline(always)]
    pub fn new(text: &'input [u8], grammar: Grammar) -> Events<'input>
        ensures { IsBegunIn grammar text.now result }
    {
        Events {
            cursor: Cursor::new(text, grammar),
            upper: None,
        }
    }

    /// Returns whether nothing is left.
    #[inline(always)]
    pub(crate) fn is_at_end(&self) -> bool
        ensures { (d : SomeGrammar) (o : Option (List list.Event)) → HasLeft d self.now o
            → result ≡ true → o ≡ Some [] }
    {
        match &self.upper {
            None => self.cursor.is_at_end(),
            Some(_) => false,
        }
    }

    // Determined by: equation.
    /// Returns the next event in a dialect, or an error if the string isn't in the grammar from
    /// there on. It returns `None` at the end, and after an error.
    #[inline(always)]
    pub fn next_in(&mut self, grammar: Grammar) -> Option<Result<Event<'input>, RangeError>>
        ensures gives { (o : Option (List list.Event)) → HasLeft grammar self.old o
            → Gives grammar o result self.new }
        ensures ended { result ≡ Some (Err RangeError.NotARange)
            → HasLeft grammar self.new (Some []) }
        ensures fewer { IfSome result (λ _. size_left self.new < size_left self.old) }
    {
        if let Some(upper) = self.upper {
            self.upper = None;
            return Some(Ok(Event::Simple(upper)));
        }
        match self.cursor.next_in(grammar)? {
            Ok(event) => {
                let (event, upper) = view(&event, grammar);
                self.upper = upper;
                Some(Ok(event))
            }
            Err(error) => Some(Err(error)),
        }
    }
}

/// Returns an event in plain terms, and the right side of a hyphen range, if it comes next.
#[inline(always)]
fn view<'input>(
    event: &cursor::Event<'input>,
    grammar: Grammar,
) -> (Event<'input>, Option<Simple<'input>>)
    requires { (d : SomeGrammar) × (n : ℕ) × (x : Item) × IsItemOf d n x event.now }
    ensures { (d : SomeGrammar) (n : ℕ) (x : Item) → IsItemOf d n x event.now
        → IsViewOf grammar x (is_term event.now) result.0 result.1 }
{
    match event {
        cursor::Event::Term(term) => {
            let (first, upper) = simples(term, grammar);
            (Event::Simple(first), upper)
        }
        cursor::Event::EmptyRange => (Event::Simple(Simple::wildcard()), None),
        cursor::Event::NextRange => (Event::NextRange, None),
    }
}

/// Returns a term in plain terms: the one, or the two sides of a hyphen range.
#[inline(always)]
fn simples<'input>(
    term: &RawTerm<'input>,
    grammar: Grammar,
) -> (Simple<'input>, Option<Simple<'input>>)
    requires { (d : SomeGrammar) × (x : FoundTerm) × IsTermOf d x term.now }
    ensures { (d : SomeGrammar) (x : FoundTerm) → IsTermOf d x term.now
        → AreSides (simples_of grammar x) result.0 result.1 }
{
    let simple = term.simple(grammar);
    match &term.upper {
        Some(upper) => hyphen_sides(simple, Partial::of(&upper.components)),
        None => (simple, None),
    }
}

/// Returns the terms of the two sides of a hyphen range. A side without a number is left out,
/// except for the left one if neither side has a number.
#[inline(always)]
fn hyphen_sides<'input>(
    left: Simple<'input>,
    right: Partial<'input>,
) -> (Simple<'input>, Option<Simple<'input>>)
    ensures { (s : SimpleTree) (r : PartialTree) → IsSimpleOf s left.entry
        → IsPartialOf r right.entry → AreSides (yielded_sides s r) result.0 result.1 }
{
    let upper = Simple {
        operator: Operator::LessOrEqual,
        partial: right,
    };
    if right.states_nothing() {
        (left, None)
    } else if left.partial.states_nothing() {
        (upper, None)
    } else {
        (left, Some(upper))
    }
}
