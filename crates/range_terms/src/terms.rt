//! Iterates over the terms of a range string. Nothing here allocates.

ghost use Rattle.std.specs.Prelude.{◌≡◌, ◌≢◌, ◌≤◌, ◌+◌, Err, IfOk, length};
ghost use Rattle.std.specs.List.{AllByRecursion};
ghost use Rattle.semver_texts.specs.Texts.{Text, begins_with};
ghost use Rattle.semver_texts.specs.declared.grammar.Grammar as some;
ghost use Rattle.semver_ranges.specs.RangeTree.{SetTree};
ghost use Rattle.semver_ranges.specs.TextItems.{FoundTerm, FoundWord};
ghost use Rattle.semver_ranges.specs.Steps.Items.{IsTermOf, IsWordOf};
ghost use Rattle.semver_ranges.specs.Steps.PartialViews.{IsComponentOf, IsWrittenAs};
ghost use Rattle.tool_ranges.specs.Dialects.{RefusesAs, SpellsAs};
ghost use Rattle.range_terms.specs.WrittenTerms.{component_of, term_value, terms_in};
ghost use Rattle.range_terms.specs.WrittenTerms.{version_at, version_value, written_term};
ghost use Rattle.range_terms.specs.Replacing.{IsReplaceable};
ghost use Rattle.range_terms.specs.RewrittenVersions.{IsRewritable};
ghost use Rattle.range_terms.specs.Steps.{YieldsTerm};

use crate::term::{Component, PartialVersion, Span, Term};
use semver_ranges::cursor::{Cursor, Event};
use semver_ranges::dialect::Dialect;
use semver_ranges::term::{RawTerm, RawVersion};
use semver_ranges::{RangeError, partial};
use semver_texts::dotted::text_of_parts;
use semver_texts::grammar::Grammar;
use std::marker::Model;
use tool_ranges::meaning::{Rules, check};
use version_sets::PreReleases;

/// An iterator over the terms of a range, as they are written. It borrows the string and allocates
/// nothing. An empty range, such as the second of `1.2 ||`, has no term.
///
/// ```
/// use semver_parser::{terms, Dialect, Operator};
///
/// let range = "^1.2 || >=3.0.0-rc.1 <4";
/// let found: Vec<_> = terms(range, Dialect::Npm)?
///     .map(|term| (term.range, term.operator, &range[term.version.span.range()]))
///     .collect();
/// assert_eq!(
///     found,
///     [
///         (0, Operator::Caret, "1.2"),
///         (1, Operator::GreaterOrEqual, "3.0.0-rc.1"),
///         (1, Operator::Less, "4"),
///     ]
/// );
/// # Ok::<(), semver_parser::Error>(())
/// ```
#[derive(Debug, Drop)]
pub struct Terms<'text> {
    /// The length of the whole string.
    len: usize,
    grammar: Grammar,
    /// The number of `||` before what is left.
    range: usize,
    cursor: Cursor<'text>,
}

impl<'text> Model for Terms<'text> {
    ghost use Rattle.std.specs.Prelude.{List, ◌≤◌, ◌+◌, length};
    ghost use Rattle.range_terms.specs.WrittenTerms.{WrittenTerm};
    ghost use Rattle.range_terms.specs.Steps.{terms_left};

    ghost Value = { List WrittenTerm };

    ghost view = { λ s. terms_left s.grammar s.len s.range s.cursor };

    ghost invariant = { λ s. s.range + length s.cursor.rest.now ≤ s.len };
}

impl<'text> Terms<'text> {
    // Determined by: law result_laws::ranges::one_terms.
    /// Checks a range string in a dialect, and returns its terms.
    ///
    /// If the part of the string at the span of a version is replaced by another partial version of
    /// the dialect's grammar, the string is still in the grammar. In Cargo's dialect the
    /// replacement must have a number. So it can be the printed result of
    /// [`PartialVersion::with_version`], for any version of the dialect; in npm's dialect, that
    /// result must have at most 256 characters. Check the new string anyway, since one of its
    /// numbers may be too large.
    ///
    /// # Errors
    ///
    /// The errors of `check_range`, without a string: `NotARange` if and only if the string isn't a
    /// range in the dialect, and `NumberTooLarge` if and only if it is a range, but one of its
    /// numbers, or a bound that is raised by one, is above the dialect's limit.
    pub fn try_parse(range: &'text str, dialect: Dialect) -> Result<Terms<'text>, RangeError>
        // `NotARange` and `NumberTooLarge` are returned for exactly the strings for which they are
        // defined.
        ensures refusals { RefusesAs dialect range.now result }
        ensures no_memory { result ≢ Err RangeError.OutOfMemory }
        // The terms are those of the syntax tree of the string, whichever way it spells the string.
        ensures terms { IfOk result (λ terms. (tree : SetTree)
            (spelled : SpellsAs dialect tree range.now)
            → terms ≡ terms_in dialect tree range.now spelled) }
        // If another version of the grammar replaces the string at the span of one, the result is a
        // range again.
        ensures replaceable { IfOk result
            (λ terms. AllByRecursion (IsReplaceable dialect range.now) terms) }
        // It is also a range again if the printed result of `with_version` replaces the string at
        // the span of its version, under the dialect's conditions (`MayBecome`).
        ensures rewritable { IfOk result
            (λ terms. AllByRecursion (IsRewritable dialect range.now) terms) }
    {
        let meaning = Rules {
            dialect,
            pre_releases: PreReleases::ByDialect,
        };
        check(meaning, range)?;
        Ok(of_range(range, dialect))
    }
}

// Determined by: equation.
impl<'text> Iterator for Terms<'text> {
    ghost use Rattle.std.specs.Iterator.{YieldsFirstBy, item_count};
    ghost use Rattle.range_terms.specs.WrittenTerms.{term_value};

    type Item = Term<'text>;

    ghost next_gives = { YieldsFirstBy term_value (λ terms. terms) };

    ghost remaining = { item_count (λ terms. terms) };

    fn next(&mut self) -> Option<Term<'text>> {
        next_term(&mut self.cursor, &mut self.range, self.grammar, self.len)
    }
}

/// Returns the next term of a string with a length of `len` bytes, if there is one, and counts the
/// `||` before it.
fn next_term<'text>(
    cursor: &mut Cursor<'text>,
    range: &mut usize,
    grammar: Grammar,
    len: usize,
) -> Option<Term<'text>>
    requires { range.old + length cursor.old.rest.now ≤ len }
    ensures value { YieldsTerm grammar len range.old cursor.old result range.new cursor.new }
    ensures within { range.new + length cursor.new.rest.now ≤ len }
{
    while let Some(event) = cursor.next_in(grammar) {
        let Ok(event) = event else {
            return None;
        };
        match event {
            Event::Term(read) => return Some(term_of(&read, *range, len)),
            Event::NextRange => *range += 1,
            Event::EmptyRange => {}
        }
    }
    None
}

// Determined by: equation.
/// Returns the terms of a range string that was checked, even if one of its numbers is too large.
#[must_use]
pub fn of_range(range: &str, dialect: Dialect) -> Terms<'_>
    ensures { (tree : SetTree) (spelled : SpellsAs dialect tree range.now)
        → result ≡ terms_in dialect tree range.now spelled }
{
    let grammar = dialect.grammar();
    Terms {
        len: range.len(),
        grammar,
        range: 0,
        cursor: Cursor::new(range.as_bytes(), grammar),
    }
}

/// Returns a term of the range with an index, in a string with a length of `len` bytes.
fn term_of<'text>(read: &RawTerm<'text>, range: usize, len: usize) -> Term<'text>
    requires { (d : some.Grammar) × (x : FoundTerm) × IsTermOf d x read.now
        × (length x.from ≤ len) }
    ensures { (d : some.Grammar) (x : FoundTerm) → IsTermOf d x read.now
        → term_value result ≡ written_term len range x }
{
    let version = version_of(&read.version, len);
    let upper = match &read.upper {
        Some(upper) => Some(version_of(upper, len)),
        None => None,
    };
    let end = match &upper {
        Some(upper) => upper.span.end,
        None => version.span.end,
    };
    Term {
        range,
        operator: read.operator,
        span: Span {
            start: len - read.from.len(),
            end,
        },
        version,
        upper,
    }
}

/// Returns a version of a term, in a string with a length of `len` bytes.
#[inline]
fn version_of<'text>(written: &RawVersion<'text>, len: usize) -> PartialVersion<'text>
    requires { (d : some.Grammar) × (x : FoundWord) × IsWordOf d x written.now
        × (length x.from ≤ len) }
    ensures { (d : some.Grammar) (x : FoundWord) → IsWordOf d x written.now
        → version_value result ≡ version_at len x }
{
    let components = &written.components;
    PartialVersion {
        span: Span {
            start: len - written.from.len(),
            end: len - written.after.len(),
        },
        has_v: begins_with_v(written.from),
        major: component(components.major),
        minor: component_if_written(components.minor),
        patch: component_if_written(components.patch),
        pre: text_of_parts(components.pre),
        build: text_of_parts(components.build),
    }
}

/// Returns whether a string begins with `v`.
fn begins_with_v(text: &[u8]) -> bool
    ensures { result ≡ begins_with 118 text.now }
{
    matches!(text, [b'v', ..])
}

/// Returns a component that was read, if it is written.
fn component_if_written(read: Option<partial::Component>) -> Option<Component>
    ensures none { read ≡ None → result ≡ None }
    ensures some { (word : Text) → IsWrittenAs word read → result ≡ Some (component_of word) }
{
    match read {
        Some(read) => Some(component(read)),
        None => None,
    }
}

/// Returns a component that was read.
fn component(read: partial::Component) -> Component
    ensures { (word : Text) → IsComponentOf word read → result ≡ component_of word }
{
    match read {
        partial::Component::Number(number) => Component::Number(number.unwrap_or(u64::MAX)),
        partial::Component::Wildcard(byte) => Component::Wildcard(char::from(byte)),
    }
}
