//! Finds the number of a range string that is too large.

ghost use Rattle.std.specs.Prelude.{◌≡◌, ◌≤◌, ℕ, length, IfSome};
ghost use Rattle.std.specs.List.{slice_split};
ghost use Rattle.semver_texts.specs.Texts.{is_dot};
ghost use Rattle.semver_texts.specs.declared.grammar.Grammar.{Grammar as SomeGrammar};
ghost use Rattle.semver_ranges.specs.RangeTree.{SetTree};
ghost use Rattle.semver_ranges.specs.TextItems.{FoundWord, Item};
ghost use Rattle.semver_ranges.specs.Steps.Items.{IsItemOf, IsWordOf};
ghost use Rattle.tool_ranges.specs.Dialects.{SpellsAs};
ghost use Rattle.invalid_ranges.specs.TooLarge.{component_begin, limit_offset, limit_reason};
ghost use Rattle.invalid_ranges.specs.TooLarge.{offset_in, offset_in_item, without_v};

use invalid_strings::reasons::Reason;
use semver_ranges::cursor::{Cursor, Event};
use semver_ranges::dialect::Dialect;
use semver_ranges::operator::Operator;
use semver_ranges::table::limit;
use semver_ranges::term::RawVersion;
use semver_texts::bytes::run_len;
use semver_texts::decimals::number_of_digits;
use semver_texts::dotted::split_at_dot;
use tool_ranges::large_numbers::too_large;

/// Returns the offset of the number that is too large in a range. It is in the first term that
/// doesn't fit: the first number above the limit of the dialect, or if there is none, the number
/// that is raised and can't be. It is 1 in `=18446744073709551616 || 1`, and 0 if every term fits.
/// It does not allocate.
pub(crate) fn limit_offset(dialect: Dialect, text: &str) -> usize
    ensures value { (tree : SetTree) (spelled : SpellsAs dialect tree text.now)
        → result ≡ limit_offset dialect tree text.now spelled }
    ensures within { result ≤ length text.now }
{
    let grammar = dialect.grammar();
    let mut cursor = Cursor::new(text.as_bytes(), grammar);
    while let Some(event) = cursor.next_in(grammar) {
        let Ok(event) = event else {
            return 0;
        };
        if let Some(offset) = offset_in_event(&event, text.len(), dialect) {
            return offset;
        }
    }
    0
}

/// Returns the offset of the number that is too large in a term of a string with a length of `len`
/// bytes, if the event is a term that doesn't fit.
fn offset_in_event(event: &Event<'_>, len: usize, dialect: Dialect) -> Option<usize>
    requires { (d : SomeGrammar) × (n : ℕ) × (x : Item) × IsItemOf d n x event.now × (n ≤ len) }
    ensures value { (d : SomeGrammar) (n : ℕ) (x : Item) → IsItemOf d n x event.now
        → result ≡ offset_in_item dialect len x }
    ensures within { IfSome result (λ offset. offset ≤ len) }
{
    let Event::Term(term) = event else {
        return None;
    };
    if let Some(offset) = offset_in(&term.version, term.operator, len, dialect) {
        return Some(offset);
    }
    match &term.upper {
        Some(upper) => offset_in(upper, Operator::LessOrEqual, len, dialect),
        None => None,
    }
}

/// Returns the offset of the number that is too large in a version after an operator, if they don't
/// fit.
fn offset_in(
    version: &RawVersion<'_>,
    operator: Operator,
    len: usize,
    dialect: Dialect,
) -> Option<usize>
    requires { (d : SomeGrammar) × (x : FoundWord) × IsWordOf d x version.now
        × (length x.from ≤ len) }
    ensures value { (d : SomeGrammar) (x : FoundWord) → IsWordOf d x version.now
        → result ≡ offset_in dialect len operator x }
    ensures within { IfSome result (λ offset. offset ≤ len) }
{
    let index = too_large(operator, &version.components, dialect)?;
    let numbers = without_v(version.from);
    let word = &numbers[..numbers.len() - version.after.len()];
    Some(len - numbers.len() + component_begin(word, index))
}

/// Returns a string without the `v` at its beginning.
fn without_v(text: &[u8]) -> &[u8]
    ensures { result.now ≡ without_v text.now }
{
    match text {
        [b'v', rest @ ..] => rest,
        _ => text,
    }
}

/// Returns the offset of the component with an index, or of the last one if there are fewer.
fn component_begin(components: &[u8], index: usize) -> usize
    ensures value { result ≡ component_begin index (slice_split is_dot components.now) }
    ensures within { result ≤ length components.now }
{
    if index == 0 {
        return 0;
    }
    let (component, after) = split_at_dot(components);
    let Some(after) = after else {
        return 0;
    };
    component.len() + 1 + component_begin(after, index - 1)
}

/// Returns why the number at an offset is too large: it is above the limit of the dialect, or it is
/// the limit and can't be raised.
pub(crate) fn limit_reason(dialect: Dialect, text: &[u8]) -> Reason
    ensures { result ≡ limit_reason dialect text.now }
{
    match number_of_digits(&text[..run_len(text)]) {
        Some(number) if number == limit(dialect) => Reason::bound_too_large_in(dialect.grammar()),
        _ => Reason::too_large_in(dialect.grammar()),
    }
}
