//! The alternatives of a range, which `||` separates.

ghost use Rattle.std.specs.Prelude.{◌≡◌, ◌↔◌, Some, true};
ghost use Rattle.semver_ranges.specs.RangeTree.{SetTree};
ghost use Rattle.tool_ranges.specs.Dialects.{SpellsAs};
ghost use Rattle.range_terms.specs.WrittenTerms.{term_value, terms_in};
ghost use Rattle.range_upgrades.specs.Alternatives.{HasBars, last_of, with_term};

use range_terms::term::Term;
use range_terms::terms::of_range;
use semver_ranges::dialect::Dialect;

/// The terms between two `||`, as offsets in the range string.
#[derive(Clone, Copy)]
pub(crate) struct Alternative {
    /// The number of `||` before it.
    pub(crate) range: usize,
    /// The offset of its first term.
    pub(crate) start: usize,
    /// The offset after its last term.
    pub(crate) end: usize,
    /// The offset after the last term of the alternative before it, if there is one.
    pub(crate) before: Option<usize>,
}

/// Returns the last alternative that has a term, or `None` if the range has no term.
pub(crate) fn last_alternative(range: &str, dialect: Dialect) -> Option<Alternative>
    ensures { (tree : SetTree) (spelled : SpellsAs dialect tree range.now)
        → result ≡ last_of (terms_in dialect tree range.now spelled) }
{
    let mut last = None;
    for term in of_range(range, dialect) {
        last = Some(with_term(last, &term));
    }
    last
}

/// Returns the last alternative, if one more term follows.
fn with_term(last: Option<Alternative>, term: &Term<'_>) -> Alternative
    ensures { Some result ≡ with_term last (term_value term.now) }
{
    let (range, start, end) = (term.range, term.span.start, term.span.end);
    match last {
        Some(last) if last.range == range => Alternative { end, ..last },
        Some(last) => Alternative {
            range,
            start,
            end,
            before: Some(last.end),
        },
        None => Alternative {
            range,
            start,
            end,
            before: None,
        },
    }
}

/// Returns whether a string has `||` somewhere.
pub(crate) fn has_bars(text: &[u8]) -> bool
    ensures { (result ≡ true) ↔ HasBars text.now }
{
    for at in 1..text.len() {
        if text[at - 1] == b'|' && text[at] == b'|' {
            return true;
        }
    }
    false
}
