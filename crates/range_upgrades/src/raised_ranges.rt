//! A range whose last alternative is raised to a newer version.

ghost use Rattle.std.specs.Prelude.{◌≡◌, ◌↔◌, ◌++◌, None, Some, IfOk, IfSome, true, false};
ghost use Rattle.std.specs.Prelude.{string_bytes};
ghost use Rattle.semver_texts.specs.Texts.{Text};
ghost use Rattle.semver_versions.specs.VersionRefs.{version_of};
ghost use Rattle.semver_ranges.specs.RangeTree.{SetTree};
ghost use Rattle.tool_ranges.specs.Dialects.{SpellsAs};
ghost use Rattle.range_terms.specs.WrittenTerms.{term_value, terms_in, version_value};
ghost use Rattle.range_terms.specs.WrittenTexts.{version_text};
ghost use Rattle.range_upgrades.specs.Alternatives.{last_of};
ghost use Rattle.range_upgrades.specs.RaisedRanges.{IsBelow, IsInPlace, IsOneMore, IsOnlyRaised};
ghost use Rattle.range_upgrades.specs.RaisedRanges.{IsPart, IsRaised, IsToRaise, is_lower_bound};
ghost use Rattle.range_upgrades.specs.RaisedRanges.{last_version};
ghost use Rattle.range_upgrades.specs.Upgrades.{IsReadIn};

use crate::alternatives::Alternative;
use crate::raised_versions::{Form, raised_version};
use range_terms::term::{PartialVersion, Term};
use range_terms::terms::of_range;
use semver_ranges::dialect::Dialect;
use semver_ranges::operator::Operator;
use semver_versions::version::VersionRef;
use std::alloc::{AllocError, Global};
use tool_ranges::at_or_above::has_at_or_above;
use tool_ranges::laws;
use tool_ranges::meaning::Rules;
use version_sets::PreReleases;

/// Returns the range with its last alternative raised in place. It is `None` if the alternative
/// isn't a part of the range, or a number would be above 2^64 - 1. `Err` means out of memory.
pub(crate) fn raised_in_place(
    alloc: Global,
    range: &str,
    last: &Alternative,
    version: &VersionRef<'_>,
    dialect: Dialect,
    form: Form,
) -> Result<Option<String>, AllocError>
    requires { IsReadIn dialect version.now }
    ensures some { IfOk result (λ found. IfSome found (λ new. (tree : SetTree)
        (spelled : SpellsAs dialect tree range.now)
        → last_of (terms_in dialect tree range.now spelled) ≡ Some last.now
        → IsInPlace dialect form range.now version.now
        (terms_in dialect tree range.now spelled) (string_bytes new))) }
    ensures only { IfOk result (λ found. IfSome found (λ new. (tree : SetTree)
        (spelled : SpellsAs dialect tree range.now) (s : Text)
        → last_of (terms_in dialect tree range.now spelled) ≡ Some last.now
        → IsInPlace dialect form range.now version.now
        (terms_in dialect tree range.now spelled) s → s ≡ string_bytes new)) }
    ensures none { IfOk result (λ found. found ≡ None → (tree : SetTree)
        (spelled : SpellsAs dialect tree range.now) (s : Text)
        → last_of (terms_in dialect tree range.now spelled) ≡ Some last.now
        → ¬ (IsInPlace dialect form range.now version.now
        (terms_in dialect tree range.now spelled) s)) }
{
    let Some(before) = part(range, 0, last.start) else {
        return Ok(None);
    };
    let Some(after) = part(range, last.end, range.len()) else {
        return Ok(None);
    };
    let mut new = String::with_capacity(alloc, range.len())?;
    new.push_str(before)?;
    if !push_alternative(&mut new, range, last, version, dialect, form)? {
        return Ok(None);
    }
    new.push_str(after)?;
    Ok(Some(new))
}

/// Returns the range with its last alternative, raised, as one more alternative. It is `None` if
/// the range has only one alternative, or the last one isn't a part of it, or a number would be
/// above 2^64 - 1. `Err` means out of memory.
pub(crate) fn raised_as_one_more(
    alloc: Global,
    range: &str,
    last: &Alternative,
    version: &VersionRef<'_>,
    dialect: Dialect,
    form: Form,
) -> Result<Option<String>, AllocError>
    requires { IsReadIn dialect version.now }
    ensures some { IfOk result (λ found. IfSome found (λ new. (tree : SetTree)
        (spelled : SpellsAs dialect tree range.now)
        → last_of (terms_in dialect tree range.now spelled) ≡ Some last.now
        → IsOneMore dialect form range.now version.now
        (terms_in dialect tree range.now spelled) (string_bytes new))) }
    ensures only { IfOk result (λ found. IfSome found (λ new. (tree : SetTree)
        (spelled : SpellsAs dialect tree range.now) (s : Text)
        → last_of (terms_in dialect tree range.now spelled) ≡ Some last.now
        → IsOneMore dialect form range.now version.now
        (terms_in dialect tree range.now spelled) s → s ≡ string_bytes new)) }
    ensures none { IfOk result (λ found. found ≡ None → (tree : SetTree)
        (spelled : SpellsAs dialect tree range.now) (s : Text)
        → last_of (terms_in dialect tree range.now spelled) ≡ Some last.now
        → ¬ (IsOneMore dialect form range.now version.now
        (terms_in dialect tree range.now spelled) s)) }
{
    let Some(end) = last.before else {
        return Ok(None);
    };
    let Some(before) = part(range, 0, last.end) else {
        return Ok(None);
    };
    let Some(between) = part(range, end, last.start) else {
        return Ok(None);
    };
    let Some(after) = part(range, last.end, range.len()) else {
        return Ok(None);
    };
    let mut new = String::with_capacity(alloc, range.len().saturating_mul(2))?;
    new.push_str(before)?;
    new.push_str(between)?;
    if !push_alternative(&mut new, range, last, version, dialect, form)? {
        return Ok(None);
    }
    new.push_str(after)?;
    Ok(Some(new))
}

/// Appends the last alternative to a string, in which each version that has to be raised is
/// replaced. Returns false if the alternative isn't a part of the range, or a number would be above
/// 2^64 - 1. `Err` means out of memory.
fn push_alternative(
    raised: &mut String,
    range: &str,
    last: &Alternative,
    version: &VersionRef<'_>,
    dialect: Dialect,
    form: Form,
) -> Result<bool, AllocError>
    requires { IsReadIn dialect version.now }
    ensures pushed { IfOk result (λ is. is ≡ true → (s : Text)
        × (string_bytes raised.new ≡ string_bytes raised.old ++ s)
        × ((tree : SetTree) (spelled : SpellsAs dialect tree range.now)
        → IsOnlyRaised dialect form range.now version.now last.now
        (terms_in dialect tree range.now spelled) s)) }
    ensures none { IfOk result (λ is. is ≡ false → (tree : SetTree)
        (spelled : SpellsAs dialect tree range.now) (s : Text) → ¬ (IsRaised dialect form range.now
        version.now last.now (terms_in dialect tree range.now spelled) s)) }
{
    let mut copied = last.start;
    for term in of_range(range, dialect) {
        if !is_to_raise(range, last, &term, version, dialect) {
            continue;
        }
        let written = last_version(&term);
        let Some(new) = raised_version(dialect, term.operator, &written, version, form) else {
            return Ok(false);
        };
        let Some(kept) = part(range, copied, written.span.start) else {
            return Ok(false);
        };
        push_raised(raised, kept, &new)?;
        copied = written.span.end;
    }
    let Some(kept) = part(range, copied, last.end) else {
        return Ok(false);
    };
    raised.push_str(kept)?;
    Ok(true)
}

/// Appends a part of the range that is kept, and then a raised version. `Err` means out of memory.
fn push_raised(raised: &mut String, kept: &str, new: &PartialVersion<'_>) -> Result<(), AllocError>
    ensures { IfOk result (λ _. string_bytes raised.new ≡ string_bytes raised.old
        ++ (kept.now ++ version_text (version_value new.now))) }
{
    write!(raised, "{kept}{new}")
}

/// Returns whether the version of a term has to be raised: the term is in the last alternative,
/// doesn't state only a lower bound, and has no version at or above the newer one.
fn is_to_raise(
    range: &str,
    last: &Alternative,
    term: &Term<'_>,
    version: &VersionRef<'_>,
    dialect: Dialect,
) -> bool
    requires { IsReadIn dialect version.now }
    ensures { (result ≡ true)
        ↔ IsToRaise dialect range.now version.now last.now (term_value term.now) }
{
    if term.range != last.range || is_lower_bound(term.operator) {
        return false;
    }
    match part(range, term.span.start, term.span.end) {
        Some(text) => is_below(text, version, dialect),
        None => false,
    }
}

/// Returns whether a term, which is given alone as a range, has no version at or above another
/// version.
fn is_below(term: &str, version: &VersionRef<'_>, dialect: Dialect) -> bool
    requires { IsReadIn dialect version.now }
    ensures { (result ≡ true) ↔ IsBelow dialect term.now (version_of version.now).plain }
{
    let meaning = Rules {
        dialect,
        pre_releases: PreReleases::Included,
    };
    laws::one_tree();
    match has_at_or_above(version, term, meaning) {
        Ok(has) => !has,
        Err(_) => false,
    }
}

/// Returns whether an operator states only a lower bound.
fn is_lower_bound(operator: Operator) -> bool
    ensures { result ≡ is_lower_bound operator }
{
    matches!(operator, Operator::Greater | Operator::GreaterOrEqual)
}

/// Returns the version of a term; of a hyphen range, the one after the hyphen.
fn last_version<'t>(term: &Term<'t>) -> PartialVersion<'t>
    ensures { version_value result ≡ last_version (term_value term.now) }
{
    match term.upper {
        Some(upper) => upper,
        None => term.version,
    }
}

/// Returns the part of a string between two offsets, or `None` if one of them divides a character
/// or they aren't in order.
fn part(text: &str, start: usize, end: usize) -> Option<&str>
    ensures some { IfSome result (λ part. IsPart text.now start end part.now) }
    ensures none { result ≡ None → (part : Text) → ¬ (IsPart text.now start end part) }
{
    if start <= end && text.is_char_boundary(start) && text.is_char_boundary(end) {
        return Some(&text[start..end]);
    }
    None
}
