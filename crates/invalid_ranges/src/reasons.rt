//! Why a string stops being a range at an offset: another dialect allows what is there, a rule of
//! the dialect is broken, or something is missing. The dialect's own reader decides whether the
//! string before the offset is a range, and whether it ends within an identifier; the rest is
//! decided by its last bytes.

ghost use Rattle.std.specs.Prelude.{◌≡◌, IfOk, take};
ghost use Rattle.std.specs.Str.{IsCharBoundary};
ghost use Rattle.invalid_strings.specs.Reasons.{byte_at};
ghost use Rattle.invalid_ranges.specs.RangeReasons.{IsReasonAs, begins_partial, ends_identifier};
ghost use Rattle.invalid_ranges.specs.RangeReasons.{ends_in_component, expects_number};
ghost use Rattle.invalid_ranges.specs.RangeReasons.{has_leading_zero, is_begun, is_long, is_open};
ghost use Rattle.invalid_ranges.specs.RangeReasons.{is_operator, is_separator, is_spaces};
ghost use Rattle.invalid_ranges.specs.RangeReasons.{is_wildcard, is_word, reason_at_end, reason_by};
ghost use Rattle.invalid_ranges.specs.RangeReasons.{reason_of, reason_of_any, reason_of_cargo};
ghost use Rattle.invalid_ranges.specs.RangeReasons.{reason_of_comma, reason_of_crate};
ghost use Rattle.invalid_ranges.specs.RangeReasons.{reason_of_npm};

use crate::offset::is_range;
use invalid_strings::buffers::join;
use invalid_strings::prefix_bytes::{self, byte_at, ends_in_zero, from_end, has_no_digit};
use invalid_strings::reasons::Reason;
use semver_ranges::dialect::Dialect;
use semver_texts::bytes::is_part_byte;
use semver_texts::grammar::Grammar;
use semver_texts::npm_limits::MAX_SAFE_BUILD_LENGTH;
use std::alloc::{AllocError, Global};

/// Returns why a string stops being a range at an offset.
pub(crate) fn reason_at(
    alloc: Global,
    dialect: Dialect,
    text: &str,
    offset: usize,
) -> Result<Reason, AllocError>
    requires { IsCharBoundary text.now offset }
    ensures { IfOk result (IsReasonAs dialect (take offset text.now) (byte_at text.now offset)) }
{
    let prefix = &text[..offset];
    let complete = is_range(dialect, prefix);
    let mut buffer = String::with_capacity(alloc, offset.saturating_add(1))?;
    join(&mut buffer, prefix, "a");
    let letter = is_range(dialect, buffer.as_str());
    let next = byte_at(text.as_bytes(), offset);
    Ok(reason_by(dialect, complete, letter, prefix.as_bytes(), next))
}

/// Returns the reason. `complete` is whether the prefix is a range, and `letter` whether it is one
/// with a letter appended.
fn reason_by(
    dialect: Dialect,
    complete: bool,
    letter: bool,
    prefix: &[u8],
    next: Option<u8>,
) -> Reason
    ensures { result ≡ reason_by dialect complete letter prefix.now next }
{
    let Some(byte) = next else {
        return reason_at_end(letter, prefix);
    };
    if has_leading_zero(complete, letter, prefix, byte) {
        return Reason::LeadingZero;
    }
    let other = of_any(complete, letter, prefix, byte);
    match dialect.grammar() {
        Grammar::Cargo => of_cargo(complete, letter, prefix, byte, other),
        Grammar::Npm => of_npm(complete, letter, prefix, byte, other),
        Grammar::Crate => of_crate(prefix, byte, other),
    }
}

/// Returns what is missing at the end of a string.
fn reason_at_end(letter: bool, prefix: &[u8]) -> Reason
    ensures { result ≡ reason_at_end letter prefix.now }
{
    let last = from_end(prefix, 0);
    if is_spaces(prefix) {
        Reason::Empty
    } else if letter {
        if last.is_ascii_digit() {
            Reason::LeadingZero
        } else {
            Reason::EmptyIdentifier
        }
    } else if last == b'|' {
        Reason::UnexpectedEnd
    } else {
        Reason::NumberExpected
    }
}

/// Returns the reason in Cargo's dialect: what may have been meant, or else `other`.
fn of_cargo(complete: bool, letter: bool, prefix: &[u8], byte: u8, other: Reason) -> Reason
    ensures { result ≡ reason_of_cargo complete letter prefix.now byte other }
{
    let last = from_end(prefix, 0);
    let after_space = last == b' ';
    if byte == b'|' {
        Reason::CargoBars
    } else if byte == b'v' && is_separator(last) {
        Reason::CargoV
    } else if complete && (byte == b'-' && after_space) {
        Reason::CargoHyphen
    } else if complete && (is_operator(byte) || (begins_partial(byte) && after_space)) {
        Reason::CargoCommas
    } else if is_begun(complete, letter) && is_wildcard(byte) {
        Reason::CargoWildcard
    } else if complete && byte == b',' {
        of_comma(prefix)
    } else {
        other
    }
}

/// Returns why Cargo allows no comma after a requirement: it is a wildcard, or it already has the
/// maximum number of comparators.
fn of_comma(prefix: &[u8]) -> Reason
    ensures { result ≡ reason_of_comma prefix.now }
{
    if has_no_digit(prefix) {
        Reason::CargoWildcard
    } else {
        Reason::TooManyComparators
    }
}

/// Returns the reason in npm's dialect: what may have been meant, or else `other`.
fn of_npm(complete: bool, letter: bool, prefix: &[u8], byte: u8, other: Reason) -> Reason
    ensures { result ≡ reason_of_npm complete letter prefix.now byte other }
{
    let is_dotted = is_part_byte(byte) || byte == b'.';
    if is_dotted && (!is_open(complete, letter) && is_long(prefix)) {
        Reason::TooLong
    } else if byte == b',' {
        Reason::NpmComma
    } else {
        other
    }
}

/// Returns the reason in a dialect of the crate: what may have been meant, or else `other`.
fn of_crate(prefix: &[u8], byte: u8, other: Reason) -> Reason
    ensures { result ≡ reason_of_crate prefix.now byte other }
{
    if byte == b',' {
        Reason::CrateComma
    } else if byte == b'v' && is_separator(from_end(prefix, 0)) {
        Reason::CrateV
    } else {
        other
    }
}

/// Returns the reason that is the same in each dialect.
fn of_any(complete: bool, letter: bool, prefix: &[u8], byte: u8) -> Reason
    ensures { result ≡ reason_of_any complete letter prefix.now byte }
{
    if matches!(byte, b'-' | b'+') && (ends_in_component(prefix) && !letter) {
        Reason::NotThreeNumbers
    } else if is_open(complete, letter) && ends_identifier(byte) {
        Reason::EmptyIdentifier
    } else if expects_number(complete, letter, prefix, byte) {
        Reason::NumberExpected
    } else {
        Reason::UnexpectedCharacter
    }
}

/// Returns whether the prefix ends within an identifier that is empty or has a leading zero.
fn is_open(complete: bool, letter: bool) -> bool
    ensures { result ≡ is_open complete letter }
{
    letter && !complete
}

/// Returns whether a number or a wildcard has to follow, or the second of two bars.
fn is_begun(complete: bool, letter: bool) -> bool
    ensures { result ≡ is_begun complete letter }
{
    !complete && !letter
}

/// Returns whether the identifier has a leading zero, or the number before a digit has.
fn has_leading_zero(complete: bool, letter: bool, prefix: &[u8], byte: u8) -> bool
    ensures { result ≡ has_leading_zero complete letter prefix.now byte }
{
    (is_open(complete, letter) && from_end(prefix, 0).is_ascii_digit())
        || (byte.is_ascii_digit() && (ends_in_zero(prefix) && !letter))
}

/// Returns whether a number has to follow, but the byte doesn't begin one.
fn expects_number(complete: bool, letter: bool, prefix: &[u8], byte: u8) -> bool
    ensures { result ≡ expects_number complete letter prefix.now byte }
{
    let last = from_end(prefix, 0);
    is_begun(complete, letter)
        && !byte.is_ascii_digit()
        && !(is_spaces(prefix) || (last == b'|' || last == b'-'))
}

/// Returns whether a prefix consists of only spaces.
fn is_spaces(prefix: &[u8]) -> bool
    ensures { result ≡ is_spaces prefix.now }
{
    prefix.iter().all(|byte| *byte == b' ')
}

/// Returns whether a prefix ends in a digit or a wildcard.
fn ends_in_component(prefix: &[u8]) -> bool
    ensures { result ≡ ends_in_component prefix.now }
{
    let last = from_end(prefix, 0);
    last.is_ascii_digit() || is_wildcard(last)
}

/// Returns whether a prefix ends in one word that is at least as long as the smallest of npm's
/// limits.
fn is_long(prefix: &[u8]) -> bool
    ensures { result ≡ is_long prefix.now }
{
    if prefix.len() < MAX_SAFE_BUILD_LENGTH {
        return false;
    }
    is_word(&prefix[prefix.len() - MAX_SAFE_BUILD_LENGTH..])
}

/// Returns whether no byte separates words.
fn is_word(bytes: &[u8]) -> bool
    ensures { result ≡ is_word bytes.now }
{
    bytes.iter().all(|byte| !is_separator(*byte))
}

/// Returns whether a byte separates words.
fn is_separator(byte: u8) -> bool
    ensures { result ≡ is_separator byte }
{
    !(byte.is_ascii_alphanumeric() || matches!(byte, b'-' | b'.' | b'+' | b'*'))
}

/// Returns whether an operator begins with the byte.
fn is_operator(byte: u8) -> bool
    ensures { result ≡ is_operator byte }
{
    matches!(byte, b'<'..=b'>' | b'^' | b'~')
}

/// Returns whether the byte is a wildcard.
fn is_wildcard(byte: u8) -> bool
    ensures { result ≡ is_wildcard byte }
{
    matches!(byte, b'x' | b'X' | b'*')
}

/// Returns whether a comparator without an operator begins with the byte.
fn begins_partial(byte: u8) -> bool
    ensures { result ≡ begins_partial byte }
{
    byte.is_ascii_digit() || is_wildcard(byte)
}

/// Returns whether an identifier may end before the byte.
fn ends_identifier(byte: u8) -> bool
    ensures { result ≡ ends_identifier byte }
{
    prefix_bytes::is_separator(byte) || matches!(byte, b'|' | b',')
}
