//! Where and why a string is an invalid version.

ghost use Rattle.std.specs.Prelude.{◌≡◌, ◌<◌, ◌≤◌, ◌↔◌, ◌+◌, ◌++◌, ◌∷◌, []};
ghost use Rattle.std.specs.Prelude.{IfErr, IfOk, IsTrue, MatchOption, false, length};
ghost use Rattle.std.specs.Prelude.{string_capacity, take};
ghost use Rattle.semver_texts.specs.Texts.{Text};
ghost use Rattle.semver_texts.specs.ToolVersions.{IsVersionTextIn};
ghost use Rattle.semver_versions.specs.AnyLength.{IsVersionAtAnyLength};
ghost use Rattle.invalid_strings.specs.VersionPrefixes.{IsLongestVersionPrefix};
ghost use Rattle.invalid_strings.specs.Reasons.{IsReason, IsTooLong, byte_at, byte_text, is_blank};
ghost use Rattle.invalid_strings.specs.Reasons.{missing_after, reason_by, unexpected_in};

use crate::buffers::join;
use crate::bytes::{Length, begins, is_version};
use crate::longest::{longest_prefix_in, text_prefix};
use crate::prefix_bytes::{byte_at, ends_in_zero, from_end, has_no_digit, is_separator};
use crate::reasons::Reason;
use crate::versions::Versions;
use semver_texts::bytes::is_part_byte;
use semver_texts::grammar::Grammar;
use semver_texts::npm_limits::MAX_LENGTH;
use semver_texts::white_space::is_ascii_white_space;
use std::alloc::{AllocError, Global};

/// The error of an invalid version string: its offset and its reason.
#[derive(Clone, Copy)]
pub struct Refusal {
    /// The byte offset of the first character that isn't allowed there in a version, or the length
    /// of the string if something is missing at its end.
    pub offset: usize,
    /// The reason.
    pub reason: Reason,
}

/// Returns whether neither a number nor a `v` has begun.
fn is_blank(prefix: &[u8]) -> bool
    ensures { result ≡ is_blank prefix.now }
{
    prefix
        .iter()
        .all(|&byte| !(byte.is_ascii_digit() || byte == b'v'))
}

/// Returns why a prefix with fewer than three numbers doesn't continue as a version.
fn missing_after(prefix: &[u8]) -> Reason
    ensures { result ≡ missing_after prefix.now }
{
    if from_end(prefix, 0).is_ascii_digit() {
        Reason::NotThreeNumbers
    } else {
        Reason::NumberExpected
    }
}

/// Returns the reason for a byte that isn't allowed there: a `v` before the numbers, or another
/// one.
fn unexpected_in(grammar: Grammar, prefix: &[u8], byte: u8) -> Reason
    ensures { result ≡ unexpected_in grammar prefix.now byte }
{
    let is_mark = byte == b'v' && is_blank(prefix);
    match grammar {
        Grammar::Cargo if is_mark => Reason::CargoV,
        Grammar::Crate if is_mark => Reason::CrateV,
        _ => Reason::UnexpectedCharacter,
    }
}

/// Returns the reason. `version` is whether the prefix is a version of any length, and `letter` and
/// `zero` are whether it is one with a letter or a zero appended. `too_long` is whether the prefix
/// with the next byte is too long.
fn reason_by(
    grammar: Grammar,
    version: bool,
    letter: bool,
    zero: bool,
    too_long: bool,
    prefix: &[u8],
    next: Option<u8>,
) -> Reason
    ensures { result ≡ reason_by grammar version letter zero too_long prefix.now next }
{
    let Some(byte) = next else {
        return if is_blank(prefix) {
            Reason::Empty
        } else if !letter {
            missing_after(prefix)
        } else if zero {
            Reason::EmptyIdentifier
        } else {
            Reason::LeadingZero
        };
    };
    let last = from_end(prefix, 0);
    if too_long {
        Reason::TooLong
    } else if byte.is_ascii_digit() && (last.is_ascii_digit() && !letter) {
        if ends_in_zero(prefix) {
            Reason::LeadingZero
        } else {
            Reason::too_large_in(grammar)
        }
    } else if version {
        if is_ascii_white_space(byte) || !is_part_byte(last) {
            Reason::TextAfter
        } else {
            Reason::UnexpectedCharacter
        }
    } else if !is_separator(byte) {
        unexpected_in(grammar, prefix, byte)
    } else if !letter {
        if has_no_digit(prefix) {
            Reason::UnexpectedCharacter
        } else {
            missing_after(prefix)
        }
    } else if zero {
        Reason::EmptyIdentifier
    } else {
        Reason::LeadingZero
    }
}

/// Returns whether the prefix with `part` appended is a version of any length.
fn takes(prefix: &str, part: &str, grammar: Grammar, buffer: &mut String) -> bool
    requires { length prefix.now + length part.now ≤ string_capacity buffer.old }
    ensures takes { IsTrue result ↔ IsVersionAtAnyLength grammar (prefix.now ++ part.now) }
    ensures room { string_capacity buffer.old ≤ string_capacity buffer.new }
{
    join(buffer, prefix, part);
    is_version(buffer.as_bytes(), Length::Any, grammar)
}

/// Returns whether the dialect limits the length of a version.
fn has_limit(grammar: Grammar) -> bool
    ensures { result ≡ false → (text : Text) → ¬ (IsTooLong grammar text) }
{
    match grammar {
        Grammar::Crate => false,
        Grammar::Cargo => false,
        Grammar::Npm => true,
    }
}

/// Returns whether some version begins with the bytes, but every such version is longer than the
/// dialect allows. For a short string the result is known at once, for speed.
fn is_too_long(alloc: Global, text: &[u8], grammar: Grammar) -> Result<bool, AllocError>
    ensures { IfOk result (λ too_long. IsTrue too_long ↔ IsTooLong grammar text.now) }
{
    if !has_limit(grammar) {
        return Ok(false);
    }
    if text.len() + 8 <= MAX_LENGTH {
        return Ok(false);
    }
    let mut buffer = Vec::from_elem(alloc, 0, text.len().saturating_add(8))?;
    Ok(is_too_long_in(text, grammar, buffer.as_mut_slice()))
}

/// Returns whether some version begins with the bytes, but every such version is longer than the
/// dialect allows. The buffer has to be at least 8 bytes longer than the string.
fn is_too_long_in(text: &[u8], grammar: Grammar, buffer: &mut [u8]) -> bool
    requires { length text.now + 8 ≤ length buffer.old }
    ensures { IsTrue result ↔ IsTooLong grammar text.now }
{
    begins(text, Length::Any, grammar, buffer) && !begins(text, Length::Allowed, grammar, buffer)
}

/// Returns the bytes up to an offset, and the byte at it, if there is one.
fn with_next(input: &[u8], offset: usize) -> &[u8]
    requires { offset ≤ length input.now }
    ensures within { length result.now ≤ length input.now }
    ensures bytes { result.now ≡ take offset input.now ++ byte_text (byte_at input.now offset) }
{
    if offset < input.len() {
        &input[..offset + 1]
    } else {
        input
    }
}

// Determined by: law result_laws::texts::one_explanation.
/// Returns the error of a version string, with its offset and reason, or `None` if the version is
/// valid.
///
/// ```text
/// explain(alloc, b"1.2.03", Grammar::Cargo)?    // at 5: LeadingZero
/// explain(alloc, b"1.2", Grammar::Npm)?         // at 3: NotThreeNumbers
/// explain(alloc, b"1.2.3 x", Grammar::Npm)?     // at 6: TextAfter
/// explain(alloc, b" v1.2.3", Grammar::Npm)?     // None
/// ```
///
/// # Errors
///
/// `AllocError` if an allocation fails. It allocates only if the version is invalid: one buffer of
/// about its length, or two if the dialect is npm's and the string is longer than 248 bytes.
pub fn explain(alloc: Global, text: &[u8], grammar: Grammar) -> Result<Option<Refusal>, AllocError>
    ensures version { IfOk result (λ o. MatchOption o (IsVersionTextIn grammar text.now)
        (λ r. ¬ (IsVersionTextIn grammar text.now))) }
    ensures offset { IfOk result (λ o. MatchOption o (Unit {0})
        (λ r. IsLongestVersionPrefix grammar text.now r.offset)) }
    ensures reason { IfOk result (λ o. MatchOption o (Unit {0})
        (λ r. IsReason grammar (take r.offset text.now) (byte_at text.now r.offset) r.reason)) }
    // An allocation can fail only if the version is invalid.
    ensures out_of_memory { IfErr result (λ _. ¬ (IsVersionTextIn grammar text.now)) }
{
    if is_version(text, Length::Allowed, grammar) {
        return Ok(None);
    }
    Ok(Some(refused(alloc, text, grammar)?))
}

/// Returns the error of an invalid version string.
fn refused(alloc: Global, input: &[u8], grammar: Grammar) -> Result<Refusal, AllocError>
    ensures offset { IfOk result (λ r. IsLongestVersionPrefix grammar input.now r.offset) }
    ensures reason { IfOk result (λ r.
        IsReason grammar (take r.offset input.now) (byte_at input.now r.offset) r.reason) }
{
    let text = text_prefix(input);
    let mut buffer = String::with_capacity(alloc, text.len().saturating_add(8))?;
    let offset = longest_prefix_in(&Versions { grammar }, text, &mut buffer);
    let too_long = is_too_long(alloc, with_next(input, offset), grammar)?;
    let next = byte_at(input, offset);
    let reason = reason_at(&text[..offset], next, too_long, grammar, &mut buffer);
    Ok(Refusal { offset, reason })
}

/// Returns the reason at the end of a prefix. `next` is the byte after it, and `too_long` is
/// whether the prefix with that byte is too long.
fn reason_at(
    prefix: &str,
    next: Option<u8>,
    too_long: bool,
    grammar: Grammar,
    buffer: &mut String,
) -> Reason
    requires room { length prefix.now + 8 ≤ string_capacity buffer.old }
    ensures { (IsTrue too_long ↔ IsTooLong grammar (prefix.now ++ byte_text next))
        → IsReason grammar prefix.now next result }
{
    let bytes = prefix.as_bytes();
    let version = is_version(bytes, Length::Any, grammar);
    let letter = takes(prefix, "a", grammar, buffer);
    let zero = takes(prefix, "0", grammar, buffer);
    reason_by(grammar, version, letter, zero, too_long, bytes, next)
}
