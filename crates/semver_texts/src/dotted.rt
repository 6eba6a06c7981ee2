//! Parts joined by dots after their mark, which is how version and range strings have the
//! identifiers of a pre-release and of build metadata.
ghost use Rattle.std.specs.Prelude.{◌≡◌, ◌||◌, ◌==◌, ◌<◌, [], ◌∷◌, ◌++◌, None, Some, Ok, true};
ghost use Rattle.std.specs.Prelude.{false, length, IsTrue, IfOk, IfErr, MatchOption};
ghost use Rattle.std.specs.Char.{is_ascii_digit};
ghost use Rattle.std.specs.List.{AllByRecursion, AllZip, list_all, prefix_len, slice_split};
ghost use Rattle.std.specs.Fn.{FnReturnsAt};
ghost use Rattle.semver_texts.specs.Texts.{begins_with, cut_at_dots, has_no_leading_zero, is_dot};
ghost use Rattle.semver_texts.specs.Texts.{is_dotted_byte, marked_length};
ghost use Rattle.semver_texts.specs.Steps.DottedParts.{begins_oddly, is_odd, is_run_byte};
ghost use Rattle.semver_texts.specs.Steps.DottedParts.{marked_part, runs_stand};

use crate::bytes::count_dots;
use std::alloc::{AllocError, Global};

/// The hyphens that a part may have.
#[derive(Clone, Copy)]
pub enum Hyphens {
    /// Any, as in a range string.
    Any,
    /// Those between letters and digits, as in a version string.
    BetweenRuns,
}

/// Returns whether the byte is part of a sequence without separators: a letter or a digit, or a
/// hyphen if any hyphen is allowed.
#[inline(always)]
fn is_run_byte(byte: u8, hyphens: Hyphens) -> bool
    ensures { result ≡ is_run_byte hyphens byte }
{
    byte.is_ascii_alphanumeric() || (byte == b'-' && matches!(hyphens, Hyphens::Any))
}

/// Returns whether the byte is a hyphen or a dot.
#[inline(always)]
fn is_between_runs(byte: u8) -> bool
    ensures { result ≡ (byte == 45 || byte == 46) }
{
    matches!(byte, b'-' | b'.')
}

/// Returns the length of the parts joined by dots at the beginning, up to a byte that can't be in
/// them, or `None` if they aren't valid. A letter or a digit is accepted without looking at the
/// hyphens, for speed.
#[inline(always)]
#[tactic(auto, using(crate::proofs::DottedParts::letter_runs))]
fn parts_len(bytes: &[u8], hyphens: Hyphens) -> Option<usize>
    ensures { MatchOption result (runs_stand (is_run_byte hyphens) false bytes.now ≡ false)
        (λ len. (runs_stand (is_run_byte hyphens) false bytes.now ≡ true)
        × (len ≡ prefix_len is_dotted_byte bytes.now)) }
{
    let mut in_run = false;
    for at in 0..bytes.len() {
        let byte = bytes[at];
        if byte.is_ascii_alphanumeric() {
            in_run = true;
            continue;
        }
        if !is_between_runs(byte) {
            return in_run.then_some(at);
        }
        if is_run_byte(byte, hyphens) {
            in_run = true;
            continue;
        }
        if !in_run {
            return None;
        }
        in_run = false;
    }
    in_run.then_some(bytes.len())
}

// Determined by: equation.
/// Returns what follows the mark, if the bytes begin with it.
#[inline(always)]
pub fn strip_mark(bytes: &[u8], mark: u8) -> Option<&[u8]>
    ensures { MatchOption result (begins_with mark bytes.now ≡ false)
        (λ after. bytes.now ≡ mark ∷ after.now) }
{
    match bytes {
        [first, after @ ..] if *first == mark => Some(after),
        _ => None,
    }
}

// Determined by: equation.
/// Returns the parts after the mark, and what follows them. If the bytes don't begin with the mark,
/// there are no parts, and everything follows. Returns `None` if invalid parts follow the mark.
#[inline(always)]
pub fn marked_part(bytes: &[u8], mark: u8, hyphens: Hyphens) -> Option<(&[u8], &[u8])>
    ensures { MatchOption result (marked_part hyphens mark bytes.now ≡ None)
        (λ r. marked_part hyphens mark bytes.now ≡ Some (r.0.now, r.1.now)) }
{
    let Some(after) = strip_mark(bytes, mark) else {
        return Some((&[], bytes));
    };
    let len = parts_len(after, hyphens)?;
    Some(after.split_at(len))
}

// Determined by: equation.
/// Returns the length in bytes of parts with their mark: 5 for `rc.1`, and 0 if there are none.
#[inline(always)]
pub fn marked_len(parts: &[u8]) -> usize
    ensures { result ≡ marked_length parts.now }
{
    if parts.is_empty() { 0 } else { parts.len() + 1 }
}

// Determined by: equation.
/// Returns parts as a string. Their bytes and the dots between them are ASCII, so this is always
/// possible.
pub fn text_of_parts(bytes: &[u8]) -> &str
    requires { AllByRecursion (λ b. IsTrue (is_dotted_byte b)) bytes.now }
    ensures { result.now ≡ bytes.now }
{
    match str::from_utf8(bytes) {
        Ok(text) => text,
        Err(_) => "",
    }
}

// Determined by: law result_laws::texts::one_split_at_dot.
/// Returns what is before the first dot, and what follows it. If there is no dot, it returns
/// everything and `None`.
#[inline(always)]
pub fn split_at_dot(bytes: &[u8]) -> (&[u8], Option<&[u8]>)
    ensures { MatchOption result.1
        ((slice_split is_dot bytes.now ≡ result.0.now ∷ []) × (bytes.now ≡ result.0.now))
        (λ after. (slice_split is_dot bytes.now ≡ result.0.now ∷ slice_split is_dot after.now)
        × (bytes.now ≡ result.0.now ++ 46 ∷ after.now)) }
{
    for at in 0..bytes.len() {
        if bytes[at] == b'.' {
            return (&bytes[..at], Some(&bytes[at + 1..]));
        }
    }
    (bytes, None)
}

// Determined by: equation.
/// Returns whether no numeric part has a leading zero. It first tests whether any part begins with
/// a zero at all, for speed.
#[inline(always)]
pub fn have_no_leading_zeros(parts: &[u8]) -> bool
    ensures { result ≡ list_all has_no_leading_zero (cut_at_dots parts.now) }
{
    if parts.is_empty() {
        return true;
    }
    if !begins_oddly(parts) {
        return true;
    }
    each_has_no_leading_zero(parts)
}

/// Returns whether a part is empty or begins with a zero. Only the bytes after a dot are tested,
/// for speed.
#[inline(always)]
fn begins_oddly(parts: &[u8]) -> bool
    ensures { result ≡ begins_oddly parts.now }
{
    if is_odd(parts) {
        return true;
    }
    for at in 0..parts.len() {
        if parts[at] == b'.' && is_odd(&parts[at + 1..]) {
            return true;
        }
    }
    false
}

/// Returns whether the first part is empty or begins with a zero.
#[inline(always)]
fn is_odd(parts: &[u8]) -> bool
    ensures { result ≡ is_odd parts.now }
{
    matches!(parts, [] | [b'.' | b'0', ..])
}

/// Returns whether no numeric part has a leading zero, testing one after the other.
#[inline(never)]
fn each_has_no_leading_zero(parts: &[u8]) -> bool
    ensures { result ≡ list_all has_no_leading_zero (slice_split is_dot parts.now) }
{
    let mut rest = Some(parts);
    while let Some(bytes) = rest {
        let (part, after) = split_at_dot(bytes);
        if !has_no_leading_zero(part) {
            return false;
        }
        rest = after;
    }
    true
}

/// Returns whether a part, if it is numeric, has no leading zero.
#[inline(always)]
fn has_no_leading_zero(part: &[u8]) -> bool
    ensures { result ≡ has_no_leading_zero part.now }
{
    let begins_with_zero = part.is_empty() || (part.len() > 1 && part[0] == b'0');
    !(begins_with_zero && are_digits(part))
}

/// Returns whether each byte is a digit.
#[inline(always)]
pub(crate) fn are_digits(part: &[u8]) -> bool
    ensures { result ≡ list_all is_ascii_digit part.now }
{
    part.iter().all(|byte| byte.is_ascii_digit())
}

/// Returns the result of [`split_at_dot`] for a string. It is cut without looking at its
/// characters, for speed, since a dot is one of them.
#[inline(always)]
fn split_text_at_dot(text: &str) -> (&str, Option<&str>)
    ensures { MatchOption result.1
        ((slice_split is_dot text.now ≡ result.0.now ∷ []) × (text.now ≡ result.0.now))
        (λ after. (slice_split is_dot text.now ≡ result.0.now ∷ slice_split is_dot after.now)
        × (text.now ≡ result.0.now ++ 46 ∷ after.now)) }
{
    let bytes = text.as_bytes();
    for at in 0..bytes.len() {
        if bytes[at] == b'.' {
            return (&text[..at], Some(&text[at + 1..]));
        }
    }
    (text, None)
}

/// Returns what `make` returns for each part between the dots. Their list is allocated once, in its
/// final size. `Err` means out of memory.
fn cut_parts<T: Drop, F: Fn(&str) -> Result<T, AllocError>>(
    alloc: Global,
    text: &str,
    make: F,
) -> Result<Vec<T>, AllocError>
    requires { F.IsAlwaysCallable make }
    ensures { IfOk result (λ made. AllZip (λ item part. FnReturnsAt F.Fn make part (Ok item))
        made.items (slice_split is_dot text.now)) }
{
    let mut made = Vec::with_capacity(alloc, count_dots(text.as_bytes()).saturating_add(1))?;
    let mut rest = Some(text);
    while let Some(text) = rest {
        let (part, after) = split_text_at_dot(text);
        made.push(make(part)?)?;
        rest = after;
    }
    Ok(made)
}

// Determined by: equation.
/// Returns what `make` returns for each part between the dots. For an empty string the result is
/// empty, and nothing is allocated. `Err` means out of memory.
#[inline(always)]
pub fn of_parts<T: Drop, F: Fn(&str) -> Result<T, AllocError>>(
    alloc: Global,
    text: &str,
    make: F,
) -> Result<Vec<T>, AllocError>
    requires { F.IsAlwaysCallable make }
    ensures made { IfOk result (λ made. AllZip (λ item part. FnReturnsAt F.Fn make part (Ok item))
        made.items (cut_at_dots text.now)) }
    ensures some { IfErr result (λ _. 0 < length text.now) }
{
    if text.is_empty() {
        return Ok(Vec::new(alloc));
    }
    cut_parts(alloc, text, make)
}
