//! The message for the error of a range: the offset of the first byte that isn't allowed there,
//! with a caret below it, and the reason.

ghost use Rattle.std.specs.Prelude.{◌≡◌, ◌++◌, IfOk, Option, length, string_bytes};
ghost use Rattle.invalid_ranges.specs.Refusals.{IsRefusalAs};
ghost use Rattle.invalid_ranges.specs.declared.refusals.Refusal.{Refusal as SomeRefusal};
ghost use Rattle.command_line.specs.RefusedLines.{line_of, place_of, why_of, words_of};

use crate::excerpt::Excerpt;
use invalid_ranges::refusals::{Refusal, refused};
use invalid_strings::refusals::explain;
use semver_parser::RangeError;
use semver_ranges::dialect::Dialect;
use std::alloc::{AllocError, Global};

/// Returns the message for an error: the error and the range, and two more lines with the offset
/// and the reason. A long string is shortened. `Err` means out of memory.
///
/// For `1.2 || 3` in Cargo's dialect:
///
/// ```text
/// not a range: "1.2 || 3"
///     1.2 || 3
///         ^ at offset 4: Cargo doesn't accept ||; npm does
/// ```
pub(crate) fn refused_text(
    alloc: Global,
    dialect: Dialect,
    error: &RangeError,
    text: &str,
) -> Result<String, AllocError> {
    let mut written = String::new(alloc);
    match refused(alloc, dialect, text)? {
        Some(refusal) => write_refusal(alloc, &mut written, &refusal, text)?,
        None => write!(written, "{}: {}", words_of(error), Excerpt::round(text, 0))?,
    }
    Ok(written)
}

/// Returns the message for an invalid version, in the same form. `Err` means out of memory.
///
/// ```text
/// invalid version: "1.2"
///     1.2
///        ^ at the end: there are fewer than three numbers
/// ```
pub(crate) fn refused_version(
    alloc: Global,
    dialect: Dialect,
    text: &str,
) -> Result<String, AllocError> {
    let mut written = String::new(alloc);
    let Some(refusal) = explain(alloc, text.as_bytes(), dialect.grammar())? else {
        return Ok(written);
    };
    let excerpt = Excerpt::round(text, refusal.offset);
    write!(written, "invalid version: {excerpt}")?;
    excerpt.write_pointed(alloc, &mut written)?;
    write_place(&mut written, refusal.offset, text.len())?;
    write!(written, ": {}", refusal.reason)?;
    Ok(written)
}

// Determined by: law result_laws::ranges::one_refusal.
/// Returns the message for an error in one line, without the range:
/// `not a range (at offset 4: Cargo doesn't accept ||; npm does)`. `Err` means out of memory.
pub fn refused_line(
    alloc: Global,
    dialect: Dialect,
    error: &RangeError,
    text: &str,
) -> Result<String, AllocError>
    ensures line { IfOk result (λ line. (found : Option SomeRefusal)
        × IsRefusalAs dialect text.now found
        × (string_bytes line ≡ line_of error.now found (length text.now))) }
{
    let found = refused(alloc, dialect, text)?;
    line_of(alloc, error, &found, text.len())
}

/// Returns the message for an error in a string of `len` bytes. `Err` means out of memory.
fn line_of(
    alloc: Global,
    error: &RangeError,
    found: &Option<Refusal>,
    len: usize,
) -> Result<String, AllocError>
    ensures { IfOk result (λ line. string_bytes line ≡ line_of error.now found.now len) }
{
    match found {
        Some(refusal) => {
            let mut line = words_of(&refusal.error).to_string(alloc)?;
            line.push_str(" (")?;
            write_why(&mut line, refusal, len)?;
            line.push_str(")")?;
            Ok(line)
        }
        None => words_of(error).to_string(alloc),
    }
}

/// Returns the kind of the error in words.
fn words_of(error: &RangeError) -> &'static str
    ensures { result.now ≡ words_of error.now }
{
    match error {
        RangeError::NotARange => "not a range",
        RangeError::NumberTooLarge => "number too large",
        RangeError::OutOfMemory => "out of memory",
    }
}

/// Writes the lines of an error with its offset.
fn write_refusal(
    alloc: Global,
    out: &mut String,
    refusal: &Refusal,
    text: &str,
) -> Result<(), AllocError> {
    let excerpt = Excerpt::round(text, refusal.offset);
    write!(out, "{}: {excerpt}", words_of(&refusal.error))?;
    excerpt.write_pointed(alloc, out)?;
    write_why(out, refusal, text.len())
}

/// Writes the offset and the reason of an error in a string of `len` bytes.
fn write_why(out: &mut String, refusal: &Refusal, len: usize) -> Result<(), AllocError>
    ensures { IfOk result (λ _.
        string_bytes out.new ≡ string_bytes out.old ++ why_of refusal.now len) }
{
    write_place(out, refusal.offset, len)?;
    write!(out, ": {}", refusal.reason)
}

/// Writes an offset in a string of `len` bytes.
fn write_place(out: &mut String, offset: usize, len: usize) -> Result<(), AllocError>
    ensures { IfOk result (λ _.
        string_bytes out.new ≡ string_bytes out.old ++ place_of offset len) }
{
    if offset < len {
        write!(out, "at offset {offset}")
    } else {
        out.push_str("at the end")
    }
}
