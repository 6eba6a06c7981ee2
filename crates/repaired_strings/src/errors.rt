//! The first error of a string that was meant as a version or as a range.

ghost use Rattle.std.specs.Prelude.{◌≡◌, ◌≤◌, IfErr, IfOk, IfSome, MatchOption, length};
ghost use Rattle.tool_ranges.specs.Dialects.{IsTextAs};
ghost use Rattle.repaired_strings.specs.Errors.{IsErrorAt, IsValid};
ghost use Rattle.repaired_strings.specs.declared.errors.Expected.TheVariants.{Range, Version};

use invalid_ranges::refusals as ranges;
use invalid_strings::reasons::Reason;
use invalid_strings::refusals as versions;
use semver_ranges::dialect::Dialect;
use std::alloc::{AllocError, Global};

/// What a string is meant as.
#[derive(Clone, Copy, PartialEq, Eq, Debug)]
pub enum Expected {
    /// A version.
    Version,
    /// A range.
    Range,
}

/// The first error of a string.
#[derive(Clone, Copy)]
pub struct StringError {
    /// The byte offset of the error.
    pub offset: usize,
    /// The reason.
    pub reason: Reason,
}

// Determined by: law result_laws::repairs::one_error.
/// Returns the first error of a string in a dialect, or `None` if the string is valid.
///
/// # Errors
///
/// `AllocError` if an allocation fails. It allocates only if the string is invalid.
pub fn first_error(
    alloc: Global,
    expected: Expected,
    dialect: Dialect,
    text: &str,
) -> Result<Option<StringError>, AllocError>
    ensures valid { IfOk result (λ o. MatchOption o (IsValid expected dialect text.now)
        (λ e. ¬ (IsValid expected dialect text.now))) }
    ensures error { IfOk result (λ o.
        IfSome o (λ e. IsErrorAt expected dialect text.now e.offset e.reason)) }
    ensures within { IfOk result (λ o. IfSome o (λ e. e.offset ≤ length text.now)) }
    // An allocation can fail only if the string is invalid.
    ensures out_of_memory { IfErr result (λ _. ¬ (IsValid expected dialect text.now)) }
{
    match expected {
        Expected::Version => version_error(alloc, dialect, text),
        Expected::Range => range_error(alloc, dialect, text),
    }
}

/// Returns the first error of a string that is meant as a version.
fn version_error(
    alloc: Global,
    dialect: Dialect,
    text: &str,
) -> Result<Option<StringError>, AllocError>
    ensures valid { IfOk result (λ o. MatchOption o (IsValid Version dialect text.now)
        (λ e. ¬ (IsValid Version dialect text.now))) }
    ensures error { IfOk result (λ o.
        IfSome o (λ e. IsErrorAt Version dialect text.now e.offset e.reason)) }
    ensures within { IfOk result (λ o. IfSome o (λ e. e.offset ≤ length text.now)) }
    ensures out_of_memory { IfErr result (λ _. ¬ (IsValid Version dialect text.now)) }
{
    let Some(refusal) = versions::explain(alloc, text.as_bytes(), dialect.grammar())? else {
        return Ok(None);
    };
    Ok(Some(StringError {
        offset: refusal.offset,
        reason: refusal.reason,
    }))
}

/// Returns the first error of a string that is meant as a range.
fn range_error(
    alloc: Global,
    dialect: Dialect,
    text: &str,
) -> Result<Option<StringError>, AllocError>
    ensures valid { IfOk result (λ o. MatchOption o (IsValid Range dialect text.now)
        (λ e. ¬ (IsValid Range dialect text.now))) }
    ensures error { IfOk result (λ o.
        IfSome o (λ e. IsErrorAt Range dialect text.now e.offset e.reason)) }
    ensures within { IfOk result (λ o. IfSome o (λ e. e.offset ≤ length text.now)) }
    ensures out_of_memory { IfErr result (λ _. ¬ (IsTextAs dialect text.now)) }
{
    let Some(refusal) = ranges::refused(alloc, dialect, text)? else {
        return Ok(None);
    };
    Ok(Some(StringError {
        offset: refusal.offset,
        reason: refusal.reason,
    }))
}
