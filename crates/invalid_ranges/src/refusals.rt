//! Where and why a string is not a valid range.

ghost use Rattle.std.specs.Prelude.{◌≡◌, ◌≢◌, ◌≤◌, IfErr, IfOk, drop, length, take};
ghost use Rattle.semver_ranges.specs.declared.range_set.RangeError.TheVariants.{NotARange};
ghost use Rattle.semver_ranges.specs.declared.range_set.RangeError.TheVariants.{NumberTooLarge};
ghost use Rattle.invalid_strings.specs.Prefixes.{IsLongestPrefix};
ghost use Rattle.invalid_ranges.specs.Prefixes.{BeginsAs};
ghost use Rattle.invalid_strings.specs.Reasons.{byte_at};
ghost use Rattle.semver_ranges.specs.RangeTree.{SetTree};
ghost use Rattle.tool_ranges.specs.Dialects.{IsTextAs, SpellsAs};
ghost use Rattle.invalid_ranges.specs.RangeReasons.{IsReasonAs};
ghost use Rattle.invalid_ranges.specs.Refusals.{IsRefusalAs};
ghost use Rattle.invalid_ranges.specs.TooLarge.{limit_offset, limit_reason};

use crate::limit::{limit_offset, limit_reason};
use crate::offset::{check, prefix_end};
use crate::reasons::reason_at;
use invalid_strings::reasons::Reason;
use semver_ranges::RangeError;
use semver_ranges::dialect::Dialect;
use std::alloc::{AllocError, Global};

/// The error of an invalid range string: its offset and its reason.
#[derive(Clone, Copy)]
pub struct Refusal {
    /// `NotARange` or `NumberTooLarge`.
    pub error: RangeError,
    /// The byte offset of the error:
    /// - The first character that isn't allowed there in a range of the dialect.
    /// - The length of the string, if something is missing at its end.
    /// - If a number is too large, that number. It is in the first term that doesn't fit: the first
    ///   number above the limit of the dialect, or if there is none, the number that is raised and
    ///   can't be. The offset is 1 in `=18446744073709551616 || 1`.
    pub offset: usize,
    /// The reason. It may name another dialect that allows what is there.
    pub reason: Reason,
}

// Determined by: law result_laws::ranges::one_refusal.
/// Returns the error of a range string in a dialect, with its offset and reason, or `None` if the
/// string is valid.
///
/// `1.2 || 3` in Cargo's dialect gives `NotARange` at 4, since Cargo doesn't allow `||`.
///
/// # Errors
///
/// `AllocError` if an allocation fails. It allocates only if the string is not a range, and then
/// two buffers of about its length, one after the other.
pub fn refused(alloc: Global, dialect: Dialect, text: &str) -> Result<Option<Refusal>, AllocError>
    ensures refused { IfOk result (IsRefusalAs dialect text.now) }
    // An allocation can fail only if the string is not a range.
    ensures out_of_memory { IfErr result (λ _. ¬ (IsTextAs dialect text.now)) }
{
    let Err(error) = check(dialect, text) else {
        return Ok(None);
    };
    let (offset, reason) = explained(alloc, dialect, text, &error)?;
    Ok(Some(Refusal {
        error,
        offset,
        reason,
    }))
}

/// Returns the offset of an error in a string, and the reason.
fn explained(
    alloc: Global,
    dialect: Dialect,
    text: &str,
    error: &RangeError,
) -> Result<(usize, Reason), AllocError>
    requires { error.now ≡ NumberTooLarge → IsTextAs dialect text.now }
    ensures offset { IfOk result (λ r.
        error.now ≡ NotARange → IsLongestPrefix (BeginsAs dialect) text.now r.0) }
    ensures reason { IfOk result (λ r. error.now ≡ NotARange
        → IsReasonAs dialect (take r.0 text.now) (byte_at text.now r.0) r.1) }
    ensures limit { IfOk result (λ r. error.now ≡ NumberTooLarge → (tree : SetTree)
        (spelled : SpellsAs dialect tree text.now)
        → r.0 ≡ limit_offset dialect tree text.now spelled) }
    ensures limit_reason { IfOk result (λ r. error.now ≡ NumberTooLarge
        → r.1 ≡ limit_reason dialect (drop r.0 text.now)) }
    ensures within { IfOk result (λ r. r.0 ≤ length text.now) }
    ensures out_of_memory { IfErr result (λ _. error.now ≢ NumberTooLarge) }
{
    match error {
        RangeError::NumberTooLarge => {
            let offset = limit_offset(dialect, text);
            let reason = limit_reason(dialect, &text.as_bytes()[offset..]);
            Ok((offset, reason))
        }
        _ => {
            let offset = prefix_end(alloc, dialect, text)?;
            let reason = reason_at(alloc, dialect, text, offset)?;
            Ok((offset, reason))
        }
    }
}
