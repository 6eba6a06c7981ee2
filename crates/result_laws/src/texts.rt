//! Functions for strings, numbers and parts, and for strings that are invalid versions.

ghost use Rattle.std.specs.Prelude.{◌≡◌, true, alloc_error, option_map, slice_index};
ghost use Rattle.std.specs.Char.{is_ascii_digit};
ghost use Rattle.result_laws.specs.OneResult.{AreOne, itself};
ghost use Rattle.result_laws.specs.SeenTexts.{seen_numbers, seen_text};

use invalid_strings::laws::{one_longest_prefix, one_reason};
use invalid_strings::refusals::{Refusal, explain};
use semver_texts::grammar::Grammar;
use semver_texts::{decimals, dotted};
use std::alloc::{AllocError, Global};

/// A string is only one number, or none.
pub fn one_whole_number(text: &str) -> (Option<u64>, Option<u64>)
    ensures one { result.0 ≡ result.1 }
{
    (decimals::whole_number(text), decimals::whole_number(text))
}

/// A string begins with only one triple of numbers and has one rest, or it begins with none.
pub fn one_numbers(
    bytes: &[u8],
) -> (
    Option<(u64, u64, u64, &[u8])>,
    Option<(u64, u64, u64, &[u8])>,
)
    ensures one { option_map seen_numbers result.0 ≡ option_map seen_numbers result.1 }
{
    (decimals::numbers(bytes), decimals::numbers(bytes))
}

/// A string that begins with a digit begins with only one triple of numbers and has one rest, or it
/// begins with none.
pub fn one_numbers_at_digit(
    bytes: &[u8],
) -> (
    Option<(u64, u64, u64, &[u8])>,
    Option<(u64, u64, u64, &[u8])>,
)
    requires { is_ascii_digit (slice_index bytes.now 0) ≡ true }
    ensures one { option_map seen_numbers result.0 ≡ option_map seen_numbers result.1 }
{
    (
        decimals::numbers_at_digit(bytes),
        decimals::numbers_at_digit(bytes),
    )
}

/// A string has only one part before its first dot, and only one rest after it.
pub fn one_split_at_dot(bytes: &[u8]) -> ((&[u8], Option<&[u8]>), (&[u8], Option<&[u8]>))
    ensures part { result.0.0.now ≡ result.1.0.now }
    ensures rest { option_map seen_text result.0.1 ≡ option_map seen_text result.1.1 }
{
    (dotted::split_at_dot(bytes), dotted::split_at_dot(bytes))
}

/// A string is either a version, or has only one offset and one reason of its error, unless memory
/// ran out.
pub fn one_explanation(
    alloc: Global,
    text: &[u8],
    grammar: Grammar,
) -> (
    Result<Option<Refusal>, AllocError>,
    Result<Option<Refusal>, AllocError>,
)
    ensures one { AreOne alloc_error itself result.0 result.1 }
{
    one_longest_prefix();
    one_reason();
    (explain(alloc, text, grammar), explain(alloc, text, grammar))
}
