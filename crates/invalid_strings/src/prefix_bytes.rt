//! The bytes at the end of a prefix, and the byte after it.

ghost use Rattle.std.specs.Prelude.{◌≡◌};
ghost use Rattle.invalid_strings.specs.Reasons.{byte_at, ends_in_zero, from_end, has_no_digit};
ghost use Rattle.invalid_strings.specs.Reasons.{is_separator};

use semver_texts::white_space::is_ascii_white_space;

// Determined by: equation.
/// Returns the byte at an offset, if there is one.
pub fn byte_at(text: &[u8], offset: usize) -> Option<u8>
    ensures { result ≡ byte_at text.now offset }
{
    if offset < text.len() {
        Some(text[offset])
    } else {
        None
    }
}

// Determined by: equation.
/// Returns a byte by its offset from the end, or 0 before the first byte.
pub fn from_end(prefix: &[u8], offset: usize) -> u8
    ensures { result ≡ from_end prefix.now offset }
{
    if offset < prefix.len() {
        prefix[prefix.len() - 1 - offset]
    } else {
        0
    }
}

// Determined by: equation.
/// Returns whether a prefix ends in a zero without a digit before it.
pub fn ends_in_zero(prefix: &[u8]) -> bool
    ensures { result ≡ ends_in_zero prefix.now }
{
    from_end(prefix, 0) == b'0' && !from_end(prefix, 1).is_ascii_digit()
}

// Determined by: equation.
/// Returns whether a prefix has no digit.
pub fn has_no_digit(prefix: &[u8]) -> bool
    ensures { result ≡ has_no_digit prefix.now }
{
    prefix.iter().all(|byte| !byte.is_ascii_digit())
}

// Determined by: equation.
/// Returns whether the byte can follow a number or an identifier in some version.
pub fn is_separator(byte: u8) -> bool
    ensures { result ≡ is_separator byte }
{
    matches!(byte, b'.' | b'-' | b'+') || is_ascii_white_space(byte)
}
