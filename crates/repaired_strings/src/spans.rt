//! The part of a string that an error is about.

ghost use Rattle.std.specs.Prelude.{◌≡◌, ◌≤◌, ◌<◌, ◌-◌, ℕ, true, false, length, slice_index};
ghost use Rattle.std.specs.Str.{IsCharBoundary};
ghost use Rattle.repaired_strings.specs.Spans.{IsRunAround, IsSpanOf, is_of_same_kind};
ghost use Rattle.repaired_strings.specs.Spans.{is_sign, kind_at, touches_digit};

use invalid_strings::prefix_bytes::byte_at;
use invalid_strings::reasons::Reason;
use range_terms::term::Span;
use semver_texts::white_space::is_ascii_white_space;

/// Returns whether the byte is a character of an operator.
fn is_sign(byte: u8) -> bool
    ensures { result ≡ is_sign byte }
{
    matches!(byte, b'<' | b'>' | b'=' | b'~' | b'^' | b'!' | b'|' | b'&')
}

/// Returns whether two bytes are of the same kind: digits, letters, characters of operators, white
/// space, or bytes of characters beyond ASCII. Any other byte is of a kind of its own.
fn is_of_same_kind(byte: u8, other: u8) -> bool
    ensures { result ≡ is_of_same_kind byte other }
{
    if byte.is_ascii_digit() {
        other.is_ascii_digit()
    } else if byte.is_ascii_alphabetic() {
        other.is_ascii_alphabetic()
    } else if is_sign(byte) {
        is_sign(other)
    } else if is_ascii_white_space(byte) {
        is_ascii_white_space(other)
    } else if byte >= 128 {
        other >= 128
    } else {
        other == byte
    }
}

/// Returns the run of bytes of the same kind as a byte, around an offset.
fn run_around(bytes: &[u8], offset: usize, byte: u8) -> Span
    requires { offset ≤ length bytes.now }
    ensures { IsRunAround (is_of_same_kind byte) bytes.now offset result }
{
    Span {
        start: run_start(bytes, offset, byte),
        end: run_end(bytes, offset, byte),
    }
}

/// Returns where the bytes of the same kind before an offset begin.
fn run_start(bytes: &[u8], offset: usize, byte: u8) -> usize
    requires { offset ≤ length bytes.now }
    ensures within { result ≤ offset }
    ensures all { (i : ℕ) → result ≤ i → i < offset
        → is_of_same_kind byte (slice_index bytes.now i) ≡ true }
    ensures longest { 0 < result
        → is_of_same_kind byte (slice_index bytes.now (result - 1)) ≡ false }
{
    let mut start = offset;
    while start > 0 && is_of_same_kind(byte, bytes[start - 1]) {
        start -= 1;
    }
    start
}

/// Returns where the bytes of the same kind from an offset on end.
fn run_end(bytes: &[u8], offset: usize, byte: u8) -> usize
    requires { offset ≤ length bytes.now }
    ensures within { offset ≤ result }
    ensures end { result ≤ length bytes.now }
    ensures all { (i : ℕ) → offset ≤ i → i < result
        → is_of_same_kind byte (slice_index bytes.now i) ≡ true }
    ensures longest { result < length bytes.now
        → is_of_same_kind byte (slice_index bytes.now result) ≡ false }
{
    for at in offset..bytes.len() {
        if !is_of_same_kind(byte, bytes[at]) {
            return at;
        }
    }
    bytes.len()
}

/// Returns whether a digit is right before or at an offset.
fn touches_digit(bytes: &[u8], offset: usize) -> bool
    requires { offset ≤ length bytes.now }
    ensures { result ≡ touches_digit bytes.now offset }
{
    if offset > 0 && bytes[offset - 1].is_ascii_digit() {
        return true;
    }
    offset < bytes.len() && bytes[offset].is_ascii_digit()
}

/// Returns a byte of the kind that an error at an offset is about: a digit for a leading zero,
/// otherwise the byte at the offset, if there is one.
fn kind_at(bytes: &[u8], offset: usize, reason: Reason) -> Option<u8>
    requires { offset ≤ length bytes.now }
    ensures { result ≡ kind_at bytes.now offset reason }
{
    match reason {
        Reason::LeadingZero if touches_digit(bytes, offset) => Some(b'0'),
        _ => byte_at(bytes, offset),
    }
}

// Determined by: law result_laws::repairs::one_span.
/// Returns the part of a string that an error at an offset is about.
pub fn span_at(text: &str, offset: usize, reason: Reason) -> Span
    requires { offset ≤ length text.now }
    ensures span { IsSpanOf text.now offset (kind_at text.now offset reason) result }
    ensures around { (result.start ≤ offset) × (offset ≤ result.end) }
    ensures within { result.end ≤ length text.now }
    ensures some { offset < length text.now → result.start < result.end }
    ensures begins { IsCharBoundary text.now result.start }
    ensures ends { IsCharBoundary text.now result.end }
{
    let bytes = text.as_bytes();
    match kind_at(bytes, offset, reason) {
        Some(byte) => run_around(bytes, offset, byte),
        None => Span {
            start: offset,
            end: offset,
        },
    }
}
