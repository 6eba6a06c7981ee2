//! The characters that JavaScript calls white space, which npm allows around versions and between
//! comparators.
ghost use Rattle.std.specs.Prelude.{◌≡◌, ◌≤◌, length};
ghost use Rattle.semver_texts.specs.WhiteSpace.{is_ascii_white_space, is_white_space_beyond_ascii};
ghost use Rattle.semver_texts.specs.WhiteSpace.{white_space_size};

// Determined by: equation.
/// Returns whether the byte is ASCII white space: U+0009 to U+000D, or a space.
#[inline(always)]
pub fn is_ascii_white_space(byte: u8) -> bool
    ensures { result ≡ is_ascii_white_space byte }
{
    matches!(byte, 9..=13 | 32)
}

// Determined by: equation.
/// Returns whether a non-ASCII character is white space.
#[inline(always)]
pub fn is_white_space_beyond_ascii(character: char) -> bool
    ensures { result ≡ is_white_space_beyond_ascii character }
{
    matches!(
        character,
        '\u{a0}' | '\u{1680}' | '\u{2000}'..='\u{200a}'
            | '\u{2028}'
            | '\u{2029}'
            | '\u{202f}'
            | '\u{205f}'
            | '\u{3000}'
            | '\u{feff}'
    )
}

// Determined by: equation.
/// Returns the length in UTF-8 of the character at the beginning if it is white space, otherwise 0:
/// 2 for U+00A0.
#[inline(always)]
pub fn white_space_len(bytes: &[u8]) -> usize
    ensures size { result ≡ white_space_size bytes.now }
    ensures within { result ≤ length bytes.now }
{
    match bytes {
        [9..=13 | 32, ..] => 1,
        [0xC2, 0xA0, ..] => 2,
        [0xE1, 0x9A, 0x80, ..]
        | [0xE2, 0x80, 0x80..=0x8A | 0xA8 | 0xA9 | 0xAF, ..]
        | [0xE2, 0x81, 0x9F, ..]
        | [0xE3, 0x80, 0x80, ..]
        | [0xEF, 0xBB, 0xBF, ..] => 3,
        _ => 0,
    }
}
