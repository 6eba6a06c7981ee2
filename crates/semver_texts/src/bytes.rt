//! Tests of bytes, and the lengths of prefixes whose bytes pass a test.
ghost use Rattle.std.specs.Prelude.{◌≡◌};
ghost use Rattle.std.specs.List.{prefix_len, count_by};
ghost use Rattle.std.specs.Char.{is_ascii_alphanumeric};
ghost use Rattle.semver_texts.specs.Texts.{is_space, is_part_byte, is_dot};

// Determined by: equation.
/// Returns whether the byte is a space, a tab, a line feed or a carriage return.
#[inline(always)]
pub fn is_space(byte: u8) -> bool
    ensures { result ≡ is_space byte }
{
    matches!(byte, b' ' | b'\t' | b'\n' | b'\r')
}

// Determined by: equation.
/// Returns whether the byte is an ASCII letter, a digit or a hyphen.
#[inline(always)]
pub fn is_part_byte(byte: u8) -> bool
    ensures { result ≡ is_part_byte byte }
{
    byte.is_ascii_alphanumeric() || byte == b'-'
}

// Determined by: equation.
/// Returns how many bytes at the beginning are white space: 2 for ` \t1`.
#[inline(always)]
pub fn space_len(bytes: &[u8]) -> usize
    ensures { result ≡ prefix_len is_space bytes.now }
{
    bytes.iter().take_while(|&&byte| is_space(byte)).count()
}

// Determined by: equation.
/// Returns how many bytes at the beginning are ASCII letters and digits: 3 for `rc1-2`.
#[inline(always)]
pub fn run_len(bytes: &[u8]) -> usize
    ensures { result ≡ prefix_len is_ascii_alphanumeric bytes.now }
{
    bytes
        .iter()
        .take_while(|byte| byte.is_ascii_alphanumeric())
        .count()
}

// Determined by: equation.
/// Returns how many bytes at the beginning are ASCII letters, digits and hyphens: 5 for `rc1-2.3`.
#[inline(always)]
pub fn part_len(bytes: &[u8]) -> usize
    ensures { result ≡ prefix_len is_part_byte bytes.now }
{
    bytes.iter().take_while(|&&byte| is_part_byte(byte)).count()
}

// Determined by: equation.
/// Returns how many of the bytes are dots: 2 for `1.2.3`.
#[inline(always)]
pub fn count_dots(bytes: &[u8]) -> usize
    ensures { result ≡ count_by is_dot bytes.now }
{
    let mut count = 0;
    for at in 0..bytes.len() {
        if bytes[at] == b'.' {
            count += 1;
        }
    }
    count
}
