//! Numbers: canonical decimals, which are `0`, or digits that don't begin with `0`.
ghost use Rattle.std.specs.Prelude.{◌≡◌, ℕ, ◌+◌, ◌*◌, ◌<◌, ◌≤◌, ◌^◌, ◌∷◌, length};
ghost use Rattle.std.specs.Prelude.{decimal};
ghost use Rattle.std.specs.Prelude.{true, false, ◌&&◌, nat_lt, slice_index, MatchOption};
ghost use Rattle.std.specs.Char.{is_ascii_digit};
ghost use Rattle.std.specs.Str.{all_ascii_digits};
ghost use Rattle.std.specs.Str.Parse.{digits_value};
ghost use Rattle.semver_texts.specs.Texts.{Text, IsNumber, BeginsWithNumber, BeginsWithNumbers};
ghost use Rattle.semver_texts.specs.Steps.Decimals.{digits_front};

/// A number below this can be multiplied by ten and a digit added without an overflow check, for
/// speed.
const LIMIT: u64 = 1_000_000_000_000_000_000;

// Determined by: equation.
/// Returns the number with one more digit appended, or `None` if it is 2^64 or more.
#[inline(always)]
pub fn with_digit(number: u64, digit: u8) -> Option<u64>
    requires { digit < 10 }
    ensures { MatchOption result (2 ^ 64 ≤ number * 10 + digit)
        (λ n. (n < 2 ^ 64) × (n ≡ number * 10 + digit)) }
{
    if number < LIMIT {
        return Some(number * 10 + u64::from(digit));
    }
    number.checked_mul(10)?.checked_add(u64::from(digit))
}

/// Returns the number that the digits at the beginning write, and the number of digits, or `None`
/// if the number is 2^64 or more.
#[inline(always)]
fn digits(bytes: &[u8]) -> Option<(u64, usize)>
    requires some { 0 < length bytes.now }
    requires digit { is_ascii_digit (slice_index bytes.now 0) ≡ true }
    ensures { MatchOption result (2 ^ 64 ≤ digits_value 10 (digits_front bytes.now))
        (λ r. (r.0 < 2 ^ 64) × (r.0 ≡ digits_value 10 (digits_front bytes.now))
        × (r.1 ≡ length (digits_front bytes.now))) }
{
    let mut number = u64::from(bytes[0] - b'0');
    for at in 1..bytes.len() {
        let digit = bytes[at];
        if !digit.is_ascii_digit() {
            return Some((number, at));
        }
        number = with_digit(number, digit - b'0')?;
    }
    Some((number, bytes.len()))
}

// Determined by: equation.
/// Returns whether the bytes begin with a digit, which is so for `1.2`, but not for `.2` or the
/// empty string.
#[inline(always)]
pub fn begins_with_digit(bytes: &[u8]) -> bool
    ensures { result ≡ is_ascii_digit (slice_index bytes.now 0) }
{
    match bytes {
        [first, ..] => first.is_ascii_digit(),
        [] => false,
    }
}

/// Returns the number at the beginning of bytes that begin with a digit, and what follows it, which
/// doesn't begin with one.
///
/// A single digit is read first, for speed, so a loop runs only for longer numbers.
#[inline(always)]
fn number_at_digit(bytes: &[u8]) -> Option<(u64, &[u8])>
    requires { is_ascii_digit (slice_index bytes.now 0) ≡ true }
    ensures { MatchOption result ((n : ℕ) (rest : Text) → ¬ (BeginsWithNumber bytes.now n rest))
        (λ r. BeginsWithNumber bytes.now r.0 r.1.now) }
{
    let first = bytes[0];
    let rest = &bytes[1..];
    if !begins_with_digit(rest) {
        return Some((u64::from(first - b'0'), rest));
    }
    if first == b'0' {
        return None;
    }
    let (number, len) = digits(bytes)?;
    Some((number, &bytes[len..]))
}

/// Returns the number at the beginning, and what follows it, which doesn't begin with a digit.
#[inline(always)]
fn number(bytes: &[u8]) -> Option<(u64, &[u8])>
    ensures { MatchOption result ((n : ℕ) (rest : Text) → ¬ (BeginsWithNumber bytes.now n rest))
        (λ r. BeginsWithNumber bytes.now r.0 r.1.now) }
{
    if !begins_with_digit(bytes) {
        return None;
    }
    number_at_digit(bytes)
}

// Determined by: equation.
/// Returns the number that a part of only digits writes, if it is at most 2^64 - 1. Leading zeros
/// are allowed, and no digits give 0.
#[inline(always)]
pub fn number_of_digits(part: &[u8]) -> Option<u64>
    ensures { MatchOption result
        ((all_ascii_digits part.now && nat_lt (digits_value 10 part.now) (2 ^ 64)) ≡ false)
        (λ n. ((all_ascii_digits part.now && nat_lt (digits_value 10 part.now) (2 ^ 64)) ≡ true)
        × (n ≡ digits_value 10 part.now)) }
{
    if part.is_empty() {
        return Some(0);
    }
    if !begins_with_digit(part) {
        return None;
    }
    let (number, len) = digits(part)?;
    if len == part.len() {
        Some(number)
    } else {
        None
    }
}

// Determined by: law result_laws::texts::one_whole_number.
/// Returns the number that the whole string is, if it is a canonical decimal up to 2^64 - 1.
#[inline(always)]
pub fn whole_number(text: &str) -> Option<u64>
    ensures { MatchOption result (¬ (IsNumber text.now))
        (λ n. (n < 2 ^ 64) × (text.now ≡ decimal n)) }
{
    let (number, rest) = number(text.as_bytes())?;
    if rest.is_empty() { Some(number) } else { None }
}

/// Returns the number after a dot, and what follows it.
#[inline(always)]
fn dot_number(bytes: &[u8]) -> Option<(u64, &[u8])>
    ensures { MatchOption result ((n : ℕ) (after rest : Text) → bytes.now ≡ 46 ∷ after
        → ¬ (BeginsWithNumber after n rest))
        (λ r. (after : Text) × (bytes.now ≡ 46 ∷ after)
        × BeginsWithNumber after r.0 r.1.now) }
{
    match bytes {
        [b'.', after @ ..] => number(after),
        _ => None,
    }
}

// Determined by: law result_laws::texts::one_numbers_at_digit.
/// Returns the result of [`numbers`] for bytes that begin with a digit. This isn't tested again,
/// for speed.
#[inline(always)]
pub fn numbers_at_digit(bytes: &[u8]) -> Option<(u64, u64, u64, &[u8])>
    requires { is_ascii_digit (slice_index bytes.now 0) ≡ true }
    ensures { MatchOption result ((major minor patch : ℕ) (rest : Text) →
        ¬ (BeginsWithNumbers bytes.now major minor patch rest))
        (λ r. BeginsWithNumbers bytes.now r.0 r.1 r.2 r.3.now) }
{
    let (major, rest) = number_at_digit(bytes)?;
    let (minor, rest) = dot_number(rest)?;
    let (patch, rest) = dot_number(rest)?;
    Some((major, minor, patch, rest))
}

// Determined by: law result_laws::texts::one_numbers.
/// Returns the three numbers at the beginning, joined by dots, and what follows them, which doesn't
/// begin with a digit: 1, 2, 3 and `-rc` for `1.2.3-rc`. A number is at most 2^64 - 1.
#[inline(always)]
pub fn numbers(bytes: &[u8]) -> Option<(u64, u64, u64, &[u8])>
    ensures { MatchOption result ((major minor patch : ℕ) (rest : Text) →
        ¬ (BeginsWithNumbers bytes.now major minor patch rest))
        (λ r. BeginsWithNumbers bytes.now r.0 r.1 r.2 r.3.now) }
{
    if !begins_with_digit(bytes) {
        return None;
    }
    numbers_at_digit(bytes)
}
