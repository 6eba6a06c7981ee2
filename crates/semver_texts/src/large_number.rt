//! Numbers of 2^64 or more, by their digits.

ghost use Rattle.std.specs.Prelude.{◌≡◌, true};
ghost use Rattle.std.specs.Ordering.{nat_cmp};
ghost use Rattle.std.specs.Str.Parse.{digits_value};
ghost use Rattle.semver_texts.specs.Texts.{is_large};

use std::cmp::Ordering;

/// A number of 2^64 or more, as its digits. The first digit isn't 0.
#[derive(Clone, Copy)]
pub struct LargeNumber<'a> {
    digits: &'a [u8],
    pub ghost large: { is_large digits.now ≡ true },
}

impl<'a> LargeNumber<'a> {
    // Determined by: equation.
    /// Returns the number that the digits write.
    #[inline(always)]
    pub(crate) fn of(digits: &'a [u8]) -> LargeNumber<'a>
        requires { is_large digits.now ≡ true }
        ensures { result.digits.now ≡ digits.now }
    {
        LargeNumber { digits }
    }

    // Determined by: equation.
    /// Compares two large numbers. The one with more digits is greater; if they have equally many,
    /// the first digits that differ decide. It does not allocate.
    #[inline(always)]
    pub fn compare(&self, other: &LargeNumber<'_>) -> Ordering
        ensures { result ≡ nat_cmp (digits_value 10 self.now.digits.now)
            (digits_value 10 other.now.digits.now) }
    {
        let by_length = self.digits.len().cmp(&other.digits.len());
        if by_length.is_ne() {
            return by_length;
        }
        self.digits.cmp(other.digits)
    }
}
