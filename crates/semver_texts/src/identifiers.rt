//! Identifiers of pre-releases for comparing: lists of identifiers, and strings that join them by
//! dots.
ghost use Rattle.std.specs.Prelude.{◌≡◌, map, true};
ghost use Rattle.semver_texts.specs.Compared.{parts_after, ref_value};
ghost use Rattle.semver_texts.specs.Digits.{any_size, identifier_by, identifiers_by};
ghost use Rattle.semver_texts.specs.Steps.DottedParts.{begins_above_zero};
ghost use Rattle.semver_texts.specs.Texts.{Text, cut_at_dots};
ghost use Rattle.semver_texts.specs.Versions.{IdentifierValue, alphanumeric};
ghost use Rattle.semver_texts.specs.VersionViews.{identifier_value};

use crate::decimals::number_of_digits;
use crate::dotted::{are_digits, split_at_dot};
use crate::grammar::Digits;
use crate::large_number::LargeNumber;
use crate::precedence::{IdentifierRef, Identifiers};
use crate::version::Identifier;

/// A type of identifiers.
pub trait AsIdentifier {
    /// The identifier.
    ghost value: { Self → IdentifierValue };

    /// Returns the identifier for comparing.
    fn as_identifier(&self) -> IdentifierRef<'_>
        ensures { ref_value result ≡ value self.now };
}

impl AsIdentifier for Identifier {
    ghost value = { identifier_value };

    #[inline(always)]
    fn as_identifier(&self) -> IdentifierRef<'_> {
        match self {
            Identifier::Numeric(number) => IdentifierRef::Numeric(*number),
            Identifier::AlphaNumeric(text) => IdentifierRef::AlphaNumeric(text.as_bytes()),
        }
    }
}

impl<'a, T: AsIdentifier> Identifiers<'a> for &'a [T] {
    ghost left = { λ identifiers. map T.value identifiers.now };

    #[inline(always)]
    fn is_empty(&self) -> bool {
        self.len() == 0
    }

    #[inline(always)]
    fn next(&mut self) -> Option<IdentifierRef<'a>> {
        let [first, others @ ..] = *self else {
            return None;
        };
        *self = others;
        Some(first.as_identifier())
    }
}

/// How the strings between the dots are read.
pub trait Reading: Copy {
    /// The identifier that a string is.
    ghost identifier: { Text → IdentifierValue };

    /// Returns the identifier that a string is, for comparing.
    fn read(part: &[u8]) -> IdentifierRef<'_>
        ensures { ref_value result ≡ identifier part.now };
}

/// A string of identifiers joined by dots, some of which may have been taken.
#[derive(Clone, Copy)]
pub struct Joined<'a, R> {
    rest: Option<&'a [u8]>,
    reading: R,
}

impl<'a, R: Reading> Joined<'a, R> {
    // Determined by: equation.
    /// Returns the identifiers of a string. An empty string has none.
    #[inline(always)]
    pub fn of(text: &'a [u8], reading: R) -> Joined<'a, R>
        ensures { ⟦<Joined<'a, R> as Identifiers<'a>>⟧.left result
            ≡ map R.identifier (cut_at_dots text.now) }
    {
        let rest = if text.is_empty() { None } else { Some(text) };
        Joined { rest, reading }
    }
}

impl<'a, R: Reading> Identifiers<'a> for Joined<'a, R> {
    ghost left = { λ joined. map R.identifier (parts_after joined.rest) };

    #[inline(always)]
    fn is_empty(&self) -> bool {
        matches!(self.rest, None)
    }

    #[inline(always)]
    fn next(&mut self) -> Option<IdentifierRef<'a>> {
        let (part, after) = split_at_dot(self.rest?);
        self.rest = after;
        Some(R::read(part))
    }
}

/// Identifiers as they are kept, and how the numeric ones are read.
#[derive(Clone, Copy)]
pub struct ByDigits<I> {
    identifiers: I,
    digits: Digits,
}

impl<'a, I: Identifiers<'a>> ByDigits<I> {
    // Determined by: equation.
    /// Returns these identifiers, read as `digits` says.
    #[inline(always)]
    pub fn of(identifiers: I, digits: Digits) -> ByDigits<I>
        ensures { ⟦<ByDigits<I> as Identifiers<'a>>⟧.left result
            ≡ identifiers_by digits (I.left identifiers) }
    {
        ByDigits {
            identifiers,
            digits,
        }
    }
}

impl<'a, I: Identifiers<'a>> Identifiers<'a> for ByDigits<I> {
    ghost left = { λ by. identifiers_by by.digits (I.left by.identifiers) };

    #[inline(always)]
    fn is_empty(&self) -> bool {
        self.identifiers.is_empty()
    }

    #[inline(always)]
    fn next(&mut self) -> Option<IdentifierRef<'a>> {
        let identifier = self.identifiers.next()?;
        Some(read_by(self.digits, identifier))
    }
}

/// Returns an identifier as it is kept, read as `digits` says. A string that doesn't begin with a
/// digit above 0 is recognized first, for speed.
#[inline(always)]
fn read_by(digits: Digits, identifier: IdentifierRef<'_>) -> IdentifierRef<'_>
    ensures { ref_value result ≡ identifier_by digits (ref_value identifier.entry) }
{
    match identifier {
        IdentifierRef::AlphaNumeric(text @ [b'1'..=b'9', ..]) => match digits {
            Digits::Kept => identifier,
            Digits::AnySize => large_or_text(text),
        },
        _ => identifier,
    }
}

/// Returns the number that a string is, if it is 2^64 or more, or otherwise the string.
#[inline(never)]
fn large_or_text(text: &[u8]) -> IdentifierRef<'_>
    requires { begins_above_zero text.now ≡ true }
    ensures { ref_value result ≡ any_size (alphanumeric text.now) }
{
    if are_digits(text) && number_of_digits(text).is_none() {
        IdentifierRef::LargeNumeric(LargeNumber::of(text))
    } else {
        IdentifierRef::AlphaNumeric(text)
    }
}
