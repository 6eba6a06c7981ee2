//! Compares the identifiers of a range, whether they are kept or still a string.

ghost use Rattle.semver_ranges.specs.Partials.{kept};
ghost use Rattle.semver_ranges.specs.RangeViews.{identifier_of};

use crate::range::Identifier;
use semver_texts::decimals::number_of_digits;
use semver_texts::identifiers::{AsIdentifier, Reading};
use semver_texts::precedence::IdentifierRef;

impl AsIdentifier for Identifier {
    ghost value = { identifier_of };

    #[inline(always)]
    fn as_identifier(&self) -> IdentifierRef<'_> {
        match self {
            Identifier::Numeric(number) => IdentifierRef::Numeric(*number),
            Identifier::AlphaNumeric(text) => IdentifierRef::AlphaNumeric(text.as_bytes()),
        }
    }
}

/// The identifiers of ranges: digits that begin with a zero are a number.
#[derive(Clone, Copy)]
pub struct InRanges;

impl Reading for InRanges {
    ghost identifier = { kept };

    #[inline(always)]
    fn read(part: &[u8]) -> IdentifierRef<'_> {
        match number_of_digits(part) {
            Some(number) => IdentifierRef::Numeric(number),
            None => IdentifierRef::AlphaNumeric(part),
        }
    }
}
