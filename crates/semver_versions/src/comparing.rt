//! Compares the identifiers of a version while they are still a string.

ghost use Rattle.semver_versions.specs.VersionRefs.{identifier_of};

use semver_texts::decimals::number_of_digits;
use semver_texts::identifiers::Reading;
use semver_texts::precedence::IdentifierRef;

/// The identifiers of versions: digits that begin with a zero are an alphanumeric identifier.
#[derive(Clone, Copy)]
pub struct InVersions;

impl Reading for InVersions {
    ghost identifier = { identifier_of };

    #[inline(always)]
    fn read(part: &[u8]) -> IdentifierRef<'_> {
        let number = match part {
            [] | [b'0', _, ..] => None,
            _ => number_of_digits(part),
        };
        match number {
            Some(number) => IdentifierRef::Numeric(number),
            None => IdentifierRef::AlphaNumeric(part),
        }
    }
}
