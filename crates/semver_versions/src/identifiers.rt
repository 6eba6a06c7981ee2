//! Identifiers, cut from their string at its dots.

ghost use Rattle.std.specs.Prelude.{◌≡◌, ◌<◌, length, map, true, IfOk, IfErr};
ghost use Rattle.std.specs.List.{list_all};
ghost use Rattle.semver_texts.specs.Texts.{cut_at_dots, is_part};
ghost use Rattle.semver_texts.specs.VersionViews.{identifier_value};
ghost use Rattle.semver_versions.specs.VersionRefs.{identifier_of};

use crate::comparing::InVersions;
use semver_texts::dotted::{of_parts, text_of_parts};
use semver_texts::identifiers::Reading;
use semver_texts::precedence::IdentifierRef;
use semver_texts::version::Identifier;
use std::alloc::{AllocError, Global};

/// Returns the identifier that a `Version` keeps of a string. `Err` means out of memory.
#[inline(always)]
fn identifier(alloc: Global, text: &str) -> Result<Identifier, AllocError>
    ensures { IfOk result (λ id. identifier_value id ≡ identifier_of text.now) }
{
    if let IdentifierRef::Numeric(number) = InVersions::read(text.as_bytes()) {
        return Ok(Identifier::Numeric(number));
    }
    Ok(Identifier::AlphaNumeric(String::from_str(alloc, text)?))
}

// Determined by: equation.
/// Returns the identifiers that a `Version` keeps of the strings between the dots. If there are no
/// bytes, there are no identifiers, and nothing is allocated. `Err` means out of memory.
#[inline(always)]
pub fn identifiers(alloc: Global, bytes: &[u8]) -> Result<Vec<Identifier>, AllocError>
    requires { list_all is_part (cut_at_dots bytes.now) ≡ true }
    ensures kept { IfOk result (λ ids.
        map identifier_value ids.items ≡ map identifier_of (cut_at_dots bytes.now)) }
    ensures some { IfErr result (λ _. 0 < length bytes.now) }
{
    if bytes.is_empty() {
        return Ok(Vec::new(alloc));
    }
    identifiers_of_text(alloc, text_of_parts(bytes))
}

// Determined by: equation.
/// Returns the result of `identifiers` for a string.
#[inline(always)]
pub fn identifiers_of_text(alloc: Global, text: &str) -> Result<Vec<Identifier>, AllocError>
    ensures kept { IfOk result (λ ids.
        map identifier_value ids.items ≡ map identifier_of (cut_at_dots text.now)) }
    ensures some { IfErr result (λ _. 0 < length text.now) }
{
    of_parts(alloc, text, |part| identifier(alloc, part))
}
