//! Reads version strings directly from their bytes: as a `Version`, or as a borrowed version that
//! allocates nothing.
//!
//! In the crate's grammar, a version is three numbers separated by dots, such as
//! `1.2.3-rc.1+5aedf`. They are followed optionally by `-` and the identifiers of a pre-release,
//! and then optionally by `+` and the identifiers of the build metadata, both separated by dots.
//! Spaces, tabs, line feeds and carriage returns are allowed before and after it. A number is `0`,
//! or digits that don't begin with `0`, up to 2^64 - 1. An identifier is one or more sequences of
//! ASCII letters and digits, joined by single hyphens. The number of these sequences, the number of
//! identifiers and the length of a string aren't limited.
ghost use Rattle.std.specs.Prelude.{◌≡◌, ◌↔◌, ◌<◌, ◌⊎◌, ◌+◌, ◌^◌, [], length, Some, None};
ghost use Rattle.std.specs.Prelude.{IfOk, IfErr, IfSome, IsTrue, option_map};
ghost use Rattle.semver_texts.specs.Texts.{Text, BeginsWithNumbers};
ghost use Rattle.semver_texts.specs.Versions.{VersionValue};
ghost use Rattle.semver_texts.specs.VersionViews.{version_value};
ghost use Rattle.semver_texts.specs.VersionGrammar.{SpellsVersion, IsVersionText};
ghost use Rattle.semver_texts.specs.ToolVersions.{IsVersionTextIn, SpellsIn};
ghost use Rattle.semver_versions.specs.AnyLength.{IsVersionAtAnyLength};
ghost use Rattle.semver_versions.specs.VersionRefs.{IsVersionRefIn, IsVersionRefOf};
ghost use Rattle.semver_versions.specs.VersionRefs.{VersionRefValue, StandsAt, version_of};

use crate::reader;
pub use crate::version_order::compare_by;
pub use crate::version_ref::VersionRef;
pub use semver_texts::grammar::{Digits, Grammar};
pub use semver_texts::precedence::cmp_precedence;
pub use semver_texts::version::{Identifier, Version};
use std::alloc::{AllocError, Global};

// Determined by: law result_laws::versions::one_read.
/// Returns the version that the string spells, or `None` if it spells none. To find out what is
/// wrong with an invalid version, call `semver_parser::version::parse`.
///
/// `Err` means out of memory, which is possible only if the string spells a version with a
/// pre-release or build metadata. Nothing is allocated before the whole string is known to spell a
/// version. Then the lists of identifiers are allocated, and each identifier that isn't a number.
/// For an invalid version nothing is allocated, however long the string is.
#[inline(always)]
pub fn read(alloc: Global, input: &str) -> Result<Option<Version>, AllocError>
    // Unless memory ran out, the result is a version if and only if the string spells it.
    ensures exact { (v : VersionValue) → IfOk result (λ found.
        (option_map version_value found ≡ Some v) ↔ SpellsVersion v input.now) }
    // Unless memory ran out, the result is `None` if and only if the string spells no version.
    ensures none { IfOk result (λ found. (found ≡ None) ↔ ¬ (IsVersionText input.now)) }
    // Memory runs out only if the string spells a version with a pre-release or build metadata.
    ensures out_of_memory { IfErr result (λ _. (v : VersionValue) × SpellsVersion v input.now
        × ((0 < length v.plain.pre) ⊎ (0 < length v.build))) }
{
    let Some(borrowed) = read_ref(input) else {
        return Ok(None);
    };
    Ok(Some(borrowed.version_in(alloc, input)?))
}

// Determined by: law result_laws::versions::one_read_bytes.
/// Reads a version like [`read`], from bytes that needn't be UTF-8. Bytes that aren't UTF-8 give
/// `None`.
///
/// The bytes aren't checked for UTF-8, since each byte of a version is ASCII. So for lines of a
/// file this is faster than such a check followed by [`read`].
#[inline(always)]
pub fn read_bytes(alloc: Global, input: &[u8]) -> Result<Option<Version>, AllocError>
    // Unless memory ran out, the result is a version if and only if the bytes spell it.
    ensures exact { (v : VersionValue) → IfOk result (λ found.
        (option_map version_value found ≡ Some v) ↔ SpellsVersion v input.now) }
    // Unless memory ran out, the result is `None` if and only if the bytes spell no version.
    ensures none { IfOk result (λ found. (found ≡ None) ↔ ¬ (IsVersionText input.now)) }
    // Memory runs out only if the bytes spell a version with a pre-release or build metadata.
    ensures out_of_memory { IfErr result (λ _. (v : VersionValue) × SpellsVersion v input.now
        × ((0 < length v.plain.pre) ⊎ (0 < length v.build))) }
{
    let Some(borrowed) = read_ref_bytes(input) else {
        return Ok(None);
    };
    Ok(Some(borrowed.version(alloc)?))
}

// Determined by: law result_laws::versions::one_read_ref.
/// Returns the version that the string spells as a borrowed version, or `None` if it spells none.
///
/// It does not allocate: its parts are slices of the input.
#[must_use]
#[inline(always)]
pub fn read_ref(input: &str) -> Option<VersionRef<'_>>
    // The result is a borrowed version if and only if it is that of a version that the string
    // spells.
    ensures borrowed { (o : VersionRefValue) →
        (result ≡ Some o) ↔ IsVersionRefOf input.now o }
    // The result is `None` if and only if the string spells no version.
    ensures none { (result ≡ None) ↔ ¬ (IsVersionText input.now) }
    // The pre-release is empty if and only if the version has none.
    ensures pre_release { (v : VersionValue) → SpellsVersion v input.now →
        IfSome result (λ o. (o.pre ≡ []) ↔ (v.plain.pre ≡ [])) }
    // The build metadata is empty if and only if the version has none.
    ensures build { (v : VersionValue) → SpellsVersion v input.now →
        IfSome result (λ o. (o.build ≡ []) ↔ (v.build ≡ [])) }
    // Both slices are in the input at their offsets.
    ensures places { IfSome result (λ o. StandsAt o.pre_offset o.pre input.now
        × StandsAt o.build_offset o.build input.now) }
{
    read_ref_bytes(input.as_bytes())
}

// Determined by: law result_laws::versions::one_read_ref_bytes.
/// Returns the result of [`read_ref`] for bytes that needn't be UTF-8. Bytes that aren't UTF-8 give
/// `None`, without a separate check. It does not allocate.
#[must_use]
#[inline(always)]
pub fn read_ref_bytes(input: &[u8]) -> Option<VersionRef<'_>>
    // The result is a borrowed version if and only if it is that of a version that the bytes spell.
    ensures borrowed { (o : VersionRefValue) →
        (result ≡ Some o) ↔ IsVersionRefOf input.now o }
    // The result is `None` if and only if the bytes spell no version.
    ensures none { (result ≡ None) ↔ ¬ (IsVersionText input.now) }
    // The pre-release is empty if and only if the version has none.
    ensures pre_release { (v : VersionValue) → SpellsVersion v input.now →
        IfSome result (λ o. (o.pre ≡ []) ↔ (v.plain.pre ≡ [])) }
    // The build metadata is empty if and only if the version has none.
    ensures build { (v : VersionValue) → SpellsVersion v input.now →
        IfSome result (λ o. (o.build ≡ []) ↔ (v.build ≡ [])) }
    // Both slices are in the input at their offsets.
    ensures places { IfSome result (λ o. StandsAt o.pre_offset o.pre input.now
        × StandsAt o.build_offset o.build input.now) }
{
    read_ref_in(input, Grammar::Crate)
}

// Determined by: law result_laws::versions::one_read_ref_in.
/// Returns the result of [`read_ref_bytes`] in a dialect.
///
/// The bytes needn't be UTF-8, and it does not allocate. The pages `docs::grammar` and
/// `docs::original_crate` have the grammars.
#[must_use]
#[inline(always)]
pub fn read_ref_in(input: &[u8], grammar: Grammar) -> Option<VersionRef<'_>>
    // The result is a borrowed version if and only if it is that of a version that the bytes spell.
    ensures borrowed { (o : VersionRefValue) →
        (result ≡ Some o) ↔ IsVersionRefIn grammar input.now o }
    // The result is `None` if and only if the bytes spell no version.
    ensures none { (result ≡ None) ↔ ¬ (IsVersionTextIn grammar input.now) }
    // The borrowed version stands for the version that the bytes spell.
    ensures version { IfSome result (λ o. SpellsIn grammar (version_of o) input.now) }
    // Both slices are in the input at their offsets.
    ensures places { IfSome result (λ o. StandsAt o.pre_offset o.pre input.now
        × StandsAt o.build_offset o.build input.now) }
{
    reader::read_ref(input, grammar)
}

// Determined by: equation.
/// Returns whether the bytes spell a version in a dialect, whatever their length, which only npm
/// limits. For `1.2.3` after a thousand spaces this is true in npm's dialect, although
/// [`read_ref_in`] returns `None`.
///
/// The bytes needn't be UTF-8, and it does not allocate.
#[must_use]
pub fn is_version_at_any_length(input: &[u8], grammar: Grammar) -> bool
    ensures { IsTrue result ↔ IsVersionAtAnyLength grammar input.now }
{
    reader::read_ref_at_any_length(input, grammar).is_some()
}
