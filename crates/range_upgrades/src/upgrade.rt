//! Raises a requirement, so that it contains a newer version.

ghost use Rattle.std.specs.Prelude.{◌≡◌, ◌≢◌, ◌↔◌, Err, IfOk, IfSome, None, Ok, true, string_bytes};
ghost use Rattle.semver_texts.specs.Texts.{Text};
ghost use Rattle.semver_texts.specs.ToolVersions.{IsVersionTextIn};
ghost use Rattle.semver_versions.specs.VersionRefs.{IsVersionRefIn, version_of};
ghost use Rattle.semver_versions.specs.VersionRefs.{VersionRefValue};
ghost use Rattle.semver_ranges.specs.RangeTree.{SetTree};
ghost use Rattle.tool_ranges.specs.Dialects.{HasSetAs, IsTextAs, IsTooLargeAs, SpellsAs};
ghost use Rattle.semver_ranges.specs.DialectTable.{grammar_of};
ghost use Rattle.tool_ranges.specs.Satisfying.{Satisfies};
ghost use Rattle.range_terms.specs.WrittenTerms.{terms_in};
ghost use Rattle.range_upgrades.specs.Alternatives.{HasBars};
ghost use Rattle.range_upgrades.specs.RaisedRanges.{IsRaisedRange, IsUpgraded};
ghost use Rattle.range_upgrades.specs.Upgrades.{HasVersionFromText, IsReadIn, IsSatisfied};
ghost use Rattle.range_upgrades.specs.Upgrades.{LosesNone};

use crate::alternatives::{has_bars, last_alternative};
use crate::raised_ranges::{raised_as_one_more, raised_in_place};
use crate::raised_versions::Form;
use semver_ranges::RangeError;
use semver_versions::version::{VersionRef, read_ref_in};
use std::alloc::{AllocError, Global};
use thiserror::Error;
use tool_ranges::at_or_above::has_at_or_above;
use tool_ranges::laws;
use tool_ranges::meaning::{Rules, satisfies};
use tool_ranges::widening::is_widened;

/// Why a requirement can't be raised.
#[derive(Clone, Copy, PartialEq, Eq, Debug, Error)]
pub enum UpgradeError {
    /// The version is invalid in the dialect.
    #[error("invalid version")]
    InvalidVersion,
    /// The string is not a range in the dialect, or one of its numbers is too large.
    #[error("invalid range: {0}")]
    InvalidRange(RangeError),
    /// The raised requirement wouldn't contain the version.
    #[error("the requirement can't be raised to this version")]
    CannotUpgrade,
    /// An allocation failed.
    #[error("out of memory")]
    OutOfMemory,
}

// Determined by: equation.
impl From<AllocError> for UpgradeError {
    ghost use Rattle.std.specs.Prelude.{◌≡◌};
    ghost use Rattle.range_upgrades.specs.declared.upgrade.UpgradeError.TheVariants as error;

    ghost from_gives = { λ _ e. e ≡ error.OutOfMemory };

    fn from(_error: AllocError) -> UpgradeError {
        UpgradeError::OutOfMemory
    }
}

// Determined by: law range_upgrades::laws::one_upgrade.
/// Raises a requirement, so that it contains a newer version, and keeps how it is written. Returns
/// `None` if some version at or above the newer one is already in the range, so nothing is ever
/// lowered.
///
/// ```text
/// dialect  range               version     result
/// Cargo    ^1.2                2.3.4       ^2.3
/// Cargo    >= 1.2 , < 2.0.0    2.3.0       >= 1.2 , < 3.0.0
/// Cargo    ^3                  2.0.0       None
/// npm      v1.x                2.3.4       v2.x
/// npm      1.2 - 1.9           2.3.4       1.2 - 2.3
/// npm      ~1.2 || ^2.0.0      3.1.0       ~1.2 || ^2.0.0 || ^3.1.0
/// npm      ^0.5 || >=1.2 <2    2.3.4       ^0.5 || >=1.2 <3
/// npm      ^1.2                2.0.0-rc.1  ^2.0.0-rc.1
/// ```
///
/// The terms after the last `||` are raised, if their bounds allow no version at or above the newer
/// one:
///
/// - The version of a term without an operator or with `=`, `~`, `^` or `<=`, and the right version
///   of a hyphen range, becomes the newer one, with as many components, with its wildcards and its
///   `v`. The pre-release is written after three numbers, and build metadata is left out.
/// - If the result wouldn't contain the newer version then, and that is a pre-release, three
///   numbers are written where they mean the same: after `^`, after `~` instead of two, and in
///   Cargo's dialect without an operator.
/// - The version of `<` becomes the next one above the newer version. Its last number that isn't 0
///   says which number is raised by one, and what follows that is 0. A pre-release `0` is kept.
/// - `>=` and `>` are kept.
///
/// If the range has `||`, the raised terms are added as one more alternative instead, so that no
/// version is lost. They are raised in place only if all versions that change are upper bounds:
/// those of `<` and `<=`, and right versions of hyphen ranges. An upper bound with a pre-release
/// isn't raised in place either, except for `<` with the pre-release `0`. Everything else stays as
/// it is.
///
/// It takes linear time. It allocates only the raised range, and before that at most three strings
/// that it doesn't return: the range with its last alternative raised in place, if it has `||`, and
/// both forms again, if the version is a pre-release and needs three numbers.
///
/// # Errors
///
/// - `InvalidVersion` if the version is invalid in the dialect.
/// - Otherwise `InvalidRange` if the string is not a range in the dialect, or if one of its numbers
///   is too large.
/// - `CannotUpgrade` if the raised range wouldn't contain the version, such as `1.x` for
///   2.0.0-rc.1 in npm's dialect.
/// - `OutOfMemory` if an allocation failed.
pub fn upgrade(
    alloc: Global,
    range: &str,
    version: &[u8],
    meaning: Rules,
) -> Result<Option<String>, UpgradeError>
    // The version's error comes first, and then the range's.
    ensures invalid_version { (result ≡ Err UpgradeError.InvalidVersion)
        ↔ ¬ (IsVersionTextIn (grammar_of meaning.dialect) version.now) }
    ensures not_a_range { (result ≡ Err (UpgradeError.InvalidRange RangeError.NotARange))
        ↔ (IsVersionTextIn (grammar_of meaning.dialect) version.now
        × ¬ (IsTextAs meaning.dialect range.now)) }
    ensures too_large { (result ≡ Err (UpgradeError.InvalidRange RangeError.NumberTooLarge))
        ↔ (IsVersionTextIn (grammar_of meaning.dialect) version.now
        × IsTooLargeAs meaning.dialect range.now) }
    ensures range_memory { result ≢ Err (UpgradeError.InvalidRange RangeError.OutOfMemory) }
    ensures accepted { IfOk result (λ _. HasSetAs meaning.dialect range.now) }
    // A result is a range of the dialect, and contains the version.
    ensures contains { IfOk result (λ found. IfSome found (λ new.
        Satisfies meaning version.now (string_bytes new) (Ok true))) }
    // The result is `None` if and only if some version of the range isn't below the given one.
    ensures none { IfOk result (λ found.
        (found ≡ None) ↔ HasVersionFromText meaning range.now version.now) }
    ensures above { result ≡ Err UpgradeError.CannotUpgrade
        → ¬ (HasVersionFromText meaning range.now version.now) }
    // If the range has `||`, no version is lost.
    ensures loses_none { HasBars range.now → IfOk result (λ found. IfSome found (λ new.
        LosesNone meaning range.now (string_bytes new))) }
    // Upgrading the result again gives `None`.
    ensures again { IfOk result (λ found. IfSome found (λ new.
        HasVersionFromText meaning (string_bytes new) version.now)) }
    // The result is the range with its last alternative raised, in place or as one more. The
    // error `CannotUpgrade` is returned only if there is no such result.
    ensures style { IfOk result (λ found. IfSome found (λ new. (tree : SetTree)
        (spelled : SpellsAs meaning.dialect tree range.now) (v : VersionRefValue)
        → IsVersionRefIn (grammar_of meaning.dialect) version.now v
        → IsUpgraded meaning range.now v (terms_in meaning.dialect tree range.now spelled)
        (string_bytes new))) }
    ensures cannot_upgrade { result ≡ Err UpgradeError.CannotUpgrade → (tree : SetTree)
        (spelled : SpellsAs meaning.dialect tree range.now) (v : VersionRefValue) (new : Text)
        → IsVersionRefIn (grammar_of meaning.dialect) version.now v
        → ¬ (IsUpgraded meaning range.now v (terms_in meaning.dialect tree range.now spelled)
        new) }
{
    let Some(version) = read_ref_in(version, meaning.dialect.grammar()) else {
        return Err(UpgradeError::InvalidVersion);
    };
    laws::one_tree();
    let has = match has_at_or_above(&version, range, meaning) {
        Ok(has) => has,
        Err(error) => return Err(UpgradeError::InvalidRange(error)),
    };
    if has {
        return Ok(None);
    }
    let new = raised_in_some_form(alloc, range, &version, meaning)?;
    let Some(new) = new else {
        return Err(UpgradeError::CannotUpgrade);
    };
    Ok(Some(new))
}

/// Returns the range with its last alternative raised to a version. The raised versions have as
/// many components as before, or three if the result would otherwise not contain the version. It is
/// `None` if the result wouldn't contain it then, either. `Err` means out of memory.
fn raised_in_some_form(
    alloc: Global,
    range: &str,
    version: &VersionRef<'_>,
    meaning: Rules,
) -> Result<Option<String>, AllocError>
    requires range { HasSetAs meaning.dialect range.now }
    requires version { IsReadIn meaning.dialect version.now }
    ensures satisfied { IfOk result (λ found. IfSome found (λ new.
        IsSatisfied meaning (string_bytes new) (version_of version.now))) }
    ensures loses_none { HasBars range.now → IfOk result (λ found. IfSome found (λ new.
        LosesNone meaning range.now (string_bytes new))) }
    ensures style { IfOk result (λ found. IfSome found (λ new. (tree : SetTree)
        (spelled : SpellsAs meaning.dialect tree range.now)
        → IsUpgraded meaning range.now version.now
        (terms_in meaning.dialect tree range.now spelled) (string_bytes new))) }
    ensures none { IfOk result (λ found. found ≡ None → (tree : SetTree)
        (spelled : SpellsAs meaning.dialect tree range.now) (new : Text)
        → ¬ (IsUpgraded meaning range.now version.now
        (terms_in meaning.dialect tree range.now spelled) new)) }
{
    let as_written = raised_range(alloc, range, version, meaning, Form::AsWritten)?;
    if as_written.is_some() {
        return Ok(as_written);
    }
    if !version.is_pre_release() {
        return Ok(None);
    }
    raised_range(alloc, range, version, meaning, Form::InFull)
}

/// Returns the range with its last alternative raised to a version: in place, or, if the range has
/// `||` and isn't widened then, as one more alternative. It is `None` if the result wouldn't
/// contain the version. `Err` means out of memory.
fn raised_range(
    alloc: Global,
    range: &str,
    version: &VersionRef<'_>,
    meaning: Rules,
    form: Form,
) -> Result<Option<String>, AllocError>
    requires range { HasSetAs meaning.dialect range.now }
    requires version { IsReadIn meaning.dialect version.now }
    ensures satisfied { IfOk result (λ found. IfSome found (λ new.
        IsSatisfied meaning (string_bytes new) (version_of version.now))) }
    ensures loses_none { HasBars range.now → IfOk result (λ found. IfSome found (λ new.
        LosesNone meaning range.now (string_bytes new))) }
    ensures style { IfOk result (λ found. IfSome found (λ new. (tree : SetTree)
        (spelled : SpellsAs meaning.dialect tree range.now)
        → IsRaisedRange meaning form range.now version.now
        (terms_in meaning.dialect tree range.now spelled) (string_bytes new))) }
    ensures none { IfOk result (λ found. found ≡ None → (tree : SetTree)
        (spelled : SpellsAs meaning.dialect tree range.now) (new : Text)
        → ¬ (IsRaisedRange meaning form range.now version.now
        (terms_in meaning.dialect tree range.now spelled) new)) }
{
    let Some(last) = last_alternative(range, meaning.dialect) else {
        return Ok(None);
    };
    let in_place = raised_in_place(alloc, range, &last, version, meaning.dialect, form)?;
    let Some(in_place) = in_place else {
        return Ok(None);
    };
    if !is_satisfied(in_place.as_str(), version, meaning) {
        return Ok(None);
    }
    if !has_bars(range.as_bytes()) {
        return Ok(Some(in_place));
    }
    if is_widened(range, in_place.as_str(), meaning.dialect) {
        return Ok(Some(in_place));
    }
    let longer = raised_as_one_more(alloc, range, &last, version, meaning.dialect, form)?;
    let Some(longer) = longer else {
        return Ok(None);
    };
    if !is_satisfied(longer.as_str(), version, meaning) {
        return Ok(None);
    }
    if is_widened(range, longer.as_str(), meaning.dialect) {
        return Ok(Some(longer));
    }
    Ok(None)
}

/// Returns whether a string is a range that contains a version.
fn is_satisfied(range: &str, version: &VersionRef<'_>, meaning: Rules) -> bool
    requires { IsReadIn meaning.dialect version.now }
    ensures { (result ≡ true) ↔ IsSatisfied meaning range.now (version_of version.now) }
{
    laws::one_tree();
    match satisfies(version, range, meaning) {
        Ok(met) => met,
        Err(_) => false,
    }
}
