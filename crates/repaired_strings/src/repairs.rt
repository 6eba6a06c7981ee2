//! Repairs strings: replaces the parts that errors are about, until the string is valid.

ghost use Rattle.std.specs.Prelude.{◌≡◌, ◌≤◌, ◌++◌, IfOk, IfSome, MatchOption, length};
ghost use Rattle.std.specs.Prelude.{option_map, string_bytes};
ghost use Rattle.std.specs.List.{list_all};
ghost use Rattle.semver_texts.specs.WhiteSpace.{is_ascii_white_space};
ghost use Rattle.repaired_strings.specs.Errors.{IsErrorAt, IsValid};
ghost use Rattle.repaired_strings.specs.Repairs.{AreRepairs, HasNoRepair, IsBeyondRepair};
ghost use Rattle.repaired_strings.specs.Repairs.{IsRepairOf, in_version, replacement, slip};
ghost use Rattle.repaired_strings.specs.Repairs.{space_before, without_zeros};

use crate::errors::{Expected, StringError, first_error};
use crate::spans::span_at;
use invalid_strings::reasons::Reason;
use semver_ranges::dialect::Dialect;
use semver_texts::white_space::is_ascii_white_space;
use std::alloc::{AllocError, Global};

/// How many parts of a string are replaced at most.
const MOST_REPAIRS: usize = 32;

// Determined by: law result_laws::repairs::one_repaired.
/// Returns the valid string that may have been meant by an invalid one, or `None` if none is known.
/// It repairs one error after the other, and replaces only the span of each.
///
/// `=>1.2` gives `>=1.2`, and in Cargo's dialect `>=1 <2` gives `>=1 , <2`. A valid string is
/// returned as it is.
///
/// # Errors
///
/// `AllocError` if an allocation fails.
pub fn repaired(
    alloc: Global,
    expected: Expected,
    dialect: Dialect,
    text: &str,
) -> Result<Option<String>, AllocError>
    // The result is valid, and comes from the string by repairs of its errors.
    ensures valid { IfOk result (λ o. IfSome o (λ s. IsValid expected dialect (string_bytes s))) }
    ensures repairs { IfOk result (λ o. IfSome o
        (λ s. AreRepairs expected dialect text.now (string_bytes s))) }
    // There is none only if the repairs end at an error for which nothing is known.
    ensures none { IfOk result (λ o. MatchOption o (IsBeyondRepair expected dialect text.now)
        (λ s. Unit {0})) }
{
    let mut now = String::from_str(alloc, text)?;
    for _ in 0..MOST_REPAIRS {
        let Some(error) = first_error(alloc, expected, dialect, now.as_str())? else {
            return Ok(Some(now));
        };
        let Some(next) = with_repair(alloc, expected, dialect, now.as_str(), error)? else {
            return Ok(None);
        };
        now = next;
    }
    Ok(None)
}

/// Returns the string with the span of its error replaced, or `None` if nothing is known that can
/// replace it.
fn with_repair(
    alloc: Global,
    expected: Expected,
    dialect: Dialect,
    text: &str,
    error: StringError,
) -> Result<Option<String>, AllocError>
    requires within { error.offset ≤ length text.now }
    requires error { IsErrorAt expected dialect text.now error.offset error.reason }
    ensures { IfOk result (λ o. MatchOption o (HasNoRepair expected dialect text.now)
        (λ s. IsRepairOf expected dialect text.now (string_bytes s))) }
{
    let span = span_at(text, error.offset, error.reason);
    let before = &text[..span.start];
    let after = &text[span.end..];
    let old = &text[span.start..span.end];
    let Some((new, kept)) = replacement(expected, error.reason, old, after) else {
        return Ok(None);
    };
    let mut result = String::from_str(alloc, before)?;
    result.push_str(new)?;
    result.push_str(kept)?;
    result.push_str(after)?;
    Ok(Some(result))
}

/// Returns what replaces the part of a string that an error is about, in two parts, of which the
/// second is from the old part.
fn replacement<'t>(
    expected: Expected,
    reason: Reason,
    old: &'t str,
    after: &str,
) -> Option<(&'static str, &'t str)>
    ensures { option_map (λ parts. parts.0.now ++ parts.1.now) result
        ≡ replacement expected reason old.now after.now }
{
    match (expected, reason) {
        (_, Reason::LeadingZero) => Some(("", without_zeros(old))),
        (Expected::Version, Reason::NotThreeNumbers) => Some((".0", old)),
        (_, Reason::CargoV | Reason::CrateV) => Some(("", "")),
        (_, Reason::CargoCommas) => Some((", ", old)),
        (_, Reason::NpmComma | Reason::CrateComma) => Some((space_before(after), "")),
        (Expected::Version, _) => in_version(old),
        (Expected::Range, _) => match slip(old) {
            Some(meant) => Some((meant, "")),
            None => None,
        },
    }
}

/// Returns a number without its leading zeros.
fn without_zeros(number: &str) -> &str
    ensures { result.now ≡ without_zeros number.now }
{
    let Some(rest) = number.strip_prefix("0") else {
        return number;
    };
    if rest.is_empty() {
        return number;
    }
    without_zeros(rest)
}

/// Returns what replaces a comma between comparators that are separated by spaces.
fn space_before(after: &str) -> &'static str
    ensures { result.now ≡ space_before after.now }
{
    match after.as_bytes() {
        [b' ', ..] => "",
        _ => " ",
    }
}

/// Returns what replaces a part of a version that isn't allowed there, if something can.
fn in_version(old: &str) -> Option<(&'static str, &'static str)>
    ensures { option_map (λ parts. parts.0.now ++ parts.1.now) result ≡ in_version old.now }
{
    if is_blank(old) || old == "=" {
        Some(("", ""))
    } else {
        None
    }
}

/// Returns whether a string is empty or only white space.
fn is_blank(text: &str) -> bool
    ensures { result ≡ list_all is_ascii_white_space text.now }
{
    text.as_bytes()
        .iter()
        .all(|&byte| is_ascii_white_space(byte))
}

/// Returns the operator that is meant by characters of operators that no range has.
fn slip(old: &str) -> Option<&'static str>
    ensures { option_map (λ meant. meant.now) result ≡ slip old.now }
{
    match old {
        "=>" => Some(">="),
        "=<" => Some("<="),
        "==" | "===" => Some("="),
        "~=" | "=~" | "~>" | "~~" => Some("~"),
        "^^" | "^=" | "=^" => Some("^"),
        "&&" => Some(" "),
        _ => None,
    }
}
