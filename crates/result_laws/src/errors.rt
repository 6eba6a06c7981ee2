//! Functions that make the error of the Rust crate.

ghost use Rattle.std.specs.Prelude.{alloc_error, option_map, string_bytes};
ghost use Rattle.repaired_strings.specs.Errors.{IsValid};
ghost use Rattle.semver_errors.specs.Conversions.{RejectsRange, SatisfiesRejects};
ghost use Rattle.semver_errors.specs.Conversions.{UpgradeRejects};
ghost use Rattle.result_laws.specs.OneError.{AreOneError};
ghost use Rattle.result_laws.specs.OneResult.{AreOne};

use range_upgrades::upgrade::UpgradeError;
use repaired_strings::errors::Expected;
use repaired_strings::laws;
use semver_errors::error::Error;
use semver_ranges::RangeError;
use semver_ranges::dialect::Dialect;
use std::alloc::{AllocError, Global};
use tool_ranges::satisfying::SatisfiesError;

/// A result of `suggestion`.
type Suggested = Result<Option<String>, AllocError>;

/// An invalid string has only one error, unless memory ran out.
pub fn one_error(alloc: Global, expected: Expected, dialect: Dialect, text: &str) -> (Error, Error)
    requires { ¬ (IsValid expected dialect text.now) }
    ensures one { AreOneError result.0 result.1 }
{
    laws::one_error();
    laws::one_span();
    (
        Error::from_string(alloc, expected, dialect, text),
        Error::from_string(alloc, expected, dialect, text),
    )
}

/// An invalid range has only one error, unless memory ran out.
pub fn one_range_error(
    alloc: Global,
    error: RangeError,
    range: &str,
    dialect: Dialect,
) -> (Error, Error)
    requires { RejectsRange dialect range.now error }
    ensures one { AreOneError result.0 result.1 }
{
    laws::one_error();
    laws::one_span();
    (
        Error::from_range(alloc, error, range, dialect),
        Error::from_range(alloc, error, range, dialect),
    )
}

/// A version and a range of which one is invalid have only one error, unless memory ran out.
pub fn one_satisfies_error(
    alloc: Global,
    error: SatisfiesError,
    version: &str,
    range: &str,
    dialect: Dialect,
) -> (Error, Error)
    requires { SatisfiesRejects dialect version.now range.now error }
    ensures one { AreOneError result.0 result.1 }
{
    laws::one_error();
    laws::one_span();
    (
        Error::from_satisfies(alloc, error, version, range, dialect),
        Error::from_satisfies(alloc, error, version, range, dialect),
    )
}

/// A requirement that can't be raised has only one error, unless memory ran out.
pub fn one_upgrade_error(
    alloc: Global,
    error: UpgradeError,
    version: &str,
    range: &str,
    dialect: Dialect,
) -> (Error, Error)
    requires { UpgradeRejects dialect version.now range.now error }
    ensures one { AreOneError result.0 result.1 }
{
    laws::one_error();
    laws::one_span();
    (
        Error::from_upgrade(alloc, error, version, range, dialect),
        Error::from_upgrade(alloc, error, version, range, dialect),
    )
}

/// An error suggests only one string, or none, unless memory ran out.
pub fn one_suggestion(error: &Error, alloc: Global) -> (Suggested, Suggested)
    ensures one { AreOne alloc_error (option_map string_bytes) result.0 result.1 }
{
    laws::one_repaired();
    (error.suggestion(alloc), error.suggestion(alloc))
}
