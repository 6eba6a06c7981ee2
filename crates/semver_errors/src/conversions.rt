//! The errors of other calls, as the error of the Rust crate.

ghost use Rattle.std.specs.Prelude.{◌≡◌, IfErr, IfOk, string_bytes};
ghost use Rattle.std.specs.Fmt.{WritesStyledOnOk};
ghost use Rattle.repaired_strings.specs.declared.errors.Expected.TheVariants.{Version};
ghost use Rattle.semver_errors.specs.Conversions.{IsConvertedParser};
ghost use Rattle.semver_errors.specs.Conversions.{IsRangeError, IsSatisfiesError};
ghost use Rattle.semver_errors.specs.Conversions.{IsUpgradeError, RejectsRange};
ghost use Rattle.semver_errors.specs.Conversions.{SatisfiesRejects, UpgradeRejects};
ghost use Rattle.semver_errors.specs.Conversions.{operation_error};
ghost use Rattle.semver_errors.specs.ErrorValues as values;
ghost use Rattle.semver_errors.specs.ErrorValues.{IsOrOutOfMemory, unexpected_character_text};

use crate::error::{Cause, Error};
use invalid_strings::escaped::write_character;
use range_upgrades::upgrade::UpgradeError;
use repaired_strings::errors::Expected;
use semver_ranges::RangeError;
use semver_ranges::dialect::Dialect;
use semver_tokens::{lexer, parser};
use std::alloc::{AllocError, Global};
use std::fmt;
use tool_ranges::satisfying::SatisfiesError;
use version_sets::OperationError;

impl Error {
    // Determined by: law result_laws::errors::one_range_error.
    /// Returns the error of an invalid range, or the one for an allocation that failed.
    #[cold]
    pub fn from_range(alloc: Global, error: RangeError, range: &str, dialect: Dialect) -> Error
        requires { RejectsRange dialect range.now error }
        ensures { IsRangeError dialect range.now error result }
    {
        match error {
            RangeError::OutOfMemory => Error::out_of_memory(),
            _ => Error::from_string(alloc, Expected::Range, dialect, range),
        }
    }

    // Determined by: law result_laws::errors::one_satisfies_error.
    /// Returns the error of a version or of a range, whichever is invalid.
    #[cold]
    pub fn from_satisfies(
        alloc: Global,
        error: SatisfiesError,
        version: &str,
        range: &str,
        dialect: Dialect,
    ) -> Error
        requires { SatisfiesRejects dialect version.now range.now error }
        ensures { IsSatisfiesError dialect version.now range.now error result }
    {
        match error {
            SatisfiesError::InvalidVersion => {
                Error::from_string(alloc, Expected::Version, dialect, version)
            }
            SatisfiesError::InvalidRange(error) => Error::from_range(alloc, error, range, dialect),
        }
    }

    // Determined by: law result_laws::errors::one_upgrade_error.
    /// Returns the error of a requirement that can't be raised to a version.
    #[cold]
    pub fn from_upgrade(
        alloc: Global,
        error: UpgradeError,
        version: &str,
        range: &str,
        dialect: Dialect,
    ) -> Error
        requires { UpgradeRejects dialect version.now range.now error }
        ensures { IsUpgradeError dialect version.now range.now error result }
    {
        match error {
            UpgradeError::InvalidVersion => {
                Error::from_string(alloc, Expected::Version, dialect, version)
            }
            UpgradeError::InvalidRange(error) => Error::from_range(alloc, error, range, dialect),
            UpgradeError::CannotUpgrade => Error::cannot_upgrade(alloc, range),
            UpgradeError::OutOfMemory => Error::out_of_memory(),
        }
    }

    // Determined by: equation.
    /// Returns the error of a range that can't be raised to a version.
    pub fn cannot_upgrade(alloc: Global, range: &str) -> Error
        ensures { IsOrOutOfMemory result (values.CannotUpgrade range.now) }
    {
        match String::from_str(alloc, range) {
            Ok(range) => Error {
                cause: Cause::CannotUpgrade(range),
            },
            Err(_) => Error::out_of_memory(),
        }
    }

    // Determined by: equation.
    /// Returns the error of an operation on two ranges.
    pub fn from_operation(error: OperationError) -> Error
        ensures { result ≡ operation_error error }
    {
        match error {
            OperationError::OutOfMemory => Error::out_of_memory(),
            _ => Error {
                cause: Cause::DifferentRules,
            },
        }
    }

    // Determined by: free, debug text in some sentences: ../../rust/tests/interface.rs.
    /// Returns the error of a version that `version::parse` can't read. It doesn't have the string.
    pub fn from_parser(alloc: Global, error: &parser::Error<'_>) -> Error
        ensures { IsConvertedParser error.now result }
    {
        match error {
            parser::Error::OutOfMemory => Error::out_of_memory(),
            _ => Error::converted(Expected::Version, error.text(alloc)),
        }
    }

    /// Returns an error with a sentence that is always the same one.
    fn fixed(expected: Expected, sentence: &'static str) -> Error
        ensures { result ≡ values.Converted expected sentence.now }
    {
        Error {
            cause: Cause::Fixed(expected, sentence),
        }
    }

    /// Returns an error with the sentence of another one, which doesn't have the string.
    fn converted(expected: Expected, sentence: Result<String, AllocError>) -> Error
        ensures sentence { IfOk sentence (λ s.
            result ≡ values.Converted expected (string_bytes s)) }
        ensures out_of_memory { IfErr sentence (λ _. result ≡ values.OutOfMemory) }
    {
        match sentence {
            Ok(sentence) => Error {
                cause: Cause::Converted(expected, sentence),
            },
            Err(_) => Error::out_of_memory(),
        }
    }
}

// Determined by: equation.
impl From<RangeError> for Error {
    ghost use Rattle.std.specs.Prelude.{◌≡◌};
    ghost use Rattle.semver_errors.specs.Conversions.{converted_range};

    ghost from_gives = { λ error result. result ≡ converted_range error };

    /// Converts the error of `RangeSet::try_parse`, which doesn't have the string.
    fn from(error: RangeError) -> Error {
        match error {
            RangeError::NotARange => Error::fixed(Expected::Range, "not a range"),
            RangeError::NumberTooLarge => Error::fixed(Expected::Range, "number too large"),
            RangeError::OutOfMemory => Error::out_of_memory(),
        }
    }
}

// Determined by: equation.
impl From<lexer::Error> for Error {
    ghost use Rattle.std.specs.Prelude.{◌≡◌};
    ghost use Rattle.semver_errors.specs.Conversions.{converted_lexer};

    ghost from_gives = { λ error result. result ≡ converted_lexer error };

    /// Converts the error of `lexer::Lexer`, which doesn't have the string.
    fn from(error: lexer::Error) -> Error {
        let lexer::Error::UnexpectedChar(character) = error;
        Error {
            cause: Cause::UnexpectedCharacter(character),
        }
    }
}

/// The sentence about a character that begins no token of a version.
#[derive(Clone, Copy)]
pub struct UnexpectedCharacter {
    /// The character.
    pub character: char,
}

// Determined by: equation.
impl fmt::Display for UnexpectedCharacter {
    ghost use Rattle.std.specs.Prelude.{Some};
    ghost use Rattle.semver_errors.specs.ErrorValues.{unexpected_character_text};

    ghost output = { λ shown. Some (unexpected_character_text shown.character) };

    fn fmt<W: fmt::Write>(&self, f: &mut fmt::Formatter<W>) -> fmt::Result {
        write_unexpected(f, self.character)
    }
}

/// Writes the sentence about a character that begins no token of a version.
pub(crate) fn write_unexpected<W: fmt::Write>(
    f: &mut fmt::Formatter<W>,
    character: char,
) -> fmt::Result
    ensures { WritesStyledOnOk W.write_str_gives f.old result
        (unexpected_character_text character) f.new }
{
    f.write_str("unexpected character '")?;
    write_character(f, character)?;
    f.write_str("'")
}
