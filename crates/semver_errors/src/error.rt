//! The error of the Rust crate.

ghost use Rattle.std.specs.Prelude.{◌≡◌, IfNone, IfOk, IfSome, option_map, string_bytes};
ghost use Rattle.repaired_strings.specs.Errors.{IsValid};
ghost use Rattle.semver_errors.specs.ErrorValues as values;
ghost use Rattle.semver_errors.specs.ErrorValues.{HasNoSuggestion, IsErrorOf, IsOrOutOfMemory};
ghost use Rattle.semver_errors.specs.ErrorValues.{IsSuggestion, invalid_kind, kind_of, place_of};
ghost use Rattle.semver_errors.specs.ErrorValues.{text_of};

use invalid_strings::reasons::Reason;
use range_terms::term::Span;
use repaired_strings::errors::{Expected, first_error};
use repaired_strings::repairs::repaired;
use repaired_strings::spans::span_at;
use semver_ranges::dialect::Dialect;
use std::alloc::{AllocError, Global};
use std::marker::Model;

/// The kind of an [`Error`]: what a program can do about it. [`Error::reason`] says why.
///
/// ```
/// use semver_parser::{satisfies, Dialect, ErrorKind};
///
/// let kind = |version, range| satisfies(version, range, Dialect::Cargo).unwrap_err().kind();
/// assert_eq!(kind("1.2", "^1"), ErrorKind::InvalidVersion);
/// assert_eq!(kind("1.2.0", "1 || 2"), ErrorKind::InvalidRange);
/// ```
#[derive(Clone, Copy, Debug, PartialEq, Eq, Hash)]
#[non_exhaustive]
pub enum Kind {
    /// A string is an invalid version in the dialect.
    InvalidVersion,
    /// A string isn't a range in the dialect, or one of its numbers is too large.
    InvalidRange,
    /// A range can't be written so that it contains a newer version (`upgrade`).
    CannotUpgrade,
    /// Two ranges were read by different rules, so they can't be combined or compared.
    DifferentRules,
    /// A string isn't the name of a dialect, or of a rule for pre-releases.
    UnknownName,
    /// An allocation failed.
    OutOfMemory,
}

/// The error of this crate. It has the invalid string, says where and why it is invalid, and may
/// know what was meant. Every other error of the crate converts into it by `?`.
///
/// `{}` prints one line, and `{:#}` also prints the string with carets below its span:
///
/// ```
/// use semver_parser::{Dialect, ErrorKind, Reason, Span, VersionRange};
///
/// let error = VersionRange::parse("1 || 2", Dialect::Cargo).unwrap_err();
/// assert_eq!(
///     error.to_string(),
///     "invalid range \"1 || 2\" at offset 2: Cargo doesn't accept ||; npm does"
/// );
/// assert_eq!(
///     format!("{error:#}"),
///     "invalid range: Cargo doesn't accept ||; npm does\n    1 || 2\n      ^^"
/// );
/// assert_eq!(error.kind(), ErrorKind::InvalidRange);
/// assert_eq!((error.offset(), error.reason()), (Some(2), Some(Reason::CargoBars)));
/// assert_eq!(error.span(), Some(Span { start: 2, end: 4 }));
///
/// let error = VersionRange::parse("=>1.2", Dialect::Npm).unwrap_err();
/// assert_eq!(error.suggestion().as_deref(), Some(">=1.2"));
/// ```
#[derive(Clone, Debug, Drop)]
pub struct Error {
    pub(crate) cause: Cause,
}

/// What an error is about.
#[derive(Clone, Debug, PartialEq, Eq, Drop)]
pub(crate) enum Cause {
    /// A string is an invalid version or an invalid range.
    Invalid {
        expected: Expected,
        dialect: Dialect,
        string: String,
        offset: usize,
        reason: Reason,
        span: Span,
    },
    /// This range can't be raised to a version.
    CannotUpgrade(String),
    /// This name is unknown. The other string says which ones are known.
    UnknownName(String, &'static str),
    /// Two ranges were read by different rules.
    DifferentRules,
    /// Another error, which doesn't have the string, says so in a sentence.
    Converted(Expected, String),
    /// The same, in a sentence that is always the same one.
    Fixed(Expected, &'static str),
    /// This character begins no token of a version.
    UnexpectedCharacter(char),
    /// An allocation failed.
    OutOfMemory,
}

impl Error {
    // Determined by: equation.
    /// Returns the kind of the error.
    ///
    /// ```
    /// use semver_parser::{Dialect, ErrorKind};
    ///
    /// let error = "yarn".parse::<Dialect>().unwrap_err();
    /// assert_eq!(error.kind(), ErrorKind::UnknownName);
    /// ```
    #[must_use]
    pub fn kind(&self) -> Kind
        ensures { result ≡ kind_of self.now }
    {
        match self.cause {
            Cause::Invalid { expected, .. } => invalid_kind(expected),
            Cause::CannotUpgrade(_) => Kind::CannotUpgrade,
            Cause::UnknownName(_, _) => Kind::UnknownName,
            Cause::DifferentRules => Kind::DifferentRules,
            Cause::Converted(expected, _) => invalid_kind(expected),
            Cause::Fixed(expected, _) => invalid_kind(expected),
            Cause::UnexpectedCharacter(_) => Kind::InvalidVersion,
            Cause::OutOfMemory => Kind::OutOfMemory,
        }
    }

    // Determined by: equation.
    /// Returns the invalid string. It is empty if the error isn't about a string, or was converted
    /// from one that doesn't have the string.
    ///
    /// ```
    /// use semver_parser::Version;
    ///
    /// assert_eq!("1.2".parse::<Version>().unwrap_err().string(), "1.2");
    /// ```
    #[must_use]
    pub fn string(&self) -> &str
        ensures { result.now ≡ text_of self.now }
    {
        match &self.cause {
            Cause::Invalid { string, .. } => string.as_str(),
            Cause::CannotUpgrade(range) => range.as_str(),
            Cause::UnknownName(name, _) => name.as_str(),
            _ => "",
        }
    }

    // Determined by: equation.
    /// Returns the byte offset of the first character that isn't allowed there, or the length of
    /// the string if something is missing at its end. If a number is too large, or a bound that is
    /// raised by one, it is the offset of that number.
    ///
    /// ```
    /// use semver_parser::Version;
    ///
    /// assert_eq!("1.2.03".parse::<Version>().unwrap_err().offset(), Some(5));
    /// assert_eq!("1.2".parse::<Version>().unwrap_err().offset(), Some(3));
    /// ```
    #[must_use]
    pub fn offset(&self) -> Option<usize>
        ensures { result ≡ option_map (λ place. place.offset) (place_of self.now) }
    {
        match self.cause {
            Cause::Invalid { offset, .. } => Some(offset),
            _ => None,
        }
    }

    // Determined by: equation.
    /// Returns the part of the string to underline: the characters of the same kind around the
    /// offset, such as a whole number or a whole operator. For a leading zero it is the number that
    /// begins with it. It is empty only at the end of the string, if something is missing there.
    ///
    /// ```
    /// use semver_parser::{Dialect, Span, Version};
    ///
    /// let span = |text| Version::parse(text, Dialect::Cargo).unwrap_err().span();
    /// assert_eq!(span("1.2.03"), Some(Span { start: 4, end: 6 }));
    /// assert_eq!(span("1.2"), Some(Span { start: 3, end: 3 }));
    /// ```
    #[must_use]
    pub fn span(&self) -> Option<Span>
        ensures { result ≡ option_map (λ place. place.span) (place_of self.now) }
    {
        match self.cause {
            Cause::Invalid { span, .. } => Some(span),
            _ => None,
        }
    }

    // Determined by: equation.
    /// Returns why the string is invalid.
    ///
    /// ```
    /// use semver_parser::{Reason, Version};
    ///
    /// let error = "1.2.03".parse::<Version>().unwrap_err();
    /// assert_eq!(error.reason(), Some(Reason::LeadingZero));
    /// ```
    #[must_use]
    pub fn reason(&self) -> Option<Reason>
        ensures { result ≡ option_map (λ place. place.reason) (place_of self.now) }
    {
        match self.cause {
            Cause::Invalid { reason, .. } => Some(reason),
            _ => None,
        }
    }

    // Determined by: law result_laws::errors::one_suggestion.
    // In Rust: try_suggestion.
    /// Returns a string that is valid in the dialect, and that may have been meant, or `None` if
    /// none is known. It repairs one error after the other, and changes nothing but the spans of
    /// these errors. `Err` means out of memory.
    pub fn suggestion(&self, alloc: Global) -> Result<Option<String>, AllocError>
        ensures some { IfOk result (λ o. IfSome o (λ s. IsSuggestion self.now (string_bytes s))) }
        ensures none { IfOk result (λ o. IfNone o (HasNoSuggestion self.now)) }
    {
        match &self.cause {
            Cause::Invalid {
                expected,
                dialect,
                string,
                ..
            } => repaired(alloc, *expected, *dialect, string.as_str()),
            _ => Ok(None),
        }
    }

    // Determined by: law result_laws::errors::one_error.
    /// Returns the error of an invalid string: where and why it is invalid.
    #[cold]
    pub fn from_string(alloc: Global, expected: Expected, dialect: Dialect, text: &str) -> Error
        requires { ¬ (IsValid expected dialect text.now) }
        ensures { IsErrorOf expected dialect text.now result }
    {
        match invalid(alloc, expected, dialect, text) {
            Ok(error) => error,
            Err(_) => Error::out_of_memory(),
        }
    }

    // Determined by: equation.
    /// Returns the error for an allocation that failed.
    pub fn out_of_memory() -> Error
        ensures { result ≡ values.OutOfMemory }
    {
        Error {
            cause: Cause::OutOfMemory,
        }
    }

    // Determined by: equation.
    /// Returns the error of a name that is unknown. The other string says which ones are known.
    pub fn unknown_name(alloc: Global, name: &str, known: &'static str) -> Error
        ensures { IsOrOutOfMemory result (values.UnknownName name.now known.now) }
    {
        match String::from_str(alloc, name) {
            Ok(name) => Error {
                cause: Cause::UnknownName(name, known),
            },
            Err(_) => Error::out_of_memory(),
        }
    }
}

impl Model for Error {
    ghost use Rattle.semver_errors.specs.ErrorValues.{ErrorValue, HasSpan, value_of};

    ghost Value = { ErrorValue };

    ghost view = { λ e. value_of e.cause };

    ghost invariant = { λ e. HasSpan (value_of e.cause) };
}

/// Returns the kind of the error of an invalid string.
pub(crate) fn invalid_kind(expected: Expected) -> Kind
    ensures { result ≡ invalid_kind expected }
{
    match expected {
        Expected::Version => Kind::InvalidVersion,
        Expected::Range => Kind::InvalidRange,
    }
}

/// Returns the error of an invalid string.
fn invalid(
    alloc: Global,
    expected: Expected,
    dialect: Dialect,
    text: &str,
) -> Result<Error, AllocError>
    requires { ¬ (IsValid expected dialect text.now) }
    ensures { IfOk result (IsErrorOf expected dialect text.now) }
{
    let string = String::from_str(alloc, text)?;
    let Some(error) = first_error(alloc, expected, dialect, text)? else {
        unreachable!();
    };
    let span = span_at(text, error.offset, error.reason);
    Ok(Error {
        cause: Cause::Invalid {
            expected,
            dialect,
            string,
            offset: error.offset,
            reason: error.reason,
            span,
        },
    })
}
