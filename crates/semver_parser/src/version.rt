//! Reads version strings into plain data, and prints versions. [`parse`] also says what is wrong
//! with an invalid version.
ghost use Rattle.std.specs.Prelude.{◌≡◌, ◌↔◌, [], Ok, IfOk};
ghost use Rattle.semver_texts.specs.Versions.{VersionValue};
ghost use Rattle.semver_texts.specs.PrintedText.{version_text};
ghost use Rattle.semver_texts.specs.VersionViews.{version_value};
ghost use Rattle.semver_texts.specs.VersionGrammar.{SpellsVersion, IsTrimmed};
ghost use Rattle.semver_texts.specs.VersionGrammar.{IsPrintableVersion};
ghost use Rattle.semver_tokens.specs.VersionReading.{IsOutcomeOf, TextMayRunOut};
ghost use Rattle.semver_tokens.specs.ParserViews.{answer_of, UnlessOutOfMemory, IfOutOfMemory};

use crate::parser::{self, Parser};
pub use semver_versions::version::{
    Digits, Grammar, Identifier, Version, VersionRef, cmp_precedence, read, read_bytes, read_ref,
    read_ref_bytes, read_ref_in,
};
use std::alloc::Global;

// Determined by: law result_laws::versions::one_version_parse.
/// Reads a version string. Printed, the version is the string without the white space around it,
/// and reading what was printed gives the same version. It is the version that `read` returns,
/// except that an invalid string gives an error.
///
/// # Errors
///
/// The first of these from the left:
///
/// - `UnexpectedEnd`: the string ends before the version is complete. The empty string is an
///   example.
/// - `UnexpectedToken`: a token isn't allowed there, such as the second hyphen of `1.2.3--1`, or
///   `AlphaNumeric("01")` in `01.0.0`.
/// - `MoreInput`: a version is followed by something else. The error holds all tokens after the
///   version and its white space: `1.2.3 a.b` gives `AlphaNumeric("a")`, `Dot`,
///   `AlphaNumeric("b")`.
/// - `Lexer`: a character begins no token. Since one token is read ahead, this error comes before
///   an error at the preceding token: `a/` gives `Lexer(UnexpectedChar('/'))`. After a complete
///   version it comes before `MoreInput`.
/// - `OutOfMemory`: an allocation failed. The lists of identifiers, each identifier that isn't a
///   number, and the tokens of `MoreInput` are allocated. A version without a pre-release and build
///   metadata never gives this error.
///
/// ```
/// use semver_parser::parser::Error;
/// use semver_parser::version::{self, Identifier};
///
/// let version = version::parse(" 1.2.3-rc.4\n")?;
/// assert_eq!((version.major, version.minor, version.patch), (1, 2, 3));
/// assert_eq!(version.pre, [Identifier::AlphaNumeric("rc".to_string()), Identifier::Numeric(4)]);
/// assert_eq!(version.to_string(), "1.2.3-rc.4");
/// assert_eq!(version::parse("1.2"), Err(Error::UnexpectedEnd));
/// # Ok::<(), Error>(())
/// ```
#[inline(always)]
pub fn parse(alloc: Global, input: &str) -> Result<Version, parser::Error<'_>>
    // Unless memory ran out, the result is a version if and only if the string spells it.
    ensures exact { (v : VersionValue) →
        UnlessOutOfMemory result ((answer_of version_value result ≡ Ok v)
        ↔ SpellsVersion v input.now) }
    // A version without a pre-release and build metadata is read without allocating.
    ensures plain { (v : VersionValue) → SpellsVersion v input.now → v.plain.pre ≡ []
        → v.build ≡ [] →
        answer_of version_value result ≡ Ok v }
    // A version, printed, is the string without the white space at its ends.
    ensures trimmed { IfOk result (λ v. IsTrimmed input.now (version_text (version_value v))) }
    // Unless memory ran out, a version, printed and read, gives that version again if and only if
    // it is printable.
    ensures printable { IfOk result (λ v. IsPrintableVersion (version_value v)) }
    ensures read_back { (v : VersionValue) → IsPrintableVersion v → input.now ≡ version_text v →
        UnlessOutOfMemory result (answer_of version_value result ≡ Ok v) }
    // Unless memory ran out, the result is the outcome of the string.
    ensures outcome { UnlessOutOfMemory result
        (IsOutcomeOf input.now (answer_of version_value result)) }
    // Memory runs out only if the error would be `MoreInput`, or if the longest prefix of the
    // tokens that begins a version contains letters or digits after a `-` or a `+`.
    ensures out_of_memory { IfOutOfMemory result (TextMayRunOut input.now) }
{
    match read(alloc, input) {
        Ok(Some(version)) => Ok(version),
        Ok(None) => Ok(parse_by_tokens(alloc, input)?),
        Err(_) => Err(parser::Error::OutOfMemory),
    }
}

// Determined by: law result_laws::versions::one_parse_by_tokens.
/// Returns the result or the error of [`parse`], using only the tokens. It takes less time for an
/// invalid version, if [`read_ref`] has shown that it is one.
#[inline(never)]
pub fn parse_by_tokens(alloc: Global, input: &str) -> Result<Version, parser::Error<'_>>
    // Unless memory ran out, the result is the outcome of the string.
    ensures outcome { UnlessOutOfMemory result
        (IsOutcomeOf input.now (answer_of version_value result)) }
    // Memory runs out only if parsing the tokens of the string may run out of memory.
    ensures out_of_memory { IfOutOfMemory result (TextMayRunOut input.now) }
{
    let mut parser = Parser::new(input)?;
    let version = parser.version(alloc)?;
    if parser.is_eof() {
        return Ok(version);
    }
    let rest = parser.tail(alloc)?;
    Err(parser::Error::MoreInput(rest))
}
