//! What an error prints.

ghost use Rattle.std.specs.Prelude.{◌≡◌, ◌++◌, None};
ghost use Rattle.std.specs.Fmt.{WritesOnOk, WritesStyledOnOk};
ghost use Rattle.invalid_strings.specs.Escaping.{escaped};
ghost use Rattle.semver_errors.specs.ErrorTexts.{caret_line, kind_text, line_of, marked_of};
ghost use Rattle.semver_errors.specs.ErrorTexts.{marked_text, reason_lines};
ghost use Rattle.semver_errors.specs.ErrorValues.{HasSpan, IsBetweenCharacters, place_of, value_of};

use crate::conversions::write_unexpected;
use crate::error::{Cause, Error, Kind, invalid_kind};
use invalid_strings::escaped::{Escaped, write_escaped, write_marks};
use invalid_strings::reasons::Reason;
use range_terms::term::Span;
use repaired_strings::errors::Expected;
use std::fmt;

// Determined by: equation.
impl fmt::Display for Error {
    ghost use Rattle.std.specs.Prelude.{None, Some, if◌then◌else◌};
    ghost use Rattle.std.specs.Fmt.{spec_alternate};
    ghost use Rattle.semver_errors.specs.ErrorTexts.{line_of, marked_of};

    ghost output = { λ error. Some (line_of error) };

    ghost styled_output = { λ error spec.
        if spec_alternate spec then Some (marked_of error) else None };

    fn fmt<W: fmt::Write>(&self, f: &mut fmt::Formatter<W>) -> fmt::Result {
        if f.alternate() {
            write_marked(f, &self.cause)
        } else {
            write_line(f, &self.cause)
        }
    }
}

/// Writes one line.
fn write_line<W: fmt::Write>(f: &mut fmt::Formatter<W>, cause: &Cause) -> fmt::Result
    ensures { WritesOnOk W.write_str_gives f.old result (line_of (value_of cause.now)) f.new }
{
    match cause {
        Cause::Invalid {
            expected,
            string,
            offset,
            reason,
            ..
        } => {
            let kind = kind_text(invalid_kind(*expected));
            let text = Escaped {
                text: string.as_str(),
            };
            write!(f, "{kind} \"{text}\" at offset {offset}: {reason}")
        }
        _ => write_without_place(f, cause),
    }
}

/// Writes what `{:#}` prints.
fn write_marked<W: fmt::Write>(f: &mut fmt::Formatter<W>, cause: &Cause) -> fmt::Result
    requires { HasSpan (value_of cause.now) }
    ensures { WritesStyledOnOk W.write_str_gives f.old result
        (marked_of (value_of cause.now)) f.new }
{
    match cause {
        Cause::Invalid {
            expected,
            string,
            reason,
            span,
            ..
        } => write_with_carets(f, *expected, *reason, string.as_str(), *span),
        _ => write_without_place(f, cause),
    }
}

// Determined by: equation.
/// Writes what `{:#}` prints for an invalid string: why it is invalid, the string in a line of its
/// own, and carets below a span of it.
pub fn write_with_carets<W: fmt::Write>(
    f: &mut fmt::Formatter<W>,
    expected: Expected,
    reason: Reason,
    text: &str,
    span: Span,
) -> fmt::Result
    requires { IsBetweenCharacters text.now span }
    ensures { WritesStyledOnOk W.write_str_gives f.old result
        (marked_text expected reason text.now span) f.new }
{
    write_reason_lines(f, expected, reason, text)?;
    write_carets(f, text, span)
}

/// Writes the line of an error that doesn't have the place of an error in a string. For others it
/// writes nothing.
fn write_without_place<W: fmt::Write>(f: &mut fmt::Formatter<W>, cause: &Cause) -> fmt::Result
    ensures { place_of (value_of cause.now) ≡ None → WritesStyledOnOk W.write_str_gives f.old result
        (line_of (value_of cause.now)) f.new }
{
    match cause {
        Cause::Invalid { .. } => Ok(()),
        Cause::CannotUpgrade(range) => {
            let kind = kind_text(Kind::CannotUpgrade);
            write_quoted(f, kind, ": \"", range.as_str(), "\"")
        }
        Cause::UnknownName(name, known) => {
            write_quoted(
                f,
                kind_text(Kind::UnknownName),
                " \"",
                name.as_str(),
                "\": expected ",
            )?;
            f.write_str(known)
        }
        Cause::DifferentRules => f.write_str(kind_text(Kind::DifferentRules)),
        Cause::Converted(expected, sentence) => {
            f.write_str(kind_text(invalid_kind(*expected)))?;
            f.write_str(": ")?;
            f.write_str(sentence.as_str())
        }
        Cause::Fixed(expected, sentence) => {
            f.write_str(kind_text(invalid_kind(*expected)))?;
            f.write_str(": ")?;
            f.write_str(sentence)
        }
        Cause::UnexpectedCharacter(character) => {
            f.write_str(kind_text(Kind::InvalidVersion))?;
            f.write_str(": ")?;
            write_unexpected(f, *character)
        }
        Cause::OutOfMemory => f.write_str(kind_text(Kind::OutOfMemory)),
    }
}

/// Returns with what the line of an error begins.
fn kind_text(kind: Kind) -> &'static str
    ensures { result.now ≡ kind_text kind }
{
    match kind {
        Kind::InvalidVersion => "invalid version",
        Kind::InvalidRange => "invalid range",
        Kind::CannotUpgrade => "the requirement can't be raised to this version",
        Kind::DifferentRules => "the ranges were read by different rules",
        Kind::UnknownName => "unknown name",
        Kind::OutOfMemory => "out of memory",
    }
}

/// Writes a string as it is shown, after two strings and before another one.
fn write_quoted<W: fmt::Write>(
    f: &mut fmt::Formatter<W>,
    kind: &str,
    before: &str,
    text: &str,
    after: &str,
) -> fmt::Result
    ensures { WritesStyledOnOk W.write_str_gives f.old result
        (kind.now ++ (before.now ++ (escaped text.now ++ after.now))) f.new }
{
    f.write_str(kind)?;
    f.write_str(before)?;
    write_escaped(f, text)?;
    f.write_str(after)
}

/// Writes a reason, and the string in a line of its own, up to the line with carets.
fn write_reason_lines<W: fmt::Write>(
    f: &mut fmt::Formatter<W>,
    expected: Expected,
    reason: Reason,
    text: &str,
) -> fmt::Result
    ensures { WritesStyledOnOk W.write_str_gives f.old result
        (reason_lines expected reason text.now) f.new }
{
    f.write_str(kind_text(invalid_kind(expected)))?;
    f.write_str(": ")?;
    write_quoted(f, reason.sentence(), "\n    ", text, "\n    ")
}

/// Writes the line below a string: spaces, and then carets for the span.
fn write_carets<W: fmt::Write>(f: &mut fmt::Formatter<W>, text: &str, span: Span) -> fmt::Result
    requires { IsBetweenCharacters text.now span }
    ensures { WritesStyledOnOk W.write_str_gives f.old result (caret_line text.now span) f.new }
{
    write_marks(f, " ", &text[..span.start])?;
    let part = &text[span.start..span.end];
    if part.is_empty() {
        return f.write_str("^");
    }
    write_marks(f, "^", part)
}
