//! The output of the program `semver-parser` for a string, read as a version and as a range in each
//! mode, and its exit status.
ghost use Rattle.std.specs.Prelude.{◌≡◌, true, false, ◌||◌, IfOk, codes};
ghost use Rattle.semver_texts.specs.Writing.{WritesOrBegins};
ghost use Rattle.semver_parser.specs.ReportLines.{VersionLine, RangeLine, version_error_word};
ghost use Rattle.semver_parser.specs.ReportLines.{range_error_word, line, lines, WritesLines};
ghost use Rattle.semver_parser.specs.ReportLines.{status_of};
ghost use Rattle.semver_ranges.specs.RangeViews.{set_of};
ghost use Rattle.semver_ranges.specs.PrintedRanges.{set_text};
ghost use Rattle.semver_tokens.specs.ParserViews.{error_value};
ghost use Rattle.semver_texts.specs.VersionViews.{version_value};
ghost use Rattle.semver_texts.specs.PrintedText.{version_text};
ghost use Rattle.semver_parser.specs.Steps.Shown.{shown_text, is_value_of};

use crate::parser;
use crate::version::{self, Version};
use semver_ranges::{Compat, RangeError, RangeSet};
use semver_texts::writing::write_whole;
use std::alloc::Global;
use std::io::{self, Write};

/// What a line shows after its label.
#[derive(Drop)]
enum Shown {
    /// A printed value.
    Value(String),
    /// The word of an error.
    Word(&'static str),
}

// Determined by: free, the writer's own errors: ../replayed_cases/stdin.
/// Writes three lines for a string: `version: ` with the version, and `cargo: ` and `npm: ` with
/// the range set in Cargo and in npm mode. Each line has a printed value or an error word. Returns
/// whether at least one line has no error word.
///
/// For `1.2.3` it writes `version: 1.2.3`, `cargo: >=1.2.3 <2.0.0` and `npm: =1.2.3`; for `1.2` the
/// first line is `version: unexpected-end`. The error words are `unexpected-end`,
/// `unexpected-token`, `unexpected-char` and `more-input` for versions, `not-a-range` and
/// `number-too-large` for ranges, and `out-of-memory` for both.
///
/// # Errors
///
/// Only if a write failed, was interrupted, or took no byte. Then nothing more is written, and
/// `out` got a prefix of the lines.
pub fn run<W: Write>(alloc: Global, text: &str, out: &mut W) -> Result<bool, io::Error>
    ensures lines { WritesLines text.now (W.contents out.old) (W.contents out.new) result }
{
    let version = version_shown(alloc, text);
    let cargo = range_shown(alloc, text, Compat::Cargo);
    let npm = range_shown(alloc, text, Compat::Npm);
    write_lines(out, &version, &cargo, &npm)
}

/// Writes the lines, and returns whether at least one has no error word.
fn write_lines<W: Write>(
    out: &mut W,
    version: &Shown,
    cargo: &Shown,
    npm: &Shown,
) -> io::Result<bool>
    ensures writes { WritesOrBegins (W.contents out.old) (W.contents out.new) result
        (lines (shown_text version.now) (shown_text cargo.now) (shown_text npm.now)) }
    ensures good { IfOk result (λ good. good ≡ is_value_of version.now
        || (is_value_of cargo.now || is_value_of npm.now)) }
{
    write_line(out, "version: ", version)?;
    write_line(out, "cargo: ", cargo)?;
    write_line(out, "npm: ", npm)?;
    Ok(version.is_value() || (cargo.is_value() || npm.is_value()))
}

// Determined by: equation.
/// Returns the exit status of a run: 0 if at least one line has no error word, 1 if each has one,
/// and 2 after a failed write.
///
/// For `Ok(false)` it is 1.
pub fn status(ran: &Result<bool, io::Error>) -> u8
    ensures code { result ≡ status_of ran.now }
{
    match ran {
        Ok(true) => 0,
        Ok(false) => 1,
        Err(_) => 2,
    }
}

/// Returns what the line of the version shows.
fn version_shown(alloc: Global, text: &str) -> Shown
    ensures { VersionLine text.now (is_value_of result) (shown_text result) }
{
    match version::parse(alloc, text) {
        Ok(version) => printed_version(alloc, &version),
        Err(error) => Shown::Word(version_error_word(&error)),
    }
}

/// Returns the printed version, or the word for out of memory.
fn printed_version(alloc: Global, version: &Version) -> Shown
    ensures value { is_value_of result ≡ true → shown_text result
        ≡ version_text (version_value version.now) }
    ensures error { is_value_of result ≡ false → shown_text result ≡ codes "out-of-memory" }
{
    match version.to_string(alloc) {
        Ok(text) => Shown::Value(text),
        Err(_) => Shown::Word("out-of-memory"),
    }
}

/// Returns what the line of a range set in a mode shows.
fn range_shown(alloc: Global, text: &str, compat: Compat) -> Shown
    ensures { RangeLine compat text.now (is_value_of result) (shown_text result) }
{
    match RangeSet::parse(alloc, text, compat) {
        Ok(set) => printed_set(alloc, &set),
        Err(error) => Shown::Word(range_error_word(&error)),
    }
}

/// Returns the word for an error of a range string.
fn range_error_word(error: &RangeError) -> &'static str
    ensures { result.now ≡ range_error_word error.now }
{
    match error {
        RangeError::NotARange => "not-a-range",
        RangeError::NumberTooLarge => "number-too-large",
        RangeError::OutOfMemory => "out-of-memory",
    }
}

/// Returns the printed set, or the word for out of memory.
fn printed_set(alloc: Global, set: &RangeSet) -> Shown
    ensures value { is_value_of result ≡ true → shown_text result ≡ set_text (set_of set.now) }
    ensures error { is_value_of result ≡ false → shown_text result ≡ codes "out-of-memory" }
{
    match set.to_string(alloc) {
        Ok(text) => Shown::Value(text),
        Err(_) => Shown::Word("out-of-memory"),
    }
}

/// Returns the word for an error of a version string.
fn version_error_word(error: &parser::Error<'_>) -> &'static str
    ensures { result.now ≡ version_error_word (error_value error.now) }
{
    match error {
        parser::Error::UnexpectedEnd => "unexpected-end",
        parser::Error::UnexpectedToken(_) => "unexpected-token",
        parser::Error::Lexer(_) => "unexpected-char",
        parser::Error::MoreInput(_) => "more-input",
        parser::Error::EmptyPredicate => "empty-predicate",
        parser::Error::EmptyRange => "empty-range",
        parser::Error::OutOfMemory => "out-of-memory",
    }
}

impl Shown {
    /// Returns whether it is a printed value.
    fn is_value(&self) -> bool
        ensures { result ≡ is_value_of self.now }
    {
        matches!(self, Shown::Value(_))
    }

    /// Returns its string.
    fn as_str(&self) -> &str
        ensures { result.now ≡ shown_text self.now }
    {
        match self {
            Shown::Value(text) => text.as_str(),
            Shown::Word(word) => word,
        }
    }
}

/// Writes one line: the label, what is shown, and a line feed.
fn write_line<W: Write>(out: &mut W, label: &str, shown: &Shown) -> io::Result<()>
    ensures { WritesOrBegins (W.contents out.old) (W.contents out.new) result
        (line label.now (shown_text shown.now)) }
{
    write_text(out, label)?;
    write_text(out, shown.as_str())?;
    write_text(out, "\n")
}

/// Writes all of a string.
fn write_text<W: Write>(out: &mut W, text: &str) -> io::Result<()>
    ensures { WritesOrBegins (W.contents out.old) (W.contents out.new) result text.now }
{
    write_whole(out, text.as_bytes())
}
