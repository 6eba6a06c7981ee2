//! Values printed to a writer that fails.
use super::writers::{ALL_AT_ONCE, Limited, Refusal};
use semver_parser::parser::{Error, Parser};
use semver_parser::{Comparator, Compat, Range, RangeError, RangeSet, version};
use std::alloc::Global;
use std::fmt::Write;
use std::{fmt, io};

/// Writes which identifiers and versions are printed as wanted.
pub fn write_versions(rt: &impl Print, alloc: Global) -> io::Result<()> {
    for text in ["0", "7", "beta", "01", "a-b-1"] {
        let Ok(mut parser) = Parser::new(text) else {
            continue;
        };
        if let Ok(identifier) = parser.identifier(alloc) {
            write_printed(rt, alloc, &identifier, text)?;
        }
    }
    for text in [
        "1.2.3",
        "1.2.3-a",
        "1.2.3-7.beta.x",
        "1.2.3+01",
        "1.2.3+1.b.2",
        "10.0.18446744073709551615-7.beta+01.a-b",
    ] {
        match version::parse(alloc, text) {
            Ok(version) => write_printed(rt, alloc, &version, text)?,
            Err(error) => println!(rt; "{error}")?,
        }
    }
    Ok(())
}

/// Writes which sets are printed as wanted, and their ranges, the comparators of these, and the
/// parts of these.
pub fn write_sets(rt: &impl Print, alloc: Global) -> io::Result<()> {
    let ranges = Vec::new(alloc);
    let compat = Compat::Npm;
    write_printed(rt, alloc, &RangeSet { ranges, compat }, "")?;
    let comparator_set = Vec::new(alloc);
    let no_comparators = Range {
        comparator_set,
        compat,
    };
    write_printed(rt, alloc, &no_comparators, "")?;
    for text in [
        "=1.2.3",
        ">=1.2.3-7.beta <2.0.0 || =4.5.6-a",
        "<1.0.0 <=1.0.0 >1.0.0 || >=1.0.0-1.b.2 || =0.0.18446744073709551615",
    ] {
        match RangeSet::parse(alloc, text, Compat::Npm) {
            Ok(set) => {
                write_printed(rt, alloc, &set, text)?;
                for (range, text) in set.ranges.iter().zip(text.split(" || ")) {
                    write_range(rt, alloc, range, text)?;
                }
            }
            Err(error) => println!(rt; "{error}")?,
        }
    }
    Ok(())
}

fn write_range(rt: &impl Print, alloc: Global, range: &Range, text: &str) -> io::Result<()> {
    write_printed(rt, alloc, range, text)?;
    for (comparator, text) in range.comparator_set.iter().zip(text.split(' ')) {
        write_comparator(rt, alloc, comparator, text)?;
    }
    Ok(())
}

fn write_comparator(
    rt: &impl Print,
    alloc: Global,
    comparator: &Comparator,
    text: &str,
) -> io::Result<()> {
    write_printed(rt, alloc, comparator, text)?;
    let version = text.trim_start_matches(['<', '>', '=']);
    let operator = text.strip_suffix(version).unwrap_or(text);
    write_printed(rt, alloc, &comparator.op, operator)?;
    if let Some((_, pre)) = text.split_once('-') {
        for (identifier, text) in comparator.pre.iter().zip(pre.split('.')) {
            write_printed(rt, alloc, identifier, text)?;
        }
    }
    Ok(())
}

/// Writes which errors are printed as wanted: those that reading a version returns, and those made
/// by hand.
pub fn write_errors(rt: &impl Print, alloc: Global) -> io::Result<()> {
    for (text, sentence) in [
        ("1.2", "expected more input"),
        ("a.b.c", "encountered unexpected token: AlphaNumeric(\"a\")"),
        ("1é", "lexer error: UnexpectedChar('é')"),
        (
            "1.2.3 a 7",
            "expected end of input, but got: [AlphaNumeric(\"a\"), Whitespace(7, 8), Numeric(7)]",
        ),
    ] {
        if let Err(error) = version::parse(alloc, text) {
            write_error(rt, alloc, &error, sentence)?;
        }
    }
    write_error(
        rt,
        alloc,
        &Error::EmptyPredicate,
        "encountered empty predicate",
    )?;
    write_error(rt, alloc, &Error::EmptyRange, "encountered empty range")?;
    write_error(rt, alloc, &Error::OutOfMemory, "out of memory")?;
    write_printed(rt, alloc, &RangeError::NotARange, "not a range")?;
    write_printed(rt, alloc, &RangeError::NumberTooLarge, "number too large")?;
    write_printed(rt, alloc, &RangeError::OutOfMemory, "out of memory")
}

/// Writes whether the error is printed as its sentence, and its text.
fn write_error(
    rt: &impl Print,
    alloc: Global,
    error: &Error<'_>,
    sentence: &str,
) -> io::Result<()> {
    if error.text(alloc)?.as_str() != sentence {
        println!(rt; "[{sentence}] is not the text of the error")?;
    }
    write_printed(rt, alloc, error, sentence)
}

/// Writes the string, and whether the value is printed as that.
fn write_printed<T: fmt::Display>(
    rt: &impl Print,
    alloc: Global,
    value: &T,
    text: &str,
) -> io::Result<()> {
    for left in 0..=text.len() {
        if !prints(alloc, value, text, left) {
            return println!(rt; "[{text}] is wrong at a writer of {left} bytes");
        }
    }
    println!(rt; "[{text}] prints")
}

/// Returns whether the value is printed as the string to a writer that takes `left` bytes: all of
/// it if that is enough, and otherwise a prefix, an error, and nothing more.
fn prints<T: fmt::Display>(alloc: Global, value: &T, text: &str, left: usize) -> bool {
    let mut out = Limited::new(alloc, left, ALL_AT_ONCE, Refusal::Fail);
    let is_printed = write!(out, "{value}").is_ok();
    let is_whole = out.taken.as_slice() == text.as_bytes();
    let is_front = text.as_bytes().starts_with(out.taken.as_slice());
    let is_enough = left == text.len();
    is_printed == is_enough && is_whole == is_enough && is_front && out.late_calls == 0
}
