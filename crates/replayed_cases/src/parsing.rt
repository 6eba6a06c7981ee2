//! Calls on one parser, step by step.

use super::{lexing, versions};
use semver_parser::lexer;
use semver_parser::parser::{Error, Parser};
use std::alloc::Global;
use std::io;
use std::io::Write;

/// Creates a parser and writes what each of the steps returns.
pub fn write_steps<W: Write>(
    alloc: Global,
    text: &str,
    steps: &str,
    out: &mut W,
) -> io::Result<()> {
    let mut parser = match Parser::new(text) {
        Ok(parser) => parser,
        Err(error) => return write_error(&error, out),
    };
    for (i, step) in steps.split(',').enumerate() {
        if i > 0 {
            write!(out, "; ")?;
        }
        write_step(alloc, &mut parser, step, out)?;
    }
    Ok(())
}

fn write_step<W: Write>(
    alloc: Global,
    parser: &mut Parser<'_>,
    step: &str,
    out: &mut W,
) -> io::Result<()> {
    match step {
        "component" => match parser.component() {
            Ok(component) => write_component(component, out),
            Err(error) => write_error(&error, out),
        },
        "numeric" => write_number(parser.numeric(), out),
        "dot_numeric" => write_number(parser.dot_numeric(), out),
        "dot_component" => match parser.dot_component() {
            Ok((component, is_wildcard)) => {
                write_component(component, out)?;
                write!(out, " {is_wildcard}")
            }
            Err(error) => write_error(&error, out),
        },
        "is_eof" => {
            let is_eof = parser.is_eof();
            write!(out, "{is_eof}")
        }
        "tail" => match parser.tail(alloc) {
            Ok(tokens) => {
                write!(out, "[")?;
                lexing::write_tokens(tokens.as_slice(), out)?;
                write!(out, "]")
            }
            Err(error) => write_error(&error, out),
        },
        "identifier" => match parser.identifier(alloc) {
            Ok(identifier) => versions::write_identifier(&identifier, out),
            Err(error) => write_error(&error, out),
        },
        "version" => versions::write_version(&parser.version(alloc), out),
        _ => write!(out, "no such step"),
    }
}

fn write_component<W: Write>(component: Option<u64>, out: &mut W) -> io::Result<()> {
    match component {
        Some(number) => write!(out, "{number}"),
        None => write!(out, "wildcard or none"),
    }
}

fn write_number<W: Write>(answer: Result<u64, Error<'_>>, out: &mut W) -> io::Result<()> {
    match answer {
        Ok(number) => write!(out, "{number}"),
        Err(error) => write_error(&error, out),
    }
}

/// Writes an error with the names of its parts.
pub fn write_error<W: Write>(error: &Error<'_>, out: &mut W) -> io::Result<()> {
    match error {
        Error::UnexpectedToken(token) => {
            write!(out, "UnexpectedToken(")?;
            lexing::write_token(token, out)?;
            write!(out, ")")
        }
        Error::Lexer(lexer::Error::UnexpectedChar(character)) => write!(out, "Lexer({character})"),
        Error::MoreInput(tokens) => {
            write!(out, "MoreInput(")?;
            lexing::write_tokens(tokens.as_slice(), out)?;
            write!(out, ")")
        }
        other => write!(out, "{other:?}"),
    }
}
