//! Tokens, written with the names of their variants.

use semver_parser::lexer::{Error, Lexer, Token};
use std::io;
use std::io::Write;

/// Writes the items of a lexer, and then the results of two more calls.
pub fn write_lexed<W: Write>(text: &str, out: &mut W) -> io::Result<()> {
    let mut lexer = Lexer::new(text);
    for item in lexer.by_ref() {
        match item {
            Ok(token) => write_token(&token, out)?,
            Err(Error::UnexpectedChar(character)) => write!(out, "UnexpectedChar({character})")?,
        }
        write!(out, " ")?;
    }
    if lexer.next().is_some() || lexer.next().is_some() {
        return write!(out, "more");
    }
    write!(out, "end")
}

/// Writes each token of a string, and whether it is white space or a wildcard.
pub fn write_kinds<W: Write>(text: &str, out: &mut W) -> io::Result<()> {
    let mut first = true;
    for item in Lexer::new(text) {
        if !first {
            write!(out, ", ")?;
        }
        first = false;
        match item {
            Ok(token) => write_kind(&token, out)?,
            Err(Error::UnexpectedChar(character)) => write!(out, "UnexpectedChar({character})")?,
        }
    }
    Ok(())
}

fn write_kind<W: Write>(token: &Token<'_>, out: &mut W) -> io::Result<()> {
    write_token(token, out)?;
    let kind = match (token.is_wildcard(), token.is_whitespace()) {
        (true, true) => "both",
        (true, false) => "wildcard",
        (false, true) => "white space",
        (false, false) => "neither",
    };
    write!(out, ": {kind}")
}

/// Writes a token.
pub fn write_token<W: Write>(token: &Token<'_>, out: &mut W) -> io::Result<()> {
    match token {
        Token::Whitespace(first, after) => write!(out, "Whitespace({first},{after})"),
        Token::Numeric(number) => write!(out, "Numeric({number})"),
        Token::AlphaNumeric(word) => write!(out, "AlphaNumeric({word})"),
        sign => write!(out, "{sign:?}"),
    }
}

/// Writes tokens, separated by spaces.
pub fn write_tokens<W: Write>(tokens: &[Token<'_>], out: &mut W) -> io::Result<()> {
    for (i, token) in tokens.iter().enumerate() {
        if i > 0 {
            write!(out, " ")?;
        }
        write_token(token, out)?;
    }
    Ok(())
}
