//! The tokens of a string: its signs, its white space, and its sequences of ASCII letters and
//! digits.
//!
//! The string is read as bytes, from the left. A non-ASCII character is decoded only to be named in
//! an error. Nothing here allocates: tokens with a string borrow it from the input.
ghost use Rattle.std.specs.Prelude.{◌^◌, [], ◌≡◌, ◌+◌, ◌<◌, length, option_map};
ghost use Rattle.semver_tokens.specs.Tokens.{is_whitespace};
ghost use Rattle.semver_texts.specs.Texts.{IsRun};
ghost use Rattle.semver_tokens.specs.Steps.Scanning.{component, sign, first_token};
ghost use Rattle.semver_tokens.specs.Views.{token_value};
ghost use Rattle.semver_tokens.specs.ParserState.{IsStateFrom};

use semver_texts::bytes::{is_space, run_len, space_len};
use semver_texts::decimals::whole_number;
use std::marker::Model;

/// A token. If both are possible, a token of two characters is preferred to one of a single
/// character.
///
/// ```
/// use semver_parser::lexer::{Lexer, Token};
///
/// let tokens: Vec<_> = Lexer::new("<=1.x").map(Result::unwrap).collect();
/// assert_eq!(tokens, [Token::LtEq, Token::Numeric(1), Token::Dot, Token::AlphaNumeric("x")]);
/// ```
#[derive(Clone, Copy, Debug, PartialEq, Eq, PartialOrd, Ord)]
pub enum Token<'input> {
    /// `=`
    Eq,
    /// `>`
    Gt,
    /// `<`
    Lt,
    /// `<=`
    LtEq,
    /// `>=`
    GtEq,
    /// `^`
    Caret,
    /// `~`
    Tilde,
    /// `*`
    Star,
    /// `.`
    Dot,
    /// `,`
    Comma,
    /// `-`
    Hyphen,
    /// `+`
    Plus,
    /// `||`
    Or,
    /// Spaces, tabs, line feeds and carriage returns, as many as there are: the offset of the first
    /// byte, and the offset after the last.
    Whitespace(usize, usize),
    /// ASCII letters and digits, as many as there are, if they are the canonical decimal of a
    /// number up to 2^64 - 1: `0`, or digits that don't begin with `0`.
    Numeric(u64),
    /// Any other ASCII letters and digits, as many as there are, as a slice of the input: `beta2`,
    /// `01`, `18446744073709551616`.
    AlphaNumeric(&'input str),
}

impl<'input> Token<'input> {
    ghost use Rattle.semver_tokens.specs.Tokens.{is_wildcard};

    // Determined by: equation.
    /// Returns whether the token is white space of any length.
    ///
    /// ```
    /// use semver_parser::lexer::Token;
    ///
    /// assert!(Token::Whitespace(0, 2).is_whitespace());
    /// assert!(!Token::Dot.is_whitespace());
    /// ```
    #[must_use]
    #[inline(always)]
    pub fn is_whitespace(&self) -> bool
        ensures white_space { result ≡ is_whitespace (token_value self.now) }
    {
        matches!(self, Token::Whitespace(_, _))
    }

    // Determined by: equation.
    /// Returns whether the token is a wildcard: `*`, `x` or `X`.
    ///
    /// ```
    /// use semver_parser::lexer::Token;
    ///
    /// assert!(Token::Star.is_wildcard() && Token::AlphaNumeric("x").is_wildcard());
    /// assert!(!Token::AlphaNumeric("xx").is_wildcard());
    /// ```
    #[must_use]
    #[inline(always)]
    pub fn is_wildcard(&self) -> bool
        ensures wildcard { result ≡ is_wildcard (token_value self.now) }
    {
        matches!(self, Token::Star | Token::AlphaNumeric("x" | "X"))
    }
}

/// Why a string has no further token.
///
/// ```
/// use semver_parser::lexer::{Error, Lexer};
///
/// assert_eq!(Lexer::new("|").next(), Some(Err(Error::UnexpectedChar('|'))));
/// ```
#[derive(Clone, Copy, Debug, PartialEq, Eq, PartialOrd, Ord)]
pub enum Error {
    /// A character that begins no token. This includes a `|` that isn't followed by a second one.
    UnexpectedChar(char),
}

/// Returns the sign with which two bytes begin, and its length.
#[inline(always)]
#[tactic(auto, unfolding(crate::specs::Steps::Scanning::sign))]
fn sign<'input>(first: u8, second: u8) -> Option<(Token<'input>, usize)>
    ensures { option_map (λ x. (token_value x.0, x.1)) result ≡ sign first second }
{
    match (first, second) {
        (b'=', _) => Some((Token::Eq, 1)),
        (b'>', b'=') => Some((Token::GtEq, 2)),
        (b'>', _) => Some((Token::Gt, 1)),
        (b'<', b'=') => Some((Token::LtEq, 2)),
        (b'<', _) => Some((Token::Lt, 1)),
        (b'^', _) => Some((Token::Caret, 1)),
        (b'~', _) => Some((Token::Tilde, 1)),
        (b'*', _) => Some((Token::Star, 1)),
        (b'.', _) => Some((Token::Dot, 1)),
        (b',', _) => Some((Token::Comma, 1)),
        (b'-', _) => Some((Token::Hyphen, 1)),
        (b'+', _) => Some((Token::Plus, 1)),
        (b'|', b'|') => Some((Token::Or, 2)),
        _ => None,
    }
}

/// Returns the token of a sequence of letters and digits.
#[inline(always)]
#[tactic(auto, unfolding(crate::specs::Steps::Scanning::component))]
fn component<'input>(run: &'input str) -> Token<'input>
    requires { IsRun run.now }
    ensures { token_value result ≡ component run.now }
{
    match whole_number(run) {
        Some(number) => Token::Numeric(number),
        None => Token::AlphaNumeric(run),
    }
}

/// Returns the token at the beginning of the rest of a string, if there is one, and its length.
/// `start` is the offset of the rest.
#[inline(always)]
fn front_token<'input>(rest: &'input str, start: usize) -> Option<(Token<'input>, usize)>
    requires { start + length rest.now < 2 ^ 64 }
    ensures { option_map (λ x. (token_value x.0, x.1)) result ≡ first_token start rest.now }
{
    let bytes = rest.as_bytes();
    let first = *bytes.first()?;
    if first.is_ascii_alphanumeric() {
        let len = run_len(bytes);
        return Some((component(&rest[..len]), len));
    }
    if is_space(first) {
        let len = space_len(bytes);
        return Some((Token::Whitespace(start, start + len), len));
    }
    let second = if bytes.len() > 1 { bytes[1] } else { 0 };
    sign(first, second)
}

/// Returns the tokens of a string one after the other, then at most one error, and then only
/// `None`.
///
/// It stores the string, the offset, and whether the error was returned.
///
/// ```
/// use semver_parser::lexer::{Error, Lexer, Token};
///
/// let mut lexer = Lexer::new("foo / *");
/// assert_eq!(lexer.next(), Some(Ok(Token::AlphaNumeric("foo"))));
/// assert_eq!(lexer.next(), Some(Ok(Token::Whitespace(3, 4))));
/// assert_eq!(lexer.next(), Some(Err(Error::UnexpectedChar('/'))));
/// assert_eq!(lexer.next(), None);
/// ```
#[derive(Debug, Drop)]
pub struct Lexer<'input> {
    input: &'input str,
    position: usize,
    failed: bool,
}

impl<'input> Model for Lexer<'input> {
    ghost use Rattle.std.specs.Prelude.{IsCharBoundary};
    ghost use Rattle.semver_tokens.specs.ParserState.{ParserState};
    ghost use Rattle.semver_tokens.specs.Steps.Scanning.{state_left};

    ghost Value = { ParserState };

    ghost view = { λ l. state_left l.input.now l.position l.failed };

    ghost invariant = { λ l. IsCharBoundary l.input.now l.position };
}

impl<'input> Lexer<'input> {
    ghost use Rattle.semver_tokens.specs.ParserState.{IsStateOf};

    // Determined by: law result_laws::versions::one_lexer.
    /// Returns a lexer at the beginning of a string, which can be any string.
    ///
    /// ```
    /// use semver_parser::lexer::{Lexer, Token};
    ///
    /// assert_eq!(Lexer::new("^1").next(), Some(Ok(Token::Caret)));
    /// assert_eq!(Lexer::new("").next(), None);
    /// ```
    #[must_use]
    #[inline(always)]
    pub fn new(input: &str) -> Lexer<'_>
        ensures state { IsStateOf input.now result }
    {
        Lexer {
            input,
            position: 0,
            failed: false,
        }
    }
}

// Determined by: equation.
impl<'input> Iterator for Lexer<'input> {
    ghost use Rattle.std.specs.Iterator.{YieldsFirstBy, item_count};
    ghost use Rattle.semver_tokens.specs.Views.{item_value, items_left};

    type Item = Result<Token<'input>, Error>;

    ghost next_gives = { YieldsFirstBy item_value items_left };

    ghost remaining = { item_count items_left };

    /// Returns the next token. If no token begins there, it returns the error with the character,
    /// once. At the end, and after the error, it returns `None`. It does not allocate.
    ///
    /// For `1é2` it returns `Ok(Numeric(1))`, `Err(UnexpectedChar('é'))`, and then `None` each
    /// time.
    #[inline(always)]
    fn next(&mut self) -> Option<Result<Token<'input>, Error>> {
        if self.failed {
            return None;
        }
        let rest = &self.input[self.position..];
        if let Some((token, len)) = front_token(rest, self.position) {
            self.position += len;
            return Some(Ok(token));
        }
        let character = rest.chars().next()?;
        self.failed = true;
        Some(Err(Error::UnexpectedChar(character)))
    }
}

// Determined by: equation.
/// Returns a lexer that has the same items left.
#[must_use]
#[inline(always)]
pub fn copy<'input>(lexer: &Lexer<'input>) -> Lexer<'input>
    ensures same { result ≡ lexer.now }
    ensures small { length lexer.now.remaining < 2 ^ 63 }
{
    Lexer {
        input: lexer.input,
        position: lexer.position,
        failed: lexer.failed,
    }
}

// Determined by: free, which text: must-fail/rest_begins_at_the_start_of_the_text.edit.
/// Returns the string from the first remaining token to the end of the input. It is empty after the
/// error was returned. For `1.2`, after the first token, it is `.2`.
#[must_use]
#[inline(always)]
pub fn rest<'input>(lexer: &Lexer<'input>) -> &'input str
    ensures { IsStateFrom result.now lexer.now }
{
    if lexer.failed {
        return "";
    }
    &lexer.input[lexer.position..]
}

// Determined by: equation.
/// Returns the number of tokens that are left, and a lexer after the last of them. For `1.2/` the
/// number is 3, and the next item of the lexer is the error.
#[must_use]
pub fn count_tokens<'input>(lexer: &Lexer<'input>) -> (usize, Lexer<'input>)
    ensures count { result.0 ≡ length lexer.now.remaining }
    ensures small { result.0 < 2 ^ 63 }
    ensures end { result.1 ≡ record { remaining = []; pending = lexer.now.pending } }
{
    let mut end = copy(lexer);
    let mut count = 0;
    loop {
        let mut ahead = copy(&end);
        let Some(Ok(_)) = ahead.next() else {
            return (count, end);
        };
        end = ahead;
        count += 1;
    }
}
