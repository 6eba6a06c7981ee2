//! The derived orders: the cases of an enum in the order of declaration, and the fields of a struct
//! from the first one.
use semver_parser::lexer::{self, Token};
use semver_parser::parser::Error;
use semver_parser::version::Version;
use semver_parser::{Compat, Op, RangeSet, version};
use std::alloc::Global;
use std::io;

/// A range whose comparators are in order.
const COMPARATORS: &str = "<1.1.1-1 <=0.1.1-1 <=1.0.1-1 <=1.1.0-1 <=1.1.1-0 <=1.1.1-1 >1.0.0 \
    >=1.0.0 =1.0.0-9.10.1a.A.a.aa";

/// Writes how many values of each enum are in order.
pub fn write_enums(rt: &impl Print, alloc: Global) -> io::Result<()> {
    let tokens = [
        Token::Eq,
        Token::Gt,
        Token::Lt,
        Token::LtEq,
        Token::GtEq,
        Token::Caret,
        Token::Tilde,
        Token::Star,
        Token::Dot,
        Token::Comma,
        Token::Hyphen,
        Token::Plus,
        Token::Or,
        Token::Whitespace(0, 9),
        Token::Whitespace(1, 2),
        Token::Whitespace(1, 3),
        Token::Numeric(9),
        Token::Numeric(10),
        Token::AlphaNumeric(""),
        Token::AlphaNumeric("a"),
    ];
    write_order(rt, "Token", &tokens)?;
    let characters = [
        lexer::Error::UnexpectedChar('/'),
        lexer::Error::UnexpectedChar('é'),
    ];
    write_order(rt, "lexer::Error", &characters)?;
    let errors = [
        Error::UnexpectedEnd,
        Error::UnexpectedToken(Token::AlphaNumeric("z")),
        Error::Lexer(lexer::Error::UnexpectedChar('é')),
        Error::MoreInput(Vec::new(alloc)),
        Error::EmptyPredicate,
        Error::EmptyRange,
        Error::OutOfMemory,
    ];
    write_order(rt, "parser::Error", &errors)?;
    write_order(rt, "Op", &[Op::Lt, Op::Lte, Op::Gt, Op::Gte, Op::Eq])?;
    write_order(rt, "Compat", &[Compat::Cargo, Compat::Npm])
}

/// Writes how many versions and sets, and their parts, are in order.
pub fn write_structs(rt: &impl Print, alloc: Global) -> io::Result<()> {
    let mut versions: Vec<Version> = Vec::new(alloc);
    // The first five have a 0 in one field each: the earlier the field, the lower the version.
    for text in [
        "0.1.1-1+1",
        "1.0.1-1+1",
        "1.1.0-1+1",
        "1.1.1-0+1",
        "1.1.1-1+0",
        "1.1.1-1+1",
        "1.1.1-9.10.18446744073709551615.01.A.a.aa",
    ] {
        if let Ok(version) = version::parse(alloc, text) {
            versions.push(version)?;
        }
    }
    write_order(rt, "Version", &versions)?;
    if let Some(last) = versions.last() {
        write_order(rt, "version::Identifier", &last.pre)?;
    }
    let mut sets: Vec<RangeSet> = Vec::new(alloc);
    for (text, compat) in [
        (COMPARATORS, Compat::Npm),
        ("<=1.0.0", Compat::Cargo),
        ("<=1.0.0", Compat::Npm),
    ] {
        if let Ok(set) = RangeSet::parse(alloc, text, compat) {
            sets.push(set)?;
        }
    }
    if let Some(range) = sets.first().and_then(|set| set.ranges.first()) {
        write_order(rt, "Comparator", &range.comparator_set)?;
        if let Some(last) = range.comparator_set.last() {
            write_order(rt, "Identifier", &last.pre)?;
        }
    }
    write_order(rt, "RangeSet", &sets)
}

/// Writes how many values there are, and whether each is below the next.
fn write_order<T: Ord>(rt: &impl Print, name: &str, values: &[T]) -> io::Result<()> {
    let count = values.len();
    let mut are_ascending = true;
    for (lower, upper) in values.iter().zip(values.iter().skip(1)) {
        if lower >= upper {
            are_ascending = false;
        }
    }
    println!(rt; "{count} of {name} in order: {are_ascending}")
}
