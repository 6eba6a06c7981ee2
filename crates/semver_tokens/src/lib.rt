//! Version strings as tokens: signs, white space, numbers, and other sequences of letters and
//! digits; and a parser with one token of lookahead, which reads numbers, components, identifiers
//! and versions.
#![tactic(auto)]

pub mod laws;
pub mod lexer;
pub mod parser;
