//! Range strings in each dialect: how they are read, the table of the sides of each term, and a
//! `RangeSet` of plain comparators.
//!
//! Hints for speed: the functions that read a byte of most strings, those that make a term, and the
//! table, are `inline(always)`, with one copy for each loop, so what they read stays in registers.
//! Without the hints in one of `grammar`, `partial`, `table` and `events`, range sets took 13
//! to 27 % more instructions, and single terms up to 20 %. Functions that few strings need are
//! `inline(never)`, since they would make those copies larger: for reading pre-releases this was
//! 1 %. Other hints made no difference, so there are none.
#![tactic(auto)]

mod cargo;
pub mod checked;
pub mod comparing;
pub mod cursor;
pub mod dialect;
pub mod events;
pub mod grammar;
pub mod laws;
mod npm_lengths;
pub mod operator;
pub mod partial;
mod range;
mod range_set;
pub mod rewriting;
pub mod table;
pub mod term;

pub use range::{Comparator, Compat, Identifier, Op, Range};
pub use range_set::{RangeError, RangeSet};
