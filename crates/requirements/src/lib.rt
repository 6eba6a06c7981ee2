//! A range as a string that reads back as the same range.
#![tactic(auto)]

mod intervals;
pub mod requirement;
