//! Where and why a string is not a range: the longest prefix with which a range of a dialect
//! begins, the reason of the error, and the number that is too large.
#![tactic(auto)]

pub mod laws;
mod limit;
mod offset;
mod reasons;
pub mod refusals;
