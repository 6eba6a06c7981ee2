//! Where and why a string is invalid. The error is after the longest prefix with which some valid
//! string begins, and the reason says what is wrong with the character there.
//!
//! A language decides which strings belong to it, and which few strings complete a prefix, so there
//! is no second grammar. The versions of each dialect are such a language. Only `refusals::explain`
//! and `longest::longest_prefix` allocate.
#![tactic(auto)]

pub mod buffers;
mod bytes;
pub mod escaped;
pub mod laws;
pub mod longest;
pub mod prefix_bytes;
pub mod reasons;
pub mod refusals;
mod versions;
