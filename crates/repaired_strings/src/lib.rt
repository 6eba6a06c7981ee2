//! The part of a string that an error is about, and the string with its errors repaired.
#![tactic(auto)]

pub mod errors;
pub mod laws;
pub mod repairs;
pub mod spans;
