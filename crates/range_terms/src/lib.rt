//! The terms of a range string as plain data: what is written, and at which offsets.
#![tactic(auto)]

pub mod term;
pub mod terms;
