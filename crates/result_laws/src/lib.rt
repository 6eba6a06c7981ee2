//! Laws that the contracts determine the results: two results for the same inputs are equal as
//! values, or one is a value and the other is out of memory. Each law makes its call twice, and its
//! proof uses only the clauses of the called function. No program contains this crate.
#![tactic(auto)]

pub mod errors;
pub mod filters;
pub mod ranges;
pub mod repairs;
pub mod sets;
pub mod texts;
pub mod version_ranges;
pub mod versions;
