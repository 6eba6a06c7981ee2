//! The error of the Rust crate: what it says, and what it prints.
#![tactic(auto)]

pub mod conversions;
pub mod error;
pub mod names;
pub mod printing;

pub use error::{Error, Kind};
