//! Reads version strings in three dialects, either as a borrowed version, without allocating, or as
//! a `Version`.
#![tactic(auto)]

pub mod comparing;
pub mod identifiers;
pub mod laws;
pub mod owned;
pub mod placed;
pub mod read_version;
mod reader;
pub mod version;
mod version_order;
mod version_ref;
