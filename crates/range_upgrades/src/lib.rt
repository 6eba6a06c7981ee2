//! Raises a requirement to a newer version, and keeps how it is written.
#![tactic(auto)]

mod alternatives;
pub mod laws;
mod raised_ranges;
mod raised_versions;
pub mod upgrade;
