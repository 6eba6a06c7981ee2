//! Shared by the programs `release-filter` and `compare-ranges`: the options for the dialect and
//! for pre-releases, the messages of a program about itself and about errors, and how it writes.
#![tactic(auto)]

mod error;
mod excerpt;
mod options;
mod program;
mod refused;

pub use error::{ArgumentError, Quoted};
pub use options::{MeaningOptions, take_once};
pub use program::Program;
pub use refused::refused_line;
pub use semver_texts::writing::write_whole;
