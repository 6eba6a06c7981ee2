//! A range string as plain data: [`RangeSet::parse`] reads ranges, one of which a version has to
//! satisfy, in the mode of Cargo or npm, and rewrites `^`, `~`, wildcards and hyphens to
//! comparators.

pub use semver_ranges::{RangeError, RangeSet};
