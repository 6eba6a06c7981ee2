//! A range as plain data, and how it is printed: comparators, all of which a version has to
//! satisfy.

pub use semver_ranges::{Comparator, Compat, Identifier, Op, Range};
