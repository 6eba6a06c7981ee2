//! The example of README.md.

use semver_parser::{Compat, RangeError, RangeSet};
use std::alloc::Global;

pub fn write_operators(rt: &impl Print, alloc: Global) -> Result<(), RangeError> {
    let set = RangeSet::parse_exact(alloc, "^1.2.3-rc || 3.x", Compat::Cargo)?;
    for range in set.ranges.iter() {
        for comparator in range.comparator_set.iter() {
            let _ = println!(rt; "{} {}", comparator.op, comparator.major);
        }
    }
    Ok(())
}
