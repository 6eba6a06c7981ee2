//! Laws: each is a function that exists only for its clauses.

ghost use Rattle.range_upgrades.specs.OneResult.{AreOne};
ghost use Rattle.std.specs.Prelude.{string_bytes};

use crate::upgrade::{UpgradeError, upgrade};
use std::alloc::Global;
use tool_ranges::meaning::Rules;

/// `upgrade` has only one permitted result, unless an allocation fails.
pub fn one_upgrade(
    alloc: Global,
    range: &str,
    version: &[u8],
    meaning: Rules,
) -> (
    Result<Option<String>, UpgradeError>,
    Result<Option<String>, UpgradeError>,
)
    ensures one { AreOne string_bytes result.0 result.1 }
{
    let first = upgrade(alloc, range, version, meaning);
    let second = upgrade(alloc, range, version, meaning);
    (first, second)
}
