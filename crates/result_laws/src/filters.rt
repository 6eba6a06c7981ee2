//! Functions that filter versions.

ghost use Rattle.std.specs.Prelude.{map};
ghost use Rattle.result_laws.specs.OneResult.{AreOne};

use release_filter::filter_text;
use semver_parser::version::Version;
use semver_parser::{Compat, RangeError};
use std::alloc::Global;

/// `filter_text` has only one permitted result.
pub fn one_filter_text<'v>(
    alloc: Global,
    text: &str,
    compat: Compat,
    versions: &'v [Version],
) -> (
    Result<Vec<&'v Version>, RangeError>,
    Result<Vec<&'v Version>, RangeError>,
)
    ensures one { AreOne RangeError.OutOfMemory (λ kept. map (λ v. v.now) kept.items) result.0
        result.1 }
{
    (
        filter_text(alloc, text, compat, versions),
        filter_text(alloc, text, compat, versions),
    )
}
