//! Writes a range as a requirement.

ghost use Rattle.std.specs.Prelude.{◌≡◌, IfOk, IfSome, string_bytes, true};
ghost use Rattle.requirements.specs.Requirements.{IsRequirementOf};

use crate::intervals::{Interval, intervals, joined, paired, write};
use semver_ranges::{Range, RangeError};
use std::alloc::{AllocError, Global};
use tool_ranges::version_range::VersionRange;

/// What is tried, in this order.
const WAYS: [Way; 5] = [
    Way::Releases,
    Way::PreReleases,
    Way::Joined,
    Way::Paired,
    Way::Nothing,
];

/// A way to write the intervals of a range.
#[derive(Clone, Copy)]
enum Way {
    /// The intervals of releases.
    Releases,
    /// The intervals of pre-releases, whose bounds may be pre-releases.
    PreReleases,
    /// Intervals of pre-releases joined to the intervals of releases that they touch.
    Joined,
    /// Each interval of releases with those bounds of an interval of pre-releases that are at the
    /// same place.
    Paired,
    /// A range that contains no version.
    Nothing,
}

// Determined by: free, which string that reads back, or none: ../../rust/tests/layers/stdin.
/// Returns a string that reads back as a range that contains the same versions, by the same rules,
/// or `None` if none was found. It is in the syntax of the range's dialect.
///
/// The range of `^1.2.3-b` gives `>=1.2.3-b <2.0.0` in npm's dialect, and `>=1.2.3-b, <2.0.0` in
/// Cargo's.
///
/// # Errors
///
/// `AllocError` if an allocation fails.
pub fn requirement(alloc: Global, range: &VersionRange) -> Result<Option<String>, AllocError>
    // The string is a range in the range's dialect, and contains the same versions.
    ensures reads_back { IfOk result (λ o.
        IfSome o (λ s. IsRequirementOf range.now (string_bytes s))) }
{
    let releases = range.versions().release_ranges(alloc)?;
    let pre_releases = range.versions().pre_release_ranges(alloc)?;
    let releases = releases.range_set.ranges.as_slice();
    let pre_releases = pre_releases.range_set.ranges.as_slice();
    for way in WAYS {
        let written = written(alloc, way, range, releases, pre_releases)?;
        if reads_back(alloc, range, written.as_str())? {
            return Ok(Some(written));
        }
    }
    Ok(None)
}

/// Returns the intervals of a range, written in one way.
fn written(
    alloc: Global,
    way: Way,
    range: &VersionRange,
    releases: &[Range],
    pre_releases: &[Range],
) -> Result<String, AllocError> {
    let all = match way {
        Way::Releases => intervals(alloc, releases)?,
        Way::PreReleases => intervals(alloc, pre_releases)?,
        Way::Joined => joined(alloc, releases, pre_releases)?,
        Way::Paired => paired(alloc, releases, pre_releases)?,
        Way::Nothing => Vec::new(alloc),
    };
    write(alloc, all.as_slice(), range.rules().dialect.joint())
}

/// Returns whether a string reads back as a range that contains the same versions.
fn reads_back(alloc: Global, range: &VersionRange, text: &str) -> Result<bool, AllocError>
    ensures { IfOk result (λ same. same ≡ true → IsRequirementOf range.now text.now) }
{
    match VersionRange::parse(alloc, text, range.rules()) {
        Ok(read) => Ok(*read.versions() == *range.versions()),
        Err(RangeError::OutOfMemory) => Err(AllocError),
        Err(RangeError::NotARange | RangeError::NumberTooLarge) => Ok(false),
    }
}
