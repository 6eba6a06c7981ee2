//! Decides whether a version satisfies a range, both given as strings.

ghost use Rattle.tool_ranges.specs.Satisfying.{Satisfies};

use crate::meaning::{self, Rules};
use semver_ranges::RangeError;
use semver_versions::version::read_ref_in;
use thiserror::Error;

/// Whether the version or the range is invalid.
#[derive(Clone, Copy, PartialEq, Eq, Debug, Error)]
pub enum SatisfiesError {
    /// The version is invalid in the dialect.
    #[error("invalid version")]
    InvalidVersion,
    /// The string is not a range in the dialect, or one of its numbers is too large.
    #[error("invalid range: {0}")]
    InvalidRange(RangeError),
}

// Determined by: law tool_ranges::laws::one_satisfies.
/// Returns whether a version satisfies a range, both in the dialect of the meaning. It does not
/// allocate.
///
/// # Errors
///
/// `InvalidVersion` if the version is invalid in the dialect; otherwise `InvalidRange` if the range
/// is invalid, or one of its numbers is too large.
#[inline(always)]
pub fn satisfies(version: &[u8], range: &str, meaning: Rules) -> Result<bool, SatisfiesError>
    ensures answer { Satisfies meaning version.now range.now result }
{
    let Some(borrowed) = read_ref_in(version, meaning.dialect.grammar()) else {
        return Err(SatisfiesError::InvalidVersion);
    };
    match meaning::satisfies(&borrowed, range, meaning) {
        Ok(met) => Ok(met),
        Err(error) => Err(SatisfiesError::InvalidRange(error)),
    }
}
