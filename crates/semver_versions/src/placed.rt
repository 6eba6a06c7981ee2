//! Versions without the strings that they were read from.

ghost use Rattle.std.specs.Prelude.{◌≡◌, []};
ghost use Rattle.semver_versions.specs.PlacedVersions.{IsPlacedIn, placed_of};
ghost use Rattle.semver_versions.specs.Steps.Reading.{ArePartTexts};
ghost use Rattle.semver_versions.specs.VersionRefs.{StandsAt, VersionRefValue};

use crate::version_ref::VersionRef;
use semver_texts::grammar::Digits;

/// A version that was read from a string, without the string: its numbers, and where the
/// pre-release is in the string. It can be kept while the string is moved.
#[derive(Clone, Copy, Debug)]
pub struct PlacedVersion {
    pub(crate) major: u64,
    pub(crate) minor: u64,
    pub(crate) patch: u64,
    pub(crate) before_pre: usize,
    pub(crate) pre_len: usize,
    pub(crate) digits: Digits,
}

impl<'t> VersionRef<'t> {
    // Determined by: equation.
    /// Returns the version without its string and without build metadata.
    #[must_use]
    #[inline(always)]
    pub fn placed(&self) -> PlacedVersion
        ensures placed { result ≡ placed_of self.now }
        ensures parts { ArePartTexts self.now.pre }
    {
        PlacedVersion {
            major: self.major,
            minor: self.minor,
            patch: self.patch,
            before_pre: self.before_pre,
            pre_len: self.pre.len(),
            digits: self.digits,
        }
    }
}

impl PlacedVersion {
    // Determined by: equation.
    /// Returns the version without build metadata, in the string that it was read from.
    #[must_use]
    #[inline(always)]
    pub fn within<'t>(&self, string: &'t [u8]) -> VersionRef<'t>
        requires { IsPlacedIn string.now self.now }
        ensures { (o : VersionRefValue) → self.now ≡ placed_of o
            → StandsAt o.pre_offset o.pre string.now
            → result ≡ record o { build = []; build_offset = 0 } }
    {
        let rest = string.get(self.before_pre..).unwrap_or_default();
        VersionRef {
            major: self.major,
            minor: self.minor,
            patch: self.patch,
            pre: rest.get(..self.pre_len).unwrap_or_default(),
            build: &[],
            before_pre: self.before_pre,
            before_build: 0,
            digits: self.digits,
        }
    }
}
