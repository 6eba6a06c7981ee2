//! Versions that own their identifiers, and know how the numeric ones are read.

ghost use Rattle.std.specs.Prelude.{◌≡◌, IfOk};
ghost use Rattle.semver_texts.specs.Digits.{plain_by};
ghost use Rattle.semver_texts.specs.Precedence.{precedence};
ghost use Rattle.semver_texts.specs.VersionViews.{version_value};
ghost use Rattle.semver_texts.specs.Versions.{without_build};
ghost use Rattle.semver_versions.specs.VersionRefs.{kept_version_of, version_of};
ghost use Rattle.semver_versions.specs.ReadVersions.{read_plain};

use crate::version_ref::VersionRef;
use semver_texts::grammar::Digits;
use semver_texts::identifiers::ByDigits;
use semver_texts::precedence::{Identifiers, compare};
use semver_texts::version::{Identifier, Version};
use std::alloc::{AllocError, Global};
use std::cmp::Ordering;

/// A version, and how its numeric identifiers above 2^64 - 1 are read: as strings, which is how a
/// `Version` keeps them, or as numbers, as Cargo and npm read them.
#[derive(Clone, Debug, Drop)]
pub struct ReadVersion {
    /// The version.
    pub version: Version,
    /// How its numeric identifiers are read.
    pub digits: Digits,
}

impl ReadVersion {
    // Determined by: equation.
    /// Returns a borrowed version without its build metadata. `Err` means out of memory.
    #[inline(always)]
    pub fn of(alloc: Global, borrowed: &VersionRef<'_>) -> Result<ReadVersion, AllocError>
        ensures plain { IfOk result (λ read. read_plain read ≡ (version_of borrowed.now).plain) }
        // Version and digits are those of the borrowed version, except that there is no build
        // metadata.
        ensures version { IfOk result (λ read. version_value read.version
            ≡ without_build (kept_version_of borrowed.now).plain) }
        ensures digits { IfOk result (λ read. read.digits ≡ borrowed.now.digits) }
    {
        let version = Version {
            major: borrowed.major(),
            minor: borrowed.minor(),
            patch: borrowed.patch(),
            pre: borrowed.pre_identifiers(alloc)?,
            build: Vec::new(alloc),
        };
        Ok(ReadVersion {
            version,
            digits: borrowed.digits(),
        })
    }

    // Determined by: equation.
    /// Returns the same version without its build metadata. `Err` means out of memory.
    pub fn without_build(&self, alloc: Global) -> Result<ReadVersion, AllocError>
        ensures plain { IfOk result (λ same. read_plain same ≡ read_plain self.now) }
        // Version and digits are the same, except that there is no build metadata.
        ensures version { IfOk result (λ same. version_value same.version
            ≡ without_build (version_value self.now.version).plain) }
        ensures digits { IfOk result (λ same. same.digits ≡ self.now.digits) }
    {
        let version = Version {
            major: self.version.major,
            minor: self.version.minor,
            patch: self.version.patch,
            pre: self.version.pre.clone()?,
            build: Vec::new(alloc),
        };
        Ok(ReadVersion {
            version,
            digits: self.digits,
        })
    }

    // Determined by: equation.
    /// Returns the identifiers of the pre-release for comparing.
    #[inline(always)]
    pub fn pre<'a>(&'a self) -> ByDigits<&'a [Identifier]>
        ensures { ⟦<ByDigits<&'a [Identifier]> as Identifiers<'a>>⟧.left result
            ≡ (read_plain self.now).pre }
    {
        ByDigits::of(self.version.pre.as_slice(), self.digits)
    }

    // Determined by: equation.
    /// Compares two versions by precedence.
    pub fn compare_read(&self, other: &ReadVersion) -> Ordering
        ensures { result ≡ precedence (read_plain self.now) (read_plain other.now) }
    {
        self.compare_version(&other.version, other.digits)
    }

    // Determined by: equation.
    /// Compares it with a version by precedence, where the version's numeric identifiers are read
    /// as `digits` says.
    #[inline(always)]
    pub fn compare_version(&self, version: &Version, digits: Digits) -> Ordering
        ensures { result ≡ precedence (read_plain self.now)
            (plain_by digits (version_value version.now).plain) }
    {
        compare(
            (self.version.major, self.version.minor, self.version.patch),
            self.pre(),
            (version.major, version.minor, version.patch),
            ByDigits::of(version.pre.as_slice(), digits),
        )
    }

    // Determined by: equation.
    /// Compares a borrowed version with it by precedence, where the borrowed version's numeric
    /// identifiers are read as `digits` says.
    #[inline(always)]
    pub fn compared_ref(&self, borrowed: &VersionRef<'_>, digits: Digits) -> Ordering
        ensures { result ≡ precedence (plain_by digits (kept_version_of borrowed.now).plain)
            (read_plain self.now) }
    {
        compare(
            (borrowed.major, borrowed.minor, borrowed.patch),
            borrowed.pre_by(digits),
            (self.version.major, self.version.minor, self.version.patch),
            self.pre(),
        )
    }
}
