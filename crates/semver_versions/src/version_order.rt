//! The order of borrowed versions, and how they are printed.

ghost use Rattle.std.specs.Prelude.{◌≡◌, ◌↔◌, Some, true};
ghost use Rattle.std.specs.Ordering.{eq_by_cmp};
ghost use Rattle.std.specs.Fmt.{WritesOnOk};
ghost use Rattle.semver_texts.specs.Digits.{plain_by};
ghost use Rattle.semver_texts.specs.Precedence.{precedence};
ghost use Rattle.semver_texts.specs.VersionViews.{version_value};
ghost use Rattle.semver_versions.specs.VersionOrder.{HaveSameParts, order, part_text, semver_of};

use crate::version_ref::VersionRef;
use semver_texts::grammar::Digits;
use semver_texts::identifiers::ByDigits;
use semver_texts::precedence::compare;
use semver_texts::version::Version;
use std::cmp::Ordering;
use std::fmt;
use std::hash::{Hash, Hasher};

impl<'t> VersionRef<'t> {
    // Determined by: equation.
    /// Compares two borrowed versions by precedence (SemVer 2.0.0, section 11). Build metadata is
    /// ignored. In whichever dialect a version was read, an identifier of digits is a number. It
    /// does not allocate.
    ///
    /// ```
    /// use semver_parser::{Dialect, VersionRef};
    ///
    /// let version = VersionRef::parse("1.2.3-rc.4+5aedf", Dialect::Npm)?;
    /// let other = VersionRef::parse("1.2.3-rc.11", Dialect::Npm)?;
    /// assert!(version.cmp_precedence(&other).is_lt());
    /// assert!(version.cmp_precedence(&VersionRef::parse("1.2.3-rc.4", Dialect::Npm)?).is_eq());
    /// # Ok::<(), semver_parser::Error>(())
    /// ```
    #[must_use]
    #[inline(always)]
    pub fn cmp_precedence(&self, other: &VersionRef<'_>) -> Ordering
        ensures { result ≡ precedence (semver_of self.now) (semver_of other.now) }
    {
        compare(
            (self.major, self.minor, self.patch),
            self.pre_by(Digits::AnySize),
            (other.major, other.minor, other.patch),
            other.pre_by(Digits::AnySize),
        )
    }

    /// Returns the result of `cmp`. It is compiled separately, for speed: most versions differ in
    /// their numbers.
    #[inline(never)]
    pub(crate) fn cmp_parts(&self, other: &VersionRef<'_>) -> Ordering
        ensures { result ≡ order self.now other.now }
    {
        let by_precedence = self.cmp_precedence(other);
        if by_precedence.is_ne() {
            return by_precedence;
        }
        let by_pre = self.pre.cmp(other.pre);
        if by_pre.is_ne() {
            return by_pre;
        }
        self.build.cmp(other.build)
    }
}

// Determined by: equation.
impl<'t> PartialEq for VersionRef<'t> {
    ghost use Rattle.std.specs.Cmp.{partial_equiv_from_equiv};
    ghost use Rattle.std.specs.Ordering.{eq_by_cmp};
    ghost use Rattle.semver_versions.specs.Steps.OrderLaws.{same_equiv};
    ghost use Rattle.semver_versions.specs.VersionOrder.{order};

    ghost eq = { eq_by_cmp order };

    ghost laws = { partial_equiv_from_equiv same_equiv };

    /// Returns whether both have the same numbers, pre-release and build metadata.
    fn eq(&self, other: &VersionRef<'t>) -> bool
        ensures value { result ≡ eq_by_cmp order self.now other.now }
        ensures same { (result ≡ true) ↔ HaveSameParts self.now other.now }
    {
        self.major == other.major
            && self.minor == other.minor
            && self.patch == other.patch
            && self.pre == other.pre
            && self.build == other.build
    }
}

impl<'t> Eq for VersionRef<'t> {
    ghost use Rattle.semver_versions.specs.Steps.OrderLaws.{same_equiv};

    ghost laws = { same_equiv };
}

// Determined by: equation.
impl<'t> Ord for VersionRef<'t> {
    ghost use Rattle.std.specs.Prelude.{refl};
    ghost use Rattle.semver_versions.specs.Steps.OrderLaws.{order_total};
    ghost use Rattle.semver_versions.specs.VersionOrder.{order};

    ghost cmp = { order };

    ghost total = { order_total };

    ghost matches_partial_cmp = { λ a b. refl };

    ghost matches_eq = { λ a b. refl };

    /// Compares by precedence (SemVer 2.0.0, section 11), and versions of equal precedence by their
    /// pre-releases and then by their build metadata, as strings. It does not allocate.
    #[inline]
    fn cmp(&self, other: &VersionRef<'t>) -> Ordering {
        // Comparing tuples instead, sorting takes half again as many instructions.
        if self.major != other.major {
            return self.major.cmp(&other.major);
        }
        if self.minor != other.minor {
            return self.minor.cmp(&other.minor);
        }
        if self.patch != other.patch {
            return self.patch.cmp(&other.patch);
        }
        self.cmp_parts(other)
    }
}

// Determined by: equation.
impl<'t> PartialOrd for VersionRef<'t> {
    ghost use Rattle.std.specs.Cmp.{partial_order_from_total};
    ghost use Rattle.std.specs.Ordering.{as_partial_cmp};
    ghost use Rattle.semver_versions.specs.Steps.OrderLaws.{order_total};
    ghost use Rattle.semver_versions.specs.VersionOrder.{order};

    ghost partial_cmp = { as_partial_cmp order };

    ghost laws = { partial_order_from_total order_total };

    #[inline]
    fn partial_cmp(&self, other: &VersionRef<'t>) -> Option<Ordering> {
        Some(self.cmp(other))
    }
}

impl<'t> Hash for VersionRef<'t> {
    ghost use Rattle.semver_versions.specs.Steps.SameParts.{same_parts_hash_alike};
    ghost use Rattle.semver_versions.specs.VersionOrder.{hashed_parts};

    ghost hash_input = { hashed_parts };

    ghost respects_eq = { same_parts_hash_alike };

    /// Hashes the numbers, the pre-release and the build metadata, which `==` compares.
    fn hash<H: Hasher>(&self, state: &mut H) {
        self.major.hash(state);
        self.minor.hash(state);
        self.patch.hash(state);
        self.pre.hash(state);
        self.build.hash(state);
    }
}

// Determined by: equation.
/// Compares two versions by precedence, where numeric identifiers of both are read as `digits`
/// says. It does not allocate.
#[must_use]
pub fn compare_by(digits: Digits, version: &Version, other: &Version) -> Ordering
    ensures { result ≡ precedence (plain_by digits (version_value version.now).plain)
        (plain_by digits (version_value other.now).plain) }
{
    compare(
        (version.major, version.minor, version.patch),
        ByDigits::of(version.pre.as_slice(), digits),
        (other.major, other.minor, other.patch),
        ByDigits::of(other.pre.as_slice(), digits),
    )
}

// Determined by: equation.
impl<'t> fmt::Display for VersionRef<'t> {
    ghost use Rattle.semver_versions.specs.VersionOrder.{ref_text};

    ghost output = { λ version. Some (ref_text version) };

    /// Writes `major.minor.patch`, then `-` and the pre-release if there is one, and then `+` and
    /// the build metadata if there is any. It does not allocate, and its only error is the
    /// writer's.
    fn fmt<W: fmt::Write>(&self, f: &mut fmt::Formatter<W>) -> fmt::Result {
        let (major, minor, patch) = (self.major, self.minor, self.patch);
        write!(f, "{major}.{minor}.{patch}")?;
        write_part(f, "-", self.pre())?;
        write_part(f, "+", self.build())
    }
}

impl<'t> fmt::Debug for VersionRef<'t> {
    ghost use Rattle.semver_versions.specs.VersionOrder.{quoted_text};

    ghost debug_output = { λ version. Some (quoted_text version) };

    /// Writes what `Display` writes, in quotation marks.
    fn fmt<W: fmt::Write>(&self, f: &mut fmt::Formatter<W>) -> fmt::Result {
        write!(f, "\"{self}\"")
    }
}

/// Writes a part after its mark, if there is one.
fn write_part<W: fmt::Write>(f: &mut fmt::Formatter<W>, mark: &str, part: &str) -> fmt::Result
    ensures { WritesOnOk W.write_str_gives f.old result (part_text mark.now part.now) f.new }
{
    if part.is_empty() {
        return Ok(());
    }
    write!(f, "{mark}{part}")
}
