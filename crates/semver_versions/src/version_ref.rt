//! Borrowed versions.

ghost use Rattle.std.specs.Prelude.{◌≡◌, ◌⊎◌, ◌<◌, ◌+◌, ◌^◌, ℕ, [], ◌∷◌, codes, length, map, not};
ghost use Rattle.std.specs.Prelude.{IfOk, IfErr};
ghost use Rattle.semver_texts.specs.Digits.{identifiers_by, plain_by, version_by};
ghost use Rattle.semver_texts.specs.Texts.{Text, cut_at_dots, is_empty, marked};
ghost use Rattle.semver_texts.specs.Versions.{VersionValue};
ghost use Rattle.semver_texts.specs.Precedence.{precedence};
ghost use Rattle.semver_texts.specs.VersionGrammar.{SpellsVersion};
ghost use Rattle.semver_texts.specs.VersionViews.{identifier_value, version_value};
ghost use Rattle.semver_versions.specs.VersionRefs.{IsVersionRefOf, StandsAt, after_mark};
ghost use Rattle.semver_versions.specs.VersionRefs.{identifier_of, kept_version_of, version_of};
ghost use Rattle.semver_versions.specs.Steps.Reading.{ArePartTexts, version_ref_with};

use crate::comparing::InVersions;
use crate::identifiers::{identifiers, identifiers_of_text};
use semver_texts::dotted::{marked_len, text_of_parts};
use semver_texts::grammar::Digits;
use semver_texts::identifiers::{ByDigits, Joined};
use semver_texts::precedence::{Identifiers, compare};
use semver_texts::version::{Identifier, Version};
use std::alloc::{AllocError, Global};
use std::cmp::Ordering;
use std::marker::Model;

/// A borrowed version: the three numbers, and slices of the pre-release and of the build metadata
/// with their offsets. It can be converted to a [`Version`].
///
/// ```
/// use semver_parser::{Dialect, VersionRef};
///
/// let version = VersionRef::parse("v1.2.3-rc.4+5aedf", Dialect::Npm)?;
/// assert_eq!((version.major(), version.minor(), version.patch()), (1, 2, 3));
/// assert_eq!((version.pre(), version.build()), ("rc.4", "5aedf"));
/// # Ok::<(), semver_parser::Error>(())
/// ```
#[derive(Drop)]
pub struct VersionRef<'t> {
    pub(crate) major: u64,
    pub(crate) minor: u64,
    pub(crate) patch: u64,
    pub(crate) pre: &'t [u8],
    pub(crate) build: &'t [u8],
    pub(crate) before_pre: usize,
    pub(crate) before_build: usize,
    pub(crate) digits: Digits,
}

impl<'t> Model for VersionRef<'t> {
    ghost use Rattle.semver_versions.specs.VersionRefs.{VersionRefValue};
    ghost use Rattle.semver_versions.specs.Steps.Reading.{ArePartTexts};

    ghost Value = { VersionRefValue };

    ghost view = { λ o. record {
      major = o.major;
      minor = o.minor;
      patch = o.patch;
      pre = o.pre.now;
      build = o.build.now;
      pre_offset = o.before_pre;
      build_offset = o.before_build;
      digits = o.digits;
    } };

    ghost invariant = { λ o. ArePartTexts o.pre.now × ArePartTexts o.build.now };
}

impl<'t> VersionRef<'t> {
    // Determined by: equation.
    /// Returns the borrowed version 0.0.0.
    #[must_use]
    pub fn zero() -> VersionRef<'t>
        ensures { result ≡ record {
          major = 0;
          minor = 0;
          patch = 0;
          pre = [];
          build = [];
          pre_offset = 0;
          build_offset = 0;
          digits = Digits.Kept;
        } }
    {
        VersionRef {
            major: 0,
            minor: 0,
            patch: 0,
            pre: &[],
            build: &[],
            before_pre: 0,
            before_build: 0,
            digits: Digits::Kept,
        }
    }

    // Determined by: equation.
    /// Returns the first number.
    ///
    /// ```
    /// use semver_parser::{Dialect, VersionRef};
    ///
    /// assert_eq!(VersionRef::parse("1.2.3-rc.4+5aedf", Dialect::Npm)?.major(), 1);
    /// # Ok::<(), semver_parser::Error>(())
    /// ```
    #[must_use]
    #[inline(always)]
    pub fn major(&self) -> u64
        ensures { result ≡ self.now.major }
    {
        self.major
    }

    // Determined by: equation.
    /// Returns the second number.
    ///
    /// ```
    /// use semver_parser::{Dialect, VersionRef};
    ///
    /// assert_eq!(VersionRef::parse("1.2.3-rc.4+5aedf", Dialect::Npm)?.minor(), 2);
    /// # Ok::<(), semver_parser::Error>(())
    /// ```
    #[must_use]
    #[inline(always)]
    pub fn minor(&self) -> u64
        ensures { result ≡ self.now.minor }
    {
        self.minor
    }

    // Determined by: equation.
    /// Returns the third number.
    ///
    /// ```
    /// use semver_parser::{Dialect, VersionRef};
    ///
    /// assert_eq!(VersionRef::parse("1.2.3-rc.4+5aedf", Dialect::Npm)?.patch(), 3);
    /// # Ok::<(), semver_parser::Error>(())
    /// ```
    #[must_use]
    #[inline(always)]
    pub fn patch(&self) -> u64
        ensures { result ≡ self.now.patch }
    {
        self.patch
    }

    // Determined by: equation.
    /// Returns the identifiers of the pre-release joined by dots, without the `-` before them. The
    /// string is empty if there is no pre-release.
    ///
    /// ```
    /// use semver_parser::{Dialect, VersionRef};
    ///
    /// assert_eq!(VersionRef::parse("1.2.3-rc.4+5aedf", Dialect::Npm)?.pre(), "rc.4");
    /// assert_eq!(VersionRef::parse("1.2.3+5aedf", Dialect::Npm)?.pre(), "");
    /// # Ok::<(), semver_parser::Error>(())
    /// ```
    #[must_use]
    #[tactic(auto, using(semver_texts::proofs::PartRuns::parts_pass))]
    pub fn pre(&self) -> &'t str
        ensures { result.now ≡ self.now.pre }
    {
        text_of_parts(self.pre)
    }

    // Determined by: equation.
    /// Returns the bytes of [`VersionRef::pre`]. They aren't converted to a `str`, for speed.
    #[must_use]
    #[inline(always)]
    pub fn pre_bytes(&self) -> &'t [u8]
        ensures { result.now ≡ self.now.pre }
    {
        self.pre
    }

    // Determined by: equation.
    /// Returns the identifiers of the build metadata joined by dots, without the `+` before them.
    /// The string is empty if there is no build metadata.
    ///
    /// ```
    /// use semver_parser::{Dialect, VersionRef};
    ///
    /// assert_eq!(VersionRef::parse("1.2.3-rc.4+5aedf", Dialect::Npm)?.build(), "5aedf");
    /// assert_eq!(VersionRef::parse("1.2.3-rc.4", Dialect::Npm)?.build(), "");
    /// # Ok::<(), semver_parser::Error>(())
    /// ```
    #[must_use]
    #[tactic(auto, using(semver_texts::proofs::PartRuns::parts_pass))]
    pub fn build(&self) -> &'t str
        ensures { result.now ≡ self.now.build }
    {
        text_of_parts(self.build)
    }

    // Determined by: equation.
    /// Returns whether the version has a pre-release.
    ///
    /// ```
    /// use semver_parser::{Dialect, VersionRef};
    ///
    /// assert!(VersionRef::parse("1.2.3-rc.4+5aedf", Dialect::Npm)?.is_pre_release());
    /// assert!(!VersionRef::parse("1.2.3+5aedf", Dialect::Npm)?.is_pre_release());
    /// # Ok::<(), semver_parser::Error>(())
    /// ```
    #[must_use]
    #[inline(always)]
    pub fn is_pre_release(&self) -> bool
        // The result is that for the version of each string that has this borrowed version.
        ensures pre_release { (text : Text) (v : VersionValue) → IsVersionRefOf text self.now
            → SpellsVersion v text → result ≡ not (is_empty v.plain.pre) }
        // It is also that for the version that the borrowed version stands for.
        ensures of_version { result ≡ not (is_empty (version_of self.now).plain.pre) }
    {
        !self.pre.is_empty()
    }

    // Determined by: equation.
    /// Returns the byte offset of the pre-release's identifiers in the string that was read, or 0
    /// if there is no pre-release.
    #[must_use]
    #[inline(always)]
    pub fn pre_offset(&self) -> usize
        ensures { result ≡ self.now.pre_offset }
    {
        self.before_pre
    }

    // Determined by: equation.
    /// Returns the byte offset of the build metadata's identifiers in the string that was read, or
    /// 0 if there is no build metadata.
    #[must_use]
    #[inline(always)]
    pub fn build_offset(&self) -> usize
        ensures { result ≡ self.now.build_offset }
    {
        self.before_build
    }

    // Determined by: equation.
    /// Returns how a numeric identifier above 2^64 - 1 is read, in the dialect in which the string
    /// was read: as a string, which is what `semver-parser` does, or as a number.
    #[must_use]
    #[inline(always)]
    pub fn digits(&self) -> Digits
        ensures { result ≡ self.now.digits }
    {
        self.digits
    }

    // Determined by: equation.
    /// Returns the same version, whose numeric identifiers are read as `digits` says.
    #[must_use]
    #[inline(always)]
    pub fn read_by(&self, digits: Digits) -> VersionRef<'t>
        ensures version { result ≡ record self.now { digits = digits } }
        // Its numbers are at most 2^64 - 1.
        ensures fits { (result.major < 2 ^ 64) × (result.minor < 2 ^ 64)
            × (result.patch < 2 ^ 64) }
    {
        VersionRef {
            major: self.major,
            minor: self.minor,
            patch: self.patch,
            pre: self.pre,
            build: self.build,
            before_pre: self.before_pre,
            before_build: self.before_build,
            digits,
        }
    }

    // Determined by: equation.
    /// Returns the identifiers of the pre-release for comparing. They are read one by one, as they
    /// are needed. It does not allocate.
    #[must_use]
    #[inline(always)]
    pub fn compared_pre(&self) -> ByDigits<Joined<'t, InVersions>>
        ensures { ⟦<ByDigits<Joined<'t, InVersions>> as Identifiers<'t>>⟧.left result
            ≡ (version_of self.now).plain.pre }
    {
        self.pre_by(self.digits)
    }

    /// Returns the identifiers of the pre-release for comparing, where numeric ones are read as
    /// `digits` says.
    #[inline(always)]
    pub(crate) fn pre_by(&self, digits: Digits) -> ByDigits<Joined<'t, InVersions>>
        ensures { ⟦<ByDigits<Joined<'t, InVersions>> as Identifiers<'t>>⟧.left result
            ≡ identifiers_by digits (kept_version_of self.now).plain.pre }
    {
        ByDigits::of(Joined::of(self.pre, InVersions), digits)
    }

    // Determined by: equation.
    /// Returns the identifiers of the pre-release. Numeric identifiers above 2^64 - 1 are kept as
    /// strings.
    ///
    /// If there are identifiers, it allocates their list, and each identifier that isn't a number.
    /// `Err` means out of memory.
    #[inline(always)]
    pub fn pre_identifiers(&self, alloc: Global) -> Result<Vec<Identifier>, AllocError>
        // They are those of each version string that has this borrowed version.
        ensures identifiers { (text : Text) (v : VersionValue) → IsVersionRefOf text self.now
            → SpellsVersion v text
            → IfOk result (λ ids. map identifier_value ids.items ≡ v.plain.pre) }
        // They are also those of the version that the borrowed version stands for.
        ensures kept { IfOk result (λ ids.
            map identifier_value ids.items ≡ (kept_version_of self.now).plain.pre) }
        ensures of_version { IfOk result (λ ids.
            identifiers_by self.now.digits (map identifier_value ids.items)
            ≡ (version_of self.now).plain.pre) }
        ensures out_of_memory { IfErr result (λ _. 0 < length self.now.pre) }
    {
        identifiers(alloc, self.pre)
    }

    // Determined by: equation.
    /// Returns the identifiers of the build metadata. It allocates like
    /// [`VersionRef::pre_identifiers`].
    #[inline(always)]
    pub fn build_identifiers(&self, alloc: Global) -> Result<Vec<Identifier>, AllocError>
        // They are those of each version string that has this borrowed version.
        ensures identifiers { (text : Text) (v : VersionValue) → IsVersionRefOf text self.now
            → SpellsVersion v text
            → IfOk result (λ ids. map identifier_value ids.items ≡ v.build) }
        // They are also those of the version that the borrowed version stands for.
        ensures kept { IfOk result (λ ids.
            map identifier_value ids.items ≡ (kept_version_of self.now).build) }
        ensures of_version { IfOk result (λ ids.
            identifiers_by self.now.digits (map identifier_value ids.items)
            ≡ (version_of self.now).build) }
        ensures out_of_memory { IfErr result (λ _. 0 < length self.now.build) }
    {
        identifiers(alloc, self.build)
    }

    // Determined by: equation.
    /// Returns the version with identifiers of its own.
    ///
    /// If there is a pre-release or build metadata, it allocates the lists of identifiers, and each
    /// identifier that isn't a number. `Err` means out of memory.
    #[inline(always)]
    pub fn version(&self, alloc: Global) -> Result<Version, AllocError>
        // Each string that has this borrowed version spells the result.
        ensures version { IfOk result (λ version. (text : Text) → IsVersionRefOf text self.now
            → SpellsVersion (version_value version) text) }
        // The result is the version that the borrowed version stands for.
        ensures kept { IfOk result (λ version.
            version_value version ≡ kept_version_of self.now) }
        ensures of_version { IfOk result (λ version.
            version_by self.now.digits (version_value version) ≡ version_of self.now) }
        ensures out_of_memory { IfErr result
            (λ _. (0 < length self.now.pre) ⊎ (0 < length self.now.build)) }
    {
        Ok(Version {
            major: self.major,
            minor: self.minor,
            patch: self.patch,
            pre: self.pre_identifiers(alloc)?,
            build: self.build_identifiers(alloc)?,
        })
    }

    /// Returns the version, if the borrowed version is that of the string. The identifiers are cut
    /// from the string, so their bytes needn't be checked for UTF-8, for speed.
    #[inline(always)]
    pub(crate) fn version_in(&self, alloc: Global, text: &str) -> Result<Version, AllocError>
        requires pre { StandsAt self.now.pre_offset self.now.pre text.now }
        requires build { StandsAt self.now.build_offset self.now.build text.now }
        ensures kept { IfOk result (λ version.
            version_value version ≡ kept_version_of self.now) }
        ensures out_of_memory { IfErr result
            (λ _. (0 < length self.now.pre) ⊎ (0 < length self.now.build)) }
    {
        Ok(Version {
            major: self.major,
            minor: self.minor,
            patch: self.patch,
            pre: identifiers_at(alloc, text, self.before_pre, self.pre)?,
            build: identifiers_at(alloc, text, self.before_build, self.build)?,
        })
    }

    // Determined by: equation.
    /// Compares this borrowed version with a version by precedence (SemVer 2.0.0, section 11), like
    /// `version::cmp_precedence`. Build metadata is ignored. Numeric identifiers on both sides are
    /// read as in the borrowed version's dialect. It does not allocate.
    #[must_use]
    #[inline(always)]
    pub fn compare_with(&self, version: &Version) -> Ordering
        // The result is that for the version of each string that has this borrowed version.
        ensures precedence { (text : Text) (v : VersionValue) → IsVersionRefOf text self.now
            → SpellsVersion v text
            → result ≡ precedence v.plain (version_value version.now).plain }
        // It is also that for the version that the borrowed version stands for.
        ensures of_version { result ≡ precedence (version_of self.now).plain
            (plain_by self.now.digits (version_value version.now).plain) }
    {
        compare(
            (self.major, self.minor, self.patch),
            self.compared_pre(),
            (version.major, version.minor, version.patch),
            ByDigits::of(version.pre.as_slice(), self.digits),
        )
    }

    // Determined by: equation.
    /// Compares two borrowed versions by precedence (SemVer 2.0.0, section 11). Build metadata is
    /// ignored. Numeric identifiers are read in the dialect of each. It does not allocate.
    #[must_use]
    #[inline(always)]
    pub fn compare(&self, other: &VersionRef<'_>) -> Ordering
        ensures { result ≡ precedence (version_of self.now).plain (version_of other.now).plain }
    {
        compare(
            (self.major, self.minor, self.patch),
            self.compared_pre(),
            (other.major, other.minor, other.patch),
            other.compared_pre(),
        )
    }
}

/// Returns the identifiers of parts that are in a string at an offset. `Err` means out of memory.
#[inline(always)]
fn identifiers_at(
    alloc: Global,
    text: &str,
    offset: usize,
    parts: &[u8],
) -> Result<Vec<Identifier>, AllocError>
    requires place { StandsAt offset parts.now text.now }
    requires parts { ArePartTexts parts.now }
    ensures kept { IfOk result (λ ids.
        map identifier_value ids.items ≡ map identifier_of (cut_at_dots parts.now)) }
    ensures some { IfErr result (λ _. 0 < length parts.now) }
{
    if parts.is_empty() {
        return Ok(Vec::new(alloc));
    }
    identifiers_of_text(alloc, &text[offset..offset + parts.len()])
}

/// Returns the offset of a part whose mark is at an offset, or 0 if there is no part.
#[inline(always)]
fn after_mark_at(place: usize, part: &[u8]) -> usize
    requires { place + length part.now < 2 ^ 64 }
    ensures { result ≡ after_mark place part.now }
{
    if part.is_empty() { 0 } else { place + 1 }
}

/// Returns the borrowed version of these numbers, which end at an offset, and of a pre-release and
/// build metadata, which follow, each after its mark.
#[inline(always)]
pub(crate) fn with_parts<'t>(
    major: u64,
    minor: u64,
    patch: u64,
    numbers_end: usize,
    pre: &'t [u8],
    build: &'t [u8],
    digits: Digits,
) -> VersionRef<'t>
    requires pre { ArePartTexts pre.now }
    requires build { ArePartTexts build.now }
    requires fits { numbers_end + (length (marked (codes "-") (cut_at_dots pre.now))
        + length (marked (codes "+") (cut_at_dots build.now))) < 2 ^ 64 }
    ensures { result ≡ version_ref_with digits major minor patch numbers_end pre.now
        build.now }
{
    let pre_end = numbers_end + marked_len(pre);
    VersionRef {
        major,
        minor,
        patch,
        pre,
        build,
        before_pre: after_mark_at(numbers_end, pre),
        before_build: after_mark_at(pre_end, build),
        digits,
    }
}
