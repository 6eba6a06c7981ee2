//! Versions that own their strings.

ghost use Rattle.std.specs.Prelude.{◌≡◌, ◌++◌, ◌⊎◌, ◌<◌, ◌^◌, IfOk, IfErr, length};
ghost use Rattle.std.specs.Prelude.{◌↔◌, Some, [], not, true};
ghost use Rattle.std.specs.Box.{boxed_slice_items};
ghost use Rattle.std.specs.List.{AllByRecursion};
ghost use Rattle.std.specs.Ordering.{eq_by_cmp};
ghost use Rattle.semver_texts.specs.Precedence.{precedence};
ghost use Rattle.semver_texts.specs.PrintedText.{plain_text};
ghost use Rattle.semver_texts.specs.Texts.{is_empty};
ghost use Rattle.semver_texts.specs.VersionViews.{version_value};
ghost use Rattle.semver_texts.specs.Versions.{PlainVersion, numbers};
ghost use Rattle.semver_texts.specs.declared.grammar.Digits.TheVariants.{AnySize};
ghost use Rattle.semver_versions.specs.Steps.Owned.{part_bytes};
ghost use Rattle.semver_versions.specs.VersionOrder.{HaveSameParts, order, semver_of};
ghost use Rattle.semver_versions.specs.VersionRefs.{HasPartTexts, dotted_text, owned_value};

use crate::version_ref::VersionRef;
use semver_texts::grammar::Digits;
use semver_texts::version;
use std::alloc::{AllocError, Global};
use std::boxed::BoxedSlice;
use std::cmp::Ordering;
use std::fmt;
use std::hash::{Hash, Hasher};
use std::marker::Model;

/// A version with strings of its own. Conversions from strings read SemVer 2.0.0, as Cargo does;
/// [`Version::parse`] reads any dialect. To read many versions, [`VersionRef`] doesn't allocate.
///
/// `<` is SemVer's order. Versions of equal precedence are ordered by their strings, so that `==`
/// and `Hash`, which take the build metadata into account, agree with it.
///
/// ```
/// use semver_parser::Version;
///
/// let version: Version = "1.2.3-rc.4+5aedf".parse()?;
/// assert_eq!((version.major(), version.minor(), version.patch()), (1, 2, 3));
/// assert_eq!((version.pre(), version.build()), ("rc.4", "5aedf"));
/// assert!(version < Version::new(1, 2, 3));
/// # Ok::<(), semver_parser::Error>(())
/// ```
#[derive(Drop)]
pub struct Version {
    pub(crate) major: u64,
    pub(crate) minor: u64,
    pub(crate) patch: u64,
    /// The bytes of the pre-release, and then those of the build metadata, if there are any. They
    /// aren't a `String`, whose bytes would have to be checked for UTF-8 when a version is read, and
    /// no `Vec`, which would make versions longer and so slower to sort.
    pub(crate) parts: Option<BoxedSlice<u8>>,
    pub(crate) pre_len: usize,
}

impl Version {
    // Determined by: equation.
    /// Returns the first number.
    ///
    /// ```
    /// assert_eq!(semver_parser::Version::new(1, 2, 3).major(), 1);
    /// ```
    #[must_use]
    #[inline(always)]
    pub fn major(&self) -> u64
        ensures { result ≡ self.now.major }
    {
        self.major
    }

    // Determined by: equation.
    /// Returns the second number.
    ///
    /// ```
    /// assert_eq!(semver_parser::Version::new(1, 2, 3).minor(), 2);
    /// ```
    #[must_use]
    #[inline(always)]
    pub fn minor(&self) -> u64
        ensures { result ≡ self.now.minor }
    {
        self.minor
    }

    // Determined by: equation.
    /// Returns the third number.
    ///
    /// ```
    /// assert_eq!(semver_parser::Version::new(1, 2, 3).patch(), 3);
    /// ```
    #[must_use]
    #[inline(always)]
    pub fn patch(&self) -> u64
        ensures { result ≡ self.now.patch }
    {
        self.patch
    }

    // Determined by: equation.
    /// Returns the pre-release without its `-`, or an empty string if there is none.
    ///
    /// ```
    /// let version: semver_parser::Version = "1.2.3-rc.4+5aedf".parse()?;
    /// assert_eq!(version.pre(), "rc.4");
    /// # Ok::<(), semver_parser::Error>(())
    /// ```
    #[must_use]
    pub fn pre(&self) -> &str
        ensures { result.now ≡ self.now.pre }
    {
        self.as_version_ref().pre()
    }

    // Determined by: equation.
    /// Returns the build metadata without its `+`, or an empty string if there is none.
    ///
    /// ```
    /// let version: semver_parser::Version = "1.2.3-rc.4+5aedf".parse()?;
    /// assert_eq!(version.build(), "5aedf");
    /// # Ok::<(), semver_parser::Error>(())
    /// ```
    #[must_use]
    pub fn build(&self) -> &str
        ensures { result.now ≡ self.now.build }
    {
        self.as_version_ref().build()
    }

    // Determined by: equation.
    /// Returns whether the version has a pre-release.
    ///
    /// ```
    /// assert!(!semver_parser::Version::new(1, 2, 3).is_pre_release());
    /// ```
    #[must_use]
    pub fn is_pre_release(&self) -> bool
        ensures { result ≡ not (is_empty self.now.pre) }
    {
        self.pre_len > 0
    }

    // Determined by: equation.
    /// Returns a version of 0.10 that has no build metadata, as a version of this type. `Err` means
    /// out of memory.
    pub fn of_plain(alloc: Global, original: &version::Version) -> Result<Version, AllocError>
        requires no_build { (version_value original.now).build ≡ [] }
        requires parts { HasPartTexts (version_value original.now).plain }
        ensures same { IfOk result (λ version. version
            ≡ owned_value (version_value original.now).plain) }
    {
        let (major, minor, patch) = (original.major, original.minor, original.patch);
        let printed = original.to_string(alloc)?;
        let borrowed = VersionRef {
            major,
            minor,
            patch,
            pre: printed_pre(&printed),
            build: &[],
            before_pre: 0,
            before_build: 0,
            digits: Digits::AnySize,
        };
        borrowed.owned(alloc)
    }

    // Determined by: equation.
    /// Compares two versions by precedence (SemVer 2.0.0, section 11). Build metadata is ignored.
    ///
    /// ```
    /// use semver_parser::Version;
    ///
    /// let (one, other): (Version, Version) = ("1.0.0+a".parse()?, "1.0.0+b".parse()?);
    /// assert!(one.cmp_precedence(&other).is_eq() && one < other);
    /// # Ok::<(), semver_parser::Error>(())
    /// ```
    #[must_use]
    pub fn cmp_precedence(&self, other: &Version) -> Ordering
        ensures { result ≡ precedence (semver_of self.now) (semver_of other.now) }
    {
        self.as_version_ref()
            .cmp_precedence(&other.as_version_ref())
    }

    /// Returns the result of `cmp`. It is compiled separately, for speed: most versions differ in
    /// their numbers.
    #[inline(never)]
    fn cmp_parts(&self, other: &Version) -> Ordering
        ensures { result ≡ order self.now other.now }
    {
        self.as_version_ref().cmp_parts(&other.as_version_ref())
    }

    // Determined by: equation.
    /// Returns the version as one that borrows this one's strings.
    ///
    /// ```
    /// use semver_parser::{Version, VersionRef};
    ///
    /// assert_eq!(Version::new(1, 2, 3).as_version_ref(), VersionRef::new(1, 2, 3));
    /// ```
    #[must_use]
    #[inline(always)]
    pub fn as_version_ref(&self) -> VersionRef<'_>
        ensures { result ≡ self.now }
    {
        let parts: &[u8] = match &self.parts {
            Some(parts) => parts,
            None => &[],
        };
        let (pre, build) = parts.split_at(self.pre_len);
        VersionRef {
            major: self.major,
            minor: self.minor,
            patch: self.patch,
            pre,
            build,
            before_pre: 0,
            before_build: 0,
            digits: Digits::AnySize,
        }
    }
}

impl Model for Version {
    ghost use Rattle.std.specs.Prelude.{◌≤◌, drop, length, take};
    ghost use Rattle.semver_texts.specs.declared.grammar.Digits.TheVariants.{AnySize};
    ghost use Rattle.semver_versions.specs.VersionRefs.{VersionRefValue};
    ghost use Rattle.semver_versions.specs.Steps.Owned.{part_bytes};
    ghost use Rattle.semver_versions.specs.Steps.Reading.{ArePartTexts};

    ghost Value = { VersionRefValue };

    ghost view = { λ o. record {
      major = o.major;
      minor = o.minor;
      patch = o.patch;
      pre = take o.pre_len (part_bytes o.parts);
      build = drop o.pre_len (part_bytes o.parts);
      pre_offset = 0;
      build_offset = 0;
      digits = AnySize;
    } };

    ghost invariant = { λ o. (o.pre_len ≤ length (part_bytes o.parts))
        × (ArePartTexts (take o.pre_len (part_bytes o.parts))
        × ArePartTexts (drop o.pre_len (part_bytes o.parts))) };
}

// Determined by: equation.
impl PartialEq for Version {
    ghost use Rattle.std.specs.Cmp.{partial_equiv_from_equiv};
    ghost use Rattle.std.specs.Ordering.{eq_by_cmp};
    ghost use Rattle.semver_versions.specs.Steps.OrderLaws.{same_equiv};
    ghost use Rattle.semver_versions.specs.VersionOrder.{order};

    ghost eq = { eq_by_cmp order };

    ghost laws = { partial_equiv_from_equiv same_equiv };

    /// Returns whether both have the same numbers, pre-release and build metadata.
    fn eq(&self, other: &Version) -> bool
        ensures value { result ≡ eq_by_cmp order self.now other.now }
        ensures same { (result ≡ true) ↔ HaveSameParts self.now other.now }
    {
        self.as_version_ref() == other.as_version_ref()
    }
}

impl Eq for Version {
    ghost use Rattle.semver_versions.specs.Steps.OrderLaws.{same_equiv};

    ghost laws = { same_equiv };
}

// Determined by: equation.
impl Ord for Version {
    ghost use Rattle.std.specs.Prelude.{refl};
    ghost use Rattle.semver_versions.specs.Steps.OrderLaws.{order_total};
    ghost use Rattle.semver_versions.specs.VersionOrder.{order};

    ghost cmp = { order };

    ghost total = { order_total };

    ghost matches_partial_cmp = { λ a b. refl };

    ghost matches_eq = { λ a b. refl };

    /// Compares by precedence (SemVer 2.0.0, section 11), and versions of equal precedence by their
    /// pre-releases and then by their build metadata, as strings. It does not allocate.
    #[inline]
    fn cmp(&self, other: &Version) -> Ordering {
        // Comparing tuples instead, sorting takes half again as many instructions.
        if self.major != other.major {
            return self.major.cmp(&other.major);
        }
        if self.minor != other.minor {
            return self.minor.cmp(&other.minor);
        }
        if self.patch != other.patch {
            return self.patch.cmp(&other.patch);
        }
        self.cmp_parts(other)
    }
}

// Determined by: equation.
impl PartialOrd for Version {
    ghost use Rattle.std.specs.Cmp.{partial_order_from_total};
    ghost use Rattle.std.specs.Ordering.{as_partial_cmp};
    ghost use Rattle.semver_versions.specs.Steps.OrderLaws.{order_total};
    ghost use Rattle.semver_versions.specs.VersionOrder.{order};

    ghost partial_cmp = { as_partial_cmp order };

    ghost laws = { partial_order_from_total order_total };

    #[inline]
    fn partial_cmp(&self, other: &Version) -> Option<Ordering> {
        Some(self.cmp(other))
    }
}

// Determined by: equation.
impl<'t> From<&'t Version> for VersionRef<'t> {
    ghost from_gives = { λ version result. result ≡ version.now };

    /// Returns [`Version::as_version_ref`].
    fn from(version: &'t Version) -> VersionRef<'t> {
        version.as_version_ref()
    }
}

impl<'t> VersionRef<'t> {
    // Determined by: equation.
    /// Returns the version with strings of its own. It allocates once, if there is a pre-release or
    /// build metadata. `Err` means out of memory.
    #[inline(always)]
    pub fn owned(&self, alloc: Global) -> Result<Version, AllocError>
        ensures same { IfOk result (λ version. version
            ≡ record self.now { pre_offset = 0; build_offset = 0; digits = AnySize }) }
        ensures out_of_memory { IfErr result
            (λ _. (0 < length self.now.pre) ⊎ (0 < length self.now.build)) }
    {
        Ok(Version {
            major: self.major,
            minor: self.minor,
            patch: self.patch,
            parts: self.joined(alloc)?,
            pre_len: self.pre.len(),
        })
    }

    /// Returns the bytes of the pre-release, and then those of the build metadata.
    #[inline(always)]
    fn joined(&self, alloc: Global) -> Result<Option<BoxedSlice<u8>>, AllocError>
        ensures joined { IfOk result (λ parts. part_bytes parts ≡ self.now.pre ++ self.now.build) }
        ensures out_of_memory { IfErr result
            (λ _. (0 < length self.now.pre) ⊎ (0 < length self.now.build)) }
    {
        if self.pre.is_empty() && self.build.is_empty() {
            return Ok(None);
        }
        Ok(Some(joined(alloc, self.pre, self.build)?))
    }
}

/// Returns the pre-release in the string of a version without build metadata.
fn printed_pre(printed: &str) -> &[u8]
    ensures { (v : PlainVersion) → AllByRecursion (λ n. n < 2 ^ 64) (numbers v)
        → printed.now ≡ plain_text v → result.now ≡ dotted_text v.pre }
{
    match printed.split_once('-') {
        Some((_, pre)) => pre.as_bytes(),
        None => &[],
    }
}

/// Returns the bytes of both slices in one list. It is compiled separately, for speed: most
/// versions have no identifiers.
#[inline(never)]
fn joined(alloc: Global, first: &[u8], second: &[u8]) -> Result<BoxedSlice<u8>, AllocError>
    ensures { IfOk result (λ bytes. boxed_slice_items bytes ≡ first.now ++ second.now) }
{
    let mut bytes = Vec::with_capacity(alloc, first.len().saturating_add(second.len()))?;
    bytes.extend_from_slice(first)?;
    bytes.extend_from_slice(second)?;
    Ok(bytes.into_boxed_slice())
}

// Determined by: equation.
impl fmt::Display for Version {
    ghost use Rattle.semver_versions.specs.VersionOrder.{ref_text};

    ghost output = { λ version. Some (ref_text version) };

    /// Writes what `Display` of [`VersionRef`] writes. It does not allocate, and its only error is
    /// the writer's.
    fn fmt<W: fmt::Write>(&self, f: &mut fmt::Formatter<W>) -> fmt::Result {
        let version = self.as_version_ref();
        write!(f, "{version}")
    }
}

impl fmt::Debug for Version {
    ghost use Rattle.semver_versions.specs.VersionOrder.{quoted_text};

    ghost debug_output = { λ version. Some (quoted_text version) };

    /// Writes what `Display` writes, in quotation marks.
    fn fmt<W: fmt::Write>(&self, f: &mut fmt::Formatter<W>) -> fmt::Result {
        write!(f, "\"{self}\"")
    }
}

impl Hash for Version {
    ghost use Rattle.semver_versions.specs.Steps.SameParts.{same_parts_hash_alike};
    ghost use Rattle.semver_versions.specs.VersionOrder.{hashed_parts};

    ghost hash_input = { hashed_parts };

    ghost respects_eq = { same_parts_hash_alike };

    /// Hashes what `Hash` of [`VersionRef`] hashes.
    fn hash<H: Hasher>(&self, state: &mut H) {
        self.as_version_ref().hash(state);
    }
}
