//! A range that was read: a set of versions, and the meaning with which it was read.

ghost use Rattle.std.specs.Prelude.{◌≡◌, ◌≢◌, ◌↔◌, [], None, Err, IfErr, IfOk, IfSome, true};
ghost use Rattle.semver_texts.specs.Digits.{digits_in, plain_kept};
ghost use Rattle.semver_texts.specs.VersionViews.{version_value};
ghost use Rattle.semver_texts.specs.Texts.{Text};
ghost use Rattle.semver_texts.specs.Versions.{PlainVersion};
ghost use Rattle.semver_versions.specs.VersionRefs.{HasPartTexts, IsVersionRefIn};
ghost use Rattle.semver_versions.specs.VersionRefs.{kept_version_of, owned_value, version_of};
ghost use Rattle.semver_ranges.specs.DialectTable.{limit};
ghost use Rattle.tool_ranges.specs.Dialects.{RefusesAs};
ghost use Rattle.semver_ranges.specs.DialectTable.{grammar_of};
ghost use Rattle.tool_ranges.specs.Meanings.{MeansAs};
ghost use Rattle.tool_ranges.specs.VersionRanges.{ContainsText, versions_grammar};
ghost use Rattle.version_sets.specs.Printable.{IsPrintable};
ghost use Rattle.version_sets.specs.VersionSets.{HasNone, IsIn, IsLowest, IsPreRelease, IsWithin};
ghost use Rattle.version_sets.specs.VersionSets.{contains, contains_kept};

use crate::meaning::{self, Rules};
use crate::satisfying::SatisfiesError;
use semver_ranges::RangeError;
use semver_ranges::table::limit;
use semver_versions::owned;
use semver_versions::version::{Version, VersionRef, read_ref_in};
use std::alloc::{AllocError, Global};
use std::fmt;
use std::marker::Model;
use version_sets::{OperationError, VersionSet};

/// A range that was read: the versions that it contains, and the rules by which it was read. Two
/// ranges are equal if both of these are.
///
/// ```
/// use semver_parser::{Dialect, VersionRange};
///
/// let old = VersionRange::parse("^1.2", Dialect::Cargo)?;
/// let new = VersionRange::parse(">=1.2.1, <1.9", Dialect::Cargo)?;
/// assert!(new.is_subset(&old)? && old.contains("1.2.0")?);
/// assert_eq!((&old - &new).to_string(), "=1.2.0 || >=1.9.0, <2.0.0");
/// # Ok::<(), semver_parser::Error>(())
/// ```
#[derive(Drop)]
pub struct VersionRange {
    pub(crate) versions: VersionSet,
    pub(crate) meaning: Rules,
}

impl Model for VersionRange {
    ghost use Rattle.semver_texts.specs.Digits.{digits_in};
    ghost use Rattle.std.specs.Prelude.{◌≡◌};
    ghost use Rattle.semver_ranges.specs.DialectTable.{grammar_of};
    ghost use Rattle.tool_ranges.specs.VersionRanges.{RangeValue};

    ghost Value = { RangeValue };

    ghost view = { λ r. record { versions = r.versions; meaning = r.meaning } };

    ghost invariant = { λ r. r.versions.digits ≡ digits_in (grammar_of r.meaning.dialect) };
}

impl VersionRange {
    // Determined by: law result_laws::version_ranges::one_range.
    // In Rust: try_parse.
    /// Reads a range string.
    ///
    /// # Errors
    ///
    /// - `NotARange` if the string is not a range in the dialect.
    /// - `NumberTooLarge` if it is a range, but one of its numbers, or a bound that is raised by
    ///   one, is above 2^64 - 1, or above 2^53 - 1 in npm's dialect.
    /// - `OutOfMemory` if an allocation failed. The first two errors are returned without
    ///   allocating.
    #[inline(always)]
    pub fn parse(alloc: Global, range: &str, meaning: Rules) -> Result<VersionRange, RangeError>
        // `NotARange` and `NumberTooLarge` are returned for exactly the strings for which they are
        // defined.
        ensures refusals { RefusesAs meaning.dialect range.now result }
        // It contains a version if and only if the version satisfies the string.
        ensures contains { IfOk result (λ r. MeansAs meaning range.now r.versions) }
        // Its identifiers can be parsed back from their strings.
        ensures printable { IfOk result (λ r. IsPrintable r.versions) }
        ensures meaning { IfOk result (λ r. r.meaning ≡ meaning) }
    {
        let versions = meaning::read(alloc, meaning, range)?;
        Ok(VersionRange { versions, meaning })
    }

    // Determined by: law result_laws::version_ranges::one_lowest_version.
    // In Rust: try_lowest_version.
    /// Returns the lowest version of the dialect that the range contains, without build metadata,
    /// or `None` if and only if it contains none. A version of npm's dialect has no number above
    /// 2^53 - 1, so the lowest one in `>1.2.9007199254740991` is 1.3.0.
    ///
    /// It allocates only if the result is a pre-release. `Err` means out of memory.
    pub fn lowest_version(&self, alloc: Global) -> Result<Option<Version>, AllocError>
        // A `Version` keeps a number of 2^64 or more as a string.
        ensures lowest { IfOk result (λ lowest. IfSome lowest (λ version. (v : PlainVersion)
            × IsLowest (IsWithin (limit self.now.meaning.dialect)) self.now.versions v
            × ((version_value version).plain ≡ plain_kept v))) }
        ensures no_build { IfOk result (λ lowest. IfSome lowest (λ version.
            (version_value version).build ≡ [])) }
        ensures none { IfOk result (λ lowest. (lowest ≡ None)
            ↔ HasNone (IsWithin (limit self.now.meaning.dialect)) self.now.versions) }
        // If the range was read from a string, its pre-release can be written in one.
        ensures parts { IsPrintable self.now.versions → IfOk result (λ lowest.
            IfSome lowest (λ version. HasPartTexts (version_value version).plain)) }
        // It can run out of memory only if that version is a pre-release.
        ensures out_of_memory { IfErr result (λ _. (v : PlainVersion)
            × IsLowest (IsWithin (limit self.now.meaning.dialect)) self.now.versions v
            × IsPreRelease v) }
    {
        self.versions
            .lowest_within(alloc, limit(self.meaning.dialect))
    }

    // Determined by: law result_laws::version_ranges::one_lowest_owned.
    /// Returns the result of [`VersionRange::lowest_version`] as a version that owns its strings.
    /// `Err` means out of memory.
    pub fn lowest_owned(&self, alloc: Global) -> Result<Option<owned::Version>, AllocError>
        requires printable { IsPrintable self.now.versions }
        ensures lowest { IfOk result (λ lowest. IfSome lowest (λ version. (v : PlainVersion)
            × IsLowest (IsWithin (limit self.now.meaning.dialect)) self.now.versions v
            × (version ≡ owned_value (plain_kept v)))) }
        ensures none { IfOk result (λ lowest. (lowest ≡ None)
            ↔ HasNone (IsWithin (limit self.now.meaning.dialect)) self.now.versions) }
    {
        let Some(lowest) = self.lowest_version(alloc)? else {
            return Ok(None);
        };
        Ok(Some(owned::Version::of_plain(alloc, &lowest)?))
    }

    // Determined by: equation.
    /// Returns the range that contains the versions of a set.
    ///
    /// # Errors
    ///
    /// Only `DifferentDigits`, if the set reads numeric identifiers differently than the dialect.
    pub fn from_versions(
        versions: VersionSet,
        meaning: Rules,
    ) -> Result<VersionRange, OperationError>
        ensures refused { (result ≡ Err OperationError.DifferentDigits)
            ↔ (versions.digits ≢ digits_in (grammar_of meaning.dialect)) }
        ensures same_meaning { result ≢ Err OperationError.DifferentMeanings }
        ensures no_memory { result ≢ Err OperationError.OutOfMemory }
        ensures versions { IfOk result (λ r. r.versions ≡ versions) }
        ensures meaning { IfOk result (λ r. r.meaning ≡ meaning) }
    {
        if versions.digits() != meaning.dialect.grammar().digits() {
            return Err(OperationError::DifferentDigits);
        }
        Ok(VersionRange { versions, meaning })
    }

    // Determined by: equation.
    /// Returns the rules by which the range was read.
    ///
    /// ```
    /// use semver_parser::{Dialect, PreReleases, VersionRange};
    ///
    /// let range = VersionRange::parse("^1.2", Dialect::Npm)?;
    /// assert_eq!(range.rules(), Dialect::Npm.with(PreReleases::ByDialect));
    /// # Ok::<(), semver_parser::Error>(())
    /// ```
    #[must_use]
    #[inline(always)]
    pub fn rules(&self) -> Rules
        ensures { result ≡ self.now.meaning }
    {
        self.meaning
    }

    // Determined by: equation.
    /// Returns the set of the versions that the range contains.
    #[must_use]
    #[inline(always)]
    pub fn versions(&self) -> &VersionSet
        ensures { result.now ≡ self.now.versions }
    {
        &self.versions
    }

    // Determined by: law result_laws::version_ranges::one_contains.
    // In Rust: try_contains_bytes.
    /// Returns whether the range contains a version, which is read in the range's dialect. Build
    /// metadata is ignored. It does not allocate.
    ///
    /// # Errors
    ///
    /// `InvalidVersion` if the version is invalid in the dialect.
    #[inline(always)]
    pub fn contains_bytes(&self, version: &[u8]) -> Result<bool, SatisfiesError>
        ensures { ContainsText self.now version.now result }
    {
        match read_ref_in(version, self.meaning.dialect.grammar()) {
            Some(borrowed) => Ok(self.contains_ref(&borrowed)),
            None => Err(SatisfiesError::InvalidVersion),
        }
    }

    // Determined by: equation.
    /// Returns whether the range contains a borrowed version. Its numeric identifiers are read as
    /// in the range's dialect. It does not allocate.
    #[must_use]
    #[inline(always)]
    pub fn contains_ref(&self, version: &VersionRef<'_>) -> bool
        ensures contains { result
            ≡ contains_kept self.now.versions (kept_version_of version.now).plain }
        // If the version was read in the range's dialect, that is the version as it was read.
        ensures of_text { (text : Text)
            → IsVersionRefIn (versions_grammar self.now) text version.now
            → result ≡ contains self.now.versions (version_of version.now).plain }
    {
        self.versions.contains_ref(version)
    }

    // Determined by: equation.
    /// Returns whether the range contains a version. Build metadata is ignored. A `Version` keeps a
    /// numeric identifier above 2^64 - 1 as a string; in Cargo's and npm's dialects it is compared
    /// as a number. It does not allocate.
    #[must_use]
    pub fn contains_version(&self, version: &Version) -> bool
        ensures { result ≡ contains_kept self.now.versions (version_value version.now).plain }
    {
        self.versions.contains(version)
    }

    // Determined by: equation.
    /// Returns whether the range contains no version.
    ///
    /// ```
    /// use semver_parser::{Dialect, VersionRange};
    ///
    /// assert!(VersionRange::parse(">2.0.0 <1.0.0", Dialect::Npm)?.is_empty());
    /// # Ok::<(), semver_parser::Error>(())
    /// ```
    #[must_use]
    pub fn is_empty(&self) -> bool
        ensures { (result ≡ true) ↔ ((v : PlainVersion) → ¬ IsIn v self.now.versions) }
    {
        self.versions.is_empty()
    }
}

// Determined by: equation.
impl fmt::Display for VersionRange {
    ghost use Rattle.std.specs.Prelude.{Some};
    ghost use Rattle.version_sets.specs.SetRanges.{kinds_text};
    ghost use Rattle.semver_ranges.specs.DialectTable.{joint_of};

    ghost output = { λ range. Some (kinds_text (joint_of range.meaning.dialect) range.versions) };

    /// Writes the range in the syntax of its dialect: a comma separates the comparators of Cargo's,
    /// and a space those of the others. First come the releases that it contains, or `<0.0.0-0` if
    /// it contains no version. If it contains pre-releases, they follow after `, pre-releases `, as
    /// a range that is to be compared by precedence. If it contains only pre-releases, the first
    /// comma is missing. It does not allocate, and its only error is the writer's.
    ///
    /// This is for people. It doesn't read back if the range contains pre-releases, or if there is
    /// `||` in Cargo's dialect. To write a range into a manifest, use
    /// [`VersionRange::to_requirement`].
    ///
    /// ```
    /// use semver_parser::{Dialect, VersionRange};
    ///
    /// let shown = |range| VersionRange::parse(range, Dialect::Npm).unwrap().to_string();
    /// assert_eq!(shown("1.2.0 || ~1.9"), "=1.2.0 || >=1.9.0 <1.10.0");
    /// assert_eq!(shown("^1.2.3-b"), ">=1.2.3 <2.0.0, pre-releases >=1.2.3-b <1.2.3");
    /// let cargo = VersionRange::parse("1.2", Dialect::Cargo)?;
    /// assert_eq!(cargo.to_string(), ">=1.2.0, <2.0.0");
    /// # Ok::<(), semver_parser::Error>(())
    /// ```
    fn fmt<W: fmt::Write>(&self, f: &mut fmt::Formatter<W>) -> fmt::Result {
        self.versions.write_joined(f, self.meaning.dialect.joint())
    }
}

impl fmt::Debug for VersionRange {
    /// Writes what `Display` writes, and the rules.
    fn fmt<W: fmt::Write>(&self, f: &mut fmt::Formatter<W>) -> fmt::Result {
        let rules = self.meaning;
        write!(f, "VersionRange({self}, {rules:?})")
    }
}
