//! Finds the highest or the lowest of many versions that a range contains.

ghost use Rattle.std.specs.Prelude.{◌≡◌, ◌↔◌, MatchOption, true};
ghost use Rattle.std.specs.declared.cmp.Ordering.TheVariants.{Less};
ghost use Rattle.semver_texts.specs.Digits.{digits_in, plain_by};
ghost use Rattle.semver_texts.specs.ToolVersions.{SpellsIn};
ghost use Rattle.semver_texts.specs.VersionViews.{version_value};
ghost use Rattle.semver_texts.specs.Versions.{VersionValue};
ghost use Rattle.semver_versions.specs.VersionRefs.{IsVersionRefIn, StandsAt, kept_version_of};
ghost use Rattle.semver_versions.specs.VersionRefs.{version_of};
ghost use Rattle.tool_ranges.specs.Highest.{FindsExtreme, IsMemberText, IsPlacedMember};
ghost use Rattle.tool_ranges.specs.Highest.{order_for};
ghost use Rattle.tool_ranges.specs.VersionRanges.{versions_grammar};
ghost use Rattle.version_sets.specs.VersionSets.{contains, contains_kept};

use crate::version_range::VersionRange;
use semver_texts::grammar::Digits;
use semver_versions::laws;
use semver_versions::placed::PlacedVersion;
use semver_versions::version::{Version, VersionRef, compare_by, read_ref_in};
use std::cmp::Ordering;

/// Which of many versions is wanted.
#[derive(Clone, Copy, PartialEq, Eq, Debug)]
pub enum Extreme {
    /// The highest version by precedence (SemVer 2.0.0, section 11).
    Highest,
    /// The lowest version by precedence.
    Lowest,
}

impl VersionRange {
    // Determined by: law result_laws::version_ranges::one_extreme_index.
    /// Returns the index of the highest or the lowest of the given versions that the range
    /// contains, or `None` if it contains none of them. Versions are compared by precedence (SemVer
    /// 2.0.0, section 11), and the first of equal versions is chosen. Strings that are invalid
    /// versions in the range's dialect are skipped. It does not allocate.
    #[must_use]
    pub fn extreme_index(&self, which: Extreme, versions: &[&[u8]]) -> Option<usize>
        ensures { FindsExtreme which (versions_grammar self.now) self.now.versions versions.now
            result }
    {
        laws::one_version_in();
        let mut found = 0;
        let mut best: Option<VersionRef<'_>> = None;
        for at in 0..versions.len() {
            let Some(borrowed) = member(self, versions[at]) else {
                continue;
            };
            if is_above(&borrowed, &best, which) {
                best = Some(borrowed);
                found = at;
            }
        }
        match best {
            Some(_) => Some(found),
            None => None,
        }
    }

    // Determined by: law result_laws::version_ranges::one_member.
    /// Returns the version of a string without the string, or `None` if it is invalid in the
    /// range's dialect, or the range doesn't contain it. It does not allocate.
    #[must_use]
    #[inline(always)]
    pub fn member(&self, version: &str) -> Option<PlacedVersion>
        ensures { MatchOption result
            (¬ (IsMemberText (versions_grammar self.now) self.now.versions version.now))
            (IsPlacedMember (versions_grammar self.now) self.now.versions version.now) }
    {
        match member(self, version.as_bytes()) {
            Some(borrowed) => Some(borrowed.placed()),
            None => None,
        }
    }

    // Determined by: equation.
    /// Compares two members of the range by precedence, so that the wanted one comes first. Each is
    /// followed by the string that it was read from. It does not allocate.
    #[must_use]
    #[inline(always)]
    pub fn compare_members(
        &self,
        which: Extreme,
        version: &PlacedVersion,
        string: &str,
        other: &PlacedVersion,
        other_string: &str,
    ) -> Ordering
        requires version { IsPlacedMember (versions_grammar self.now) self.now.versions
            string.now version.now }
        requires other { IsPlacedMember (versions_grammar self.now) self.now.versions
            other_string.now other.now }
        ensures { (v w : VersionValue) → SpellsIn (versions_grammar self.now) v string.now
            → SpellsIn (versions_grammar self.now) w other_string.now
            → result ≡ order_for which w.plain v.plain }
    {
        laws::one_borrowed_version();
        let version = version.within(string.as_bytes());
        let other = other.within(other_string.as_bytes());
        match which {
            Extreme::Highest => other.compare(&version),
            Extreme::Lowest => version.compare(&other),
        }
    }

    // Determined by: equation.
    /// Compares two versions by precedence, so that the wanted one comes first. Their numeric
    /// identifiers are read as in the range's dialect. It does not allocate.
    #[must_use]
    #[inline(always)]
    pub fn compare_refs(
        &self,
        which: Extreme,
        version: &VersionRef<'_>,
        other: &VersionRef<'_>,
    ) -> Ordering
        ensures { result ≡ order_for which
            (plain_by (digits_in (versions_grammar self.now)) (kept_version_of other.now).plain)
            (plain_by (digits_in (versions_grammar self.now)) (kept_version_of version.now).plain) }
    {
        let digits = self.digits();
        let (version, other) = (version.read_by(digits), other.read_by(digits));
        match which {
            Extreme::Highest => other.compare(&version),
            Extreme::Lowest => version.compare(&other),
        }
    }

    // Determined by: equation.
    /// Returns the result of [`VersionRange::compare_refs`] for versions with strings of their own.
    #[must_use]
    #[inline(always)]
    pub fn compare_owned(
        &self,
        which: Extreme,
        version: &semver_versions::owned::Version,
        other: &semver_versions::owned::Version,
    ) -> Ordering
        ensures { result ≡ order_for which
            (plain_by (digits_in (versions_grammar self.now)) (kept_version_of other.now).plain)
            (plain_by (digits_in (versions_grammar self.now)) (kept_version_of version.now).plain) }
    {
        self.compare_refs(which, &version.as_version_ref(), &other.as_version_ref())
    }

    // Determined by: equation.
    /// Compares two versions like [`VersionRange::compare_refs`].
    #[must_use]
    #[inline(always)]
    pub fn compare_versions(&self, which: Extreme, version: &Version, other: &Version) -> Ordering
        ensures { result ≡ order_for which
            (plain_by (digits_in (versions_grammar self.now)) (version_value other.now).plain)
            (plain_by (digits_in (versions_grammar self.now)) (version_value version.now).plain) }
    {
        let digits = self.digits();
        match which {
            Extreme::Highest => compare_by(digits, other, version),
            Extreme::Lowest => compare_by(digits, version, other),
        }
    }

    // Determined by: equation.
    /// Returns whether the range contains a version with strings of its own, like
    /// [`VersionRange::contains_ref`].
    #[must_use]
    #[inline(always)]
    pub fn contains_owned(&self, version: &semver_versions::owned::Version) -> bool
        ensures { result
            ≡ contains_kept self.now.versions (kept_version_of version.now).plain }
    {
        self.contains_ref(&version.as_version_ref())
    }

    /// Returns how numeric identifiers are read in the range's dialect.
    #[inline(always)]
    fn digits(&self) -> Digits
        ensures { result ≡ digits_in (versions_grammar self.now) }
    {
        self.meaning.dialect.grammar().digits()
    }
}

/// Returns a string as a borrowed version, if it is one that a range contains.
#[inline(always)]
fn member<'t>(range: &VersionRange, version: &'t [u8]) -> Option<VersionRef<'t>>
    ensures { MatchOption result
        (¬ (IsMemberText (versions_grammar range.now) range.now.versions version.now))
        (λ borrowed. SpellsIn (versions_grammar range.now) (version_of borrowed) version.now
        × (contains range.now.versions (version_of borrowed).plain ≡ true)
        × IsVersionRefIn (versions_grammar range.now) version.now borrowed
        × StandsAt borrowed.pre_offset borrowed.pre version.now) }
{
    laws::one_version_in();
    let borrowed = read_ref_in(version, range.meaning.dialect.grammar())?;
    if !range.contains_ref(&borrowed) {
        return None;
    }
    Some(borrowed)
}

/// Returns whether a version is above the best one so far, or below it if the lowest is wanted. It
/// is true if there is no best one yet.
fn is_above(version: &VersionRef<'_>, best: &Option<VersionRef<'_>>, which: Extreme) -> bool
    ensures { MatchOption best.now (result ≡ true)
        (λ best. (result ≡ true) ↔ (order_for which (version_of best).plain
        (version_of version.now).plain ≡ Less)) }
{
    let Some(best) = best else {
        return true;
    };
    match which {
        Extreme::Highest => best.compare(version).is_lt(),
        Extreme::Lowest => version.compare(best).is_lt(),
    }
}
