//! Whether a version is above a cut, and whether it is in an interval.

ghost use Rattle.std.specs.Prelude.{◌≡◌};
ghost use Rattle.semver_texts.specs.Precedence.{precedence};
ghost use Rattle.semver_versions.specs.VersionRefs.{version_of};
ghost use Rattle.version_sets.specs.Steps.Cuts.{beside, first_numbers, is_above_cut};
ghost use Rattle.version_sets.specs.Steps.Cuts.{beside_kept, is_in_interval};

use crate::cut::{Cut, Interval};
use semver_ranges::comparing::InRanges;
use semver_ranges::partial::Place;
use semver_ranges::table::Side;
use semver_texts::grammar::Digits;
use semver_texts::identifiers::{ByDigits, Joined};
use semver_texts::precedence::compare;
use semver_versions::version::VersionRef;
use std::cmp::Ordering;

impl Cut<'_> {
    // Determined by: equation.
    /// Returns whether the cut is below a version. `digits` says how numeric identifiers are read.
    #[inline(always)]
    pub fn is_below(&self, version: &VersionRef<'_>, digits: Digits) -> bool
        ensures { result ≡ is_above_cut digits self.now (version_of version.now).plain }
    {
        match self.side {
            Side::Below => self.against_numbers(version).is_ge(),
            Side::At => self.against(version, digits).is_ge(),
            Side::Past => self.against(version, digits).is_gt(),
            Side::Above(Place::Major) => version.major() > self.numbers.major,
            Side::Above(Place::Minor) => {
                let minor = version.minor().cmp(&self.numbers.minor);
                version.major().cmp(&self.numbers.major).then(minor).is_gt()
            }
            Side::Above(Place::Patch) => self.against_numbers(version).is_gt(),
        }
    }

    /// Compares the numbers of a version with those of the cut.
    #[inline(always)]
    fn against_numbers(&self, version: &VersionRef<'_>) -> Ordering
        ensures { result ≡ first_numbers 3 (version_of version.now).plain (beside_kept self.now) }
    {
        let patch = version.patch().cmp(&self.numbers.patch);
        let minor = version.minor().cmp(&self.numbers.minor);
        version
            .major()
            .cmp(&self.numbers.major)
            .then(minor.then(patch))
    }

    /// Compares a version with the version of the cut by precedence.
    #[inline(always)]
    fn against(&self, version: &VersionRef<'_>, digits: Digits) -> Ordering
        ensures { result ≡ precedence (version_of version.now).plain (beside digits self.now) }
    {
        compare(
            (version.major(), version.minor(), version.patch()),
            version.compared_pre(),
            (self.numbers.major, self.numbers.minor, self.numbers.patch),
            ByDigits::of(Joined::of(self.pre, InRanges), digits),
        )
    }
}

impl Interval<'_> {
    // Determined by: equation.
    /// Returns whether the interval contains a version. `digits` says how numeric identifiers are
    /// read.
    #[inline(always)]
    pub fn contains(&self, version: &VersionRef<'_>, digits: Digits) -> bool
        ensures { result ≡ is_in_interval digits self.now (version_of version.now).plain }
    {
        let is_above = match &self.lower {
            Some(cut) => cut.is_below(version, digits),
            None => true,
        };
        is_above
            && match &self.upper {
                Some(cut) => !cut.is_below(version, digits),
                None => true,
            }
    }
}
