//! Whether some version that is in each of several intervals is at or above another version.
//! Nothing here allocates.

ghost use Rattle.std.specs.Prelude.{◌≡◌, ◌↔◌, ◌&&◌, [], option_map, true};
ghost use Rattle.semver_texts.specs.Precedence.{precedence};
ghost use Rattle.semver_texts.specs.Versions.{PlainVersion};
ghost use Rattle.semver_versions.specs.VersionRefs.{version_of};
ghost use Rattle.version_sets.specs.AtOrAbove.{HasAtOrAbove};
ghost use Rattle.version_sets.specs.Releases.{release_value};
ghost use Rattle.version_sets.specs.VersionSets.{Fits, IsPreRelease, IsRelease};
ghost use Rattle.version_sets.specs.Steps.EndPlaces.{end_place};
ghost use Rattle.version_sets.specs.Steps.Ends.{has_numbers, in_each};
ghost use Rattle.version_sets.specs.Steps.Spans.{reached};
ghost use Rattle.version_sets.specs.Steps.SpanViews.{is_within};

use crate::conjunction::Conjunction;
use crate::pre_release_end::PreReleaseEnd;
use crate::ranges::among;
use crate::release::Release;
use crate::spans::Bounds;
use semver_texts::precedence::compare;
use semver_versions::version::VersionRef;

impl Conjunction<'_> {
    // Determined by: equation.
    /// Returns whether some release in the intervals isn't below a borrowed version by precedence.
    /// It does not allocate.
    pub fn has_release_from(&self, version: &VersionRef<'_>) -> bool
        ensures { (result ≡ true)
            ↔ HasAtOrAbove IsRelease (in_each self.now) (version_of version.now).plain }
    {
        has_release(
            self.releases.and(Bounds {
                from: Some(numbers(version)),
                to: None,
            }),
        )
    }

    // Determined by: equation.
    /// Returns whether some pre-release in the intervals isn't below a borrowed version by
    /// precedence. It does not allocate.
    pub fn has_pre_release_from(&self, version: &VersionRef<'_>) -> bool
        ensures { (result ≡ true)
            ↔ HasAtOrAbove IsPreRelease (in_each self.now) (version_of version.now).plain }
    {
        has_from(self.pre_releases, version)
    }

    // Determined by: equation.
    /// Returns whether some pre-release in the intervals that has the given numbers isn't below a
    /// borrowed version by precedence. It does not allocate.
    pub fn has_stated_from(&self, numbers: &Release, version: &VersionRef<'_>) -> bool
        ensures { (result ≡ true) ↔ HasAtOrAbove IsPreRelease
            (λ w. in_each self.now w && has_numbers w numbers.now) (version_of version.now).plain }
    {
        has_from(self.pre_releases.and(among(*numbers)), version)
    }
}

/// Returns whether some pre-release within bounds isn't below a borrowed version by precedence.
fn has_from(bounds: Bounds<PreReleaseEnd<'_>>, version: &VersionRef<'_>) -> bool
    ensures { (result ≡ true) ↔ HasAtOrAbove IsPreRelease (is_within end_place bounds.entry)
        (version_of version.now).plain }
{
    let numbers = numbers(version);
    if version.is_pre_release() {
        return has_pre_release(bounds) && !has_reached(version, bounds.to);
    }
    has_pre_release(bounds.and(Bounds {
        from: PreReleaseEnd::above_numbers(numbers),
        to: None,
    }))
}

/// Returns whether some release is within bounds.
fn has_release(bounds: Bounds<Release>) -> bool
    ensures { (result ≡ true)
        ↔ ((w : PlainVersion) × IsRelease w × (is_within release_value bounds w ≡ true)) }
{
    match bounds.span() {
        Some(span) => {
            let _from = (span.from.major, span.from.minor, span.from.patch);
            true
        }
        None => false,
    }
}

/// Returns whether some pre-release is within bounds.
fn has_pre_release(bounds: Bounds<PreReleaseEnd<'_>>) -> bool
    ensures { (result ≡ true)
        ↔ ((w : PlainVersion) × IsPreRelease w × (is_within end_place bounds.entry w ≡ true)) }
{
    match bounds.span() {
        Some(span) => {
            let numbers = span.from.numbers;
            let _from = (numbers.major, numbers.minor, numbers.patch);
            true
        }
        None => false,
    }
}

/// Returns whether a borrowed version is at or above an end. If there is no end, it isn't.
fn has_reached(version: &VersionRef<'_>, end: Option<PreReleaseEnd<'_>>) -> bool
    ensures { result
        ≡ reached precedence (option_map end_place end.entry) (version_of version.now).plain }
{
    let Some(end) = end else {
        return false;
    };
    let numbers = (version.major(), version.minor(), version.patch());
    let others = (end.numbers.major, end.numbers.minor, end.numbers.patch);
    compare(numbers, version.compared_pre(), others, end.compared_pre()).is_ge()
}

/// Returns the numbers of a borrowed version.
fn numbers(version: &VersionRef<'_>) -> Release
    ensures numbers { release_value result ≡ record (version_of version.now).plain { pre = [] } }
    ensures fit { Fits (version_of version.now).plain }
{
    Release {
        major: version.major(),
        minor: version.minor(),
        patch: version.patch(),
    }
}
