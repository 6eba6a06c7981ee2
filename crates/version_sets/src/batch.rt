//! Checks many versions against a set at once.

ghost use Rattle.std.specs.Prelude.{◌≡◌, length, map};
ghost use Rattle.std.specs.List.{AllByRecursion};
ghost use Rattle.semver_texts.specs.VersionViews.{version_value};
ghost use Rattle.version_sets.specs.VersionSets.{contains_kept, Fits};
ghost use Rattle.version_sets.specs.Steps.Between.{is_release_between as between};

use crate::release::Release;
use crate::version_set::VersionSet;
use semver_versions::version::Version;

/// Sets each answer to whether its version is in the set.
pub(crate) fn contains(set: &VersionSet, versions: &[Version], answers: &mut [bool])
    requires { length answers.old ≡ length versions.now }
    ensures each { answers.new
        ≡ map (λ v. contains_kept set.now (version_value v).plain) versions.now }
    ensures fit { AllByRecursion (λ v. Fits (version_value v).plain) versions.now }
{
    for at in 0..versions.len() {
        answers[at] = set.contains(&versions[at]);
    }
}

/// Sets each answer to whether its version is a release that isn't below `from`, and that is below
/// `to`, if there is such a bound. No answer depends on a branch.
pub(crate) fn is_release_between(
    from: Release,
    to: Option<Release>,
    versions: &[Version],
    answers: &mut [bool],
)
    requires { length answers.old ≡ length versions.now }
    ensures each { answers.new
        ≡ map (λ v. between from to (version_value v).plain) versions.now }
    ensures fit { AllByRecursion (λ v. Fits (version_value v).plain) versions.now }
{
    for at in 0..versions.len() {
        let version = &versions[at];
        let release = Release::from_version(version);
        let is_below = match &to {
            Some(to) => release.is_below(to),
            None => true,
        };
        answers[at] = version.pre.is_empty() & (!release.is_below(&from) & is_below);
    }
}
