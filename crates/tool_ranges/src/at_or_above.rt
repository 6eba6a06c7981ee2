//! Whether a range has a version at or above another one. Nothing here allocates.

ghost use Rattle.std.specs.Prelude.{◌≡◌, ◌≢◌, ◌↔◌, ◌&&◌, ◌||◌, true, Err, IfOk, List};
ghost use Rattle.std.specs.List.{list_all};
ghost use Rattle.semver_texts.specs.Digits.{digits_in, plain_by};
ghost use Rattle.semver_texts.specs.Texts.{Text};
ghost use Rattle.semver_versions.specs.VersionRefs.{kept_version_of, version_of};
ghost use Rattle.semver_ranges.specs.RangeTree.{SetTree};
ghost use Rattle.semver_ranges.specs.Steps.RangeEvents.{Event as SomeEvent, event_fits};
ghost use Rattle.version_sets.specs.AtOrAbove as sets;
ghost use Rattle.version_sets.specs.Steps.Ends.{in_each};
ghost use Rattle.version_sets.specs.VersionSets.{Fits, IsPreRelease};
ghost use Rattle.tool_ranges.specs.AtOrAbove.{HasAtOrAbove};
ghost use Rattle.tool_ranges.specs.Dialects.{RefusesAs, SpellsAs};
ghost use Rattle.semver_ranges.specs.DialectTable.{grammar_of};
ghost use Rattle.semver_ranges.specs.Sides.{term_fits};
ghost use Rattle.semver_ranges.specs.Steps.Checked.{HasEvents};
ghost use Rattle.tool_ranges.specs.Steps.Checked.{IsCheckedAs};
ghost use Rattle.tool_ranges.specs.Steps.Matching.{counts, states_at, takes_all};
ghost use Rattle.tool_ranges.specs.Steps.Reaching.{may_count, states_some};

use crate::matching::{matches_everything, takes_all};
use crate::meaning::Rules;
use crate::reading::checked_of;
use crate::sets::{is_by_default_of_npm, stated_numbers, with_term};
use semver_ranges::RangeError;
use semver_ranges::checked::Checked;
use semver_ranges::dialect::Dialect;
use semver_ranges::events::Event;
use semver_ranges::partial::Partial;
use semver_versions::version::VersionRef;
use version_sets::{Conjunction, PreReleases};

// Determined by: law tool_ranges::laws::one_has_at_or_above.
/// Returns whether some version that satisfies a range isn't below a borrowed version by
/// precedence. The numeric identifiers of the borrowed version are read as in the dialect.
///
/// The range is checked first, and then its terms are read once more. With `ByDialect`, an
/// alternative without such a release is read a third time, for the pre-releases that its terms
/// name. Nothing is allocated.
///
/// # Errors
///
/// The errors of [`satisfies`](crate::meaning::satisfies).
pub fn has_at_or_above(
    version: &VersionRef<'_>,
    range: &str,
    meaning: Rules,
) -> Result<bool, RangeError>
    // `NotARange` and `NumberTooLarge` are returned for exactly the strings for which they are
    // defined.
    ensures refusals { RefusesAs meaning.dialect range.now result }
    ensures no_memory { result ≢ Err RangeError.OutOfMemory }
    ensures has { IfOk result (λ has. (tree : SetTree) → SpellsAs meaning.dialect tree range.now
        → (has ≡ true) ↔ HasAtOrAbove meaning tree
        (plain_by (digits_in (grammar_of meaning.dialect)) (kept_version_of version.now).plain)) }
{
    let (dialect, rule) = (meaning.dialect, meaning.pre_releases);
    let checked = checked_of(range, dialect)?;
    let version = version.read_by(dialect.grammar().digits());
    Ok(has_from(checked, &version, dialect, rule))
}

/// Returns whether some version that satisfies a range that was checked isn't below a borrowed
/// version by precedence.
fn has_from(
    checked: Checked<'_>,
    version: &VersionRef<'_>,
    dialect: Dialect,
    rule: PreReleases,
) -> bool
    requires { (t : Text)
        × IsCheckedAs dialect t checked }
    ensures { (t : Text) (tree : SetTree)
        → IsCheckedAs dialect t checked.entry
        → SpellsAs dialect tree t → (result ≡ true)
        ↔ HasAtOrAbove (record { dialect = dialect; pre_releases = rule }) tree
        (version_of version.now).plain }
{
    let all = takes_all(rule);
    let grammar = dialect.grammar();
    let (mut terms, mut begin) = (checked, checked);
    let mut here = Conjunction::new();
    let (mut found, mut matches_all, mut matched_all) = (false, true, false);
    while let Some(event) = terms.next(grammar) {
        match event {
            Event::Simple(simple) => {
                here = with_term(here, &simple, dialect, all);
                matches_all &= matches_everything(&simple);
            }
            Event::NextRange => {
                found |= has_some(&here, begin, version, dialect, rule);
                matched_all |= matches_all;
                here = Conjunction::new();
                begin = terms;
                matches_all = true;
            }
        }
    }
    if (matched_all | matches_all) & is_by_default_of_npm(dialect, rule) {
        return Conjunction::new().has_release_from(version);
    }
    found | has_some(&here, begin, version, dialect, rule)
}

/// Returns whether some version of a range isn't below a borrowed version by precedence, where
/// `here` has the versions that satisfy the terms of the range, which begins with `begin`.
fn has_some(
    here: &Conjunction<'_>,
    begin: Checked<'_>,
    version: &VersionRef<'_>,
    dialect: Dialect,
    rule: PreReleases,
) -> bool
    ensures { (es : List SomeEvent) → HasEvents (grammar_of dialect) begin.entry es
        → list_all (event_fits (term_fits dialect)) es ≡ true
        → (result ≡ true) ↔ sets.HasAtOrAbove Fits (λ v. may_count rule v
        && (in_each here.now v && (counts (takes_all rule) v || states_some es v)))
        (version_of version.now).plain }
{
    if here.has_release_from(version) {
        return true;
    }
    match rule {
        PreReleases::Excluded => false,
        PreReleases::Included => here.has_pre_release_from(version),
        PreReleases::ByDialect => has_stated(here, begin, version, dialect),
    }
}

/// Returns whether some pre-release of a range isn't below a borrowed version by precedence, where
/// only those count whose numbers some term of the range names, together with a pre-release.
fn has_stated(
    here: &Conjunction<'_>,
    begin: Checked<'_>,
    version: &VersionRef<'_>,
    dialect: Dialect,
) -> bool
    ensures { (es : List SomeEvent) → HasEvents (grammar_of dialect) begin.entry es
        → list_all (event_fits (term_fits dialect)) es ≡ true
        → (result ≡ true) ↔ sets.HasAtOrAbove IsPreRelease
        (λ v. in_each here.now v && states_some es v) (version_of version.now).plain }
{
    let grammar = dialect.grammar();
    let mut terms = begin;
    while let Some(event) = terms.next(grammar) {
        match event {
            Event::Simple(simple) => {
                if has_numbers_of(here, &simple.partial, version) {
                    return true;
                }
            }
            Event::NextRange => return false,
        }
    }
    false
}

/// Returns whether some pre-release that has the numbers of a partial version isn't below a
/// borrowed version by precedence. If the partial version has no pre-release, none counts.
fn has_numbers_of(here: &Conjunction<'_>, partial: &Partial<'_>, version: &VersionRef<'_>) -> bool
    ensures { (result ≡ true) ↔ sets.HasAtOrAbove IsPreRelease
        (λ v. in_each here.now v && states_at partial.now v) (version_of version.now).plain }
{
    match stated_numbers(partial) {
        Some(numbers) => here.has_stated_from(&numbers, version),
        None => false,
    }
}
