//! Decides whether a version satisfies a range string. Nothing here allocates.

ghost use Rattle.std.specs.Prelude.{◌≡◌, ◌≢◌, ◌&&◌, ◌||◌, not, true, if◌then◌else◌, Err, IfOk};
ghost use Rattle.std.specs.Prelude.{Bool, MatchResult};
ghost use Rattle.semver_texts.specs.Digits.{digits_in, plain_by};
ghost use Rattle.semver_texts.specs.Texts.{is_empty};
ghost use Rattle.semver_texts.specs.Versions.{PlainVersion, without_build};
ghost use Rattle.semver_ranges.specs.RangeTree.{Simple as SimpleTree, SetTree};
ghost use Rattle.semver_ranges.specs.Steps.CursorViews.{IsSimpleOf};
ghost use Rattle.semver_ranges.specs.Steps.PartialViews.{PartsPass, stated_of, version_of};
ghost use Rattle.version_sets.specs.PreReleaseRules.{numbers_fit};
ghost use Rattle.version_sets.specs.Steps.Cuts.{is_in_interval};
ghost use Rattle.tool_ranges.specs.Dialects.{RefusesAs, SpellsAs};
ghost use Rattle.semver_ranges.specs.DialectTable.{grammar_of};
ghost use Rattle.tool_ranges.specs.Meanings.{meant_by};
ghost use Rattle.semver_ranges.specs.Sides.{term_fits, sides_fit};
ghost use Rattle.tool_ranges.specs.Steps.Matching.{Says, begun, counts, ended, plain_of};
ghost use Rattle.tool_ranges.specs.Steps.Matching.{is_met, states_at, taken, takes_all, term_met};
ghost use Rattle.tool_ranges.specs.Steps.Reading.{IsRead, IsRefusedAs};
ghost use Rattle.tool_ranges.specs.Steps.Table.{is_counted_within, is_within};
ghost use Rattle.tool_ranges.specs.NpmMeaning.{asks_nothing_by, is_zero};

use crate::intervals::{bounds, counted, is_zero};
use crate::reading::events_of;
use semver_ranges::RangeError;
use semver_ranges::dialect::Dialect;
use semver_ranges::events::Event;
use semver_ranges::grammar::Simple;
use semver_ranges::operator::Operator;
use semver_ranges::partial::Partial;
use semver_ranges::table::fits;
use semver_versions::version::VersionRef;
use version_sets::{Interval, PreReleases};

/// Returns whether a version satisfies a range.
#[inline(always)]
pub(crate) fn answer(
    version: &VersionRef<'_>,
    range: &str,
    dialect: Dialect,
    rule: PreReleases,
) -> Result<bool, RangeError>
    requires { numbers_fit (plain_of version.now) ≡ true }
    ensures refusals { RefusesAs dialect range.now result }
    ensures no_memory { result ≢ Err RangeError.OutOfMemory }
    ensures meaning { IfOk result (λ met. (tree : SetTree) → SpellsAs dialect tree range.now
        → met ≡ meant_by dialect rule tree (without_build (plain_of version.now))) }
{
    match matches(version, range, dialect, takes_all(rule)) {
        Ok(progress) => Ok(is_met(&progress, is_release(version), dialect, rule)),
        Err(refusal) => Err(refusal),
    }
}

/// Returns whether each pre-release within the bounds counts.
#[inline(always)]
pub(crate) fn takes_all(rule: PreReleases) -> bool
    ensures { result ≡ takes_all rule }
{
    matches!(rule, PreReleases::Included)
}

/// Returns whether the version satisfies the range, by what is known at the end of the string. In
/// npm's dialect, if some range matches everything, every release satisfies the string by default,
/// and no pre-release does.
#[inline(always)]
fn is_met(progress: &Progress, is_release: bool, dialect: Dialect, rule: PreReleases) -> bool
    ensures { (v : PlainVersion) → is_release ≡ is_empty v.pre
        → result ≡ is_met dialect rule v progress.now }
{
    let met = match (dialect, rule) {
        (Dialect::Npm, PreReleases::ByDialect | PreReleases::Excluded) if progress.matched_all =>
            is_release,
        _ => progress.met,
    };
    match rule {
        PreReleases::Excluded => is_release && met,
        PreReleases::ByDialect | PreReleases::Included => met,
    }
}

/// What is known of a version after some terms of a range string.
#[derive(Clone, Copy)]
pub(crate) struct Progress {
    /// Whether it satisfies the terms of the current range so far.
    here: bool,
    /// Whether it counts in the current range.
    counts: bool,
    /// Whether the current range matches everything so far.
    matches_all: bool,
    /// Whether it satisfies an earlier range, and counts in it.
    met: bool,
    /// Whether an earlier range matches everything.
    matched_all: bool,
}

impl Progress {
    /// Returns what is known before the first term. A version counts from the beginning, or from
    /// the first term that names its numbers and a pre-release.
    #[inline(always)]
    fn new(counts: bool) -> Progress
        ensures { result ≡ begun counts }
    {
        Progress {
            here: true,
            counts,
            matches_all: true,
            met: false,
            matched_all: false,
        }
    }

    /// Returns what is known after one more term. `by_default` says whether to use the interval for
    /// pre-releases that count by default.
    #[inline(always)]
    fn with_term(
        self,
        simple: &Simple<'_>,
        version: &VersionRef<'_>,
        dialect: Dialect,
        by_default: bool,
    ) -> Progress
        requires { (s : SimpleTree) × IsSimpleOf s simple.now }
        ensures { (s : SimpleTree) (all : Bool) → IsSimpleOf s simple.now
            → term_fits dialect s ≡ true
            → by_default ≡ (not all && not (is_empty (plain_of version.now).pre))
            → result ≡ taken dialect all (plain_of version.now) s self }
    {
        Progress {
            here: self.here & meets(simple, version, dialect, by_default),
            counts: self.counts | is_stated_by(version, &simple.partial),
            matches_all: self.matches_all & matches_everything(simple),
            ..self
        }
    }

    /// Returns what is known at the end of a range.
    #[inline(always)]
    fn ended(self, counts: bool) -> Progress
        ensures { result ≡ ended counts self }
    {
        Progress {
            here: true,
            counts,
            matches_all: true,
            met: self.met | (self.here & self.counts),
            matched_all: self.matched_all | self.matches_all,
        }
    }
}

/// Returns what is known of a version at the end of a string. If `takes_all`, each pre-release
/// counts.
#[inline(always)]
fn matches(
    version: &VersionRef<'_>,
    range: &str,
    dialect: Dialect,
    takes_all: bool,
) -> Result<Progress, RangeError>
    ensures { MatchResult result
        (λ progress. IsRead dialect range.now
        (Says dialect takes_all (plain_of version.now) progress))
        (λ e. IsRefusedAs dialect range.now e) }
{
    let grammar = dialect.grammar();
    let counts = counts(version, takes_all);
    let mut events = events_of(range, dialect)?;
    let mut fit = true;
    let mut progress = Progress::new(counts);
    while let Some(event) = events.next_in(grammar) {
        match event? {
            Event::Simple(simple) => {
                fit &= fits(&simple, dialect);
                progress = progress.with_term(&simple, version, dialect, !counts);
            }
            Event::NextRange => progress = progress.ended(counts),
        }
    }
    if !fit {
        return Err(RangeError::NumberTooLarge);
    }
    Ok(progress.ended(counts))
}

/// Returns whether a version counts in each range, whatever its terms name.
#[inline(always)]
fn counts(version: &VersionRef<'_>, takes_all: bool) -> bool
    ensures { result ≡ counts takes_all (plain_of version.now) }
{
    takes_all || is_release(version)
}

/// Returns whether a version satisfies a term.
#[inline(always)]
fn meets(simple: &Simple<'_>, version: &VersionRef<'_>, dialect: Dialect, by_default: bool) -> bool
    requires { (s : SimpleTree) × IsSimpleOf s simple.now }
    ensures { (s : SimpleTree) (all : Bool) → IsSimpleOf s simple.now → term_fits dialect s ≡ true
        → by_default ≡ (not all && not (is_empty (plain_of version.now).pre))
        → result ≡ term_met dialect all (plain_of version.now) s }
{
    interval_of(simple, dialect, by_default).contains(version, dialect.grammar().digits())
}

/// Returns the interval of a term: the one for all versions, or if `by_default`, the one for
/// pre-releases that count by default.
#[inline(always)]
pub(crate) fn interval_of<'t>(
    simple: &Simple<'t>,
    dialect: Dialect,
    by_default: bool,
) -> Interval<'t>
    requires { PartsPass simple.now.partial }
    ensures { sides_fit dialect simple.now.operator (stated_of simple.now.partial)
        (version_of simple.now.partial) ≡ true → (v : PlainVersion)
        → is_in_interval (digits_in (grammar_of dialect)) result v
        ≡ (if by_default then is_counted_within dialect simple.now.operator
        (stated_of simple.now.partial)
        (plain_by (digits_in (grammar_of dialect)) (version_of simple.now.partial)) v
        else is_within dialect simple.now.operator (stated_of simple.now.partial)
        (plain_by (digits_in (grammar_of dialect)) (version_of simple.now.partial)) v) }
{
    if by_default {
        counted(simple, dialect)
    } else {
        bounds(simple, dialect)
    }
}

/// Returns whether a version has no pre-release.
#[inline(always)]
fn is_release(version: &VersionRef<'_>) -> bool
    ensures { result ≡ is_empty (plain_of version.now).pre }
{
    !version.is_pre_release()
}

/// Returns whether a partial version names the three numbers of a version, and a pre-release.
#[inline(always)]
fn is_stated_by(version: &VersionRef<'_>, partial: &Partial<'_>) -> bool
    ensures { result ≡ states_at partial.now (plain_of version.now) }
{
    partial.has_pre_release()
        && partial.states_three()
        && version.major() == partial.major()
        && version.minor() == partial.minor()
        && version.patch() == partial.patch()
}

/// Returns whether npm matches everything with a term.
#[inline(always)]
pub(crate) fn matches_everything(simple: &Simple<'_>) -> bool
    ensures { result ≡ asks_nothing_by simple.now.operator
        (is_empty (stated_of simple.now.partial)) (is_zero (version_of simple.now.partial)) }
{
    match simple.operator {
        Operator::Less | Operator::Greater => false,
        Operator::GreaterOrEqual | Operator::Hyphen => is_zero(&simple.partial),
        _ => simple.partial.states_nothing(),
    }
}
