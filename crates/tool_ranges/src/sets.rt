//! A range string as the set of the versions that satisfy it.

ghost use Rattle.std.specs.Prelude.{◌≡◌, true, Err, IfOk, Bool, not, ◌&&◌};
ghost use Rattle.std.specs.Prelude.{◌||◌};
ghost use Rattle.semver_texts.specs.Digits.{digits_in};
ghost use Rattle.semver_texts.specs.Texts.{Text, is_empty};
ghost use Rattle.semver_texts.specs.Versions.{PlainVersion};
ghost use Rattle.semver_texts.specs.declared.grammar.Digits.{Digits as SomeDigits};
ghost use Rattle.semver_ranges.specs.RangeTree.{Simple as SimpleTree};
ghost use Rattle.semver_ranges.specs.Steps.CursorViews.{IsSimpleOf};
ghost use Rattle.version_sets.specs.Printable.{IsPrintable};
ghost use Rattle.version_sets.specs.VersionSets.{contains, Fits};
ghost use Rattle.tool_ranges.specs.Dialects.{RefusesAs};
ghost use Rattle.semver_ranges.specs.DialectTable.{grammar_of};
ghost use Rattle.tool_ranges.specs.Meanings.{MeansBy};
ghost use Rattle.tool_ranges.specs.Steps.Building.{is_one_of, known, Prints};
ghost use Rattle.tool_ranges.specs.Steps.Checked.{IsCheckedAs};
ghost use Rattle.tool_ranges.specs.Steps.Matching.{begun, counts, ended, is_met, taken, takes_all};
ghost use Rattle.tool_ranges.specs.Steps.Matching.{states_at, takes_releases, term_met};
ghost use Rattle.semver_ranges.specs.Sides.{term_fits};
ghost use Rattle.std.specs.List.{list_any};
ghost use Rattle.version_sets.specs.Steps.Ends.{each_prints, has_numbers, in_each, in_ranges};
ghost use Rattle.version_sets.specs.Steps.Ends.{ranges_print};

use crate::intervals::{bounds, release};
use crate::matching::{interval_of, matches_everything, takes_all};
use crate::reading::checked_of;
use semver_ranges::RangeError;
use semver_ranges::checked::Checked;
use semver_ranges::dialect::Dialect;
use semver_ranges::events::Event;
use semver_ranges::grammar::Simple;
use semver_ranges::partial::Partial;
use std::alloc::{AllocError, Global};
use version_sets::{Conjunction, PreReleases, Ranges, Release, VersionSet};

/// Reads a range into the set of the versions that satisfy it. The string is checked first, so
/// nothing is allocated for an invalid one.
#[inline(always)]
pub(crate) fn read(
    alloc: Global,
    range: &str,
    dialect: Dialect,
    rule: PreReleases,
) -> Result<VersionSet, RangeError>
    ensures refusals { RefusesAs dialect range.now result }
    ensures meaning { IfOk result (λ set. MeansBy dialect rule range.now set) }
    ensures printable { IfOk result IsPrintable }
    ensures digits { IfOk result (λ set. set.digits ≡ digits_in (grammar_of dialect)) }
{
    let checked = checked_of(range, dialect)?;
    match set_of(alloc, checked, dialect, rule) {
        Ok(set) => Ok(set),
        Err(_) => Err(RangeError::OutOfMemory),
    }
}

/// Returns the set of a range that was checked. `Err` means out of memory.
#[inline(always)]
fn set_of(
    alloc: Global,
    mut checked: Checked<'_>,
    dialect: Dialect,
    rule: PreReleases,
) -> Result<VersionSet, AllocError>
    requires { (t : Text)
        × IsCheckedAs dialect t checked }
    ensures meaning { IfOk result (λ set. (t : Text)
        → IsCheckedAs dialect t checked.entry
        → MeansBy dialect rule t set) }
    ensures printable { IfOk result IsPrintable }
    ensures digits { IfOk result (λ set. set.digits ≡ digits_in (grammar_of dialect)) }
{
    let all = takes_all(rule);
    let grammar = dialect.grammar();
    let mut building = Building::new(alloc);
    while let Some(event) = checked.next(grammar) {
        match event {
            Event::Simple(simple) => building.push_term(&simple, dialect, all)?,
            Event::NextRange => building.end_range(all)?,
        }
    }
    building.into_set(alloc, dialect, rule)
}

/// What is known after some terms of a range string.
#[derive(Drop)]
pub(crate) struct Building<'text> {
    /// The versions of earlier ranges.
    ranges: Ranges<'text>,
    /// The versions that satisfy the terms of the current range so far.
    here: Conjunction<'text>,
    /// The numbers of the terms of the current range that name a pre-release.
    stated: Vec<Release>,
    /// Whether the current range matches everything so far.
    matches_all: bool,
    /// Whether an earlier range matches everything.
    matched_all: bool,
}

impl<'text> Building<'text> {
    /// Returns what is known before the first term. It does not allocate.
    fn new(alloc: Global) -> Building<'text>
        ensures known { (all : Bool) (v : PlainVersion) → Fits v
            → known all v result ≡ begun (counts all v) }
        ensures prints { (digits : SomeDigits) → Prints digits result }
    {
        Building {
            ranges: Ranges::new(alloc),
            here: Conjunction::new(),
            stated: Vec::new(alloc),
            matches_all: true,
            matched_all: false,
        }
    }

    /// Adds a term. `Err` means out of memory.
    #[inline(always)]
    fn push_term(
        &mut self,
        simple: &Simple<'text>,
        dialect: Dialect,
        all: bool,
    ) -> Result<(), AllocError>
        requires { (s : SimpleTree) × IsSimpleOf s simple.now }
        ensures known { IfOk result (λ _. (s : SimpleTree) (v : PlainVersion)
            → IsSimpleOf s simple.now → term_fits dialect s ≡ true → Fits v
            → known all v self.new ≡ taken dialect all v s (known all v self.old)) }
        ensures prints { IfOk result (λ _. Prints (digits_in (grammar_of dialect)) self.old
            → Prints (digits_in (grammar_of dialect)) self.new) }
    {
        self.here = with_term(self.here, simple, dialect, all);
        self.matches_all &= matches_everything(simple);
        if let Some(numbers) = stated_numbers(&simple.partial) {
            self.stated.push(numbers)?;
        }
        Ok(())
    }

    /// Ends a range. `Err` means out of memory.
    #[inline(never)]
    fn end_range(&mut self, all: bool) -> Result<(), AllocError>
        ensures known { IfOk result (λ _. (v : PlainVersion) → Fits v
            → known all v self.new ≡ ended (counts all v) (known all v self.old)) }
        ensures prints { IfOk result (λ _. (digits : SomeDigits)
            → Prints digits self.old → Prints digits self.new) }
    {
        self.ranges.push_releases(&self.here)?;
        push_pre_releases(&mut self.ranges, &self.here, &self.stated, all)?;
        self.matched_all |= self.matches_all;
        self.matches_all = true;
        self.here = Conjunction::new();
        self.stated.clear();
        Ok(())
    }
}

impl Building<'_> {
    /// Returns the set at the end of the string. `Err` means out of memory.
    fn into_set(
        self,
        alloc: Global,
        dialect: Dialect,
        rule: PreReleases,
    ) -> Result<VersionSet, AllocError>
        ensures meaning { IfOk result (λ set. (v : PlainVersion) → Fits v
            → contains set v ≡ is_met dialect rule v
            (ended (counts (takes_all rule) v) (known (takes_all rule) v self.entry))) }
        ensures printable { Prints (digits_in (grammar_of dialect)) self.entry
            → IfOk result IsPrintable }
        ensures digits { IfOk result (λ set. set.digits ≡ digits_in (grammar_of dialect)) }
    {
        let digits = dialect.grammar().digits();
        if (self.matched_all | self.matches_all) & is_by_default_of_npm(dialect, rule) {
            return Ranges::new(alloc).into_set(alloc, &Conjunction::new(), digits);
        }
        let mut ranges = self.ranges;
        push_pre_releases(&mut ranges, &self.here, &self.stated, takes_all(rule))?;
        let set = ranges.into_set(alloc, &self.here, digits)?;
        match rule {
            PreReleases::Excluded => Ok(set.only_releases(alloc)),
            PreReleases::ByDialect | PreReleases::Included => Ok(set),
        }
    }
}

/// Returns the versions of a range that satisfy one more term.
#[inline(always)]
pub(crate) fn with_term<'text>(
    here: Conjunction<'text>,
    simple: &Simple<'text>,
    dialect: Dialect,
    all: bool,
) -> Conjunction<'text>
    requires { (s : SimpleTree) × IsSimpleOf s simple.now }
    ensures meaning { (s : SimpleTree) (v : PlainVersion) → IsSimpleOf s simple.now
        → term_fits dialect s ≡ true → Fits v
        → in_each result v ≡ (in_each here.entry v && term_met dialect all v s) }
    ensures printable { each_prints (digits_in (grammar_of dialect)) here.entry ≡ true
        → each_prints (digits_in (grammar_of dialect)) result ≡ true }
{
    let pre_releases = interval_of(simple, dialect, !all);
    let digits = dialect.grammar().digits();
    here.and(&bounds(simple, dialect), &pre_releases, digits)
}

/// Adds the pre-releases of a range that count. `Err` means out of memory.
fn push_pre_releases<'text>(
    ranges: &mut Ranges<'text>,
    here: &Conjunction<'text>,
    stated: &[Release],
    all: bool,
) -> Result<(), AllocError>
    ensures known { IfOk result (λ _. (v : PlainVersion) → Fits v
        → in_ranges ranges.new v ≡ (in_ranges ranges.old v || (not (is_empty v.pre)
        && (in_each here.now v && (counts all v || list_any (has_numbers v) stated.now))))) }
    ensures prints { IfOk result (λ _. (digits : SomeDigits) → each_prints digits here.now ≡ true
        → ranges_print digits ranges.old ≡ true → ranges_print digits ranges.new ≡ true) }
{
    if all {
        return ranges.push_pre_releases(here);
    }
    for numbers in stated {
        ranges.push_stated(here, numbers)?;
    }
    Ok(())
}

/// Returns the numbers of a partial version, if it names all three and a pre-release.
pub(crate) fn stated_numbers(partial: &Partial<'_>) -> Option<Release>
    ensures { (v : PlainVersion) → states_at partial.now v ≡ is_one_of result v }
{
    if partial.has_pre_release() && partial.states_three() {
        Some(release(partial.numbers()))
    } else {
        None
    }
}

/// Returns whether, if some range matches everything, every release satisfies the string and no
/// pre-release does.
pub(crate) fn is_by_default_of_npm(dialect: Dialect, rule: PreReleases) -> bool
    ensures { result ≡ takes_releases dialect rule }
{
    matches!(dialect, Dialect::Npm) && !takes_all(rule)
}
