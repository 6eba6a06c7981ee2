//! Writes a set as a string, directly from its boundaries.

ghost use Rattle.std.specs.Prelude.{◌≡◌, codes, map};
ghost use Rattle.std.specs.Fmt.{WritesOnOk};
ghost use Rattle.version_sets.specs.SetRanges.{intervals, is_whole, kinds_text, npm_range};
ghost use Rattle.version_sets.specs.SetRanges.{npm_set, range_text_by, ranges_text_by};
ghost use Rattle.version_sets.specs.Steps.ComparatorRefs.{interval_value, others_text};

use crate::boundary::Boundary;
use crate::comparators::{ComparatorRef, IntervalComparators, first_interval, is_lowest};
use crate::version_set::VersionSet;
use semver_texts::printing::write_part;
use std::fmt;

impl fmt::Display for ComparatorRef<'_> {
    ghost use Rattle.std.specs.Prelude.{Some};
    ghost use Rattle.semver_ranges.specs.PrintedRanges.{comparator_text};
    ghost use Rattle.version_sets.specs.Steps.ComparatorRefs.{comparator_value};

    ghost output = { λ s. Some (comparator_text (comparator_value s)) };

    /// Writes the comparator as the `Comparator` of the same parts is written.
    fn fmt<W: fmt::Write>(&self, f: &mut fmt::Formatter<W>) -> fmt::Result {
        let (op, numbers) = (&self.op, self.numbers);
        let (major, minor, patch) = (numbers.major, numbers.minor, numbers.patch);
        write!(f, "{op}{major}.{minor}.{patch}")?;
        write_part(f, "-", self.pre)
    }
}

// Determined by: equation.
impl fmt::Display for VersionSet {
    ghost use Rattle.std.specs.Prelude.{Some};

    ghost output = { λ set. Some (kinds_text (codes " ") set) };

    /// Writes the set in npm's syntax, in which a space separates the comparators.
    fn fmt<W: fmt::Write>(&self, f: &mut fmt::Formatter<W>) -> fmt::Result {
        self.write_joined(f, " ")
    }
}

impl VersionSet {
    // Determined by: equation.
    /// Writes the set, with a string between the comparators of an interval. First come its
    /// releases as a range, or `<0.0.0-0` if the set is empty. If it contains pre-releases, they
    /// follow after `, pre-releases `, as a range that is to be compared by precedence. If it
    /// contains only pre-releases, the first comma is missing. It does not allocate, and its only
    /// error is the writer's.
    pub fn write_joined<W: fmt::Write>(&self, f: &mut fmt::Formatter<W>, joint: &str) -> fmt::Result
        ensures writes { WritesOnOk W.write_str_gives f.old result
            (kinds_text joint.now self.now) f.new }
    {
        if self.pre_releases.is_empty() {
            return write_ranges(f, &self.releases, joint);
        }
        if self.releases.is_empty() {
            f.write_str("pre-releases ")?;
            return write_ranges(f, &self.pre_releases, joint);
        }
        write_ranges(f, &self.releases, joint)?;
        f.write_str(", pre-releases ")?;
        write_ranges(f, &self.pre_releases, joint)
    }
}

/// Writes the intervals of increasing boundaries, separated by ` || `: `*` if they contain all
/// versions of the kind, and `<0.0.0-0` if they contain none.
fn write_ranges<W: fmt::Write, T: Boundary>(
    f: &mut fmt::Formatter<W>,
    boundaries: &[T],
    joint: &str,
) -> fmt::Result
    ensures { WritesOnOk W.write_str_gives f.old result
        (ranges_text_by joint.now (npm_set (intervals T.kind (map T.place boundaries.now)))) f.new }
{
    if is_whole(boundaries) {
        return f.write_str("*");
    }
    let Some((first, others)) = first_interval(boundaries) else {
        return f.write_str("<0.0.0-0");
    };
    write_interval(f, &first, joint)?;
    write_others(f, others, joint)
}

/// Writes intervals, each after ` || `.
fn write_others<W: fmt::Write, T: Boundary>(
    f: &mut fmt::Formatter<W>,
    boundaries: &[T],
    joint: &str,
) -> fmt::Result
    ensures { WritesOnOk W.write_str_gives f.old result
        (others_text joint.now (intervals T.kind (map T.place boundaries.now))) f.new }
{
    let mut left = boundaries;
    while let Some((next, others)) = first_interval(left) {
        f.write_str(" || ")?;
        write_interval(f, &next, joint)?;
        left = others;
    }
    Ok(())
}

/// Writes the comparators of an interval, with a string between them.
fn write_interval<W: fmt::Write>(
    f: &mut fmt::Formatter<W>,
    interval: &IntervalComparators<'_>,
    joint: &str,
) -> fmt::Result
    ensures { WritesOnOk W.write_str_gives f.old result
        (range_text_by joint.now (npm_range (interval_value interval.now))) f.new }
{
    let first = &interval.first;
    match &interval.second {
        None => write!(f, "{first}"),
        Some(second) => write!(f, "{first}{joint}{second}"),
    }
}

/// Returns whether the intervals contain all versions of a kind. The last release of all has no
/// upper bound either, but it is written as a single version.
fn is_whole<T: Boundary>(boundaries: &[T]) -> bool
    ensures { result ≡ is_whole (intervals T.kind (map T.place boundaries.now)) }
{
    match boundaries {
        [only, others @ ..] if others.is_empty() => {
            is_lowest(only) && !only.is_alone(others.first())
        }
        _ => false,
    }
}
