//! Which number of a term is too large.

ghost use Rattle.std.specs.Prelude.{◌≡◌, ◌<◌, ℕ, not, option_map, IfSome, Some, nat_le, true};
ghost use Rattle.std.specs.List.{list_all};
ghost use Rattle.semver_texts.specs.Texts.{cut_at_dots, is_part};
ghost use Rattle.semver_ranges.specs.Partials.{stated};
ghost use Rattle.semver_ranges.specs.RangeTree.{PartialTree, Simple as SimpleTree};
ghost use Rattle.semver_ranges.specs.Sides.{above, raised_for, raised_index};
ghost use Rattle.semver_ranges.specs.Steps.PartialViews.{AreWritten, IsValue, place_number};
ghost use Rattle.semver_ranges.specs.Steps.PartialViews.{side_value};
ghost use Rattle.semver_ranges.specs.CargoGrammar.{read_in};
ghost use Rattle.semver_ranges.specs.DialectTable.{grammar_of};
ghost use Rattle.tool_ranges.specs.FittingTerms.{first_above, too_large};

use semver_ranges::dialect::Dialect;
use semver_ranges::grammar::Simple;
use semver_ranges::operator::Operator;
use semver_ranges::partial::{Component, Components, Place};
use semver_ranges::table::{Side, fits, limit, sides};

// Determined by: equation.
/// Returns the index of the number of a term that is too large, or `None` if the term fits. It is
/// that of the first number above the limit of the dialect, or if there is none, that of the number
/// that is raised for one of the sides and can't be. It is below 3.
#[must_use]
pub fn too_large(operator: Operator, written: &Components<'_>, dialect: Dialect) -> Option<usize>
    requires { list_all is_part (cut_at_dots written.now.pre.now) ≡ true }
    ensures value { (s : SimpleTree) → operator ≡ s.operator → AreWritten s.partial written.now
        → result ≡ too_large dialect (read_in (grammar_of dialect) s) }
    ensures small { IfSome result (λ index. index < 3) }
{
    let simple = Simple::of(operator, written, dialect.grammar());
    if fits(&simple, dialect) {
        return None;
    }
    let (lower, upper) = sides(&simple, dialect);
    match first_above(written, limit(dialect)) {
        Some(index) => Some(index),
        None => Some(raised_index(lower, upper)),
    }
}

/// Returns the index of the first number above a limit, if there is one.
fn first_above(written: &Components<'_>, most: u64) -> Option<usize>
    ensures value { (p : PartialTree) → AreWritten p written.now
        → result ≡ first_above most (stated p) }
    ensures small { IfSome result (λ index. index < 3) }
{
    let Component::Number(major) = written.major else {
        return None;
    };
    if is_above(major, most) {
        return Some(0);
    }
    let Some(minor) = written.minor else {
        return None;
    };
    let Component::Number(minor) = minor else {
        return None;
    };
    if is_above(minor, most) {
        return Some(1);
    }
    let Some(patch) = written.patch else {
        return None;
    };
    let Component::Number(patch) = patch else {
        return None;
    };
    if is_above(patch, most) {
        return Some(2);
    }
    None
}

/// Returns whether a number is above a limit.
fn is_above(number: Option<u64>, most: u64) -> bool
    ensures { (n : ℕ) → IsValue n number → nat_le n most ≡ not result }
{
    match number {
        Some(number) => number > most,
        None => true,
    }
}

/// Returns the index of the number that is raised for the lower side, or else for the upper one. It
/// is 0 if none is.
fn raised_index(lower: Option<Side>, upper: Option<Side>) -> usize
    ensures value { result
        ≡ raised_index (option_map side_value lower, option_map side_value upper) }
    ensures small { result < 3 }
{
    match (lower, upper) {
        (Some(Side::Above(place)), _) => index(place),
        (_, Some(Side::Above(place))) => index(place),
        _ => 0,
    }
}

/// Returns the index of the number at a place, counted from 0.
fn index(place: Place) -> usize
    ensures value { result ≡ raised_for (Some (above (place_number place))) }
    ensures small { result < 3 }
{
    match place {
        Place::Major => 0,
        Place::Minor => 1,
        Place::Patch => 2,
    }
}
