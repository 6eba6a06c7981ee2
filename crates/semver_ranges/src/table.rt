//! The table with the sides of each term, between which its versions are, in each dialect.
//!
//! The numbers of a term have a block of versions: if there are one or two, all versions with these
//! numbers (`beginning` says with which pre-releases), and if there are three, only that version.
//! `<` contains the versions below the block, and `<=` those that aren't above it. `>=`, and the
//! left side of a hyphen range, contain the versions that aren't below it. `>` contains those above
//! it, or in the dialects of the crate those above its first version. `=` contains the block
//! itself. `~` and `^` contain the versions from the beginning of the block to the last one with
//! the same numbers up to a place. A term without an operator is read like `=`, or after three
//! numbers in Cargo mode like `^`.

ghost use Rattle.std.specs.Prelude.{◌≡◌, ◌&&◌, not, option_map};
ghost use Rattle.semver_texts.specs.Texts.{is_empty};
ghost use Rattle.semver_texts.specs.Versions.{numbers};
ghost use Rattle.semver_ranges.specs.DialectTable.{limit};
ghost use Rattle.semver_ranges.specs.Sides.{block_begins, ends_past, may_rise, sides};
ghost use Rattle.semver_ranges.specs.Sides.{sides_fit, sides_of_nothing};
ghost use Rattle.semver_ranges.specs.Steps.PartialViews.{side_value, stated_of, version_of};

use crate::dialect::Dialect;
use crate::grammar::Simple;
use crate::operator::Operator;
use crate::partial::{Partial, PartialKind, Place};
use semver_texts::npm_limits::MAX_SAFE_INTEGER;

/// A side of a version, at which an interval of versions begins or ends.
#[derive(Clone, Copy)]
pub enum Side {
    /// Below every version with the same three numbers.
    Below,
    /// Directly below the version.
    At,
    /// Directly above the version.
    Past,
    /// Above every version with the same first numbers, up to a place.
    Above(Place),
}

// Determined by: equation.
/// Returns the sides of the zero-filled version at which the interval of a term begins and ends.
#[inline(always)]
pub fn sides(simple: &Simple<'_>, dialect: Dialect) -> (Option<Side>, Option<Side>)
    ensures lower { option_map side_value result.0 ≡ (sides dialect simple.now.operator
        (stated_of simple.now.partial) (not (is_empty (version_of simple.now.partial).pre))).0 }
    ensures upper { option_map side_value result.1 ≡ (sides dialect simple.now.operator
        (stated_of simple.now.partial) (not (is_empty (version_of simple.now.partial).pre))).1 }
{
    let first = beginning(simple, dialect);
    let partial = &simple.partial;
    let last = match partial.kind() {
        PartialKind::XRangeOnly => return sides_of_nothing(simple.operator, dialect, first),
        PartialKind::MajorOnly => Side::Above(Place::Major),
        PartialKind::MajorMinor => Side::Above(Place::Minor),
        PartialKind::MajorMinorPatch => Side::Past,
    };
    match (simple.operator, dialect) {
        (Operator::Less, _) => (None, Some(first)),
        (Operator::LessOrEqual, _) => (None, Some(last)),
        (Operator::GreaterOrEqual | Operator::Hyphen, _) => (Some(first), None),
        (Operator::Greater, Dialect::Cargo | Dialect::Npm) => (Some(last), None),
        (Operator::Greater, Dialect::CrateCargo | Dialect::CrateNpm) => (Some(Side::Past), None),
        (Operator::Tilde, _) if partial.states_three() => {
            (Some(first), Some(Side::Above(Place::Minor)))
        }
        (Operator::Bare, Dialect::Cargo | Dialect::CrateCargo) if partial.states_three() => {
            (Some(first), Some(Side::Above(partial.leading_place())))
        }
        (Operator::Caret, _) => (Some(first), Some(Side::Above(partial.leading_place()))),
        _ => (Some(first), Some(last)),
    }
}

/// Returns the sides for a term without a number. In Cargo's dialect it is a wildcard alone, which
/// `Simple::of` reads as `=`. In the others, no release satisfies `<*` and `>*`.
#[inline(always)]
fn sides_of_nothing(
    operator: Operator,
    dialect: Dialect,
    first: Side,
) -> (Option<Side>, Option<Side>)
    ensures lower { option_map side_value result.0
        ≡ (sides_of_nothing dialect operator (side_value first)).0 }
    ensures upper { option_map side_value result.1
        ≡ (sides_of_nothing dialect operator (side_value first)).1 }
{
    match (dialect, operator) {
        (Dialect::Cargo, _) => (Some(first), None),
        (_, Operator::Less | Operator::Greater) => (None, Some(first)),
        _ => (Some(first), None),
    }
}

/// Returns at which side of the zero-filled version the block of a term begins:
///
/// - In the dialects of the crate it begins at the zero-filled version.
/// - For Cargo and npm, a block of fewer than three numbers begins below all pre-releases with
///   these numbers, except with Cargo's `<` and npm's `~` after one or two numbers. A block of
///   three numbers begins at the version.
/// - For npm, `^0.2.3` and the left side of any hyphen range begin below all pre-releases of their
///   numbers, too, if they have no pre-release.
#[inline(always)]
fn beginning(simple: &Simple<'_>, dialect: Dialect) -> Side
    ensures { side_value result ≡ block_begins dialect simple.now.operator
        (stated_of simple.now.partial) (not (is_empty (version_of simple.now.partial).pre)) }
{
    let partial = &simple.partial;
    let is_below = match (dialect, partial.kind()) {
        (Dialect::CrateCargo | Dialect::CrateNpm, _) => false,
        (Dialect::Cargo, PartialKind::XRangeOnly) => true,
        (Dialect::Cargo, PartialKind::MajorMinorPatch) => false,
        (Dialect::Cargo, PartialKind::MajorOnly | PartialKind::MajorMinor) => !matches!(
            simple.operator,
            Operator::Less
        ),
        (Dialect::Npm, PartialKind::XRangeOnly) => true,
        (Dialect::Npm, PartialKind::MajorOnly | PartialKind::MajorMinor) => {
            !matches!(simple.operator, Operator::Tilde)
        }
        (Dialect::Npm, PartialKind::MajorMinorPatch) => match simple.operator {
            Operator::Caret => !partial.has_pre_release() && partial.major() == 0,
            Operator::Hyphen => !partial.has_pre_release(),
            _ => false,
        },
    };
    if is_below { Side::Below } else { Side::At }
}

// Determined by: equation.
/// Returns whether an upper side is directly above its version.
#[inline(always)]
pub fn is_past(upper: Option<Side>) -> bool
    ensures { result ≡ ends_past (option_map side_value upper) }
{
    matches!(upper, Some(Side::Past))
}

// Determined by: equation.
/// Returns whether the numbers of a term, and the raised ones, are within the limit of a dialect.
#[inline(always)]
pub fn fits(simple: &Simple<'_>, dialect: Dialect) -> bool
    ensures { result ≡ (simple.now.partial.fits && sides_fit dialect simple.now.operator
        (stated_of simple.now.partial) (version_of simple.now.partial)) }
{
    let most = limit(dialect);
    let partial = &simple.partial;
    let (lower, upper) = sides(simple, dialect);
    partial.states_at_most(most) & may_rise(partial, lower, most) & may_rise(partial, upper, most)
}

// Determined by: equation.
/// Returns the highest number that a dialect allows.
#[must_use]
#[inline(always)]
pub fn limit(dialect: Dialect) -> u64
    ensures { result ≡ limit dialect }
{
    match dialect {
        Dialect::Npm => MAX_SAFE_INTEGER,
        Dialect::Cargo | Dialect::CrateCargo | Dialect::CrateNpm => u64::MAX,
    }
}

/// Returns whether the number that is raised for a side is below a limit.
#[inline(always)]
fn may_rise(partial: &Partial<'_>, side: Option<Side>, most: u64) -> bool
    ensures { result
        ≡ may_rise most (option_map side_value side) (numbers (version_of partial.now)) }
{
    match side {
        Some(Side::Above(place)) => partial.number(place) < most,
        _ => true,
    }
}
