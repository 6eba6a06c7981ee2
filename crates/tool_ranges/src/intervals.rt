//! The intervals of each term, in each dialect: the one for all versions, and the one for the
//! pre-releases that count by default.

ghost use Rattle.std.specs.Prelude.{◌≡◌, ◌-◌, ◌^◌, true, not, option_map};
ghost use Rattle.semver_texts.specs.Digits.{plain_by};
ghost use Rattle.semver_texts.specs.Texts.{is_empty};
ghost use Rattle.semver_texts.specs.Versions.{numbers, PlainVersion};
ghost use Rattle.semver_texts.specs.declared.grammar.Digits.{Digits as SomeDigits};
ghost use Rattle.semver_ranges.specs.Sides.{may_rise, sides_fit};
ghost use Rattle.semver_ranges.specs.Steps.PartialViews.{PartsPass, side_value, stated_of};
ghost use Rattle.semver_ranges.specs.Steps.PartialViews.{version_of};
ghost use Rattle.semver_ranges.specs.declared.dialect.Dialect.TheVariants.{Cargo, Npm};
ghost use Rattle.version_sets.specs.Steps.Cuts.{beside_kept, is_in_interval};
ghost use Rattle.version_sets.specs.Steps.Cuts.{is_above_lower, is_above_upper, is_past_lower};
ghost use Rattle.version_sets.specs.Steps.Cuts.{is_past_upper, is_between};
ghost use Rattle.tool_ranges.specs.NpmMeaning.{is_zero};
ghost use Rattle.tool_ranges.specs.Steps.Table.{is_within, cargo_sides, is_counted_within};
ghost use Rattle.tool_ranges.specs.Steps.Table.{is_past_release, sides_beside};

use semver_ranges::dialect::Dialect;
use semver_ranges::grammar::Simple;
use semver_ranges::operator::Operator;
use semver_ranges::partial::{Partial, PartialKind};
use semver_ranges::table::{Side, is_past, sides};
use version_sets::{Cut, Interval, Release};

/// Returns the interval of a term, which includes all pre-releases within its bounds.
#[inline(always)]
pub(crate) fn bounds<'t>(simple: &Simple<'t>, dialect: Dialect) -> Interval<'t>
    requires { PartsPass simple.now.partial }
    ensures { (digits : SomeDigits) (v : PlainVersion) → is_in_interval digits result v
        ≡ is_within dialect simple.now.operator (stated_of simple.now.partial)
        (plain_by digits (version_of simple.now.partial)) v }
{
    between(&simple.partial, sides(simple, dialect))
}

/// Returns the interval between two sides of the zero-filled version of a partial version.
#[inline(always)]
fn between<'t>(partial: &Partial<'t>, sides: (Option<Side>, Option<Side>)) -> Interval<'t>
    requires { PartsPass partial.now }
    ensures { (digits : SomeDigits) (v : PlainVersion) → is_in_interval digits result v
        ≡ is_between (option_map side_value sides.0, option_map side_value sides.1)
        (plain_by digits (version_of partial.now)) v }
{
    Interval {
        lower: beside(partial, sides.0),
        upper: beside(partial, sides.1),
    }
}

/// Returns the cut at a side of the zero-filled version of a partial version, if there is a side.
#[inline(always)]
fn beside<'t>(partial: &Partial<'t>, side: Option<Side>) -> Option<Cut<'t>>
    requires { PartsPass partial.now }
    ensures lower { (digits : SomeDigits) (v : PlainVersion) → is_past_lower digits result v
        ≡ is_above_lower (option_map side_value side)
        (plain_by digits (version_of partial.now)) v }
    ensures upper { (digits : SomeDigits) (v : PlainVersion) → is_past_upper digits result v
        ≡ is_above_upper (option_map side_value side)
        (plain_by digits (version_of partial.now)) v }
{
    match side {
        Some(side) => Some(cut(partial, side)),
        None => None,
    }
}

/// Returns the cut at a side of the zero-filled version of a partial version.
#[inline(always)]
fn cut<'t>(partial: &Partial<'t>, side: Side) -> Cut<'t>
    requires { PartsPass partial.now }
    ensures version { beside_kept result ≡ version_of partial.now }
    ensures side { result.side ≡ side }
{
    Cut::new(release(partial.numbers()), partial.pre(), side)
}

/// Returns the interval of the pre-releases that satisfy a term, if they count by default.
#[inline(always)]
pub(crate) fn counted<'t>(simple: &Simple<'t>, dialect: Dialect) -> Interval<'t>
    requires { PartsPass simple.now.partial }
    ensures { sides_fit dialect simple.now.operator (stated_of simple.now.partial)
        (version_of simple.now.partial) ≡ true → (digits : SomeDigits) (v : PlainVersion)
        → is_in_interval digits result v
        ≡ is_counted_within dialect simple.now.operator (stated_of simple.now.partial)
        (plain_by digits (version_of simple.now.partial)) v }
{
    match dialect {
        Dialect::CrateCargo | Dialect::CrateNpm => bounds(simple, dialect),
        Dialect::Cargo => besides_block(simple),
        Dialect::Npm => from_release(simple),
    }
}

/// Returns the interval for pre-releases by default in Cargo's dialect. If the term has one or two
/// numbers, no pre-release of its block is in the interval, except for `^`.
#[inline(always)]
fn besides_block<'t>(simple: &Simple<'t>) -> Interval<'t>
    requires { PartsPass simple.now.partial }
    ensures { (digits : SomeDigits) (v : PlainVersion) → is_in_interval digits result v
        ≡ is_counted_within Cargo simple.now.operator (stated_of simple.now.partial)
        (plain_by digits (version_of simple.now.partial)) v }
{
    between(&simple.partial, cargo_sides(simple))
}

/// Returns the sides of the interval for pre-releases in Cargo's dialect. If both sides are equal,
/// the interval is empty.
#[inline(always)]
fn cargo_sides(simple: &Simple<'_>) -> (Option<Side>, Option<Side>)
    ensures lower { option_map side_value result.0 ≡ (cargo_sides simple.now.operator
        (stated_of simple.now.partial) (not (is_empty (version_of simple.now.partial).pre))).0 }
    ensures upper { option_map side_value result.1 ≡ (cargo_sides simple.now.operator
        (stated_of simple.now.partial) (not (is_empty (version_of simple.now.partial).pre))).1 }
{
    match simple.partial.kind() {
        PartialKind::XRangeOnly => (Some(Side::Below), Some(Side::Below)),
        PartialKind::MajorOnly | PartialKind::MajorMinor => sides_beside(simple),
        PartialKind::MajorMinorPatch => sides(simple, Dialect::Cargo),
    }
}

/// Returns the sides of the interval for pre-releases in Cargo's dialect, for a term of one or two
/// numbers.
#[inline(always)]
fn sides_beside(simple: &Simple<'_>) -> (Option<Side>, Option<Side>)
    ensures lower { option_map side_value result.0 ≡ (sides_beside simple.now.operator
        (stated_of simple.now.partial) (not (is_empty (version_of simple.now.partial).pre))).0 }
    ensures upper { option_map side_value result.1 ≡ (sides_beside simple.now.operator
        (stated_of simple.now.partial) (not (is_empty (version_of simple.now.partial).pre))).1 }
{
    match simple.operator {
        Operator::Caret | Operator::Greater => sides(simple, Dialect::Cargo),
        Operator::GreaterOrEqual | Operator::Hyphen => {
            let greater = Simple {
                operator: Operator::Greater,
                partial: simple.partial,
            };
            sides(&greater, Dialect::Cargo)
        }
        Operator::Less | Operator::LessOrEqual => (None, Some(Side::Below)),
        _ => (Some(Side::Below), Some(Side::Below)),
    }
}

/// Returns the interval for pre-releases by default in npm's dialect. It begins at the version of
/// the term, or for `>` with one or two numbers at the next release, such as 1.3.0 for `>1.2`, even
/// if the interval for all versions begins below all pre-releases of these numbers. If it begins at
/// 0.0.0, there is no lower bound, except for `=0.0.0`.
#[inline(always)]
fn from_release<'t>(simple: &Simple<'t>) -> Interval<'t>
    requires { PartsPass simple.now.partial }
    ensures { sides_fit Npm simple.now.operator (stated_of simple.now.partial)
        (version_of simple.now.partial) ≡ true → (digits : SomeDigits) (v : PlainVersion)
        → is_in_interval digits result v
        ≡ is_counted_within Npm simple.now.operator (stated_of simple.now.partial)
        (plain_by digits (version_of simple.now.partial)) v }
{
    let (lower, upper) = sides(simple, Dialect::Npm);
    Interval {
        lower: release_of(&simple.partial, lower, is_past(upper)),
        upper: beside(&simple.partial, upper),
    }
}

/// Returns the lower cut of the interval for pre-releases in npm's dialect, if it excludes any
/// version. `is_one` says whether the interval ends directly above the same version, as that of
/// `=0.0.0` does. The raised number saturates, since `matching` computes this also for a term
/// that doesn't fit.
#[inline(always)]
fn release_of<'t>(partial: &Partial<'t>, lower: Option<Side>, is_one: bool) -> Option<Cut<'t>>
    requires { PartsPass partial.now }
    ensures { may_rise (2 ^ 64 - 1) (option_map side_value lower)
        (numbers (version_of partial.now)) ≡ true → (digits : SomeDigits) (v : PlainVersion)
        → is_past_lower digits result v ≡ is_past_release (option_map side_value lower) is_one
        (plain_by digits (version_of partial.now)) v }
{
    match lower {
        None => None,
        Some(Side::Past) => Some(cut(partial, Side::Past)),
        Some(Side::Above(place)) => {
            Some(Cut::new(release(partial.raised(place)), &[], Side::At))
        }
        Some(Side::Below | Side::At) if is_zero(partial) && !is_one => None,
        Some(Side::Below | Side::At) => Some(cut(partial, Side::At)),
    }
}

/// Returns whether the zero-filled version of a partial version is 0.0.0.
#[inline(always)]
pub(crate) fn is_zero(partial: &Partial<'_>) -> bool
    ensures { (digits : SomeDigits) → result ≡ is_zero (plain_by digits (version_of partial.now)) }
{
    partial.major() == 0
        && partial.minor() == 0
        && partial.patch() == 0
        && !partial.has_pre_release()
}

/// Returns the release with three numbers.
#[inline(always)]
pub(crate) fn release(numbers: (u64, u64, u64)) -> Release
    ensures major { result.major ≡ numbers.0 }
    ensures minor { result.minor ≡ numbers.1 }
    ensures patch { result.patch ≡ numbers.2 }
{
    let (major, minor, patch) = numbers;
    Release {
        major,
        minor,
        patch,
    }
}
