//! Ranges as plain data: comparators, and how they are printed.

ghost use Rattle.std.specs.Prelude.{Some};
ghost use Rattle.semver_ranges.specs.RangeViews.{identifier_of, comparator_of, range_of};

use semver_texts::printing::{write_joined, write_part};
use std::fmt;

/// A range: comparators, all of which a version has to satisfy.
///
/// ```
/// use semver_parser::{Compat, RangeSet};
///
/// let set = RangeSet::parse("^1.2.3 || 3.x", Compat::Npm)?;
/// assert_eq!(set.ranges[0].comparator_set.len(), 2);
/// assert_eq!(set.ranges[0].to_string(), ">=1.2.3 <2.0.0");
/// # Ok::<(), String>(())
/// ```
#[derive(Clone, PartialEq, Eq, PartialOrd, Ord, Hash, Debug, Drop)]
pub struct Range {
    /// The comparators, in the order of the string.
    pub comparator_set: Vec<Comparator>,
    /// The mode in which the string was read.
    pub compat: Compat,
}

/// A comparator: an operator and the version to compare with.
///
/// ```
/// use semver_parser::{Compat, Op, RangeSet};
///
/// let set = RangeSet::parse(">=1.2.3-beta.4", Compat::Npm)?;
/// let comparator = &set.ranges[0].comparator_set[0];
/// assert_eq!((&comparator.op, comparator.major), (&Op::Gte, 1));
/// assert_eq!(comparator.to_string(), ">=1.2.3-beta.4");
/// # Ok::<(), String>(())
/// ```
#[derive(Clone, PartialEq, Eq, PartialOrd, Ord, Hash, Debug, Drop)]
pub struct Comparator {
    /// The comparison that a version has to pass.
    pub op: Op,
    /// The first number.
    pub major: u64,
    /// The second number.
    pub minor: u64,
    /// The third number.
    pub patch: u64,
    /// The identifiers of the pre-release.
    pub pre: Vec<Identifier>,
}

/// The operator of a comparator.
///
/// ```
/// use semver_parser::Op;
///
/// assert_eq!(Op::Gte.to_string(), ">=");
/// ```
#[derive(Clone, PartialEq, Eq, PartialOrd, Ord, Hash, Debug, Drop)]
pub enum Op {
    /// `<`: below.
    Lt,
    /// `<=`: not above.
    Lte,
    /// `>`: above.
    Gt,
    /// `>=`: not below.
    Gte,
    /// `=`: equal by precedence.
    Eq,
}

/// An identifier of a comparator's pre-release. Its type differs from that of a version's
/// identifiers, as in the Rust crate.
///
/// ```
/// use semver_parser::{Compat, Identifier, RangeSet};
///
/// let set = RangeSet::parse("=1.2.3-beta.04", Compat::Npm)?;
/// let pre = &set.ranges[0].comparator_set[0].pre;
/// assert_eq!(pre, &[Identifier::AlphaNumeric("beta".to_string()), Identifier::Numeric(4)]);
/// # Ok::<(), String>(())
/// ```
#[derive(Clone, PartialEq, Eq, PartialOrd, Ord, Hash, Debug, Drop)]
pub enum Identifier {
    /// A part that consists of only digits, with a value up to 2^64 - 1. Leading zeros aren't kept.
    Numeric(u64),
    /// Any other part, as a string.
    AlphaNumeric(String),
}

/// How a bare version of three numbers is read.
///
/// ```
/// use semver_parser::{Compat, RangeSet};
///
/// assert_eq!(RangeSet::parse("1.2.3", Compat::Cargo)?.to_string(), ">=1.2.3 <2.0.0");
/// assert_eq!(RangeSet::parse("1.2.3", Compat::Npm)?.to_string(), "=1.2.3");
/// # Ok::<(), String>(())
/// ```
#[derive(Clone, Copy, PartialEq, Eq, PartialOrd, Ord, Hash, Debug)]
pub enum Compat {
    /// Like a caret: `1.2.3` is `>=1.2.3 <2.0.0`.
    Cargo,
    /// As exactly this version: `1.2.3` is `=1.2.3`.
    Npm,
}

// Determined by: equation.
impl fmt::Display for Op {
    ghost use Rattle.semver_ranges.specs.PrintedRanges.{op_text};

    ghost output = { λ op. Some (op_text op) };

    /// Writes the operator as it is in a range string: `Op::Gte` as `>=`. It does not allocate, and
    /// its only error is the writer's.
    fn fmt<W: fmt::Write>(&self, f: &mut fmt::Formatter<W>) -> fmt::Result {
        f.write_str(match self {
            Op::Lt => "<",
            Op::Lte => "<=",
            Op::Gt => ">",
            Op::Gte => ">=",
            Op::Eq => "=",
        })
    }
}

// Determined by: equation.
impl fmt::Display for Identifier {
    ghost use Rattle.semver_texts.specs.PrintedText.{identifier_text};

    ghost output = { λ i. Some (identifier_text (identifier_of i)) };

    /// Writes the decimal number, or the string itself: `Numeric(4)` as `4`, `AlphaNumeric("beta")`
    /// as `beta`. It does not allocate, and its only error is the writer's.
    #[tactic(auto, using(semver_texts::proofs::LargeNumbers::small_numeral))]
    fn fmt<W: fmt::Write>(&self, f: &mut fmt::Formatter<W>) -> fmt::Result {
        match self {
            Identifier::Numeric(number) => {
                let number = *number;
                write!(f, "{number}")
            }
            Identifier::AlphaNumeric(text) => write!(f, "{text}"),
        }
    }
}

// Determined by: equation.
impl fmt::Display for Comparator {
    ghost use Rattle.semver_ranges.specs.PrintedRanges.{comparator_text};

    ghost output = { λ c. Some (comparator_text (comparator_of c)) };

    /// Writes the operator and all three numbers, separated by dots. If there is a pre-release, `-`
    /// and its identifiers, joined by dots, follow: `>=1.2.3-beta.4`. It does not allocate, and its
    /// only error is the writer's.
    fn fmt<W: fmt::Write>(&self, f: &mut fmt::Formatter<W>) -> fmt::Result {
        let (op, major, minor, patch) = (&self.op, self.major, self.minor, self.patch);
        write!(f, "{op}{major}.{minor}.{patch}")?;
        write_part(f, "-", &self.pre)
    }
}

// Determined by: equation.
impl fmt::Display for Range {
    ghost use Rattle.semver_ranges.specs.PrintedRanges.{range_text};

    ghost output = { λ r. Some (range_text (range_of r)) };

    /// Writes the comparators, separated by single spaces: `>=1.2.3 <2.0.0`. A range without
    /// comparators is written as the empty string. It does not allocate, and its only error is the
    /// writer's.
    fn fmt<W: fmt::Write>(&self, f: &mut fmt::Formatter<W>) -> fmt::Result {
        write_joined(f, " ", &self.comparator_set)
    }
}
