//! The dialects of range strings: Cargo's, npm's, and the two modes of the crate `semver-parser`,
//! with their numbers and names.

ghost use Rattle.std.specs.Prelude.{◌≡◌, MatchOption, Some};
ghost use Rattle.std.specs.Fmt.{padded};
ghost use Rattle.semver_ranges.specs.DialectTable.{grammar_of, joint_of, mode_of, name_of};
ghost use Rattle.semver_ranges.specs.DialectTable.{number_of, own_dialect};
ghost use Rattle.semver_ranges.specs.declared.dialect.Dialect.{Dialect as SomeDialect};

use crate::range::Compat;
use semver_texts::grammar::Grammar;
use std::fmt;

/// A dialect of range strings. The page `docs::ranges` compares them.
///
/// ```
/// use semver_parser::{satisfies, Dialect};
///
/// assert!(satisfies("1.9.0", "1.2", Dialect::Cargo)?);
/// assert!(!satisfies("1.9.0", "1.2", Dialect::Npm)?);
/// # Ok::<(), semver_parser::Error>(())
/// ```
#[derive(Clone, Copy, PartialEq, Eq, Hash, Debug)]
pub enum Dialect {
    /// Cargo's dialect: `1.2` is `>=1.2.0 <2.0.0`, and commas separate comparators.
    Cargo,
    /// npm's dialect: `>1.2` is `>=1.3.0`, and `v1` is a range.
    Npm,
    /// The dialect of the crate `semver-parser` in its Cargo mode: `1.2` is `>=1.2.0 <1.3.0`.
    CrateCargo,
    /// The dialect of the crate `semver-parser` in its npm mode: `>1.2` is `>1.2.0`.
    CrateNpm,
}

impl Dialect {
    // Determined by: equation.
    /// Returns the grammar of versions and ranges in this dialect. Both dialects of the crate have
    /// the crate's grammar.
    #[must_use]
    pub fn grammar(self) -> Grammar
        ensures grammar { result ≡ grammar_of self }
    {
        match self {
            Dialect::Cargo => Grammar::Cargo,
            Dialect::Npm => Grammar::Npm,
            Dialect::CrateCargo | Dialect::CrateNpm => Grammar::Crate,
        }
    }

    // Determined by: equation.
    /// Returns the mode of the comparators that a range in this dialect is rewritten to.
    #[must_use]
    #[inline(always)]
    pub fn mode(self) -> Compat
        ensures { result ≡ mode_of self }
    {
        match self {
            Dialect::Cargo | Dialect::CrateCargo => Compat::Cargo,
            Dialect::Npm | Dialect::CrateNpm => Compat::Npm,
        }
    }

    // Determined by: equation.
    /// Returns the crate's own dialect in a mode.
    #[must_use]
    #[inline(always)]
    pub fn of_mode(mode: Compat) -> Dialect
        ensures { result ≡ own_dialect mode }
    {
        match mode {
            Compat::Cargo => Dialect::CrateCargo,
            Compat::Npm => Dialect::CrateNpm,
        }
    }

    // Determined by: equation.
    /// Returns the number of the dialect in C, Python and JavaScript.
    #[must_use]
    pub fn number(self) -> i32
        ensures { result ≡ number_of self }
    {
        match self {
            Dialect::Cargo => 0,
            Dialect::Npm => 1,
            Dialect::CrateCargo => 2,
            Dialect::CrateNpm => 3,
        }
    }

    // Determined by: law tool_ranges::laws::one_dialect_of_number.
    /// Returns the dialect with a number, or `None` if no dialect has it.
    #[must_use]
    pub fn from_number(number: i32) -> Option<Dialect>
        ensures { MatchOption result (¬ ((it : SomeDialect) × (number ≡ number_of it)))
            (λ it. number ≡ number_of it) }
    {
        match number {
            0 => Some(Dialect::Cargo),
            1 => Some(Dialect::Npm),
            2 => Some(Dialect::CrateCargo),
            3 => Some(Dialect::CrateNpm),
            _ => None,
        }
    }

    // Determined by: equation.
    /// Returns the name of the dialect for programs.
    ///
    /// ```
    /// use semver_parser::Dialect;
    ///
    /// assert_eq!(Dialect::Npm.name(), "npm");
    /// ```
    #[must_use]
    pub fn name(self) -> &'static str
        ensures { result.now ≡ name_of self }
    {
        match self {
            Dialect::Cargo => "cargo",
            Dialect::Npm => "npm",
            Dialect::CrateCargo => "crate-cargo",
            Dialect::CrateNpm => "crate-npm",
        }
    }

    // Determined by: equation.
    /// Returns what separates the comparators of an interval when a range is printed.
    #[must_use]
    pub fn joint(self) -> &'static str
        ensures { result.now ≡ joint_of self }
    {
        match self {
            Dialect::Cargo => ", ",
            Dialect::Npm | Dialect::CrateCargo | Dialect::CrateNpm => " ",
        }
    }
}

// Determined by: equation.
impl fmt::Display for Dialect {
    ghost output = { λ dialect. Some (name_of dialect) };

    ghost styled_output = { λ dialect spec. Some (padded spec (name_of dialect)) };

    /// Writes the name.
    fn fmt<W: fmt::Write>(&self, f: &mut fmt::Formatter<W>) -> fmt::Result {
        f.pad(self.name())
    }
}
