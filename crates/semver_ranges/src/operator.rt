//! The operators of terms, with their numbers and signs.

ghost use Rattle.std.specs.Prelude.{◌≡◌, Some};
ghost use Rattle.std.specs.Fmt.{padded};
ghost use Rattle.semver_ranges.specs.OperatorTable.{number_of, sign};

use std::fmt;

/// The operator at the beginning of a term, or that of a hyphen range.
///
/// ```
/// use semver_parser::{terms, Dialect, Operator};
///
/// let term = terms("~> 1.2", Dialect::Npm)?.next().unwrap();
/// assert_eq!(term.operator, Operator::Tilde);
/// # Ok::<(), semver_parser::Error>(())
/// ```
#[derive(Clone, Copy, PartialEq, Eq, Debug)]
#[non_exhaustive]
pub enum Operator {
    /// No operator: `1.2`.
    Bare,
    /// `=`.
    Equal,
    /// `<`.
    Less,
    /// `<=`.
    LessOrEqual,
    /// `>`.
    Greater,
    /// `>=`.
    GreaterOrEqual,
    /// `~` or `~>`.
    Tilde,
    /// `^`.
    Caret,
    /// The hyphen between two versions: `1.2 - 2.3`.
    Hyphen,
}

impl Operator {
    // Determined by: equation.
    /// Returns the number of the operator in the C API. The operators of comparators have the same
    /// numbers there.
    #[must_use]
    pub fn number(self) -> i32
        ensures { result ≡ number_of self }
    {
        match self {
            Operator::Less => 0,
            Operator::LessOrEqual => 1,
            Operator::Greater => 2,
            Operator::GreaterOrEqual => 3,
            Operator::Equal => 4,
            Operator::Tilde => 5,
            Operator::Caret => 6,
            Operator::Bare => 7,
            Operator::Hyphen => 8,
        }
    }

    // Determined by: equation.
    /// Returns the operator as it is written: `~` also for `~>`, `-` for a hyphen range, and an
    /// empty string if there is no operator.
    #[must_use]
    pub fn sign(self) -> &'static str
        ensures { result.now ≡ sign self }
    {
        match self {
            Operator::Bare => "",
            Operator::Equal => "=",
            Operator::Less => "<",
            Operator::LessOrEqual => "<=",
            Operator::Greater => ">",
            Operator::GreaterOrEqual => ">=",
            Operator::Tilde => "~",
            Operator::Caret => "^",
            Operator::Hyphen => "-",
        }
    }
}

// Determined by: equation.
impl fmt::Display for Operator {
    ghost output = { λ operator. Some (sign operator) };

    ghost styled_output = { λ operator spec. Some (padded spec (sign operator)) };

    /// Writes the operator as it is written in a range. [`Operator::Bare`] is written as nothing,
    /// and [`Operator::Hyphen`] as `-`.
    fn fmt<W: fmt::Write>(&self, f: &mut fmt::Formatter<W>) -> fmt::Result {
        f.pad(self.sign())
    }
}
