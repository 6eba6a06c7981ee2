//! Versions as plain data, and how they are printed.
//!
//! A version is printed as three numbers separated by dots, such as `1.2.3-rc.1+5aedf`. If there is
//! a pre-release, `-` and its identifiers follow; if there is build metadata, `+` and its
//! identifiers follow. Identifiers are separated by dots.
ghost use Rattle.std.specs.Prelude.{◌≡◌, ◌<◌, ◌++◌, ◌⊎◌, ℕ, Some, IfOk, IfErr, decimal, length};
ghost use Rattle.std.specs.Prelude.{string_bytes};
ghost use Rattle.semver_texts.specs.Versions.{alphanumeric, numeric};
ghost use Rattle.semver_texts.specs.PrintedText.{identifier_text};
ghost use Rattle.semver_texts.specs.VersionViews.{identifier_value};

use crate::printing::write_part;
use std::alloc::{AllocError, Global};
use std::fmt;

/// A version: three numbers, a pre-release and build metadata.
///
/// The derived order compares the fields in the order in which they are declared. It isn't the
/// precedence of SemVer, which `cmp_precedence` returns: it compares build metadata, and a release
/// is below its pre-releases.
///
/// ```
/// use semver_parser::{version, Version};
///
/// let (plain, rc) = (version::parse("1.0.0")?, version::parse("1.0.0-rc")?);
/// assert!(plain < rc);
/// assert!(Version::try_from(&plain)? > Version::try_from(&rc)?);
/// # Ok::<(), semver_parser::Error>(())
/// ```
#[derive(Clone, PartialOrd, Ord, Hash, Debug, PartialEq, Eq, Drop)]
pub struct Version {
    /// The first number: 1 in `1.2.3-rc.4+5aedf`.
    pub major: u64,
    /// The second number: 2 in `1.2.3-rc.4+5aedf`.
    pub minor: u64,
    /// The third number: 3 in `1.2.3-rc.4+5aedf`.
    pub patch: u64,
    /// The identifiers of the pre-release, after `-`: `"rc"` and 4 in `1.2.3-rc.4+5aedf`. Empty if
    /// there is no pre-release.
    pub pre: Vec<Identifier>,
    /// The identifiers of the build metadata, after `+`: `"5aedf"` in `1.2.3-rc.4+5aedf`. Empty if
    /// there is no build metadata.
    pub build: Vec<Identifier>,
}

/// An identifier of a pre-release or of build metadata.
///
/// A string is read as `Numeric` only if it is the canonical decimal of a number up to 2^64 - 1, so
/// each identifier is printed as it was read.
///
/// ```
/// use semver_parser::version::{self, Identifier};
///
/// let texts = ["07", "18446744073709551616", "1-2", "rc"];
/// let version = version::parse("1.0.0-7.07.18446744073709551616.1-2.rc")?;
/// assert_eq!(version.pre[0], Identifier::Numeric(7));
/// assert_eq!(version.pre[1..], texts.map(|text| Identifier::AlphaNumeric(text.to_string())));
/// # Ok::<(), semver_parser::parser::Error>(())
/// ```
#[derive(Clone, PartialOrd, Ord, Hash, Debug, PartialEq, Eq, Drop)]
pub enum Identifier {
    /// A number, such as `7`.
    Numeric(u64),
    /// Any other string, such as `rc` or `07`.
    AlphaNumeric(String),
}

impl Identifier {
    // In Rust: try_concat.
    // Determined by: equation.
    /// Returns the identifier as a string followed by `add_str`, always as `AlphaNumeric`.
    ///
    /// It allocates once, for the whole new string. If an empty string is added to an
    /// `AlphaNumeric`, it doesn't allocate. `Err` means out of memory, and returns the identifier
    /// unchanged.
    ///
    /// ```
    /// use semver_parser::version::Identifier;
    ///
    /// let joined = Identifier::Numeric(7).try_concat("a");
    /// assert_eq!(joined, Ok(Identifier::AlphaNumeric("7a".to_string())));
    /// let same = Identifier::Numeric(7).try_concat("");
    /// assert_eq!(same, Ok(Identifier::AlphaNumeric("7".to_string())));
    /// ```
    pub fn concat(self, alloc: Global, add_str: &str) -> Result<Identifier, Identifier>
        ensures joined { IfOk result (λ id.
            identifier_value id ≡ alphanumeric
            (identifier_text (identifier_value self) ++ add_str.now)) }
        ensures unchanged { IfErr result (λ id. identifier_value id ≡ identifier_value self) }
        // Memory runs out only if something is to be added, or for the decimal of a number.
        ensures out_of_memory { IfErr result (λ id. (0 < length add_str.now)
            ⊎ ((n : ℕ) × (identifier_value id ≡ numeric n))) }
    {
        match self {
            Identifier::Numeric(number) => match number_and(alloc, number, add_str) {
                Ok(text) => Ok(Identifier::AlphaNumeric(text)),
                Err(_) => Err(Identifier::Numeric(number)),
            },
            Identifier::AlphaNumeric(mut text) => {
                if text.reserve_exact(add_str.len()).is_err() || text.push_str(add_str).is_err() {
                    return Err(Identifier::AlphaNumeric(text));
                }
                Ok(Identifier::AlphaNumeric(text))
            }
        }
    }
}

/// Returns the decimal of a number followed by a string, in one allocation.
fn number_and(alloc: Global, number: u64, text: &str) -> Result<String, AllocError>
    ensures { IfOk result (λ whole. string_bytes whole ≡ decimal number ++ text.now) }
{
    let digits = number
        .checked_ilog10()
        .map_or(1, |log| usize::from(log as u8) + 1);
    let mut whole = String::with_capacity(alloc, digits.saturating_add(text.len()))?;
    write!(whole, "{number}{text}")?;
    Ok(whole)
}

// Determined by: equation.
impl fmt::Display for Identifier {
    ghost output = { λ identifier. Some (identifier_text (identifier_value identifier)) };

    /// Writes the decimal number, or the string itself. It does not allocate, and its only error is
    /// the writer's.
    ///
    /// `Numeric(7)` is written as `7`, and `AlphaNumeric("alpha1")` as `alpha1`.
    #[tactic(auto, using(crate::proofs::LargeNumbers::small_numeral))]
    fn fmt<W: fmt::Write>(&self, f: &mut fmt::Formatter<W>) -> fmt::Result {
        match self {
            Identifier::Numeric(number) => {
                let number = *number;
                write!(f, "{number}")
            }
            Identifier::AlphaNumeric(text) => write!(f, "{text}"),
        }
    }
}

// Determined by: equation.
impl fmt::Display for Version {
    ghost use Rattle.semver_texts.specs.PrintedText.{version_text};
    ghost use Rattle.semver_texts.specs.VersionViews.{version_value};

    ghost output = { λ version. Some (version_text (version_value version)) };

    /// Writes `major.minor.patch`. If there is a pre-release, `-` and its identifiers joined by
    /// dots follow; if there is build metadata, `+` and its identifiers joined by dots follow. It
    /// does not allocate, and its only error is the writer's.
    ///
    /// The version read from ` 1.2.3-alpha1.9+build5 ` is written as `1.2.3-alpha1.9+build5`.
    fn fmt<W: fmt::Write>(&self, f: &mut fmt::Formatter<W>) -> fmt::Result {
        let (major, minor, patch) = (self.major, self.minor, self.patch);
        write!(f, "{major}.{minor}.{patch}")?;
        write_part(f, "-", &self.pre)?;
        write_part(f, "+", &self.build)
    }
}
