//! Errors in the arguments of a program.

use invalid_strings::escaped::Escaped;
use std::alloc::AllocError;
use std::fmt::{self, Display, Formatter};
use std::io::{self, ErrorKind};
use thiserror::Error;

/// An argument, which is printed in quotes, with [`Escaped`] characters.
#[derive(Debug, Drop)]
pub struct Quoted {
    /// The argument.
    pub text: String,
}

// Determined by: equation.
impl Display for Quoted {
    ghost use Rattle.std.specs.Prelude.{◌++◌, ◌∷◌, [], Some, string_bytes};
    ghost use Rattle.invalid_strings.specs.Escaping.{escaped};

    ghost output = { λ quoted. Some (34 ∷ escaped (string_bytes quoted.text) ++ 34 ∷ []) };

    fn fmt<W: fmt::Write>(&self, f: &mut Formatter<W>) -> fmt::Result {
        write!(
            f,
            "\"{}\"",
            Escaped {
                text: self.text.as_str()
            }
        )
    }
}

/// An error in the arguments of a program. Options are printed as they are written.
#[derive(Debug, Error, Drop)]
pub enum ArgumentError {
    /// An argument isn't a string.
    #[error("an argument is not UTF-8")]
    NotUtf8,
    /// An allocation failed.
    #[error("out of memory")]
    OutOfMemory,
    /// This option is unknown.
    #[error("unknown option: {0}")]
    UnknownOption(Quoted),
    /// This option has a value after `=`, and doesn't accept one.
    #[error("the option does not accept a value: {0}")]
    NeedlessValue(Quoted),
    /// Nothing follows `--dialect`, or `--as`.
    #[error("--dialect needs a name")]
    NoDialect,
    /// The string after `--dialect` isn't the name of a dialect.
    #[error("unknown dialect: {0}, which is none of cargo, npm, crate-cargo and crate-npm")]
    UnknownDialect(Quoted),
    /// Nothing follows `--prefix`.
    #[error("--prefix needs a value")]
    NoPrefix,
    /// This option, or another one with the same meaning, was given before.
    #[error("{0} is given twice")]
    GivenTwice(&'static str),
    /// The first option contradicts the second, which was given before.
    #[error("{0} contradicts {1}")]
    Contradiction(&'static str, &'static str),
    /// Nothing follows `--only`, or an unknown word.
    #[error("--only needs releases or pre-releases")]
    NoKind,
    /// Nothing follows `--fail-on`, or an unknown word.
    #[error("--fail-on needs lost, gained or any")]
    NoChange,
    /// `--fail-on` is given with one range.
    #[error("--fail-on needs two ranges")]
    NoComparison,
    /// Nothing follows `--upgrade`.
    #[error("--upgrade needs a version")]
    NoVersion,
    /// `--upgrade` is given with two ranges.
    #[error("--upgrade needs only one range")]
    TwoToUpgrade,
    /// `--reverse` is given without `--sort`.
    #[error("--reverse needs --sort")]
    NoOrder,
    /// There is no range. These are the arguments that are needed.
    #[error("no range: the arguments are {0}")]
    NoRange(&'static str),
    /// There are more than two ranges.
    #[error("more than two ranges")]
    MoreThanTwoRanges,
}

impl From<AllocError> for ArgumentError {
    ghost use Rattle.std.specs.Prelude.{◌≡◌};
    ghost use Rattle.command_line.specs.declared.error.ArgumentError.TheVariants.{OutOfMemory};

    ghost from_gives = { λ _ e. e ≡ OutOfMemory };

    fn from(_error: AllocError) -> ArgumentError {
        ArgumentError::OutOfMemory
    }
}

// Determined by: equation.
impl From<io::Error> for ArgumentError {
    ghost use Rattle.std.specs.Prelude.{◌≡◌};
    ghost use Rattle.std.specs.IoError.{error_kind};
    ghost use Rattle.command_line.specs.Options.{unreadable};

    ghost from_gives = { λ error e. e ≡ unreadable (error_kind error) };

    /// Returns the error of arguments that can't be read.
    fn from(error: io::Error) -> ArgumentError {
        match error.kind() {
            ErrorKind::OutOfMemory => ArgumentError::OutOfMemory,
            _ => ArgumentError::NotUtf8,
        }
    }
}
