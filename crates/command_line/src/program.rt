//! Messages of a program about itself and about errors.

ghost use Rattle.std.specs.Prelude.{◌≡◌, ◌⊎◌};
ghost use Rattle.std.specs.Process.{exit_status};

use crate::error::ArgumentError;
use crate::refused::{refused_text, refused_version};
use invalid_strings::escaped::Escaped;
use semver_parser::RangeError;
use semver_ranges::dialect::Dialect;
use std::io::{self, ErrorKind};
use std::process::ExitCode;

/// A program. Each line that it writes to standard error begins with its name. If a line can't be
/// written there, it is left out.
#[derive(Clone, Copy, Drop)]
pub struct Program {
    /// The name.
    pub name: &'static str,
}

impl Program {
    /// Writes strings to standard output, each with a line feed, and returns the status. It isn't
    /// an error if the reader closed the pipe.
    pub fn write_texts(self, rt: &HostRuntime, texts: &[&str]) -> ExitCode
        ensures status { (exit_status result ≡ 0) ⊎ (exit_status result ≡ 2) }
    {
        for text in texts {
            match println!(rt; "{text}") {
                Ok(()) => {}
                Err(error) if error.kind() == ErrorKind::BrokenPipe => return ExitCode::SUCCESS,
                Err(error) => return self.cannot_write(rt, &error),
            }
        }
        ExitCode::SUCCESS
    }

    // Determined by: equation.
    /// Writes the error in the arguments in one line, and returns status 2.
    pub fn misused(self, rt: &impl Eprint, error: &ArgumentError) -> ExitCode
        ensures status { exit_status result ≡ 2 }
    {
        let name = self.name;
        let _ = match error {
            ArgumentError::NotUtf8 | ArgumentError::OutOfMemory => eprintln!(rt; "{name}: {error}"),
            _ => eprintln!(rt; "{name}: {error}; see {name} --help"),
        };
        ExitCode::from(2)
    }

    // Determined by: equation.
    /// Reports that output can't be written, and returns status 2.
    pub fn cannot_write(self, rt: &impl Eprint, error: &io::Error) -> ExitCode
        ensures status { exit_status result ≡ 2 }
    {
        let _ = eprintln!(rt; "{}: cannot write output: {error}", self.name);
        ExitCode::from(2)
    }

    // Determined by: equation.
    /// Writes the error of a range, with the string and the offset, and returns status 2.
    pub fn refuse_range(
        self,
        rt: &HostRuntime,
        dialect: Dialect,
        error: &RangeError,
        range: &str,
    ) -> ExitCode
        ensures status { exit_status result ≡ 2 }
    {
        let shown = Escaped { text: range };
        let _ = match refused_text(rt.alloc(), dialect, error, range) {
            Ok(text) => eprintln!(rt; "{}: {text}", self.name),
            Err(_) => eprintln!(rt; "{}: {error}: \"{shown}\"", self.name),
        };
        ExitCode::from(2)
    }

    // Determined by: equation.
    /// Writes the error of an invalid version, with the string and the offset, and returns status
    /// 2.
    pub fn refuse_version(self, rt: &HostRuntime, dialect: Dialect, version: &str) -> ExitCode
        ensures status { exit_status result ≡ 2 }
    {
        let shown = Escaped { text: version };
        let _ = match refused_version(rt.alloc(), dialect, version) {
            Ok(text) => eprintln!(rt; "{}: {text}", self.name),
            Err(_) => eprintln!(rt; "{}: invalid version: \"{shown}\"", self.name),
        };
        ExitCode::from(2)
    }

    /// Writes the errors of a range that is invalid in several tools, and returns status 2. For
    /// each tool it writes its name, its dialect and its error.
    pub fn refuse_range_of_each(
        self,
        rt: &HostRuntime,
        tools: &[(&str, Dialect, &RangeError)],
        range: &str,
    ) -> ExitCode
        ensures status { exit_status result ≡ 2 }
    {
        let shown = Escaped { text: range };
        for (tool, dialect, error) in tools {
            let _ = match refused_text(rt.alloc(), *dialect, error, range) {
                Ok(text) => eprintln!(rt; "{}: {tool}: {text}", self.name),
                Err(_) => eprintln!(rt; "{}: {tool}: {error}: \"{shown}\"", self.name),
            };
        }
        ExitCode::from(2)
    }
}
