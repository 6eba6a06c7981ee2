//! The program `compare-ranges`: arguments, standard output, and exit status. Everything about
//! ranges is done by methods of `VersionRange`.
#![tactic(auto)]

mod arguments;
mod lines;

use arguments::{Change, Question, Request};
use command_line::{Program, refused_line, write_whole};
use invalid_strings::escaped::Escaped;
use lines::Output;
use range_upgrades::upgrade::{UpgradeError, upgrade};
use semver_parser::RangeError;
use semver_ranges::dialect::Dialect;
use std::alloc::AllocError;
use std::io::{self, ErrorKind};
use std::process::ExitCode;
use tool_ranges::meaning::Rules;
use tool_ranges::version_range::VersionRange;
use version_sets::OperationError;

/// The program.
const PROGRAM: Program = Program {
    name: "compare-ranges",
};

/// The usage of the program.
const USAGE: &str = "\
usage: compare-ranges [OPTION]... OLD NEW
       compare-ranges [OPTION]... RANGE
       compare-ranges [OPTION]... --upgrade VERSION RANGE";

/// What the program does.
const HELP: &str = "
Prints which versions are lost and gained if the range NEW replaces the range
OLD, and which versions are in both. With one RANGE, prints which versions it
contains in Cargo's and in npm's dialect, or in the dialect that is named:

    lost: RANGES     releases in OLD that are not in NEW
    gained: RANGES   releases in NEW that are not in OLD
    shared: RANGES   releases in both
    cargo: RANGES    releases in RANGE in Cargo's dialect, or why it is invalid
    npm: RANGES      releases in RANGE in npm's dialect, or why it is invalid
    means: RANGES    releases in RANGE in the dialect that is named

The pre-releases are on the next line: 'lost pre-releases: RANGES'. A line that
would have no version is left out. With one RANGE, 'no version' is printed if it
contains none. RANGES is a range in npm's syntax, such as
'=1.2.0 || >=1.9.0 <2.0.0', or '*' for all versions.

With --upgrade, prints RANGE raised so that it contains VERSION, in the form in
which it is written, or unchanged if it has this version or a higher one.

    --dialect NAME         read the ranges as:
                             cargo        Cargo (the default for two ranges, and
                                          with --upgrade)
                             npm          npm
                             crate-cargo  semver-parser in Cargo mode
                             crate-npm    semver-parser in npm mode
    --as NAME, --npm       short for --dialect NAME and --dialect npm
    --include-prerelease   count every pre-release within the bounds of a range,
      --pre                and not only those that the tool matches by default
    --releases-only        count releases only
      --releases
    --lowest, --least      print only the lowest version by precedence instead
                           of ranges
    --json                 print one object of JSON
    --fail-on CHANGE       exit with 1 only if versions are lost (CHANGE is
                           lost), gained (gained), or either (any, the default)
    --upgrade VERSION      print RANGE raised to VERSION
    --                     end the options
    -h, --help             print this help
    --version              print the version of this program

The status is 0 for one range, or if both ranges contain the same versions, 1 if
they differ, or if RANGE can't be raised to VERSION, and 2 after an error.
semver-ranges(7) explains ranges.";

/// The version of this program, which is that of the file VERSION.
const VERSION: &str = "compare-ranges 1.0.0";

/// What standard error says if no option named a dialect, and npm's rules give another result.
const BY_CARGO: &str = "this is by Cargo's rules, and npm's rules give another result; \
choose with --dialect cargo or --npm";

/// What standard error says after an error if no option named a dialect, and npm can read the
/// range.
const IN_NPM: &str = "npm reads this range; for npm's rules, use --npm";

/// The error of a run.
#[derive(Drop)]
enum Error<'a> {
    /// This range is invalid.
    Range(RangeError, &'a str),
    /// The range is invalid in Cargo and in npm: the error of each.
    Neither(RangeError, RangeError),
    /// The version to which the range has to be raised is invalid.
    Version(&'a str),
    /// The range can't be raised to the version.
    CannotUpgrade,
    /// An allocation failed after the ranges were read.
    OutOfMemory,
}

/// The output, and whether it has a change for which the status is 1.
type Answer = (String, bool);

fn main(rt: HostRuntime) -> ExitCode {
    match arguments::requested(&rt) {
        Ok(Request::Read(question)) => run(&rt, &question),
        Ok(Request::Help) => PROGRAM.write_texts(&rt, &[USAGE, HELP]),
        Ok(Request::Version) => PROGRAM.write_texts(&rt, &[VERSION]),
        Err(error) => PROGRAM.misused(&rt, &error),
    }
}

/// Writes the output, or an error. The output is complete before anything is written. It isn't an
/// error if the reader closed the pipe.
fn run(rt: &HostRuntime, question: &Question) -> ExitCode {
    match answered(rt, question) {
        Ok((text, is_changed)) => {
            if is_other_in_npm(rt, question, text.as_str()) {
                let _ = eprintln!(rt; "{}: {BY_CARGO}", PROGRAM.name);
            }
            written(rt, text.as_str(), is_changed)
        }
        Err(error) => failed(rt, question, &error),
    }
}

/// Returns whether the ranges were read by Cargo's rules only since no option named a dialect, and
/// give another output by npm's.
fn is_other_in_npm(rt: &HostRuntime, question: &Question, text: &str) -> bool {
    if question.has_dialect {
        return false;
    }
    let meaning = in_npm(question);
    if let Some(version) = &question.options.version {
        return match upgraded(rt, question, version.as_str(), meaning) {
            Ok(other) => other.as_str() != text,
            Err(_) => false,
        };
    }
    let Some(new) = &question.new else {
        return false;
    };
    let Ok(range) = VersionRange::parse(rt.alloc(), question.range.as_str(), meaning) else {
        return false;
    };
    let Ok(new) = VersionRange::parse(rt.alloc(), new.as_str(), meaning) else {
        return false;
    };
    match of_two(rt, question, &range, &new) {
        Ok(other) => other.as_str() != text,
        Err(_) => false,
    }
}

/// Returns npm's dialect, with the requested rule for pre-releases.
fn in_npm(question: &Question) -> Rules {
    Rules {
        dialect: Dialect::Npm,
        pre_releases: question.meaning.pre_releases,
    }
}

/// Writes a string, and returns the status.
fn written(rt: &HostRuntime, text: &str, is_changed: bool) -> ExitCode {
    match write_whole(&mut io::writer(rt), text.as_bytes()) {
        Err(error) if error.kind() != ErrorKind::BrokenPipe => PROGRAM.cannot_write(rt, &error),
        _ if is_changed => ExitCode::from(1),
        _ => ExitCode::SUCCESS,
    }
}

/// Reports an error on standard error, and returns status 2.
fn failed(rt: &HostRuntime, question: &Question, error: &Error<'_>) -> ExitCode {
    match error {
        Error::Range(error, range) => {
            let status = PROGRAM.refuse_range(rt, question.meaning.dialect, error, range);
            let by_npm = VersionRange::parse(rt.alloc(), range, in_npm(question));
            if !question.has_dialect && by_npm.is_ok() {
                let _ = eprintln!(rt; "{}: {IN_NPM}", PROGRAM.name);
            }
            status
        }
        Error::Neither(cargo, npm) => {
            let tools = [("cargo", Dialect::Cargo, cargo), ("npm", Dialect::Npm, npm)];
            PROGRAM.refuse_range_of_each(rt, &tools, question.range.as_str())
        }
        Error::Version(version) => { PROGRAM.refuse_version(rt, question.meaning.dialect, version) }
        Error::CannotUpgrade => {
            let shown = Escaped {
                text: question.range.as_str(),
            };
            let error = UpgradeError::CannotUpgrade;
            let _ = eprintln!(rt; "{}: {error}: \"{shown}\"", PROGRAM.name);
            ExitCode::from(1)
        }
        Error::OutOfMemory => {
            let _ = eprintln!(rt; "{}: out of memory", PROGRAM.name);
            ExitCode::from(2)
        }
    }
}

/// Returns the output for the ranges.
fn answered<'a>(rt: &HostRuntime, question: &'a Question) -> Result<Answer, Error<'a>> {
    if let Some(version) = &question.options.version {
        let text = upgraded(rt, question, version.as_str(), question.meaning)?;
        return Ok((text, false));
    }
    if question.new.is_none() && !question.has_dialect {
        return of_both_tools(rt, question);
    }
    let range = read(rt, question, question.range.as_str())?;
    let Some(new) = &question.new else {
        return match of_one(rt, question, &range) {
            Ok(text) => Ok((text, false)),
            Err(_) => Err(Error::OutOfMemory),
        };
    };
    let new = read(rt, question, new.as_str())?;
    match of_two(rt, question, &range, &new) {
        Ok(text) => Ok((text, is_changed(question, &range, &new))),
        Err(_) => Err(Error::OutOfMemory),
    }
}

/// Returns the line with the range raised to a version, or unchanged if it has this version or a
/// higher one.
fn upgraded<'a>(
    rt: &HostRuntime,
    question: &'a Question,
    version: &'a str,
    meaning: Rules,
) -> Result<String, Error<'a>> {
    let range = question.range.as_str();
    let line = match upgrade(rt.alloc(), range, version.as_bytes(), meaning) {
        Ok(Some(raised)) => format!(in rt.alloc(); "{raised}\n"),
        Ok(None) => format!(in rt.alloc(); "{range}\n"),
        Err(UpgradeError::InvalidVersion) => return Err(Error::Version(version)),
        Err(UpgradeError::InvalidRange(error)) => return Err(Error::Range(error, range)),
        Err(UpgradeError::CannotUpgrade) => return Err(Error::CannotUpgrade),
        Err(UpgradeError::OutOfMemory) => return Err(Error::OutOfMemory),
    };
    line.map_err(|_| Error::OutOfMemory)
}

/// Returns the output for one range in the requested dialect.
fn of_one(
    rt: &HostRuntime,
    question: &Question,
    range: &VersionRange,
) -> Result<String, AllocError> {
    let mut output = Output::new(rt.alloc(), &question.options);
    output.push_range(rt.alloc(), "means", range.versions())?;
    output.finish(rt.alloc())
}

/// Returns the output for two ranges: what is lost, gained and shared.
fn of_two(
    rt: &HostRuntime,
    question: &Question,
    range: &VersionRange,
    new: &VersionRange,
) -> Result<String, OperationError> {
    let mut output = Output::new(rt.alloc(), &question.options);
    output.push_two(rt.alloc(), range.versions(), new.versions())?;
    Ok(output.finish(rt.alloc())?)
}

/// Returns whether there is a change for which the status is 1.
fn is_changed(question: &Question, range: &VersionRange, new: &VersionRange) -> bool {
    match question.options.fails_on {
        Some(Change::Lost) => range.is_subset_of(new) != Ok(true),
        Some(Change::Gained) => new.is_subset_of(range) != Ok(true),
        Some(Change::Any) | None => range.versions() != new.versions(),
    }
}

/// Returns the output for one range in Cargo and in npm, or why it is not a range.
fn of_both_tools<'a>(rt: &HostRuntime, question: &'a Question) -> Result<Answer, Error<'a>> {
    let mut output = Output::new(rt.alloc(), &question.options);
    let cargo = push_tool(rt, question, &mut output, "cargo", Dialect::Cargo);
    let npm = push_tool(rt, question, &mut output, "npm", Dialect::Npm);
    match (cargo, npm) {
        (Ok(Some(cargo)), Ok(Some(npm))) => Err(Error::Neither(cargo, npm)),
        (Ok(_), Ok(_)) => match output.finish(rt.alloc()) {
            Ok(text) => Ok((text, false)),
            Err(_) => Err(Error::OutOfMemory),
        },
        _ => Err(Error::OutOfMemory),
    }
}

/// Appends the versions in a range in a tool's dialect, or why it is not a range, and returns the
/// error.
fn push_tool(
    rt: &HostRuntime,
    question: &Question,
    output: &mut Output,
    name: &str,
    dialect: Dialect,
) -> Result<Option<RangeError>, AllocError> {
    let range = question.range.as_str();
    let meaning = Rules {
        dialect,
        pre_releases: question.meaning.pre_releases,
    };
    match VersionRange::parse(rt.alloc(), range, meaning) {
        Ok(read) => {
            output.push_range(rt.alloc(), name, read.versions())?;
            Ok(None)
        }
        Err(RangeError::OutOfMemory) => Err(AllocError),
        Err(error) => {
            let why = refused_line(rt.alloc(), dialect, &error, range)?;
            output.push_error(name, why.as_str())?;
            Ok(Some(error))
        }
    }
}

/// Reads a range.
fn read<'a>(
    rt: &HostRuntime,
    question: &Question,
    range: &'a str,
) -> Result<VersionRange, Error<'a>> {
    let read = VersionRange::parse(rt.alloc(), range, question.meaning);
    read.map_err(|error| Error::Range(error, range))
}
