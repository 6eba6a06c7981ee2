//! The program `release-filter`: arguments, reading, writing, and exit status. `Lines` of the
//! library decides which lines are kept, and what is written of them; the wanted versions are those
//! in a set.
#![tactic(auto)]

mod arguments;
mod copying;
mod json;
mod output;
mod report;

use arguments::{Filtering, Kind, Request};
use command_line::Program;
use copying::{Copying, Error};
use report::report_invalid;
use semver_parser::RangeError;
use semver_ranges::dialect::Dialect;
use std::alloc::Global;
use std::io::ErrorKind;
use std::process::ExitCode;
use tool_ranges::meaning::{self, Rules};
use tool_ranges::version_range::VersionRange;
use version_sets::{Combination, OperationError, VersionSet};

/// The program.
const PROGRAM: Program = Program {
    name: "release-filter",
};

/// The usage of the program.
const USAGE: &str = "\
usage: release-filter [OPTION]... RANGE [FILE]...";

/// What the program does.
const HELP: &str = "
Writes the lines of the files whose version is in RANGE, unchanged, to standard
output. Without a file, or for the file -, it reads standard input.

    --dialect NAME         the dialect of RANGE and of the versions:
                             cargo        Cargo's; the default
                             npm          npm's
                             crate-cargo  that of semver-parser in Cargo mode
                             crate-npm    that of semver-parser in npm mode
    --as NAME, --npm       short for --dialect NAME and --dialect npm
    --include-prerelease   keep every pre-release within the bounds of RANGE,
      --pre                and not only those that the tool matches by default
    --releases-only        keep releases only
      --releases
    --only KIND            keep only one kind of the versions that would be kept
                           without it: KIND is releases or pre-releases
    --invert               keep the versions that RANGE does not contain
    --highest, --lowest    print only the line with the highest or the lowest
      --greatest, --least  version (the first, if several are equal)
    --sort                 print the lines from the lowest version to the
                           highest; equal versions stay in the order of the
                           input, and a last line without a line feed gets one
    --reverse              print the lines of --sort in reverse
    --prefix TEXT          match lines that begin with TEXT and then have a
                           version; if given more than once, with any of them
    --strip-prefix         print the lines without their prefix
    --count                print only how many lines match
    --strict               fail at the first line that is not empty and has no
                           version, and name it
    --json                 read an array of strings in JSON, each of which is a
                           line, or a single string, and print an array
    --null                 lines end with a zero byte instead of a line feed,
                           in the input and in the output
    --line-buffered        accepted, and changes nothing: each line is written
                           before more input is read
    --                     end the options
    -h, --help             print this, and read no input
    --version              print the version of this program, and read no input

The status is 0 if a line was found, 1 if none was, and 2 after an error, which
standard error describes. semver-ranges(7) explains ranges.";

/// The version of this program, which is that of the file VERSION.
const VERSION: &str = "release-filter 1.0.0";

/// What standard error says if no option named a dialect, and npm's rules select other versions.
const BY_CARGO: &str = "the range was read by Cargo's rules, and has other versions by npm's; \
choose with --dialect cargo or --npm";

/// What standard error says after an error if no option named a dialect, and npm can read the
/// range.
const IN_NPM: &str = "npm reads this range; for npm's rules, use --npm";

fn main(rt: HostRuntime) -> ExitCode {
    match arguments::requested(&rt) {
        Ok(Request::Filter(filtering)) => run(&rt, &filtering),
        Ok(Request::Help) => PROGRAM.write_texts(&rt, &[USAGE, HELP]),
        Ok(Request::Version) => PROGRAM.write_texts(&rt, &[VERSION]),
        Err(error) => PROGRAM.misused(&rt, &error),
    }
}

/// Filters, and reports an error. It isn't an error if the reader closed the pipe.
fn run(rt: &HostRuntime, filtering: &Filtering) -> ExitCode {
    match filtered(rt, filtering) {
        Ok(true) => ExitCode::SUCCESS,
        Ok(false) => ExitCode::from(1),
        Err(Error::Write(error)) if error.kind() == ErrorKind::BrokenPipe => ExitCode::SUCCESS,
        Err(error) => failed(rt, &error, filtering),
    }
}

/// Filters, and returns whether a line was kept.
fn filtered(rt: &HostRuntime, filtering: &Filtering) -> Result<bool, Error> {
    let versions = versions(rt.alloc(), filtering).map_err(Error::Range)?;
    if is_other_in_npm(rt.alloc(), filtering) {
        let _ = eprintln!(rt; "release-filter: {BY_CARGO}");
    }
    let Ok(range) = VersionRange::from_versions(versions, filtering.meaning) else {
        return Err(Error::OutOfMemory);
    };
    let Ok(mut copying) = Copying::new(rt.alloc(), &filtering.options, range) else {
        return Err(Error::OutOfMemory);
    };
    let has_lines = copying.run(rt, filtering.files.as_slice())?;
    report_invalid(rt, copying.counts(), filtering, has_lines);
    Ok(has_lines)
}

/// Returns whether the range was read by Cargo's rules since no option named a dialect, and has
/// other versions by npm's.
fn is_other_in_npm(alloc: Global, filtering: &Filtering) -> bool {
    if filtering.has_dialect {
        return false;
    }
    let Ok(cargo) = meaning::read(alloc, filtering.meaning, filtering.range.as_str()) else {
        return false;
    };
    match read_in_npm(alloc, filtering) {
        Ok(npm) => npm != cargo,
        Err(_) => false,
    }
}

/// Returns the versions in the range in npm's dialect.
fn read_in_npm(alloc: Global, filtering: &Filtering) -> Result<VersionSet, RangeError> {
    let meaning = Rules {
        dialect: Dialect::Npm,
        pre_releases: filtering.meaning.pre_releases,
    };
    meaning::read(alloc, meaning, filtering.range.as_str())
}

/// Returns the wanted versions: those in the range, or all others; of these, all or only one kind.
fn versions(alloc: Global, filtering: &Filtering) -> Result<VersionSet, RangeError> {
    let mut versions = meaning::read(alloc, filtering.meaning, filtering.range.as_str())?;
    if filtering.options.is_inverted {
        let Ok(others) = others(alloc, &versions) else {
            return Err(RangeError::OutOfMemory);
        };
        versions = others;
    }
    Ok(match filtering.options.only {
        Some(Kind::Releases) => versions.only_releases(alloc),
        Some(Kind::PreReleases) => versions.only_pre_releases(alloc),
        None => versions,
    })
}

/// Returns all versions that aren't in a set.
fn others(alloc: Global, versions: &VersionSet) -> Result<VersionSet, OperationError> {
    let all = VersionSet::all(alloc, versions.digits())?;
    all.combined(alloc, Combination::Difference, versions)
}

/// Reports an error on standard error, and returns status 2.
fn failed(rt: &HostRuntime, error: &Error, filtering: &Filtering) -> ExitCode {
    let dialect: Dialect = filtering.meaning.dialect;
    let _ = match error {
        Error::Range(error) => {
            let status = PROGRAM.refuse_range(rt, dialect, error, filtering.range.as_str());
            if !filtering.has_dialect && read_in_npm(rt.alloc(), filtering).is_ok() {
                let _ = eprintln!(rt; "release-filter: {IN_NPM}");
            }
            return status;
        }
        Error::Write(error) => return PROGRAM.cannot_write(rt, error),
        Error::OutOfMemory => eprintln!(rt; "release-filter: out of memory"),
        Error::Invalid(line) | Error::Json(line) => eprintln!(rt; "release-filter: {line}"),
        Error::Read(error) => eprintln!(rt; "release-filter: cannot read input: {error}"),
        Error::File(name, error) => eprintln!(rt; "release-filter: cannot read {name}: {error}"),
    };
    ExitCode::from(2)
}
