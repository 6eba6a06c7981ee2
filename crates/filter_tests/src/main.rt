//! Tests of the filter of versions: which versions it keeps, and which satisfy a range set. The
//! wanted output is in the file `stdout` of this crate; it comes from the published rows and from
//! the examples of SemVer 2.0.0, section 11.
//!
//! If standard input has a number, it only makes that number of requests for memory, and then
//! filters once (`./test`, `requests`).
#![tactic(auto)]

use release_filter::{filter_text, version_meets};
use semver_parser::parser::Error;
use semver_parser::version::Version;
use semver_parser::{Compat, RangeError, RangeSet, version};
use std::alloc::{AllocError, Global};
use std::io;
use std::io::Read;

/// Modes, ranges, and the versions that are filtered by them.
const FILTERED: [(Compat, &str, &str); 12] = [
    (
        Compat::Cargo,
        "^0.2 || 2.x",
        "0.2.0 0.3.0 2.0.0-rc 2.5.0 2.5.0",
    ),
    (Compat::Cargo, "^1.2.3", "2.0.0-alpha 1.2.3 2.0.0"),
    (Compat::Npm, "=1.2.3", "1.2.3+b 1.2.3-rc 1.2.3"),
    (Compat::Cargo, "<1.0.0-rc", "0.9.9 1.0.0"),
    (Compat::Npm, ">=1.0.0-rc", "1.0.0-rc 1.0.0"),
    (Compat::Cargo, ">*", "0.0.0 1.0.0"),
    (Compat::Npm, "|", ""),
    (Compat::Cargo, "<=18446744073709551615", ""),
    (Compat::Cargo, "^1.2", ""),
    (Compat::Cargo, "1 - 2 || <3 >2", ""),
    (Compat::Npm, "^1.2", ""),
    (Compat::Npm, "1 - 2 || <3 >2", ""),
];

/// The pre-releases of SemVer's examples, in the order of their precedence, and their release.
const ORDERED: &str = "1.0.0-alpha 1.0.0-alpha.1 1.0.0-alpha.beta 1.0.0-beta 1.0.0-beta.2 \
    1.0.0-beta.11 1.0.0-rc.1 1.0.0";

/// Modes, ranges, and the versions of which those that satisfy the range set are written.
const MET: [(Compat, &str, &str); 20] = [
    (Compat::Cargo, ">=1.0.0-alpha", ORDERED),
    (Compat::Cargo, "<1.0.0-alpha", ORDERED),
    (Compat::Cargo, ">=1.0.0-alpha.1", ORDERED),
    (Compat::Cargo, "<1.0.0-alpha.1", ORDERED),
    (Compat::Cargo, ">=1.0.0-alpha.beta", ORDERED),
    (Compat::Cargo, "<1.0.0-alpha.beta", ORDERED),
    (Compat::Cargo, ">=1.0.0-beta", ORDERED),
    (Compat::Cargo, "<1.0.0-beta", ORDERED),
    (Compat::Cargo, ">=1.0.0-beta.2", ORDERED),
    (Compat::Cargo, "<1.0.0-beta.2", ORDERED),
    (Compat::Cargo, ">=1.0.0-beta.11", ORDERED),
    (Compat::Cargo, "<1.0.0-beta.11", ORDERED),
    (Compat::Cargo, ">=1.0.0-rc.1", ORDERED),
    (Compat::Cargo, "<1.0.0-rc.1", ORDERED),
    (Compat::Cargo, ">=1.0.0", ORDERED),
    (Compat::Cargo, "<1.0.0", ORDERED),
    (
        Compat::Npm,
        "=1.0.0-rc.1",
        "1.0.0-rc 1.0.0-rc.1 1.0.0-rc.1+b 1.0.0-rc.1.0 1.0.0",
    ),
    (
        Compat::Npm,
        ">1.0.0-B",
        "1.0.0-A 1.0.0-B 1.0.0-C 1.0.0-a 1.0.0-9 1.0.0-9a",
    ),
    (Compat::Cargo, ">=1.0.0", "2.0.0-alpha 1.0.0-rc 1.0.0+b"),
    (
        Compat::Cargo,
        ">=1.0.0-beta.2 <1.0.0 || =3.0.0-0",
        "1.0.0-alpha 1.0.0-beta.11 1.0.0 3.0.0-0 3.0.0",
    ),
];

/// The range and the versions that are filtered with each request failing. Three are kept.
const RANGE: &str = "^0.2 || 2.x";

const VERSIONS: &str = "0.2.0 0.3.0 2.0.0-rc 2.5.0 2.5.0";

fn main(rt: HostRuntime) -> io::Result<()> {
    if let Some(requests) = read_number(&mut rt.stdin())? {
        return refuse(&rt, rt.alloc(), requests);
    }
    for (compat, range, list) in FILTERED {
        let versions = versions(rt.alloc(), list)?;
        write_kept(
            &rt,
            rt.alloc(),
            &filter_text(rt.alloc(), range, compat, &versions),
        )?;
    }
    for (compat, range, list) in MET {
        let versions = versions(rt.alloc(), list)?;
        write_kept(&rt, rt.alloc(), &met(rt.alloc(), range, compat, &versions))?;
    }
    Ok(())
}

/// Returns the number in the input, or `None` if the input is empty.
fn read_number(input: &mut impl Read) -> io::Result<Option<u32>> {
    let mut digits = [0u8; 8];
    let count = input.read(&mut digits)?;
    let mut number = None;
    for digit in &digits[..count] {
        if digit.is_ascii_digit() {
            let so_far: u32 = number.unwrap_or(0);
            let value = u32::from(digit - b'0');
            number = Some(so_far.saturating_mul(10).saturating_add(value));
        }
    }
    Ok(number)
}

/// Writes the kept versions, or the error of the range.
fn write_kept(
    rt: &impl Print,
    alloc: Global,
    kept: &Result<Vec<&Version>, RangeError>,
) -> io::Result<()> {
    match kept {
        Ok(kept) => {
            let mut line = String::new(alloc);
            for version in kept.iter() {
                write!(line, "{version} ")?;
            }
            println!(rt; "{line}end")
        }
        Err(error) => println!(rt; "{error}"),
    }
}

/// Returns the versions of a list, up to the first item that is none.
fn versions(alloc: Global, list: &str) -> Result<Vec<Version>, AllocError> {
    let mut versions = Vec::new(alloc);
    for item in list.split(' ') {
        match version::parse(alloc, item) {
            Ok(version) => versions.push(version)?,
            Err(Error::OutOfMemory) => return Err(AllocError),
            Err(_) => break,
        }
    }
    Ok(versions)
}

/// Returns the versions that satisfy the comparators of a range.
fn met<'v>(
    alloc: Global,
    range: &str,
    compat: Compat,
    versions: &'v [Version],
) -> Result<Vec<&'v Version>, RangeError> {
    let set = RangeSet::parse(alloc, range, compat)?;
    let mut met = Vec::new(alloc);
    for version in versions {
        if version_meets(&set, version) && met.push(version).is_err() {
            return Err(RangeError::OutOfMemory);
        }
    }
    Ok(met)
}

/// Makes a number of requests, and then filters, and writes how that ended.
fn refuse(rt: &impl Print, alloc: Global, requests: u32) -> io::Result<()> {
    for _ in 0..requests {
        let _request = Vec::from_slice(alloc, b"1");
    }
    match count_of_kept(alloc) {
        Ok(3) => {}
        Ok(_) => rt.println("wrong: filter")?,
        Err(_) => rt.println("refused: filter")?,
    }
    rt.println("done")
}

/// Returns how many versions are kept, or that a request failed.
fn count_of_kept(alloc: Global) -> Result<usize, AllocError> {
    let versions = versions(alloc, VERSIONS)?;
    match filter_text(alloc, RANGE, Compat::Cargo, &versions) {
        Ok(kept) => Ok(kept.len()),
        Err(RangeError::OutOfMemory) => Err(AllocError),
        Err(_) => Ok(0),
    }
}
