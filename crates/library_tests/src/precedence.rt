//! The order of precedence, with the examples of the standard.
use semver_parser::version::{self, Version};
use std::alloc::{AllocError, Global};
use std::io;

/// Each is below the next: the example of SemVer 2.0.0, section 11.4, and then that of section
/// 11.2.
const ASCENDING: [&str; 11] = [
    "1.0.0-alpha",
    "1.0.0-alpha.1",
    "1.0.0-alpha.beta",
    "1.0.0-beta",
    "1.0.0-beta.2",
    "1.0.0-beta.11",
    "1.0.0-rc.1",
    "1.0.0",
    "2.0.0",
    "2.1.0",
    "2.1.1",
];

/// Writes which versions don't compare like their indices, and how many there are. One of each pair
/// has no build metadata, and the other has some.
pub fn write_precedence(rt: &impl Print, alloc: Global) -> io::Result<()> {
    let versions = versions_with(alloc, "")?;
    let built = versions_with(alloc, "+b5")?;
    for (place, version) in versions.iter().enumerate() {
        for (other_place, other) in built.iter().enumerate() {
            let wanted = place.cmp(&other_place);
            if version::cmp_precedence(version, other) != wanted
                || version::cmp_precedence(other, version) != wanted.reverse()
            {
                println!(rt; "precedence: wrong of {version} and {other}")?;
            }
        }
    }
    println!(rt; "precedence: {} versions", versions.len())
}

/// Returns the versions, each with this string after it.
fn versions_with(alloc: Global, build: &str) -> Result<Vec<Version>, AllocError> {
    let mut versions = Vec::new(alloc);
    for text in ASCENDING {
        let whole = format!(in alloc; "{text}{build}")?;
        if let Some(version) = version::read(alloc, whole.as_str())? {
            versions.push(version)?;
        }
    }
    Ok(versions)
}
