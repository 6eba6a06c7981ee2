//! Calls that say which versions satisfy a range.

use crate::checksum::Checksum;
use crate::ranges::DIALECTS;
use semver_parser::version::{self, Version};
use std::alloc::Global;
use std::io;
use std::io::Write;
use tool_ranges::highest::Extreme;
use tool_ranges::meaning::{self, Rules};
use tool_ranges::satisfying::{SatisfiesError, satisfies};
use tool_ranges::version_range::VersionRange;
use version_sets::{Combination, OperationError, PreReleases, Release, VersionSet};

pub const RULES: [PreReleases; 3] = [
    PreReleases::ByDialect,
    PreReleases::Included,
    PreReleases::Excluded,
];

const COMBINATIONS: [Combination; 3] = [
    Combination::Union,
    Combination::Intersection,
    Combination::Difference,
];

/// Versions that may satisfy a range.
const VERSIONS: [&[u8]; 7] = [
    b"0.1.0",
    b"1.2.3-a.1",
    b"1.2.3",
    b"1.9.0",
    b"2.0.0-0",
    b"2.0.0",
    b"1.2",
];

/// A range with which others are combined.
const OTHER: &str = ">=1.2.3-a <1.9.0";

/// Asks whether versions satisfy a range, in each dialect and by each rule.
pub fn add_satisfied(bytes: &[u8], sum: &mut Checksum) -> io::Result<()> {
    let Ok(text) = str::from_utf8(bytes) else {
        return Ok(());
    };
    for dialect in DIALECTS {
        for pre_releases in RULES {
            let meaning = Rules {
                dialect,
                pre_releases,
            };
            for version in VERSIONS {
                add_answer(satisfies(version, text, meaning), sum)?;
            }
        }
    }
    Ok(())
}

fn add_answer(answer: Result<bool, SatisfiesError>, sum: &mut Checksum) -> io::Result<()> {
    match answer {
        Ok(is) => sum.add(u64::from(is)),
        Err(error) => write!(sum, "{error};")?,
    }
    Ok(())
}

/// Asks whether a string is a version that satisfies some ranges.
pub fn add_contained(alloc: Global, bytes: &[u8], sum: &mut Checksum) -> io::Result<()> {
    for dialect in DIALECTS {
        for pre_releases in RULES {
            let meaning = Rules {
                dialect,
                pre_releases,
            };
            add_answer(satisfies(bytes, "1.2.3-a", meaning), sum)?;
            if let Ok(range) = VersionRange::parse(alloc, OTHER, meaning) {
                add_answer(range.contains_bytes(bytes), sum)?;
            }
        }
    }
    Ok(())
}

/// Reads the set of versions of a range, in each dialect and by each rule.
pub fn add_sets(alloc: Global, bytes: &[u8], sum: &mut Checksum) -> io::Result<()> {
    let Ok(text) = str::from_utf8(bytes) else {
        return Ok(());
    };
    for dialect in DIALECTS {
        for pre_releases in RULES {
            let meaning = Rules {
                dialect,
                pre_releases,
            };
            match meaning::read(alloc, meaning, text) {
                Ok(set) => add_set(alloc, &set, sum)?,
                Err(error) => write!(sum, "{error};")?,
            }
            if let Ok(range) = VersionRange::parse(alloc, text, meaning) {
                add_index(range.extreme_index(Extreme::Highest, &VERSIONS), sum);
                add_index(range.extreme_index(Extreme::Lowest, &VERSIONS), sum);
                write!(sum, "{range};")?;
            }
        }
    }
    Ok(())
}

fn add_set(alloc: Global, set: &VersionSet, sum: &mut Checksum) -> io::Result<()> {
    let releases = set.release_ranges(alloc)?;
    let pre_releases = set.pre_release_ranges(alloc)?;
    let all = VersionSet::all(alloc, set.digits())?;
    write!(sum, "{releases};{pre_releases};{all};")?;
    add_version(&set.lowest(alloc)?, sum)?;
    sum.add(u64::from(set.is_empty()));
    if let Some(release) = set.lowest_release() {
        sum.add(release.major);
        sum.add(release.minor);
        sum.add(release.patch);
    }
    Ok(())
}

fn add_version(version: &Option<Version>, sum: &mut Checksum) -> io::Result<()> {
    match version {
        Some(version) => write!(sum, "{version};"),
        None => write!(sum, ";"),
    }
}

fn add_index(index: Option<usize>, sum: &mut Checksum) {
    match index {
        Some(index) => sum.add(index as u64),
        None => sum.add(100),
    }
}

/// Asks whether a range contains versions, which are given in each form, in each dialect and by
/// each rule.
pub fn add_members(alloc: Global, bytes: &[u8], sum: &mut Checksum) -> io::Result<()> {
    let Ok(text) = str::from_utf8(bytes) else {
        return Ok(());
    };
    for dialect in DIALECTS {
        for pre_releases in RULES {
            let meaning = Rules {
                dialect,
                pre_releases,
            };
            let Ok(range) = VersionRange::parse(alloc, text, meaning) else {
                continue;
            };
            for version in VERSIONS {
                add_member(alloc, &range, version, sum)?;
            }
            if let Ok(set) = meaning::read(alloc, meaning, text) {
                let releases = set.only_releases(alloc);
                write!(sum, "{releases};")?;
            }
            if let Ok(set) = meaning::read(alloc, meaning, text) {
                let pre_releases = set.only_pre_releases(alloc);
                write!(sum, "{pre_releases};")?;
            }
        }
    }
    Ok(())
}

fn add_member(
    alloc: Global,
    range: &VersionRange,
    bytes: &[u8],
    sum: &mut Checksum,
) -> io::Result<()> {
    add_answer(range.contains_bytes(bytes), sum)?;
    if let Some(borrowed) = version::read_ref_bytes(bytes) {
        sum.add(u64::from(range.contains_ref(&borrowed)));
    }
    if let Some(version) = version::read_bytes(alloc, bytes)? {
        let release = Release::from_version(&version);
        sum.add(u64::from(range.contains_version(&version)));
        sum.add(u64::from(range.versions().contains_release(release)));
    }
    Ok(())
}

/// Combines and compares a range with another one, in each dialect and by each rule.
pub fn add_operations(alloc: Global, bytes: &[u8], sum: &mut Checksum) -> io::Result<()> {
    let Ok(text) = str::from_utf8(bytes) else {
        return Ok(());
    };
    for dialect in DIALECTS {
        for pre_releases in RULES {
            let meaning = Rules {
                dialect,
                pre_releases,
            };
            let Ok(range) = VersionRange::parse(alloc, text, meaning) else {
                continue;
            };
            if let Ok(other) = VersionRange::parse(alloc, OTHER, meaning) {
                add_pair(alloc, &range, &other, sum)?;
            }
        }
    }
    Ok(())
}

fn add_pair(
    alloc: Global,
    range: &VersionRange,
    other: &VersionRange,
    sum: &mut Checksum,
) -> io::Result<()> {
    for how in COMBINATIONS {
        add_range(&range.combined(alloc, how, other), sum)?;
    }
    add_range(&other.combined(alloc, Combination::Difference, range), sum)?;
    add_relation(range.is_subset_of(other), sum)?;
    add_relation(range.is_disjoint_from(other), sum)?;
    if let Ok(found) = range.versions().compare(alloc, other.versions()) {
        add_version(&found.lost, sum)?;
        add_version(&found.gained, sum)?;
        add_version(&found.shared, sum)?;
    }
    Ok(())
}

fn add_range(range: &Result<VersionRange, OperationError>, sum: &mut Checksum) -> io::Result<()> {
    match range {
        Ok(range) => write!(sum, "{range};"),
        Err(error) => write!(sum, "{error};"),
    }
}

fn add_relation(answer: Result<bool, OperationError>, sum: &mut Checksum) -> io::Result<()> {
    match answer {
        Ok(is) => sum.add(u64::from(is)),
        Err(error) => write!(sum, "{error};")?,
    }
    Ok(())
}
