//! Versions and sets that are made by hand, and what is read if they are printed.
use semver_parser::version::{self, Version};
use semver_parser::{Comparator, Compat, Identifier, Op, Range, RangeSet};
use std::alloc::{AllocError, Global};
use std::io;

/// Prints versions whose only identifier has a string that may be an invalid identifier, reads
/// them, and writes the result.
pub fn write_versions(rt: &impl Print, alloc: Global) -> io::Result<()> {
    for text in ["7", "01", "a--b", ""] {
        let made = version_of(alloc, text)?.to_string(alloc)?;
        let again = version::parse(alloc, made.as_str());
        println!(rt; "{made}: {again:?}")?;
    }
    Ok(())
}

/// Returns the version 1.2.3 with one identifier that has the string.
fn version_of(alloc: Global, text: &str) -> Result<Version, AllocError> {
    let kept = version::Identifier::AlphaNumeric(text.to_string(alloc)?);
    Ok(Version {
        major: 1,
        minor: 2,
        patch: 3,
        pre: vec![in alloc; kept]?,
        build: Vec::new(alloc),
    })
}

/// Prints sets in Cargo mode, reads them, and writes the result: a set without ranges, one without
/// comparators, ranges of one comparator, and a set whose range is in another mode.
pub fn write_sets(rt: &impl Print, alloc: Global) -> io::Result<()> {
    let (ranges, compat) = (Vec::new(alloc), Compat::Cargo);
    write_read_back(rt, alloc, &RangeSet { ranges, compat })?;
    let no_comparators = Vec::new(alloc);
    write_read_back(
        rt,
        alloc,
        &of_one_range(alloc, no_comparators, Compat::Cargo)?,
    )?;
    for (op, numbers, text) in [
        (Op::Eq, (1, 2, 3), "007"),
        (Op::Eq, (1, 2, 3), "a.b"),
        (Op::Lte, (1, 0, 0), "-"),
        (Op::Eq, (1, 2, 3), "18446744073709551616"),
    ] {
        let kept = Identifier::AlphaNumeric(text.to_string(alloc)?);
        let comparator_set = comparators(alloc, op, numbers, vec![in alloc; kept]?)?;
        write_read_back(
            rt,
            alloc,
            &of_one_range(alloc, comparator_set, Compat::Cargo)?,
        )?;
    }
    let comparator_set = comparators(alloc, Op::Gt, (1, 0, 0), Vec::new(alloc))?;
    write_read_back(
        rt,
        alloc,
        &of_one_range(alloc, comparator_set, Compat::Npm)?,
    )
}

/// Returns a list of one comparator, with an operator, three numbers and a pre-release.
fn comparators(
    alloc: Global,
    op: Op,
    (major, minor, patch): (u64, u64, u64),
    pre: Vec<Identifier>,
) -> Result<Vec<Comparator>, AllocError> {
    let comparator = Comparator {
        op,
        major,
        minor,
        patch,
        pre,
    };
    Ok(vec![in alloc; comparator]?)
}

/// Returns a set in Cargo mode of one range in a mode of its own.
fn of_one_range(
    alloc: Global,
    comparator_set: Vec<Comparator>,
    compat: Compat,
) -> Result<RangeSet, AllocError> {
    let range = Range {
        comparator_set,
        compat,
    };
    Ok(RangeSet {
        ranges: vec![in alloc; range]?,
        compat: Compat::Cargo,
    })
}

/// Writes how a set is printed, what this is read as in the set's own mode, and whether that is the
/// set.
fn write_read_back(rt: &impl Print, alloc: Global, set: &RangeSet) -> io::Result<()> {
    let printed = set.to_string(alloc)?;
    let again = RangeSet::parse(alloc, printed.as_str(), set.compat);
    let is_itself = again.as_ref().is_ok_and(|again| again == set);
    println!(rt; "{printed}: {again:?}, itself: {is_itself}")?;
    let exact = RangeSet::parse_exact(alloc, printed.as_str(), set.compat);
    if exact != again {
        println!(rt; "{printed}: with exact bounds {exact:?}")?;
    }
    Ok(())
}
