//! Filters of lines.

use crate::checksum::Checksum;
use release_filter::{LineEnd, LineOptions, Lines, LinesError, Selection};
use semver_ranges::dialect::Dialect;
use std::alloc::Global;
use std::io;
use std::io::Write;
use tool_ranges::meaning::Rules;
use tool_ranges::version_range::VersionRange;
use version_sets::PreReleases;

const SELECTIONS: [Selection; 5] = [
    Selection::Each,
    Selection::Highest,
    Selection::Lowest,
    Selection::Sorted,
    Selection::Reversed,
];

const ENDINGS: [LineEnd; 2] = [LineEnd::LineFeed, LineEnd::ZeroByte];

/// Filters lines with each selection and each kind of line, strictly and not.
pub fn add_lines(alloc: Global, bytes: &[u8], sum: &mut Checksum) -> io::Result<()> {
    for selection in SELECTIONS {
        for ending in ENDINGS {
            for is_strict in [false, true] {
                let options = LineOptions {
                    selection,
                    ending,
                    strips_prefix: is_strict,
                    is_strict,
                };
                add_filtered(alloc, bytes, options, sum)?;
            }
        }
    }
    Ok(())
}

/// Filters lines, which are pushed in two pieces, and then the same lines as a second file.
fn add_filtered(
    alloc: Global,
    bytes: &[u8],
    options: LineOptions,
    sum: &mut Checksum,
) -> io::Result<()> {
    let meaning = Rules {
        dialect: Dialect::Npm,
        pre_releases: PreReleases::ByDialect,
    };
    let Ok(range) = VersionRange::parse(alloc, "^1.2.3-a", meaning) else {
        return Ok(());
    };
    let mut prefixes = Vec::new(alloc);
    prefixes.push(String::from_str(alloc, "v")?)?;
    let mut lines = Lines::new(alloc, range, prefixes, options);
    let mut kept = Vec::new(alloc);
    match pushed(alloc, &mut lines, bytes, &mut kept) {
        Ok(()) => sum.add(1),
        Err(error) => write!(sum, "{error};")?,
    }
    sum.add_bytes(kept.as_slice());
    let counts = lines.counts();
    sum.add(counts.lines);
    sum.add(counts.kept);
    sum.add(counts.empty);
    sum.add(counts.invalid);
    if let Some(invalid) = counts.first_invalid.as_ref() {
        sum.add(invalid.number);
        sum.add_bytes(invalid.front.as_slice());
    }
    Ok(())
}

fn pushed(
    alloc: Global,
    lines: &mut Lines,
    bytes: &[u8],
    kept: &mut Vec<u8>,
) -> Result<(), LinesError> {
    let (first, second) = bytes.split_at(bytes.len() / 2);
    lines.push(alloc, first, kept)?;
    lines.push(alloc, second, kept)?;
    lines.end_file(alloc, kept)?;
    lines.push(alloc, bytes, kept)?;
    lines.finish(alloc, kept)
}
