//! Range sets, written by their fields and as they are printed, and the lines of the report.

use semver_parser::{Compat, Identifier, Range, RangeError, RangeSet, report};
use std::alloc::Global;
use std::io;
use std::io::Write;

/// Writes the fields of a set, or its error. The mode is written if the set and each range have it.
pub fn write_set<W: Write>(answer: &Result<RangeSet, RangeError>, out: &mut W) -> io::Result<()> {
    let set = match answer {
        Ok(set) => set,
        Err(error) => return write!(out, "{error:?}"),
    };
    let compat = set.compat;
    write!(out, "{compat:?}")?;
    for (i, range) in set.ranges.iter().enumerate() {
        if i > 0 {
            write!(out, " ||")?;
        }
        write_range(range, compat, out)?;
    }
    Ok(())
}

/// Writes the comparators of a range by their fields, and whether it is in another mode.
fn write_range<W: Write>(range: &Range, compat: Compat, out: &mut W) -> io::Result<()> {
    if range.compat != compat {
        write!(out, " another mode")?;
    }
    for comparator in range.comparator_set.iter() {
        let op = &comparator.op;
        let (major, minor, patch) = (comparator.major, comparator.minor, comparator.patch);
        write!(out, " {op}{major}.{minor}.{patch}[")?;
        for (i, identifier) in comparator.pre.iter().enumerate() {
            if i > 0 {
                write!(out, " ")?;
            }
            match identifier {
                Identifier::Numeric(number) => write!(out, "Numeric({number})")?,
                Identifier::AlphaNumeric(word) => write!(out, "AlphaNumeric({word})")?,
            }
        }
        write!(out, "]")?;
    }
    Ok(())
}

/// Writes how a set is printed, or its error.
pub fn write_printed<W: Write>(
    answer: &Result<RangeSet, RangeError>,
    out: &mut W,
) -> io::Result<()> {
    match answer {
        Ok(set) => write!(out, "{set}"),
        Err(error) => write!(out, "{error}"),
    }
}

/// Writes how a set is printed, and whether one of the two functions reads this as another set, or
/// writes its error.
pub fn write_read_back<W: Write>(
    alloc: Global,
    answer: &Result<RangeSet, RangeError>,
    out: &mut W,
) -> io::Result<()> {
    write_printed(answer, out)?;
    let Ok(set) = answer else {
        return Ok(());
    };
    let printed = set.to_string(alloc)?;
    let plain = RangeSet::parse(alloc, printed.as_str(), set.compat);
    let exact = RangeSet::parse_exact(alloc, printed.as_str(), set.compat);
    if plain == *answer && exact == *answer {
        Ok(())
    } else {
        write!(out, " reads back as another set")
    }
}

/// Writes the lines of the report for a string, each followed by `; `, and the status after it.
pub fn write_report<W: Write>(alloc: Global, text: &str, out: &mut W) -> io::Result<()> {
    let mut bytes = Vec::new(alloc);
    let ran = report::run(alloc, text, &mut bytes);
    let status = report::status(&ran);
    for byte in bytes.as_slice() {
        match byte {
            b'\n' => out.write_all(b"; ")?,
            other => out.write_all(&[*other])?,
        }
    }
    write!(out, "status {status}")
}
