//! Makes a call for every string of a length over an alphabet, and writes a checksum of everything
//! that it returned. Each line of standard input has the name of the call, the name of the alphabet
//! and the length, separated by spaces. `tests/small-inputs.sh` compares what the kit's build and
//! cargo's build of this program write.
#![tactic(auto)]

mod alphabets;
mod checksum;
mod lines;
mod ranges;
mod sets;
mod upgrades;
mod versions;

use checksum::Checksum;
use std::alloc::Global;
use std::io;
use std::io::{BufRead, BufReader, BufWriter, Write};

fn main(rt: HostRuntime) -> io::Result<()> {
    let input = BufReader::new(rt.alloc(), rt.reader())?;
    let mut output = BufWriter::new(rt.alloc(), io::writer(&rt))?;
    for line in input.lines(rt.alloc()) {
        write_sum(rt.alloc(), line?.as_str(), &mut output)?;
        output.write_all(b"\n")?;
    }
    output.flush()
}

/// Writes a line of the input, and the number of its strings and the checksum after it.
fn write_sum<W: Write>(alloc: Global, line: &str, out: &mut W) -> io::Result<()> {
    let (call, rest) = line.split_once(' ').unwrap_or((line, ""));
    let (name, length) = rest.split_once(' ').unwrap_or((rest, ""));
    let Ok(length) = length.parse::<u32>() else {
        return write!(out, "{line}: no length");
    };
    match name {
        "characters" => write_sum_over(alloc, line, call, &alphabets::CHARACTERS, length, out),
        "versions" => write_sum_over(alloc, line, call, &alphabets::VERSIONS, length, out),
        "ranges" => write_sum_over(alloc, line, call, &alphabets::RANGES, length, out),
        "lines" => write_sum_over(alloc, line, call, &alphabets::LINES, length, out),
        _ => write!(out, "{line}: no such alphabet"),
    }
}

/// Writes the checksum of a call for each string of a length over an alphabet.
fn write_sum_over<W: Write>(
    alloc: Global,
    line: &str,
    call: &str,
    pieces: &[&[u8]],
    length: u32,
    out: &mut W,
) -> io::Result<()> {
    let mut sum = Checksum::new();
    let mut bytes = Vec::new(alloc);
    let count = alphabets::count(pieces, length);
    for number in 0..count {
        alphabets::spell(pieces, length, number, &mut bytes)?;
        if !add(alloc, call, bytes.as_slice(), &mut sum)? {
            return write!(out, "{line}: no such call");
        }
    }
    write!(out, "{line}: {count} strings, {sum}")
}

/// Adds what a call returns for a string to a checksum. Returns false if there is no such call.
fn add(alloc: Global, call: &str, bytes: &[u8], sum: &mut Checksum) -> io::Result<bool> {
    match call {
        "parse" => versions::add_parsed(alloc, bytes, sum)?,
        "tokens" => versions::add_tokens(bytes, sum)?,
        "parser" => versions::add_steps(alloc, bytes, sum)?,
        "read" => versions::add_read(alloc, bytes, sum)?,
        "read-in" => versions::add_borrowed(alloc, bytes, sum)?,
        "compare" => versions::add_compared(alloc, bytes, sum)?,
        "explain" => versions::add_refused(alloc, bytes, sum)?,
        "contained" => sets::add_contained(alloc, bytes, sum)?,
        "range-set" => ranges::add_range_sets(alloc, bytes, sum)?,
        "comparators" => ranges::add_comparators(alloc, bytes, sum)?,
        "check" => ranges::add_checked(bytes, sum)?,
        "explain-range" => ranges::add_refused(alloc, bytes, sum)?,
        "terms" => ranges::add_terms(bytes, sum)?,
        "meets" => ranges::add_met(alloc, bytes, sum)?,
        "report" => ranges::add_report(alloc, bytes, sum)?,
        "satisfies" => sets::add_satisfied(bytes, sum)?,
        "set" => sets::add_sets(alloc, bytes, sum)?,
        "members" => sets::add_members(alloc, bytes, sum)?,
        "operations" => sets::add_operations(alloc, bytes, sum)?,
        "upgrade" => upgrades::add_raised(alloc, bytes, sum)?,
        "lines" => lines::add_lines(alloc, bytes, sum)?,
        _ => return Ok(false),
    }
    Ok(true)
}
