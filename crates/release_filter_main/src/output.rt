//! Writes kept lines: as they are, as JSON, or only their number.

use crate::arguments::Options;
use crate::json::{push_end, push_items};
use command_line::write_whole;
use release_filter::Selection;
use std::alloc::Global;
use std::io::{self, Write};

/// Writes kept lines, either the first or further ones, and drops them.
pub fn write_lines<W: Write>(
    alloc: Global,
    output: &mut W,
    options: &Options,
    are_first: bool,
    kept: &mut Vec<u8>,
) -> io::Result<()> {
    if options.is_counted {
        kept.clear();
    }
    if kept.is_empty() {
        return Ok(());
    }
    if options.is_json {
        let mut items = Vec::new(alloc);
        push_items(kept, are_first, &mut items)?;
        *kept = items;
    }
    write_whole(output, kept.as_slice())?;
    kept.clear();
    output.flush()
}

/// Writes the end of the JSON array.
pub fn write_end<W: Write>(alloc: Global, output: &mut W, has_items: bool) -> io::Result<()> {
    let mut end = Vec::new(alloc);
    push_end(has_items, &mut end)?;
    write_whole(output, end.as_slice())?;
    output.flush()
}

/// Writes the number of the lines that the options select: one, or all.
pub fn write_count<W: Write>(
    alloc: Global,
    output: &mut W,
    selection: Selection,
    kept: u64,
) -> io::Result<()> {
    let count = match selection {
        Selection::Highest | Selection::Lowest => kept.min(1),
        Selection::Each | Selection::Sorted | Selection::Reversed => kept,
    };
    let mut line = count.to_string(alloc)?;
    line.push('\n')?;
    write_whole(output, line.as_bytes())?;
    output.flush()
}
