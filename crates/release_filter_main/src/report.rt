//! Reports lines without a version on standard error.

use crate::arguments::Filtering;
use release_filter::Counts;
use semver_parser::version::read_ref_in;
use std::io::IsTerminal;

/// How many bytes of a line without a version are shown.
const SHOWN: usize = 80;

/// If no line was kept, reports how many lines have no version, and shows the first, with a hint if
/// a prefix is missing. If some lines were kept, it does so only on a terminal, and only if there
/// is the hint.
pub fn report_invalid(rt: &HostRuntime, counts: &Counts, filtering: &Filtering, has_lines: bool) {
    let Some(first) = &counts.first_invalid else {
        return;
    };
    let front = first.front.as_slice();
    let lacks_prefix = filtering.options.prefixes.is_empty() && has_v(front, filtering);
    if has_lines && !(lacks_prefix && rt.stderr().is_terminal()) {
        return;
    }
    let all = counts.lines.saturating_sub(counts.empty);
    let line = if filtering.options.is_json {
        "string"
    } else {
        "line"
    };
    let plural = if all == 1 { "" } else { "s" };
    let are = if counts.invalid == 1 {
        "is an invalid version"
    } else {
        "are invalid versions"
    };
    let (shown, more) = shown(front);
    let hint = if !lacks_prefix {
        ""
    } else if has_lines {
        "; to match it, too, use --prefix v --prefix ''"
    } else {
        "; try --prefix v"
    };
    let _ = eprintln!(rt;
        "release-filter: {} of {all} {line}{plural} {are}; the first, {line} {}: {}{more}{hint}",
        counts.invalid,
        first.number,
        shown.escape_ascii()
    );
}

/// Returns whether a line is a version after a `v`.
fn has_v(front: &[u8], filtering: &Filtering) -> bool {
    match front.strip_prefix(b"v") {
        Some(version) => read_ref_in(version, filtering.meaning.dialect.grammar()).is_some(),
        None => false,
    }
}

/// Returns the first 80 bytes of the beginning of a line, and dots if there are more.
pub fn shown(front: &[u8]) -> (&[u8], &'static str) {
    match front.get(..SHOWN) {
        Some(shown) if front.len() > SHOWN => (shown, "..."),
        _ => (front, ""),
    }
}
