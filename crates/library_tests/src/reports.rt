//! The report to a writer that fails.
use super::writers::{ALL_AT_ONCE, Limited, Refusal};
use semver_parser::report;
use std::alloc::Global;
use std::io;

/// The report of `1.2.3`.
const REPORT: &str = "version: 1.2.3\ncargo: >=1.2.3 <2.0.0\nnpm: =1.2.3\n";

/// Writes for which failures the report doesn't end as documented, and how many there were.
pub fn write_report(rt: &impl Print, alloc: Global) -> io::Result<()> {
    let mut refusals = 0u32;
    for refusal in [Refusal::Fail, Refusal::Interrupt, Refusal::TakeNone] {
        for most in [1, ALL_AT_ONCE] {
            for left in 0..=REPORT.len() {
                if !ends_with(alloc, left, most, refusal) {
                    println!(rt; "report: wrong after {left} bytes")?;
                }
                refusals = refusals.saturating_add(1);
            }
        }
    }
    println!(rt; "report: {refusals} writers")
}

/// Returns whether the report writes everything that is taken and nothing after a failure, and its
/// status is 2 if and only if there was a failure.
fn ends_with(alloc: Global, left: usize, most: usize, refusal: Refusal) -> bool {
    let mut out = Limited::new(alloc, left, most, refusal);
    let ran = report::run(alloc, "1.2.3", &mut out);
    let status = if left < REPORT.len() { 2 } else { 0 };
    report::status(&ran) == status
        && out.late_calls == 0
        && Some(out.taken.as_slice()) == REPORT.as_bytes().get(..left)
}
