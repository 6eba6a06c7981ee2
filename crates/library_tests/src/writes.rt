//! Whole writes, of no byte and of some, to a writer that fails.
use super::writers::{ALL_AT_ONCE, Limited, Refusal};
use semver_texts::writing::write_whole;
use std::alloc::Global;
use std::io;
use std::io::ErrorKind;

/// The bytes, each prefix of which is written.
const BYTES: &[u8] = b"1.2.3";

/// Writes for which prefixes and failures a whole write doesn't end as documented, and how many
/// there were.
pub fn write_writes(rt: &impl Print, alloc: Global) -> io::Result<()> {
    let mut writes = 0u32;
    for refusal in [Refusal::Fail, Refusal::Interrupt, Refusal::TakeNone] {
        for most in [1, ALL_AT_ONCE] {
            let (count, wrong) = count_writes(alloc, most, refusal);
            writes = writes.saturating_add(count);
            if wrong > 0 {
                println!(rt; "writes: {wrong} wrong where {most} bytes are taken at a call")?;
            }
        }
    }
    println!(rt; "writes: {writes} writers")
}

/// Returns how many prefixes of the bytes were written to writers with each capacity, and how many
/// of these writes didn't end as documented.
fn count_writes(alloc: Global, most: usize, refusal: Refusal) -> (u32, u32) {
    let mut count = 0u32;
    let mut wrong = 0u32;
    for len in 0..=BYTES.len() {
        let bytes = BYTES.get(..len).unwrap_or_default();
        for left in 0..=len {
            count = count.saturating_add(1);
            if !ends_as_documented(alloc, bytes, left, most, refusal) {
                wrong = wrong.saturating_add(1);
            }
        }
    }
    (count, wrong)
}

/// Returns whether everything is written, or the bytes before a failure, and then the documented
/// error is returned.
fn ends_as_documented(
    alloc: Global,
    bytes: &[u8],
    left: usize,
    most: usize,
    refusal: Refusal,
) -> bool {
    let mut out = Limited::new(alloc, left, most, refusal);
    let is_told = match write_whole(&mut out, bytes) {
        Ok(()) => left == bytes.len(),
        Err(error) => left < bytes.len() && error.kind() == kind_of(refusal),
    };
    is_told && out.late_calls == 0 && Some(out.taken.as_slice()) == bytes.get(..left)
}

/// Returns the documented error of a failure.
fn kind_of(refusal: Refusal) -> ErrorKind {
    match refusal {
        Refusal::Fail => ErrorKind::BrokenPipe,
        Refusal::Interrupt => ErrorKind::Interrupted,
        Refusal::TakeNone => ErrorKind::WriteZero,
    }
}
