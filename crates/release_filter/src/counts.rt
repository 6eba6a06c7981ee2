//! Counts the lines of a text, the kept ones, and the ones without a version, and keeps the first
//! of those.

ghost use Rattle.std.specs.Prelude.{◌≡◌, IfErr, IfOk, not, take, true};
ghost use Rattle.release_filter.specs.Counting.{counted_as, counts_value, first_of, no_counts};
ghost use Rattle.release_filter.specs.Steps.Taking.{verdict_of, without_version};
ghost use Rattle.release_filter.specs.Verdicts.{is_invalid, reported};

use crate::judge::Judged;
use std::alloc::{AllocError, Global};

/// The number of bytes that are kept of the first invalid line.
const FRONT: usize = 81;

/// The number of lines of a text, and how many of them are kept or have no version. Each count
/// stops at 2^64 - 1.
#[derive(Debug, Drop)]
pub struct Counts {
    /// The lines that have ended. When the end of the text is taken, the last line is included.
    pub lines: u64,
    /// The kept lines, whichever of these are wanted.
    pub kept: u64,
    /// The lines whose text is empty.
    pub empty: u64,
    /// The invalid lines: they aren't empty, and have no version.
    pub invalid: u64,
    /// The first invalid line.
    pub first_invalid: Option<InvalidLine>,
}

/// A line that is not empty and has no version.
#[derive(Debug, Drop)]
pub struct InvalidLine {
    /// Its number, where the first line has number 1.
    pub number: u64,
    /// The first 81 bytes of its text, without the line's end, or all of it if it is shorter.
    pub front: Vec<u8>,
}

impl Counts {
    /// Returns counts of no lines.
    pub(crate) fn new() -> Counts
        ensures { counts_value result ≡ no_counts }
    {
        Counts {
            lines: 0,
            kept: 0,
            empty: 0,
            invalid: 0,
            first_invalid: None,
        }
    }

    /// Counts a line, given what the filter decided about it, and returns whether the line is
    /// valid. `Err` means out of memory.
    #[inline(always)]
    pub(crate) fn count(&mut self, alloc: Global, judged: &Judged<'_>) -> Result<bool, AllocError>
        ensures counted { IfOk result (λ _. counts_value self.new
            ≡ counted_as (verdict_of judged.now) (counts_value self.old)) }
        ensures valid { IfOk result (λ is_valid.
            is_valid ≡ not (is_invalid (verdict_of judged.now))) }
        ensures unchanged { IfErr result (λ _. counts_value self.new ≡ counts_value self.old) }
        // Memory runs out only for an invalid line.
        ensures out_of_memory { IfErr result (λ _. is_invalid (verdict_of judged.now) ≡ true) }
    {
        match judged {
            Judged::NotAVersion(text) => return self.count_without_version(alloc, text),
            Judged::Outside => {}
            Judged::Kept(_, _) => self.kept = self.kept.saturating_add(1),
        }
        self.lines = self.lines.saturating_add(1);
        Ok(true)
    }

    /// Counts a line with this text, which has no version, and returns whether it is empty. `Err`
    /// means out of memory.
    fn count_without_version(&mut self, alloc: Global, text: &[u8]) -> Result<bool, AllocError>
        ensures counted { IfOk result (λ _. counts_value self.new
            ≡ counted_as (without_version text.now) (counts_value self.old)) }
        ensures valid { IfOk result (λ is_valid.
            is_valid ≡ not (is_invalid (without_version text.now))) }
        ensures unchanged { IfErr result (λ _. counts_value self.new ≡ counts_value self.old) }
        ensures out_of_memory { IfErr result (λ _. is_invalid (without_version text.now) ≡ true) }
    {
        let number = self.lines.saturating_add(1);
        if text.is_empty() {
            self.lines = number;
            self.empty = self.empty.saturating_add(1);
            return Ok(true);
        }
        self.keep_first(alloc, number, text)?;
        self.lines = number;
        self.invalid = self.invalid.saturating_add(1);
        Ok(false)
    }

    /// Keeps the beginning of an invalid line with this number and text, if it is the first one.
    /// `Err` means out of memory.
    fn keep_first(&mut self, alloc: Global, number: u64, text: &[u8]) -> Result<(), AllocError>
        ensures first { IfOk result (λ _. counts_value self.new ≡ record (counts_value self.old) {
          first_invalid = first_of (counts_value self.old).first_invalid
              (record { number = number; front = take reported text.now });
        }) }
        ensures unchanged { IfErr result (λ _. counts_value self.new ≡ counts_value self.old) }
    {
        if self.first_invalid.is_none() {
            let front = Vec::from_slice(alloc, &text[..text.len().min(FRONT)])?;
            self.first_invalid = Some(InvalidLine { number, front });
        }
        Ok(())
    }
}
