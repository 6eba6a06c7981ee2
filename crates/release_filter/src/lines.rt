//! Filters the lines of a text that comes in pieces. A line is held until it ends, but no more of
//! it than shows that it has no version: a text of more than 1,048,576 bytes has none.

ghost use Rattle.std.specs.Prelude.{◌≡◌, ◌≢◌, ◌++◌, [], ◌∷◌, true, All, IfErr, IfOk, map, take};
ghost use Rattle.std.specs.Prelude.{string_bytes};
ghost use Rattle.release_filter.specs.Counting.{counts_value, no_counts};
ghost use Rattle.release_filter.specs.LineTexts.{after_mark, end_byte, lines_of, longest_front};
ghost use Rattle.release_filter.specs.Pieces.{Ends, Finishes, Stops, StopsIn, Takes, TakesLines};
ghost use Rattle.release_filter.specs.Pieces.{closes_last, last_lines};
ghost use Rattle.release_filter.specs.Steps.Taking.{EndsLine, fold_value, some_line};

use crate::counts::Counts;
use crate::held::Held;
use crate::judge::Judge;
use crate::line_options::LineOptions;
use crate::line_texts::{after_mark, closing, cut, first_line, hold};
use std::alloc::{AllocError, Global};
use std::marker::Model;
use thiserror::Error;
use tool_ranges::version_range::VersionRange;

/// Why not all lines were taken.
#[derive(Clone, Copy, PartialEq, Eq, Debug, Error)]
pub enum LinesError {
    /// An allocation failed.
    #[error("out of memory")]
    OutOfMemory,
    /// The line with this number is not empty and has no version. The first line is line 1.
    #[error("line {0} has no version")]
    NoVersion(u64),
}

// Determined by: equation.
impl From<AllocError> for LinesError {
    ghost use Rattle.std.specs.Prelude.{◌≡◌};
    ghost use Rattle.release_filter.specs.declared.lines.LinesError.TheVariants.{OutOfMemory};

    ghost from_gives = { λ _ e. e ≡ OutOfMemory };

    fn from(_error: AllocError) -> LinesError {
        LinesError::OutOfMemory
    }
}

/// The lines of a text that comes in pieces of any length, and the filter that keeps some of them.
///
/// A line ends with a line feed, or with a zero byte ([`LineEnd`](crate::line_texts::LineEnd)); the
/// last one may have no end. Its text is the line without its end, and without one carriage return
/// before a line feed. A line is kept if its text is one of the prefixes followed by a version that
/// matches, in the dialect of the filter. The crate's and npm's dialects allow white space around
/// the version. The first prefix after which the text spells a version decides. Without any prefix
/// it is as with the empty one. A text of more than 1,048,576 bytes has no version.
///
/// A byte order mark at the beginning of the text is dropped, even if it is cut between pieces.
///
/// A line that continues in the next piece is held until it ends, but no more of it than shows that
/// its text is too long. So memory is bounded, however long a line is. After an error only the
/// counts can be used.
#[derive(Drop)]
pub struct Lines {
    fold: Fold,
    at_front: bool,
    begun: Vec<u8>,
}

/// The options for lines, and the state after the lines so far.
#[derive(Drop)]
pub(crate) struct Fold {
    pub(crate) judge: Judge,
    pub(crate) is_strict: bool,
    pub(crate) held: Held,
    pub(crate) counts: Counts,
}

impl Model for Lines {
    ghost use Rattle.std.specs.Prelude.{◌≢◌, ◌≤◌, All, length};
    ghost use Rattle.release_filter.specs.LineTexts.{end_byte, longest_front};
    ghost use Rattle.release_filter.specs.Pieces.{LinesValue};
    ghost use Rattle.release_filter.specs.Steps.Taking.{IsBegun, fold_value};

    ghost Value = { LinesValue };

    ghost view = { λ l. record {
      fold = fold_value l.fold;
      at_front = l.at_front;
      begun = l.begun.items;
    } };

    ghost invariant = { λ l. IsBegun (end_byte l.fold.judge.ending) l.begun.items };
}

impl Lines {
    // Determined by: equation.
    /// Returns the lines of a text from which no byte was taken yet.
    #[must_use]
    pub fn new(
        alloc: Global,
        filter: VersionRange,
        prefixes: Vec<String>,
        options: LineOptions,
    ) -> Lines
        ensures { result ≡ record {
          fold = record {
            rule = record {
              filter = filter;
              prefixes = map (λ prefix. string_bytes prefix) prefixes.items;
              ending = options.ending;
              strips_prefix = options.strips_prefix;
            };
            is_strict = options.is_strict;
            held = record { selection = options.selection; lines = [] };
            counts = no_counts;
          };
          at_front = true;
          begun = [];
        } }
    {
        Lines {
            fold: Fold {
                judge: Judge {
                    range: filter,
                    prefixes,
                    ending: options.ending,
                    strips_prefix: options.strips_prefix,
                },
                is_strict: options.is_strict,
                held: Held::new(alloc, options.selection),
                counts: Counts::new(),
            },
            at_front: true,
            begun: Vec::new(alloc),
        }
    }

    // Determined by: law release_filter::laws::one_push.
    /// Takes the next bytes of the text. Of the lines that end in them, it appends the kept ones
    /// that are wanted at once.
    ///
    /// # Errors
    ///
    /// `OutOfMemory` if an allocation fails. `NoVersion`, only if the lines are strict, for the
    /// first line that isn't empty and has no version. Lines before the error were taken: their
    /// output was appended, and they are counted. After an error only the counts can be used.
    ///
    /// # Details
    ///
    /// A kept line is appended as it is, with the byte that ends it. Only a byte order mark at the
    /// beginning of the text is left out, and the prefix if prefixes are stripped. The output for a
    /// text doesn't depend on how it is cut into pieces.
    pub fn push(
        &mut self,
        alloc: Global,
        piece: &[u8],
        kept: &mut Vec<u8>,
    ) -> Result<(), LinesError>
        ensures takes { IfOk result (λ _.
            Takes self.old piece.now self.new kept.old.items kept.new.items) }
        ensures stops { IfErr result (λ error. StopsIn error self.old piece.now
            self.new.fold.counts kept.old.items kept.new.items) }
    {
        semver_texts::laws::precedence_is_total();
        let (first, whole, begun) = cut(piece, self.fold.judge.ending);
        if first.is_empty() {
            return self.begin_line(begun);
        }
        self.end_line(alloc, first, kept)?;
        self.at_front = false;
        self.fold.take_all(alloc, whole, kept)?;
        self.begin_line(begun)
    }

    // Determined by: law release_filter::laws::one_finish.
    /// Takes the end of the text, and the last line if it has no end of its own, and appends the
    /// rest of the output.
    ///
    /// # Errors
    ///
    /// `OutOfMemory` if an allocation fails. `NoVersion`, only if the lines are strict, if the last
    /// line isn't empty and has no version; it is counted. After an error only the counts can be
    /// used.
    ///
    /// # Details
    ///
    /// A last line without an end gets one if the lines are sorted; otherwise it stays as it is.
    /// After that, no byte of a text was taken, as after [`Lines::new`], so another text can be
    /// pushed. The lines of both texts are counted.
    pub fn finish(&mut self, alloc: Global, kept: &mut Vec<u8>) -> Result<(), LinesError>
        ensures finishes { IfOk result (λ _.
            Finishes self.old self.new kept.old.items kept.new.items) }
        ensures stops { IfErr result (λ error. Stops error self.old.fold
            (last_lines (closes_last self.old) self.old) self.new.fold.counts kept.old.items
            kept.new.items) }
    {
        let closes = self.fold.held.selection.closes_lines();
        self.end(alloc, closes, kept)?;
        self.fold.held.finish(alloc, kept)?;
        Ok(())
    }

    // Determined by: law release_filter::laws::one_end_file.
    /// Takes the end of a file that is followed by another one in the same text. Its last line gets
    /// an end if it has none of its own, and a byte order mark at the beginning of the next file is
    /// dropped.
    ///
    /// # Errors
    ///
    /// `OutOfMemory` if an allocation fails. `NoVersion`, only if the lines are strict, if the last
    /// line isn't empty and has no version; it is counted. After an error only the counts can be
    /// used.
    pub fn end_file(&mut self, alloc: Global, kept: &mut Vec<u8>) -> Result<(), LinesError>
        ensures ends { IfOk result (λ _.
            Ends true self.old self.new kept.old.items kept.new.items) }
        ensures stops { IfErr result (λ error. Stops error self.old.fold
            (last_lines true self.old) self.new.fold.counts kept.old.items kept.new.items) }
    {
        self.end(alloc, true, kept)
    }

    // Determined by: equation.
    /// Returns the counts of the lines so far. It does not allocate.
    #[must_use]
    pub fn counts(&self) -> &Counts
        ensures { counts_value result.now ≡ self.now.fold.counts }
    {
        &self.fold.counts
    }

    /// Takes the end of a file. A last line without an end gets one if `closes`.
    fn end(&mut self, alloc: Global, closes: bool, kept: &mut Vec<u8>) -> Result<(), LinesError>
        ensures ends { IfOk result (λ _.
            Ends closes self.old self.new kept.old.items kept.new.items) }
        ensures stops { IfErr result (λ error. Stops error self.old.fold
            (last_lines closes self.old) self.new.fold.counts kept.old.items kept.new.items) }
    {
        let line = after_mark(self.at_front, self.begun.as_slice());
        let end = [self.fold.judge.ending.byte()];
        let end = closing(closes, line, &end);
        self.end_line(alloc, end, kept)?;
        self.at_front = true;
        Ok(())
    }

    /// Holds more bytes of the line that has begun, if they may be needed.
    fn begin_line(&mut self, bytes: &[u8]) -> Result<(), LinesError>
        requires { All (λ byte. byte ≢ end_byte self.old.fold.rule.ending) bytes.now }
        ensures held { IfOk result (λ _. self.new
            ≡ record self.old { begun = take longest_front (self.old.begun ++ bytes.now) }) }
        ensures unchanged { IfErr result (λ _. self.new ≡ self.old) }
        ensures out_of_memory { IfErr result (λ error. error ≡ LinesError.OutOfMemory) }
    {
        hold(&mut self.begun, bytes)?;
        Ok(())
    }

    /// Takes the line that has begun, with these bytes appended, unless it is empty then.
    fn end_line(&mut self, alloc: Global, end: &[u8], kept: &mut Vec<u8>) -> Result<(), LinesError>
        ensures ends { IfOk result (λ _.
            EndsLine self.old end.now self.new kept.old.items kept.new.items) }
        ensures stops { IfErr result (λ error. Stops error self.old.fold
            (some_line (after_mark self.old.at_front (self.old.begun ++ end.now)))
            self.new.fold.counts kept.old.items kept.new.items) }
    {
        hold(&mut self.begun, end)?;
        let line = after_mark(self.at_front, self.begun.as_slice());
        let taken = self.fold.take_some(alloc, line, kept);
        self.begun.clear();
        taken
    }
}

impl Fold {
    /// Takes all lines of some bytes. The last one may have no end.
    fn take_all(
        &mut self,
        alloc: Global,
        bytes: &[u8],
        kept: &mut Vec<u8>,
    ) -> Result<(), LinesError>
        ensures takes { IfOk result (λ _. TakesLines (fold_value self.old)
            (lines_of (end_byte self.old.judge.ending) bytes.now) (fold_value self.new)
            kept.old.items kept.new.items) }
        ensures stops { IfErr result (λ error. Stops error (fold_value self.old)
            (lines_of (end_byte self.old.judge.ending) bytes.now) (counts_value self.new.counts)
            kept.old.items kept.new.items) }
    {
        semver_texts::laws::precedence_is_total();
        let mut rest = bytes;
        while !rest.is_empty() {
            let line = first_line(rest, self.judge.ending);
            self.take(alloc, line, kept)?;
            rest = &rest[line.len()..];
        }
        Ok(())
    }

    /// Takes a line.
    #[inline(always)]
    fn take(&mut self, alloc: Global, line: &[u8], kept: &mut Vec<u8>) -> Result<(), LinesError>
        ensures takes { IfOk result (λ _. TakesLines (fold_value self.old) (line.now ∷ [])
            (fold_value self.new) kept.old.items kept.new.items) }
        ensures stops { IfErr result (λ error. Stops error (fold_value self.old) (line.now ∷ [])
            (counts_value self.new.counts) kept.old.items kept.new.items) }
    {
        let judged = self.judge.judge(line);
        self.held.keep(alloc, &judged, kept)?;
        let is_valid = self.counts.count(alloc, &judged)?;
        if self.is_strict && !is_valid {
            return Err(LinesError::NoVersion(self.counts.lines));
        }
        Ok(())
    }

    /// Takes a line, unless it is empty.
    fn take_some(
        &mut self,
        alloc: Global,
        line: &[u8],
        kept: &mut Vec<u8>,
    ) -> Result<(), LinesError>
        ensures takes { IfOk result (λ _. TakesLines (fold_value self.old) (some_line line.now)
            (fold_value self.new) kept.old.items kept.new.items) }
        ensures stops { IfErr result (λ error. Stops error (fold_value self.old)
            (some_line line.now) (counts_value self.new.counts) kept.old.items kept.new.items) }
    {
        if line.is_empty() {
            return Ok(());
        }
        self.take(alloc, line, kept)
    }
}
