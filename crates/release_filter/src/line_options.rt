//! Options for lines.

ghost use Rattle.std.specs.Prelude.{◌≡◌, false};
ghost use Rattle.release_filter.specs.declared.line_texts.LineEnd.TheVariants.{LineFeed};
ghost use Rattle.release_filter.specs.declared.selection.Selection.TheVariants.{Each};

use crate::line_texts::LineEnd;
use crate::selection::Selection;

/// The options of [`Lines`](crate::lines::Lines).
#[derive(Clone, Copy, Debug)]
pub struct LineOptions {
    /// Which of the kept lines are wanted.
    pub selection: Selection,
    /// What ends a line.
    pub ending: LineEnd,
    /// Whether a kept line is written without the prefix before its version.
    pub strips_prefix: bool,
    /// Whether a line that isn't empty and has no version is an error.
    pub is_strict: bool,
}

impl LineOptions {
    // Determined by: equation.
    /// Returns the default options: every kept line is wanted and stays as it is, a line feed ends
    /// a line, and a line without a version is not an error.
    #[must_use]
    pub fn new() -> LineOptions
        ensures { result ≡ record {
          selection = Each;
          ending = LineFeed;
          strips_prefix = false;
          is_strict = false;
        } }
    {
        LineOptions {
            selection: Selection::Each,
            ending: LineEnd::LineFeed,
            strips_prefix: false,
            is_strict: false,
        }
    }
}
