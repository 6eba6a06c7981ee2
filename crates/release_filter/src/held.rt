//! The lines that are held until the end of the text.

ghost use Rattle.std.specs.Prelude.{length};
ghost use Rattle.release_filter.specs.Selections.{IsFew};

use crate::selection::Selection;
use semver_versions::read_version::ReadVersion;

/// A kept line, and its version without the build metadata.
#[derive(Drop)]
pub(crate) struct SelectedLine {
    pub(crate) version: ReadVersion,
    pub(crate) bytes: Vec<u8>,
}

/// Which lines are wanted, and the lines that are held for this: the best one so far, or all.
#[derive(Drop)]
pub(crate) struct Held {
    pub(crate) selection: Selection,
    pub(crate) lines: Vec<SelectedLine>,
    ghost few: { IsFew selection (length lines.items) },
}
