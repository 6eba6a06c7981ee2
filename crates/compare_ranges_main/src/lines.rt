//! Prints sets of versions: as lines, or as a JSON object.

use crate::arguments::{Extent, Options};
use semver_parser::version::Version;
use std::alloc::{AllocError, Global};
use version_sets::{Combination, OperationError, SetRanges, VersionSet};

/// The output so far.
#[derive(Drop)]
pub struct Output {
    /// The lines, or the members of the object.
    text: String,
    /// How versions are printed.
    extent: Extent,
    /// Whether the output is JSON.
    is_json: bool,
}

impl Output {
    /// Returns an empty output.
    pub fn new(alloc: Global, options: &Options) -> Output {
        Output {
            text: String::new(alloc),
            extent: options.extent,
            is_json: options.is_json,
        }
    }

    /// Returns the whole output.
    pub fn finish(self, alloc: Global) -> Result<String, AllocError> {
        if !self.is_json {
            return Ok(self.text);
        }
        let mut object = String::new(alloc);
        write!(object, "{{{}}}\n", self.text)?;
        Ok(object)
    }

    /// Appends the versions that two ranges lose, gain and share.
    pub fn push_two(
        &mut self,
        alloc: Global,
        old: &VersionSet,
        new: &VersionSet,
    ) -> Result<(), OperationError> {
        match self.extent {
            Extent::Whole => {
                let (alone, both) = (Combination::Difference, Combination::Intersection);
                self.push_whole(alloc, "lost", &old.combined(alloc, alone, new)?)?;
                self.push_whole(alloc, "gained", &new.combined(alloc, alone, old)?)?;
                self.push_whole(alloc, "shared", &old.combined(alloc, both, new)?)?;
            }
            Extent::Lowest => {
                let comparison = old.compare(alloc, new)?;
                self.push_lowest("lost", &comparison.lost)?;
                self.push_lowest("gained", &comparison.gained)?;
                self.push_lowest("shared", &comparison.shared)?;
            }
        }
        if self.is_json {
            self.begin_member("equal")?;
            self.text
                .push_str(if old == new { "true" } else { "false" })?;
        }
        Ok(())
    }

    /// Appends the versions in one range, labelled with a word, or that there are none.
    pub fn push_range(
        &mut self,
        alloc: Global,
        word: &str,
        range: &VersionSet,
    ) -> Result<(), AllocError> {
        if range.is_empty() && !self.is_json {
            return self.push_text(word, "no version");
        }
        match self.extent {
            Extent::Whole => self.push_whole(alloc, word, range),
            Extent::Lowest => self.push_lowest(word, &range.lowest(alloc)?),
        }
    }

    /// Appends a string, labelled with a word.
    fn push_text(&mut self, word: &str, text: &str) -> Result<(), AllocError> {
        write!(self.text, "{word}: {text}\n")
    }

    /// Appends why there is no range, labelled with a word. In JSON, the label has null, and
    /// another member has the reason.
    pub fn push_error(&mut self, word: &str, why: &str) -> Result<(), AllocError> {
        if !self.is_json {
            return self.push_text(word, why);
        }
        self.begin_members()?;
        write!(self.text, "\"{word}\": null, \"{word}_error\": ")?;
        write_string(&mut self.text, why)
    }

    /// Appends the releases and the pre-releases in a set.
    fn push_whole(
        &mut self,
        alloc: Global,
        word: &str,
        set: &VersionSet,
    ) -> Result<(), AllocError> {
        self.push_ranges(word, "", &set.release_ranges(alloc)?)?;
        let suffix = if self.is_json {
            "_pre_releases"
        } else {
            " pre-releases"
        };
        self.push_ranges(word, suffix, &set.pre_release_ranges(alloc)?)
    }

    /// Appends ranges, if there are any. If there are none, nothing is added to the lines, and JSON
    /// has null.
    fn push_ranges(
        &mut self,
        word: &str,
        suffix: &str,
        ranges: &SetRanges,
    ) -> Result<(), AllocError> {
        let is_empty = ranges.range_set.ranges.is_empty();
        if !self.is_json {
            return if is_empty {
                Ok(())
            } else {
                write!(self.text, "{word}{suffix}: {ranges}\n")
            };
        }
        self.begin_members()?;
        if is_empty {
            write!(self.text, "\"{word}{suffix}\": null")
        } else {
            write!(self.text, "\"{word}{suffix}\": \"{ranges}\"")
        }
    }

    /// Appends a version, if there is one.
    fn push_lowest(&mut self, word: &str, version: &Option<Version>) -> Result<(), AllocError> {
        if !self.is_json {
            return match version {
                Some(version) => write!(self.text, "{word}: {version}\n"),
                None => Ok(()),
            };
        }
        self.begin_member(word)?;
        match version {
            Some(version) => write!(self.text, "\"{version}\""),
            None => self.text.push_str("null"),
        }
    }

    /// Begins a member of the object with its name.
    fn begin_member(&mut self, name: &str) -> Result<(), AllocError> {
        self.begin_members()?;
        write!(self.text, "\"{name}\": ")
    }

    /// Ends the previous members, if there are any.
    fn begin_members(&mut self) -> Result<(), AllocError> {
        if self.text.is_empty() {
            return Ok(());
        }
        self.text.push_str(", ")
    }
}

/// Writes a JSON string.
fn write_string(out: &mut String, text: &str) -> Result<(), AllocError> {
    out.push('"')?;
    for character in text.chars() {
        match character {
            '"' => out.push_str("\\\"")?,
            '\\' => out.push_str("\\\\")?,
            _ => out.push(character)?,
        }
    }
    out.push('"')
}
