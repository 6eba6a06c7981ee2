//! Decides whether a line is kept. This depends only on its bytes.

ghost use Rattle.std.specs.Prelude.{◌≡◌};
ghost use Rattle.tool_ranges.specs.VersionRanges.{versions_grammar};
ghost use Rattle.release_filter.specs.Steps.Taking.{Judges, rule_of, texts, verdict_of};
ghost use Rattle.release_filter.specs.Verdicts.{HasVersion, IsVerdictOn, given_after};
ghost use Rattle.release_filter.specs.Steps.Taking.{HasOne};

use crate::line_texts::{LONGEST, LineEnd, text_after, text_of};
use semver_versions::laws;
use semver_versions::version::{VersionRef, read_ref_in};
use tool_ranges::version_range::VersionRange;

/// The range, and how the lines are read and written.
#[derive(Drop)]
pub(crate) struct Judge {
    pub(crate) range: VersionRange,
    pub(crate) prefixes: Vec<String>,
    pub(crate) ending: LineEnd,
    pub(crate) strips_prefix: bool,
}

/// What was decided about a line.
#[derive(Drop)]
pub(crate) enum Judged<'l> {
    /// Its text has no version. This is the text.
    NotAVersion(&'l [u8]),
    /// It has a version that the range doesn't contain.
    Outside,
    /// It has this version, which the range contains, and these are the bytes to write.
    Kept(VersionRef<'l>, &'l [u8]),
}

impl Judge {
    /// Decides about a line. The first prefix after which its text has a version decides. Without
    /// any prefix it is as with the empty one.
    #[inline(always)]
    pub(crate) fn judge<'l>(&self, line: &'l [u8]) -> Judged<'l>
        ensures { IsVerdictOn (rule_of self.now) line.now (verdict_of result) }
    {
        let text = text_of(line, self.ending);
        if text.len() > LONGEST {
            return Judged::NotAVersion(text);
        }
        match self.prefixes.as_slice() {
            [] => self.judge_after("", text, line),
            prefixes => self.judge_after_each(prefixes, text, line),
        }
    }

    /// Decides about a line with this text, after the first of the prefixes after which it spells a
    /// version.
    fn judge_after_each<'l>(
        &self,
        prefixes: &[String],
        text: &'l [u8],
        line: &'l [u8],
    ) -> Judged<'l>
        ensures { Judges (rule_of self.now)
            (HasVersion (versions_grammar self.now.range) (texts prefixes.now) text.now)
            text.now line.now result }
    {
        match prefixes {
            [] => Judged::NotAVersion(text),
            [prefix, prefixes @ ..] => match self.judge_after(prefix.as_str(), text, line) {
                Judged::NotAVersion(_) => self.judge_after_each(prefixes, text, line),
                judged => judged,
            },
        }
    }

    /// Decides about a line with this text, after this prefix.
    #[inline(always)]
    fn judge_after<'l>(&self, prefix: &str, text: &'l [u8], line: &'l [u8]) -> Judged<'l>
        ensures { Judges (rule_of self.now)
            (HasOne (versions_grammar self.now.range) prefix.now text.now) text.now line.now
            result }
    {
        laws::one_borrowed_version();
        let Some(rest) = text_after(prefix, text) else {
            return Judged::NotAVersion(text);
        };
        let Some(version) = read_ref_in(rest, self.range.rules().dialect.grammar()) else {
            return Judged::NotAVersion(text);
        };
        if self.range.contains_ref(&version) {
            Judged::Kept(version, self.given(line, prefix.len()))
        } else {
            Judged::Outside
        }
    }

    /// Returns the bytes to write for a line that has a version after `count` bytes.
    #[inline(always)]
    fn given<'l>(&self, line: &'l [u8], count: usize) -> &'l [u8]
        ensures { result.now ≡ given_after (rule_of self.now) count line.now }
    {
        if self.strips_prefix {
            &line[count.min(line.len())..]
        } else {
            line
        }
    }
}
