//! The versions that are in each interval of a range, and in some of the ranges.

ghost use Rattle.std.specs.Prelude.{◌≡◌, false, map};
ghost use Rattle.semver_texts.specs.Precedence.{precedence};
ghost use Rattle.version_sets.specs.Releases.{release_value};
ghost use Rattle.version_sets.specs.Steps.EndPlaces.{end_place};
ghost use Rattle.version_sets.specs.Steps.Spans.{some_empty};
ghost use Rattle.version_sets.specs.Steps.SpanViews.{span_value};

use crate::pre_release_end::PreReleaseEnd;
use crate::release::Release;
use crate::spans::{Bounds, Span};

/// The versions that are in each of several intervals.
#[derive(Clone, Copy)]
pub struct Conjunction<'text> {
    pub(crate) releases: Bounds<Release>,
    pub(crate) pre_releases: Bounds<PreReleaseEnd<'text>>,
}

/// The versions that are in at least one range.
#[derive(Drop)]
pub struct Ranges<'text> {
    pub(crate) releases: Vec<Span<Release>>,
    pub(crate) pre_releases: Vec<Span<PreReleaseEnd<'text>>>,
    ghost releases_last: { some_empty precedence (map (span_value release_value) releases.items)
        ≡ false },
    ghost pre_releases_last: { some_empty precedence (map (span_value end_place)
        pre_releases.items) ≡ false },
}
