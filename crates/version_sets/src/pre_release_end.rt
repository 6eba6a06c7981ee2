//! Ends of spans of pre-releases.

ghost use Rattle.std.specs.Prelude.{◌≡◌, true};
ghost use Rattle.std.specs.List.{list_all};
ghost use Rattle.semver_texts.specs.Texts.{cut_at_dots, is_part};

use crate::release::Release;
use semver_texts::grammar::Digits;

/// The beginning or the end of a span of pre-releases: the version with these numbers and
/// identifiers. If `successor`, the number 0 follows the identifiers. Without identifiers it is the
/// lowest pre-release of the numbers, whose only identifier is 0.
#[derive(Clone, Copy)]
pub(crate) struct PreReleaseEnd<'text> {
    pub(crate) numbers: Release,
    pub(crate) pre: &'text [u8],
    pub(crate) successor: bool,
    pub(crate) digits: Digits,
    ghost parts: { list_all is_part (cut_at_dots pre.now) ≡ true },
}
