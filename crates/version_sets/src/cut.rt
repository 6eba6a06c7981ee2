//! Cuts, which are positions in the order of versions, and intervals between two cuts.

ghost use Rattle.std.specs.Prelude.{◌≡◌, true};
ghost use Rattle.std.specs.List.{list_all};
ghost use Rattle.semver_texts.specs.Texts.{cut_at_dots, is_part};

use crate::release::Release;
use semver_ranges::table::Side;

/// A position in the order of versions: one side of a version. The pre-release of that version is
/// borrowed from the range string.
#[derive(Clone, Copy)]
pub struct Cut<'text> {
    /// The three numbers of the version.
    pub(crate) numbers: Release,
    /// The identifiers of its pre-release, separated by dots.
    pub(crate) pre: &'text [u8],
    /// The side of the version on which the cut is.
    pub(crate) side: Side,
    ghost parts: { list_all is_part (cut_at_dots pre.now) ≡ true },
}

impl<'text> Cut<'text> {
    // Determined by: equation.
    /// Returns the cut at a side of a version, which has these numbers and this pre-release.
    #[inline(always)]
    pub fn new(numbers: Release, pre: &'text [u8], side: Side) -> Cut<'text>
        requires { list_all is_part (cut_at_dots pre.now) ≡ true }
        ensures numbers { result.numbers ≡ numbers }
        ensures pre { result.pre.now ≡ pre.now }
        ensures side { result.side ≡ side }
    {
        Cut { numbers, pre, side }
    }
}

/// The versions above one cut and below another. If a cut is missing, there is no bound on that
/// side.
#[derive(Clone, Copy)]
pub struct Interval<'text> {
    /// The cut below all of them.
    pub lower: Option<Cut<'text>>,
    /// The cut above all of them.
    pub upper: Option<Cut<'text>>,
}
