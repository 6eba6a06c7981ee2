//! The trait of both kinds of ends of spans.

ghost use Rattle.std.specs.Prelude.{◌≡◌, IfOk};
ghost use Rattle.semver_texts.specs.Precedence.{precedence};
ghost use Rattle.semver_texts.specs.Versions.{PlainVersion};
ghost use Rattle.version_sets.specs.Steps.Places.{IsOfKind};
ghost use Rattle.version_sets.specs.Releases.{release_value};

use crate::boundary::Boundary;
use crate::release::Release;
use std::alloc::{AllocError, Global};
use std::cmp::Ordering;

/// The beginning or the end of a span of one kind of versions. It owns no memory.
pub(crate) trait SpanEnd: Copy {
    /// The boundary as a set keeps it.
    type Boundary: Boundary;

    ghost place: { Self → PlainVersion };

    /// Compares two ends by precedence.
    fn compare(&self, other: &Self) -> Ordering
        ensures { result ≡ precedence (place self.now) (place other.now) };

    /// Returns the boundary at the same position. `Err` means out of memory.
    fn boundary(&self, alloc: Global) -> Result<Self::Boundary, AllocError>
        ensures same { IfOk result (λ boundary. Self.Boundary.place boundary ≡ place self.now) }
        ensures kind { IfOk result (λ _. IsOfKind Self.Boundary.are_releases (place self.now)) };
}

impl SpanEnd for Release {
    type Boundary = Release;

    ghost place = { release_value };

    fn compare(&self, other: &Release) -> Ordering {
        self.cmp(other)
    }

    /// Copies the numbers. It does not allocate.
    fn boundary(&self, _alloc: Global) -> Result<Release, AllocError> {
        let (major, minor, patch) = (self.major, self.minor, self.patch);
        Ok(Release {
            major,
            minor,
            patch,
        })
    }
}
