//! Identifiers followed by the number 0: the pre-release right above theirs.

ghost use Rattle.version_sets.specs.Steps.SpanViews.{successor};

use semver_texts::precedence::{IdentifierRef, Identifiers};

/// Identifiers, and whether the number 0 follows them.
#[derive(Clone, Copy)]
pub(crate) struct Successor<A> {
    pub(crate) identifiers: A,
    pub(crate) zero: bool,
}

impl<'a, A: Identifiers<'a>> Identifiers<'a> for Successor<A> {
    ghost left = { λ w. successor (A.left w.identifiers) w.zero };

    fn is_empty(&self) -> bool {
        self.identifiers.is_empty() && !self.zero
    }

    fn next(&mut self) -> Option<IdentifierRef<'a>> {
        if let Some(first) = self.identifiers.next() {
            return Some(first);
        }
        if !self.zero {
            return None;
        }
        self.zero = false;
        Some(IdentifierRef::Numeric(0))
    }
}
