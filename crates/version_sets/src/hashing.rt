//! The hash of a set.

use crate::boundary::Boundary;
use crate::version_set::VersionSet;
use std::hash::{Hash, Hasher};

impl Hash for VersionSet {
    ghost use Rattle.version_sets.specs.HashedSets.{hashed_set};
    ghost use Rattle.version_sets.specs.Steps.HashedSets.{same_sets_hash_alike};

    ghost hash_input = { hashed_set };

    ghost respects_eq = { same_sets_hash_alike };

    /// Hashes the boundaries of the releases, and the three numbers of each boundary of the
    /// pre-releases.
    fn hash<H: Hasher>(&self, state: &mut H) {
        self.releases.as_slice().hash(state);
        for boundary in self.pre_releases.as_slice() {
            boundary.numbers().hash(state);
        }
    }
}
