//! Filters the versions that are in a set from a list.

ghost use Rattle.std.specs.Prelude.{◌≡◌, ◌≤◌, ◌++◌, length, map, filter, IfOk};
ghost use Rattle.semver_texts.specs.VersionViews.{version_value};
ghost use Rattle.release_filter.specs.Steps.Members.{is_member};

use semver_versions::version::Version;
use std::alloc::{AllocError, Global};
use version_sets::VersionSet;

/// The number of versions that are checked together, before the ones in the set are kept.
const AT_ONCE: usize = 64;

/// Returns the versions that are in a set, in their order and with repeats.
///
/// Each version is checked once. The result is allocated as it grows, and not at all if no version
/// is in the set. `Err` means out of memory.
pub(crate) fn contained<'v>(
    alloc: Global,
    set: &VersionSet,
    versions: &'v [Version],
) -> Result<Vec<&'v Version>, AllocError>
    ensures { IfOk result (λ kept. map (λ v. v.now) kept.items
        ≡ filter (is_member set.now) versions.now) }
{
    let mut kept = Vec::new(alloc);
    let mut rest = versions;
    while !rest.is_empty() {
        let (first, others) = rest.split_at(rest.len().min(AT_ONCE));
        keep(set, first, &mut kept)?;
        rest = others;
    }
    Ok(kept)
}

/// Adds the versions that are in a set, of at most 64. First all are checked, and the indices of
/// those in the set are moved to the front; then they are added. So only the end of a loop depends
/// on the checks.
fn keep<'v>(
    set: &VersionSet,
    versions: &'v [Version],
    kept: &mut Vec<&'v Version>,
) -> Result<(), AllocError>
    requires { length versions.now ≤ 64 }
    ensures { IfOk result (λ _. map (λ v. v.now) kept.new.items
        ≡ map (λ v. v.now) kept.old.items ++ filter (is_member set.now) versions.now) }
{
    let mut are_in = [false; AT_ONCE];
    let are_in = &mut are_in[..versions.len()];
    set.contains_each(versions, are_in);
    let mut places = [0u8; AT_ONCE];
    let mut count = 0;
    for at in 0..versions.len() {
        places[count] = at as u8;
        count += usize::from(are_in[at]);
    }
    for place in &places[..count] {
        kept.push(&versions[usize::from(*place)])?;
    }
    Ok(())
}
