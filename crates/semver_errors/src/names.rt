//! Dialects and rules for pre-releases by their names.

ghost use Rattle.std.specs.Prelude.{◌≡◌, IfErr, IfOk, None, Some};
ghost use Rattle.semver_errors.specs.ErrorValues.{IsOrOutOfMemory, UnknownName};
ghost use Rattle.semver_errors.specs.Names.{dialect_named, dialect_names, rule_named, rule_names};

use crate::error::Error;
use semver_ranges::dialect::Dialect;
use std::alloc::Global;
use version_sets::PreReleases;

// Determined by: equation.
/// Returns the dialect with a name, or an error if there is none.
pub fn dialect_named(alloc: Global, name: &str) -> Result<Dialect, Error>
    ensures known { IfOk result (λ dialect. dialect_named name.now ≡ Some dialect) }
    ensures unknown { IfErr result (λ _. dialect_named name.now ≡ None) }
    ensures error { IfErr result (λ error.
        IsOrOutOfMemory error (UnknownName name.now dialect_names)) }
{
    match name {
        "cargo" => Ok(Dialect::Cargo),
        "npm" => Ok(Dialect::Npm),
        "crate-cargo" => Ok(Dialect::CrateCargo),
        "crate-npm" => Ok(Dialect::CrateNpm),
        _ => Err(Error::unknown_name(alloc, name, "cargo, npm, crate-cargo or crate-npm")),
    }
}

// Determined by: equation.
/// Returns the rule for pre-releases with a name, or an error if there is none.
pub fn rule_named(alloc: Global, name: &str) -> Result<PreReleases, Error>
    ensures known { IfOk result (λ rule. rule_named name.now ≡ Some rule) }
    ensures unknown { IfErr result (λ _. rule_named name.now ≡ None) }
    ensures error { IfErr result (λ error.
        IsOrOutOfMemory error (UnknownName name.now rule_names)) }
{
    match name {
        "by-dialect" => Ok(PreReleases::ByDialect),
        "included" => Ok(PreReleases::Included),
        "excluded" => Ok(PreReleases::Excluded),
        _ => Err(Error::unknown_name(alloc, name, "by-dialect, included or excluded")),
    }
}
