//! Laws over the definitions: each is the contract of a function that does nothing.
ghost use Rattle.std.specs.Prelude.{◌≡◌, ◌↔◌, ◌<◌, ◌^◌};
ghost use Rattle.std.specs.Cmp.{IsTotalOrder};
ghost use Rattle.std.specs.declared.cmp.Ordering.TheVariants.{Equal};
ghost use Rattle.semver_texts.specs.Texts.{Text};
ghost use Rattle.semver_texts.specs.Versions.{VersionValue};
ghost use Rattle.semver_texts.specs.ToolVersions.{SpellsIn};
ghost use Rattle.semver_texts.specs.VersionGrammar.{SpellsVersion};
ghost use Rattle.semver_texts.specs.declared.grammar.Grammar.{Grammar};
ghost use Rattle.semver_texts.specs.declared.grammar.Grammar.TheVariants.{Crate};
ghost use Rattle.semver_versions.specs.VersionOrder.{HaveSameParts, order};
ghost use Rattle.semver_versions.specs.VersionRefs.{IsVersionRefIn, IsVersionRefOf};
ghost use Rattle.semver_versions.specs.VersionRefs.{VersionRefValue, version_of};

use crate::version_ref::VersionRef;

/// A string spells at most one version in the crate's grammar.
pub fn one_version()
    ensures same_version { (v w : VersionValue) (text : Text) → SpellsVersion v text
        → SpellsVersion w text → v ≡ w }
{}

/// A string spells at most one version in a dialect.
pub fn one_version_in()
    ensures same_version { (grammar : Grammar) (v w : VersionValue) (text : Text)
        → SpellsIn grammar v text → SpellsIn grammar w text → v ≡ w }
{}

/// The borrowed version of a string is that of the version that the string spells.
pub fn one_borrowed_version()
    ensures same_version { (grammar : Grammar) (o : VersionRefValue) (v : VersionValue)
        (text : Text) → IsVersionRefIn grammar text o → SpellsIn grammar v text → v ≡ version_of o }
    // In the crate's dialect, a borrowed version is that of the crate's grammar.
    ensures same_version_ref { (o : VersionRefValue) (text : Text)
        → IsVersionRefIn Crate text o ↔ IsVersionRefOf text o }
{}

/// The numbers of a borrowed version fit 64 bits. It does nothing.
pub fn numbers_of_refs_fit(version: &VersionRef<'_>)
    ensures major { version.now.major < 2 ^ 64 }
    ensures minor { version.now.minor < 2 ^ 64 }
    ensures patch { version.now.patch < 2 ^ 64 }
{
    let _ = (version.major, version.minor, version.patch);
}

/// The order of borrowed versions is total, and two of them are equal in it if and only if they
/// have the same numbers, pre-release and build metadata.
pub fn order_is_total()
    ensures total { IsTotalOrder order }
    ensures same { (a b : VersionRefValue) → (order a b ≡ Equal) ↔ HaveSameParts a b }
{}
