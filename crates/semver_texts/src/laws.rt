//! Laws over the definitions: each is the contract of a function that does nothing.
ghost use Rattle.std.specs.Prelude.{◌≡◌, ◌↔◌, ◌^◌, ◌<◌, ◌≤◌, IsTrue};
ghost use Rattle.std.specs.Cmp.{IsTotalOrder};
ghost use Rattle.std.specs.List.{list_all};
ghost use Rattle.std.specs.declared.cmp.Ordering.TheVariants.{Equal};
ghost use Rattle.semver_texts.specs.Digits.{version_by};
ghost use Rattle.semver_texts.specs.NpmLimits.{max_length};
ghost use Rattle.semver_texts.specs.Precedence.{precedence};
ghost use Rattle.semver_texts.specs.PrintedText.{identifier_text, version_text};
ghost use Rattle.semver_texts.specs.Texts.{Text, has_no_leading_zero};
ghost use Rattle.semver_texts.specs.ToolVersions.{SpellsNpm, SpellsSemver, characters};
ghost use Rattle.semver_texts.specs.VersionGrammar.{SpellsCore};
ghost use Rattle.semver_texts.specs.Versions.{PlainVersion, VersionValue};
ghost use Rattle.semver_texts.specs.declared.grammar.Digits.TheVariants.{AnySize};

/// Precedence is a total order, and two versions are equal in it if and only if they are the same,
/// apart from build metadata.
pub fn precedence_is_total()
    ensures total { IsTotalOrder precedence }
    ensures same { (v w : PlainVersion) → (precedence v w ≡ Equal) ↔ (v ≡ w) }
{}

/// A version of SemVer 2.0.0 is one of npm's if its numbers are below 2^53 and it has at most as
/// many characters as npm allows.
pub fn semver_texts_are_npms()
    ensures { (v : VersionValue) (text : Text) → SpellsSemver v text → v.plain.major < 2 ^ 53
        → v.plain.minor < 2 ^ 53 → v.plain.patch < 2 ^ 53 → characters text ≤ max_length
        → SpellsNpm v text }
{}

/// A version of SemVer 2.0.0 is printed as its string, and a version of npm's is printed as one of
/// SemVer 2.0.0.
pub fn semver_texts_are_printed()
    ensures semver { (v : VersionValue) (text : Text) → SpellsSemver v text
        → text ≡ version_text v }
    ensures npm { (v : VersionValue) (text : Text) → SpellsNpm v text
        → SpellsSemver v (version_text v) }
{}

/// A version in the crate's grammar without white space is one of SemVer 2.0.0, if none of its
/// numeric pre-release identifiers has a leading zero. Those above 2^64 - 1, which the crate keeps
/// as strings, are numbers in SemVer 2.0.0.
pub fn crate_versions_are_semver()
    ensures { (v : VersionValue) (text : Text) → SpellsCore v text
        → IsTrue (list_all (λ id. has_no_leading_zero (identifier_text id)) v.plain.pre)
        → SpellsSemver (version_by AnySize v) text }
{}
