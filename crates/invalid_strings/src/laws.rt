//! Laws over the definitions: each is the contract of a function that does nothing, or that makes a
//! call twice.
ghost use Rattle.std.specs.Prelude.{◌≡◌, ◌++◌, ℕ, [], IfOk, Option};
ghost use Rattle.semver_texts.specs.Texts.{Text};
ghost use Rattle.semver_texts.specs.ToolVersions.{IsVersionTextIn};
ghost use Rattle.semver_texts.specs.declared.grammar.Grammar.{Grammar};
ghost use Rattle.invalid_strings.specs.Prefixes.{AreCompletions};
ghost use Rattle.invalid_strings.specs.VersionPrefixes.{IsLongestVersionPrefix, IsPrefixIn};
ghost use Rattle.invalid_strings.specs.VersionPrefixes.{IsWholePrefixIn};
ghost use Rattle.invalid_strings.specs.Reasons.{IsReason};
ghost use Rattle.invalid_strings.specs.declared.reasons.Reason.{Reason as SomeReason};

use crate::longest::{Language, longest_prefix};
use crate::reasons::Reason;
use std::alloc::{AllocError, Global};

/// A prefix of a prefix of a version is itself such a prefix; so are the empty string and every
/// version.
pub fn prefixes_begin_prefixes()
    ensures shorter { (grammar : Grammar) (text more : Text) → IsPrefixIn grammar (text ++ more)
        → IsPrefixIn grammar text }
    ensures empty { (grammar : Grammar) → IsWholePrefixIn grammar [] }
    ensures whole { (grammar : Grammar) (text : Text) → IsVersionTextIn grammar text
        → IsWholePrefixIn grammar text }
{}

/// A string has only one longest prefix.
pub fn one_longest_prefix()
    ensures same_offset { (grammar : Grammar) (text : Text) (m n : ℕ)
        → IsLongestVersionPrefix grammar text m → IsLongestVersionPrefix grammar text n → m ≡ n }
{}

/// Unless memory runs out, `longest_prefix` has only one permitted result.
pub fn one_offset<L: Language>(
    alloc: Global,
    language: &L,
    text: &str,
) -> (Result<usize, AllocError>, Result<usize, AllocError>)
    requires completions { AreCompletions (L.is_text language.now) (L.completions language.now) }
    ensures one { IfOk result.0 (λ first. IfOk result.1 (λ second. first ≡ second)) }
{
    (
        longest_prefix(alloc, language, text),
        longest_prefix(alloc, language, text),
    )
}

/// A prefix and the byte after it have only one reason.
pub fn one_reason()
    ensures same_reason { (grammar : Grammar) (prefix : Text) (next : Option ℕ) (x y : SomeReason)
        → IsReason grammar prefix next x → IsReason grammar prefix next y → x ≡ y }
{}

/// A number is that of one reason, or of none.
pub fn one_reason_of_number(number: i32) -> (Option<Reason>, Option<Reason>)
    ensures one { result.0 ≡ result.1 }
{
    (Reason::from_number(number), Reason::from_number(number))
}
