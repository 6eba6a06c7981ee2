//! Laws over the definitions: each is the contract of a function that does nothing.

ghost use Rattle.std.specs.Prelude.{◌≡◌, ◌++◌, ℕ, [], List, Option};
ghost use Rattle.semver_texts.specs.Texts.{Text};
ghost use Rattle.invalid_strings.specs.Prefixes.{IsLongestPrefix};
ghost use Rattle.invalid_strings.specs.declared.reasons.Reason.{Reason as SomeReason};
ghost use Rattle.semver_ranges.specs.declared.dialect.Dialect.{Dialect as SomeDialect};
ghost use Rattle.tool_ranges.specs.Dialects.{IsTextAs};
ghost use Rattle.invalid_ranges.specs.Prefixes.{BeginsAs};
ghost use Rattle.invalid_ranges.specs.RangeReasons.{IsReasonAs};
ghost use Rattle.invalid_ranges.specs.TooLarge.{IsLimitOffset};

/// A prefix of a prefix of a range string is itself such a prefix; so are the empty string and
/// every range string.
pub fn prefixes_begin_prefixes()
    ensures shorter { (dialect : SomeDialect) (t more : Text) → BeginsAs dialect (t ++ more)
        → BeginsAs dialect t }
    ensures empty { (dialect : SomeDialect) → BeginsAs dialect [] }
    ensures whole { (dialect : SomeDialect) (t : Text) → IsTextAs dialect t → BeginsAs dialect t }
{}

/// A string has only one offset at which it stops being the prefix of a range string.
pub fn one_offset()
    ensures same_offset { (dialect : SomeDialect) (t : Text) (m n : ℕ)
        → IsLongestPrefix (BeginsAs dialect) t m → IsLongestPrefix (BeginsAs dialect) t n
        → m ≡ n }
{}

/// A string has only one offset of a number that is too large.
pub fn one_limit_offset()
    ensures same_offset { (dialect : SomeDialect) (t : Text) (m n : ℕ)
        → IsLimitOffset dialect t m → IsLimitOffset dialect t n → m ≡ n }
{}

/// A prefix and the byte after it have only one reason.
pub fn one_reason()
    ensures same_reason { (dialect : SomeDialect) (prefix : Text) (next : Option ℕ)
        (x y : SomeReason) → IsReasonAs dialect prefix next x → IsReasonAs dialect prefix next y
        → x ≡ y }
{}
