//! Laws over the definitions: each is the contract of a function that does nothing.

ghost use Rattle.std.specs.Prelude.{◌≡◌, ℕ, Option};
ghost use Rattle.semver_texts.specs.Texts.{Text};
ghost use Rattle.invalid_strings.specs.declared.reasons.Reason.{Reason};
ghost use Rattle.range_terms.specs.declared.term.Span.{Span};
ghost use Rattle.semver_ranges.specs.declared.dialect.Dialect.{Dialect};
ghost use Rattle.repaired_strings.specs.Errors.{IsErrorAt, IsValid};
ghost use Rattle.repaired_strings.specs.Repairs.{AreRepairs, IsBeyondRepair};
ghost use Rattle.repaired_strings.specs.Spans.{IsSpanOf};
ghost use Rattle.repaired_strings.specs.declared.errors.Expected.{Expected};

use invalid_ranges::laws as ranges;
use invalid_strings::laws as versions;

/// A string has only one first error, and a valid string has none.
pub fn one_error()
    ensures same_offset { (e : Expected) (d : Dialect) (t : Text) (m n : ℕ) (x y : Reason)
        → IsErrorAt e d t m x → IsErrorAt e d t n y → m ≡ n }
    ensures same_reason { (e : Expected) (d : Dialect) (t : Text) (m n : ℕ) (x y : Reason)
        → IsErrorAt e d t m x → IsErrorAt e d t n y → x ≡ y }
    ensures invalid { (e : Expected) (d : Dialect) (t : Text) (n : ℕ) (x : Reason)
        → IsErrorAt e d t n x → ¬ (IsValid e d t) }
{
    versions::one_longest_prefix();
    versions::one_reason();
    ranges::one_offset();
    ranges::one_limit_offset();
    ranges::one_reason();
}

/// An error has only one span.
pub fn one_span()
    ensures { (t : Text) (offset : ℕ) (kind : Option ℕ) (x y : Span)
        → IsSpanOf t offset kind x → IsSpanOf t offset kind y → x ≡ y }
{}

/// Repairs lead to only one valid string, or to none.
pub fn one_repaired()
    ensures same { (e : Expected) (d : Dialect) (t x y : Text) → AreRepairs e d t x
        → IsValid e d x → AreRepairs e d t y → IsValid e d y → x ≡ y }
    ensures none { (e : Expected) (d : Dialect) (t x : Text) → AreRepairs e d t x
        → IsValid e d x → ¬ (IsBeyondRepair e d t) }
{
    one_error();
    one_span();
}
