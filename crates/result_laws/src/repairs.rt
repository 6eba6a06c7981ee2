//! Functions that say what an error of a string is about, and what was meant.

ghost use Rattle.std.specs.Prelude.{◌≡◌, ◌≤◌, alloc_error, length, option_map, string_bytes};
ghost use Rattle.result_laws.specs.OneResult.{AreOne, itself};

use invalid_strings::reasons::Reason;
use range_terms::term::Span;
use repaired_strings::errors::{Expected, StringError, first_error};
use repaired_strings::laws;
use repaired_strings::repairs::repaired;
use repaired_strings::spans::span_at;
use semver_ranges::dialect::Dialect;
use std::alloc::{AllocError, Global};

/// A result of `first_error`.
type Found = Result<Option<StringError>, AllocError>;

/// A result of `repaired`.
type Repaired = Result<Option<String>, AllocError>;

/// A string has only one first error, or none, unless memory ran out.
pub fn one_error(alloc: Global, expected: Expected, dialect: Dialect, text: &str) -> (Found, Found)
    ensures one { AreOne alloc_error itself result.0 result.1 }
{
    laws::one_error();
    (
        first_error(alloc, expected, dialect, text),
        first_error(alloc, expected, dialect, text),
    )
}

/// An error has only one span.
pub fn one_span(text: &str, offset: usize, reason: Reason) -> (Span, Span)
    requires { offset ≤ length text.now }
    ensures one { result.0 ≡ result.1 }
{
    laws::one_span();
    (span_at(text, offset, reason), span_at(text, offset, reason))
}

/// Repairs lead to only one string, or to none, unless memory ran out.
pub fn one_repaired(
    alloc: Global,
    expected: Expected,
    dialect: Dialect,
    text: &str,
) -> (Repaired, Repaired)
    ensures one { AreOne alloc_error (option_map string_bytes) result.0 result.1 }
{
    laws::one_repaired();
    (
        repaired(alloc, expected, dialect, text),
        repaired(alloc, expected, dialect, text),
    )
}
