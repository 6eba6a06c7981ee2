//! Functions that read a range into comparators, and that find the offset of its error.

ghost use Rattle.std.specs.Prelude.{◌≡◌, alloc_error};
ghost use Rattle.semver_parser.specs.RangeViews.{set_of};
ghost use Rattle.result_laws.specs.OneResult.{AreOne, itself};

use invalid_ranges::laws::{one_limit_offset, one_offset, one_reason};
use invalid_ranges::refusals::{Refusal, refused};
use range_terms::terms::Terms;
use semver_parser::{Compat, RangeError, RangeSet};
use semver_ranges::dialect::Dialect;
use std::alloc::{AllocError, Global};
use tool_ranges::{cargo, npm, rewriting};

/// Two results of `RangeSet::parse`, or of a function below, for the same inputs.
type Answers = (Result<RangeSet, RangeError>, Result<RangeSet, RangeError>);

/// `RangeSet::parse` has only one permitted result.
pub fn one_parse(alloc: Global, input: &str, compat: Compat) -> Answers
    ensures one { AreOne RangeError.OutOfMemory set_of result.0 result.1 }
{
    (
        RangeSet::parse(alloc, input, compat),
        RangeSet::parse(alloc, input, compat),
    )
}

/// `RangeSet::parse_exact` has only one permitted result.
pub fn one_parse_exact(alloc: Global, input: &str, compat: Compat) -> Answers
    ensures one { AreOne RangeError.OutOfMemory set_of result.0 result.1 }
{
    (
        RangeSet::parse_exact(alloc, input, compat),
        RangeSet::parse_exact(alloc, input, compat),
    )
}

/// `RangeSet::from_str` has only one permitted result.
pub fn one_from_str(alloc: Global, input: &str) -> Answers
    ensures one { AreOne RangeError.OutOfMemory set_of result.0 result.1 }
{
    (
        RangeSet::from_str(alloc, input),
        RangeSet::from_str(alloc, input),
    )
}

/// `cargo::rewrite` has only one permitted result.
pub fn one_cargo_rewrite(alloc: Global, requirement: &str) -> Answers
    ensures one { AreOne RangeError.OutOfMemory set_of result.0 result.1 }
{
    (
        cargo::rewrite(alloc, requirement),
        cargo::rewrite(alloc, requirement),
    )
}

/// `npm::rewrite` has only one permitted result.
pub fn one_npm_rewrite(alloc: Global, range: &str) -> Answers
    ensures one { AreOne RangeError.OutOfMemory set_of result.0 result.1 }
{
    (npm::rewrite(alloc, range), npm::rewrite(alloc, range))
}

/// `npm::rewrite_included` has only one permitted result.
pub fn one_npm_rewrite_included(alloc: Global, range: &str) -> Answers
    ensures one { AreOne RangeError.OutOfMemory set_of result.0 result.1 }
{
    (
        npm::rewrite_included(alloc, range),
        npm::rewrite_included(alloc, range),
    )
}

/// `rewriting::rewrite` has only one permitted result.
pub fn one_rewrite(alloc: Global, dialect: Dialect, range: &str) -> Answers
    ensures one { AreOne RangeError.OutOfMemory set_of result.0 result.1 }
{
    (
        rewriting::rewrite(alloc, dialect, range),
        rewriting::rewrite(alloc, dialect, range),
    )
}

/// `refusals::refused` has only one permitted result.
pub fn one_refusal(
    alloc: Global,
    dialect: Dialect,
    text: &str,
) -> (
    Result<Option<Refusal>, AllocError>,
    Result<Option<Refusal>, AllocError>,
)
    ensures one { AreOne alloc_error itself result.0 result.1 }
{
    one_offset();
    one_limit_offset();
    one_reason();
    (refused(alloc, dialect, text), refused(alloc, dialect, text))
}

/// A result of `Terms::try_parse`.
type Read<'text> = Result<Terms<'text>, RangeError>;

/// `Terms::try_parse` has only one permitted result.
pub fn one_terms(range: &str, dialect: Dialect) -> (Read<'_>, Read<'_>)
    ensures one { result.0 ≡ result.1 }
{
    (
        Terms::try_parse(range, dialect),
        Terms::try_parse(range, dialect),
    )
}
