//! Functions for tokens, parsers, versions and borrowed versions.

ghost use Rattle.std.specs.Prelude.{◌≡◌, ◌+◌, ◌<◌, ◌^◌, IsOk, alloc_error, length};
ghost use Rattle.std.specs.Prelude.{option_map};
ghost use Rattle.semver_texts.specs.Texts.{BeginsWithNumbers, Text};
ghost use Rattle.semver_texts.specs.VersionViews.{identifier_value, version_value};
ghost use Rattle.semver_tokens.specs.ParserViews.{IfOutOfMemory, UnlessOutOfMemory};
ghost use Rattle.semver_tokens.specs.ParserViews.{answer_of, step_of};
ghost use Rattle.result_laws.specs.OneResult.{AreOne};

use semver_parser::version::{self, Grammar, VersionRef};
use semver_texts::version::{Identifier, Version};
use semver_tokens::lexer::Lexer;
use semver_tokens::parser::{self, Parser};
use std::alloc::{AllocError, Global};

/// A string has only one lexer.
pub fn one_lexer(input: &str) -> (Lexer<'_>, Lexer<'_>)
    ensures one { result.0 ≡ result.1 }
{
    semver_tokens::laws::one_token_list();
    (Lexer::new(input), Lexer::new(input))
}

/// A string has only one parser, or only one error.
pub fn one_parser<'t>(
    input: &'t str,
) -> (
    Result<Parser<'t>, parser::Error<'t>>,
    Result<Parser<'t>, parser::Error<'t>>,
)
    ensures one { answer_of (λ p. p) result.0 ≡ answer_of (λ p. p) result.1 }
{
    semver_tokens::laws::one_token_list();
    (Parser::new(input), Parser::new(input))
}

/// Two parsers with the same state read the same identifier and are then in the same state, unless
/// one of them ran out of memory.
pub fn one_identifier<'t>(
    alloc: Global,
    one: &mut Parser<'t>,
    other: &mut Parser<'t>,
) -> (
    Result<Identifier, parser::Error<'t>>,
    Result<Identifier, parser::Error<'t>>,
)
    requires { one.old ≡ other.old }
    ensures one { UnlessOutOfMemory result.0 (UnlessOutOfMemory result.1
        (step_of identifier_value result.0 one.new ≡ step_of identifier_value result.1 other.new)) }
    ensures state { one.new ≡ other.new }
    // Memory runs out only if the result would be an identifier.
    ensures memory { IfOutOfMemory result.0 (UnlessOutOfMemory result.1 (IsOk result.1)) }
{
    (one.identifier(alloc), other.identifier(alloc))
}

/// Two parsers with the same state read the same version and are then in the same state, unless one
/// of them ran out of memory.
pub fn one_version_of_parser<'t>(
    alloc: Global,
    one: &mut Parser<'t>,
    other: &mut Parser<'t>,
) -> (
    Result<Version, parser::Error<'t>>,
    Result<Version, parser::Error<'t>>,
)
    requires { one.old ≡ other.old }
    ensures one { UnlessOutOfMemory result.0 (UnlessOutOfMemory result.1
        (step_of version_value result.0 one.new ≡ step_of version_value result.1 other.new)) }
{
    (one.version(alloc), other.version(alloc))
}

/// A string is read as only one version, or none.
pub fn one_read(
    alloc: Global,
    input: &str,
) -> (
    Result<Option<Version>, AllocError>,
    Result<Option<Version>, AllocError>,
)
    ensures one { AreOne alloc_error (option_map version_value) result.0 result.1 }
{
    (version::read(alloc, input), version::read(alloc, input))
}

/// Bytes are read as only one version, or none.
pub fn one_read_bytes(
    alloc: Global,
    input: &[u8],
) -> (
    Result<Option<Version>, AllocError>,
    Result<Option<Version>, AllocError>,
)
    ensures one { AreOne alloc_error (option_map version_value) result.0 result.1 }
{
    (
        version::read_bytes(alloc, input),
        version::read_bytes(alloc, input),
    )
}

/// A string has only one borrowed version, or none.
pub fn one_read_ref(input: &str) -> (Option<VersionRef<'_>>, Option<VersionRef<'_>>)
    ensures one { result.0 ≡ result.1 }
{
    (version::read_ref(input), version::read_ref(input))
}

/// Bytes have only one borrowed version, or none.
pub fn one_read_ref_bytes(input: &[u8]) -> (Option<VersionRef<'_>>, Option<VersionRef<'_>>)
    ensures one { result.0 ≡ result.1 }
{
    (
        version::read_ref_bytes(input),
        version::read_ref_bytes(input),
    )
}

/// Bytes have only one borrowed version in a dialect, or none.
pub fn one_read_ref_in(
    input: &[u8],
    grammar: Grammar,
) -> (Option<VersionRef<'_>>, Option<VersionRef<'_>>)
    ensures one { result.0 ≡ result.1 }
{
    (
        version::read_ref_in(input, grammar),
        version::read_ref_in(input, grammar),
    )
}

/// A string is parsed as only one version, or gives only one error, unless memory ran out.
pub fn one_version_parse(
    alloc: Global,
    input: &str,
) -> (
    Result<Version, parser::Error<'_>>,
    Result<Version, parser::Error<'_>>,
)
    ensures one { UnlessOutOfMemory result.0 (UnlessOutOfMemory result.1
        (answer_of version_value result.0 ≡ answer_of version_value result.1)) }
{
    semver_parser::laws::one_outcome();
    (version::parse(alloc, input), version::parse(alloc, input))
}

/// A string is parsed from its tokens as only one version, or gives only one error, unless memory
/// ran out.
pub fn one_parse_by_tokens(
    alloc: Global,
    input: &str,
) -> (
    Result<Version, parser::Error<'_>>,
    Result<Version, parser::Error<'_>>,
)
    ensures one { UnlessOutOfMemory result.0 (UnlessOutOfMemory result.1
        (answer_of version_value result.0 ≡ answer_of version_value result.1)) }
{
    semver_parser::laws::one_outcome();
    (
        version::parse_by_tokens(alloc, input),
        version::parse_by_tokens(alloc, input),
    )
}
