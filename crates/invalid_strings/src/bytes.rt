//! Decides whether some version begins with given bytes, which may end within a character.
ghost use Rattle.std.specs.Prelude.{◌≡◌, ◌≤◌, ◌+◌, ◌-◌, ◌++◌, ◌↔◌, IsTrue, length, map};
ghost use Rattle.std.specs.Prelude.{take};
ghost use Rattle.semver_texts.specs.Texts.{Text};
ghost use Rattle.invalid_strings.specs.VersionCompletions.{byte_completions};
ghost use Rattle.invalid_strings.specs.VersionPrefixes.{IsPrefixIn, IsVersionOf};

use crate::buffers::write;
use semver_texts::grammar::Grammar;
use semver_versions::version::{is_version_at_any_length, read_ref_in};

/// The bytes that complete a prefix.
const COMPLETIONS: [&[u8]; 23] = [
    b"",
    b"a",
    b"0",
    b".0",
    b"0.0",
    b".0.0",
    b"0.0.0",
    &[0xA0],
    &[0x9A, 0x80],
    &[0x80, 0x80],
    &[0x81, 0x9F],
    &[0xBB, 0xBF],
    &[0x80],
    &[0x9F],
    &[0xBF],
    b"\xA00.0.0",
    b"\x9A\x800.0.0",
    b"\x80\x800.0.0",
    b"\x81\x9F0.0.0",
    b"\xBB\xBF0.0.0",
    b"\x800.0.0",
    b"\x9F0.0.0",
    b"\xBF0.0.0",
];

/// The length that a version may have.
#[derive(Clone, Copy)]
pub(crate) enum Length {
    /// As long as its dialect allows.
    Allowed,
    /// Any length.
    Any,
}

/// Returns whether some version of an allowed length begins with the bytes.
pub(crate) fn begins(prefix: &[u8], len: Length, grammar: Grammar, buffer: &mut [u8]) -> bool
    requires { length prefix.now + 8 ≤ length buffer.old }
    ensures { IsTrue result ↔ (more : Text) × IsVersionOf len grammar (prefix.now ++ more) }
{
    write(buffer, 0, prefix);
    goes_on(buffer, prefix.len(), &COMPLETIONS, len, grammar)
}

/// Returns whether the bytes up to an offset, with one of the completions, are a version of an
/// allowed length.
fn goes_on(
    buffer: &mut [u8],
    end: usize,
    completions: &[&[u8]],
    len: Length,
    grammar: Grammar,
) -> bool
    requires completions { map (λ completion. completion.now) completions.now ≡ byte_completions }
    requires room { end + 8 ≤ length buffer.old }
    ensures found { IsTrue result
        ↔ (more : Text) × IsVersionOf len grammar (take end buffer.old ++ more) }
    ensures prefix { take end buffer.new ≡ take end buffer.old }
{
    for completion in completions {
        write(buffer, end, completion);
        if is_version(&buffer[..end + completion.len()], len, grammar) {
            return true;
        }
    }
    false
}

/// Returns whether the bytes are a version of an allowed length.
pub(crate) fn is_version(bytes: &[u8], len: Length, grammar: Grammar) -> bool
    ensures { IsTrue result ↔ IsVersionOf len grammar bytes.now }
{
    match len {
        Length::Allowed => read_ref_in(bytes, grammar).is_some(),
        Length::Any => is_version_at_any_length(bytes, grammar),
    }
}
