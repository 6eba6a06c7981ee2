//! Finds the end of the longest prefix of a string with which some string of a language begins, by
//! trying whether a completion makes a prefix a string of the language.
ghost use Rattle.std.specs.Prelude.{◌≡◌, ◌<◌, ◌≤◌, ◌↔◌, ◌+◌, ◌++◌, ℕ, List, IsTrue, IfOk, length};
ghost use Rattle.std.specs.Prelude.{map, string_capacity, take};
ghost use Rattle.std.specs.Str.{IsCharBoundary, IsUtf8};
ghost use Rattle.semver_texts.specs.Texts.{Text};
ghost use Rattle.invalid_strings.specs.Prefixes.{AreCompletions, AreShort, Begins, GoesOn};
ghost use Rattle.invalid_strings.specs.Prefixes.{IsLongestPrefix};

use crate::buffers::{complete, join};
use std::alloc::{AllocError, Global};

/// How often the search tries only the likely completions.
const ROUNDS: usize = 4;

/// A language: the strings that belong to it, and the completions of their prefixes.
pub trait Language {
    /// Holds for the strings of the language.
    ghost is_text: { Self → Text → Type 0 };

    /// The completions of its prefixes.
    ghost completions: { Self → List Text };

    /// Returns whether a string belongs to the language.
    fn contains(&self, text: &str) -> bool
        ensures { IsTrue result ↔ is_text self.now text.now };

    /// Returns the completions of its prefixes.
    fn all_completions(&self) -> &[&str]
        ensures { map (λ completion. completion.now) result.now ≡ completions self.now };

    /// Returns the index of the completion that a prefix most likely needs. The index affects only
    /// how long a search takes, not what it finds.
    fn likely(&self, prefix: &str) -> usize
        ensures { result < length (completions self.now) };
}

// Determined by: law invalid_strings::laws::one_offset.
/// Returns the end of the longest prefix of a string with which some string of a language begins.
/// It is the length of the string if the string itself belongs to the language. For npm's versions,
/// `1.2.x` gives 4, since `1.2.0` begins with its first 4 bytes.
///
/// For a string of n bytes it tries the likely completion of log n prefixes, and then all
/// completions of the next prefix. Seldom it tries all completions of log n prefixes.
///
/// # Errors
///
/// `AllocError` if the allocation of a buffer of n + 8 bytes fails.
pub fn longest_prefix<L: Language>(
    alloc: Global,
    language: &L,
    text: &str,
) -> Result<usize, AllocError>
    requires completions { AreCompletions (L.is_text language.now) (L.completions language.now) }
    ensures { IfOk result (λ offset.
        IsLongestPrefix (Begins (L.is_text language.now)) text.now offset) }
{
    let mut buffer = String::with_capacity(alloc, text.len().saturating_add(8))?;
    Ok(longest_prefix_in(language, text, &mut buffer))
}

/// Returns the result of [`longest_prefix`], using a buffer with a capacity of the length of the
/// string plus 8 bytes.
pub(crate) fn longest_prefix_in<L: Language>(language: &L, text: &str, buffer: &mut String) -> usize
    requires completions { AreCompletions (L.is_text language.now) (L.completions language.now) }
    requires room { length text.now + 8 ≤ string_capacity buffer.old }
    ensures longest { IsLongestPrefix (Begins (L.is_text language.now)) text.now result }
    ensures room { string_capacity buffer.old ≤ string_capacity buffer.new }
{
    let mut good = 0;
    'rounds: for _ in 0..ROUNDS {
        good = likely_prefix(language, text, good, buffer);
        if good == text.len() {
            return good;
        }
        let next = after(text, good);
        if !is_prefix(language, &text[..next], buffer) {
            return good;
        }
        good = next;
    }
    longest_from(language, text, good, buffer)
}

/// Returns the end of a prefix with which some string of the language begins, at or after the end
/// of such a prefix. It is mostly the longest one.
fn likely_prefix<L: Language>(language: &L, text: &str, prefix: usize, buffer: &mut String) -> usize
    requires completions { AreCompletions (L.is_text language.now) (L.completions language.now) }
    requires room { length text.now + 8 ≤ string_capacity buffer.old }
    requires boundary { IsCharBoundary text.now prefix }
    requires prefix { Begins (L.is_text language.now) (take prefix text.now) }
    ensures boundary { IsCharBoundary text.now result }
    ensures prefix { Begins (L.is_text language.now) (take result text.now) }
    ensures room { string_capacity buffer.old ≤ string_capacity buffer.new }
{
    let mut good = prefix;
    let mut end = text.len();
    loop {
        let middle = between(text, good, end);
        if middle == good {
            return good;
        }
        if is_likely(language, &text[..middle], buffer) {
            good = middle;
        } else {
            end = middle;
        }
    }
}

/// Returns the end of the longest prefix, at or after the end of a prefix with which some string of
/// the language begins.
fn longest_from<L: Language>(language: &L, text: &str, prefix: usize, buffer: &mut String) -> usize
    requires completions { AreCompletions (L.is_text language.now) (L.completions language.now) }
    requires room { length text.now + 8 ≤ string_capacity buffer.old }
    requires boundary { IsCharBoundary text.now prefix }
    requires prefix { Begins (L.is_text language.now) (take prefix text.now) }
    ensures longest { IsLongestPrefix (Begins (L.is_text language.now)) text.now result }
    ensures room { string_capacity buffer.old ≤ string_capacity buffer.new }
{
    if is_prefix(language, text, buffer) {
        return text.len();
    }
    let mut good = prefix;
    let mut bad = text.len();
    loop {
        let middle = between(text, good, bad);
        if middle == good {
            return good;
        }
        if is_prefix(language, &text[..middle], buffer) {
            good = middle;
        } else {
            bad = middle;
        }
    }
}

/// Returns the longest prefix of the bytes that is UTF-8.
pub(crate) fn text_prefix(bytes: &[u8]) -> &str
    ensures within { length result.now ≤ length bytes.now }
    ensures prefix { result.now ≡ take (length result.now) bytes.now }
    ensures longest { (n : ℕ) → length result.now < n → n ≤ length bytes.now
        → ¬ (IsUtf8 (take n bytes.now)) }
{
    match str::from_utf8(bytes) {
        Ok(text) => text,
        Err(error) => match str::from_utf8(&bytes[..error.valid_up_to()]) {
            Ok(text) => text,
            Err(_) => "",
        },
    }
}

/// Returns the next offset between two characters.
fn after(text: &str, offset: usize) -> usize
    requires { offset < length text.now }
    ensures after { offset < result }
    ensures boundary { IsCharBoundary text.now result }
    ensures next { (k : ℕ) → offset < k → k < result → ¬ (IsCharBoundary text.now k) }
{
    for at in offset + 1..text.len() {
        if text.is_char_boundary(at) {
            return at;
        }
    }
    text.len()
}

/// Returns an offset between two characters, after `good`, before `bad`, and near the middle, or
/// `good` if there is none.
fn between(text: &str, good: usize, bad: usize) -> usize
    requires { good ≤ bad }
    ensures after { good ≤ result }
    ensures before { good < result → result < bad }
    ensures boundary { good < result → IsCharBoundary text.now result }
    ensures none { result ≡ good → (k : ℕ) → good < k → k < bad → ¬ (IsCharBoundary text.now k) }
{
    let middle = good + (bad - good) / 2;
    for at in middle..bad {
        if at > good && text.is_char_boundary(at) {
            return at;
        }
    }
    for at in good..middle {
        if at > good && text.is_char_boundary(at) {
            return at;
        }
    }
    good
}

/// Returns whether a prefix with its likely completion belongs to the language.
fn is_likely<L: Language>(language: &L, prefix: &str, buffer: &mut String) -> bool
    requires short { AreShort (L.completions language.now) }
    requires room { length prefix.now + 8 ≤ string_capacity buffer.old }
    ensures found { IsTrue result
        → GoesOn (L.is_text language.now) (L.completions language.now) prefix.now }
    ensures room { string_capacity buffer.old ≤ string_capacity buffer.new }
{
    let completions = language.all_completions();
    let completion = completions[language.likely(prefix)];
    join(buffer, prefix, completion);
    language.contains(buffer.as_str())
}

/// Returns whether a prefix with one of the completions belongs to the language.
fn is_prefix<L: Language>(language: &L, prefix: &str, buffer: &mut String) -> bool
    requires short { AreShort (L.completions language.now) }
    requires room { length prefix.now + 8 ≤ string_capacity buffer.old }
    ensures found { IsTrue result
        ↔ GoesOn (L.is_text language.now) (L.completions language.now) prefix.now }
    ensures room { string_capacity buffer.old ≤ string_capacity buffer.new }
{
    join(buffer, prefix, "");
    for completion in language.all_completions() {
        complete(buffer, prefix, completion);
        if language.contains(buffer.as_str()) {
            return true;
        }
    }
    false
}
