//! Buffers in which completions are appended to prefixes.
ghost use Rattle.std.specs.Prelude.{◌≡◌, ◌≤◌, ◌+◌, ◌++◌, length, string_bytes, string_capacity};
ghost use Rattle.std.specs.Prelude.{take};
ghost use Rattle.invalid_strings.specs.Buffers.{HoldsAfter};

/// Writes bytes at an offset. The bytes before it stay as they are.
pub(crate) fn write(buffer: &mut [u8], offset: usize, bytes: &[u8])
    requires { offset + length bytes.now ≤ length buffer.old }
    ensures before { take offset buffer.new ≡ take offset buffer.old }
    ensures written { take (offset + length bytes.now) buffer.new
        ≡ take offset buffer.old ++ bytes.now }
{
    buffer[offset..offset + bytes.len()].copy_from_slice(bytes);
}

// Determined by: equation.
/// Replaces the content of the buffer by two strings, one after the other. It does not allocate,
/// since the buffer's capacity has to hold both.
pub fn join(buffer: &mut String, first: &str, second: &str)
    requires { length first.now + length second.now ≤ string_capacity buffer.old }
    ensures joined { string_bytes buffer.new ≡ first.now ++ second.now }
    ensures room { string_capacity buffer.old ≤ string_capacity buffer.new }
{
    buffer.clear();
    let _ = buffer.push_str(first);
    let _ = buffer.push_str(second);
}

/// Replaces what follows a prefix in the buffer by a completion.
pub(crate) fn complete(buffer: &mut String, prefix: &str, completion: &str)
    requires held { HoldsAfter prefix.now (string_bytes buffer.old) }
    requires room { length prefix.now + length completion.now ≤ string_capacity buffer.old }
    ensures completed { string_bytes buffer.new ≡ prefix.now ++ completion.now }
    ensures held { HoldsAfter prefix.now (string_bytes buffer.new) }
    ensures room { string_capacity buffer.old ≤ string_capacity buffer.new }
{
    buffer.truncate(prefix.len());
    let _ = buffer.push_str(completion);
}
