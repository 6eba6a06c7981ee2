//! Writes bytes so that after an error it is known that a prefix of them was written.
ghost use Rattle.semver_texts.specs.Writing.{WritesOrBegins};

use std::io::{self, ErrorKind, Write};

// Determined by: equation.
/// Writes all of the bytes, in as many writes as needed: if a writer takes four bytes at a time,
/// `1.2.3` is written as `1.2.` and then `3`.
///
/// # Errors
///
/// It stops at the first write that fails, is interrupted, or takes no byte, and returns the error
/// of that write or `ErrorKind::WriteZero`. Then `out` got a prefix of the bytes. In contrast,
/// `Write::write_all` doesn't specify what was written before its error, and retries after an
/// interruption.
pub fn write_whole<W: Write>(out: &mut W, bytes: &[u8]) -> io::Result<()>
    ensures writes { WritesOrBegins (W.contents out.old) (W.contents out.new) result bytes.now }
{
    let mut rest = bytes;
    while !rest.is_empty() {
        let count = out.write(rest)?;
        if count == 0 {
            return Err(io::Error::from(ErrorKind::WriteZero));
        }
        rest = &rest[count..];
    }
    Ok(())
}
