//! A writer that does not allocate.
ghost use Rattle.std.specs.Prelude.{◌≤◌};

use std::io::Write;
use std::{fmt, io};

const ROOM: usize = 512;

/// A buffer for up to 512 bytes, which takes no more.
#[derive(Drop)]
pub struct Fixed {
    bytes: [u8; ROOM],
    len: usize,
    ghost within: { len ≤ 512 },
}

impl Fixed {
    /// Returns an empty writer.
    pub fn new() -> Fixed {
        Fixed {
            bytes: [0; ROOM],
            len: 0,
        }
    }

    /// Returns the bytes that were written.
    pub fn as_bytes(&self) -> &[u8] {
        &self.bytes[..self.len]
    }
}

impl Write for Fixed {
    fn write(&mut self, buf: &[u8]) -> io::Result<usize> {
        let count = buf.len().min(ROOM - self.len);
        let end = self.len + count;
        self.bytes[self.len..end].copy_from_slice(&buf[..count]);
        self.len = end;
        Ok(count)
    }

    fn flush(&mut self) -> io::Result<()> {
        Ok(())
    }
}

impl fmt::Write for Fixed {
    fn write_str(&mut self, s: &str) -> fmt::Result {
        match io::Write::write(self, s.as_bytes()) {
            Ok(count) if count == s.len() => Ok(()),
            _ => Err(fmt::Error),
        }
    }
}
