//! The length and the Adler-32 checksum of a long result, written instead of it. They change if a
//! byte is dropped, changed or moved. Python's `zlib.adler32` computes the same checksum.

use std::io::Write;
use std::{fmt, io};

/// The largest prime below 2^16.
const MODULUS: u32 = 65521;

/// A writer that keeps only the length and the checksum of everything that is written.
#[derive(Drop)]
pub struct Checksum {
    len: u64,
    low: u32,
    high: u32,
}

impl Checksum {
    /// Returns the checksum of nothing.
    pub fn new() -> Checksum {
        Checksum {
            len: 0,
            low: 1,
            high: 0,
        }
    }
}

impl Write for Checksum {
    fn write(&mut self, buf: &[u8]) -> io::Result<usize> {
        for byte in buf {
            self.len = self.len.saturating_add(1);
            self.low = self.low.wrapping_add(u32::from(*byte)) % MODULUS;
            self.high = self.high.wrapping_add(self.low) % MODULUS;
        }
        Ok(buf.len())
    }

    fn flush(&mut self) -> io::Result<()> {
        Ok(())
    }
}

impl fmt::Display for Checksum {
    fn fmt<W: fmt::Write>(&self, f: &mut fmt::Formatter<W>) -> fmt::Result {
        let (len, high, low) = (self.len, self.high, self.low);
        write!(f, "{len} bytes, Adler-32 {high:04x}{low:04x}")
    }
}
