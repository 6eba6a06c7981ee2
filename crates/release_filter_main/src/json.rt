//! Arrays of strings in JSON (RFC 8259): reads them as records that end in a zero byte, and writes
//! them.

use std::alloc::AllocError;

/// Why a file wasn't read to its end.
#[derive(Clone, Copy)]
pub enum JsonError {
    /// The file isn't an array of strings. The string says what is wrong at the next byte.
    Invalid(&'static str),
    /// An allocation failed.
    OutOfMemory,
}

impl From<AllocError> for JsonError {
    fn from(_error: AllocError) -> JsonError {
        JsonError::OutOfMemory
    }
}

/// The part of the file that was read last.
#[derive(Clone, Copy)]
enum State {
    /// Nothing, or white space.
    Begin,
    /// The bracket that begins the array.
    Bracket,
    /// A string of the array.
    Item,
    /// A comma after a string.
    Comma,
    /// A part of a string.
    Inside,
    /// A backslash in a string.
    Backslash,
    /// Less than four of the digits after `\u`; this is their number.
    Digits(u8),
    /// The first half of a surrogate pair.
    Half,
    /// The backslash after the first half.
    HalfBackslash,
    /// The bracket that ends the array, or a string instead of an array.
    End,
}

/// Reads one file: an array of strings, or a string, which is read like an array with only this
/// string.
#[derive(Clone, Copy)]
pub struct Strings {
    state: State,
    is_array: bool,
    /// The value of the digits after `\u`.
    unit: u32,
    /// The first half of a surrogate pair, or 0.
    half: u32,
    offset: u64,
}

impl Strings {
    /// Returns the state before anything was read.
    pub fn new() -> Strings {
        Strings {
            state: State::Begin,
            is_array: false,
            unit: 0,
            half: 0,
            offset: 0,
        }
    }

    /// Reads a piece of the file, and appends each string with a zero byte to the records.
    pub fn push(&mut self, piece: &[u8], records: &mut Vec<u8>) -> Result<(), JsonError> {
        for byte in piece.iter() {
            self.take(*byte, records)?;
            self.offset = self.offset.saturating_add(1);
        }
        Ok(())
    }

    /// Returns the number of bytes that were read.
    pub fn offset(&self) -> u64 {
        self.offset
    }

    /// Checks that the file may end here.
    pub fn finish(&self) -> Result<(), JsonError> {
        match self.state {
            State::End => Ok(()),
            State::Begin => Err(JsonError::Invalid("expected an array of strings")),
            _ => Err(JsonError::Invalid("the array isn't closed")),
        }
    }

    /// Reads a byte.
    fn take(&mut self, byte: u8, records: &mut Vec<u8>) -> Result<(), JsonError> {
        match self.state {
            State::Inside => return self.take_inside(byte, records),
            State::Backslash => return self.take_escape(byte, records),
            State::Digits(count) => return self.take_digit(byte, count, records),
            State::Half if byte == b'\\' => self.state = State::HalfBackslash,
            State::HalfBackslash if byte == b'u' => self.start_digits(),
            State::Half | State::HalfBackslash => return Err(JsonError::Invalid(
                "half of a surrogate pair",
            )),
            _ => return self.take_between(byte),
        }
        Ok(())
    }

    /// Reads a byte outside of a string.
    fn take_between(&mut self, byte: u8) -> Result<(), JsonError> {
        if matches!(byte, b' ' | b'\t' | b'\n' | b'\r') {
            return Ok(());
        }
        self.state = match (self.state, byte) {
            (State::Begin, b'[') => {
                self.is_array = true;
                State::Bracket
            }
            (State::Begin | State::Bracket | State::Comma, b'"') => State::Inside,
            (State::Bracket | State::Item, b']') => State::End,
            (State::Item, b',') => State::Comma,
            (State::Begin, _) => return Err(JsonError::Invalid("expected an array of strings")),
            (State::Item, _) => return Err(JsonError::Invalid(
                "expected a comma or the end of the array",
            )),
            (State::End, _) => return Err(JsonError::Invalid("expected the end of the file")),
            _ => return Err(JsonError::Invalid("expected a string")),
        };
        Ok(())
    }

    /// Reads a byte of a string.
    fn take_inside(&mut self, byte: u8, records: &mut Vec<u8>) -> Result<(), JsonError> {
        match byte {
            b'"' => {
                push(records, 0)?;
                self.state = if self.is_array {
                    State::Item
                } else {
                    State::End
                };
            }
            b'\\' => self.state = State::Backslash,
            0..=0x1f => return Err(JsonError::Invalid("unescaped control character")),
            _ => push(records, byte)?,
        }
        Ok(())
    }

    /// Reads the byte after a backslash.
    fn take_escape(&mut self, byte: u8, records: &mut Vec<u8>) -> Result<(), JsonError> {
        let meant = match byte {
            b'"' | b'\\' | b'/' => byte,
            b'b' => 8,
            b't' => b'\t',
            b'n' => b'\n',
            b'f' => 12,
            b'r' => b'\r',
            b'u' => {
                self.start_digits();
                return Ok(());
            }
            _ => return Err(JsonError::Invalid("unknown escape")),
        };
        push(records, meant)?;
        self.state = State::Inside;
        Ok(())
    }

    /// Begins reading four digits.
    fn start_digits(&mut self) {
        self.state = State::Digits(0);
        self.unit = 0;
    }

    /// Reads one of the four digits after `\u`.
    fn take_digit(&mut self, byte: u8, count: u8, records: &mut Vec<u8>) -> Result<(), JsonError> {
        let Some(digit) = digit_value(byte) else {
            return Err(JsonError::Invalid("expected a hexadecimal digit"));
        };
        self.unit = (self.unit << 4) | digit;
        if count < 3 {
            self.state = State::Digits(count + 1);
            return Ok(());
        }
        self.end_digits(records)
    }

    /// Appends the character of the digits, or keeps the first half of a surrogate pair.
    fn end_digits(&mut self, records: &mut Vec<u8>) -> Result<(), JsonError> {
        let is_second_half = matches!(self.unit, 0xdc00..=0xdfff);
        if is_second_half != (self.half != 0) {
            return Err(JsonError::Invalid("half of a surrogate pair"));
        }
        match self.unit {
            0 => return Err(JsonError::Invalid("a zero character, which no version has")),
            0xd800..=0xdbff => {
                self.half = self.unit;
                self.state = State::Half;
                return Ok(());
            }
            _ => {}
        }
        let scalar = if is_second_half {
            0x10000 + (((self.half & 0x3ff) << 10) | (self.unit & 0x3ff))
        } else {
            self.unit
        };
        push_utf8(scalar, records)?;
        self.half = 0;
        self.state = State::Inside;
        Ok(())
    }
}

/// Returns the value of a hexadecimal digit.
fn digit_value(byte: u8) -> Option<u32> {
    match byte {
        b'0'..=b'9' => Some((byte - b'0') as u32),
        b'a'..=b'f' => Some((byte - b'a') as u32 + 10),
        b'A'..=b'F' => Some((byte - b'A') as u32 + 10),
        _ => None,
    }
}

/// Appends a character in UTF-8.
fn push_utf8(scalar: u32, bytes: &mut Vec<u8>) -> Result<(), AllocError> {
    if scalar < 0x80 {
        return push(bytes, scalar as u8);
    }
    if scalar < 0x800 {
        push(bytes, (0xc0 | (scalar >> 6)) as u8)?;
        return push(bytes, low_bits(scalar));
    }
    if scalar < 0x10000 {
        push(bytes, (0xe0 | (scalar >> 12)) as u8)?;
    } else {
        push(bytes, (0xf0 | ((scalar >> 18) & 7)) as u8)?;
        push(bytes, low_bits(scalar >> 12))?;
    }
    push(bytes, low_bits(scalar >> 6))?;
    push(bytes, low_bits(scalar))
}

/// Returns the byte of UTF-8 with the lowest six bits of a number.
fn low_bits(bits: u32) -> u8 {
    (0x80 | (bits & 0x3f)) as u8
}

/// Appends records that end in a zero byte as items of an array, each in a line of its own. The
/// first record begins the array.
pub fn push_items(records: &[u8], is_first: bool, written: &mut Vec<u8>) -> Result<(), AllocError> {
    let mut begins = true;
    let mut has_item = !is_first;
    for byte in records.iter() {
        if begins {
            let front: &[u8] = if has_item { b",\n  \"" } else { b"[\n  \"" };
            written.extend_from_slice(front)?;
        }
        begins = *byte == 0;
        has_item = true;
        if begins {
            push(written, b'"')?;
        } else {
            push_escaped(*byte, written)?;
        }
    }
    Ok(())
}

/// Appends the end of an array.
pub fn push_end(has_item: bool, written: &mut Vec<u8>) -> Result<(), AllocError> {
    let end: &[u8] = if has_item { b"\n]\n" } else { b"[]\n" };
    written.extend_from_slice(end)?;
    Ok(())
}

/// Appends a byte of a string, or its escape.
fn push_escaped(byte: u8, written: &mut Vec<u8>) -> Result<(), AllocError> {
    match byte {
        b'"' | b'\\' => push(written, b'\\')?,
        0..=0x1f => {
            written.extend_from_slice(b"\\u00")?;
            push(written, HEXADECIMAL[usize::from(byte >> 4)])?;
            return push(written, HEXADECIMAL[usize::from(byte & 15)]);
        }
        _ => {}
    }
    push(written, byte)
}

/// Appends a byte.
fn push(bytes: &mut Vec<u8>, byte: u8) -> Result<(), AllocError> {
    bytes.push(byte)?;
    Ok(())
}

/// The hexadecimal digits.
const HEXADECIMAL: [u8; 16] = *b"0123456789abcdef";
