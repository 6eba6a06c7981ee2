//! A string as it is shown in a message.

ghost use Rattle.std.specs.Prelude.{◌≡◌, ◌∷◌, [], ◌+◌, ◌<◌, ◌≤◌, encode_utf8, false, length};
ghost use Rattle.std.specs.Fmt.{WritesOnOk, WritesStyledOnOk, digit_glyph, digits};
ghost use Rattle.std.specs.List.{repeat};
ghost use Rattle.invalid_strings.specs.Escaping.{by_number, escaped, escaped_character};
ghost use Rattle.invalid_strings.specs.Escaping.{marks_below};

use std::fmt;

/// A string as it is shown in a message: printable ASCII characters are shown as they are, except
/// for `"` and `\`, which have a backslash before them. Any other character is escaped: `\t`, `\n`,
/// `\r`, or its number in hexadecimal, as in `\u{2013}`. So no character of the string can end the
/// line, control a terminal, or look like another one, each takes as many columns as it has bytes,
/// and no table of Unicode decides what is shown.
#[derive(Clone, Copy)]
pub struct Escaped<'text> {
    /// The string.
    pub text: &'text str,
}

// Determined by: equation.
impl fmt::Display for Escaped<'_> {
    ghost use Rattle.std.specs.Prelude.{Some};
    ghost use Rattle.invalid_strings.specs.Escaping.{escaped};

    ghost output = { λ shown. Some (escaped shown.text.now) };

    ghost styled_output = { λ shown _. Some (escaped shown.text.now) };

    fn fmt<W: fmt::Write>(&self, f: &mut fmt::Formatter<W>) -> fmt::Result {
        write_escaped(f, self.text)
    }
}

// Determined by: equation.
/// Writes the characters of a string as they are shown, whatever options the formatter has.
pub fn write_escaped<W: fmt::Write>(f: &mut fmt::Formatter<W>, text: &str) -> fmt::Result
    ensures writes { WritesOnOk W.write_str_gives f.old result (escaped text.now) f.new }
    ensures styled { WritesStyledOnOk W.write_str_gives f.old result (escaped text.now) f.new }
{
    for character in text.chars() {
        write_character(f, character)?;
    }
    Ok(())
}

// Determined by: equation.
/// Writes a character as it is shown, whatever options the formatter has.
pub fn write_character<W: fmt::Write>(f: &mut fmt::Formatter<W>, character: char) -> fmt::Result
    ensures { WritesStyledOnOk W.write_str_gives f.old result (escaped_character character) f.new }
{
    match character {
        '"' => f.write_str("\\\""),
        '\\' => f.write_str("\\\\"),
        '\t' => f.write_str("\\t"),
        '\n' => f.write_str("\\n"),
        '\r' => f.write_str("\\r"),
        ' '..='~' => write_unchanged(f, character),
        _ => write_number(f, u32::from(character)),
    }
}

/// Writes a character as it is.
fn write_unchanged<W: fmt::Write>(f: &mut fmt::Formatter<W>, character: char) -> fmt::Result
    ensures { WritesStyledOnOk W.write_str_gives f.old result (encode_utf8 character) f.new }
{
    let mut bytes = [0; 4];
    f.write_str(character.encode_utf8(&mut bytes))
}

/// Writes the number of a character in braces.
fn write_number<W: fmt::Write>(f: &mut fmt::Formatter<W>, number: u32) -> fmt::Result
    ensures { WritesStyledOnOk W.write_str_gives f.old result (by_number number) f.new }
{
    f.write_str("\\u{")?;
    write_hexadecimal(f, number)?;
    f.write_str("}")
}

/// Writes a number in hexadecimal.
fn write_hexadecimal<W: fmt::Write>(f: &mut fmt::Formatter<W>, number: u32) -> fmt::Result
    ensures { WritesStyledOnOk W.write_str_gives f.old result (digits 16 false number) f.new }
{
    if number < 16 {
        return write_digit(f, number as u8);
    }
    write_hexadecimal(f, number / 16)?;
    write_digit(f, (number % 16) as u8)
}

/// Writes the digit of a number below 16.
fn write_digit<W: fmt::Write>(f: &mut fmt::Formatter<W>, number: u8) -> fmt::Result
    requires { number < 16 }
    ensures { WritesStyledOnOk W.write_str_gives f.old result
        (digit_glyph false number ∷ []) f.new }
{
    let digit = if number < 10 {
        b'0' + number
    } else {
        b'a' - 10 + number
    };
    write_unchanged(f, char::from(digit))
}

// Determined by: equation.
/// Writes a mark for each column that a string takes as it is shown.
pub fn write_marks<W: fmt::Write>(f: &mut fmt::Formatter<W>, mark: &str, text: &str) -> fmt::Result
    ensures { WritesStyledOnOk W.write_str_gives f.old result
        (marks_below mark.now text.now) f.new }
{
    for character in text.chars() {
        write_times(f, mark, columns(character))?;
    }
    Ok(())
}

/// Writes a mark a number of times.
fn write_times<W: fmt::Write>(f: &mut fmt::Formatter<W>, mark: &str, times: u32) -> fmt::Result
    ensures { WritesStyledOnOk W.write_str_gives f.old result (repeat times mark.now) f.new }
{
    for _ in 0..times {
        f.write_str(mark)?;
    }
    Ok(())
}

/// Returns how many columns a character takes as it is shown.
fn columns(character: char) -> u32
    ensures { result ≡ length (escaped_character character) }
{
    match character {
        '"' | '\\' | '\t' | '\n' | '\r' => 2,
        ' '..='~' => 1,
        _ => 4 + hexadecimal_digits(u32::from(character)),
    }
}

/// Returns how many digits a number has in hexadecimal.
fn hexadecimal_digits(number: u32) -> u32
    ensures digits { result ≡ length (digits 16 false number) }
    ensures few { result ≤ number + 1 }
{
    if number < 16 {
        1
    } else {
        1 + hexadecimal_digits(number / 16)
    }
}
