//! Strings of the table. `\n`, `\r`, `\t` and `\\` are escapes, and `\(3,a,-)` stands for `a-a-a`.
//! In a unit that is repeated like this, `\#` is its index: `\(3,a\#,.)` is `a0.a1.a2`.

use std::alloc::{AllocError, Global};

/// Returns the string that an escaped one stands for, or `None` if it isn't well-formed.
pub fn expanded(alloc: Global, escaped: &str) -> Result<Option<String>, AllocError> {
    let mut text = String::new(alloc);
    for (i, piece) in escaped.split("\\(").enumerate() {
        let plain = if i == 0 {
            piece
        } else {
            let Some((repeated, plain)) = piece.split_once(')') else {
                return Ok(None);
            };
            if !push_repeated(&mut text, repeated)? {
                return Ok(None);
            }
            plain
        };
        if !push_unescaped(&mut text, plain, None)? {
            return Ok(None);
        }
    }
    Ok(Some(text))
}

/// Appends the units, joined, that `count,unit,joiner` stands for. Returns false if it isn't
/// well-formed.
fn push_repeated(text: &mut String, repeated: &str) -> Result<bool, AllocError> {
    let Some((count, rest)) = repeated.split_once(',') else {
        return Ok(false);
    };
    let Some((unit, joiner)) = rest.split_once(',') else {
        return Ok(false);
    };
    let Ok(count) = count.parse::<u32>() else {
        return Ok(false);
    };
    for place in 0..count {
        if place > 0 && !push_unescaped(text, joiner, None)? {
            return Ok(false);
        }
        if !push_unescaped(text, unit, Some(place))? {
            return Ok(false);
        }
    }
    Ok(true)
}

/// Appends a string without repetitions, for an index in a list if there is one. Returns false if
/// an escape isn't known.
fn push_unescaped(
    text: &mut String,
    escaped: &str,
    place: Option<u32>,
) -> Result<bool, AllocError> {
    let mut is_escape = false;
    for character in escaped.chars() {
        if !is_escape && character == '\\' {
            is_escape = true;
            continue;
        }
        match (is_escape, character, place) {
            (false, _, _) => text.push(character)?,
            (true, '#', Some(place)) => write!(text, "{place}")?,
            _ => match escape(character) {
                Some(meant) => text.push(meant)?,
                None => return Ok(false),
            },
        }
        is_escape = false;
    }
    Ok(!is_escape)
}

/// Returns the character that an escape stands for.
fn escape(character: char) -> Option<char> {
    match character {
        'n' => Some('\n'),
        'r' => Some('\r'),
        't' => Some('\t'),
        '\\' => Some('\\'),
        _ => None,
    }
}
