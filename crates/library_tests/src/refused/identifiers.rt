//! `concat`, and the text of an error.

use super::Ending;
use semver_parser::parser::Error;
use semver_parser::version::Identifier;
use std::alloc::Global;

/// Appends `x` to `Numeric(5)`. If it is out of memory, it returns the number.
pub fn concat_of_a_number(alloc: Global) -> Ending {
    match Identifier::Numeric(5).concat(alloc, "x") {
        Ok(Identifier::AlphaNumeric(text)) => Ending::full_if(text.as_str() == "5x"),
        Err(Identifier::Numeric(number)) => Ending::refused_if(number == 5),
        _ => Ending::Wrong,
    }
}

/// Appends `-b` to `AlphaNumeric("a")`. If it is out of memory, it returns the string.
pub fn concat_of_a_text(alloc: Global) -> Ending {
    let Ok(text) = "a".to_string(alloc) else {
        return Ending::Refused;
    };
    match Identifier::AlphaNumeric(text).concat(alloc, "-b") {
        Ok(Identifier::AlphaNumeric(text)) => Ending::full_if(text.as_str() == "a-b"),
        Err(Identifier::AlphaNumeric(text)) => Ending::refused_if(text.as_str() == "a"),
        _ => Ending::Wrong,
    }
}

/// Makes the text of an error.
pub fn error_text(alloc: Global) -> Ending {
    match Error::UnexpectedEnd.text(alloc) {
        Ok(text) => Ending::full_if(text.as_str() == "expected more input"),
        Err(_) => Ending::Refused,
    }
}
