//! Writes lists of values one after the other.
ghost use Rattle.std.specs.Prelude.{◌≡◌, ℕ, List, Some, map};
ghost use Rattle.std.specs.Fmt.{WritesOnOk};
ghost use Rattle.semver_texts.specs.Texts.{joined, marked};

use std::fmt;

// Determined by: equation.
/// Writes the mark and then the items joined by dots, or nothing if there are no items.
///
/// For the mark `-` and the items 7 and `"rc"` it writes `-7.rc`. It does not allocate, and its
/// only error is the writer's.
pub fn write_part<W: fmt::Write, T: fmt::Display>(
    f: &mut fmt::Formatter<W>,
    mark: &str,
    items: &[T],
) -> fmt::Result
    ensures { (text : T → List ℕ) → ((x : T) → T.output x ≡ Some (text x)) →
        WritesOnOk W.write_str_gives f.old result (marked mark.now (map text items.now)) f.new }
{
    if items.is_empty() {
        return Ok(());
    }
    f.write_str(mark)?;
    write_joined(f, ".", items)
}

// Determined by: equation.
/// Writes the items, separated by the separator.
///
/// For the separator `.` and the items 7 and `"rc"` it writes `7.rc`. It does not allocate, and its
/// only error is the writer's.
pub fn write_joined<W: fmt::Write, T: fmt::Display>(
    f: &mut fmt::Formatter<W>,
    separator: &str,
    items: &[T],
) -> fmt::Result
    ensures { (text : T → List ℕ) → ((x : T) → T.output x ≡ Some (text x)) →
        WritesOnOk W.write_str_gives f.old result
        (joined separator.now (map text items.now)) f.new }
{
    let Some((first, rest)) = items.split_first() else {
        return Ok(());
    };
    write!(f, "{first}")?;
    for item in rest {
        write!(f, "{separator}{item}")?;
    }
    Ok(())
}
