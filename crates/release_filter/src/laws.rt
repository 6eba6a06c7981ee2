//! Laws of the lines of a text that comes in pieces: each is the contract of a function that does
//! nothing, or that makes a call twice.

ghost use Rattle.std.specs.Prelude.{◌≡◌, ◌++◌, ℕ, List, IfErr, IfOk};
ghost use Rattle.std.specs.List.{concat};
ghost use Rattle.semver_texts.specs.Texts.{Text};
ghost use Rattle.release_filter.specs.LineTexts.{without_mark};
ghost use Rattle.release_filter.specs.Pieces.{Completes, Finishes, LinesValue, Takes, TakesPieces};
ghost use Rattle.release_filter.specs.Pieces.{begun_text};
ghost use Rattle.release_filter.specs.declared.lines.LinesError.TheVariants.{NoVersion};

use crate::lines::{Lines, LinesError};
use std::alloc::Global;

/// However a text is cut into pieces, the same bytes are appended. It does nothing.
pub fn pieces_do_not_matter()
    // Two pieces that are taken one after another do the same as one piece.
    ensures composed { (s t u : LinesValue) (piece next old mid new : Text)
        → Takes s piece t old mid → Takes t next u mid new → Takes s (piece ++ next) u old new }
    // Together with the end of the text, the pieces do the same as the whole text without its byte
    // order mark.
    ensures whole { (s t u : LinesValue) (pieces : List Text) (old mid new : Text)
        → TakesPieces (begun_text s) pieces t old mid → Finishes t u mid new
        → Completes s (without_mark (concat pieces)) u old new }
{
    semver_texts::laws::precedence_is_total();
}

/// Taking a piece, or a whole text, has only one resulting state, and appends only one sequence of
/// bytes. It does nothing.
pub fn one_outcome()
    ensures taking { (s t u : LinesValue) (piece old new other : Text)
        → Takes s piece t old new → Takes s piece u old other → (t ≡ u) × (new ≡ other) }
    ensures completion { (s t u : LinesValue) (text old new other : Text)
        → Completes s text t old new → Completes s text u old other → (t ≡ u) × (new ≡ other) }
{
    semver_texts::laws::precedence_is_total();
    semver_versions::laws::one_version_in();
}

/// `Lines::push` has only one permitted result. Given equal states and bytes before two calls:
/// - If both calls take the piece, states and bytes are equal after them.
/// - If both stop at an invalid line, the counts, the bytes and the error are equal.
/// - If one takes the piece, the other does so, too, or is out of memory.
pub fn one_push(
    alloc: Global,
    first: &mut Lines,
    second: &mut Lines,
    piece: &[u8],
    kept: &mut Vec<u8>,
    other: &mut Vec<u8>,
) -> (Result<(), LinesError>, Result<(), LinesError>)
    ensures one { first.old ≡ second.old → kept.old.items ≡ other.old.items
        → IfOk result.0 (λ _. IfOk result.1 (λ _. (first.new ≡ second.new)
        × (kept.new.items ≡ other.new.items))) }
    ensures one_error { first.old ≡ second.old → kept.old.items ≡ other.old.items
        → IfErr result.0 (λ a. IfErr result.1 (λ b. (n m : ℕ) → a ≡ NoVersion n
        → b ≡ NoVersion m → (n ≡ m) × (first.new.fold.counts ≡ second.new.fold.counts)
        × (kept.new.items ≡ other.new.items))) }
    ensures no_line { first.old ≡ second.old → IfOk result.0 (λ _. IfErr result.1 (λ b. (n : ℕ)
        → ¬ (b ≡ NoVersion n))) }
{
    semver_texts::laws::precedence_is_total();
    semver_versions::laws::one_version_in();
    (
        first.push(alloc, piece, kept),
        second.push(alloc, piece, other),
    )
}

/// `Lines::finish` has only one permitted result, as described for `Lines::push`.
pub fn one_finish(
    alloc: Global,
    first: &mut Lines,
    second: &mut Lines,
    kept: &mut Vec<u8>,
    other: &mut Vec<u8>,
) -> (Result<(), LinesError>, Result<(), LinesError>)
    ensures one { first.old ≡ second.old → kept.old.items ≡ other.old.items
        → IfOk result.0 (λ _. IfOk result.1 (λ _. (first.new ≡ second.new)
        × (kept.new.items ≡ other.new.items))) }
    ensures one_error { first.old ≡ second.old → kept.old.items ≡ other.old.items
        → IfErr result.0 (λ a. IfErr result.1 (λ b. (n m : ℕ) → a ≡ NoVersion n
        → b ≡ NoVersion m → (n ≡ m) × (first.new.fold.counts ≡ second.new.fold.counts)
        × (kept.new.items ≡ other.new.items))) }
    ensures no_line { first.old ≡ second.old → IfOk result.0 (λ _. IfErr result.1 (λ b. (n : ℕ)
        → ¬ (b ≡ NoVersion n))) }
{
    semver_texts::laws::precedence_is_total();
    semver_versions::laws::one_version_in();
    (first.finish(alloc, kept), second.finish(alloc, other))
}

/// `Lines::end_file` has only one permitted result, as described for `Lines::push`.
pub fn one_end_file(
    alloc: Global,
    first: &mut Lines,
    second: &mut Lines,
    kept: &mut Vec<u8>,
    other: &mut Vec<u8>,
) -> (Result<(), LinesError>, Result<(), LinesError>)
    ensures one { first.old ≡ second.old → kept.old.items ≡ other.old.items
        → IfOk result.0 (λ _. IfOk result.1 (λ _. (first.new ≡ second.new)
        × (kept.new.items ≡ other.new.items))) }
    ensures one_error { first.old ≡ second.old → kept.old.items ≡ other.old.items
        → IfErr result.0 (λ a. IfErr result.1 (λ b. (n m : ℕ) → a ≡ NoVersion n
        → b ≡ NoVersion m → (n ≡ m) × (first.new.fold.counts ≡ second.new.fold.counts)
        × (kept.new.items ≡ other.new.items))) }
    ensures no_line { first.old ≡ second.old → IfOk result.0 (λ _. IfErr result.1 (λ b. (n : ℕ)
        → ¬ (b ≡ NoVersion n))) }
{
    semver_texts::laws::precedence_is_total();
    semver_versions::laws::one_version_in();
    (first.end_file(alloc, kept), second.end_file(alloc, other))
}
