//! Which of the kept lines are wanted, and the lines that are held until the end of the text.

ghost use Rattle.std.specs.Prelude.{◌≡◌, ◌⊎◌, ◌++◌, [], ◌∷◌, IfErr, IfOk, List, map};
ghost use Rattle.std.specs.Cmp.{IsTotalOrder};
ghost use Rattle.std.specs.Ordering.{nat_cmp, ordering_then};
ghost use Rattle.semver_texts.specs.Precedence.{precedence};
ghost use Rattle.semver_texts.specs.Texts.{Text};
ghost use Rattle.semver_versions.specs.VersionRefs.{version_of};
ghost use Rattle.semver_versions.specs.ReadVersions.{read_plain};
ghost use Rattle.release_filter.specs.Selections.{Answers, Holds, IsBest, IsStableSort};
ghost use Rattle.release_filter.specs.Selections.{SelectedValue, emptied, in_order, is_sorted};
ghost use Rattle.release_filter.specs.Selections.{order_of, selected_as, text_of};
ghost use Rattle.release_filter.specs.Steps.Sorting.{is_better, seen_lines};
ghost use Rattle.release_filter.specs.Steps.Taking.{held_value, selected_value, verdict_of};
ghost use Rattle.release_filter.specs.declared.selection.IndexedLine.{IndexedLine};

use crate::held::{Held, SelectedLine};
use crate::judge::Judged;
use semver_texts::laws;
use semver_versions::read_version::ReadVersion;
use semver_versions::version::VersionRef;
use std::alloc::{AllocError, Global};
use std::cmp::Ordering;

/// Which of the kept lines are wanted.
#[derive(Clone, Copy, Debug, PartialEq, Eq)]
pub enum Selection {
    /// Every kept line, as soon as it has ended.
    Each,
    /// The line with the highest version by precedence (SemVer 2.0.0, section 11). Of lines with
    /// equal versions, it is the first. Build metadata is ignored.
    Highest,
    /// The line with the lowest version. Of lines with equal versions, it is the first.
    Lowest,
    /// All kept lines, from the lowest version to the highest. Lines with equal versions stay in
    /// their order. A line without the byte that ends lines gets it.
    Sorted,
    /// The lines of [`Selection::Sorted`], in reverse order.
    Reversed,
}

impl Selection {
    /// Returns whether the lines are sorted, so that each gets an end.
    pub(crate) fn closes_lines(self) -> bool
        ensures { result ≡ is_sorted self }
    {
        matches!(self, Selection::Sorted | Selection::Reversed)
    }
}

/// A kept line, and its index among the kept ones. With the index, a sort without a buffer leaves
/// lines with equal versions in their order.
#[derive(Clone, Copy)]
struct IndexedLine<'k> {
    index: usize,
    line: &'k SelectedLine,
}

impl IndexedLine<'_> {
    /// Compares two lines: first by precedence, then by the index.
    fn compare(&self, other: &IndexedLine<'_>) -> Ordering
        ensures { result ≡ ordering_then (precedence (read_plain self.now.line.now.version)
            (read_plain other.now.line.now.version)) (nat_cmp self.now.index other.now.index) }
    {
        let versions = self.line.version.compare_read(&other.line.version);
        versions.then(self.index.cmp(&other.index))
    }
}

impl Held {
    /// Returns a state that holds no line.
    pub(crate) fn new(alloc: Global, selection: Selection) -> Held
        ensures { held_value result ≡ record { selection = selection; lines = [] } }
    {
        Held {
            selection,
            lines: Vec::new(alloc),
        }
    }

    /// Appends or holds a line, if it was decided to keep it. `Err` means out of memory.
    #[inline(always)]
    pub(crate) fn keep(
        &mut self,
        alloc: Global,
        judged: &Judged<'_>,
        kept: &mut Vec<u8>,
    ) -> Result<(), AllocError>
        ensures holds { IfOk result (λ _. (added : Text) × Holds (held_value self.old)
            (selected_as (verdict_of judged.now)) (held_value self.new) added
            × (kept.new.items ≡ kept.old.items ++ added)) }
        ensures unchanged { IfErr result (λ _. kept.new.items ≡ kept.old.items) }
    {
        if let Judged::Kept(borrowed, line) = judged {
            return self.keep_line(alloc, borrowed, line, kept);
        }
        Ok(())
    }

    /// Appends or holds a kept line with this version. `Err` means out of memory.
    #[inline(always)]
    fn keep_line(
        &mut self,
        alloc: Global,
        borrowed: &VersionRef<'_>,
        line: &[u8],
        kept: &mut Vec<u8>,
    ) -> Result<(), AllocError>
        ensures holds { IfOk result (λ _. (added : Text) × Holds (held_value self.old)
            (record { version = (version_of borrowed.now).plain; line = line.now } ∷ [])
            (held_value self.new) added × (kept.new.items ≡ kept.old.items ++ added)) }
        ensures unchanged { IfErr result (λ _. kept.new.items ≡ kept.old.items) }
    {
        match self.selection {
            Selection::Each => kept.extend_from_slice(line),
            Selection::Highest | Selection::Lowest => self.hold_best(alloc, borrowed, line),
            Selection::Sorted | Selection::Reversed => {
                let version = ReadVersion::of(alloc, borrowed)?;
                let bytes = Vec::from_slice(alloc, line)?;
                self.lines.push(SelectedLine { version, bytes })?;
                Ok(())
            }
        }
    }

    /// Holds only this line, if it is better than the best one so far. It reuses the memory of that
    /// one. `Err` means out of memory.
    fn hold_best(
        &mut self,
        alloc: Global,
        borrowed: &VersionRef<'_>,
        line: &[u8],
    ) -> Result<(), AllocError>
        requires { (self.old.selection ≡ Selection.Highest)
            ⊎ (self.old.selection ≡ Selection.Lowest) }
        ensures best { IfOk result (λ _. IsBest (order_of self.old.selection)
            (map selected_value self.old.lines.items
            ++ record { version = (version_of borrowed.now).plain; line = line.now } ∷ [])
            (map selected_value self.new.lines.items)) }
        ensures selection { self.new.selection ≡ self.old.selection }
    {
        laws::precedence_is_total();
        if !is_better(self.selection, borrowed, self.lines.as_slice()) {
            return Ok(());
        }
        let version = ReadVersion::of(alloc, borrowed)?;
        let mut bytes = match self.lines.pop() {
            Some(former) => former.bytes,
            None => Vec::new(alloc),
        };
        self.lines.clear();
        bytes.clear();
        bytes.extend_from_slice(line)?;
        self.lines.push(SelectedLine { version, bytes })?;
        Ok(())
    }

    /// Appends the held lines in order, and holds none afterwards. `Err` means out of memory.
    pub(crate) fn finish(&mut self, alloc: Global, kept: &mut Vec<u8>) -> Result<(), AllocError>
        ensures answers { IfOk result (λ _. (added : Text) × Answers (held_value self.old) added
            × (kept.new.items ≡ kept.old.items ++ added)) }
        ensures emptied { IfOk result (λ _. held_value self.new ≡ emptied (held_value self.old)) }
        ensures unchanged { IfErr result (λ _. kept.new.items ≡ kept.old.items) }
    {
        append_sorted(alloc, self.lines.as_slice(), self.selection, kept)?;
        self.lines.clear();
        Ok(())
    }
}

/// Returns whether a version is better than the best one so far: there is none, or the version is
/// above it, or below it if the lowest is wanted.
#[inline(always)]
fn is_better(selection: Selection, borrowed: &VersionRef<'_>, held: &[SelectedLine]) -> bool
    ensures { result ≡ is_better selection (version_of borrowed.now).plain
        (map selected_value held.now) }
{
    let [best, ..] = held else {
        return true;
    };
    let ordering = best.version.compared_ref(borrowed, borrowed.digits());
    match selection {
        Selection::Lowest => ordering.is_lt(),
        Selection::Each | Selection::Highest | Selection::Sorted | Selection::Reversed => {
            ordering.is_gt()
        }
    }
}

/// Returns the held lines, sorted by their versions, in the wanted order. `Err` means out of
/// memory.
fn sorted<'k>(
    alloc: Global,
    held: &'k [SelectedLine],
    selection: Selection,
) -> Result<Vec<IndexedLine<'k>>, AllocError>
    ensures sorts { IfOk result (λ lines. (sorted : List SelectedValue)
        × IsStableSort (map selected_value held.now) sorted
        × (seen_lines lines.items ≡ in_order selection sorted)) }
    // The sort's comparison is a total order, which Rust demands.
    ensures total_order { IsTotalOrder (λ (k l : IndexedLine). ordering_then
        (precedence (read_plain k.line.now.version) (read_plain l.line.now.version))
        (nat_cmp k.index l.index)) }
{
    laws::precedence_is_total();
    let mut lines = Vec::new(alloc);
    for line in held {
        let index = lines.len();
        lines.push(IndexedLine { index, line })?;
    }
    lines.sort_unstable_by(|line, other| line.compare(other));
    put_in_order(&mut lines, selection);
    Ok(lines)
}

/// Puts sorted lines into the wanted order.
fn put_in_order(lines: &mut Vec<IndexedLine<'_>>, selection: Selection)
    ensures { seen_lines lines.new.items ≡ in_order selection (seen_lines lines.old.items) }
{
    match selection {
        Selection::Reversed => lines.reverse(),
        Selection::Each | Selection::Highest | Selection::Lowest | Selection::Sorted => {}
    }
}

/// Appends the held lines, sorted by their versions, in the wanted order. `Err` means out of
/// memory.
fn append_sorted(
    alloc: Global,
    held: &[SelectedLine],
    selection: Selection,
    kept: &mut Vec<u8>,
) -> Result<(), AllocError>
    ensures appends { IfOk result (λ _. (sorted : List SelectedValue)
        × IsStableSort (map selected_value held.now) sorted
        × (kept.new.items ≡ kept.old.items ++ text_of (in_order selection sorted))) }
    ensures unchanged { IfErr result (λ _. kept.new.items ≡ kept.old.items) }
{
    let lines = sorted(alloc, held, selection)?;
    append(lines.as_slice(), kept)
}

/// Appends lines as they are. `Err` means out of memory.
fn append(lines: &[IndexedLine<'_>], kept: &mut Vec<u8>) -> Result<(), AllocError>
    ensures appends { IfOk result (λ _. kept.new.items
        ≡ kept.old.items ++ text_of (seen_lines lines.now)) }
    ensures unchanged { IfErr result (λ _. kept.new.items ≡ kept.old.items) }
{
    let begun = kept.len();
    for indexed in lines {
        if let Err(error) = kept.extend_from_slice(indexed.line.bytes.as_slice()) {
            kept.truncate(begun);
            return Err(error);
        }
    }
    Ok(())
}
