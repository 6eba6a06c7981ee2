//! Laws over the definitions: each is the contract of a function that does nothing.
ghost use Rattle.std.specs.Prelude.{◌≡◌, ◌&&◌, not, [], IsTrue};
ghost use Rattle.std.specs.Ordering.{is_lt};
ghost use Rattle.semver_ranges.specs.declared.range.Compat.{Compat};
ghost use Rattle.semver_texts.specs.Texts.{Text};
ghost use Rattle.semver_ranges.specs.RangeTree.{SetTree, Spells};
ghost use Rattle.semver_texts.specs.Versions.{PlainVersion};
ghost use Rattle.semver_texts.specs.Precedence.{precedence};
ghost use Rattle.semver_ranges.specs.CrateMeaning.{meets_tree};
ghost use Rattle.semver_ranges.specs.RewritingTable.{PlainSet, fits, rewritten};
ghost use Rattle.semver_ranges.specs.ExactBounds.{exact_bound, rewritten_exactly};
ghost use Rattle.semver_ranges.specs.SatisfiedComparators.{is_pre_release_of, meets_set};
ghost use Rattle.semver_ranges.specs.SatisfiedComparators.{meets_tree_or_bounds};
ghost use Rattle.semver_ranges.specs.StatedPreReleases.{meets_set_as_stated, meets_tree_as_stated};
ghost use Rattle.semver_ranges.specs.PrintedRanges.{IsPrintableSet, set_text};

/// No range string has two syntax trees.
pub fn one_tree()
    ensures same_tree { (tree tree' : SetTree) (text : Text) → Spells tree text → Spells tree' text
        → tree ≡ tree' }
{}

/// A version satisfies the comparators of a range string if and only if, in at least one range, it
/// satisfies every term or is a pre-release of that term's raised bound.
pub fn meanings_agree()
    ensures exact { (mode : Compat) (tree : SetTree) (v : PlainVersion) →
        meets_set v (rewritten mode tree) ≡ meets_tree_or_bounds mode tree v }
    // A version that satisfies the string satisfies the comparators.
    ensures implied { (mode : Compat) (tree : SetTree) (v : PlainVersion) →
        IsTrue (meets_tree mode tree v) → IsTrue (meets_set v (rewritten mode tree)) }
    // For releases both are equivalent.
    ensures releases { (mode : Compat) (tree : SetTree) (v : PlainVersion) → v.pre ≡ [] →
        meets_set v (rewritten mode tree) ≡ meets_tree mode tree v }
{}

/// With exact bounds, such as `<2.0.0-0` for a raised `<2.0.0`, there is no exception: a version
/// satisfies the comparators of a range string if and only if it satisfies the string.
pub fn exact_bounds_mean_the_text()
    ensures exact { (mode : Compat) (tree : SetTree) (v : PlainVersion) →
        meets_set v (rewritten_exactly mode tree) ≡ meets_tree mode tree v }
    // Below an exact bound is everything below the bound itself, except the pre-releases of the
    // bound.
    ensures bounds { (bound v : PlainVersion) → bound.pre ≡ [] →
        is_lt (precedence v (exact_bound bound))
        ≡ (is_lt (precedence v bound) && not (is_pre_release_of v (Some bound))) }
{}

/// With exact bounds, comparators also give the default rule of npm and Cargo's `semver` for
/// pre-releases: a version satisfies them by this rule if and only if it satisfies the string by
/// this rule. That is not the definition without the rule.
pub fn stated_pre_releases_mean_the_text()
    ensures exact { (mode : Compat) (tree : SetTree) (v : PlainVersion) →
        meets_set_as_stated v (rewritten_exactly mode tree) ≡ meets_tree_as_stated mode tree v }
    // A version that satisfies the string by the default rule satisfies the string.
    ensures implied { (mode : Compat) (tree : SetTree) (v : PlainVersion) →
        IsTrue (meets_tree_as_stated mode tree v) → IsTrue (meets_tree mode tree v) }
    // For releases both are equivalent.
    ensures releases { (mode : Compat) (tree : SetTree) (v : PlainVersion) → v.pre ≡ [] →
        meets_tree_as_stated mode tree v ≡ meets_tree mode tree v }
{}

/// A printable set is printed as a string with a tree that fits and that is rewritten to the set.
pub fn printed_sets_read_back()
    ensures read_back { (s : PlainSet) → IsPrintableSet s → (tree : SetTree)
        × Spells tree (set_text s)
        × IsTrue (fits s.compat tree) × (rewritten s.compat tree ≡ s) }
{}

/// If a tree spells a string and fits, the set to which it is rewritten is printable.
pub fn returned_sets_are_printable()
    ensures printable { (mode : Compat) (tree : SetTree) (text : Text) → Spells tree text
        → IsTrue (fits mode tree) → IsPrintableSet (rewritten mode tree) }
{}
