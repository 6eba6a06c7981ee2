//! Laws over the definitions: each is the contract of a function that does nothing. Most laws are
//! in the crates below; here are those about tokens and versions together, and examples.
ghost use Rattle.std.specs.Prelude.{◌≡◌, [], ◌∷◌, true, false, codes, Result};
ghost use Rattle.semver_ranges.specs.declared.range.Compat.{Compat};
ghost use Rattle.semver_ranges.specs.declared.range.Compat.TheVariants.{Cargo, Npm};
ghost use Rattle.semver_texts.specs.Texts.{Text};
ghost use Rattle.semver_texts.specs.Versions.{VersionValue, numeric, alphanumeric};
ghost use Rattle.semver_texts.specs.VersionGrammar.{IsVersionText, SpellsVersion};
ghost use Rattle.semver_tokens.specs.ParserState.{ErrorValue};
ghost use Rattle.semver_tokens.specs.VersionReading.{IsOutcomeOf};
ghost use Rattle.semver_parser.specs.Examples.{IsMet, IsMetAsStated, release, version};

pub use semver_ranges::laws::{
    exact_bounds_mean_the_text, meanings_agree, one_tree, printed_sets_read_back,
    returned_sets_are_printable, stated_pre_releases_mean_the_text,
};
pub use semver_texts::laws::precedence_is_total;
pub use semver_tokens::laws::one_token_list;
pub use semver_versions::laws::{one_borrowed_version, one_version, one_version_in};

/// Reading a string as a version has only one outcome.
pub fn one_outcome()
    ensures same_outcome { (text : Text) (x y : Result VersionValue ErrorValue) → IsOutcomeOf text x
        → IsOutcomeOf text y → x ≡ y }
{}

/// Which versions satisfy some ranges: first the string, and then its comparators.
pub fn row_facts()
    // A version keeps `01` as a string, and a range as a number, so the version `1.2.3-01` doesn't
    // satisfy `=1.2.3-01`.
    ensures leading_zero { IsVersionText (codes "1.2.3-01") × ((mode : Compat) (v : VersionValue)
        → SpellsVersion v (codes "1.2.3-01")
        → IsMet (codes "=1.2.3-01") mode v.plain false false) }
    ensures later_pre_release { (mode : Compat)
        → IsMet (codes "^1.2.3-beta.4") mode (version 1 2 3 (alphanumeric (codes "rc") ∷ [])) true
        true }
    ensures later_minor { (mode : Compat) → IsMet (codes "^1.2.3-beta.4") mode
        (release 1 9 0) true true }
    ensures earlier_pre_release { (mode : Compat)
        → IsMet (codes "^1.2.3-beta.4") mode (version 1 2 3
        (alphanumeric (codes "beta") ∷ numeric 3 ∷ [])) false false }
    ensures pre_release_of_the_bound { (mode : Compat)
        → IsMet (codes "^1.2.3-beta.4") mode (version 2 0 0 (alphanumeric (codes "alpha") ∷ []))
        false true }
    ensures caret_keeps_the_minor { IsMet (codes "^0.2.3") Cargo (release 0 9 0) false false }
    ensures bare_is_exact { IsMet (codes "1.2.3") Npm (release 1 3 0) false false }
    ensures bound_of_at_most { (mode : Compat)
        → IsMet (codes "<=1.2") mode (version 1 3 0 (alphanumeric (codes "a") ∷ [])) false true }
    ensures at_most_keeps_patches { (mode : Compat)
        → IsMet (codes "<=1.2") mode (release 1 2 9) true true }
    ensures below_the_release { (mode : Compat)
        → IsMet (codes "~1") mode (version 1 0 0 (alphanumeric (codes "a") ∷ [])) false false }
    ensures below_zero { (mode : Compat) → IsMet (codes "<*") mode
        (version 0 0 0 (alphanumeric (codes "a") ∷ [])) true true }
    ensures bound_of_one_term { (mode : Compat)
        → IsMet (codes "^1 <=1.5") mode (version 1 6 0 (alphanumeric (codes "rc") ∷ [])) false
        true }
{}

/// Which pre-releases satisfy some ranges: first without a rule for pre-releases, and then by the
/// default rule.
pub fn stated_row_facts()
    ensures stated { (mode : Compat)
        → IsMetAsStated (codes "^1.2.3-beta.4") mode
        (version 1 2 3 (alphanumeric (codes "rc") ∷ [])) true true }
    ensures other_numbers { (mode : Compat)
        → IsMetAsStated (codes "^1.2.3-beta.4") mode
        (version 1 3 0 (alphanumeric (codes "rc") ∷ [])) true false }
    // Any term of the range may name the pre-release's numbers.
    ensures another_term { (mode : Compat)
        → IsMetAsStated (codes ">=1.2.3 <1.2.4-rc") mode
        (version 1 2 4 (alphanumeric (codes "a") ∷ [])) true true }
    // A term of another range doesn't count.
    ensures another_range { (mode : Compat)
        → IsMetAsStated (codes "=2.0.1-a || >=2.0.0") mode
        (version 2 0 1 (alphanumeric (codes "b") ∷ [])) true false }
    ensures side { (mode : Compat)
        → IsMetAsStated (codes "1.2.3-a - 2") mode
        (version 1 2 3 (alphanumeric (codes "b") ∷ [])) true true }
    // The right side is `<=2`, which names no pre-release.
    ensures other_side { (mode : Compat)
        → IsMetAsStated (codes "1.2.3-a - 2") mode
        (version 2 0 0 (alphanumeric (codes "b") ∷ [])) true false }
    // The term names only two numbers, so the pre-release doesn't count.
    ensures wildcard { (mode : Compat)
        → IsMetAsStated (codes "~1.2.*-a") mode
        (version 1 2 1 (alphanumeric (codes "b") ∷ [])) true false }
    ensures numbers_alone { (mode : Compat)
        → IsMetAsStated (codes "<2.0.0") mode
        (version 2 0 0 (alphanumeric (codes "alpha") ∷ [])) true false }
{}
