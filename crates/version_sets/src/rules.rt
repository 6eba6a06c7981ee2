//! The three rules for pre-releases, with their numbers and names.

ghost use Rattle.std.specs.Prelude.{◌≡◌, MatchOption, Some};
ghost use Rattle.std.specs.Fmt.{padded};
ghost use Rattle.version_sets.specs.PreReleaseTable.{name_of, number_of};
ghost use Rattle.version_sets.specs.declared.rules.PreReleases.{PreReleases as SomePreReleases};

use std::fmt;

/// Which pre-releases satisfy a range (page `docs::ranges`, "Pre-releases"). Releases count with
/// every rule.
///
/// ```
/// use semver_parser::{satisfies, Dialect, PreReleases};
///
/// let is_in = |rule| satisfies("1.3.0-rc.1", "^1.2", Dialect::Npm.with(rule));
/// assert!(!is_in(PreReleases::ByDialect)? && is_in(PreReleases::Included)?);
/// assert!(!is_in(PreReleases::Excluded)?);
/// # Ok::<(), semver_parser::Error>(())
/// ```
#[derive(Clone, Copy, PartialEq, Eq, Hash, Debug)]
pub enum PreReleases {
    /// No pre-release.
    Excluded,
    /// The default rule of npm and of Cargo's `semver`: a pre-release that satisfies a range by
    /// precedence, if a term of the same range names its three numbers and a pre-release. 1.2.3-rc
    /// satisfies `^1.2.3-beta`, but neither `>=1.2.0` nor `^1.2.0 || =1.2.3-beta`.
    ByDialect,
    /// Every pre-release that satisfies a range by precedence: 1.3.0-rc satisfies `^1.2.0`.
    Included,
}

impl Default for PreReleases {
    ghost use Rattle.std.specs.Prelude.{◌≡◌};
    ghost use Rattle.version_sets.specs.declared.rules.PreReleases.TheVariants.{ByDialect};

    ghost is_default = { λ rule. rule ≡ ByDialect };

    /// Returns [`PreReleases::ByDialect`].
    fn default() -> PreReleases {
        PreReleases::ByDialect
    }
}

impl PreReleases {
    // Determined by: equation.
    /// Returns the number of the rule in C, Python and JavaScript.
    #[must_use]
    pub fn number(self) -> i32
        ensures { result ≡ number_of self }
    {
        match self {
            PreReleases::ByDialect => 0,
            PreReleases::Included => 1,
            PreReleases::Excluded => 2,
        }
    }

    // Determined by: law version_sets::laws::one_rule_of_number.
    /// Returns the rule with a number, or `None` if no rule has it.
    #[must_use]
    pub fn from_number(number: i32) -> Option<PreReleases>
        ensures { MatchOption result (¬ ((it : SomePreReleases) × (number ≡ number_of it)))
            (λ it. number ≡ number_of it) }
    {
        match number {
            0 => Some(PreReleases::ByDialect),
            1 => Some(PreReleases::Included),
            2 => Some(PreReleases::Excluded),
            _ => None,
        }
    }

    // Determined by: equation.
    /// Returns the name of the rule for programs.
    ///
    /// ```
    /// use semver_parser::PreReleases;
    ///
    /// assert_eq!(PreReleases::Included.name(), "included");
    /// ```
    #[must_use]
    pub fn name(self) -> &'static str
        ensures { result.now ≡ name_of self }
    {
        match self {
            PreReleases::ByDialect => "by-dialect",
            PreReleases::Included => "included",
            PreReleases::Excluded => "excluded",
        }
    }
}

// Determined by: equation.
impl fmt::Display for PreReleases {
    ghost output = { λ rule. Some (name_of rule) };

    ghost styled_output = { λ rule spec. Some (padded spec (name_of rule)) };

    /// Writes the name.
    fn fmt<W: fmt::Write>(&self, f: &mut fmt::Formatter<W>) -> fmt::Result {
        f.pad(self.name())
    }
}
