//! A term of a range string as it is written, and where it is.

ghost use Rattle.semver_texts.specs.declared.grammar.Grammar.{Grammar as SomeGrammar};
ghost use Rattle.semver_ranges.specs.CargoGrammar.{read_in};
ghost use Rattle.semver_ranges.specs.TextItems.{FoundTerm};
ghost use Rattle.semver_ranges.specs.Steps.FoundItems.{simple_of};
ghost use Rattle.semver_ranges.specs.Steps.Items.{IsTermOf};
ghost use Rattle.semver_ranges.specs.Steps.CursorViews.{IsSimpleOf};

use crate::grammar::Simple;
use crate::operator::Operator;
use crate::partial::Components;
use semver_texts::grammar::Grammar;

/// A version of a term as it is written.
#[derive(Clone, Copy)]
pub struct RawVersion<'text> {
    /// The string from its first byte on, which is `v` if it has one.
    pub from: &'text [u8],
    /// What follows it.
    pub after: &'text [u8],
    /// Its components.
    pub components: Components<'text>,
}

/// A term as it is written.
#[derive(Clone, Copy)]
pub struct RawTerm<'text> {
    /// The string from its first byte on.
    pub from: &'text [u8],
    /// Its operator.
    pub operator: Operator,
    /// Its version; in a hyphen range, the one before the hyphen.
    pub version: RawVersion<'text>,
    /// The version after the hyphen of a hyphen range.
    pub upper: Option<RawVersion<'text>>,
}

impl<'text> RawTerm<'text> {
    /// Returns the operator that a grammar reads, and the numbers of its version.
    #[inline(always)]
    pub(crate) fn simple(&self, grammar: Grammar) -> Simple<'text>
        requires { (d : SomeGrammar) × (x : FoundTerm) × IsTermOf d x self.now }
        ensures { (d : SomeGrammar) (x : FoundTerm) → IsTermOf d x self.now
            → IsSimpleOf (read_in grammar (simple_of x)) result }
    {
        Simple::of(self.operator, &self.version.components, grammar)
    }
}
