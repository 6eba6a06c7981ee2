//! A term of a range string, as it is written.

ghost use Rattle.std.specs.Prelude.{◌≡◌, option_map};
ghost use Rattle.std.specs.Fmt.{WritesOnOk};
ghost use Rattle.range_terms.specs.Rewriting.{component_with, states_three, with_version};
ghost use Rattle.range_terms.specs.WrittenTerms.{version_value};
ghost use Rattle.semver_versions.specs.VersionOrder.{part_text};
ghost use Rattle.range_terms.specs.WrittenTexts.{dot_text};

use semver_ranges::operator::Operator;
use semver_versions::version::VersionRef;
use std::fmt;
use std::ops::Range;

/// A part of a partial version.
///
/// ```
/// use semver_parser::{terms, Component, Dialect};
///
/// let version = terms("^1.*", Dialect::Npm)?.next().unwrap().version;
/// assert_eq!(version.major, Component::Number(1));
/// assert_eq!(version.minor, Some(Component::Wildcard('*')));
/// # Ok::<(), semver_parser::Error>(())
/// ```
#[derive(Clone, Copy, PartialEq, Eq, Debug)]
pub enum Component {
    /// A number. One above 2^64 - 1, which is possible only after a wildcard, is given as
    /// 2^64 - 1.
    Number(u64),
    /// A wildcard as it is written: `x`, `X` or `*`.
    Wildcard(char),
}

// Determined by: equation.
impl fmt::Display for Component {
    ghost use Rattle.std.specs.Prelude.{Some};
    ghost use Rattle.range_terms.specs.WrittenTexts.{component_text};

    ghost output = { λ component. Some (component_text component) };

    /// Writes the number, or the wildcard as it is written. It does not allocate, and its only
    /// error is the writer's.
    fn fmt<W: fmt::Write>(&self, f: &mut fmt::Formatter<W>) -> fmt::Result {
        match self {
            Component::Number(number) => write!(f, "{number}"),
            Component::Wildcard(character) => write!(f, "{character}"),
        }
    }
}

/// The position of something in a string: the offset of its first byte and the offset after its
/// last.
///
/// ```
/// use semver_parser::{terms, Dialect, Span};
///
/// let term = terms("<1 || ^1.2", Dialect::Npm)?.last().unwrap();
/// assert_eq!(term.span, Span { start: 6, end: 10 });
/// assert_eq!(term.version.span, Span { start: 7, end: 10 });
/// # Ok::<(), semver_parser::Error>(())
/// ```
#[derive(Clone, Copy, PartialEq, Eq, Debug)]
pub struct Span {
    /// The offset of its first byte.
    pub start: usize,
    /// The offset of the byte after it.
    pub end: usize,
}

impl Span {
    // Determined by: equation.
    /// Returns the span as a range of indices: `&string[span.range()]` is the part of the string.
    ///
    /// ```
    /// use semver_parser::Span;
    ///
    /// assert_eq!(&"^1.2"[Span { start: 1, end: 4 }.range()], "1.2");
    /// ```
    #[must_use]
    pub fn range(self) -> Range<usize>
        ensures start { result.start ≡ self.start }
        ensures end { result.end ≡ self.end }
    {
        self.start..self.end
    }
}

/// The version of a term, with one to three components.
///
/// ```
/// use semver_parser::{terms, Component, Dialect, Span};
///
/// let term = terms(">= v1.x", Dialect::Npm)?.next().unwrap();
/// let version = term.version;
/// assert_eq!((version.span, version.has_v), (Span { start: 3, end: 7 }, true));
/// assert_eq!(version.major, Component::Number(1));
/// assert_eq!((version.minor, version.patch), (Some(Component::Wildcard('x')), None));
/// # Ok::<(), semver_parser::Error>(())
/// ```
#[derive(Clone, Copy, PartialEq, Eq, Debug)]
pub struct PartialVersion<'text> {
    /// The position in the string, including a `v`.
    pub span: Span,
    /// Whether it begins with `v`, which only npm's dialect has.
    pub has_v: bool,
    /// The first component.
    pub major: Component,
    /// The second component, if it is written.
    pub minor: Option<Component>,
    /// The third component, if it is written.
    pub patch: Option<Component>,
    /// The pre-release after three components, without its `-`; empty if there is none.
    pub pre: &'text str,
    /// The build metadata after three components, without its `+`; empty if there is none.
    pub build: &'text str,
}

impl<'text> PartialVersion<'text> {
    // Determined by: equation.
    /// Returns the numbers of another version in the form of this one: with as many components,
    /// with its wildcards, and with a `v` if it has one. The pre-release of the other version is
    /// kept if this one has three numbers, and its build metadata is left out. The span stays that
    /// of this version. There the printed result may replace the string (see `Terms::try_parse`).
    ///
    /// ```
    /// use semver_parser::{terms, Dialect, VersionRef};
    ///
    /// let mut range = String::from(">=1.2 || v1.x");
    /// let written = terms(&range, Dialect::Npm)?.last().unwrap().version;
    /// let version = VersionRef::parse("3.1.4-rc.1", Dialect::Npm)?;
    /// let (span, raised) = (written.span, written.with_version(&version).to_string());
    /// assert_eq!(raised, "v3.x");
    /// range.replace_range(span.range(), &raised);
    /// assert_eq!(range, ">=1.2 || v3.x");
    /// # Ok::<(), semver_parser::Error>(())
    /// ```
    #[must_use]
    pub fn with_version<'version>(&self, version: &VersionRef<'version>) -> PartialVersion<'version>
        ensures { version_value result ≡ with_version (version_value self.now) version.now }
    {
        PartialVersion {
            span: self.span,
            has_v: self.has_v,
            major: with_number(self.major, version.major()),
            minor: with_number_if_written(self.minor, version.minor()),
            patch: with_number_if_written(self.patch, version.patch()),
            pre: if self.states_three() {
                version.pre()
            } else {
                ""
            },
            build: "",
        }
    }

    /// Returns whether it has three numbers.
    fn states_three(&self) -> bool
        ensures { result ≡ states_three (version_value self.now) }
    {
        matches!(
            (self.major, self.minor, self.patch),
            (
                Component::Number(_),
                Some(Component::Number(_)),
                Some(Component::Number(_))
            )
        )
    }
}

/// Returns a component with another number; a wildcard stays as it is.
fn with_number(component: Component, number: u64) -> Component
    ensures { result ≡ component_with number component }
{
    match component {
        Component::Number(_) => Component::Number(number),
        Component::Wildcard(character) => Component::Wildcard(character),
    }
}

/// Returns a component with another number, if it is written; a wildcard stays as it is.
fn with_number_if_written(component: Option<Component>, number: u64) -> Option<Component>
    ensures { result ≡ option_map (component_with number) component }
{
    match component {
        Some(component) => Some(with_number(component, number)),
        None => None,
    }
}

// Determined by: equation.
impl<'text> fmt::Display for PartialVersion<'text> {
    ghost use Rattle.std.specs.Prelude.{Some};
    ghost use Rattle.range_terms.specs.WrittenTerms.{version_value};
    ghost use Rattle.range_terms.specs.WrittenTexts.{version_text};

    ghost output = { λ version. Some (version_text (version_value version)) };

    /// Writes the `v` if it has one, the components separated by dots, `-` and the pre-release, and
    /// `+` and the build metadata. It does not allocate, and its only error is the writer's.
    fn fmt<W: fmt::Write>(&self, f: &mut fmt::Formatter<W>) -> fmt::Result {
        let (v, major) = (if self.has_v { "v" } else { "" }, self.major);
        write!(f, "{v}{major}")?;
        write_component(f, self.minor)?;
        write_component(f, self.patch)?;
        write_part(f, "-", self.pre)?;
        write_part(f, "+", self.build)
    }
}

/// Writes a component after a dot, if it is written.
fn write_component<W: fmt::Write>(
    f: &mut fmt::Formatter<W>,
    component: Option<Component>,
) -> fmt::Result
    ensures { WritesOnOk W.write_str_gives f.old result (dot_text component) f.new }
{
    match component {
        Some(component) => write!(f, ".{component}"),
        None => Ok(()),
    }
}

/// Writes a part after its mark, if there is one.
fn write_part<W: fmt::Write>(f: &mut fmt::Formatter<W>, mark: &str, part: &str) -> fmt::Result
    ensures { WritesOnOk W.write_str_gives f.old result (part_text mark.now part.now) f.new }
{
    if part.is_empty() {
        return Ok(());
    }
    write!(f, "{mark}{part}")
}

/// A term of a range, as it is written.
///
/// ```
/// use semver_parser::{terms, Dialect, Operator, Span};
///
/// let term = terms("1 || 1.2 - 2.x", Dialect::Npm)?.nth(1).unwrap();
/// assert_eq!((term.range, term.operator), (1, Operator::Hyphen));
/// assert_eq!(term.span, Span { start: 5, end: 14 });
/// assert_eq!(term.version.span, Span { start: 5, end: 8 });
/// assert_eq!(term.upper.unwrap().span, Span { start: 11, end: 14 });
/// # Ok::<(), semver_parser::Error>(())
/// ```
#[derive(Clone, Copy, PartialEq, Eq, Debug)]
pub struct Term<'text> {
    /// The index of its range: the number of `||` before it.
    pub range: usize,
    /// The operator at its beginning, or that of a hyphen range.
    pub operator: Operator,
    /// The position in the string, from the operator to the end of the last version.
    pub span: Span,
    /// Its version. In a hyphen range, it is the one before the hyphen.
    pub version: PartialVersion<'text>,
    /// The version after the hyphen of a hyphen range, and `None` for any other term.
    pub upper: Option<PartialVersion<'text>>,
}
