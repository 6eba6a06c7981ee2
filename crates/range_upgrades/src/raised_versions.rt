//! The version of a term with the numbers of a newer version.

ghost use Rattle.std.specs.Prelude.{◌≡◌, ◌+◌, ◌^◌, ◌<◌, ◌≤◌, IfSome, None, option_map};
ghost use Rattle.range_terms.specs.Rewriting.{component_with};
ghost use Rattle.range_terms.specs.WrittenTerms.{version_value};
ghost use Rattle.range_upgrades.specs.RaisedVersions.{HasRaised, has_full_form, has_wildcard};
ghost use Rattle.range_upgrades.specs.RaisedVersions.{in_full, raised_number};
ghost use Rattle.range_upgrades.specs.RaisedVersions.{is_above_zero, is_wildcard, is_zero};
ghost use Rattle.range_upgrades.specs.RaisedVersions.{next_bound, next_numbers};
ghost use Rattle.range_upgrades.specs.RaisedVersions.{raised_version};

use range_terms::term::{Component, PartialVersion};
use semver_ranges::dialect::Dialect;
use semver_ranges::operator::Operator;
use semver_versions::version::VersionRef;
use version_sets::Release;

/// How many components a raised version has.
#[derive(Clone, Copy)]
pub(crate) enum Form {
    /// As many as the version that it replaces.
    AsWritten,
    /// Three numbers, if the term means the same with three numbers. This is for pre-releases,
    /// which need three numbers.
    InFull,
}

/// Returns what replaces the version of a term that is raised to a newer version. It is `None` if a
/// number would be above 2^64 - 1.
pub(crate) fn raised_version<'v>(
    dialect: Dialect,
    operator: Operator,
    written: &PartialVersion<'_>,
    version: &VersionRef<'v>,
    form: Form,
) -> Option<PartialVersion<'v>>
    ensures some { IfSome result (λ raised. version_value raised
        ≡ raised_version dialect form operator (version_value written.now) version.now) }
    ensures exists { IfSome result (λ _.
        HasRaised operator (version_value written.now) version.now) }
    ensures none { result ≡ None
        → ¬ (HasRaised operator (version_value written.now) version.now) }
{
    if matches!(operator, Operator::Less) {
        return next_bound(written, version);
    }
    if matches!(form, Form::InFull) && has_full_form(dialect, operator, written) {
        return Some(in_full(written).with_version(version));
    }
    Some(written.with_version(version))
}

/// Returns whether a term with fewer than three numbers may have three of them when it is raised.
fn has_full_form(dialect: Dialect, operator: Operator, written: &PartialVersion<'_>) -> bool
    ensures { result ≡ has_full_form dialect operator (version_value written.now) }
{
    if has_wildcard(written) {
        return false;
    }
    match operator {
        Operator::Caret => true,
        Operator::Tilde => written.minor.is_some(),
        Operator::Bare => matches!(dialect, Dialect::Cargo),
        _ => false,
    }
}

/// Returns whether a version has a wildcard.
fn has_wildcard(written: &PartialVersion<'_>) -> bool
    ensures { result ≡ has_wildcard (version_value written.now) }
{
    is_wildcard(Some(written.major)) || is_wildcard(written.minor) || is_wildcard(written.patch)
}

/// Returns whether a component is written, and is a wildcard.
fn is_wildcard(component: Option<Component>) -> bool
    ensures { result ≡ is_wildcard component }
{
    matches!(component, Some(Component::Wildcard(_)))
}

/// Returns a version with three components. The second and the third are 0.
fn in_full<'t>(written: &PartialVersion<'t>) -> PartialVersion<'t>
    ensures { version_value result ≡ in_full (version_value written.now) }
{
    PartialVersion {
        span: written.span,
        has_v: written.has_v,
        major: written.major,
        minor: Some(Component::Number(0)),
        patch: Some(Component::Number(0)),
        pre: written.pre,
        build: written.build,
    }
}

/// Returns what replaces the version after `<`, which is the next one above the newer version. It
/// is `None` if a number would be above 2^64 - 1.
fn next_bound<'v>(
    written: &PartialVersion<'_>,
    version: &VersionRef<'_>,
) -> Option<PartialVersion<'v>>
    ensures some { IfSome result (λ bound. version_value bound
        ≡ next_bound (version_value written.now) version.now) }
    ensures exists { IfSome result (λ _.
        raised_number (version_value written.now) version.now + 1 < 2 ^ 64) }
    ensures none { result ≡ None
        → 2 ^ 64 ≤ raised_number (version_value written.now) version.now + 1 }
{
    let next = next_numbers(written, version)?;
    Some(PartialVersion {
        span: written.span,
        has_v: written.has_v,
        major: with_number(written.major, next.major),
        minor: with_number_if_written(written.minor, next.minor),
        patch: with_number_if_written(written.patch, next.patch),
        pre: if is_zero(written.pre.as_bytes()) {
            "0"
        } else {
            ""
        },
        build: "",
    })
}

/// Returns whether the identifiers of a pre-release are only `0`.
fn is_zero(pre: &[u8]) -> bool
    ensures { result ≡ is_zero pre.now }
{
    matches!(pre, [b'0'])
}

/// Returns the numbers of the next bound above a newer version. The last number above 0 of the
/// written version says which number is raised by one, or the first one if there is none. What
/// follows it is 0. It is `None` if that number would be above 2^64 - 1.
fn next_numbers(written: &PartialVersion<'_>, version: &VersionRef<'_>) -> Option<Release>
    ensures some { IfSome result (λ next. (next.major, next.minor, next.patch)
        ≡ next_numbers (version_value written.now) version.now) }
    ensures exists { IfSome result (λ _.
        raised_number (version_value written.now) version.now + 1 < 2 ^ 64) }
    ensures none { result ≡ None
        → 2 ^ 64 ≤ raised_number (version_value written.now) version.now + 1 }
{
    let (major, minor, patch) = (version.major(), version.minor(), version.patch());
    if is_above_zero(written.patch) {
        let patch = patch.checked_add(1)?;
        return Some(Release {
            major,
            minor,
            patch,
        });
    }
    if is_above_zero(written.minor) {
        let minor = minor.checked_add(1)?;
        return Some(Release {
            major,
            minor,
            patch: 0,
        });
    }
    let major = major.checked_add(1)?;
    Some(Release {
        major,
        minor: 0,
        patch: 0,
    })
}

/// Returns whether a component is written, and is a number above 0.
fn is_above_zero(component: Option<Component>) -> bool
    ensures { result ≡ is_above_zero component }
{
    match component {
        Some(Component::Number(number)) => number > 0,
        _ => false,
    }
}

/// Returns a component with another number; a wildcard stays as it is.
fn with_number(component: Component, number: u64) -> Component
    ensures { result ≡ component_with number component }
{
    match component {
        Component::Number(_) => Component::Number(number),
        Component::Wildcard(character) => Component::Wildcard(character),
    }
}

/// Returns a component with another number, if it is written; a wildcard stays as it is.
fn with_number_if_written(component: Option<Component>, number: u64) -> Option<Component>
    ensures { result ≡ option_map (component_with number) component }
{
    match component {
        Some(component) => Some(with_number(component, number)),
        None => None,
    }
}
