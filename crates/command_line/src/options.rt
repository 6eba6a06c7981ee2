//! The options for the dialect, `--dialect`, `--as` and `--npm`, and for pre-releases,
//! `--include-prerelease`, `--releases-only` and their short forms.

ghost use Rattle.std.specs.Prelude.{◌≡◌, ◌≢◌, ◌++◌, codes, Ok, None, Some, true, false};
ghost use Rattle.std.specs.Prelude.{IfErr, IfOk, string_bytes};
ghost use Rattle.std.specs.Fn.{FnOnceReturnsAt};
ghost use Rattle.std.specs.Option.{is_some};
ghost use Rattle.semver_parser.specs.Texts.{Text};
ghost use Rattle.version_sets.specs.declared.PreReleases.{PreReleases};
ghost use Rattle.semver_ranges.specs.DialectTable.{name_of};
ghost use Rattle.semver_ranges.specs.declared.dialect.Dialect.{Dialect};
ghost use Rattle.command_line.specs.Options.{AsksFor, Fails, IsDialectName, IsOption, Names};
ghost use Rattle.command_line.specs.Options.{TellsContradiction, TellsTwice, TellsUnknown};
ghost use Rattle.command_line.specs.Options.{IsOptionOf, WantsName, dialect_option_of, meant};
ghost use Rattle.command_line.specs.Options.{HasValue, TellsNotTaken, name_in};
ghost use Rattle.command_line.specs.Options.{no_options};

use crate::error::{ArgumentError, Quoted};
use semver_ranges::dialect::Dialect;
use std::alloc::Global;
use std::marker::Model;
use tool_ranges::meaning::Rules;
use version_sets::PreReleases;

/// The state of the options that were taken so far: the dialect, and which pre-releases count.
#[derive(Drop)]
pub struct MeaningOptions {
    /// The dialect that was requested, and the option that requested it.
    dialect: Option<(Dialect, &'static str)>,
    /// The rule for pre-releases that was requested, and the option that requested it.
    rule: Option<(PreReleases, &'static str)>,
    /// Whether the next argument names the dialect.
    wants_name: bool,
}

impl Model for MeaningOptions {
    ghost use Rattle.std.specs.Option.{option_map};
    ghost use Rattle.command_line.specs.Options.{OptionsValue};

    ghost Value = { OptionsValue };

    ghost view = { λ o. record {
      dialect = option_map (λ asked. (asked.0, asked.1.now)) o.dialect;
      rule = option_map (λ asked. (asked.0, asked.1.now)) o.rule;
      wants_name = o.wants_name;
    } };
}

impl MeaningOptions {
    // Determined by: equation.
    /// Returns the state without any option.
    pub fn new() -> MeaningOptions
        ensures { result ≡ no_options }
    {
        MeaningOptions {
            dialect: None,
            rule: None,
            wants_name: false,
        }
    }

    // Determined by: free, UnknownDialect or OutOfMemory: ../../tests/runs/release-filter.
    /// Takes an argument. Returns whether it is one of these options, or the name after `--dialect`
    /// or `--as`. Other arguments are left to the program.
    ///
    /// # Errors
    ///
    /// `UnknownDialect` for a name that no dialect has; only this error can be replaced by
    /// `OutOfMemory`. `Contradiction` if an earlier option has another value, and `GivenTwice` if
    /// it has the same value and is about pre-releases; both name the long forms. After an error
    /// the options are those before it, and no name is expected.
    pub fn take(&mut self, alloc: Global, argument: &str) -> Result<bool, ArgumentError>
        // A name after `--dialect` requests that dialect, if none was requested before.
        ensures dialect { (dialect : Dialect) → Names self.old argument.now (name_of dialect)
            → self.old.dialect ≡ None
            → (result ≡ Ok true) × (self.new ≡ record self.old {
              dialect = Some (dialect, dialect_option_of dialect);
              wants_name = false;
            }) }
        // After `--dialect` or `--as` a name is expected.
        ensures wants_name { WantsName argument.now → self.old.wants_name ≡ false
            → (result ≡ Ok true) × (self.new ≡ record self.old { wants_name = true }) }
        // `--npm` requests npm's dialect, if none was requested before.
        ensures npm { argument.now ≡ codes "--npm" → self.old.wants_name ≡ false
            → self.old.dialect ≡ None → (result ≡ Ok true)
            × (self.new ≡ record self.old { dialect = Some (Dialect.Npm, codes "--npm") }) }
        // An option for pre-releases requests its rule, if none was requested before.
        ensures rule { (rule : PreReleases) (option : Text) → IsOptionOf rule option argument.now
            → self.old.wants_name ≡ false → self.old.rule ≡ None
            → (result ≡ Ok true) × (self.new ≡ record self.old { rule = Some (rule, option) }) }
        // Other arguments are left to the program.
        ensures left { self.old.wants_name ≡ false → ¬ (IsOption argument.now) → result ≡ Ok false }
        // An argument that is left to the program changes nothing.
        ensures other { result ≡ Ok false → self.new ≡ self.old }
        // A name that no dialect has is an error.
        ensures unknown { (name : Text) → Names self.old argument.now name
            → ¬ (IsDialectName name) → Fails (TellsUnknown name) result }
        // The dialect that was requested before may be requested again.
        ensures dialect_again { (dialect : Dialect) (option earlier : Text)
            → AsksFor self.old argument.now dialect option
            → self.old.dialect ≡ Some (dialect, earlier)
            → (result ≡ Ok true) × (self.new ≡ record self.old { wants_name = false }) }
        // Another dialect contradicts it.
        ensures two_dialects { (dialect other : Dialect) (option earlier : Text)
            → AsksFor self.old argument.now dialect option
            → self.old.dialect ≡ Some (other, earlier) → dialect ≢ other
            → Fails (TellsContradiction option earlier) result }
        // A rule that was requested before is given twice.
        ensures rule_twice { (rule : PreReleases) (option earlier : Text)
            → IsOptionOf rule option argument.now
            → self.old.wants_name ≡ false → self.old.rule ≡ Some (rule, earlier)
            → Fails (TellsTwice option) result }
        // Another rule contradicts it.
        ensures two_rules { (rule other : PreReleases) (option earlier : Text)
            → IsOptionOf rule option argument.now
            → self.old.wants_name ≡ false → self.old.rule ≡ Some (other, earlier) → rule ≢ other
            → Fails (TellsContradiction option earlier) result }
        // After an error no name is expected, and what was requested is as it was.
        ensures error { IfErr result (λ _. self.new ≡ record self.old { wants_name = false }) }
    {
        if self.wants_name {
            self.wants_name = false;
            self.set_dialect_by_name(alloc, argument)?;
            return Ok(true);
        }
        if let Some(name) = argument.strip_prefix("--dialect=") {
            self.set_dialect_by_name(alloc, name)?;
            return Ok(true);
        }
        if let Some(name) = argument.strip_prefix("--as=") {
            self.set_dialect_by_name(alloc, name)?;
            return Ok(true);
        }
        match argument {
            "--dialect" | "--as" => self.wants_name = true,
            "--npm" => self.set_dialect(Dialect::Npm, "--npm")?,
            "--releases-only" | "--releases" => {
                self.set_pre_releases(PreReleases::Excluded, "--releases-only")?;
            }
            "--include-prerelease" | "--pre" => {
                self.set_pre_releases(PreReleases::Included, "--include-prerelease")?;
            }
            _ => return Ok(false),
        }
        Ok(true)
    }

    // Determined by: equation.
    /// Returns whether an option requested a dialect.
    pub fn has_dialect(&self) -> bool
        ensures { result ≡ is_some self.now.dialect }
    {
        self.dialect.is_some()
    }

    // Determined by: equation.
    /// Returns the meaning, once all options are taken. Without options it is Cargo's dialect with
    /// the default rule for pre-releases.
    ///
    /// # Errors
    ///
    /// `NoDialect` if nothing followed `--dialect` or `--as`.
    pub fn finish(self) -> Result<Rules, ArgumentError>
        ensures { result ≡ meant self }
    {
        if self.wants_name {
            return Err(ArgumentError::NoDialect);
        }
        Ok(Rules {
            dialect: self.dialect.map_or(Dialect::Cargo, |(dialect, _)| dialect),
            pre_releases: self.rule.map_or(PreReleases::ByDialect, |(rule, _)| rule),
        })
    }

    /// Takes the dialect with a name.
    fn set_dialect_by_name(&mut self, alloc: Global, name: &str) -> Result<(), ArgumentError>
        ensures known { (dialect : Dialect) → name.now ≡ name_of dialect
            → self.old.dialect ≡ None → IfErr result (λ _. ⊥) }
        ensures asked { (dialect : Dialect) → name.now ≡ name_of dialect
            → self.old.dialect ≡ None → IfOk result (λ _. self.new
            ≡ record self.old { dialect = Some (dialect, dialect_option_of dialect) }) }
        ensures unknown { ¬ (IsDialectName name.now) → Fails (TellsUnknown name.now) result }
        ensures again { (dialect : Dialect) (earlier : Text) → name.now ≡ name_of dialect
            → self.old.dialect ≡ Some (dialect, earlier)
            → IfErr result (λ _. ⊥) × (self.new ≡ self.old) }
        ensures contradiction { (dialect other : Dialect) (earlier : Text)
            → name.now ≡ name_of dialect → self.old.dialect ≡ Some (other, earlier)
            → dialect ≢ other
            → Fails (TellsContradiction (dialect_option_of dialect) earlier) result }
        ensures error { IfErr result (λ _. self.new ≡ self.old) }
    {
        match name {
            "cargo" => self.set_dialect(Dialect::Cargo, "--dialect cargo"),
            "npm" => self.set_dialect(Dialect::Npm, "--dialect npm"),
            "crate-cargo" => self.set_dialect(Dialect::CrateCargo, "--dialect crate-cargo"),
            "crate-npm" => self.set_dialect(Dialect::CrateNpm, "--dialect crate-npm"),
            _ => Err(ArgumentError::UnknownDialect(Quoted {
                text: name.to_string(alloc)?,
            })),
        }
    }

    /// Takes the dialect that an option requests; an earlier one may have requested it, too.
    fn set_dialect(&mut self, dialect: Dialect, option: &'static str) -> Result<(), ArgumentError>
        ensures first { self.old.dialect ≡ None → IfErr result (λ _. ⊥) }
        ensures asked { self.old.dialect ≡ None → IfOk result (λ _. self.new
            ≡ record self.old { dialect = Some (dialect, option.now) }) }
        ensures again { (earlier : Text) → self.old.dialect ≡ Some (dialect, earlier)
            → IfErr result (λ _. ⊥) × (self.new ≡ self.old) }
        ensures contradiction { (other : Dialect) (earlier : Text)
            → self.old.dialect ≡ Some (other, earlier) → dialect ≢ other
            → Fails (TellsContradiction option.now earlier) result }
        ensures error { IfErr result (λ _. self.new ≡ self.old) }
    {
        let earlier = self.dialect;
        match earlier {
            Some((earlier, _)) if earlier == dialect => Ok(()),
            Some((_, earlier)) => Err(ArgumentError::Contradiction(option, earlier)),
            None => {
                self.dialect = Some((dialect, option));
                Ok(())
            }
        }
    }

    /// Takes the rule for pre-releases that an option requests.
    fn set_pre_releases(
        &mut self,
        rule: PreReleases,
        option: &'static str,
    ) -> Result<(), ArgumentError>
        ensures first { self.old.rule ≡ None → IfErr result (λ _. ⊥) }
        ensures asked { IfOk result (λ _. self.new
            ≡ record self.old { rule = Some (rule, option.now) }) }
        ensures twice { (earlier : Text) → self.old.rule ≡ Some (rule, earlier)
            → Fails (TellsTwice option.now) result }
        ensures contradiction { (other : PreReleases) (earlier : Text)
            → self.old.rule ≡ Some (other, earlier) → rule ≢ other
            → Fails (TellsContradiction option.now earlier) result }
        ensures error { IfErr result (λ _. self.new ≡ self.old) }
    {
        let earlier = self.rule;
        match earlier {
            Some((earlier, _)) if earlier == rule => Err(ArgumentError::GivenTwice(option)),
            Some((_, earlier)) => Err(ArgumentError::Contradiction(option, earlier)),
            None => {
                self.rule = Some((rule, option));
                Ok(())
            }
        }
    }
}

// Determined by: equation.
/// Takes an option without a value.
///
/// # Errors
///
/// `GivenTwice` if it was given before.
pub fn take_once(option: &'static str, is_given: &mut bool) -> Result<(), ArgumentError>
    ensures first { is_given.old ≡ false → IfErr result (λ _. ⊥) }
    ensures twice { is_given.old ≡ true → Fails (TellsTwice option.now) result }
    ensures given { is_given.new ≡ true }
{
    if *is_given {
        return Err(ArgumentError::GivenTwice(option));
    }
    *is_given = true;
    Ok(())
}

impl ArgumentError {
    // Determined by: equation.
    /// Returns whether an option has a value after `=`, and what is before that is an option, as
    /// `is_known` says.
    pub fn has_needless_value<F: FnOnce(&str) -> bool>(option: &str, is_known: F) -> bool
        requires { F.IsAlwaysCallable is_known }
        ensures without_value { ¬ (HasValue option.now) → result ≡ false }
        ensures with_value { HasValue option.now
            → FnOnceReturnsAt F.FnOnce is_known (name_in option.now) result }
    {
        match option.split_once('=') {
            Some((name, _)) => is_known(name),
            None => false,
        }
    }

    // Determined by: equation.
    /// Returns the error of an option that isn't taken, with or without a needless value.
    pub fn not_taken(option: String, has_needless_value: bool) -> ArgumentError
        ensures { TellsNotTaken has_needless_value (string_bytes option) result }
    {
        let option = Quoted { text: option };
        if has_needless_value {
            ArgumentError::NeedlessValue(option)
        } else {
            ArgumentError::UnknownOption(option)
        }
    }
}
