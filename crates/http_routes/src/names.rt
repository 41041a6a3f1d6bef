//! The function that a request to the Lambda API is about.

ghost use Rattle.std.specs.Prelude.{◌≡◌, ◌==◌, ◌||◌, if◌then◌else◌, false, ℕ, List, Option, Ok, option_map, is_some};
ghost use Rattle.std.specs.Prelude.{IfOk, IfSome};
ghost use Rattle.arn_ids.specs.Environments.{number_named};
ghost use Rattle.arn_ids.specs.Grammar as grammar;
ghost use Rattle.http_routes.specs.Names as spec;
ghost use Rattle.http_routes.specs.Paths as paths;
ghost use Rattle.http_routes.specs.Views.{text_of};
ghost use Rattle.http_routes.specs.declared.names.Target.TheVariants.{Unknown};

use crate::path::{name_of, qualifier_of};
use arn_ids::{Checked, FnNo, FunctionName, NameFault, is_qualifier};
use http::request::Parts;
use std::alloc::{AllocError, Global};

/// The one version that each function has.
const LATEST: &str = "$LATEST";

/// The function that a request names.
#[derive(Clone, Copy, Debug, PartialEq, Eq)]
pub enum Target {
    /// Its name or its qualifier is malformed.
    Malformed,
    /// There is no such function, or no such version of it.
    Unknown,
    /// A configured function.
    Function {
        /// Its number.
        function: FnNo,
        /// Whether `$LATEST` was named.
        qualified: bool,
    },
}

/// Returns whether a qualifier is absent or well-formed.
fn is_none_or_qualifier(qualifier: Option<&str>) -> bool
    ensures { result ≡ grammar.is_none_or grammar.is_qualifier (option_map text_of qualifier.entry) }
{
    match qualifier {
        None => true,
        Some(text) => is_qualifier(text),
    }
}

/// Returns whether a qualifier is absent or `$LATEST`.
fn is_none_or_latest(qualifier: Option<&str>) -> bool
    ensures { result ≡ grammar.is_none_or grammar.is_latest (option_map text_of qualifier.entry) }
{
    match qualifier {
        None => true,
        Some(text) => text == LATEST,
    }
}

/// Returns a function at a version, if there is such a function and such a version.
fn at_version(qualifier: Option<&str>, function: Option<FnNo>, qualified: bool) -> Target
    ensures { let version : Option (List ℕ) = option_map text_of qualifier.entry
        in result ≡ if grammar.is_none_or grammar.is_latest version
        then spec.numbered (qualified || is_some version) function else Unknown }
{
    if !is_none_or_latest(qualifier) {
        return Target::Unknown;
    }
    match function {
        Some(function) => Target::Function {
            function,
            qualified: qualified || qualifier.is_some(),
        },
        None => Target::Unknown,
    }
}

/// Returns the configured function of a name. The name is then plain: `FunctionName::parse` would
/// give it back as it is.
fn with_plain_name(config: &Checked, name: &str) -> Option<FnNo>
    ensures found { result ≡ number_named config.now name.now }
    ensures plain { IfSome result (λ _. grammar.named_in config.now.home name.now
        ≡ Ok (record { name = name.now; qualified = false })) }
{
    // Each configured name is well formed, as this says.
    let _functions = config.functions();
    config.function_named(name.as_bytes())
}

/// Returns the function that a name stands for.
fn by_name(
    alloc: Global,
    config: &Checked,
    qualifier: Option<&str>,
    name: &str,
) -> Result<Target, AllocError>
    ensures { IfOk result (λ target. target
        ≡ spec.by_name config.now (option_map text_of qualifier.entry) (grammar.named_in config.now.home name.now)) }
{
    // Most requests write the plain name, which needs no copy.
    let plain = with_plain_name(config, name);
    if plain.is_some() {
        return Ok(at_version(qualifier, plain, false));
    }
    match FunctionName::parse(alloc, config.home(), name) {
        Ok(named) => {
            let function = config.function_named(named.name.as_str().as_bytes());
            Ok(at_version(qualifier, function, named.qualified))
        }
        Err(NameFault::Malformed) => Ok(Target::Malformed),
        Err(NameFault::ForeignAccount) => Ok(Target::Unknown),
        Err(NameFault::UnknownQualifier) => Ok(Target::Unknown),
        Err(NameFault::OutOfMemory) => Err(AllocError),
    }
}

#[tactic(auto, unfolding(crate::specs::Names::invoked))]
fn invoked_by(
    alloc: Global,
    config: &Checked,
    name: Option<&str>,
    qualifier: Option<&str>,
) -> Result<Target, AllocError>
    ensures { IfOk result (λ target. target
        ≡ spec.invoked config.now (option_map text_of name.entry) (option_map text_of qualifier.entry)) }
{
    let Some(name) = name else {
        return Ok(Target::Malformed);
    };
    if !is_none_or_qualifier(qualifier) {
        return Ok(Target::Malformed);
    }
    by_name(alloc, config, qualifier, name)
}

/// Returns the function that an Invoke is about, by the name in its path and the first `Qualifier`
/// of its query (Lambda API, Invoke).
pub(crate) fn invoked(alloc: Global, config: &Checked, parts: &Parts) -> Result<Target, AllocError>
    ensures { IfOk result (λ target. target
        ≡ spec.invoked config.now (paths.name_of parts.now) (paths.qualifier_of parts.now)) }
{
    let name = name_of(alloc, parts)?;
    let qualifier = qualifier_of(alloc, parts)?;
    invoked_by(
        alloc,
        config,
        name.as_ref().map(|text| text.as_str()),
        qualifier.as_ref().map(|text| text.as_str()),
    )
}

/// Returns whether a name has a qualifier, which is after one, three or seven colons.
fn has_qualifier(name: &str) -> bool
    ensures { result ≡ spec.has_qualifier name.now }
{
    let colons = name.as_bytes().iter().filter(|b| **b == b':').count();
    colons == 1 || colons == 3 || colons == 7
}

#[tactic(auto, unfolding(crate::specs::Names::reserved))]
fn reserved_by(alloc: Global, config: &Checked, name: Option<&str>) -> Result<Target, AllocError>
    ensures { IfOk result (λ target. target ≡ spec.reserved config.now (option_map text_of name.entry)) }
{
    match name {
        Some(name) if !has_qualifier(name) => by_name(alloc, config, None, name),
        _ => Ok(Target::Malformed),
    }
}

/// Returns the function whose reservation a request is about. Its query is ignored, and its name
/// must not have a qualifier (Lambda API, PutFunctionConcurrency).
pub(crate) fn reserved(alloc: Global, config: &Checked, parts: &Parts) -> Result<Target, AllocError>
    ensures { IfOk result (λ target. target ≡ spec.reserved config.now (paths.name_of parts.now)) }
{
    let name = name_of(alloc, parts)?;
    reserved_by(alloc, config, name.as_ref().map(|text| text.as_str()))
}
