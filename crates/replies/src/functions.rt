//! The configuration of a function, with empty values if there is no such function.

ghost use Rattle.std.specs.Prelude.{◌≡◌, IfOk, string_bytes};
ghost use Rattle.arn_ids.specs.Environments.{function_of as function_of_env};
ghost use Rattle.http_header.specs.FieldValue.{IsFieldValue};
ghost use Rattle.replies.specs.Words as spec;

use crate::calls::is_qualified;
use arn_ids::{Checked, EnvNo, FnNo};
use call_model::{Call, function_in, function_name};
use std::alloc::{AllocError, Global};

/// Returns the number of an environment's function.
#[tactic(auto, using(call_model::proofs::NoFunction::no_owner))]
fn function_of(config: &Checked, env: EnvNo) -> FnNo
    ensures { result ≡ function_of_env config.now env }
{
    if env == 0 {
        return 0;
    }
    if env > config.environments() {
        return 0;
    }
    config.function_of(env)
}

/// Returns the number of the function that a call invokes, 0 if it isn't an Invoke.
pub(crate) fn function_number(call: &Call) -> FnNo
    ensures { result ≡ spec.function_number call.now }
{
    call.function().unwrap_or(0)
}

/// Returns the timeout of the function that a call invokes, in seconds.
pub(crate) fn timeout_s(config: &Checked, call: &Call) -> u32
    ensures { result ≡ (spec.invoked_function config.now call.now).timeout_s }
{
    match function_in(config, function_number(call)) {
        Some(function) => function.timeout_s,
        None => 0,
    }
}

/// Returns the ARN under which an Invoke names its function.
pub(crate) fn arn_text(alloc: Global, config: &Checked, call: &Call) -> Result<String, AllocError>
    ensures value { IfOk result (λ text. string_bytes text ≡ spec.arn_text config.now call.now) }
    ensures fits { IsFieldValue (spec.arn_text config.now call.now) }
{
    let name = function_name(config, function_number(call));
    arn_ids::arn_text(alloc, config.home(), name, is_qualified(call))
}

/// Returns the name and the handler of the function of the environment that a call names.
pub(crate) fn env_function<'a>(config: &'a Checked, call: &Call) -> (&'a str, &'a str)
    ensures name { result.0.now ≡ (spec.env_function config.now call.now).name }
    ensures handler { result.1.now ≡ (spec.env_function config.now call.now).handler }
{
    let env = call.environment().unwrap_or(0);
    match function_in(config, function_of(config, env)) {
        Some(function) => (function.name.as_str(), function.handler.as_str()),
        None => ("", ""),
    }
}
