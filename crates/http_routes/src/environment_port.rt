//! The decision on a request on an environment's port.

ghost use Rattle.std.specs.Prelude.{◌≡◌, true, false, IfOk, MatchOption};
ghost use Rattle.call_types.specs.Within.{IsEnv};
ghost use Rattle.call_types.specs.declared.call.Call.TheVariants as calls;
ghost use Rattle.http_routes.specs.EnvironmentDecisions as spec;
ghost use Rattle.http_routes.specs.Routes.{environment_rows};

use crate::heads::{asks_for_account, extension_name, has_error_type};
use crate::identifiers::{extension_of, request_of};
use crate::refusals::{Cause, refused, wrong_method};
use crate::routes::{EnvironmentRoute, environment_route};
use arn_ids::{Checked, EnvNo, LONGEST_BODY, Text};
use bytes::Bytes;
use call_types::Call;
use decisions::{Decision, Received};
use http::request::Parts;
use lambda_wire::{WireFault, read_register};
use matchit::Router;
use std::alloc::{AllocError, Global};

/// What an extension reports of itself (Extensions API, Init error and Exit error).
#[derive(Clone, Copy)]
pub(crate) enum Report {
    /// It failed in its Init.
    InitError,
    /// It failed, and exits.
    ExitError,
}

/// Returns the bytes of a body, `None` if it is too long.
fn within(body: &Received) -> Option<&Bytes>
    ensures { MatchOption result (spec.is_too_long body.now ≡ true)
        (λ bytes. (bytes.now ≡ body.now) × (spec.is_too_long body.now ≡ false)) }
{
    match body.bytes() {
        Some(bytes) if bytes.len() <= LONGEST_BODY => Some(bytes),
        _ => None,
    }
}

/// Submits a call that carries no bytes, if the body is not too long.
fn submitted(alloc: Global, body: &Received, call: Call) -> Result<Decision, AllocError>
    ensures { IfOk result (λ d. d ≡ spec.submitted body.now call) }
{
    match within(body) {
        Some(_) => Ok(Decision::Submit(call)),
        None => refused(alloc, Cause::TooLarge),
    }
}

/// Decides an Invocation response.
fn response(
    alloc: Global,
    env: EnvNo,
    body: &Received,
    id: Option<u64>,
) -> Result<Decision, AllocError>
    ensures { IfOk result (λ d. d ≡ spec.response env body.now id) }
{
    let Some(id) = id else {
        return refused(alloc, Cause::WrongRequest);
    };
    let Some(bytes) = within(body) else {
        return Ok(Decision::Submit(Call::ResponseTooLarge { env, id }));
    };
    let body = bytes.clone()?;
    Ok(Decision::Submit(Call::Response { env, id, body }))
}

/// Decides an Invocation error.
fn failure(
    alloc: Global,
    env: EnvNo,
    body: &Received,
    id: Option<u64>,
) -> Result<Decision, AllocError>
    ensures { IfOk result (λ d. d ≡ spec.failure env body.now id) }
{
    let Some(id) = id else {
        return refused(alloc, Cause::WrongRequest);
    };
    let Some(bytes) = within(body) else {
        return refused(alloc, Cause::TooLarge);
    };
    let body = bytes.clone()?;
    Ok(Decision::Submit(Call::Failure { env, id, body }))
}

/// Decides an Initialization error.
fn init_failure(alloc: Global, env: EnvNo, body: &Received) -> Result<Decision, AllocError>
    ensures { IfOk result (λ d. d ≡ spec.submitted body.now (calls.InitFailure env body.now)) }
{
    let Some(bytes) = within(body) else {
        return refused(alloc, Cause::TooLarge);
    };
    let body = bytes.clone()?;
    Ok(Decision::Submit(Call::InitFailure { env, body }))
}

/// Decides a Register, given the events that its body asks for.
#[tactic(auto, using(crate::proofs::TooLong::events_too_long))]
fn register(
    alloc: Global,
    env: EnvNo,
    account: bool,
    body: &Received,
    name: Option<Text>,
) -> Result<Decision, AllocError>
    ensures { IfOk result (λ d. d ≡ spec.register env account body.now name) }
{
    let Some(name) = name else {
        return refused(alloc, Cause::MissingHeader);
    };
    let Some(bytes) = within(body) else {
        return refused(alloc, Cause::TooLarge);
    };
    match read_register(alloc, bytes.as_slice()) {
        Ok(events) => Ok(Decision::Submit(Call::Register {
            env,
            name,
            invoke: events.invoke,
            shutdown: events.shutdown,
            account,
        })),
        Err(WireFault::TooLong) => refused(alloc, Cause::TooLarge),
        Err(WireFault::NotJson | WireFault::BadShape) => refused(
            alloc,
            Cause::UnreadableRegistration,
        ),
        Err(WireFault::BadEvent) => refused(alloc, Cause::WrongEvent),
        Err(WireFault::OutOfMemory) => Err(AllocError),
    }
}

/// Decides an extension's Next.
fn ext_next(
    alloc: Global,
    env: EnvNo,
    body: &Received,
    ext: Option<u64>,
) -> Result<Decision, AllocError>
    ensures { IfOk result (λ d. d ≡ spec.ext_next env body.now ext) }
{
    match ext {
        Some(ext) => submitted(alloc, body, Call::ExtNext { env, ext }),
        None => refused(alloc, Cause::UnknownExtension),
    }
}

/// Makes the call of an extension's report.
fn reported(report: Report, env: EnvNo, ext: u64, body: Bytes) -> Call
    ensures { result ≡ spec.reported report env ext body }
{
    match report {
        Report::InitError => Call::ExtInitFailure { env, ext, body },
        Report::ExitError => Call::ExtExitFailure { env, ext, body },
    }
}

/// Decides an extension's report.
fn ext_report(
    alloc: Global,
    env: EnvNo,
    report: Report,
    has_type: bool,
    body: &Received,
    ext: Option<u64>,
) -> Result<Decision, AllocError>
    ensures { IfOk result (λ d. d ≡ spec.ext_report has_type body.now (λ x. spec.reported report env x body.now) ext) }
{
    let Some(ext) = ext else {
        return refused(alloc, Cause::UnknownExtension);
    };
    if !has_type {
        return refused(alloc, Cause::MissingHeader);
    }
    let Some(bytes) = within(body) else {
        return refused(alloc, Cause::TooLarge);
    };
    let body = bytes.clone()?;
    Ok(Decision::Submit(reported(report, env, ext, body)))
}

/// Decides a request on a route, for a method that it has.
#[tactic(auto, unfolding(crate::specs::EnvironmentDecisions::on_environment_route))]
fn on_route(
    alloc: Global,
    config: &Checked,
    salt: u64,
    env: EnvNo,
    parts: &Parts,
    body: &Received,
    route: EnvironmentRoute,
) -> Result<Decision, AllocError>
    requires { IsEnv config.now env }
    ensures { IfOk result (λ d. d ≡ spec.on_environment_route config.now salt env parts.now body.now route) }
{
    match route {
        EnvironmentRoute::Next => submitted(alloc, body, Call::RuntimeNext { env }),
        EnvironmentRoute::Response => {
            let id = request_of(salt, config.function_of(env), parts);
            response(alloc, env, body, id)
        }
        EnvironmentRoute::Failure => {
            let id = request_of(salt, config.function_of(env), parts);
            failure(alloc, env, body, id)
        }
        EnvironmentRoute::InitFailure => init_failure(alloc, env, body),
        EnvironmentRoute::Register => {
            let name = extension_name(alloc, parts)?;
            register(alloc, env, asks_for_account(parts), body, name)
        }
        EnvironmentRoute::ExtNext => {
            let ext = extension_of(salt, env, parts);
            ext_next(alloc, env, body, ext)
        }
        EnvironmentRoute::ExtInitFailure => {
            let ext = extension_of(salt, env, parts);
            ext_report(
                alloc,
                env,
                Report::InitError,
                has_error_type(parts),
                body,
                ext,
            )
        }
        EnvironmentRoute::ExtExitFailure => {
            let ext = extension_of(salt, env, parts);
            ext_report(
                alloc,
                env,
                Report::ExitError,
                has_error_type(parts),
                body,
                ext,
            )
        }
    }
}

/// Decides a request on the port of an environment.
#[tactic(auto, unfolding(crate::specs::EnvironmentDecisions::environment_decision))]
pub(crate) fn environment_decision(
    alloc: Global,
    router: &Router<EnvironmentRoute>,
    config: &Checked,
    salt: u64,
    env: EnvNo,
    parts: &Parts,
    body: &Received,
) -> Result<Decision, AllocError>
    requires routes { router.now ≡ environment_rows }
    requires env { IsEnv config.now env }
    ensures { IfOk result (λ d. d ≡ spec.environment_decision config.now salt env parts.now body.now) }
{
    let Some(route) = environment_route(router, parts.uri.path()) else {
        return refused(alloc, Cause::NotFound);
    };
    let methods = route.methods();
    if !methods.has(parts.method.as_str()) {
        return wrong_method(alloc, methods);
    }
    on_route(alloc, config, salt, env, parts, body, route)
}
