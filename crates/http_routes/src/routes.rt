//! The routes of the two kinds of ports.

ghost use Rattle.std.specs.Prelude.{◌≡◌, ◌≢◌, ◌<◌, ◌++◌, ◌∷◌, All, IfOk, IsTrue, MatchOption, OnOk, Some};
ghost use Rattle.http_routes.specs.declared.routes.AccountRoute.TheVariants.{Invoke};
ghost use Rattle.http_routes.specs.declared.routes.EnvironmentRoute.TheVariants.{Response};
ghost use Rattle.http_routes.specs.Methods.{listed};
ghost use Rattle.http_routes.specs.Routes as spec;
ghost use Rattle.http_routes.specs.Routes.{with_route, with_table, environment_rows, account_rows, route_in};

use crate::methods::Methods;
use matchit::{InsertError, Router};
use std::alloc::Global;

/// The path of a Next, which every second request of a runtime has.
const NEXT: &str = "/2018-06-01/runtime/invocation/next";

/// The front of the path of a response, before the invocation's identifier.
pub(crate) const INVOCATION: &str = "/2018-06-01/runtime/invocation/";

/// The front of the path of an Invoke, before the function's name.
pub(crate) const FUNCTIONS: &str = "/2015-03-31/functions/";

/// A route of an environment's port (Runtime API 2018-06-01, Extensions API 2020-01-01).
#[derive(Clone, Copy, Debug, PartialEq, Eq)]
pub enum EnvironmentRoute {
    /// Next invocation.
    Next,
    /// Invocation response.
    Response,
    /// Invocation error.
    Failure,
    /// Initialization error.
    InitFailure,
    /// Registration of an extension.
    Register,
    /// Next event of an extension.
    ExtNext,
    /// Init error of an extension.
    ExtInitFailure,
    /// Exit error of an extension.
    ExtExitFailure,
}

/// A route of the account's port.
#[derive(Clone, Copy, Debug, PartialEq, Eq)]
pub enum AccountRoute {
    /// Invoke (Lambda API 2015-03-31).
    Invoke,
    /// PutFunctionConcurrency and DeleteFunctionConcurrency (Lambda API 2017-10-31).
    Concurrency,
    /// GetFunctionConcurrency (Lambda API 2019-09-30).
    ReadConcurrency,
    /// The stop of the service.
    Stop,
    /// The spindown of an idle environment.
    Spindown,
    /// The account's counts.
    Stats,
    /// The text of the account's history.
    History,
    /// The trace of the account's history.
    Trace,
    /// The account's environments.
    Environments,
    /// The version of the service.
    Version,
    /// The clock that gives the moments of calls.
    Clock,
    /// The clock, set forward.
    AdvanceClock,
    /// The clock, stopped.
    PauseClock,
    /// The clock, started again.
    ResumeClock,
}

impl EnvironmentRoute {
    /// Returns the route's methods.
    pub(crate) fn methods(self) -> Methods
        ensures { listed result ≡ spec.environment_methods self }
    {
        match self {
            EnvironmentRoute::Next | EnvironmentRoute::ExtNext => Methods::Get,
            EnvironmentRoute::Response
            | EnvironmentRoute::Failure
            | EnvironmentRoute::InitFailure
            | EnvironmentRoute::Register
            | EnvironmentRoute::ExtInitFailure
            | EnvironmentRoute::ExtExitFailure => Methods::Post,
        }
    }
}

impl AccountRoute {
    /// Returns the route's methods.
    pub(crate) fn methods(self) -> Methods
        ensures { listed result ≡ spec.account_methods self }
    {
        match self {
            AccountRoute::Concurrency => Methods::DeleteAndPut,
            AccountRoute::Invoke
            | AccountRoute::Stop
            | AccountRoute::Spindown
            | AccountRoute::AdvanceClock
            | AccountRoute::PauseClock
            | AccountRoute::ResumeClock => Methods::Post,
            AccountRoute::ReadConcurrency
            | AccountRoute::Stats
            | AccountRoute::History
            | AccountRoute::Trace
            | AccountRoute::Environments
            | AccountRoute::Version
            | AccountRoute::Clock => Methods::Get,
        }
    }
}

fn add<R: Drop>(router: &mut Router<R>, text: &str, route: R) -> Result<(), InsertError>
    ensures { OnOk result (router.new ≡ with_route text.now route router.old) }
{
    router.insert(text, route)
}

/// Adds the routes of the Runtime API (2018-06-01).
fn add_runtime(router: &mut Router<EnvironmentRoute>) -> Result<(), InsertError>
    ensures { OnOk result (router.new ≡ with_table spec.runtime_table router.old) }
{
    add(router, NEXT, EnvironmentRoute::Next)?;
    add(
        router,
        "/2018-06-01/runtime/invocation/{id}/response",
        EnvironmentRoute::Response,
    )?;
    add(
        router,
        "/2018-06-01/runtime/invocation/{id}/error",
        EnvironmentRoute::Failure,
    )?;
    add(
        router,
        "/2018-06-01/runtime/init/error",
        EnvironmentRoute::InitFailure,
    )
}

/// Adds the routes of the Extensions API (2020-01-01).
fn add_extensions(router: &mut Router<EnvironmentRoute>) -> Result<(), InsertError>
    ensures { OnOk result (router.new ≡ with_table spec.extension_table router.old) }
{
    add(
        router,
        "/2020-01-01/extension/register",
        EnvironmentRoute::Register,
    )?;
    add(
        router,
        "/2020-01-01/extension/event/next",
        EnvironmentRoute::ExtNext,
    )?;
    add(
        router,
        "/2020-01-01/extension/init/error",
        EnvironmentRoute::ExtInitFailure,
    )?;
    add(
        router,
        "/2020-01-01/extension/exit/error",
        EnvironmentRoute::ExtExitFailure,
    )
}

/// Makes the routes of an environment's port. They do not conflict, so it fails only if an
/// allocation fails.
pub(crate) fn environment_routes(alloc: Global) -> Result<Router<EnvironmentRoute>, InsertError>
    ensures { IfOk result (λ router. router ≡ environment_rows) }
{
    let mut router = Router::new(alloc);
    add_runtime(&mut router)?;
    add_extensions(&mut router)?;
    Ok(router)
}

/// Adds the routes of the Lambda API.
fn add_lambda(router: &mut Router<AccountRoute>) -> Result<(), InsertError>
    ensures { OnOk result (router.new ≡ with_table spec.lambda_table router.old) }
{
    add(
        router,
        "/2015-03-31/functions/{name}/invocations",
        AccountRoute::Invoke,
    )?;
    add(
        router,
        "/2017-10-31/functions/{name}/concurrency",
        AccountRoute::Concurrency,
    )?;
    add(
        router,
        "/2019-09-30/functions/{name}/concurrency",
        AccountRoute::ReadConcurrency,
    )
}

/// Adds this service's own routes that only show something.
fn add_views(router: &mut Router<AccountRoute>) -> Result<(), InsertError>
    ensures { OnOk result (router.new ≡ with_table spec.view_table router.old) }
{
    add(router, "/_local/stats", AccountRoute::Stats)?;
    add(router, "/_local/history", AccountRoute::History)?;
    add(router, "/_local/trace", AccountRoute::Trace)?;
    add(router, "/_local/environments", AccountRoute::Environments)?;
    add(router, "/_local/version", AccountRoute::Version)
}

/// Adds the routes of the clock.
fn add_clock(router: &mut Router<AccountRoute>) -> Result<(), InsertError>
    ensures { OnOk result (router.new ≡ with_table spec.clock_table router.old) }
{
    add(router, "/_local/clock", AccountRoute::Clock)?;
    add(router, "/_local/clock/advance", AccountRoute::AdvanceClock)?;
    add(router, "/_local/clock/pause", AccountRoute::PauseClock)?;
    add(router, "/_local/clock/resume", AccountRoute::ResumeClock)
}

/// Adds the routes by which an operator stops something.
fn add_stops(router: &mut Router<AccountRoute>) -> Result<(), InsertError>
    ensures { OnOk result (router.new ≡ with_table spec.stop_table router.old) }
{
    add(router, "/_local/stop", AccountRoute::Stop)?;
    add(router, "/_local/env/{n}/spindown", AccountRoute::Spindown)
}

/// Makes the routes of the account's port. They do not conflict, so it fails only if an allocation
/// fails.
pub(crate) fn account_routes(alloc: Global) -> Result<Router<AccountRoute>, InsertError>
    ensures { IfOk result (λ router. router ≡ account_rows) }
{
    let mut router = Router::new(alloc);
    add_lambda(&mut router)?;
    add_stops(&mut router)?;
    add_views(&mut router)?;
    add_clock(&mut router)?;
    Ok(router)
}

/// States that bytes are numbers below 256.
fn bytes_fit(bytes: &[u8])
    ensures { All (λ b. b < 256) bytes.now }
{}

/// Returns the part of a path between `front` and a slash followed by `back`: its first byte, and
/// the others.
fn part_between<'p>(path: &'p str, front: &str, back: &str) -> Option<(u8, &'p [u8])>
    ensures { MatchOption result Unit (λ p. (p.0 < 256) × (path.now ≡ front.now ++ (p.0 ∷ (p.1.now ++ (47 ∷ back.now))))
        × All (λ b. b ≢ 47) (p.0 ∷ p.1.now)) }
{
    let rest = path.strip_prefix(front)?;
    let (part, after) = rest.split_once('/')?;
    if after == back {
        let bytes = part.as_bytes();
        bytes_fit(bytes);
        let (first, others) = bytes.split_first()?;
        return Some((*first, others));
    }
    None
}

/// Returns whether a path is that of a response. It misses an identifier that begins with an `n`,
/// as `next` does.
fn is_response(path: &str) -> bool
    ensures { IsTrue result → route_in environment_rows path.now ≡ Some Response }
{
    match part_between(path, INVOCATION, "response") {
        Some((first, _)) => first != b'n',
        None => false,
    }
}

/// Returns whether a path is that of an Invoke.
fn is_invoke(path: &str) -> bool
    ensures { IsTrue result → route_in account_rows path.now ≡ Some Invoke }
{
    match part_between(path, FUNCTIONS, "invocations") {
        Some(_) => true,
        None => false,
    }
}

/// Returns the route of an environment's port that a path matches. Those of a Next and of nearly
/// every response are found without the router.
pub(crate) fn environment_route(
    router: &Router<EnvironmentRoute>,
    path: &str,
) -> Option<EnvironmentRoute>
    requires { router.now ≡ environment_rows }
    ensures { result ≡ route_in environment_rows path.now }
{
    if path == NEXT {
        return Some(EnvironmentRoute::Next);
    }
    if is_response(path) {
        return Some(EnvironmentRoute::Response);
    }
    match router.at(path) {
        Ok(found) => Some(*found.value),
        Err(_) => None,
    }
}

/// Returns the route of the account's port that a path matches. That of an Invoke is found without
/// the router.
pub(crate) fn account_route(router: &Router<AccountRoute>, path: &str) -> Option<AccountRoute>
    requires { router.now ≡ account_rows }
    ensures { result ≡ route_in account_rows path.now }
{
    if is_invoke(path) {
        return Some(AccountRoute::Invoke);
    }
    match router.at(path) {
        Ok(found) => Some(*found.value),
        Err(_) => None,
    }
}
