//! The decision on a request on the account's port.

ghost use Rattle.std.specs.Prelude.{◌≡◌, codes, bytes_eq, Some, IfOk};
ghost use Rattle.lambda_wire.specs.Requests.{read_count};
ghost use Rattle.http_routes.specs.AccountDecisions as spec;
ghost use Rattle.http_routes.specs.Names as names;
ghost use Rattle.http_routes.specs.Paths as paths;
ghost use Rattle.http_routes.specs.Methods.{put};
ghost use Rattle.http_routes.specs.Routes.{account_rows};

use crate::heads::{is_synchronous, trace};
use crate::names::{Target, invoked, reserved};
use crate::path::{asked_of, from_of, only_of, path_part};
use crate::refusals::{Cause, refused, wrong_method};
use crate::routes::{AccountRoute, account_route};
use arn_ids::{Checked, EnvNo, FnNo, GREATEST_MOMENT, read_environment, read_number};
use call_types::Call;
use decisions::{ClockRequest, Decision, Received, Shown, TraceQuery};
use http::request::Parts;
use lambda_wire::{PayloadScratch, WireFault, read_invoke_body, read_reservation};
use matchit::Router;
use std::alloc::{AllocError, Global};

/// Decides an Invoke of a function, with the body as its payload.
#[tactic(auto, using(crate::proofs::TooLong::payload_long))]
fn invoke(
    alloc: Global,
    scratch: &mut PayloadScratch,
    parts: &Parts,
    body: &Received,
    function: FnNo,
    qualified: bool,
) -> Result<Decision, AllocError>
    ensures { IfOk result (λ d. d ≡ spec.invoke parts.now body.now function qualified) }
{
    if !is_synchronous(parts) {
        return refused(alloc, Cause::WrongInvocationType);
    }
    let Some(bytes) = body.bytes() else {
        return refused(alloc, Cause::PayloadTooLarge);
    };
    match read_invoke_body(alloc, scratch, bytes) {
        Ok(body) => Ok(Decision::Submit(Call::Invoke {
            function,
            qualified,
            trace: trace(alloc, parts)?,
            body,
        })),
        Err(WireFault::TooLong) => refused(alloc, Cause::PayloadTooLarge),
        Err(WireFault::NotJson | WireFault::BadShape | WireFault::BadEvent) => {
            refused(alloc, Cause::UnreadablePayload)
        }
        Err(WireFault::OutOfMemory) => Err(AllocError),
    }
}

/// Decides a PutFunctionConcurrency, given the count that its body asks for.
#[tactic(auto, using(crate::proofs::TooLong::count_long))]
fn reserve(alloc: Global, body: &Received, function: FnNo) -> Result<Decision, AllocError>
    ensures { IfOk result (λ d. d ≡ spec.reserve function (read_count body.now)) }
{
    let Some(bytes) = body.bytes() else {
        return refused(alloc, Cause::PayloadTooLarge);
    };
    match read_reservation(alloc, bytes.as_slice()) {
        Ok(count) => Ok(Decision::Submit(Call::Reserve {
            function,
            count: Some(count),
        })),
        Err(WireFault::TooLong) => refused(alloc, Cause::PayloadTooLarge),
        Err(WireFault::NotJson | WireFault::BadShape | WireFault::BadEvent) => {
            refused(alloc, Cause::UnreadableReservation)
        }
        Err(WireFault::OutOfMemory) => Err(AllocError),
    }
}

/// Decides an Invoke.
fn on_invoke(
    alloc: Global,
    scratch: &mut PayloadScratch,
    config: &Checked,
    parts: &Parts,
    body: &Received,
) -> Result<Decision, AllocError>
    ensures { IfOk result (λ d. d
        ≡ spec.about (names.invoked config.now (paths.name_of parts.now) (paths.qualifier_of parts.now))
        (spec.invoke parts.now body.now)) }
{
    match invoked(alloc, config, parts)? {
        Target::Malformed => refused(alloc, Cause::MalformedName),
        Target::Unknown => refused(alloc, Cause::UnknownFunction),
        Target::Function {
            function,
            qualified,
        } => invoke(alloc, scratch, parts, body, function, qualified),
    }
}

/// Decides a PutFunctionConcurrency, or otherwise a DeleteFunctionConcurrency, whose body is
/// ignored.
fn on_concurrency(
    alloc: Global,
    config: &Checked,
    parts: &Parts,
    body: &Received,
) -> Result<Decision, AllocError>
    ensures { IfOk result (λ d. d
        ≡ spec.about (names.reserved config.now (paths.name_of parts.now))
        (spec.set_reservation (bytes_eq parts.now.method put) body.now)) }
{
    match reserved(alloc, config, parts)? {
        Target::Malformed => refused(alloc, Cause::MalformedName),
        Target::Unknown => refused(alloc, Cause::UnknownFunction),
        Target::Function { function, .. } => {
            if parts.method.as_str() == "PUT" {
                return reserve(alloc, body, function);
            }
            Ok(Decision::Submit(Call::Reserve {
                function,
                count: None,
            }))
        }
    }
}

/// Decides a GetFunctionConcurrency, whose body is ignored.
fn on_read_concurrency(
    alloc: Global,
    config: &Checked,
    parts: &Parts,
) -> Result<Decision, AllocError>
    ensures { IfOk result (λ d. d
        ≡ spec.about (names.reserved config.now (paths.name_of parts.now)) spec.show_reservation) }
{
    match reserved(alloc, config, parts)? {
        Target::Malformed => refused(alloc, Cause::MalformedName),
        Target::Unknown => refused(alloc, Cause::UnknownFunction),
        Target::Function { function, .. } => { Ok(Decision::Show(Shown::Reservation { function })) }
    }
}

/// Returns the environment that a path names.
fn environment_of(config: &Checked, parts: &Parts) -> Option<EnvNo>
    ensures { result ≡ spec.environment_of config.now parts.now }
{
    read_environment(config, path_part(parts.uri.path(), 3)?.as_bytes())
}

/// Decides the spindown of an environment. If there is no environment of this number, the path is
/// not found.
fn spindown(alloc: Global, config: &Checked, parts: &Parts) -> Result<Decision, AllocError>
    ensures { IfOk result (λ d. d ≡ spec.spindown parts.now (spec.environment_of config.now parts.now)) }
{
    let Some(env) = environment_of(config, parts) else {
        return refused(alloc, Cause::NotFound);
    };
    let methods = AccountRoute::Spindown.methods();
    if !methods.has(parts.method.as_str()) {
        return wrong_method(alloc, methods);
    }
    Ok(Decision::Submit(Call::Spindown { env }))
}

/// Decides to show the history: from the ticket in the query's first `from`, or whole.
fn show_history(alloc: Global, parts: &Parts) -> Result<Decision, AllocError>
    ensures { IfOk result (λ d. d ≡ spec.show_history (paths.from_of parts.now)) }
{
    let Some(text) = from_of(alloc, parts)? else {
        return Ok(Decision::Show(Shown::History { from: None }));
    };
    match read_number(text.as_str().as_bytes(), u64::MAX) {
        Some(ticket) => Ok(Decision::Show(Shown::History { from: Some(ticket) })),
        None => refused(alloc, Cause::WrongTicket),
    }
}

/// Returns the ticket from which a trace begins, or `None` if the query's first `from` is not a ticket.
fn first_of(alloc: Global, parts: &Parts) -> Result<Option<u64>, AllocError>
    ensures { IfOk result (λ first. first ≡ spec.first_of (paths.from_of parts.now)) }
{
    let Some(text) = from_of(alloc, parts)? else {
        return Ok(Some(0));
    };
    Ok(read_number(text.as_str().as_bytes(), u64::MAX))
}

/// Returns whether the query has this parameter with this value, or `None` if it has it with another
/// one.
fn is_said(
    alloc: Global,
    parts: &Parts,
    name: &str,
    value: &str,
) -> Result<Option<bool>, AllocError>
    ensures { IfOk result (λ said. said ≡ spec.is_said value.now (paths.asked_of name.now parts.now)) }
{
    let Some(text) = asked_of(alloc, parts, name)? else {
        return Ok(Some(false));
    };
    if text.as_str() == value {
        return Ok(Some(true));
    }
    Ok(None)
}

/// Decides to show the trace, by the query's first `from`, `follow` and `bodies`.
fn show_trace(alloc: Global, parts: &Parts) -> Result<Decision, AllocError>
    ensures { IfOk result (λ d. d ≡ spec.show_trace parts.now) }
{
    let Some(from) = first_of(alloc, parts)? else {
        return refused(alloc, Cause::WrongTicket);
    };
    let Some(follow) = is_said(alloc, parts, "follow", "1")? else {
        return refused(alloc, Cause::WrongFollow);
    };
    let Some(bare) = is_said(alloc, parts, "bodies", "none")? else {
        return refused(alloc, Cause::WrongBodies);
    };
    Ok(Decision::Show(Shown::Trace(TraceQuery {
        from,
        follow,
        bodies: !bare,
    })))
}

/// Reads by how many milliseconds the clock is to be set forward: from 1 to 2^53 - 1.
fn milliseconds_in(text: &[u8]) -> Option<u64>
    ensures { result ≡ spec.milliseconds_in text.now }
{
    match read_number(text, GREATEST_MOMENT) {
        Some(milliseconds) if milliseconds >= 1 => Some(milliseconds),
        _ => None,
    }
}

/// Decides to set the clock forward, by the query's only `ms`.
fn advance(alloc: Global, parts: &Parts) -> Result<Decision, AllocError>
    ensures { IfOk result (λ d. d ≡ spec.advance_by (paths.only_of (codes "ms") parts.now)) }
{
    let Some(text) = only_of(alloc, parts, "ms")? else {
        return refused(alloc, Cause::WrongMilliseconds);
    };
    match milliseconds_in(text.as_str().as_bytes()) {
        Some(milliseconds) => Ok(Decision::Clock(ClockRequest::Advance { milliseconds })),
        None => refused(alloc, Cause::WrongMilliseconds),
    }
}

/// Decides a request on a route. The bodies of requests on this service's own routes are ignored.
fn on_route(
    alloc: Global,
    scratch: &mut PayloadScratch,
    config: &Checked,
    parts: &Parts,
    body: &Received,
    route: AccountRoute,
) -> Result<Decision, AllocError>
    ensures { IfOk result (λ d. d ≡ spec.at_account config.now parts.now body.now (Some route)) }
{
    if let AccountRoute::Spindown = route {
        return spindown(alloc, config, parts);
    }
    let methods = route.methods();
    if !methods.has(parts.method.as_str()) {
        return wrong_method(alloc, methods);
    }
    match route {
        AccountRoute::Invoke => on_invoke(alloc, scratch, config, parts, body),
        AccountRoute::Concurrency => on_concurrency(alloc, config, parts, body),
        AccountRoute::ReadConcurrency => on_read_concurrency(alloc, config, parts),
        AccountRoute::Stop => Ok(Decision::Submit(Call::Stop)),
        AccountRoute::Spindown => unreachable!(),
        AccountRoute::Stats => Ok(Decision::Show(Shown::Stats)),
        AccountRoute::History => show_history(alloc, parts),
        AccountRoute::Trace => show_trace(alloc, parts),
        AccountRoute::Environments => Ok(Decision::Show(Shown::Environments)),
        AccountRoute::Version => Ok(Decision::Show(Shown::Version)),
        AccountRoute::Clock => Ok(Decision::Clock(ClockRequest::Show)),
        AccountRoute::AdvanceClock => advance(alloc, parts),
        AccountRoute::PauseClock => Ok(Decision::Clock(ClockRequest::Pause)),
        AccountRoute::ResumeClock => Ok(Decision::Clock(ClockRequest::Resume)),
    }
}

/// Decides a request on the account's port.
#[tactic(auto, unfolding(crate::specs::AccountDecisions::account_decision))]
pub(crate) fn account_decision(
    alloc: Global,
    scratch: &mut PayloadScratch,
    router: &Router<AccountRoute>,
    config: &Checked,
    parts: &Parts,
    body: &Received,
) -> Result<Decision, AllocError>
    requires { router.now ≡ account_rows }
    ensures { IfOk result (λ d. d ≡ spec.account_decision config.now parts.now body.now) }
{
    match account_route(router, parts.uri.path()) {
        Some(route) => on_route(alloc, scratch, config, parts, body, route),
        None => refused(alloc, Cause::NotFound),
    }
}
