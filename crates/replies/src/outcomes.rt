//! The replies to callers and operators: the outcome of an invocation, and accepted requests.

ghost use Rattle.std.specs.Prelude.{◌≡◌, IfOk, MatchOption, option_map};
ghost use Rattle.http_header.specs.FieldValue.{IsFieldValue};
ghost use Rattle.replies.specs.Gists.{gist_of};
ghost use Rattle.replies.specs.Outcomes as spec;

use crate::Gist;
use crate::calls::shared_body;
use crate::functions::timeout_s;
use crate::words::request_text;
use arn_ids::Checked;
use bytes::Bytes;
use call_model::{Call, Throttle};
use lambda_wire::{
    InvokeFault, Reply, error_headers, invoke_headers, json_headers, no_headers, status_body,
    write_fault, write_invoke_fault, write_reservation, write_throttle,
};
use std::alloc::{AllocError, Global};
use uuid::Uuid;

/// The invocation ran: the bytes of the report, marked if they report a failure.
#[tactic(auto, unfolding(crate::specs::Outcomes::outcome))]
pub(crate) fn outcome(
    alloc: Global,
    salt: u64,
    gist: &Gist<'_>,
    failed: bool,
) -> Result<Reply, AllocError>
    ensures { IfOk result (λ r. r ≡ spec.outcome salt (gist_of gist.now) failed) }
{
    let mut buffer = Uuid::encode_buffer();
    let request = request_text(&mut buffer, salt, gist.call, gist.count);
    Ok(Reply {
        status: 200,
        headers: invoke_headers(alloc, request, failed)?,
        body: shared_body(gist.source)?,
    })
}

/// The invocation failed without a report: its identifier with the message after it, and a type.
#[tactic(auto, unfolding(crate::specs::Outcomes::failure))]
fn failure(
    alloc: Global,
    salt: u64,
    gist: &Gist<'_>,
    message: &str,
    kind: &str,
) -> Result<Reply, AllocError>
    ensures { IfOk result (λ r. r ≡ spec.failure salt (gist_of gist.now) message.now kind.now) }
{
    let mut buffer = Uuid::encode_buffer();
    let request = request_text(&mut buffer, salt, gist.call, gist.count);
    let message = format!(in alloc; "{request}{message}")?;
    let body = write_fault(alloc, message.as_str(), kind);
    Reply::of(200, invoke_headers(alloc, request, true), body)
}

/// The invocation took longer than its function's timeout.
pub(crate) fn timed_out(
    alloc: Global,
    config: &Checked,
    salt: u64,
    gist: &Gist<'_>,
) -> Result<Reply, AllocError>
    ensures { IfOk result (λ r. r ≡ spec.timed_out config.now salt (gist_of gist.now)) }
{
    let seconds = timeout_s(config, gist.call);
    let message = format!(in alloc; " Task timed out after {seconds} seconds")?;
    failure(alloc, salt, gist, message.as_str(), "Function.Timeout")
}

/// The invocation waited for an Init that took longer than 10 seconds.
pub(crate) fn init_timed_out(alloc: Global, salt: u64, gist: &Gist<'_>) -> Result<Reply, AllocError>
    ensures { IfOk result (λ r. r ≡ spec.init_timed_out salt (gist_of gist.now)) }
{
    failure(
        alloc,
        salt,
        gist,
        " Init timed out after 10 seconds",
        "Init.Timeout",
    )
}

/// The invocation's output was larger than 6,291,456 bytes.
pub(crate) fn output_too_large(
    alloc: Global,
    salt: u64,
    gist: &Gist<'_>,
) -> Result<Reply, AllocError>
    ensures { IfOk result (λ r. r ≡ spec.output_too_large salt (gist_of gist.now)) }
{
    failure(
        alloc,
        salt,
        gist,
        " Response exceeds 6291456 bytes",
        "Function.ResponseSizeTooLarge",
    )
}

/// The invocation isn't admitted.
#[tactic(auto, unfolding(crate::specs::Outcomes::throttled))]
pub(crate) fn throttled(
    alloc: Global,
    salt: u64,
    gist: &Gist<'_>,
    reason: Throttle,
) -> Result<Reply, AllocError>
    ensures { IfOk result (λ r. r ≡ spec.throttled salt (gist_of gist.now) reason) }
{
    let mut buffer = Uuid::encode_buffer();
    let request = request_text(&mut buffer, salt, gist.call, gist.count);
    let headers = error_headers(alloc, Some(request), "TooManyRequestsException");
    Reply::of(429, headers, write_throttle(alloc, reason.as_str()))
}

/// The service is stopped, for a call with this request identifier, if it has one.
#[tactic(auto, unfolding(crate::specs::Outcomes::stopped))]
fn service_stopped(alloc: Global, request: Option<&str>) -> Result<Reply, AllocError>
    requires request { MatchOption request Unit (λ r. IsFieldValue r.now) }
    ensures { IfOk result (λ r. r ≡ spec.stopped (option_map (λ r. r.now) request.entry)) }
{
    let headers = error_headers(alloc, request, "ServiceException");
    let body = write_invoke_fault(alloc, InvokeFault::Service, "Service is stopped");
    Reply::of(500, headers, body)
}

/// The service is stopped, for a call with its count if it is an Invoke.
pub(crate) fn stopped(
    alloc: Global,
    salt: u64,
    call: &Call,
    count: u64,
) -> Result<Reply, AllocError>
    ensures { IfOk result (λ r. r ≡ spec.stopped (spec.request_named salt call.now count)) }
{
    match call {
        Call::Invoke { .. } => {
            let mut buffer = Uuid::encode_buffer();
            let request = request_text(&mut buffer, salt, call, count);
            service_stopped(alloc, Some(request))
        }
        _ => service_stopped(alloc, None),
    }
}

/// The request is accepted, or done.
#[tactic(auto, unfolding(crate::specs::Outcomes::done_with))]
pub(crate) fn done_with(alloc: Global, status: u16) -> Result<Reply, AllocError>
    ensures { IfOk result (λ r. r ≡ spec.done_with status) }
{
    Ok(Reply {
        status,
        headers: json_headers(alloc)?,
        body: status_body(),
    })
}

/// A reservation is set.
#[tactic(auto, unfolding(crate::specs::Outcomes::reserved))]
pub(crate) fn reserved(alloc: Global, count: u32) -> Result<Reply, AllocError>
    ensures { IfOk result (λ r. r ≡ spec.reserved count) }
{
    Reply::of(
        200,
        json_headers(alloc),
        write_reservation(alloc, Some(count)),
    )
}

/// A reservation is removed.
pub(crate) fn unreserved(alloc: Global) -> Reply
    ensures { result ≡ spec.unreserved }
{
    Reply {
        status: 204,
        headers: no_headers(alloc),
        body: Bytes::new(),
    }
}
