//! The replies to runtimes and extensions: deliveries, events and registrations.

ghost use Rattle.std.specs.Prelude.{◌≡◌, IfOk};
ghost use Rattle.replies.specs.Gists.{gist_of, IsTraced};
ghost use Rattle.replies.specs.Polls as spec;

use crate::Gist;
use crate::calls::{given_trace, shared_body, trace_of, wants_account};
use crate::functions::{arn_text, env_function};
use crate::words::{env_text, request_text};
use arn_ids::{Checked, IdKind};
use call_model::Reason;
use lambda_wire::{
    Reply, event_headers, next_headers, registered_headers, write_invoke_event, write_registered,
    write_shutdown_event,
};
use std::alloc::{AllocError, Global};
use uuid::Uuid;

/// An invocation is delivered to a runtime: its payload, unchanged.
#[tactic(auto, unfolding(crate::specs::Polls::delivery))]
pub(crate) fn delivery(
    alloc: Global,
    config: &Checked,
    salt: u64,
    gist: &Gist<'_>,
    deadline: u64,
) -> Result<Reply, AllocError>
    requires { IsTraced gist.now.source.now }
    ensures { IfOk result (λ r. r ≡ spec.delivery config.now salt (gist_of gist.now) deadline) }
{
    let mut buffer = Uuid::encode_buffer();
    let request = request_text(&mut buffer, salt, gist.source, gist.source_count);
    let arn = arn_text(alloc, config, gist.source)?;
    let trace = given_trace(gist.source);
    Ok(Reply {
        status: 200,
        headers: next_headers(alloc, request, deadline, arn, trace)?,
        body: shared_body(gist.source)?,
    })
}

/// An extension is notified of an invocation.
#[tactic(auto, unfolding(crate::specs::Polls::invoke_event))]
pub(crate) fn invoke_event(
    alloc: Global,
    config: &Checked,
    salt: u64,
    gist: &Gist<'_>,
    deadline: u64,
    event: u64,
) -> Result<Reply, AllocError>
    requires { IsTraced gist.now.source.now }
    ensures { IfOk result (λ r. r ≡ spec.invoke_event config.now salt (gist_of gist.now) deadline event) }
{
    let mut buffer = Uuid::encode_buffer();
    let event = env_text(&mut buffer, salt, IdKind::Event, gist.call, event);
    let headers = event_headers(alloc, event);
    let mut buffer = Uuid::encode_buffer();
    let request = request_text(&mut buffer, salt, gist.source, gist.source_count);
    let arn = arn_text(alloc, config, gist.source)?;
    let trace = trace_of(gist.source);
    let body = write_invoke_event(alloc, deadline, arn.as_str(), request, trace);
    Reply::of(200, headers, body)
}

/// An extension is notified of the end of its environment.
#[tactic(auto, unfolding(crate::specs::Polls::shutdown_event))]
pub(crate) fn shutdown_event(
    alloc: Global,
    salt: u64,
    gist: &Gist<'_>,
    reason: Reason,
    until: u64,
    event: u64,
) -> Result<Reply, AllocError>
    ensures { IfOk result (λ r. r ≡ spec.shutdown_event salt (gist_of gist.now) reason until event) }
{
    let mut buffer = Uuid::encode_buffer();
    let event = env_text(&mut buffer, salt, IdKind::Event, gist.call, event);
    let body = write_shutdown_event(alloc, until, reason.as_str());
    Reply::of(200, event_headers(alloc, event), body)
}

/// An extension is registered.
#[tactic(auto, unfolding(crate::specs::Polls::registration))]
pub(crate) fn registration(
    alloc: Global,
    config: &Checked,
    salt: u64,
    gist: &Gist<'_>,
    count: u64,
) -> Result<Reply, AllocError>
    ensures { IfOk result (λ r. r ≡ spec.registration config.now salt (gist_of gist.now) count) }
{
    let mut buffer = Uuid::encode_buffer();
    let extension = env_text(&mut buffer, salt, IdKind::Extension, gist.call, count);
    let account = if wants_account(gist.call) {
        Some(config.home().account.as_str())
    } else {
        None
    };
    let (name, handler) = env_function(config, gist.call);
    let body = write_registered(alloc, account, name, handler);
    Reply::of(200, registered_headers(alloc, extension), body)
}
