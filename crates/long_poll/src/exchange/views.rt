//! What is shown of an account without a call.

ghost use Rattle.std.specs.Prelude.{◌≡◌, IfOk};
ghost use Rattle.serde_json.specs.View.{view};
ghost use Rattle.long_poll.specs.Views as spec;

use crate::ClockFace;
use call_model::Stats;
use lambda_wire::{Headers, Reply, fault_reply, json_headers, text_headers, write_reservation};
use serde_json::{Value, json};
use std::alloc::{AllocError, Global};

/// Returns the counts as a JSON value.
fn stats_value(alloc: Global, stats: Stats) -> Result<Value, AllocError>
    ensures { IfOk result (λ value. view value ≡ spec.stats_data stats) }
{
    json!(in alloc; {
        "admitted": stats.admitted,
        "entries": stats.entries,
        "failed": stats.failed,
        "inFlight": stats.in_flight,
        "throttled": stats.throttled
    })
}

/// Returns the counts as JSON.
#[tactic(auto, using(crate::proofs::StatsText::stats_written))]
fn write_stats(alloc: Global, stats: Stats) -> Result<Vec<u8>, AllocError>
    ensures { IfOk result (λ text. text.items ≡ spec.stats_text stats) }
{
    stats_value(alloc, stats)?.to_vec(alloc)
}

/// Makes the reply that shows an account's counts. The only error, here and below, is `AllocError`.
pub fn stats_reply(alloc: Global, stats: Stats) -> Result<Reply, AllocError>
    ensures { IfOk result (λ reply. reply ≡ spec.stats_reply stats) }
{
    Reply::of(200, json_headers(alloc), write_stats(alloc, stats))
}

/// Returns what a clock shows as a JSON value.
fn clock_value(alloc: Global, face: ClockFace) -> Result<Value, AllocError>
    ensures { IfOk result (λ value. view value ≡ spec.clock_data face.now face.is_running) }
{
    json!(in alloc; {
        "now": face.now,
        "running": face.is_running
    })
}

/// Returns what a clock shows as JSON.
#[tactic(auto, using(crate::proofs::ClockText::clock_written))]
fn write_clock(alloc: Global, face: ClockFace) -> Result<Vec<u8>, AllocError>
    ensures { IfOk result (λ text. text.items ≡ spec.clock_text face.now face.is_running) }
{
    clock_value(alloc, face)?.to_vec(alloc)
}

/// Makes the reply that shows a clock.
pub fn clock_reply(alloc: Global, face: ClockFace) -> Result<Reply, AllocError>
    ensures { IfOk result (λ reply. reply ≡ spec.clock_reply face.now face.is_running) }
{
    Reply::of(200, json_headers(alloc), write_clock(alloc, face))
}

/// Makes the reply to a request to advance a clock past 2^53 - 1, which moves nothing.
pub(crate) fn past_reply(alloc: Global) -> Result<Reply, AllocError>
    ensures { IfOk result (λ reply. reply ≡ spec.past_reply) }
{
    fault_reply(
        alloc,
        400,
        "ms would set the clock past 9007199254740991",
        "InvalidMilliseconds",
    )
}

/// The version of the service.
pub const VERSION: &str = "1.0.0";

/// Returns the version as a JSON value.
fn version_value(alloc: Global) -> Result<Value, AllocError>
    ensures { IfOk result (λ value. view value ≡ spec.version_data) }
{
    json!(in alloc; { "version": VERSION })
}

/// Returns the version as JSON.
#[tactic(auto, using(crate::proofs::ClockText::version_written))]
fn write_version(alloc: Global) -> Result<Vec<u8>, AllocError>
    ensures { IfOk result (λ text. text.items ≡ spec.version_text) }
{
    version_value(alloc)?.to_vec(alloc)
}

/// Makes the reply that shows the version of the service.
pub fn version_reply(alloc: Global) -> Result<Reply, AllocError>
    ensures { IfOk result (λ reply. reply ≡ spec.version_reply) }
{
    Reply::of(200, json_headers(alloc), write_version(alloc))
}

/// Makes the reply that shows the environments of an account, whose text this is.
pub fn environments_reply(alloc: Global, text: Vec<u8>) -> Result<Reply, AllocError>
    ensures { IfOk result (λ reply. reply ≡ spec.environments_reply text.items) }
{
    Reply::of(200, json_headers(alloc), Ok(text))
}

/// The headers of a history, which is text.
pub fn history_headers(alloc: Global) -> Result<Headers, AllocError>
    ensures { IfOk result (λ headers. headers ≡ spec.history_headers) }
{
    text_headers(alloc)
}

/// Makes the reply that shows a function's reservation in force (Lambda API, GetFunctionConcurrency).
pub fn reservation_reply(alloc: Global, count: Option<u32>) -> Result<Reply, AllocError>
    ensures { IfOk result (λ reply. reply ≡ spec.reservation_reply count) }
{
    Reply::of(200, json_headers(alloc), write_reservation(alloc, count))
}

/// Makes the reply to a connection that asks to follow a trace if as many follow one as may at once.
pub(crate) fn followers_reply(alloc: Global) -> Result<Reply, AllocError>
    ensures { IfOk result (λ reply. reply ≡ spec.followers_reply) }
{
    fault_reply(
        alloc,
        503,
        "64 connections follow the trace, as many as may at once",
        "TooManyFollowers",
    )
}
