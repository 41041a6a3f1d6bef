//! The reply for an answer.

ghost use Rattle.std.specs.Prelude.{◌≡◌, IfOk, Some};
ghost use Rattle.replies.specs.Gists.{gist_of, IsTraced};
ghost use Rattle.replies.specs.Replies.{reply_of};

use crate::Gist;
use crate::outcomes::{
    done_with, init_timed_out, outcome, output_too_large, reserved, stopped, throttled, timed_out,
    unreserved,
};
use crate::polls::{delivery, invoke_event, registration, shutdown_event};
use crate::refusals::{refused, withdrawn};
use arn_ids::Checked;
use call_model::Answer;
use lambda_wire::Reply;
use std::alloc::{AllocError, Global};

/// Returns the reply to the client of an answered call: its status, headers and body (Runtime
/// API, Extensions API and Lambda API).
///
/// | Answer | Status | Body |
/// |---|---|---|
/// | `Delivered` | 200 | the payload of the source |
/// | `Told`, `Ending` | 200 | the INVOKE or the SHUTDOWN event |
/// | `Registered` | 200 | the function, and the account's number if the extension asked for it |
/// | `Accepted`, `Done` | 202, 200 | `{"status":"OK"}` |
/// | `Output`, `Error` | 200 | the bytes of the source |
/// | `TimedOut`, `InitTimedOut`, `OutputTooLarge` | 200 | the error's message and type |
/// | `Throttled`, `Stopped` | 429, 500 | the Lambda API's error |
/// | `Withdrawn`, `Refused` | 400, 403, 409, 413 or 500 | the error's message and type |
/// | `Reserved`, `Unreserved` | 200, 204 | the reservation, none |
///
/// The request identifier of a delivery or an INVOKE event is that of the source; any other reply has
/// that of the call itself. A failed invocation is marked by `X-Amz-Function-Error`. The environment of
/// an event or an extension is the one that the call names. If an identifier cannot have its number or
/// its count, a dash is written instead.
///
/// # Errors
/// Only if memory is refused.
#[tactic(auto, unfolding(crate::specs::Replies::reply_to))]
pub fn reply(
    alloc: Global,
    config: &Checked,
    salt: u64,
    gist: &Gist<'_>,
) -> Result<Reply, AllocError>
    requires { IsTraced gist.now.source.now }
    ensures { IfOk result (λ r. Some r ≡ reply_of config.now salt (gist_of gist.now)) }
{
    match gist.answer {
        Answer::Delivered { deadline, .. } => delivery(alloc, config, salt, gist, deadline),
        Answer::Told {
            deadline,
            event,
            ..
        } => invoke_event(alloc, config, salt, gist, deadline, event),
        Answer::Ending {
            reason,
            until,
            event,
        } => shutdown_event(alloc, salt, gist, reason, until, event),
        Answer::Registered { count } => registration(alloc, config, salt, gist, count),
        Answer::Accepted => done_with(alloc, 202),
        Answer::Done => done_with(alloc, 200),
        Answer::Output { .. } => outcome(alloc, salt, gist, false),
        Answer::Error { .. } => outcome(alloc, salt, gist, true),
        Answer::TimedOut => timed_out(alloc, config, salt, gist),
        Answer::InitTimedOut => init_timed_out(alloc, salt, gist),
        Answer::OutputTooLarge => output_too_large(alloc, salt, gist),
        Answer::Throttled(reason) => throttled(alloc, salt, gist, reason),
        Answer::Stopped => stopped(alloc, salt, gist.call, gist.count),
        Answer::Withdrawn => withdrawn(alloc),
        Answer::Refused(refusal) => refused(alloc, refusal),
        Answer::Reserved { count } => reserved(alloc, count),
        Answer::Unreserved => Ok(unreserved(alloc)),
    }
}
