//! The parts of a call that its reply needs.

ghost use Rattle.std.specs.Prelude.{◌≡◌, IfOk, MatchOption, option_map, unwrap_or};
ghost use Rattle.http_header.specs.FieldValue.{IsFieldValue};
ghost use Rattle.call_types.specs.Calls.{body_of};
ghost use Rattle.lambda_wire.specs.Headers.{no_trace};
ghost use Rattle.replies.specs.Gists.{IsTraced};
ghost use Rattle.replies.specs.Words as spec;

use bytes::Bytes;
use call_model::Call;
use lambda_wire::NO_TRACE;
use std::alloc::AllocError;

/// Whether a call is an Invoke that names the version `$LATEST`.
pub(crate) fn is_qualified(call: &Call) -> bool
    ensures { result ≡ spec.is_qualified call.now }
{
    match call {
        Call::Invoke { qualified, .. } => *qualified,
        _ => false,
    }
}

/// Returns the trace of an Invoke, if its caller gave one.
pub(crate) fn given_trace(call: &Call) -> Option<&str>
    requires { IsTraced call.now }
    ensures value { unwrap_or (option_map (λ t. t.now) result) no_trace ≡ spec.trace_text call.now }
    ensures fits { MatchOption result Unit (λ t. IsFieldValue t.now) }
{
    match call {
        Call::Invoke {
            trace: Some(trace),
            ..
        } => Some(trace.as_str()),
        _ => None,
    }
}

/// Returns the trace of an Invoke, or its default.
pub(crate) fn trace_of(call: &Call) -> &str
    requires { IsTraced call.now }
    ensures { result.now ≡ spec.trace_text call.now }
{
    match given_trace(call) {
        Some(trace) => trace,
        None => NO_TRACE,
    }
}

/// Whether a call registers an extension that asks for the account's number.
pub(crate) fn wants_account(call: &Call) -> bool
    ensures { result ≡ spec.wants_account call.now }
{
    match call {
        Call::Register { account, .. } => *account,
        _ => false,
    }
}

/// Returns the bytes of a call, which stay shared, or none if it has none.
pub(crate) fn shared_body(call: &Call) -> Result<Bytes, AllocError>
    ensures { IfOk result (λ bytes. bytes ≡ body_of call.now) }
{
    match call.body() {
        None => Ok(Bytes::new()),
        Some(body) => body.clone(),
    }
}
