//! The writers of the bodies of replies.

ghost use Rattle.std.specs.Prelude.{◌≡◌, IfOk, option_map};
ghost use Rattle.lambda_wire.specs.Bodies.{fault_text, invoke_fault_text, throttle_text, status_text};
ghost use Rattle.lambda_wire.specs.Bodies.{registered_text, invoke_event_text, shutdown_event_text, reservation_text};

use crate::object_writer::ObjectWriter;
use bytes::Bytes;
use std::alloc::{AllocError, Global};

/// Whose fault it is that an Invoke is refused, and so what its body looks like (Lambda API,
/// Invoke: Errors).
#[derive(Clone, Copy, Debug, PartialEq, Eq)]
pub enum InvokeFault {
    /// The caller's: `{"Type":"User","message":M}`.
    User,
    /// The caller's, if what it named doesn't exist: `{"Message":M,"Type":"User"}`.
    NotFound,
    /// The service's: `{"Message":M,"Type":"Service"}`.
    Service,
}

/// Writes a refusal on an environment's port, `{"errorMessage":M,"errorType":T}` (Runtime API and
/// Extensions API: ErrorResponse).
///
/// The only error of this and the other writers is lack of memory.
pub fn write_fault(alloc: Global, message: &str, kind: &str) -> Result<Vec<u8>, AllocError>
    ensures { IfOk result (λ b. b.items ≡ fault_text message.now kind.now) }
{
    ObjectWriter::new(alloc)
        .text("errorMessage", message)
        .text("errorType", kind)
        .into_vec()
}

/// Writes a refused Invoke.
pub fn write_invoke_fault(
    alloc: Global,
    form: InvokeFault,
    message: &str,
) -> Result<Vec<u8>, AllocError>
    ensures { IfOk result (λ b. b.items ≡ invoke_fault_text form message.now) }
{
    let object = ObjectWriter::new(alloc);
    match form {
        InvokeFault::User => object
            .text("Type", "User")
            .text("message", message)
            .into_vec(),
        InvokeFault::NotFound => object
            .text("Message", message)
            .text("Type", "User")
            .into_vec(),
        InvokeFault::Service => object
            .text("Message", message)
            .text("Type", "Service")
            .into_vec(),
    }
}

/// Writes a throttled Invoke with its reason (Lambda API, Invoke: TooManyRequestsException).
pub fn write_throttle(alloc: Global, reason: &str) -> Result<Vec<u8>, AllocError>
    ensures { IfOk result (λ b. b.items ≡ throttle_text reason.now) }
{
    ObjectWriter::new(alloc)
        .text("Reason", reason)
        .text("Type", "User")
        .text("message", "Rate Exceeded.")
        .into_vec()
}

/// Returns the body of an accepted request, `{"status":"OK"}`. It takes no memory.
#[tactic(auto, unfolding(crate::specs::Bodies::status_text))]
pub fn status_body() -> Bytes
    ensures { result ≡ status_text }
{
    Bytes::from_static("{\"status\":\"OK\"}".as_bytes())
}

/// Writes a registration: the function's name and handler, and the account's number if the
/// extension asked for it (Extensions API, Register).
pub fn write_registered(
    alloc: Global,
    account: Option<&str>,
    function: &str,
    handler: &str,
) -> Result<Vec<u8>, AllocError>
    ensures { IfOk result
        (λ b. b.items ≡ registered_text (option_map (λ a. a.now) account.entry) function.now handler.now) }
{
    ObjectWriter::new(alloc)
        .text("functionName", function)
        .text("functionVersion", "$LATEST")
        .text("handler", handler)
        .text_if_any("accountId", account)
        .into_vec()
}

/// Writes that an invocation began: when it times out, in milliseconds, the invoked ARN, the
/// request identifier and the trace (Extensions API, INVOKE event).
pub fn write_invoke_event(
    alloc: Global,
    deadline: u64,
    arn: &str,
    request: &str,
    trace: &str,
) -> Result<Vec<u8>, AllocError>
    ensures { IfOk result (λ b. b.items ≡ invoke_event_text deadline arn.now request.now trace.now) }
{
    let tracing = ObjectWriter::new(alloc)
        .text("type", "X-Amzn-Trace-Id")
        .text("value", trace);
    ObjectWriter::new(alloc)
        .number("deadlineMs", deadline)
        .text("eventType", "INVOKE")
        .text("invokedFunctionArn", arn)
        .text("requestId", request)
        .object("tracing", tracing)
        .into_vec()
}

/// Writes that an environment ends: when it ends at the latest, in milliseconds, and why
/// (Extensions API, SHUTDOWN event).
pub fn write_shutdown_event(
    alloc: Global,
    deadline: u64,
    reason: &str,
) -> Result<Vec<u8>, AllocError>
    ensures { IfOk result (λ b. b.items ≡ shutdown_event_text deadline reason.now) }
{
    ObjectWriter::new(alloc)
        .number("deadlineMs", deadline)
        .text("eventType", "SHUTDOWN")
        .text("shutdownReason", reason)
        .into_vec()
}

/// Writes a function's reservation, `{}` if it has none (Lambda API, GetFunctionConcurrency).
#[tactic(auto, unfolding(crate::specs::Bodies::reservation_text))]
pub fn write_reservation(alloc: Global, count: Option<u32>) -> Result<Vec<u8>, AllocError>
    ensures { IfOk result (λ b. b.items ≡ reservation_text count) }
{
    let text = match count {
        None => String::from_str(alloc, "{}"),
        Some(count) => format!(in alloc; "{{\"ReservedConcurrentExecutions\":{count}}}"),
    }?;
    Ok(text.into_bytes())
}
