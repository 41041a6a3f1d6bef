//! Replies that refuse a request before there is a call. Each call here fails only if an allocation
//! fails.

ghost use Rattle.std.specs.Prelude.{◌≡◌, true, IfOk};
ghost use Rattle.std.specs.List.{list_all};
ghost use Rattle.http_header.specs.Token.{is_value_byte};
ghost use Rattle.lambda_wire.specs.Replies as replies;
ghost use Rattle.http_routes.specs.Methods.{listed};
ghost use Rattle.http_routes.specs.Refusals as spec;

use crate::methods::Methods;
use decisions::Decision;
use lambda_wire::{InvokeFault, Reply, fault_reply, invoke_fault_reply, method_headers};
use std::alloc::{AllocError, Global};

/// The message for a body that is longer than one may be.
pub const TOO_LONG: &str = "Payload exceeds 6291456 bytes";

/// Why a request is refused before there is a call.
#[derive(Clone, Copy, Debug, PartialEq, Eq)]
pub(crate) enum Cause {
    /// No route has the path.
    NotFound,
    /// The text from which the history is to begin is not a ticket.
    WrongTicket,
    /// Whether a trace is to be followed is not said as it has to be.
    WrongFollow,
    /// Which bodies a trace is to show is not said as it has to be.
    WrongBodies,
    /// By how many milliseconds the clock is to be set forward is not said as it has to be.
    WrongMilliseconds,
    /// The path does not name an invocation of this environment's function.
    WrongRequest,
    /// The head does not name an extension of this environment.
    UnknownExtension,
    /// A header is absent or malformed.
    MissingHeader,
    /// The body is longer than 6,291,456 bytes.
    TooLarge,
    /// A registration is not JSON of the required form.
    UnreadableRegistration,
    /// A registration asks for an event that does not exist.
    WrongEvent,
    /// A name or a qualifier is malformed.
    MalformedName,
    /// There is no such function, or no such version of it.
    UnknownFunction,
    /// The caller does not wait for the invocation.
    WrongInvocationType,
    /// The payload is longer than 6,291,456 bytes.
    PayloadTooLarge,
    /// The payload is not JSON.
    UnreadablePayload,
    /// A reservation is not JSON of the required form.
    UnreadableReservation,
    /// No handler is here, and only handlers answer what comes to this port.
    NoHandler,
}

/// Returns the status, the type and the message of a refusal.
fn refusal_words(cause: Cause) -> (u16, &'static str, &'static str)
    ensures status { result.0 ≡ (spec.refusal_words cause).0 }
    ensures kind { result.1.now ≡ (spec.refusal_words cause).1 }
    ensures message { result.2.now ≡ (spec.refusal_words cause).2 }
    ensures printed { list_all is_value_byte result.1.now ≡ true }
{
    match cause {
        Cause::NotFound => (404, "NotFound", "No such resource"),
        Cause::WrongTicket => (400, "InvalidTicket", "from is not a ticket"),
        Cause::WrongFollow => (400, "InvalidQuery", "follow is not 1"),
        Cause::WrongBodies => (400, "InvalidQuery", "bodies is not none"),
        Cause::WrongMilliseconds => (
            400,
            "InvalidMilliseconds",
            "ms is not one number from 1 to 9007199254740991",
        ),
        Cause::WrongRequest => (400, "InvalidRequestID", "Not the open invocation"),
        Cause::UnknownExtension => (
            403,
            "Extension.UnknownIdentifier",
            "Extension is not registered here",
        ),
        Cause::MissingHeader => (400, "MissingHeader", "A required header is missing"),
        Cause::TooLarge => (413, "RequestEntityTooLarge", TOO_LONG),
        Cause::UnreadableRegistration => (400, "InvalidRequestFormat", "Body is not readable"),
        Cause::WrongEvent => (400, "InvalidEventType", "Event is not INVOKE or SHUTDOWN"),
        Cause::MalformedName => (
            400,
            "InvalidParameterValueException",
            "Function name or qualifier is malformed",
        ),
        Cause::UnknownFunction => (404, "ResourceNotFoundException", "Function not found"),
        Cause::WrongInvocationType => (
            400,
            "InvalidParameterValueException",
            "Invocation type is not RequestResponse",
        ),
        Cause::PayloadTooLarge => (413, "RequestTooLargeException", TOO_LONG),
        Cause::UnreadablePayload => (400, "InvalidRequestContentException", "Payload is not JSON"),
        Cause::UnreadableReservation => (
            400,
            "InvalidRequestContentException",
            "Body is not readable",
        ),
        Cause::NoHandler => (503, "ServiceException", "No handler is here"),
    }
}

/// Returns whose fault a refusal says it is, which only replies of the Lambda API say; `None` for
/// the other APIs and for this service's own routes.
fn fault_of(cause: Cause) -> Option<InvokeFault>
    ensures { result ≡ spec.fault_of cause }
{
    match cause {
        Cause::NotFound
        | Cause::WrongTicket
        | Cause::WrongFollow
        | Cause::WrongBodies
        | Cause::WrongMilliseconds
        | Cause::WrongRequest
        | Cause::UnknownExtension
        | Cause::MissingHeader
        | Cause::TooLarge
        | Cause::UnreadableRegistration
        | Cause::WrongEvent => None,
        Cause::UnknownFunction => Some(InvokeFault::NotFound),
        Cause::MalformedName
        | Cause::WrongInvocationType
        | Cause::PayloadTooLarge
        | Cause::UnreadablePayload
        | Cause::UnreadableReservation => Some(InvokeFault::User),
        Cause::NoHandler => Some(InvokeFault::Service),
    }
}

fn refused_by_api(
    alloc: Global,
    status: u16,
    kind: &str,
    fault: InvokeFault,
    message: &str,
) -> Result<Reply, AllocError>
    requires { list_all is_value_byte kind.now ≡ true }
    ensures { IfOk result (λ reply. reply ≡ replies.invoke_fault_reply status kind.now fault message.now) }
{
    invoke_fault_reply(alloc, status, kind, fault, message)
}

/// Makes the reply to a refused request.
#[tactic(auto, unfolding(crate::specs::Refusals::refused))]
pub(crate) fn refused(alloc: Global, cause: Cause) -> Result<Decision, AllocError>
    ensures { IfOk result (λ d. d ≡ spec.refused cause) }
{
    let (status, kind, message) = refusal_words(cause);
    let reply = match fault_of(cause) {
        Some(fault) => refused_by_api(alloc, status, kind, fault, message)?,
        None => fault_reply(alloc, status, message, kind)?,
    };
    Ok(Decision::Reply(reply))
}

/// Makes the reply that lists a route's methods, if the route does not have the request's.
#[tactic(auto, unfolding(crate::specs::Refusals::wrong_method))]
pub(crate) fn wrong_method(alloc: Global, methods: Methods) -> Result<Decision, AllocError>
    ensures { IfOk result (λ d. d ≡ spec.wrong_method (listed methods)) }
{
    Ok(Decision::Reply(Reply {
        headers: method_headers(alloc, methods.field())?,
        ..fault_reply(alloc, 405, "Method not allowed", "MethodNotAllowed")?
    }))
}
