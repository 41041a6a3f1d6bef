//! Why a request is not answered by a handler, and why a handler's own request is refused.

ghost use Rattle.std.specs.Prelude.{◌≡◌, true, IfOk};
ghost use Rattle.std.specs.List.{list_all};
ghost use Rattle.http_header.specs.Token.{is_value_byte};
ghost use Rattle.lambda_wire.specs.Replies as replies;
ghost use Rattle.http_front.specs.DeskFaults as spec;

use crate::at_desk::flowing::FlowFault;
use handler_desk::{AnswerFault, NotPut, NotTaken};
use http_routes::TOO_LONG;
use lambda_wire::{InvokeFault, Reply, fault_reply, invoke_fault_reply};
use long_poll::{Cause, ExchangeFault};
use std::alloc::{AllocError, Global};

/// Why a request that was to be handed over has no answer of a handler.
#[derive(Clone, Copy, Debug, PartialEq, Eq)]
pub(crate) enum HandedFault {
    /// Its body is longer than one may be.
    TooLong,
    /// Its body failed before its end.
    BodyFailed,
    /// No handler is here any more.
    NoHandler,
    /// Too many requests wait for a handler or are at one.
    TooMany,
    /// Its handler has ended, or says that it has failed; or no handler came back in time.
    Failed,
    /// An allocation failed.
    OutOfMemory,
}

impl HandedFault {
    /// Returns why there is no answer, if the body was not collected.
    pub(crate) fn of_body(fault: ExchangeFault) -> HandedFault
        ensures { result ≡ spec.of_body fault }
    {
        match fault {
            ExchangeFault::BodyFailed => HandedFault::BodyFailed,
            ExchangeFault::OutOfMemory | ExchangeFault::BellLost => HandedFault::OutOfMemory,
        }
    }

    /// Returns why a request does not wait.
    pub(crate) fn of_put(fault: NotPut) -> HandedFault
        ensures { result ≡ spec.of_put fault }
    {
        match fault {
            NotPut::NoHandler => HandedFault::NoHandler,
            NotPut::TooMany => HandedFault::TooMany,
            NotPut::OutOfMemory => HandedFault::OutOfMemory,
        }
    }

    /// Returns why the log counts the request as rejected: because of its body, or not at all.
    pub(crate) fn cause(self) -> Option<Cause>
        ensures { result ≡ spec.cause_of self }
    {
        match self {
            HandedFault::TooLong => Some(Cause::TooLong),
            HandedFault::BodyFailed => Some(Cause::BrokenBody),
            HandedFault::NoHandler
            | HandedFault::TooMany
            | HandedFault::Failed
            | HandedFault::OutOfMemory => None,
        }
    }
}

/// Why a handler's own request is refused.
#[derive(Clone, Copy, Debug, PartialEq, Eq)]
pub(crate) enum HandlerFault {
    /// The body of its post is longer than one may be.
    TooLong,
    /// The body of its post failed before its end.
    BodyFailed,
    /// It has not taken the request that it answers, or that is over.
    NotTaken(NotTaken),
    /// The head of its answer cannot be read.
    Unreadable(AnswerFault),
    /// The service is over.
    ServiceEnded,
    /// An allocation failed.
    OutOfMemory,
}

impl HandlerFault {
    /// Returns why a post is refused, if its body was not collected.
    pub(crate) fn of_body(fault: ExchangeFault) -> HandlerFault
        ensures { result ≡ spec.of_posted_body fault }
    {
        match fault {
            ExchangeFault::BodyFailed => HandlerFault::BodyFailed,
            ExchangeFault::OutOfMemory | ExchangeFault::BellLost => HandlerFault::OutOfMemory,
        }
    }

    /// Returns why a post is refused, if the head of its answer cannot be read.
    pub(crate) fn of_head(fault: AnswerFault) -> HandlerFault
        ensures { result ≡ spec.of_head fault }
    {
        match fault {
            AnswerFault::OutOfMemory => HandlerFault::OutOfMemory,
            fault => HandlerFault::Unreadable(fault),
        }
    }

    /// Returns why a post is refused, if its body was not passed on to its end.
    pub(crate) fn of_flow(fault: FlowFault) -> HandlerFault
        ensures { result ≡ spec.of_flow fault }
    {
        match fault {
            FlowFault::Gone => HandlerFault::NotTaken(NotTaken::IsOver),
            FlowFault::BodyFailed => HandlerFault::BodyFailed,
            FlowFault::OutOfMemory => HandlerFault::OutOfMemory,
        }
    }
}

/// Makes a reply in the form of the Lambda API.
fn by_lambda(
    alloc: Global,
    status: u16,
    kind: &str,
    form: InvokeFault,
    message: &str,
) -> Result<Reply, AllocError>
    requires { list_all is_value_byte kind.now ≡ true }
    ensures { IfOk result (λ reply. reply ≡ replies.invoke_fault_reply status kind.now form message.now) }
{
    invoke_fault_reply(alloc, status, kind, form, message)
}

/// Makes the reply to a request that has no answer of a handler, in the form of the Lambda API.
///
/// # Errors
/// If memory is refused.
pub(crate) fn handed_reply(alloc: Global, fault: HandedFault) -> Result<Reply, AllocError>
    ensures { IfOk result (λ reply. reply ≡ spec.handed_reply fault) }
{
    match fault {
        HandedFault::TooLong => by_lambda(
            alloc,
            413,
            "RequestTooLargeException",
            InvokeFault::User,
            TOO_LONG,
        ),
        HandedFault::BodyFailed => by_lambda(
            alloc,
            400,
            "InvalidRequestContentException",
            InvokeFault::User,
            "Body is malformed",
        ),
        HandedFault::NoHandler => by_lambda(
            alloc,
            503,
            "ServiceException",
            InvokeFault::Service,
            "No handler is here any more",
        ),
        HandedFault::TooMany => by_lambda(
            alloc,
            503,
            "ServiceException",
            InvokeFault::Service,
            "Too many requests wait for a handler",
        ),
        HandedFault::Failed => by_lambda(
            alloc,
            502,
            "ServiceException",
            InvokeFault::Service,
            "The handler of the request has failed",
        ),
        HandedFault::OutOfMemory => by_lambda(
            alloc,
            500,
            "ServiceException",
            InvokeFault::Service,
            "Out of memory",
        ),
    }
}

/// Makes the reply to a handler that answers a request which it has not taken, or which is over.
fn not_taken_reply(alloc: Global, fault: NotTaken) -> Result<Reply, AllocError>
    ensures { IfOk result (λ reply. reply ≡ spec.not_taken_reply fault) }
{
    match fault {
        NotTaken::StillWaits => fault_reply(
            alloc,
            409,
            "No handler has taken the request",
            "RequestNotTaken",
        ),
        NotTaken::ByAnother => fault_reply(
            alloc,
            409,
            "Another handler has taken the request",
            "RequestOfAnother",
        ),
        NotTaken::IsOver => fault_reply(alloc, 409, "The request is over", "RequestIsOver"),
        NotTaken::NotGiven => fault_reply(
            alloc,
            404,
            "No request has this identifier",
            "UnknownRequest",
        ),
    }
}

/// Returns the message for a head of an answer that cannot be read.
fn unreadable(fault: AnswerFault) -> &'static str
    ensures { result.now ≡ spec.unreadable fault }
{
    match fault {
        AnswerFault::NoStatus => "Lambda-Local-Status is missing",
        AnswerFault::SeveralStatuses => "Lambda-Local-Status is there more than once",
        AnswerFault::NotAStatus => "Lambda-Local-Status is not a number",
        AnswerFault::StatusOutOfRange => "Lambda-Local-Status is not from 200 to 599",
        AnswerFault::NoColon => "A Lambda-Local-Header has no colon",
        AnswerFault::BadName => "A Lambda-Local-Header names no field",
        AnswerFault::FramingName => {
            "A Lambda-Local-Header names a field that the service sets itself"
        }
        AnswerFault::BadValue => "A Lambda-Local-Header has a value that no field can have",
        AnswerFault::OutOfMemory => "Out of memory",
    }
}

/// Makes the reply to a handler's own request that is refused.
///
/// # Errors
/// If memory is refused.
pub(crate) fn handler_reply(alloc: Global, fault: HandlerFault) -> Result<Reply, AllocError>
    ensures { IfOk result (λ reply. reply ≡ spec.handler_reply fault) }
{
    match fault {
        HandlerFault::TooLong => fault_reply(alloc, 413, TOO_LONG, "RequestEntityTooLarge"),
        HandlerFault::BodyFailed => {
            fault_reply(alloc, 400, "Body is malformed", "InvalidRequestFormat")
        }
        HandlerFault::NotTaken(fault) => not_taken_reply(alloc, fault),
        HandlerFault::Unreadable(fault) => {
            fault_reply(alloc, 400, unreadable(fault), "InvalidResponse")
        }
        HandlerFault::ServiceEnded => {
            fault_reply(alloc, 503, "The service has ended", "ServiceEnded")
        }
        HandlerFault::OutOfMemory => fault_reply(alloc, 500, "Out of memory", "OutOfMemory"),
    }
}
