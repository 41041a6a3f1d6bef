//! The replies to calls that are refused.

ghost use Rattle.std.specs.Prelude.{◌≡◌, IfOk};
ghost use Rattle.replies.specs.Refusals as spec;

use call_model::Rejection;
use lambda_wire::{InvokeFault, Reply, fault_reply, invoke_fault_reply};
use std::alloc::{AllocError, Global};

/// The status, the type and the message of a refusal.
fn refusal_words(refusal: Rejection) -> (u16, &'static str, &'static str)
    ensures status { result.0 ≡ (spec.refusal_words refusal).0 }
    ensures kind { result.1.now ≡ (spec.refusal_words refusal).1 }
    ensures message { result.2.now ≡ (spec.refusal_words refusal).2 }
{
    match refusal {
        Rejection::State => (
            403,
            "InvalidStateTransition",
            "Not allowed in the current phase",
        ),
        Rejection::Replaced => (
            403,
            "InvalidStateTransition",
            "A newer poll replaced this one",
        ),
        Rejection::BadId => (400, "InvalidRequestID", "Not the open invocation"),
        Rejection::Unknown => (
            403,
            "Extension.UnknownIdentifier",
            "Extension is not registered here",
        ),
        Rejection::TooLarge => (
            413,
            "RequestEntityTooLarge",
            "Payload exceeds 6291456 bytes",
        ),
        Rejection::Container => (500, "ContainerError", "Environment is shutting down"),
        Rejection::NameInUse => (
            403,
            "Extension.AlreadyRegistered",
            "Extension name is in use",
        ),
        Rejection::TooMany => (
            403,
            "Extension.TooManyExtensions",
            "Ten extensions are registered",
        ),
        Rejection::NotIdle => (409, "NotIdle", "Environment is not idle"),
        Rejection::BadReservation => (
            400,
            "InvalidParameterValueException",
            "Reservation is out of range",
        ),
    }
}

/// The reply to a refused call.
#[tactic(auto, unfolding(crate::specs::Refusals::refused))]
pub(crate) fn refused(alloc: Global, refusal: Rejection) -> Result<Reply, AllocError>
    ensures { IfOk result (λ r. r ≡ spec.refused refusal) }
{
    let (status, kind, message) = refusal_words(refusal);
    match refusal {
        Rejection::BadReservation => {
            invoke_fault_reply(alloc, status, kind, InvokeFault::User, message)
        }
        _ => fault_reply(alloc, status, message, kind),
    }
}

/// The reply to a poll that was withdrawn.
pub(crate) fn withdrawn(alloc: Global) -> Result<Reply, AllocError>
    ensures { IfOk result (λ r. r ≡ spec.withdrawn) }
{
    fault_reply(
        alloc,
        403,
        "The poll was withdrawn",
        "InvalidStateTransition",
    )
}
