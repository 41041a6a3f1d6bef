//! The reply to a call that the account's book refused.

ghost use Rattle.std.specs.Prelude.{◌≡◌, IfOk};
ghost use Rattle.long_poll.specs.Refusals as spec;

use account_book::Refusal;
use lambda_wire::{InvokeFault, Reply, fault_reply, invoke_fault_reply};
use std::alloc::{AllocError, Global};

/// The message of a refusal.
fn message_of(refusal: Refusal) -> &'static str
    ensures { result.now ≡ spec.message_of refusal }
{
    match refusal {
        Refusal::JournalFull => "Journal is full",
        Refusal::OutOfMemory => "Out of memory",
    }
}

/// The error type of a refusal.
fn kind_of(refusal: Refusal) -> &'static str
    ensures { result.now ≡ spec.kind_of refusal }
{
    match refusal {
        Refusal::JournalFull => "JournalFull",
        Refusal::OutOfMemory => "OutOfMemory",
    }
}

/// Makes the reply to a refused Invoke, or to another refused call. The only error is `AllocError`.
pub(crate) fn refusal_reply(
    alloc: Global,
    is_invoke: bool,
    refusal: Refusal,
) -> Result<Reply, AllocError>
    ensures { IfOk result (λ reply. reply ≡ spec.refusal_reply is_invoke refusal) }
{
    let message = message_of(refusal);
    if is_invoke {
        invoke_fault_reply(
            alloc,
            500,
            "ServiceException",
            InvokeFault::Service,
            message,
        )
    } else {
        fault_reply(alloc, 500, message, kind_of(refusal))
    }
}
