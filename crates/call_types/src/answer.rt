//! Answers, reasons and phases.

ghost use Rattle.std.specs.Prelude.{◌≡◌};
ghost use Rattle.call_types.specs.Words.{reason_word, refusal_word, throttle_word};

use crate::Ticket;

/// Why an environment closes (Extensions API, Shutdown phase: `shutdownReason`).
#[derive(Clone, Copy, Debug, PartialEq, Eq)]
pub enum Reason {
    /// Its Init or its invocation took too long.
    Timeout,
    /// Its Init failed, or an extension reported that it exits.
    Failure,
    /// It was idle and taken down, or the service was stopped.
    Spindown,
}

impl Reason {
    /// Returns the reason's word (Extensions API: `shutdownReason`).
    pub fn as_str(self) -> &'static str
        ensures { result.now ≡ reason_word self }
    {
        match self {
            Reason::Timeout => "TIMEOUT",
            Reason::Failure => "FAILURE",
            Reason::Spindown => "SPINDOWN",
        }
    }
}

/// Why an invocation is not admitted (Invoke: `TooManyRequestsException` and its reasons).
#[derive(Clone, Copy, Debug, PartialEq, Eq)]
pub enum Throttle {
    /// As many invocations of the function are in flight as its reservation allows
    /// (`ReservedFunctionConcurrentInvocationLimitExceeded`).
    Function,
    /// As many invocations of the unreserved functions are in flight as the reservations leave of
    /// the account's limit (`ConcurrentInvocationLimitExceeded`).
    Account,
    /// No environment of the function is free (this service's own reason).
    Environments,
}

impl Throttle {
    /// Returns the reason's word (Invoke: the `Reason` of `TooManyRequestsException`).
    pub fn as_str(self) -> &'static str
        ensures { result.now ≡ throttle_word self }
    {
        match self {
            Throttle::Function => "ReservedFunctionConcurrentInvocationLimitExceeded",
            Throttle::Account => "ConcurrentInvocationLimitExceeded",
            Throttle::Environments => "LocalEnvironmentLimitExceeded",
        }
    }
}

/// Why a call is refused.
#[derive(Clone, Copy, Debug, PartialEq, Eq)]
pub enum Rejection {
    /// The environment's phase does not allow the call.
    State,
    /// A newer Next of the same runtime or extension took this one's place.
    Replaced,
    /// The call does not name the invocation that is open.
    BadId,
    /// The extension is not registered in the present generation of the environment.
    Unknown,
    /// The response is larger than 6,291,456 bytes (Runtime API: 413).
    TooLarge,
    /// The environment is shutting down (Runtime API and Extensions API: 500, container error).
    Container,
    /// An extension of this name is registered.
    NameInUse,
    /// Ten extensions are registered (Lambda quotas).
    TooMany,
    /// Only an idle environment can be taken down.
    NotIdle,
    /// The reservation is above the function's environments, or leaves too little unreserved
    /// (PutFunctionConcurrency: `InvalidParameterValueException`).
    BadReservation,
}

impl Rejection {
    /// Returns the reason's word.
    pub fn as_str(self) -> &'static str
        ensures { result.now ≡ refusal_word self }
    {
        match self {
            Rejection::State => "State",
            Rejection::Replaced => "Replaced",
            Rejection::BadId => "BadId",
            Rejection::Unknown => "Unknown",
            Rejection::TooLarge => "TooLarge",
            Rejection::Container => "Container",
            Rejection::NameInUse => "NameInUse",
            Rejection::TooMany => "TooMany",
            Rejection::NotIdle => "NotIdle",
            Rejection::BadReservation => "BadReservation",
        }
    }
}

/// The answer to a call. It holds no bytes: for a payload or an output it has the ticket of the
/// call that carries them. Moments are in milliseconds and at most 2^53 - 1, but a deadline may lie
/// after that.
#[derive(Clone, Copy, Debug, PartialEq, Eq)]
pub enum Answer {
    /// A runtime's Next brings an invocation (Runtime API, Next invocation).
    Delivered {
        /// The ticket of the Invoke, whose payload is delivered.
        invoke: Ticket,
        /// When the invocation times out (`Lambda-Runtime-Deadline-Ms`).
        deadline: u64,
    },
    /// An extension's Next reports that an invocation began (Extensions API, INVOKE event).
    Told {
        /// The ticket of the Invoke.
        invoke: Ticket,
        /// When the invocation times out (`deadlineMs`).
        deadline: u64,
        /// The event's number at its environment, from 1.
        event: u64,
    },
    /// An extension's Next reports that the environment ends (Extensions API, SHUTDOWN event).
    Ending {
        /// Why it ends (`shutdownReason`).
        reason: Reason,
        /// When the environment ends at the latest (`deadlineMs`).
        until: u64,
        /// The event's number at its environment, from 1.
        event: u64,
    },
    /// The extension is registered (Extensions API, Register).
    Registered {
        /// Its number at its environment, from 1 over all generations.
        count: u64,
    },
    /// The report, spindown or stop is accepted (Runtime API: 202).
    Accepted,
    /// The clock ticked, or the withdrawal was processed.
    Done,
    /// The invocation's output (Invoke: 200).
    Output {
        /// The ticket of the Response that has its bytes.
        source: Ticket,
    },
    /// The invocation failed (Invoke: `X-Amz-Function-Error`).
    Error {
        /// The ticket of the report that has the error's bytes.
        source: Ticket,
    },
    /// The invocation took longer than its function's timeout.
    TimedOut,
    /// The invocation waited for an Init that took longer than 10 seconds.
    InitTimedOut,
    /// The invocation's output was larger than 6,291,456 bytes.
    OutputTooLarge,
    /// The invocation is not admitted (Invoke: 429).
    Throttled(Throttle),
    /// The service is stopped.
    Stopped,
    /// The Next was withdrawn, because its connection ended.
    Withdrawn,
    /// The call is refused.
    Refused(Rejection),
    /// The function's reservation is set (PutFunctionConcurrency).
    Reserved {
        /// How many concurrent invocations are reserved.
        count: u32,
    },
    /// The function's reservation is removed (DeleteFunctionConcurrency).
    Unreserved,
}

/// The phase of an environment (Lambda Developer Guide, "Understanding the Lambda execution
/// environment lifecycle"). Moments are in milliseconds.
#[derive(Clone, Copy, Debug, PartialEq, Eq)]
pub enum Phase {
    /// Init: the runtime or an extension has not asked for its Next yet.
    Starting {
        /// When the Init times out: 10 seconds after the first contact, or after an invocation was
        /// bound to this phase, whichever came first; `None` before that.
        deadline: Option<u64>,
        /// The ticket of the Invoke that waits for the Init to end.
        bound: Option<Ticket>,
    },
    /// Ready for an invocation.
    Idle,
    /// Invoke: from the delivery until the invocation is answered and the runtime and all
    /// extensions have asked for Next again.
    Busy {
        /// The ticket of the Invoke that it serves.
        invoke: Ticket,
        /// When the invocation times out.
        deadline: u64,
    },
    /// Shutdown: extensions that registered for SHUTDOWN are notified, and the environment waits
    /// for them.
    Closing {
        /// Why it closes.
        reason: Reason,
        /// When it ends at the latest: 2 seconds after it began.
        until: u64,
        /// The ticket of the Invoke that the next generation is to serve.
        bound: Option<Ticket>,
    },
    /// Shut down for good, after a stop of the service.
    Off,
}
