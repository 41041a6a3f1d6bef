//! What is done with a request, and who decides it.

ghost use Rattle.std.specs.Prelude.{ℕ, List, IfOk};
ghost use Rattle.http.specs.declared.request.Parts.{Parts as Head};
ghost use Rattle.arn_ids.specs.declared.config.Config.{Config};
ghost use Rattle.decisions.specs.declared.decide.Decision.{Decision as Decided};
ghost use Rattle.decisions.specs.Decisions.{IsAllowed, IsOn};

use crate::Received;
use arn_ids::FnNo;
use call_types::{Call, Ticket};
use http::request::Parts;
use lambda_wire::{PayloadScratch, Reply};
use std::alloc::{AllocError, Global};

/// Which trace is asked for.
#[derive(Clone, Copy, Debug, PartialEq, Eq)]
pub struct TraceQuery {
    /// The ticket of the entry that the trace begins with.
    pub from: Ticket,
    /// Whether it goes on with each entry that is made while it is sent.
    pub follow: bool,
    /// Whether it shows the bodies of requests and answers.
    pub bodies: bool,
}

/// What is shown of an account without a call.
#[derive(Clone, Copy, Debug, PartialEq, Eq)]
pub enum Shown {
    /// The counts of the account.
    Stats,
    /// The text of the account's history.
    History {
        /// The ticket of the entry that the text begins with; none for the whole history.
        from: Option<Ticket>,
    },
    /// The trace of the account's history: a line for each entry.
    Trace(TraceQuery),
    /// The account's environments.
    Environments,
    /// A function's reservation in force (Lambda API, GetFunctionConcurrency).
    Reservation {
        /// The function's number, from 1.
        function: FnNo,
    },
    /// The version of the service.
    Version,
}

/// What is asked of the clock that gives the moments of calls. It is answered with the clock's reading, and whether
/// it is running.
#[derive(Clone, Copy, Debug, PartialEq, Eq)]
pub enum ClockRequest {
    /// Only to be shown.
    Show,
    /// To be set forward, after which a Tick lets everything that is then due expire.
    Advance {
        /// By how many milliseconds, from 1.
        milliseconds: u64,
    },
    /// To stand still. A paused clock is left as it is.
    Pause,
    /// To go on from where it stands. A running clock is left as it is.
    Resume,
}

/// What is done with a request.
#[derive(Drop)]
pub enum Decision {
    /// The call is submitted, and its answer is the reply.
    Submit(Call),
    /// The request is refused with this reply, before there is a call.
    Reply(Reply),
    /// Something of the account is shown, without a call.
    Show(Shown),
    /// Something is asked of the clock.
    Clock(ClockRequest),
}

/// Decides requests for one configuration, by a relation that the implementation names.
pub trait Decide {
    /// Relates the decider, the head of a request, its body, and what is done with the request.
    ghost decides: { Self → Head → List ℕ → Decided → Type 0 };

    /// The configuration that it decides for.
    ghost decides_for: { Self → Config };

    /// Returns what is done with a request with this head and body. A call shares the bytes of the body.
    /// All bodies that are too long are decided alike, so such a body need not be kept. A payload is read in
    /// the scratch space. The only error is lack of memory.
    fn decide(
        &self,
        alloc: Global,
        scratch: &mut PayloadScratch,
        parts: &Parts,
        body: &Received,
    ) -> Result<Decision, AllocError>
        ensures decision { IfOk result (IsOn (decides self.now parts.now) body.now) }
        // A call is within the limits of the configuration, and a function that is shown exists.
        ensures allowed { IfOk result (IsAllowed (decides_for self.now)) };
}
