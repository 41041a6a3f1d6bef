//! Functions of phases: what a phase has at hand, and which phase comes after it.
//! (Lambda Developer Guide: Understanding the Lambda execution environment lifecycle)

ghost use Rattle.std.specs.Prelude.{◌≡◌, ◌+◌, ◌<◌, ◌^◌};
ghost use Rattle.call_model.specs.Polls.{begun};
ghost use Rattle.call_model.specs.Stand.{at_hand, bound_of, is_busy, is_closing};
ghost use Rattle.call_model.specs.Table.{settled, reborn, clock_started, placed, unbound};

use call_model::{Phase, Ticket};

/// How long an Init lasts at most, in milliseconds. (life cycle: Init phase)
const INIT_LIMIT: u64 = 10000;

/// Whether the environment serves an invocation.
pub(crate) fn is_busy(phase: Phase) -> bool
    ensures { result ≡ is_busy phase }
{
    matches!(phase, Phase::Busy { .. })
}

/// Whether the environment is shutting down.
pub(crate) fn is_closing(phase: Phase) -> bool
    ensures { result ≡ is_closing phase }
{
    matches!(phase, Phase::Closing { .. })
}

/// The phase with no invocation bound to its Closing.
pub(crate) fn unbind(phase: Phase) -> Phase
    ensures { result ≡ unbound phase }
{
    match phase {
        Phase::Closing { reason, until, .. } => Phase::Closing {
            reason,
            until,
            bound: None,
        },
        _ => phase,
    }
}

/// The invocation that a Starting or Closing environment serves next.
pub(crate) fn bound_of(phase: Phase) -> Option<Ticket>
    ensures { result ≡ bound_of phase }
{
    match phase {
        Phase::Starting { bound, .. } | Phase::Closing { bound, .. } => bound,
        Phase::Idle | Phase::Off | Phase::Busy { .. } => None,
    }
}

/// The invocation at hand: the one that is served, or the one that is bound.
pub(crate) fn at_hand(phase: Phase) -> Option<Ticket>
    ensures { result ≡ at_hand phase }
{
    match phase {
        Phase::Busy { invoke, .. } => Some(invoke),
        _ => bound_of(phase),
    }
}

/// The invocation, with its deadline, of a Busy that begins between two phases.
pub(crate) fn begun(before: Phase, after: Phase) -> Option<(Ticket, u64)>
    ensures { result ≡ begun before after }
{
    match (before, after) {
        (Phase::Busy { .. }, _) => None,
        (_, Phase::Busy { invoke, deadline }) => Some((invoke, deadline)),
        _ => None,
    }
}

/// The phase that follows an entry. `ready` says whether the runtime and all extensions have asked for
/// Next, `waits` whether the invocation at hand is unanswered; `limit` is the deadline of a Busy that begins.
pub(crate) fn settle(phase: Phase, ready: bool, waits: bool, limit: u64) -> Phase
    ensures { result ≡ settled limit ready waits phase }
{
    match phase {
        Phase::Starting { bound: None, .. } if ready => Phase::Idle,
        Phase::Starting {
            bound: Some(invoke),
            ..
        } if ready => {
            Phase::Busy {
                invoke,
                deadline: limit,
            }
        }
        Phase::Busy { .. } if ready && !waits => Phase::Idle,
        Phase::Idle if !ready => Phase::Starting {
            deadline: None,
            bound: None,
        },
        _ => phase,
    }
}

/// The phase after the first contact, which starts the clock of an Init.
pub(crate) fn start_clock(phase: Phase, now: u64) -> Phase
    requires { now < 2 ^ 53 }
    ensures { result ≡ clock_started now phase }
{
    match phase {
        Phase::Starting {
            deadline: None,
            bound,
        } => {
            Phase::Starting {
                deadline: Some(now + INIT_LIMIT),
                bound,
            }
        }
        _ => phase,
    }
}

/// The phase after an Invoke is placed; `limit` is the deadline of a Busy that begins.
pub(crate) fn place(phase: Phase, now: u64, limit: u64, ticket: Ticket) -> Phase
    requires { now < 2 ^ 53 }
    ensures { result ≡ placed now limit ticket phase }
{
    match phase {
        Phase::Idle => Phase::Busy {
            invoke: ticket,
            deadline: limit,
        },
        Phase::Starting { deadline, bound: _ } => {
            Phase::Starting {
                deadline: Some(deadline.unwrap_or(now + INIT_LIMIT)),
                bound: Some(ticket),
            }
        }
        Phase::Closing {
            reason,
            until,
            bound: _,
        } => {
            Phase::Closing {
                reason,
                until,
                bound: Some(ticket),
            }
        }
        Phase::Busy { .. } | Phase::Off => phase,
    }
}

/// The phase in which the next generation begins: Off if the service was stopped.
pub(crate) fn begin_again(stopped: bool, now: u64, bound: Option<Ticket>) -> Phase
    requires { now < 2 ^ 53 }
    ensures { result ≡ reborn stopped now bound }
{
    if stopped {
        return Phase::Off;
    }
    match bound {
        None => Phase::Starting {
            deadline: None,
            bound: None,
        },
        Some(invoke) => Phase::Starting {
            deadline: Some(now + INIT_LIMIT),
            bound: Some(invoke),
        },
    }
}
