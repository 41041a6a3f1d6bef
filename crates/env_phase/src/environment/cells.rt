//! The cells of the table of phases, by the names that its definition gives them.
//! (Runtime API; Extensions API)

ghost use Rattle.std.specs.Prelude.{◌≡◌};
ghost use Rattle.call_model.specs.Table as spec;
ghost use Rattle.env_phase.specs.Cells.{at_any, at_ticket};

use call_model::{Answer, Reason, Rejection, Ticket};

/// A cell of the table: what a call does in a phase.
#[derive(Clone, Copy)]
pub(super) struct Cell {
    /// The answer to the call itself, if it gets one now. An event in it gets its number later.
    pub(super) own: Option<Answer>,
    /// The answer to the waiting call, if there is such a call. An output or an error names the ticket of the
    /// call that is taken, which has its bytes.
    pub(super) waiting: Option<Answer>,
    /// Why the environment closes, if it does.
    pub(super) close: Option<Reason>,
}

/// A cell that at most answers the call itself.
#[inline(always)]
pub(super) fn only(own: Option<Answer>) -> Cell
    ensures { result ≡ at_any (spec.only own) }
{
    Cell {
        own,
        waiting: None,
        close: None,
    }
}

#[inline(always)]
pub(super) fn parks() -> Cell
    ensures { result ≡ at_any spec.parks }
{
    only(None)
}

#[inline(always)]
pub(super) fn nothing() -> Cell
    ensures { result ≡ at_any spec.nothing }
{
    only(None)
}

#[inline(always)]
pub(super) fn accepted() -> Cell
    ensures { result ≡ at_any spec.accepted }
{
    only(Some(Answer::Accepted))
}

#[inline(always)]
fn refused(kind: Rejection) -> Cell
    ensures { result ≡ at_any (spec.only (spec.refused kind)) }
{
    only(Some(Answer::Refused(kind)))
}

#[inline(always)]
pub(super) fn refused_state() -> Cell
    ensures { result ≡ at_any spec.refused_state }
{
    refused(Rejection::State)
}

#[inline(always)]
pub(super) fn refused_container() -> Cell
    ensures { result ≡ at_any spec.refused_container }
{
    refused(Rejection::Container)
}

#[inline(always)]
pub(super) fn not_idle() -> Cell
    ensures { result ≡ at_any spec.not_idle }
{
    refused(Rejection::NotIdle)
}

#[inline(always)]
pub(super) fn bad_id() -> Cell
    ensures { result ≡ at_any spec.bad_id }
{
    refused(Rejection::BadId)
}

#[inline(always)]
pub(super) fn unknown() -> Cell
    ensures { result ≡ at_any spec.unknown }
{
    refused(Rejection::Unknown)
}

#[inline(always)]
pub(super) fn gets_output(ticket: Ticket) -> Cell
    ensures { result ≡ at_ticket ticket spec.gets_output }
{
    Cell {
        own: Some(Answer::Accepted),
        waiting: Some(Answer::Output { source: ticket }),
        close: None,
    }
}

#[inline(always)]
pub(super) fn too_large() -> Cell
    ensures { result ≡ at_any spec.too_large }
{
    Cell {
        own: Some(Answer::Refused(Rejection::TooLarge)),
        waiting: Some(Answer::OutputTooLarge),
        close: None,
    }
}

#[inline(always)]
pub(super) fn gets_error(ticket: Ticket) -> Cell
    ensures { result ≡ at_ticket ticket spec.gets_error }
{
    Cell {
        own: Some(Answer::Accepted),
        waiting: Some(Answer::Error { source: ticket }),
        close: None,
    }
}

#[inline(always)]
pub(super) fn fails(ticket: Ticket) -> Cell
    ensures { result ≡ at_ticket ticket spec.fails }
{
    Cell {
        own: Some(Answer::Accepted),
        waiting: Some(Answer::Error { source: ticket }),
        close: Some(Reason::Failure),
    }
}

#[inline(always)]
pub(super) fn init_times_out() -> Cell
    ensures { result ≡ at_any spec.init_times_out }
{
    Cell {
        own: None,
        waiting: Some(Answer::InitTimedOut),
        close: Some(Reason::Timeout),
    }
}

#[inline(always)]
pub(super) fn times_out() -> Cell
    ensures { result ≡ at_any spec.times_out }
{
    Cell {
        own: None,
        waiting: Some(Answer::TimedOut),
        close: Some(Reason::Timeout),
    }
}

#[inline(always)]
pub(super) fn spins_down() -> Cell
    ensures { result ≡ at_any spec.spins_down }
{
    Cell {
        own: Some(Answer::Accepted),
        waiting: None,
        close: Some(Reason::Spindown),
    }
}

#[inline(always)]
pub(super) fn stops() -> Cell
    ensures { result ≡ at_any spec.stops }
{
    Cell {
        own: None,
        waiting: Some(Answer::Stopped),
        close: Some(Reason::Spindown),
    }
}

#[inline(always)]
pub(super) fn tells_stopped() -> Cell
    ensures { result ≡ at_any spec.tells_stopped }
{
    Cell {
        own: None,
        waiting: Some(Answer::Stopped),
        close: None,
    }
}
