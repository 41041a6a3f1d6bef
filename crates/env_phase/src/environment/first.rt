//! The first stage of a call: the table's cell for it, and the answers that the cell gives.

ghost use Rattle.std.specs.Prelude.{◌≡◌, ◌<◌, ◌^◌, []};
ghost use Rattle.call_model.specs.Generation.{TheRuntime, as_registered};
ghost use Rattle.call_model.specs.Stand.{at_hand, RuntimePoll};
ghost use Rattle.environment_step.specs.After.{first_stand, first_moves, over_now};
ghost use Rattle.call_model.specs.Polls.{replaced};
ghost use Rattle.extension_set.specs.Turns.{next_after, poll_gets_by_turn};
ghost use Rattle.env_phase.specs.Cells.{turn_at};
ghost use Rattle.env_phase.specs.First.{polled, answers, joined, request_kept, IsWelcome};
ghost use Rattle.env_phase.specs.Taking.{registered_name, IsShort, step_of};

use super::Environment;
use super::cells::Cell;
use super::kept::is_registered;
use crate::Step;
use crate::phases::at_hand;
use call_model::{Answer, Call, Phase, Rejection, Ticket};
use extension_set::{Moves, Turn};

/// The answer to the runtime's parked Next if a newer Next replaces it or a Withdraw names it.
fn replaced(ticket: Ticket, call: &Call) -> Option<Answer>
    ensures { result ≡ replaced ticket call.now RuntimePoll }
{
    match call {
        Call::RuntimeNext { .. } => Some(Answer::Refused(Rejection::Replaced)),
        Call::Withdraw { ticket: named } => {
            if *named == ticket {
                Some(Answer::Withdrawn)
            } else {
                None
            }
        }
        _ => None,
    }
}

/// What a cell means for the parked Nexts.
#[inline(always)]
fn turn_of(step: Step, cell: Cell) -> Turn
    ensures { result ≡ turn_at (step_of step) cell }
{
    Turn {
        ticket: step.ticket,
        now: step.now,
        own: cell.own,
        closes: cell.close,
    }
}

impl Environment {
    /// Applies the table's cell for a call, and gives the answers that belong to it.
    pub(super) fn first(&mut self, step: Step, call: &Call, moves: &mut Moves)
        requires moment { step.now < 2 ^ 53 }
        requires empty { moves.old ≡ [] }
        requires short { IsShort (registered_name call.now) }
        requires few { self.old.stand.registrations < 2 ^ 52 }
        ensures stand { self.new
            ≡ record {
              fixed = self.old.fixed;
              stand = first_stand self.old.fixed (step_of step) self.old.stand call.now;
            } }
        ensures given { moves.new ≡ first_moves (step_of step) self.old.stand call.now }
    {
        let cell = self.table(step.ticket, call);
        let turn = turn_of(step, cell);
        let phase = self.phase_after(step, call, turn);
        let request = self.request_after(step, phase, cell.waiting.is_some());
        let stopped = self.is_over(call);
        self.answer(turn, cell.waiting, call, moves);
        self.add_extension(call, turn.own);
        self.enter(phase, request, stopped);
    }

    /// The request count of the unanswered invocation at hand after the call: that of an Invoke that is
    /// placed now, none if the waiting call is answered.
    fn request_after(&self, step: Step, phase: Phase, answered: bool) -> Option<u64>
        ensures { result ≡ request_kept (step_of step) answered self.now.stand.request (at_hand phase) }
    {
        match at_hand(phase) {
            None => None,
            Some(invoke) => {
                if invoke == step.ticket {
                    Some(step.count)
                } else if answered {
                    None
                } else {
                    self.request
                }
            }
        }
    }

    /// Whether the service is stopped after the call.
    fn is_over(&self, call: &Call) -> bool
        ensures { result ≡ over_now self.now.stand call.now }
    {
        matches!(call, Call::Stop) || self.stopped
    }

    /// Enters the phase, with the request count of the unanswered invocation at hand.
    fn enter(&mut self, phase: Phase, request: Option<u64>, stopped: bool)
        ensures { self.new
            ≡ record {
              fixed = self.old.fixed;
              stand = record self.old.stand { phase = phase; request = request; stopped = stopped };
            } }
    {
        self.phase = phase;
        self.request = request;
        self.stopped = stopped;
    }

    /// Gives the answers of the first stage: to the waiting call, to parked Nexts and to the call itself.
    fn answer(&mut self, turn: Turn, caller: Option<Answer>, call: &Call, moves: &mut Moves)
        requires moment { turn.now < 2 ^ 53 }
        requires empty { moves.old ≡ [] }
        ensures stand { self.new ≡ record { fixed = self.old.fixed; stand = polled turn call.now self.old.stand } }
        ensures given { moves.new ≡ answers turn caller call.now self.old.stand }
    {
        moves.give(self.waiting_call(), caller);
        moves.give(self.runtime, self.runtime_gets(turn, call));
        self.runtime = self.runtime_after(turn, call);
        self.extensions.take(turn, call, moves);
        moves.give(Some(turn.ticket), turn.own);
    }

    /// The answer to the runtime's parked Next, if there is one. (Runtime API: Next invocation)
    fn runtime_gets(&self, turn: Turn, call: &Call) -> Option<Answer>
        ensures { result ≡ poll_gets_by_turn turn call.now RuntimePoll self.now.stand.runtime }
    {
        match (self.runtime, turn.closes) {
            (None, _) => None,
            (Some(_), Some(_)) => Some(Answer::Refused(Rejection::Container)),
            (Some(ticket), None) => replaced(ticket, call),
        }
    }

    /// The runtime's parked Next after the call. (Runtime API: Next invocation)
    fn runtime_after(&self, turn: Turn, call: &Call) -> Option<Ticket>
        ensures { result ≡ next_after TheRuntime turn call.now RuntimePoll self.now.stand.runtime }
    {
        if matches!(call, Call::RuntimeNext { .. }) {
            if turn.own.is_none() {
                Some(turn.ticket)
            } else {
                None
            }
        } else if self.runtime_gets(turn, call).is_none() {
            self.runtime
        } else {
            None
        }
    }

    /// Adds the extension that the call registers, if its answer is Registered.
    /// (Extensions API: Register)
    fn add_extension(&mut self, call: &Call, own: Option<Answer>)
        requires short { IsShort (registered_name call.now) }
        requires welcome { IsWelcome self.old.stand.members (as_registered call.now own) }
        requires few { self.old.stand.registrations < 2 ^ 52 }
        ensures { self.new ≡ record { fixed = self.old.fixed; stand = joined call.now own self.old.stand } }
    {
        self.registrations += u64::from(is_registered(own));
        if let Call::Register {
            name,
            invoke,
            shutdown,
            ..
        } = call
        {
            if let Some(Answer::Registered { count }) = own {
                match self.extensions.register(name, *invoke, *shutdown, count) {
                    Ok(()) => {}
                    Err(_) => unreachable!(),
                }
            }
        }
    }
}
