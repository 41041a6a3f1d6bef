//! The phase after a call, by the table's cell for it, and the invocation that waits there.
//! (Lambda execution environment lifecycle)

ghost use Rattle.std.specs.Prelude.{◌≡◌, ◌<◌, ◌^◌};
ghost use Rattle.call_model.specs.Stand.{is_known};
ghost use Rattle.call_model.specs.Table.{is_registered, kept, own_answer};
ghost use Rattle.environment_step.specs.After.{cell_at, limit_at, waiting_call};
ghost use Rattle.env_phase.specs.First.{turn_of};
ghost use Rattle.env_phase.specs.Taking.{step_of};

use super::Environment;
use crate::Step;
use crate::phases::{at_hand, place, start_clock, unbind};
use call_model::{Answer, Call, Phase, Ticket};
use extension_set::{CLOSING_LIMIT, Turn};

/// Whether the answer is Registered.
pub(super) fn is_registered(own: Option<Answer>) -> bool
    ensures { result ≡ is_registered own }
{
    matches!(own, Some(Answer::Registered { .. }))
}

impl Environment {
    /// Whether the extension is registered in the present generation.
    pub(super) fn knows(&self, ext: u64) -> bool
        ensures { result ≡ is_known self.now.stand ext }
    {
        self.extensions.is_known(ext)
    }

    /// The waiting call: the invocation that is bound, or the unanswered one that is served.
    pub(super) fn waiting_call(&self) -> Option<Ticket>
        ensures { result ≡ waiting_call self.now.stand }
    {
        if self.request.is_some() {
            at_hand(self.phase)
        } else {
            None
        }
    }

    /// The phase after a call, by what the call does here.
    pub(super) fn phase_after(&self, step: Step, call: &Call, turn: Turn) -> Phase
        requires moment { step.now < 2 ^ 53 }
        requires turn { turn ≡ turn_of (step_of step) self.now.stand call.now }
        ensures { result ≡ cell_at self.now.fixed (step_of step) self.now.stand call.now }
    {
        match turn.closes {
            Some(reason) => Phase::Closing {
                reason,
                until: step.now + CLOSING_LIMIT,
                bound: None,
            },
            None => self.kept(step, call, turn.own),
        }
    }

    /// The phase after a call that does not close the environment.
    #[tactic(auto, unfolding(call_model::specs::Table::kept))]
    fn kept(&self, step: Step, call: &Call, own: Option<Answer>) -> Phase
        requires moment { step.now < 2 ^ 53 }
        requires own { own ≡ own_answer self.now.stand call.now }
        ensures { result ≡ kept step.now (limit_at self.now.fixed (step_of step)) step.ticket self.now.stand call.now }
    {
        match call {
            Call::Invoke { .. } => {
                place(self.phase, step.now, self.limit(step.now), step.ticket)
            }
            Call::RuntimeNext { .. } => start_clock(self.phase, step.now),
            Call::ExtNext { ext, .. } => {
                if self.knows(*ext) {
                    start_clock(self.phase, step.now)
                } else {
                    self.phase
                }
            }
            Call::Register { .. } => {
                if is_registered(own) {
                    start_clock(self.phase, step.now)
                } else {
                    self.phase
                }
            }
            Call::Stop => {
                if self.stopped {
                    self.phase
                } else {
                    unbind(self.phase)
                }
            }
            _ => self.phase,
        }
    }
}
