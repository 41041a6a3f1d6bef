//! One environment, as a follower keeps it.

ghost use Rattle.std.specs.Prelude.{◌≡◌, ◌<◌, ◌^◌, if◌then◌else◌};
ghost use Rattle.call_model.specs.History.{is_invoke_of};
ghost use Rattle.env_phase.specs.Taking.{registered_name, IsShort};
ghost use Rattle.trace.specs.Sites.{counted_in, moved_by, HasRoom};

use crate::follower::arrival::Arrival;
use arn_ids::{EnvNo, FnNo};
use call_model::{Call, Phase};
use env_phase::Step;
use extension_set::Moves;
use fleet::Site;

/// An environment after a history.
#[derive(Drop)]
pub(crate) struct Followed {
    /// Its number, from 1.
    pub(crate) number: EnvNo,
    /// How many Invokes its function has had.
    pub(crate) requests: u64,
    /// Its phase before the newest entry that reached it.
    pub(crate) before: Phase,
    /// The environment itself, with its function.
    pub(crate) site: Site,
}

/// Returns 1 if a call is an Invoke of a function, and 0 otherwise.
fn one_if_invokes(function: FnNo, call: &Call) -> u64
    ensures { result ≡ if is_invoke_of function call.now then 1 else 0 }
{
    match call {
        Call::Invoke {
            function: invoked,
            qualified: _,
            trace: _,
            body: _,
        } => { if *invoked == function { 1 } else { 0 } }
        _ => 0,
    }
}

impl Followed {
    /// Counts a call if it is an Invoke of the environment's function.
    pub(crate) fn count(&mut self, call: &Call)
        requires { self.old.requests < 2 ^ 52 }
        ensures { self.new ≡ counted_in call.now self.old }
    {
        self.requests += one_if_invokes(self.site.function, call);
    }

    /// Notes the phase, and takes a call that reaches the environment. `moves` is scratch space.
    pub(crate) fn take(&mut self, arrival: &Arrival<'_>, moves: &mut Moves)
        requires moment { arrival.now.moment < 2 ^ 53 }
        requires roomy { HasRoom self.old }
        requires short { IsShort (registered_name arrival.now.call.now) }
        ensures { self.new ≡ moved_by arrival.now self.old }
    {
        self.before = self.site.environment.phase();
        let step = Step {
            ticket: arrival.ticket,
            now: arrival.moment,
            count: self.requests,
        };
        self.site.take(step, arrival.call, moves);
    }
}
