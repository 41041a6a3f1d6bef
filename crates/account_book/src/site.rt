//! What a call changes at one environment.

ghost use Rattle.std.specs.Prelude.{◌≡◌, ◌+◌, ◌<◌, ◌≤◌, ◌^◌, length};
ghost use Rattle.env_phase.specs.Taking.{step_of, given, registered_name, IsShort};
ghost use Rattle.fleet.specs.Sites.{moved, IsFew};
ghost use Rattle.account_book.specs.Fleets.{put_all, is_site_due};

use crate::room::Roomy;
use call_model::{Answer, Call, Ticket};
use env_phase::Step;
use extension_set::Moves;
use fleet::Site;

/// Whether an environment's deadline has come.
pub fn is_due(site: &Site, now: u64) -> bool
    ensures { result ≡ is_site_due now site.now }
{
    match site.environment.deadline() {
        None => false,
        Some(deadline) => deadline <= now,
    }
}

/// Hands an environment a call that concerns it, and puts its answers in their places among the others.
/// `moves` is scratch space.
pub fn take(
    site: &mut Site,
    step: Step,
    call: &Call,
    moves: &mut Moves,
    answers: &mut Roomy<(Ticket, Answer)>,
)
    requires moment { step.now < 2 ^ 53 }
    requires few { IsFew site.old }
    requires short { IsShort (registered_name call.now) }
    requires room { length (given site.old.environment (step_of step) call.now) ≤ answers.old.1 }
    ensures site { site.new ≡ moved (step_of step) call.now site.old }
    ensures given { answers.new.0 ≡ put_all (given site.old.environment (step_of step) call.now) answers.old.0 }
    ensures room { answers.new.1 + length (given site.old.environment (step_of step) call.now) ≡ answers.old.1 }
{
    site.take(step, call, moves);
    put_all(answers, moves.as_slice());
}

/// Puts the answers in their places among the others.
fn put_all(answers: &mut Roomy<(Ticket, Answer)>, moves: &[(Ticket, Answer)])
    requires { length moves.now ≤ answers.old.1 }
    ensures put { answers.new.0 ≡ put_all moves.now answers.old.0 }
    ensures room { answers.new.1 + length moves.now ≡ answers.old.1 }
{
    for pair in moves {
        answers.put(*pair);
    }
}
