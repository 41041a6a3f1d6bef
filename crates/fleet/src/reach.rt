//! Which environments an entry reaches.

ghost use Rattle.std.specs.Prelude.{◌≡◌, ◌≤◌, length, reverse};
ghost use Rattle.call_model.specs.History.{call_of, poll_env};
ghost use Rattle.fleet.specs.Reaches.{at_most, before, reach};

use arn_ids::EnvNo;
use call_model::{Call, Entry, Ticket};
use entry_blocks::Blocks;

/// The environments that an entry concerns.
#[derive(Clone, Copy)]
pub enum Reach {
    /// None: the account alone answers the call.
    Nowhere,
    /// One: that where the call is placed, or that it names.
    At(EnvNo),
    /// All of them.
    Everywhere,
}

impl Reach {
    /// Returns the reach of a call that concerns this environment, if any.
    fn at_most(env: Option<EnvNo>) -> Reach
        ensures { result ≡ at_most env }
    {
        match env {
            None => Reach::Nowhere,
            Some(env) => Reach::At(env),
        }
    }

    /// Returns the environments that the next call reaches; `place` is where it is placed.
    pub fn of_next(entries: &Blocks<Entry>, place: Option<EnvNo>, call: &Call) -> Reach
        ensures { result ≡ reach (reverse entries.now.0) place call.now }
    {
        Reach::of(entries, entries.len() as Ticket, place, call)
    }

    /// Returns the environments that the call with a ticket reaches; `place` is where it is placed.
    pub fn of(entries: &Blocks<Entry>, own: Ticket, place: Option<EnvNo>, call: &Call) -> Reach
        requires { own ≤ length entries.now.0 }
        ensures { result ≡ reach (before (reverse entries.now.0) own) place call.now }
    {
        match call {
            Call::Stop => Reach::Everywhere,
            Call::Withdraw { ticket } => Reach::at_most(poll_env_at(entries, own, *ticket)),
            _ => Reach::at_most(place.or(call.environment())),
        }
    }
}

/// Returns the environment of the call with a ticket, if that is a Next and older than the one with the
/// ticket `own`.
#[tactic(auto, using(crate::proofs::Earlier::far_call))]
fn poll_env_at(entries: &Blocks<Entry>, own: Ticket, ticket: Ticket) -> Option<EnvNo>
    requires { own ≤ length entries.now.0 }
    ensures { result ≡ poll_env (call_of (before (reverse entries.now.0) own) ticket) }
{
    if ticket >= own {
        return None;
    }
    poll_env(&entries.at(ticket as usize).call)
}

/// Returns the environment of a call, if that is a Next.
fn poll_env(call: &Call) -> Option<EnvNo>
    ensures { result ≡ poll_env call.now }
{
    match call {
        Call::RuntimeNext { env } => Some(*env),
        Call::ExtNext { env, .. } => Some(*env),
        _ => None,
    }
}
