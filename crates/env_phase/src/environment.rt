//! One execution environment, and the calls that concern it.

mod after;
mod cells;
mod first;
mod kept;
mod table;

ghost use Rattle.std.specs.Prelude.{◌≡◌, ◌+◌, ◌*◌, ◌<◌, ◌≤◌, ◌^◌, length, [], IfOk};
ghost use Rattle.arn_ids.specs.Limits.{most_extensions};
ghost use Rattle.call_model.specs.Laws.{is_taken};
ghost use Rattle.call_model.specs.Next.{deadline_of};
ghost use Rattle.call_model.specs.Stand.{bound_of};
ghost use Rattle.environment_step.specs.After.{expires_now};
ghost use Rattle.env_phase.specs.Taking.{opened, is_off, has_answered, registered_name, IsShort, step_of, taken, given};

use crate::Step;
use crate::phases::{at_hand, bound_of, is_busy, is_closing};
use arn_ids::{Function, Row, Text};
use call_model::{Call, Phase, Ticket};
use extension_set::{ExtensionSet, Moves};
use std::alloc::{AllocError, Global};
use std::marker::Model;

/// The state of one execution environment. Only `open` allocates.
#[derive(Drop)]
pub struct Environment {
    /// Its function's timeout in milliseconds.
    timeout: u64,
    /// The names of the extensions that must register before it is ready.
    expected: Row<Text>,
    phase: Phase,
    /// The ticket of the runtime's parked Next.
    runtime: Option<Ticket>,
    /// The extensions that are registered in the present generation.
    extensions: ExtensionSet,
    /// The count in the request identifier of the invocation at hand, until that is answered.
    request: Option<u64>,
    /// Whether the service was stopped.
    stopped: bool,
    /// How many extensions were registered, over all generations.
    registrations: u64,
    /// How many events extensions were sent, over all generations.
    events: u64,
}

impl Model for Environment {
    ghost use Rattle.std.specs.Prelude.{◌<◌, ◌≤◌, ◌^◌, length};
    ghost use Rattle.arn_ids.specs.Limits.{most_extensions};
    ghost use Rattle.environment_step.specs.After.{Known};

    ghost Value = { Known };

    ghost view = { λ a. record {
      fixed = record { timeout = a.timeout; expected = a.expected };
      stand = record {
        phase = a.phase;
        runtime = a.runtime;
        members = a.extensions;
        request = a.request;
        stopped = a.stopped;
        registrations = a.registrations;
        events = a.events;
      };
    } };

    ghost invariant = { λ a. (a.timeout < 2 ^ 32) × (length a.extensions ≤ most_extensions) };
}

/// Copies the names.
fn copied(alloc: Global, names: &[Text]) -> Result<Row<Text>, AllocError>
    ensures { IfOk result (λ row. row ≡ names.now) }
{
    let mut row = Vec::with_capacity(alloc, names.len())?;
    for name in names {
        row.push(Text::new(String::from_str(alloc, name.as_str())?))?;
    }
    Ok(Row::new(row))
}

impl Environment {
    /// Returns an environment of the function before any call: it is starting, and the clock of its
    /// Init is not running. The function's timeout is at most 900 seconds, as in a checked configuration.
    pub fn open(alloc: Global, function: &Function) -> Result<Environment, AllocError>
        requires { function.now.timeout_s ≤ 900 }
        ensures { IfOk result (λ e. e ≡ opened function.now) }
    {
        Ok(Environment {
            timeout: 1000 * u64::from(function.timeout_s),
            expected: copied(alloc, function.extensions.as_slice())?,
            phase: Phase::Starting {
                deadline: None,
                bound: None,
            },
            runtime: None,
            extensions: ExtensionSet::open(alloc)?,
            request: None,
            stopped: false,
            registrations: 0,
            events: 0,
        })
    }

    /// Takes a call that concerns this environment: an Invoke that is placed here, a call that names
    /// it or one of its tickets, or a Stop. The name in a Register has at most 128 bytes. The moves
    /// are the entry's answers to this environment's tickets, in rising order of the tickets. The call
    /// never fails and never allocates.
    pub fn take(&mut self, step: Step, call: &Call, moves: &mut Moves)
        requires moment { step.now < 2 ^ 53 }
        requires empty { moves.old ≡ [] }
        requires few { self.old.stand.events < 2 ^ 52 }
        requires few_registered { self.old.stand.registrations < 2 ^ 52 }
        requires short { IsShort (registered_name call.now) }
        ensures stand { self.new ≡ taken self.old (step_of step) call.now }
        ensures given { moves.new ≡ given self.old (step_of step) call.now }
        // In any state there are at most two answers to each extension, two to the runtime (one of them when a
        // Busy begins), one to the waiting call and one to the call itself: 24. In a state that a history leads to
        // there are at most 13 (`laws::meets`).
        ensures answers { length moves.new ≤ 2 * length self.old.stand.members + 4 }
        ensures members { length self.new.stand.members ≤ most_extensions }
        ensures events { self.new.stand.events ≤ self.old.stand.events + 24 }
        ensures registrations { self.new.stand.registrations ≤ self.old.stand.registrations + 1 }
    {
        self.take_in_stages(step, call, moves);
    }

    /// Applies the table's cell for the call, and then what follows every entry.
    #[tactic(auto, unfolding(environment_step::specs::After::stand_after, environment_step::specs::After::moves_of))]
    fn take_in_stages(&mut self, step: Step, call: &Call, moves: &mut Moves)
        requires moment { step.now < 2 ^ 53 }
        requires empty { moves.old ≡ [] }
        requires few { self.old.stand.events < 2 ^ 52 }
        requires few_registered { self.old.stand.registrations < 2 ^ 52 }
        requires short { IsShort (registered_name call.now) }
        ensures stand { self.new ≡ taken self.old (step_of step) call.now }
        ensures given { moves.new ≡ given self.old (step_of step) call.now }
        ensures ten_before { length self.old.stand.members ≤ most_extensions }
        ensures ten_after { length self.new.stand.members ≤ most_extensions }
    {
        let before = self.phase;
        let expires = self.expires(call);
        self.first(step, call, moves);
        self.finish(step.now, expires, before, moves);
    }

    /// Whether the call ends a Closing whose time is over.
    fn expires(&self, call: &Call) -> bool
        ensures { result ≡ expires_now self.now.stand call.now }
    {
        matches!(call, Call::Expire { .. }) && is_closing(self.phase)
    }

    /// The deadline, in milliseconds, of a Busy that begins now.
    fn limit(&self, now: u64) -> u64
        requires { now < 2 ^ 53 }
        ensures { result ≡ now + self.now.fixed.timeout }
    {
        now + self.timeout
    }

    /// The invocation that it serves next, if one is bound while it starts or closes.
    pub fn bound(&self) -> Option<Ticket>
        ensures { result ≡ bound_of self.now.stand.phase }
    {
        bound_of(self.phase)
    }

    /// The ticket of the runtime's parked Next, if it has one.
    pub fn runtime(&self) -> Option<Ticket>
        ensures { result ≡ self.now.stand.runtime }
    {
        self.runtime
    }

    /// The extensions that are registered in the present generation.
    pub fn extensions(&self) -> &ExtensionSet
        ensures { result.now ≡ self.now.stand.members }
    {
        &self.extensions
    }

    /// How many extensions are registered in the present generation, at most ten.
    pub fn members(&self) -> usize
        ensures count { result ≡ length self.now.stand.members }
        ensures few { result ≤ most_extensions }
    {
        self.extensions.len()
    }

    /// Whether it serves an invocation or has one bound.
    pub fn is_taken(&self) -> bool
        ensures { result ≡ is_taken self.now.stand.phase }
    {
        at_hand(self.phase).is_some()
    }

    /// Whether it is shut down for good.
    pub fn is_off(&self) -> bool
        ensures { result ≡ is_off self.now.stand.phase }
    {
        matches!(self.phase, Phase::Off)
    }

    /// Whether its invocation is answered, but its runtime or an extension has not asked for the next
    /// one yet. (life cycle: Invoke phase)
    pub fn has_answered(&self) -> bool
        ensures { result ≡ has_answered self.now.stand }
    {
        is_busy(self.phase) && self.request.is_none()
    }

    /// Its phase.
    pub fn phase(&self) -> Phase
        ensures { result ≡ self.now.stand.phase }
    {
        self.phase
    }

    /// The moment, in milliseconds, at which the phase expires; none if it lasts until a call ends it.
    /// (life cycle: Init phase, Invoke phase, Shutdown phase)
    pub fn deadline(&self) -> Option<u64>
        ensures { result ≡ deadline_of self.now.stand.phase }
    {
        match self.phase {
            Phase::Starting { deadline, bound: _ } => deadline,
            Phase::Busy {
                invoke: _,
                deadline,
            } => Some(deadline),
            Phase::Closing {
                reason: _,
                until,
                bound: _,
            } => Some(until),
            Phase::Idle | Phase::Off => None,
        }
    }
}
