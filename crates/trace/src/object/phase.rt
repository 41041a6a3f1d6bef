//! The object of an environment's phase, and what an entry made of an environment.

ghost use Rattle.std.specs.Prelude.{◌≡◌};
ghost use Rattle.std.specs.List.{flat_map};
ghost use Rattle.call_model.specs.Laws.{ended_by};
ghost use Rattle.call_model.specs.Stand as stands;
ghost use Rattle.trace.specs.Object.{moved, released};
ghost use Rattle.trace.specs.PhaseObject as spec;
ghost use Rattle.trace.specs.PhaseObject.{phase_object};
ghost use Rattle.trace.specs.Sites.{turn_of};
ghost use Rattle.trace.specs.Telling.{Tells};

use crate::draft::{Part, Teller};
use crate::follower::Followed;
use arn_ids::EnvNo;
use call_model::{Phase, Reason, Ticket};
use env_phase::Environment;

pub(crate) fn bound_of(phase: Phase) -> Option<Ticket>
    ensures { result ≡ stands.bound_of phase }
{
    match phase {
        Phase::Starting { deadline: _, bound } => bound,
        Phase::Closing {
            reason: _,
            until: _,
            bound,
        } => bound,
        Phase::Idle | Phase::Busy { .. } | Phase::Off => None,
    }
}

pub(crate) fn served_by(phase: Phase) -> Option<Ticket>
    ensures { result ≡ spec.served_by phase }
{
    match phase {
        Phase::Busy { invoke, .. } => Some(invoke),
        _ => None,
    }
}

fn at_hand(phase: Phase) -> Option<Ticket>
    ensures { result ≡ stands.at_hand phase }
{
    match phase {
        Phase::Busy { invoke, .. } => Some(invoke),
        _ => bound_of(phase),
    }
}

pub(crate) fn phase_word(phase: Phase) -> &'static str
    ensures { result.now ≡ spec.phase_word phase }
{
    match phase {
        Phase::Starting { .. } => "starting",
        Phase::Idle => "idle",
        Phase::Busy { .. } => "busy",
        Phase::Closing { .. } => "closing",
        Phase::Off => "off",
    }
}

pub(crate) fn say_reason_if(teller: &mut Teller, phase: Phase)
    ensures { Tells (spec.reason_if phase) teller.old teller.new }
{
    if let Phase::Closing { reason, .. } = phase {
        teller.say_all(&[Part::Key("reason"), Part::Word(reason.as_str())]);
    }
}

/// Tells the object of the phase of an environment.
#[tactic(auto, unfolding(crate::specs::PhaseObject::phase_object))]
fn say_phase(teller: &mut Teller, env: EnvNo, environment: &Environment)
    ensures { Tells (phase_object env environment.now.stand.phase) teller.old teller.new }
{
    let phase = environment.phase();
    teller.say_all(&[Part::Open]);
    teller.say_number_if("bound", bound_of(phase));
    teller.say_number_if("deadline", environment.deadline());
    teller.say_all(&[Part::Key("environment"), Part::Number(u64::from(env))]);
    teller.say_number_if("invoke", served_by(phase));
    teller.say_all(&[Part::Key("phase"), Part::Word(phase_word(phase))]);
    say_reason_if(teller, phase);
    teller.say_all(&[Part::Close]);
}

fn same_option(one: Option<u64>, other: Option<u64>) -> bool
    ensures { result ≡ spec.same_option one other }
{
    match (one, other) {
        (None, None) => true,
        (Some(one), Some(other)) => one == other,
        _ => false,
    }
}

fn same_reason(one: Reason, other: Reason) -> bool
    ensures { result ≡ spec.same_reason one other }
{
    match (one, other) {
        (Reason::Timeout, Reason::Timeout) => true,
        (Reason::Failure, Reason::Failure) => true,
        (Reason::Spindown, Reason::Spindown) => true,
        _ => false,
    }
}

fn same_phase(one: Phase, other: Phase) -> bool
    ensures { result ≡ spec.same_phase one other }
{
    match (one, other) {
        (
            Phase::Starting { deadline, bound },
            Phase::Starting {
                deadline: other_deadline,
                bound: other_bound,
            },
        ) => same_option(deadline, other_deadline) && same_option(bound, other_bound),
        (Phase::Idle, Phase::Idle) => true,
        (
            Phase::Busy { invoke, deadline },
            Phase::Busy {
                invoke: other_invoke,
                deadline: other_deadline,
            },
        ) => invoke == other_invoke && deadline == other_deadline,
        (
            Phase::Closing {
                reason,
                until,
                bound,
            },
            Phase::Closing {
                reason: other_reason,
                until: other_until,
                bound: other_bound,
            },
        ) => {
            same_reason(reason, other_reason)
                && until == other_until
                && same_option(bound, other_bound)
        }
        (Phase::Off, Phase::Off) => true,
        _ => false,
    }
}

/// Tells the phase of an environment after the newest entry, if the entry moved it.
fn say_moved(teller: &mut Teller, followed: &Followed)
    ensures { Tells (moved (turn_of followed.now)) teller.old teller.new }
{
    if !same_phase(followed.before, followed.site.environment.phase()) {
        say_phase(teller, followed.number, &followed.site.environment);
    }
}

/// Tells the phases of all environments that the newest entry moved.
pub(crate) fn say_phases(teller: &mut Teller, sites: &[Followed])
    ensures { Tells (flat_map (λ s. moved (turn_of s)) sites.now) teller.old teller.new }
{
    for site in sites {
        say_moved(teller, site);
    }
}

/// Returns the invocation that was at hand before and is not at hand after.
fn ended_by(before: Phase, after: Phase) -> Option<Ticket>
    ensures { result ≡ ended_by before after }
{
    let invoke = at_hand(before)?;
    if at_hand(after) == Some(invoke) {
        return None;
    }
    Some(invoke)
}

/// Tells the ticket of the invocation whose charge the newest entry ended at an environment.
fn say_released(teller: &mut Teller, followed: &Followed)
    ensures { Tells (released (turn_of followed.now)) teller.old teller.new }
{
    if let Some(invoke) = ended_by(followed.before, followed.site.environment.phase()) {
        teller.say_all(&[Part::Number(invoke)]);
    }
}

/// Tells the tickets of all invocations whose charge the newest entry ended.
pub(crate) fn say_all_released(teller: &mut Teller, sites: &[Followed])
    ensures { Tells (flat_map (λ s. released (turn_of s)) sites.now) teller.old teller.new }
{
    for site in sites {
        say_released(teller, site);
    }
}
