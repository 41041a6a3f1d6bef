//! Which new connections get a place, and which connection makes room for one. The account's port and those of handlers
//! are callers' ports: their connections share their places.

ghost use Rattle.std.specs.Prelude.{◌≡◌, ◌≤◌, length, IfSome, option_map};
ghost use Rattle.connection_places.specs.Choices as choice;
ghost use Rattle.connection_places.specs.Looks as spec;

use crate::running::Running;
use crate::slots::Slot;
use service_port::Port;

/// The place of a connection at callers' ports that may make room, and for how many looks it
/// has been without a complete request.
type Best = Option<(usize, u32)>;

/// A connection at an environment's port that may make room: its place, the environment, how many
/// connections that port holds, and for how many looks it has been without a complete request.
#[derive(Clone, Copy)]
pub(crate) struct Spare {
    at: usize,
    environment: u32,
    held: usize,
    looks: u32,
}

/// Returns the better of two connections to make room: the one that has been longer without a
/// complete request, or the first of equal ones.
fn better(best: Best, at: usize, looks: Option<u32>) -> Best
    ensures { result ≡ spec.better best at looks }
{
    let Some(looks) = looks else {
        return best;
    };
    match best {
        Some((_, longest)) if longest >= looks => best,
        _ => Some((at, looks)),
    }
}

/// Returns the better of two connections to make room at the environments' ports: the one whose
/// port holds more; of ports that hold as many the one that has been longer without a complete
/// request, or the first of equal ones.
fn fuller(best: Option<Spare>, spare: Option<Spare>) -> Option<Spare>
    ensures { result ≡ choice.fuller best spare }
{
    let Some(other) = spare else {
        return best;
    };
    let Some(first) = best else {
        return spare;
    };
    if first.held < other.held || first.held == other.held && first.looks < other.looks {
        spare
    } else {
        best
    }
}

/// Returns how many of `most` places are kept for callers' ports: one in sixteen, up to 64; and of 1,024 or more, 64
/// further ones, since as many connections may follow the trace there, of which none makes room.
pub(crate) fn reserve_of(most: usize) -> usize
    ensures { result ≡ spec.reserve_of most }
{
    (most / 16).min(64) + (most / 1024 * 64).min(64)
}

/// Returns for how many looks the connection of a place has been without a complete request; `None`
/// if it may not make room, or is at an environment's port.
fn spare_looks(running: &Option<Running>) -> Option<u32>
    ensures { result ≡ choice.spare_of running.now }
{
    match running {
        Some(running) => running.seen.looks_of_caller(),
        None => None,
    }
}

/// Returns the place whose connection makes room at callers' ports: among those that may, the
/// first that has been longest without a complete request.
fn best_of<Y, V>(slots: &[Slot<Y, V>]) -> Best
    ensures { result ≡ choice.best_of slots.now }
{
    let mut best = None;
    let mut at = 0;
    for slot in slots {
        best = better(best, at, spare_looks(&slot.running));
        at += 1;
    }
    best
}

/// Returns the environment at whose port the connection of a place is.
fn environment_at(running: &Option<Running>) -> Option<u32>
    ensures { result ≡ choice.environment_at running.now }
{
    match running {
        Some(running) => running.seen.port.environment(),
        None => None,
    }
}

/// Returns how many places have a connection at an environment's port.
fn count_of_environments<Y, V>(slots: &[Slot<Y, V>]) -> usize
    ensures exact { result ≡ choice.count_of_environments slots.now }
    ensures bound { result ≤ length slots.now }
{
    let mut count = 0;
    for slot in slots {
        if environment_at(&slot.running).is_some() {
            count += 1;
        }
    }
    count
}

/// Returns whether the connection of a place is at the port of this environment.
fn is_at(running: &Option<Running>, environment: u32) -> bool
    ensures { result ≡ choice.is_this environment (choice.environment_at running.now) }
{
    match environment_at(running) {
        Some(other) => other == environment,
        None => false,
    }
}

/// Returns how many places have a connection at the port of this environment.
fn count_at<Y, V>(environment: u32, slots: &[Slot<Y, V>]) -> usize
    ensures exact { result ≡ choice.count_at environment slots.now }
    ensures bound { result ≤ length slots.now }
{
    let mut count = 0;
    for slot in slots {
        if is_at(&slot.running, environment) {
            count += 1;
        }
    }
    count
}

/// Returns how many connections the port of an environment holds: as many as that of the best one so
/// far, if it is the same port, so that a port that holds many is counted once.
fn held_at<Y, V>(best: Option<Spare>, environment: u32, slots: &[Slot<Y, V>]) -> usize
    requires { IfSome best (λ best. best.held ≡ choice.count_at best.environment slots.now) }
    ensures { result ≡ choice.count_at environment slots.now }
{
    match best {
        Some(best) if best.environment == environment => best.held,
        _ => count_at(environment, slots),
    }
}

/// Returns the connection of a place, if it may make room for a newcomer at the port of this
/// environment, which holds `own` connections: if it is at the same port, or at one that holds more.
fn spare_at<Y, V>(
    environment: u32,
    own: usize,
    best: Option<Spare>,
    at: usize,
    running: &Option<Running>,
    slots: &[Slot<Y, V>],
) -> Option<Spare>
    requires own { own ≡ choice.count_at environment slots.now }
    requires held { IfSome best (λ best. best.held ≡ choice.count_at best.environment slots.now) }
    ensures { result ≡ choice.spare_at environment slots.now at running.now }
{
    let Some(running) = running else {
        return None;
    };
    let Some((other, looks)) = running.seen.looks_of_environment(environment) else {
        return None;
    };
    let held = held_at(best, other, slots);
    if other == environment || own < held {
        Some(Spare {
            at,
            environment: other,
            held,
            looks,
        })
    } else {
        None
    }
}

/// Returns the connection that makes room for a newcomer at the port of this environment: among
/// those that may, one at the port that holds most, and there the first that has been longest
/// without a complete request.
fn best_of_ports<Y, V>(environment: u32, slots: &[Slot<Y, V>]) -> Option<Spare>
    ensures exact { result ≡ choice.best_of_ports environment slots.now }
    ensures fullest { IfSome result (choice.IsFullest environment slots.now) }
    ensures gives_way { IfSome result (choice.GivesWay environment slots.now) }
{
    let own = count_at(environment, slots);
    let mut best = None;
    let mut at = 0;
    for slot in slots {
        best = fuller(
            best,
            spare_at(environment, own, best, at, &slot.running, slots),
        );
        at += 1;
    }
    best
}

/// Returns whether a newcomer at this port may have one of `most` places that no
/// connection has. At an environment's port, the places that are kept for callers' ports are
/// not available.
pub(crate) fn admits<Y, V>(most: usize, port: Port, slots: &[Slot<Y, V>]) -> bool
    ensures { result ≡ choice.admits most port slots.now }
{
    match port {
        Port::Account | Port::Handled(_) => true,
        Port::Environment(_) => {
            count_of_environments(slots).saturating_add(reserve_of(most)) < most
        }
    }
}

/// Returns the place whose connection makes room for a newcomer at the port of this environment.
fn place_of_ports<Y, V>(environment: u32, slots: &[Slot<Y, V>]) -> Option<usize>
    ensures { result ≡ option_map (λ best. best.at) (choice.best_of_ports environment slots.now) }
{
    match best_of_ports(environment, slots) {
        Some(best) => Some(best.at),
        None => None,
    }
}

/// Returns the place whose connection makes room for a newcomer at this port, if one of
/// `most` places cannot be had otherwise: at callers' ports, and as long as environments have not
/// used up their share, that of the connection at callers' ports that has been longest without a
/// complete request; otherwise that of one at the environment's port that holds most.
pub(crate) fn place_for<Y, V>(most: usize, port: Port, slots: &[Slot<Y, V>]) -> Option<usize>
    ensures { result ≡ choice.place_for most port slots.now }
{
    if admits(most, port, slots)
        && let Some((at, _)) = best_of(slots)
    {
        return Some(at);
    }
    match port {
        Port::Account | Port::Handled(_) => None,
        Port::Environment(environment) => place_of_ports(environment, slots),
    }
}
