//! The environments that a call reaches.

ghost use Rattle.std.specs.Prelude.{◌≡◌, ◌==◌, ◌<◌, ◌^◌, if◌then◌else◌, length, map, slice_set, slice_index_or, All};
ghost use Rattle.std.specs.List.{filter};
ghost use Rattle.env_phase.specs.Taking.{registered_name, IsShort};
ghost use Rattle.fleet.specs.Reaches.{reaches};
ghost use Rattle.trace.specs.Sites.{counted_in, moved_by, moved_if, HasRoom, IsFew, IsNumbered};

use crate::follower::Followed;
use crate::follower::arrival::Arrival;
use arn_ids::EnvNo;
use call_model::Call;
use extension_set::Moves;
use fleet::Reach;

/// Returns the environment with a number, if there is one.
fn numbered(sites: &[Followed], env: EnvNo) -> &[Followed]
    requires { IsNumbered sites.now }
    ensures { result.now ≡ filter (λ s. env == s.number) sites.now }
{
    let end = env as usize;
    if end == 0 || end > sites.len() {
        return &sites[..0];
    }
    &sites[end - 1..end]
}

/// Returns the environments that are within a reach.
pub(crate) fn within(sites: &[Followed], reach: Reach) -> &[Followed]
    requires { IsNumbered sites.now }
    ensures { result.now ≡ filter (λ s. reaches reach s.number) sites.now }
{
    match reach {
        Reach::Nowhere => &sites[..0],
        Reach::At(env) => numbered(sites, env),
        Reach::Everywhere => sites,
    }
}

/// Counts a call at the environments of its function, if it is an Invoke.
pub(crate) fn count_all(sites: &mut [Followed], call: &Call)
    requires { All IsFew sites.old }
    ensures { sites.new ≡ map (counted_in call.now) sites.old }
{
    if call.is_invoke() {
        for index in 0..sites.len() {
            sites[index].count(call);
        }
    }
}

/// Lets the environment at an index take a call.
fn take_at(sites: &mut [Followed], index: usize, arrival: &Arrival<'_>, moves: &mut Moves)
    requires there { index < length sites.old }
    requires moment { arrival.now.moment < 2 ^ 53 }
    requires roomy { All HasRoom sites.old }
    requires short { IsShort (registered_name arrival.now.call.now) }
    ensures { (d : Followed) → sites.new
        ≡ slice_set sites.old index (moved_by arrival.now (slice_index_or sites.old index d)) }
{
    sites[index].take(arrival, moves);
}

/// Lets the environment with a number take a call, if there is one.
fn take_numbered(sites: &mut [Followed], env: EnvNo, arrival: &Arrival<'_>, moves: &mut Moves)
    requires numbered { IsNumbered sites.old }
    requires moment { arrival.now.moment < 2 ^ 53 }
    requires roomy { All HasRoom sites.old }
    requires short { IsShort (registered_name arrival.now.call.now) }
    ensures { sites.new ≡ map (λ s. if env == s.number then moved_by arrival.now s else s) sites.old }
{
    let end = env as usize;
    if end != 0 && end <= sites.len() {
        take_at(sites, end - 1, arrival, moves);
    }
}

/// Lets each environment take a call.
fn take_all(sites: &mut [Followed], arrival: &Arrival<'_>, moves: &mut Moves)
    requires moment { arrival.now.moment < 2 ^ 53 }
    requires roomy { All HasRoom sites.old }
    requires short { IsShort (registered_name arrival.now.call.now) }
    ensures { sites.new ≡ map (moved_by arrival.now) sites.old }
{
    for index in 0..sites.len() {
        sites[index].take(arrival, moves);
    }
}

/// Lets the environments that a call reaches take it, once it is counted. `moves` is scratch space.
pub(crate) fn take_within(sites: &mut [Followed], arrival: &Arrival<'_>, moves: &mut Moves)
    requires numbered { IsNumbered sites.old }
    requires moment { arrival.now.moment < 2 ^ 53 }
    requires roomy { All HasRoom sites.old }
    requires short { IsShort (registered_name arrival.now.call.now) }
    ensures { sites.new ≡ map (moved_if arrival.now) sites.old }
{
    match arrival.reach {
        Reach::Nowhere => {}
        Reach::At(env) => take_numbered(sites, env, arrival, moves),
        Reach::Everywhere => take_all(sites, arrival, moves),
    }
}
