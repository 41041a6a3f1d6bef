//! Which environments are in an Invoke's way and about to be ready again.

ghost use Rattle.std.specs.Prelude.{◌≡◌, ◌≤◌, ◌&&◌, length, All};
ghost use Rattle.std.specs.List.{list_any};
ghost use Rattle.concurrency_pool.specs.Pools.{usage_at};
ghost use Rattle.env_phase.specs.Taking.{has_answered};
ghost use Rattle.account_book.specs.Fleets.{IsOwned};
ghost use Rattle.account_book.specs.Premature.{in_way, is_unstarted};

use arn_ids::FnNo;
use call_model::{Phase, Throttle};
use concurrency_pool::Pool;
use fleet::Site;

/// Whether nothing has started an environment in this phase: it is in Init, whose time does not run.
pub(crate) fn is_unstarted(phase: Phase) -> bool
    ensures { result ≡ is_unstarted phase }
{
    matches!(phase, Phase::Starting { deadline: None, .. })
}

/// Whether what the function `own` has in flight is in the way of an Invoke of `function` that is refused
/// for this reason.
fn is_in_way(pool: &Pool, reason: Throttle, function: FnNo, own: FnNo) -> bool
    requires from_one { 1 ≤ own }
    requires there { own ≤ length pool.now.functions }
    ensures { result ≡ in_way reason function (usage_at pool.now own).reserved own }
{
    match reason {
        Throttle::Account => pool.reservation(own).is_none(),
        Throttle::Function => own == function && pool.reservation(own) != Some(0),
        Throttle::Environments => own == function,
    }
}

/// Whether an environment in the way of such an Invoke has answered its invocation and is not ready
/// again.
pub(crate) fn has_answered_in_way(
    sites: &[Site],
    pool: &Pool,
    reason: Throttle,
    function: FnNo,
) -> bool
    requires owned { All (IsOwned (length pool.now.functions)) sites.now }
    ensures { result
        ≡ list_any (λ site. has_answered site.environment.stand
        && in_way reason function (usage_at pool.now site.function).reserved site.function) sites.now }
{
    for site in sites {
        if site.environment.has_answered() && is_in_way(pool, reason, function, site.function) {
            return true;
        }
    }
    false
}
