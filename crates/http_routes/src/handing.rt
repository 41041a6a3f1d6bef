//! Which requests may be handed over to a handler.

ghost use Rattle.std.specs.Prelude.{◌≡◌, IfOk, Some};
ghost use Rattle.http_routes.specs.Handing as spec;
ghost use Rattle.http_routes.specs.Routes.{account_rows};
ghost use Rattle.http_routes.specs.declared.routes.AccountRoute.TheVariants.{Invoke};

use crate::heads::{asks_for_tail, is_synchronous};
use crate::names::{Target, invoked};
use crate::routes::{AccountRoute, account_route};
use arn_ids::Checked;
use handler_desk::is_of_handler;
use http::request::Parts;
use matchit::Router;
use std::alloc::{AllocError, Global};

/// Returns whether an Invoke is one that may be handed over.
fn hands_over_invoke(alloc: Global, config: &Checked, parts: &Parts) -> Result<bool, AllocError>
    ensures { IfOk result (λ may. may ≡ spec.hands_over_at config.now parts.now (Some Invoke)) }
{
    let methods = AccountRoute::Invoke.methods();
    if !methods.has(parts.method.as_str()) {
        return Ok(false);
    }
    match invoked(alloc, config, parts)? {
        Target::Malformed => Ok(false),
        Target::Unknown => Ok(true),
        Target::Function { .. } => Ok(!is_synchronous(parts) || asks_for_tail(parts)),
    }
}

/// Returns whether a request on the account's port may be handed over.
#[tactic(auto, unfolding(crate::specs::Handing::account_hands_over))]
pub(crate) fn account_hands_over(
    alloc: Global,
    router: &Router<AccountRoute>,
    config: &Checked,
    parts: &Parts,
) -> Result<bool, AllocError>
    requires { router.now ≡ account_rows }
    ensures { IfOk result (λ may. may ≡ spec.account_hands_over config.now parts.now) }
{
    match account_route(router, parts.uri.path()) {
        None => Ok(!is_of_handler(parts.uri.path())),
        Some(AccountRoute::Invoke) => hands_over_invoke(alloc, config, parts),
        Some(
            AccountRoute::Concurrency
            | AccountRoute::ReadConcurrency
            | AccountRoute::Stop
            | AccountRoute::Spindown
            | AccountRoute::Stats
            | AccountRoute::History
            | AccountRoute::Trace
            | AccountRoute::Environments
            | AccountRoute::Version
            | AccountRoute::Clock
            | AccountRoute::AdvanceClock
            | AccountRoute::PauseClock
            | AccountRoute::ResumeClock,
        ) => Ok(false),
    }
}
