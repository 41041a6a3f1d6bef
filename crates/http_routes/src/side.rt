//! One port of the service, and the decision on its requests.

ghost use Rattle.std.specs.Prelude.{◌≡◌, ◌<◌, ℕ, List, length, IfOk};
ghost use Rattle.std.specs.Arc.{arc_value};
ghost use Rattle.arn_ids.specs.Limits.{longest_body};
ghost use Rattle.http_routes.specs.Decisions.{IsPortOf, decision};
ghost use Rattle.http_routes.specs.Handing.{hands_over, is_own};
ghost use Rattle.http_routes.specs.Sides.{AreRoutesOf};
ghost use Rattle.decisions.specs.Decisions.{IsAllowed};

use crate::account_port::account_decision;
use crate::environment_port::environment_decision;
use crate::handing::account_hands_over;
use crate::refusals::{Cause, refused};
use crate::routes::{AccountRoute, EnvironmentRoute, account_routes, environment_routes};
use arn_ids::{Checked, EnvNo};
use decisions::{Decide, Decision, Received};
use handler_desk::is_of_handler;
use http::request::Parts;
use lambda_wire::PayloadScratch;
use matchit::Router;
use service_port::Port;
use std::alloc::{AllocError, Global};
use std::marker::Model;
use std::sync::Arc;

/// The routes of a port.
#[derive(Drop)]
enum Routes {
    Account(Router<AccountRoute>),
    Environment(EnvNo, Router<EnvironmentRoute>),
    // One of handlers, with this number, has none.
    Handled(u16),
}

fn routes_of(alloc: Global, port: Port) -> Result<Routes, AllocError>
    ensures { IfOk result (AreRoutesOf port) }
{
    match port {
        Port::Account => match account_routes(alloc) {
            Ok(router) => Ok(Routes::Account(router)),
            Err(_) => Err(AllocError),
        },
        Port::Environment(env) => match environment_routes(alloc) {
            Ok(router) => Ok(Routes::Environment(env, router)),
            Err(_) => Err(AllocError),
        },
        Port::Handled(number) => Ok(Routes::Handled(number)),
    }
}

/// One port of the service: its configuration, its salt, whose port it is, and its routes.
#[derive(Drop)]
pub struct Side {
    config: Arc<Checked>,
    salt: u64,
    routes: Routes,
}

impl Model for Side {
    ghost use Rattle.std.specs.Arc.{arc_value};
    ghost use Rattle.http_routes.specs.Decisions.{Served, IsPortOf};
    ghost use Rattle.http_routes.specs.Sides.{port_of, AreWhole};

    ghost Value = { Served };

    ghost view = { λ s. record { config = arc_value s.config; salt = s.salt; port = port_of s.routes } };

    ghost invariant = { λ s. IsPortOf (arc_value s.config) (port_of s.routes) × AreWhole s.routes };
}

impl Side {
    /// Opens a port of the configuration, with the salt of its identifiers: the account's port, that
    /// of an environment from 1 to `Checked::environments`, or one of handlers. Its routes are made here, once. It
    /// fails only if an allocation fails.
    pub fn open(
        alloc: Global,
        config: Arc<Checked>,
        salt: u64,
        port: Port,
    ) -> Result<Side, AllocError>
        requires { IsPortOf (arc_value config) port }
        ensures { IfOk result (λ side. side ≡ record { config = arc_value config; salt = salt; port = port }) }
    {
        let routes = routes_of(alloc, port)?;
        Ok(Side {
            config,
            salt,
            routes,
        })
    }

    /// Decides a request by its head and body: to `Submit` its call, to `Reply` with the first
    /// refusal that holds, to `Show` what is asked for, or what is asked of the `Clock`. The call
    /// shares the body, which is not copied. Bodies of more than 6,291,456 bytes are decided alike, so
    /// none of their bytes is needed. A payload is read in the scratch's room. It fails only if an
    /// allocation fails.
    pub fn decide(
        &self,
        alloc: Global,
        scratch: &mut PayloadScratch,
        parts: &Parts,
        body: &Received,
    ) -> Result<Decision, AllocError>
        ensures decision { IfOk result (λ d. d ≡ decision self.now parts.now body.now) }
        ensures alike { IfOk result (λ d. longest_body < length body.now → (other : List ℕ) → longest_body < length other
            → d ≡ decision self.now parts.now other) }
        // A call is one that the account's book takes, and a function that is shown is configured.
        ensures allowed { IfOk result (IsAllowed self.now.config) }
    {
        match &self.routes {
            Routes::Account(router) => account_decision(
                alloc,
                scratch,
                router,
                &self.config,
                parts,
                body,
            ),
            Routes::Environment(env, router) => environment_decision(
                alloc,
                router,
                &self.config,
                self.salt,
                *env,
                parts,
                body,
            ),
            Routes::Handled(_) => refused(alloc, Cause::NoHandler),
        }
    }

    /// Returns whether a request with this head may be handed over to a handler, as long as there is
    /// one. At the account's port it may if no route has it; or if it is an Invoke of a function or
    /// version that is not configured, of another type than `RequestResponse`, or one that asks for the
    /// tail of the log. At an environment's port none may, at one of handlers each.
    ///
    /// # Errors
    /// If an allocation fails.
    pub fn hands_over(&self, alloc: Global, parts: &Parts) -> Result<bool, AllocError>
        ensures { IfOk result (λ may. may ≡ hands_over self.now parts.now) }
    {
        match &self.routes {
            Routes::Account(router) => account_hands_over(alloc, router, &self.config, parts),
            Routes::Environment(..) => Ok(false),
            Routes::Handled(_) => Ok(true),
        }
    }

    /// Returns whether a request with this head is a handler's own, by which it gets a request or answers one. Only the
    /// account's port has such routes.
    pub fn is_own(&self, parts: &Parts) -> bool
        ensures { result ≡ is_own self.now parts.now }
    {
        match &self.routes {
            Routes::Account(_) => is_of_handler(parts.uri.path()),
            Routes::Environment(..) | Routes::Handled(_) => false,
        }
    }
}

impl Decide for Side {
    ghost use Rattle.std.specs.Prelude.{◌≡◌};
    ghost use Rattle.http_routes.specs.Decisions.{decision};

    ghost decides = { λ side parts body d. d ≡ decision side parts body };

    ghost decides_for = { λ side. side.config };

    fn decide(
        &self,
        alloc: Global,
        scratch: &mut PayloadScratch,
        parts: &Parts,
        body: &Received,
    ) -> Result<Decision, AllocError> {
        Side::decide(self, alloc, scratch, parts, body)
    }
}
