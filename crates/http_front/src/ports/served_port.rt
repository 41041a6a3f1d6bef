//! A port of the service, as the threads of its connections share it.

ghost use Rattle.std.specs.Prelude.{◌≡◌, IfOk, IsTrue};
ghost use Rattle.std.specs.Arc.{arc_value};
ghost use Rattle.http_front.specs.Ports.{number_of};
ghost use Rattle.http_front.specs.ServedPorts.{function_at};
ghost use Rattle.http_routes.specs.Decisions.{IsPortOf};

use crate::{Port, Side};
use account_lock::Identity;
use arn_ids::{Checked, FnNo};
use std::alloc::{AllocError, Global};
use std::marker::{Model, PhantomData};
use std::sync::Arc;

/// Whose port it is, in the configuration and with the salt of the identifiers that the account's
/// type names. (A `Side` has routes, which cannot cross threads, so each thread opens its own.)
#[derive(Drop)]
pub(crate) struct ServedPort<S: Identity> {
    port: Port,
    // Its number, which the log shows, and handlers get.
    number: u16,
    config: Arc<Checked>,
    salt: u64,
    of: PhantomData<S>,
}

impl<S: Identity> Model for ServedPort<S> {
    ghost use Rattle.std.specs.Prelude.{◌≡◌};
    ghost use Rattle.std.specs.Arc.{arc_value};
    ghost use Rattle.http_front.specs.Ports.{number_of};
    ghost use Rattle.http_routes.specs.Decisions.{Served, IsPortOf};

    ghost Value = { Served };

    ghost view = { λ d. record { config = arc_value d.config; salt = d.salt; port = d.port } };

    ghost invariant = { λ d. (arc_value d.config ≡ S.config) × (d.salt ≡ S.salt)
        × IsPortOf (arc_value d.config) d.port × (d.number ≡ number_of (arc_value d.config) d.port) };
}

impl<S: Identity> ServedPort<S> {
    /// Returns a port of this configuration, with this number and this salt.
    pub(crate) fn new(port: Port, number: u16, config: Arc<Checked>, salt: u64) -> ServedPort<S>
        requires configured { arc_value config ≡ S.config }
        requires salted { salt ≡ S.salt }
        requires port { IsPortOf (arc_value config) port }
        requires number { number ≡ number_of (arc_value config) port }
        ensures { result ≡ record { config = arc_value config; salt = salt; port = port } }
    {
        ServedPort {
            port,
            number,
            config,
            salt,
            of: PhantomData,
        }
    }

    /// Returns whose port this is.
    pub(crate) fn port(&self) -> Port
        ensures { result ≡ self.now.port }
    {
        self.port
    }

    /// Returns its number.
    pub(crate) fn number(&self) -> u16
        ensures { result ≡ number_of self.now.config self.now.port }
    {
        self.number
    }

    /// Returns the function of the environment whose port this is, `None` at a callers' port.
    pub(crate) fn function(&self) -> Option<FnNo>
        ensures { result ≡ function_at self.now.config self.now.port }
    {
        match self.port {
            Port::Account | Port::Handled(_) => None,
            Port::Environment(environment) => Some(self.config.function_of(environment)),
        }
    }

    /// Returns whether this is the same port as another.
    pub(crate) fn is(&self, other: &ServedPort<S>) -> bool
        ensures { IsTrue result → self.now ≡ other.now }
    {
        self.port == other.port && self.salt == other.salt
    }

    /// Returns the same port, for another thread.
    pub(crate) fn share(&self) -> Result<ServedPort<S>, AllocError>
        ensures { IfOk result (λ served. served ≡ self.now) }
    {
        let config = Arc::try_clone(&self.config)?;
        Ok(ServedPort::new(self.port, self.number, config, self.salt))
    }

    /// Makes the decider of the port's requests. It fails only if an allocation fails.
    pub(crate) fn decider(&self, alloc: Global) -> Result<Side, AllocError>
        ensures { IfOk result (λ side. (side ≡ self.now) × (side.config ≡ S.config)) }
    {
        Side::open(alloc, Arc::try_clone(&self.config)?, self.salt, self.port)
    }
}
