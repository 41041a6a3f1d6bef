//! The ports of the service.

ghost use Rattle.std.specs.Prelude.{◌≡◌};
ghost use Rattle.service_port.specs.Ports as spec;

/// Whose port a port is.
#[derive(Clone, Copy, Debug, Drop, PartialEq, Eq)]
pub enum Port {
    /// The account's: callers and operators, by the Lambda API and this service's own routes.
    Account,
    /// That of the environment with this number, from 1: its runtime and its extensions, by the
    /// Runtime API and the Extensions API.
    Environment(u32),
    /// That of handlers, with this number: callers, of whatever API the handlers speak. All its requests are handed
    /// over.
    Handled(u16),
}

impl Port {
    /// Returns the number of the environment whose port it is.
    pub fn environment(self) -> Option<u32>
        ensures { result ≡ spec.environment_of self }
    {
        match self {
            Port::Account | Port::Handled(_) => None,
            Port::Environment(environment) => Some(environment),
        }
    }
}
