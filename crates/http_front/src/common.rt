//! What the threads of a host have in common.

ghost use Rattle.std.specs.Prelude.{◌≡◌, IfOk};
ghost use Rattle.std.specs.Arc.{arc_value};

use account_lock::{Account, Identity};
use handler_desk::Desk;
use long_poll::{OneShotBell, Shared};
use request_guard::KnownHosts;
use std::alloc::{AllocError, Global};
use std::sync::Arc;

/// What the threads of a host have in common: what the connections of the service share, its account and clock among
/// it; the desk at which requests are handed over to handlers; and the hosts that are listed in addition to the local ones.
#[derive(Drop)]
pub(crate) struct Common<S: Identity, N> {
    pub(crate) shared: Arc<Shared<Account<S, OneShotBell>, N>>,
    pub(crate) desk: Arc<Desk>,
    pub(crate) hosts: Arc<KnownHosts>,
}

/// Shares a value. It fails only if an allocation fails; the value is then dropped.
fn arc_of<T: Drop>(alloc: Global, value: T) -> Result<Arc<T>, AllocError>
    ensures { IfOk result (λ it. arc_value it ≡ value) }
{
    match Arc::new(alloc, value) {
        Ok(it) => Ok(it),
        Err(_refused) => Err(AllocError),
    }
}

impl<S: Identity + Drop, N: Drop> Common<S, N> {
    /// Makes it for this account, this clock, this desk and these hosts, and for premature calls that are held back for up
    /// to `patience_ms` milliseconds; the service is not over. It fails only if an allocation fails; the arguments are
    /// then dropped.
    pub(crate) fn new(
        alloc: Global,
        account: Account<S, OneShotBell>,
        clock: N,
        desk: Desk,
        hosts: KnownHosts,
        patience_ms: u32,
    ) -> Result<Common<S, N>, AllocError>
        ensures account { IfOk result (λ common. arc_value (arc_value common.shared).service ≡ account) }
        ensures desk { IfOk result (λ common. arc_value common.desk ≡ desk) }
        ensures hosts { IfOk result (λ common. arc_value common.hosts ≡ hosts) }
    {
        let account = arc_of(alloc, account)?;
        let shared = arc_of(alloc, Shared::new(alloc, account, clock, patience_ms)?)?;
        let desk = arc_of(alloc, desk)?;
        let hosts = arc_of(alloc, hosts)?;
        Ok(Common {
            shared,
            desk,
            hosts,
        })
    }

    /// Returns the same, for another thread.
    pub(crate) fn share(&self) -> Result<Common<S, N>, AllocError>
        ensures shared { IfOk result (λ common. arc_value common.shared ≡ arc_value self.now.shared) }
        ensures desk { IfOk result (λ common. arc_value common.desk ≡ arc_value self.now.desk) }
        ensures hosts { IfOk result (λ common. arc_value common.hosts ≡ arc_value self.now.hosts) }
    {
        let shared = Arc::try_clone(&self.shared)?;
        let desk = Arc::try_clone(&self.desk)?;
        let hosts = Arc::try_clone(&self.hosts)?;
        Ok(Common {
            shared,
            desk,
            hosts,
        })
    }
}
