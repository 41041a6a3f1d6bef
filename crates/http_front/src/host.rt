//! The server: its ports, and the threads of its connections.

mod fault;
mod plan;

ghost use Rattle.std.specs.Prelude.{◌≡◌, ◌⊎◌, ◌+◌, ◌^◌, ◌≤◌, ◌↔◌, length, IfErr, IfOk, IsErrOf};
ghost use Rattle.std.specs.Arc.{arc_value};
ghost use Rattle.arn_ids.specs.Environments.{owners};
ghost use Rattle.arn_ids.specs.declared.faults.ConfigFault.TheVariants.{EntriesOutOfRange};
ghost use Rattle.http_front.specs.ServedPorts.{all_served, all_served_of};
ghost use Rattle.http_front.specs.HostFaults.{IsOfMachine};
ghost use Rattle.http_front.specs.declared.host.fault.HostFault.TheVariants.{Config};

use crate::acceptor::Acceptor;
use crate::ports::Ports;
use crate::ticker::Ticker;
use crate::worker::STACK_BYTES;
use crate::{Alarm, Notices};
use account_lock::{Account, Identity};
use arn_ids::Checked;
pub use fault::HostFault;
pub(crate) use fault::at_socket;
use http_connection::{EventLoop, Machine};
use long_poll::{Clock, OneShotBell};
use mio::Poll;
pub use plan::Plan;
use request_guard::KnownHosts;
use service_port::HandledPorts;
use std::alloc::AllocError;
use std::sync::Arc;
use std::thread::{self, JoinHandle};
use std::time::Duration;
use usage_ledger::{Blanks, Keep, Tally};

/// How many threads a service with one connection starts: that of its log, the ticker, and that of the
/// connection.
const LEAST_THREADS: usize = 3;

/// How long a thread waits at most for the others that are tried with it.
const FOR_OTHERS_S: u64 = 10;

/// Returns whether enough descriptors are left for one connection: a socket, and the event loop of
/// its thread.
fn has_descriptors_for_one<R: Machine>(rt: &R) -> bool {
    let one = EventLoop::open(rt);
    let socket = Poll::new(rt);
    one.is_ok() && socket.is_ok()
}

/// Starts threads that wait for this gate, as many as a service with one connection has, or fewer if one
/// is refused. (There is room for all of them.)
fn start_at<R: Machine>(rt: R, gate: &Arc<Alarm>, started: &mut Vec<JoinHandle<()>>) {
    for _ in 0..LEAST_THREADS {
        let Ok(gate) = Arc::try_clone(gate) else {
            return;
        };
        let builder = thread::Builder::new().stack_size(STACK_BYTES);
        let wait = move || gate.sleep(&rt, 0, Duration::from_secs(FOR_OTHERS_S));
        let Ok(thread) = builder.spawn(&rt, wait) else {
            return;
        };
        let _ = started.push(thread);
    }
}

/// Tries whether the threads of a service with one connection can be started, all at once, and joins
/// them.
///
/// # Errors
/// `TooFewThreads` if not, otherwise `OutOfMemory`.
fn try_threads<R: Machine>(rt: R) -> Result<(), HostFault>
    ensures { IfErr result IsOfMachine }
{
    let gate = Arc::new(rt.alloc(), Alarm::new()).map_err(AllocError::from)?;
    let mut started = Vec::with_capacity(rt.alloc(), LEAST_THREADS)?;
    start_at(rt, &gate, &mut started);
    gate.ring();
    let count = started.len();
    for thread in started {
        thread.join(&rt);
    }
    if count < LEAST_THREADS {
        return Err(HostFault::TooFewThreads);
    }
    Ok(())
}

/// An account that is served over HTTP/1.1 on 127.0.0.1: on the invoke port for callers, on a port
/// of each environment for its runtime and its extensions, and on further ports for handlers. `S`
/// names the configuration, the salt, the limit, the ledgers and the history of the account, `N` is
/// the clock, in Unix milliseconds, and `K` is what each tally keeps.
#[derive(Drop)]
pub struct Host<R, S: Identity, N, K: Keep> {
    acceptor: Acceptor<R, S, N, K>,
    ticker: Ticker<R, S, N, K>,
    ports: Ports<S>,
    notices: Arc<Notices>,
}

/// What a host leaves: its account, and all the tallies in which its calls count.
#[derive(Drop)]
pub struct Hosted<S: Identity, K: Keep> {
    /// The account.
    pub account: Account<S, OneShotBell>,
    /// The tallies: that of the root, that of the ticker, and those of the connections.
    pub tallies: Vec<Tally<K, S>>,
}

impl<
    R: Machine,
    S: Identity + Drop + Send + Sync + 'static,
    N: Clock + Drop + Send + Sync + 'static,
    K: Keep + Send + 'static,
> Host<R, S, N, K> {
    /// Opens the account of a plan and listens on every port. It takes up to `most` connections at
    /// once; one place in sixteen, up to 64, is kept for callers' ports. If there is no place,
    /// and some are kept, a new connection takes that of the connection at callers' ports that has
    /// been longest without a complete request; any other new connection is closed. If an Invoke would be
    /// throttled while an environment that could serve it has answered and is about to ask for the
    /// next invocation, it is held back for up to `patience` milliseconds, in which that
    /// environment may become ready again. A request that names a host which is neither local nor
    /// one of `hosts` is refused.
    ///
    /// # Errors
    /// `Config(EntriesOutOfRange)` exactly if not environments + 1 ≤ `max_entries` ≤ 2^32,
    /// `TooFewDescriptors` or `TooFewThreads` if there are too few for the ports and one connection,
    /// `Network` if a port cannot be listened on, otherwise `OutOfMemory`. No port is then listened on.
    pub fn open(
        rt: R,
        plan: Plan,
        clock: N,
        hosts: KnownHosts,
        most: u32,
        patience: u32,
        blanks: Blanks,
    ) -> Result<Host<R, S, N, K>, HostFault>
        requires configured { arc_value plan.config ≡ S.config }
        requires salted { plan.salt ≡ S.salt }
        requires limited { plan.max_entries ≡ S.most }
        requires named { blanks ≡ S.names }
        ensures range { IsErrOf result (Config EntriesOutOfRange)
            ↔ ((length (owners (arc_value plan.config)) + 1 ≤ plan.max_entries) × (plan.max_entries ≤ 2 ^ 32) → ⊥) }
        ensures fault { IfErr result (λ fault. (fault ≡ Config EntriesOutOfRange) ⊎ IsOfMachine fault) }
        // The ports are those of the configuration, and those of handlers: no other, each with its decider.
        ensures listens { IfOk result (λ host.
            all_served host.ports.listeners.items ≡ all_served_of (arc_value plan.config) plan.salt plan.handled) }
    {
        let Plan {
            config,
            shared,
            salt,
            max_entries,
            handled,
        } = plan;
        let step = shared.environments().saturating_add(1);
        match Account::open(rt.alloc(), config, salt, max_entries, blanks) {
            Ok(opened) => {
                Host::listen(
                    rt,
                    opened,
                    clock,
                    hosts,
                    &shared,
                    salt,
                    &handled,
                    (max_entries, step),
                    most,
                    patience,
                )
            }
            Err(fault) => Err(HostFault::from(fault)),
        }
    }

    /// Listens on every port for an open account with its tally.
    fn listen(
        rt: R,
        opened: (Account<S, OneShotBell>, Tally<K, S>),
        clock: N,
        hosts: KnownHosts,
        config: &Arc<Checked>,
        salt: u64,
        handled: &HandledPorts,
        room: (u64, u32),
        most: u32,
        patience: u32,
    ) -> Result<Host<R, S, N, K>, HostFault>
        requires configured { arc_value config.now ≡ S.config }
        requires salted { salt ≡ S.salt }
        requires parts { 2 ≤ opened.1.held.parts }
        ensures fault { IfErr result IsOfMachine }
        ensures listens { IfOk result (λ host.
            all_served host.ports.listeners.items ≡ all_served_of (arc_value config.now) salt handled.now) }
    {
        match Ports::open(&rt, rt.alloc(), config, salt, handled) {
            Ok(ports) => Host::of(rt, opened, clock, hosts, ports, room, most, patience),
            Err(fault) => Err(fault),
        }
    }

    /// Makes the host of an open account with its tally, whose ports are listened on, and whose journal has room for
    /// so many entries, of which a step takes at most so many.
    fn of(
        rt: R,
        opened: (Account<S, OneShotBell>, Tally<K, S>),
        clock: N,
        hosts: KnownHosts,
        ports: Ports<S>,
        room: (u64, u32),
        most: u32,
        patience: u32,
    ) -> Result<Host<R, S, N, K>, HostFault>
        requires parts { 2 ≤ opened.1.held.parts }
        ensures fault { IfErr result IsOfMachine }
        ensures ports { IfOk result (λ host. host.ports ≡ ports) }
    {
        let Ok(mut acceptor) = Acceptor::open(rt, opened, clock, hosts, most, patience) else {
            return Err(HostFault::OutOfMemory);
        };
        let notices = Notices::new(room.0, room.1, acceptor.rejections()?);
        let notices = Arc::new(rt.alloc(), notices).map_err(AllocError::from)?;
        let waker = Arc::try_clone(&ports.waker)?;
        let Ok(ticker) = acceptor.ticker(Arc::try_clone(&notices)?, waker) else {
            return Err(HostFault::OutOfMemory);
        };
        if !has_descriptors_for_one(&rt) {
            return Err(HostFault::TooFewDescriptors);
        }
        if let Err(fault) = try_threads(rt) {
            return Err(fault);
        }
        Ok(Host {
            acceptor,
            ticker,
            ports,
            notices,
        })
    }

    /// Returns what the service has to say while it runs, for another thread. It fails only if an
    /// allocation fails.
    pub fn notices(&self) -> Result<Arc<Notices>, AllocError> {
        Arc::try_clone(&self.notices)
    }

    /// Returns what wakes the ticker. While no step is made, it rests until its clock reads what is
    /// due: so a clock that jumps has to wake it. It fails only if an allocation fails.
    pub fn alarm(&self) -> Result<Arc<Alarm>, AllocError> {
        self.ticker.alarm()
    }

    /// Serves until the service has come to its end: after a Stop, once every environment is off,
    /// or if a full journal lets no more time pass. Then no more connections are taken, those that
    /// are open are ended, and every thread is joined.
    ///
    /// # Errors
    /// `Network` if the ports fail, `TooFewThreads` if the ticker's is refused, or `StillShared`. The
    /// account and the tallies are then dropped.
    pub fn run(self) -> Result<Hosted<S, K>, HostFault> {
        let Host {
            mut acceptor,
            ticker,
            mut ports,
            ..
        } = self;
        let rt = ticker.rt;
        let Ok(ticker) = ticker.start() else {
            return Err(HostFault::TooFewThreads);
        };
        let served = acceptor.serve(&mut ports);
        drop(ports);
        acceptor.finish();
        let ticked = ticker.join(&rt);
        match served {
            Ok(()) => acceptor.into_hosted(ticked),
            Err(fault) => Err(fault),
        }
    }
}
