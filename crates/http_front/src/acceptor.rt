//! The thread that accepts connections, gives each a thread, and ends them.

mod admission;

ghost use Rattle.std.specs.Prelude.{◌≡◌, ◌≤◌, IfErr, IfOk};
ghost use Rattle.http_front.specs.declared.host.fault.HostFault.TheVariants.{StillShared};

use crate::common::Common;
use crate::ports::{AcceptedSocket, Listener, Ports};
use crate::ticker::Ticker;
use crate::worker::{Job, Worker};
use crate::{HostFault, Hosted, Notices, Port};
use account_lock::{Account, Identity};
use admission::admit;
use connection_places::Slots;
use handler_desk::Desk;
use http_connection::Machine;
use long_poll::{Clock, OneShotBell, Rejections};
use mio::{Poll, Waker};
use request_guard::KnownHosts;
use std::alloc::AllocError;
use std::sync::{Arc, Wait};
use std::thread::Threads;
use std::time::Duration;
use std::{io, time};
use usage_ledger::{Keep, Tally};

/// For how long a listener waits for a descriptor before it tries again.
const PAUSE_MS: u64 = 1;

/// The most connections that a listener accepts before it is another port's turn.
const MOST_IN_A_TURN: u32 = 8;

/// How long a newcomer waits for a connection that makes room. (Its thread may have to wait for a processor.)
const FOR_ROOM_MS: u64 = 250;

/// The time between two checks of the connections' time limits.
const BETWEEN_ROUNDS_S: u64 = 1;

/// The time between two looks at the connections that end with the service.
const BETWEEN_LOOKS_MS: u64 = 250;

/// How many looks are taken at them: after two seconds all are ended at once.
const LOOKS_FOR_END: u32 = 8;

/// Returns whether accepting failed because of the connection itself, which has left again or was
/// closed for want of memory, or because the call was interrupted: others may still wait.
/// (POSIX, accept: ECONNABORTED, EINTR. An `OutOfMemory` of the system has an error number.)
fn is_of_connection(fault: &io::Error) -> bool {
    match fault.kind() {
        io::ErrorKind::ConnectionAborted | io::ErrorKind::Interrupted => true,
        io::ErrorKind::OutOfMemory => fault.raw_os_error().is_none(),
        _ => false,
    }
}

/// Accepts connections, has each served on a thread of its own, and ends them. It has what the threads
/// have in common, the tally from which those of the connections are split, and the places of the
/// connections.
#[derive(Drop)]
pub(crate) struct Acceptor<R, S: Identity, N, K: Keep> {
    rt: R,
    common: Common<S, N>,
    root: Tally<K, S>,
    slots: Slots<Tally<K, S>, Job<S>>,
    // A descriptor that is given up if no other is left, so that a connection can be turned away.
    spare: Option<Poll>,
    // When the time limits were last checked, by the monotonic clock.
    looked: Duration,
}

impl<R: Machine, S: Identity + Drop, N: Drop, K: Keep> Acceptor<R, S, N, K> {
    /// Opens it for up to `most` connections at once to an open account with its tally. It fails
    /// only if an allocation fails; the account is then dropped.
    pub(crate) fn open(
        rt: R,
        opened: (Account<S, OneShotBell>, Tally<K, S>),
        clock: N,
        hosts: KnownHosts,
        most: u32,
        patience_ms: u32,
    ) -> Result<Acceptor<R, S, N, K>, AllocError>
        ensures { IfOk result (λ acceptor. acceptor.root ≡ opened.1) }
    {
        let (account, root) = opened;
        let desk = Desk::new(&rt, rt.alloc())?;
        match Common::new(rt.alloc(), account, clock, desk, hosts, patience_ms) {
            Ok(common) => Acceptor::new(rt, common, root, most),
            Err(refused) => Err(refused),
        }
    }

    /// Makes it for up to `most` connections at once. It fails only if an allocation fails.
    fn new(
        rt: R,
        common: Common<S, N>,
        root: Tally<K, S>,
        most: u32,
    ) -> Result<Acceptor<R, S, N, K>, AllocError>
        ensures { IfOk result (λ acceptor. acceptor.root ≡ root) }
    {
        let Ok(slots) = Slots::new(rt.alloc(), most) else {
            return Err(AllocError);
        };
        let spare = Poll::new(&rt).ok();
        Ok(Acceptor {
            rt,
            common,
            root,
            slots,
            spare,
            looked: Duration::ZERO,
        })
    }

    /// Returns the requests that are rejected. It fails only if an allocation fails.
    pub(crate) fn rejections(&self) -> Result<Arc<Rejections>, AllocError> {
        Arc::try_clone(&self.common.shared.rejections)
    }

    /// Closes the next connection, for which no descriptor is left: the spare one is given up meanwhile.
    fn turn_away(&mut self, listener: &Listener<S>) {
        self.spare = None;
        listener.turn_away();
        self.spare = Poll::new(&self.rt).ok();
        self.slots
            .await_end(&self.rt, Duration::from_millis(PAUSE_MS));
        self.slots.reap(&self.rt);
    }
}

impl<R: Wait + Threads + time::Clock + Copy + Drop, S: Identity + Drop, N: Drop, K: Keep> Acceptor<
    R,
    S,
    N,
    K,
> {
    /// Makes the ticker of the same account, with a tally of its own. It fails only if an
    /// allocation fails.
    pub(crate) fn ticker(
        &mut self,
        notices: Arc<Notices>,
        waker: Arc<Waker>,
    ) -> Result<Ticker<R, S, N, K>, AllocError>
        requires { 2 ≤ self.old.root.held.parts }
    {
        match self.common.share() {
            Ok(common) => Ok(Ticker {
                rt: self.rt,
                common,
                notices,
                waker,
                tally: self.root.split(),
            }),
            Err(refused) => Err(refused),
        }
    }

    /// Takes a place that no connection has: a free one, or otherwise a new one with a tally of its
    /// own.
    fn free_place(&mut self) -> Option<usize> {
        if let Some(at) = self.slots.take() {
            return Some(at);
        }
        if !self.slots.has_room() || self.root.parts() < 2 {
            return None;
        }
        match self.slots.add(&self.rt, self.root.split()) {
            Ok(at) => Some(at),
            Err(tally) => {
                self.root.absorb(tally);
                None
            }
        }
    }

    /// Takes a place that no connection has, for one at this port.
    fn open_place(&mut self, port: Port) -> Option<usize> {
        if self.slots.admits(port) {
            self.free_place()
        } else {
            None
        }
    }

    /// Returns how much is left of this many milliseconds since a moment of the monotonic clock; nothing
    /// if the clock fails.
    fn left_of(&self, milliseconds: u64, since: Duration) -> Duration {
        match self.rt.monotonic() {
            Ok(now) => Duration::from_millis(milliseconds).saturating_sub(now.saturating_sub(
                since,
            )),
            Err(_fault) => Duration::ZERO,
        }
    }

    /// Takes a place for a new connection at this port, once a connection that makes room for
    /// it has ended.
    fn cleared_place(&mut self, port: Port) -> Option<usize> {
        if !self.slots.ask_for_room(port) {
            return None;
        }
        let rt = self.rt;
        let asked = rt.monotonic().unwrap_or(Duration::ZERO);
        for _ in rt.forever() {
            self.slots.reap(&rt);
            if let Some(at) = self.open_place(port) {
                return Some(at);
            }
            let left = self.left_of(FOR_ROOM_MS, asked);
            if left.is_zero() {
                return None;
            }
            self.slots.await_end(&rt, left);
        }
        unreachable!()
    }

    /// Takes a place for a new connection at this port.
    fn place(&mut self, port: Port) -> Option<usize> {
        match self.open_place(port) {
            Some(at) => Some(at),
            None => self.cleared_place(port),
        }
    }

    /// Makes the worker that serves the connections of a place.
    fn worker(&self, at: usize) -> Result<Worker<R, S, N, K>, AllocError> {
        match (self.common.share(), self.slots.post(at)) {
            (Ok(common), Ok(post)) => Ok(Worker {
                rt: self.rt,
                common,
                post,
            }),
            _ => Err(AllocError),
        }
    }

    /// Once a second, ends the connections that have reached a time limit, joins the threads
    /// that have ended because no connection came, and gives up requests for which no handler has come back.
    fn look_round(&mut self) {
        if let Ok(now) = self.rt.monotonic()
            && now.saturating_sub(self.looked) >= Duration::from_secs(BETWEEN_ROUNDS_S)
        {
            self.looked = now;
            self.slots.end_the_idle();
            self.slots.join_the_ended(&self.rt);
            self.common.desk.look(&self.rt);
        }
    }

    /// Returns how long to wait for connections: until the time limits of the open ones are checked
    /// again; `None` if there is neither a connection nor a thread that waits for one.
    fn round(&self) -> Option<Duration> {
        if self.slots.is_vacant() {
            return None;
        }
        let between = Duration::from_secs(BETWEEN_ROUNDS_S);
        match self.rt.monotonic() {
            Ok(now) => Some(between.saturating_sub(now.saturating_sub(self.looked))),
            Err(_fault) => Some(between),
        }
    }

    /// Waits until every connection has ended, until the next look at most. Returns whether they have.
    fn have_ended(&mut self) -> bool {
        let rt = self.rt;
        let looked = rt.monotonic().unwrap_or(Duration::ZERO);
        for _ in rt.forever() {
            self.slots.reap(&rt);
            if self.slots.is_idle() {
                return true;
            }
            let left = self.left_of(BETWEEN_LOOKS_MS, looked);
            if left.is_zero() {
                return false;
            }
            self.slots.await_end(&rt, left);
        }
        unreachable!()
    }

    /// Ends every connection softly: those that are idle or have been answered. Half a second later it
    /// ends at once those that do not linger, and at each look those whose peer sends no more, and after
    /// two seconds all. Returns whether they have ended before that.
    fn end_softly(&mut self) -> bool {
        self.slots.tell(false);
        for look in 0..LOOKS_FOR_END {
            if self.have_ended() {
                return true;
            }
            if look == 0 {
                self.slots.look_again();
            } else {
                self.slots.end_the_still();
            }
        }
        false
    }

    /// Ends every connection, in the end at once.
    fn end_connections(&mut self) {
        if self.end_softly() {
            return;
        }
        self.slots.tell(true);
        let rt = self.rt;
        for _ in rt.forever() {
            self.slots.reap(&rt);
            if self.slots.is_idle() {
                return;
            }
            self.slots
                .await_end(&rt, Duration::from_millis(BETWEEN_LOOKS_MS));
        }
    }

    /// Notes that the service is over, ends every connection, and joins all threads.
    pub(crate) fn finish(&mut self) {
        self.common.shared.beat.end(&self.rt);
        self.common.desk.close(&self.rt);
        self.slots.dismiss(&self.rt);
        self.end_connections();
        self.slots.join_all(&self.rt);
    }

    /// Returns the account and all tallies, with that of the ticker, once every thread is joined.
    ///
    /// # Errors
    /// `StillShared` if a thread still has the account or a tally.
    pub(crate) fn into_hosted(self, ticked: Tally<K, S>) -> Result<Hosted<S, K>, HostFault>
        ensures { IfErr result (λ fault. fault ≡ StillShared) }
    {
        let Acceptor {
            common,
            root,
            slots,
            ..
        } = self;
        let tallies = match slots.into_tallies(root, ticked) {
            Ok(tallies) => tallies,
            Err(_shared) => return Err(HostFault::StillShared),
        };
        let Some(shared) = Arc::into_inner(common.shared) else {
            return Err(HostFault::StillShared);
        };
        match shared.into_service() {
            Some(account) => Ok(Hosted { account, tallies }),
            None => Err(HostFault::StillShared),
        }
    }
}

impl<
    R: Machine,
    S: Identity + Drop + Send + Sync + 'static,
    N: Clock + Drop + Send + Sync + 'static,
    K: Keep + Send + 'static,
> Acceptor<R, S, N, K> {
    /// Starts the thread of a place, with its first connection. Returns whether a thread was
    /// started.
    fn start(&mut self, at: usize, job: Job<S>) -> bool {
        let Ok(worker) = self.worker(at) else {
            return false;
        };
        let Some(thread) = worker.start(job) else {
            return false;
        };
        self.slots.employ(at, thread);
        true
    }

    /// Hands a connection to the thread of a place: to the one that waits there, or otherwise to a
    /// new one. Returns whether there is one.
    fn hand_over(&mut self, at: usize, job: Job<S>) -> bool {
        match self.slots.offer(&self.rt, at, job) {
            Ok(()) => true,
            Err(job) => self.start(at, job),
        }
    }

    /// Begins a connection at a place. Returns whether it has begun; it has not if an allocation or
    /// its thread fails.
    fn begin(&mut self, at: usize, accepted: AcceptedSocket<S>) -> bool {
        let Ok((job, running)) = admit(self.rt.alloc(), accepted) else {
            return false;
        };
        let is_begun = self.hand_over(at, job);
        if is_begun {
            self.slots.fill(at, running);
        }
        is_begun
    }

    /// Begins an accepted connection, or closes it if there is no place or thread for it.
    fn admit_or_close(&mut self, accepted: AcceptedSocket<S>) {
        self.slots.reap(&self.rt);
        let Some(at) = self.place(accepted.port()) else {
            return;
        };
        if !self.begin(at, accepted) {
            self.slots.give_back(at);
        }
    }

    /// Accepts connections that wait at a port, up to `MOST_IN_A_TURN`. Returns whether more may wait.
    fn accept_some(&mut self, listener: &Listener<S>) -> bool {
        for _ in 0..MOST_IN_A_TURN {
            match listener.accept() {
                Ok(accepted) => self.admit_or_close(accepted),
                Err(fault) if fault.kind() == io::ErrorKind::WouldBlock => return false,
                Err(fault) if is_of_connection(&fault) => {}
                Err(_) => self.turn_away(listener),
            }
        }
        true
    }

    /// Gives a turn to each port at which connections may wait. Returns whether more may wait at one.
    fn take_turns(&mut self, listeners: &mut [Listener<S>]) -> bool {
        let mut more = false;
        for listener in listeners {
            if listener.is_waited_at {
                listener.is_waited_at = self.accept_some(listener);
                more = more || listener.is_waited_at;
            }
        }
        more
    }

    /// Accepts connections until the service is over. The ports take turns, so that a crowd at one
    /// does not keep those at another waiting.
    pub(crate) fn serve(&mut self, ports: &mut Ports<S>) -> Result<(), HostFault> {
        let rt = self.rt;
        let mut more = false;
        for _ in rt.forever() {
            if self.common.shared.beat.is_over() {
                return Ok(());
            }
            let round = if more {
                Some(Duration::ZERO)
            } else {
                self.round()
            };
            if let Err(fault) = ports.wait(round) {
                return Err(fault);
            }
            self.slots.reap(&rt);
            self.look_round();
            more = self.take_turns(ports.listeners.as_mut_slice());
        }
        unreachable!()
    }
}
