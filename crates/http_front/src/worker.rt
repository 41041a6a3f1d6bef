//! The thread of a place, which serves one connection after the other.

mod deciders;

ghost use Rattle.std.specs.Prelude.{◌≡◌, IfErr, IfOk, OnOk};
ghost use Rattle.std.specs.Arc.{arc_value};
ghost use Rattle.account_lock.specs.Submits.{IsTurnedAway};
ghost use Rattle.call_types.specs.declared.call.Call.TheVariants.{Withdraw};
ghost use Rattle.http_connection.specs.Wires.{IsFresh, name_of};
ghost use Rattle.http_connection.specs.Written.{Written, outcome_of};
ghost use Rattle.http_front.specs.Connections.{IsServed};
ghost use Rattle.http_front.specs.Exchanged.{IsAnswer};
ghost use Rattle.http_front.specs.Ports.{number_of};
ghost use Rattle.http_front.specs.Readings.{IsRead};
ghost use Rattle.http_front.specs.Withdrawn.{IsWithdrawn};
ghost use Rattle.socket_loop.specs.Halves.{name_of_accepted, name_of_unused};

use crate::common::Common;
use crate::ports::ServedPort;
use crate::{AtDesk, Front, Port, SentBody, Side};
use account_book::Refusal;
use account_lock::{Account, AtOnce, Identity, Trail};
use arn_ids::FnNo;
use bytes::Bytes;
use call_model::{Call, Ticket};
use connection_places::{Post, WorkerThread};
use connection_state::{Pulse, Signals};
use deciders::Deciders;
use decisions::Decide;
use http_body::Body;
use http_body_util::Either;
use http_connection::{Ended, Ends, EventLoop, Machine, Park, Wire};
use hyper::body::Incoming;
use long_poll::{
    Cause, Clock, Connection, Kind, LateBells, OneShotBell, OpenPoll, Service, StreamedBody, laws,
    moment,
};
use socket_loop::{Accepted, Unused};
use std::alloc::{AllocError, AllocGlobal};
use std::sync::{Arc, Mutex, Wait};
use std::{io, thread, time};
use usage_ledger::{Keep, Ledgers, Tally, Token};

/// The stack of a thread. The deepest chain of calls takes some 80 KB.
pub(crate) const STACK_BYTES: usize = 512 * 1024;

/// The note of a connection's open Next, or that the trace that it sends waits for an entry, by which its
/// socket's end is watched. After each turn the bells of the connection's steps ring.
#[derive(Drop)]
struct OpenNext<R> {
    rt: R,
    open: Arc<OpenPoll>,
    bells: Arc<LateBells>,
}

impl<R: Wait + Drop> Park for OpenNext<R> {
    fn is_parked(&self) -> bool {
        self.open.waits()
    }

    fn end_turn(&self) {
        self.bells.ring(&self.rt);
    }
}

/// An accepted connection that no thread serves yet: its socket, the signals that end it, and the
/// pulse that publishes its state.
#[derive(Drop)]
pub(crate) struct PendingConnection {
    pub(crate) socket: Accepted,
    pub(crate) signals: Signals,
    pub(crate) pulse: Arc<Pulse>,
}

/// A connection to serve, and its port.
#[derive(Drop)]
pub(crate) struct Job<S: Identity> {
    pub(crate) pending: PendingConnection,
    pub(crate) served: ServedPort<S>,
}

impl<S: Identity + Drop> Job<S> {
    /// Closes the connection because an allocation failed, before anything was written to it.
    fn close(self) -> Unused
        ensures { name_of_unused result ≡ name_of_accepted self.pending.socket }
    {
        let Job { pending, .. } = self;
        pending.socket.close(AllocError.into())
    }
}

/// What a thread needs to serve its connections: its event loop, the decider of the last one's
/// requests, and its token, which has seen a beginning of the account's history.
#[derive(Drop)]
struct Tools<S: Identity> {
    event_loop: EventLoop,
    deciders: Deciders<S>,
    token: Token<S>,
}

impl<S: Identity> Tools<S> {
    /// Opens them for the present thread, for connections to this account.
    fn open<R: Machine>(rt: &R, account: &Account<S, OneShotBell>) -> io::Result<Tools<S>> {
        match EventLoop::open(rt) {
            Ok(event_loop) => Ok(Tools {
                event_loop,
                deciders: Deciders::new(),
                token: account.token(rt),
            }),
            Err(fault) => Err(fault),
        }
    }
}

/// Serves the connections of a place. It has what the threads have in common, and the place with the
/// tally in which the calls count.
#[derive(Drop)]
pub(crate) struct Worker<R, S: Identity, N, K: Keep> {
    pub(crate) rt: R,
    pub(crate) common: Common<S, N>,
    pub(crate) post: Post<Tally<K, S>, Job<S>>,
}

/// Serves a connection at this port with a front. Returns its socket, and how it ended, if
/// it ended by itself: each response that the socket took is one with which the front answers its
/// request. The service and the decider are parameters here, and the machine can do no more than a
/// connection needs: their own types, and each bound, are repeated in all the types that `hyper` makes
/// of a connection, and would be too large for a proof.
fn serve_by<
    R: Wait + time::Clock + AllocGlobal + Copy + Drop,
    A: Service<K>,
    D: Decide + Drop,
    N: Clock + Drop,
    O: Park,
    K: Keep,
>(
    event_loop: &mut EventLoop,
    rt: &R,
    ends: Ends,
    port: Port,
    front: Front<R, A, D, N, K>,
    signals: Signals,
    open: O,
    pulse: Arc<Pulse>,
) -> Ended<Wire>
    requires { IsFresh ends.wire }
    ensures written { Written ⟦<Either<SentBody, StreamedBody<R, A, A::Trail, K, A::Ledgers>> as Body>⟧.yields
        ⟦<Bytes as Into<Bytes>>⟧.converts
        (IsAnswer N.Clock ⟦<Incoming<Wire> as Body>⟧.yields ⟦<Bytes as Into<Bytes>>⟧.converts front)
        result.io (outcome_of result.outcome) }
    ensures same { name_of result.io ≡ name_of ends.wire }
{
    event_loop.serve(rt, ends, port, front, signals, open, pulse)
}

impl<
    R: Machine,
    S: Identity + Drop + Send + Sync + 'static,
    N: Clock + Drop + Send + Sync + 'static,
    K: Keep + Send + 'static,
> Worker<R, S, N, K> {
    /// Starts the thread, with its first connection. If no thread can be made, the connection is
    /// closed.
    pub(crate) fn start(self, first: Job<S>) -> Option<WorkerThread<Job<S>>> {
        let rt = self.rt;
        let Ok(mailbox) = Arc::try_clone(&self.post.mailbox) else {
            return None;
        };
        let builder = thread::Builder::new().stack_size(STACK_BYTES);
        match builder.spawn(&rt, move || self.work(first)) {
            Ok(thread) => Some(WorkerThread { thread, mailbox }),
            Err(_) => None,
        }
    }
}

impl<R: Machine, S: Identity + Drop, N: Clock + Drop, K: Keep> Worker<R, S, N, K> {
    /// Serves this connection and those that follow, until none follows. If the event loop cannot
    /// be opened, or fails, the place is left earlier.
    fn work(self, first: Job<S>) {
        if !self.serve_all(first) {
            self.post.leave(&self.rt);
        }
    }

    /// Serves this connection and those that follow, with tools of this thread. Returns whether it
    /// ended because none followed.
    fn serve_all(&self, first: Job<S>) -> bool {
        match Tools::open(&self.rt, &*self.common.shared.service) {
            Ok(mut tools) => self.serve_in_turn(&mut tools, first),
            Err(_) => false,
        }
    }

    /// Serves this connection and those that follow, one after the other. Returns whether it ended
    /// because none followed.
    fn serve_in_turn(&self, tools: &mut Tools<S>, first: Job<S>) -> bool {
        let mut job = first;
        for _ in self.rt.forever() {
            // (what the connection is anchored at: the history as it is now)
            tools.token = self.common.shared.service.token(&self.rt);
            let Ok(Ended { outcome: Ok(_), .. }) = self.serve(tools, job) else {
                return false;
            };
            match self.post.next(&self.rt) {
                Some(next) => job = next,
                None => return true,
            }
        }
        unreachable!()
    }
}

impl<
    R: Wait + time::Clock + AllocGlobal + Copy + Drop,
    S: Identity + Drop,
    N: Clock + Drop,
    K: Keep,
> Worker<R, S, N, K> {
    /// Serves a connection, withdraws its open Next (Runtime API, Next invocation), and notes that the
    /// last step of a connection was made, and at the desk that it has ended.
    /// Returns its socket, and how it ended, if it ended by itself: each response that the socket took
    /// answers its request at the connection's own port, in a history that continues what the token had seen.
    ///
    /// # Errors
    /// If the connection cannot be served. Its socket is then closed, and nothing was written to it.
    fn serve(&self, tools: &mut Tools<S>, job: Job<S>) -> Result<Ended<Wire>, Unused>
        ensures { IsServed ⟦<Account<S, OneShotBell> as Service<K>>⟧ N.Clock
            ⟦<Either<SentBody, StreamedBody<R, Account<S, OneShotBell>, Trail<S>, K, S>> as Body>⟧.yields
            ⟦<Incoming<Wire> as Body>⟧.yields ⟦<Bytes as Into<Bytes>>⟧.converts
            self.now.common job.served S.most tools.old.token (name_of_accepted job.pending.socket) result }
    {
        let Ok(open) = Arc::new(self.rt.alloc(), OpenPoll::new()) else {
            return Err(job.close());
        };
        let (port, number) = (job.served.port(), job.served.number());
        let at_desk = self.common.desk.number();
        let ended = self.serve_socket(tools, job, at_desk, &open);
        self.common.desk.note_end(&self.rt, at_desk);
        if let Ok(
            Ended {
                outcome: Ok(Some(Err(fault))),
                ..
            },
        ) = &ended
            && fault.is_parse()
        {
            self.note_not_http(port, number);
        }
        if let Some(ticket) = open.ticket() {
            let _ = self.withdraw(&mut tools.token, ticket);
        }
        self.common.shared.beat.note_step(&self.rt);
        ended
    }

    /// Counts a request whose head is not HTTP/1.1, for the log.
    fn note_not_http(&self, port: Port, number: u16) {
        let kind = Kind {
            cause: Cause::NotHttp,
            is_of_environment: matches!(port, Port::Environment(_)),
        };
        let rejections = &*self.common.shared.rejections;
        rejections.note(&self.rt, kind, number, None, None);
    }

    /// Serves a connection, which has this number at the desk. Returns its socket, and how it ended, if it ended by
    /// itself.
    ///
    /// # Errors
    /// If the connection cannot be served. Its socket is then closed, and nothing was written to it.
    fn serve_socket(
        &self,
        tools: &mut Tools<S>,
        job: Job<S>,
        at_desk: u64,
        open: &Arc<OpenPoll>,
    ) -> Result<Ended<Wire>, Unused>
        ensures { IsServed ⟦<Account<S, OneShotBell> as Service<K>>⟧ N.Clock
            ⟦<Either<SentBody, StreamedBody<R, Account<S, OneShotBell>, Trail<S>, K, S>> as Body>⟧.yields
            ⟦<Incoming<Wire> as Body>⟧.yields ⟦<Bytes as Into<Bytes>>⟧.converts
            self.now.common job.served S.most tools.old.token (name_of_accepted job.pending.socket) result }
    {
        let Job { pending, served } = job;
        let PendingConnection {
            socket,
            signals,
            pulse,
        } = pending;
        let port = served.port();
        let Ok(bells) = Arc::new(self.rt.alloc(), LateBells::new()) else {
            return Err(socket.close(AllocError.into()));
        };
        let Ok(parked) = self.parked(open, &bells) else {
            return Err(socket.close(AllocError.into()));
        };
        let token = self.common.shared.service.again(&mut tools.token);
        let deciders = &mut tools.deciders;
        let front = match self.front(deciders, token, served, at_desk, open, &bells) {
            Ok(front) => front,
            Err(refused) => return Err(socket.close(refused.into())),
        };
        let ends = match tools.event_loop.watch(&self.rt, socket) {
            Ok(ends) => ends,
            Err(unused) => return Err(unused),
        };
        laws::replies(&*front.connection);
        Ok(serve_by(
            &mut tools.event_loop,
            &self.rt,
            ends,
            port,
            front,
            signals,
            parked,
            pulse,
        ))
    }

    /// Returns the front of a connection at a port: of the same account, with the decider of
    /// that port.
    fn front(
        &self,
        deciders: &mut Deciders<S>,
        token: Token<S>,
        served: ServedPort<S>,
        at_desk: u64,
        open: &Arc<OpenPoll>,
        bells: &Arc<LateBells>,
    ) -> Result<Front<R, Account<S, OneShotBell>, Side, N, K>, AllocError>
        ensures guarded { IfOk result (λ front. (front.port ≡ served.port)
            × (arc_value front.hosts ≡ arc_value self.now.common.hosts)) }
        ensures shared { IfOk result (λ front.
            arc_value (arc_value front.connection).shared ≡ arc_value self.now.common.shared) }
        ensures decided { IfOk result (λ front. arc_value (arc_value front.connection).decider ≡ served) }
        ensures handed { IfOk result (λ front. arc_value (arc_value front.at_desk).side ≡ served) }
        ensures desk { IfOk result (λ front.
            arc_value (arc_value front.at_desk).desk ≡ arc_value self.now.common.desk) }
        ensures anchored { IfOk result (λ front. (arc_value front.connection).anchor ≡ token) }
        ensures named { IfOk result (λ front. (served.config ≡ S.config) × (served.salt ≡ S.salt)) }
    {
        let alloc = self.rt.alloc();
        let port = served.port();
        let number = served.number();
        let function = served.function();
        let hosts = Arc::try_clone(&self.common.hosts)?;
        let Ok(decider) = deciders.of(alloc, served) else {
            return Err(AllocError);
        };
        let at_desk = match self.at_desk(&decider, number, at_desk, open) {
            Ok(at_desk) => at_desk,
            Err(refused) => return Err(refused),
        };
        match self.connection(decider, token, number, function, open, bells) {
            Ok(connection) => Ok(Front::new(self.rt, alloc, port, hosts, connection, at_desk)),
            Err(refused) => Err(refused),
        }
    }

    /// Returns what a connection needs to hand requests over. The number is that of the port at which it came, the other
    /// one its own at the desk.
    fn at_desk(
        &self,
        decider: &Arc<Side>,
        number: u16,
        connection: u64,
        open: &Arc<OpenPoll>,
    ) -> Result<Arc<AtDesk>, AllocError>
        requires { number ≡ number_of (arc_value decider.now).config (arc_value decider.now).port }
        ensures side { IfOk result (λ at_desk. arc_value (arc_value at_desk).side ≡ arc_value decider.now) }
        ensures desk { IfOk result (λ at_desk.
            arc_value (arc_value at_desk).desk ≡ arc_value self.now.common.desk) }
    {
        let desk = Arc::try_clone(&self.common.desk)?;
        let open = Arc::try_clone(open)?;
        let side = Arc::try_clone(decider)?;
        let rejections = Arc::try_clone(&self.common.shared.rejections)?;
        let at_desk = AtDesk {
            alloc: self.rt.alloc(),
            desk,
            open,
            side,
            rejections,
            number,
            connection,
        };
        Arc::new(self.rt.alloc(), at_desk).map_err(AllocError::from)
    }

    /// Returns the note of a connection's open Next, with the bells that ring after its turns.
    fn parked(
        &self,
        open: &Arc<OpenPoll>,
        bells: &Arc<LateBells>,
    ) -> Result<OpenNext<R>, AllocError> {
        Ok(OpenNext {
            rt: self.rt,
            open: Arc::try_clone(open)?,
            bells: Arc::try_clone(bells)?,
        })
    }

    /// Returns what the exchanges of a connection share, anchored at what this token has seen. The number is that of
    /// the port at which the connection came, the function that of the environment whose port it is.
    fn connection(
        &self,
        decider: Arc<Side>,
        token: Token<S>,
        number: u16,
        function: Option<FnNo>,
        open: &Arc<OpenPoll>,
        bells: &Arc<LateBells>,
    ) -> Result<Arc<Connection<R, Account<S, OneShotBell>, Side, N, K>>, AllocError>
        requires { (arc_value decider).config ≡ S.config }
        ensures shared { IfOk result (λ connection.
            arc_value (arc_value connection).shared ≡ arc_value self.now.common.shared) }
        ensures decider { IfOk result (λ connection. (arc_value connection).decider ≡ decider) }
        ensures anchored { IfOk result (λ connection. (arc_value connection).anchor ≡ token) }
    {
        let shared = Arc::try_clone(&self.common.shared)?;
        let tally = Arc::try_clone(&self.post.tally)?;
        let (open, bells) = (Arc::try_clone(open)?, Arc::try_clone(bells)?);
        let connection = Connection::new(self.rt, shared, decider, tally, token, open)?;
        let connection = connection
            .of_function(function)
            .at_port(number)
            .ringing_late(bells);
        Arc::new(self.rt.alloc(), connection).map_err(AllocError::from)
    }

    /// Withdraws the Next with this ticket.
    ///
    /// # Errors
    /// If that is refused. The Next then stays pending.
    fn withdraw(&self, token: &mut Token<S>, ticket: Ticket) -> Result<(), Refusal>
        ensures taken { OnOk result (IsWithdrawn S.config S.most
            (IsRead N.Clock (arc_value self.now.common.shared).clock) token.old ticket token.new) }
        ensures refused { IfErr result (λ refusal.
            IsTurnedAway S.config S.most token.old (Withdraw ticket) refusal token.new) }
    {
        let now = moment(&self.common.shared.clock);
        let mut tally = self.post.tally.lock(&self.rt);
        let withdraw = Call::Withdraw { ticket };
        let account = &*self.common.shared.service;
        match account.submit(&self.rt, &mut tally, token, now, withdraw, None, &AtOnce) {
            Ok(_) => Ok(()),
            Err(refused) => Err(refused.refusal),
        }
    }
}
