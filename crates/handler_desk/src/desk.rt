//! The desk at which requesters and handlers meet, which the threads of all connections share.

ghost use Rattle.std.specs.Prelude.{◌≡◌, IfOk, IfSome};
ghost use Rattle.std.specs.List.{Contains};
ghost use Rattle.handler_desk.specs.Desks.{IsPutAt};

use crate::claims::Claims;
use crate::posted::{Given, Posted};
use crate::put::Put;
use crate::state::{NotPut, State, Waits};
use futures::channel::oneshot::{Receiver, Sender};
use handover::{NotTaken, Request};
use std::alloc::{AllocError, Global};
use std::sync::atomic::Ordering::SeqCst;
use std::sync::atomic::{AtomicBool, AtomicU64};
use std::sync::{Mutex, Wait};
use std::time::{Clock, Instant};

/// How many requests for which no one waits any more a handler passes over at once.
const MOST_PASSED_OVER: u32 = 2_048;

/// What a handler gets that asks for a request.
#[derive(Drop)]
pub enum Taken {
    /// A request, with its identifier.
    Request(u64, Request),
    /// None waits: this is ready after one has come.
    Heard(Receiver<()>),
    /// The service is over.
    Over,
}

/// Wakes the handlers whose bells these are.
fn ring(bells: Vec<Sender<()>>) {
    for bell in bells {
        let _ = bell.send(());
    }
}

/// The desk. Its lock is taken by no one who holds that of an account, and no account's is taken by who holds it.
#[derive(Drop)]
pub struct Desk {
    // How many connections have come.
    came: AtomicU64,
    // Whether a handler may be here: it is read without the lock.
    is_watched: AtomicBool,
    // From when the moments of handlers are counted; none if the clock failed, and then all are 0.
    start: Option<Instant>,
    // Whose each identifier is.
    claims: Claims,
    state: Mutex<State>,
}

impl Desk {
    /// Makes a desk at which no handler has been. It fails only if an allocation fails.
    pub fn new(rt: &impl Clock, alloc: Global) -> Result<Desk, AllocError> {
        Ok(Desk {
            came: AtomicU64::new(0),
            is_watched: AtomicBool::new(false),
            start: Instant::now(rt).ok(),
            claims: Claims::new(alloc)?,
            state: Mutex::new(State::new(alloc)),
        })
    }

    /// Returns the present moment, in milliseconds.
    fn now(&self, rt: &impl Clock) -> u64 {
        let Some(start) = self.start else {
            return 0;
        };
        match start.elapsed(rt) {
            Ok(passed) => u64::try_from(passed.as_millis()).unwrap_or(u64::MAX),
            Err(_) => 0,
        }
    }

    /// Returns a number for a connection, which no other has.
    pub fn number(&self) -> u64 {
        self.came.fetch_add(1, SeqCst)
    }

    /// Returns whether a handler may be here. It takes no lock.
    pub fn may_be_attended(&self) -> bool {
        self.is_watched.load(SeqCst)
    }

    /// Returns whether requests are handed over: a handler is here, or the last one has ended a moment ago.
    pub fn is_attended<R: Wait + Clock>(&self, rt: &R) -> bool {
        let now = self.now(rt);
        self.state.lock(rt).is_attended(now)
    }

    /// Lets a request wait, and wakes the handlers that wait for one.
    ///
    /// # Errors
    /// If no handler is here, if too many requests wait or are at handlers, or if an allocation fails.
    pub fn put<R: Wait + Clock>(&self, rt: &R, request: Request) -> Result<Put, NotPut>
        ensures own { IfOk result (IsPutAt self.now) }
    {
        let now = self.now(rt);
        let (put, bells) = self.put_at(rt, now, request);
        ring(bells);
        put
    }

    /// Lets a request wait, and takes the bells of the handlers that wait for one.
    fn put_at(
        &self,
        rt: &impl Wait,
        now: u64,
        request: Request,
    ) -> (Result<Put, NotPut>, Vec<Sender<()>>)
        ensures own { IfOk result.0 (IsPutAt self.now) }
    {
        let mut state = self.state.lock(rt);
        if state.is_full(request.bytes()) {
            state.make_room();
        }
        let put = match state.put(now, request) {
            Ok(waits) => self.claimed(&mut state, waits),
            Err(fault) => Err(fault),
        };
        (put, state.take_bells())
    }

    /// Claims the identifier of a request that waits. It is the one that comes next, since identifiers are given under
    /// the lock alone; if it were not, the request would not wait.
    fn claimed(&self, state: &mut State, waits: Waits) -> Result<Put, NotPut>
        ensures own { IfOk result (IsPutAt self.now) }
        ensures same { IfOk result (λ put. (put.id ≡ waits.id) × (put.given ≡ waits.given)) }
    {
        let Waits { id, given } = waits;
        match self.claims.claim(id) {
            Some(claim) => Ok(Put { id, given, claim }),
            None => {
                state.withdraw(id);
                Err(NotPut::TooMany)
            }
        }
    }

    /// Shows that two requests that were put at this desk have different identifiers. It changes nothing.
    pub fn differ(&self, one: &mut Put, other: &mut Put)
        requires one { IsPutAt self.now one.old }
        requires other { IsPutAt self.now other.old }
        ensures differ { one.old.id ≡ other.old.id → ⊥ }
        ensures ids { (one.new.id ≡ one.old.id) × (other.new.id ≡ other.old.id) }
        ensures given { (one.new.given ≡ one.old.given) × (other.new.given ≡ other.old.given) }
        ensures desk { IsPutAt self.now one.new × IsPutAt self.now other.new }
    {
        self.claims.differ(&mut one.claim, &mut other.claim);
    }

    /// Takes the first request for whose answer someone waits.
    fn first(state: &mut State, handler: u64) -> Result<Option<(u64, Request)>, AllocError>
        ensures waited { IfOk result (λ taken. IfSome taken (Contains state.old.requests.waiting)) }
    {
        for _ in 0..MOST_PASSED_OVER {
            let Some((id, request)) = state.take(handler)? else {
                return Ok(None);
            };
            if !state.is_forsaken(id) {
                return Ok(Some((id, request)));
            }
            state.withdraw(id);
        }
        Ok(None)
    }

    /// Gives a handler the first request that waits; or a future that is ready after one has come.
    ///
    /// # Errors
    /// If an allocation fails. No request was taken then.
    pub fn take(&self, rt: &impl Wait, handler: u64) -> Result<Taken, AllocError> {
        let mut state = self.state.lock(rt);
        if state.is_over() {
            return Ok(Taken::Over);
        }
        state.asks(handler)?;
        self.is_watched.store(true, SeqCst);
        match Desk::first(&mut state, handler)? {
            Some((id, request)) => Ok(Taken::Request(id, request)),
            None => Ok(Taken::Heard(state.listen()?)),
        }
    }

    /// Returns why a handler may not answer the request with this identifier, if it may not.
    pub fn denial(&self, rt: &impl Wait, handler: u64, id: u64) -> Option<NotTaken> {
        self.state.lock(rt).denial(id, handler)
    }

    /// Returns where what a handler gives for a request is sent, which is over then.
    fn sender(
        &self,
        rt: &impl Wait,
        handler: u64,
        id: u64,
    ) -> Result<Option<Sender<Given>>, NotTaken> {
        self.state.lock(rt).answer(id, handler)
    }

    /// Lets a handler give something for the request with this identifier.
    ///
    /// # Errors
    /// If the handler has not taken it, it is over, or its requester has gone away.
    fn give(&self, rt: &impl Wait, handler: u64, id: u64, given: Given) -> Result<(), NotTaken> {
        let sender = match self.sender(rt, handler, id) {
            Ok(sender) => sender,
            Err(fault) => return Err(fault),
        };
        match sender {
            Some(sender) => match sender.send(given) {
                Ok(()) => Ok(()),
                Err(_gone) => Err(NotTaken::IsOver),
            },
            None => Err(NotTaken::IsOver),
        }
    }

    /// Lets a handler answer the request with the identifier in its post.
    ///
    /// # Errors
    /// If the handler has not taken it, it is over, or its requester has gone away.
    pub fn answer(&self, rt: &impl Wait, handler: u64, posted: Posted) -> Result<(), NotTaken> {
        self.give(rt, handler, posted.id, Given::Posted(posted))
    }

    /// Lets a handler say that the request with this identifier has failed.
    ///
    /// # Errors
    /// If the handler has not taken it, it is over, or its requester has gone away.
    pub fn fail(&self, rt: &impl Wait, handler: u64, id: u64) -> Result<(), NotTaken> {
        self.give(rt, handler, id, Given::Failed)
    }

    /// Notes that the connection with this number has ended. If it was a handler's, what it had taken has failed.
    pub fn note_end<R: Wait + Clock>(&self, rt: &R, number: u64) {
        if !self.may_be_attended() {
            return;
        }
        let now = self.now(rt);
        self.state.lock(rt).ended(number, now);
    }

    /// Gives up what waits if no handler has come back in time. It is called every second while a connection is open.
    pub fn look<R: Wait + Clock>(&self, rt: &R) {
        if !self.may_be_attended() {
            return;
        }
        let now = self.now(rt);
        let mut state = self.state.lock(rt);
        if !state.is_attended(now) {
            state.give_up();
            self.is_watched.store(false, SeqCst);
        }
    }

    /// Notes that the service is over: what waits has failed, and handlers that wait for a request get none.
    pub fn close(&self, rt: &impl Wait) {
        ring(self.end(rt));
    }

    /// Notes that the service is over, and takes the bells of the handlers that wait for a request.
    fn end(&self, rt: &impl Wait) -> Vec<Sender<()>> {
        let mut state = self.state.lock(rt);
        state.end();
        state.take_bells()
    }
}
