//! What the exchanges of one connection share.

ghost use Rattle.std.specs.Prelude.{◌≡◌, ◌≤◌, ◌<◌, ℕ, List, length, IfOk, IfErr};
ghost use Rattle.std.specs.Arc.{arc_value};
ghost use Rattle.arn_ids.specs.Limits.{longest_body};
ghost use Rattle.call_types.specs.Within.{IsFunction};
ghost use Rattle.decisions.specs.Decisions.{IsAllowed};
ghost use Rattle.http.specs.declared.request.Parts.{Parts as Head};
ghost use Rattle.futures.specs.Task.{Covers, Keeps};
ghost use Rattle.futures.specs.Poll.{IfReady, OnPending};

use super::submission::Submission;
use super::views::{
    environments_reply, followers_reply, reservation_reply, stats_reply, version_reply,
};
use crate::beat::FollowerPlace;
use crate::{
    Cause, Clock, ExchangeFault, Heard, HistoryBody, Kind, LateBells, MOST_LAG_MS, OneShotBell,
    OpenPoll, Outcome, Service, Shared, StreamedBody, TraceBody,
};
use account_lock::{Ringer, Rings};
use arn_ids::FnNo;
use call_model::{Stats, Ticket};
use decisions::{Decide, Decision, Received, Shown, TraceQuery};
use futures::future::Future;
use futures::task::{Context, Poll};
use http::request::Parts;
use lambda_wire::{HeaderMaps, PayloadScratch, Reply};
use std::alloc::{AllocError, Global};
use std::cell::Cell;
use std::sync::{Arc, Mutex, Wait};
use std::time;
use usage_ledger::{Anchor, Keep, Ledgers, Tally, Token};

/// What the exchanges of one connection share: what its service shares with all of them; the decider of its
/// requests, of the same configuration as the service's account; its tally; its anchor in the account's history; and the
/// note of its open Next.
#[derive(Drop)]
pub struct Connection<R, S: Service<K>, D: Decide, N, K: Keep> {
    pub(crate) rt: R,
    pub(crate) shared: Arc<Shared<S, N>>,
    pub(crate) decider: Arc<D>,
    pub(crate) tally: Arc<Mutex<Tally<K, S::Ledgers>>>,
    pub(crate) open: Arc<OpenPoll>,
    // The function whose environment asks here, if one does.
    pub(crate) function: Option<FnNo>,
    // The number of its port, 0 if it is not known.
    port: u16,
    // Where the bells of its steps wait for the end of its turn; if there is no such place, they ring at once.
    bells: Option<Arc<LateBells>>,
    // The history as it was when the connection began, or a beginning of that.
    pub(crate) anchor: Anchor<S::Ledgers>,
    // The scratch space in which payloads are read, one decision at a time.
    scratch: Cell<PayloadScratch>,
    ghost agree: { S.serves (arc_value (arc_value shared).service) ≡ D.decides_for (arc_value decider) },
}

/// How far a request has come.
#[derive(Drop)]
pub(crate) enum Begun<L: Ledgers> {
    /// It has its reply, with a token of the history that the reply is of.
    Replied(Reply, Token<L>),
    /// Its call is held back. (On the heap, since few calls are, and what is returned of the others would
    /// have its size.)
    HeldBack(Box<Submission>),
    /// It asks for the history, from the entry of a ticket on or whole.
    AsksForHistory {
        from: Option<Ticket>,
    },
    /// It asks for this trace.
    AsksForTrace(TraceQuery),
    /// Its call was taken, and its bell rings once its ticket is answered. The token has seen the
    /// history up to the call.
    Parked {
        ticket: Ticket,
        heard: Heard,
        token: Token<L>,
    },
}

impl<R: Drop, S: Service<K>, D: Decide + Drop, N: Drop, K: Keep> Ringer<OneShotBell>
    for Connection<R, S, D, N, K> {
    fn take<W: Wait>(&self, rt: &W, rings: Rings<OneShotBell>) {
        match &self.bells {
            Some(bells) => bells.take(rt, rings),
            None => rings.ring(),
        }
    }
}

impl<
    R: Wait + time::Clock + Copy + Drop,
    S: Service<K>,
    D: Decide + Drop,
    N: Clock + Drop,
    K: Keep,
> Connection<R, S, D, N, K> {
    ghost use Rattle.long_poll.specs.Exchanges.{service_of, clock_of};
    ghost use Rattle.long_poll.specs.Exchanges.{HasBegun, Decides};
    ghost use Rattle.long_poll.specs.Exchanges.{Counts, Lists, Reserves, Renders, RendersOnce, shown};
    ghost use Rattle.long_poll.specs.Outcomes.{ShowsFrom};
    ghost use Rattle.long_poll.specs.TraceFrames.{IsTraceFrom};
    ghost use Rattle.long_poll.specs.declared.exchange.outcome.Outcome.TheVariants.{Reply as replied};
    ghost use Rattle.long_poll.specs.Pending.{KeepsTo};
    ghost use Rattle.long_poll.specs.Views.{followers_reply as full_reply};

    /// Returns a connection to this service, whose requests are decided for the same configuration. Each
    /// submit locks the connection's tally, and then the account. What the token has seen is the connection's anchor:
    /// each reply is of a history that continues it, and each call has a ticket that is not in it. While a premature
    /// call is held back, the connection's thread sleeps at its place in the line.
    ///
    /// # Errors
    /// If an allocation fails.
    pub fn new(
        rt: R,
        shared: Arc<Shared<S, N>>,
        decider: Arc<D>,
        tally: Arc<Mutex<Tally<K, S::Ledgers>>>,
        mut token: Token<S::Ledgers>,
        open: Arc<OpenPoll>,
    ) -> Result<Connection<R, S, D, N, K>, AllocError>
        requires { S.serves (arc_value (arc_value shared).service) ≡ D.decides_for (arc_value decider) }
        ensures { IfOk result (λ connection. (connection.shared ≡ shared) × (connection.decider ≡ decider)
            × (connection.anchor ≡ token)) }
    {
        let anchor = shared.service.anchor(&mut token);
        let long = Arc::try_clone(&shared.long)?;
        Ok(Connection {
            rt,
            shared,
            decider,
            tally,
            open,
            function: None,
            port: 0,
            bells: None,
            anchor,
            scratch: Cell::new(PayloadScratch::sharing(long)),
        })
    }

    /// Returns the same connection at the port of an environment of this function, if it is at one: its Nexts call
    /// the callers of this function.
    pub fn of_function(mut self, function: Option<FnNo>) -> Connection<R, S, D, N, K>
        ensures { (result.shared ≡ self.shared) × (result.decider ≡ self.decider) × (result.anchor ≡ self.anchor) }
    {
        self.function = function;
        self
    }

    /// Returns the same connection, at the port with this number.
    pub fn at_port(mut self, port: u16) -> Connection<R, S, D, N, K>
        ensures { (result.shared ≡ self.shared) × (result.decider ≡ self.decider) × (result.anchor ≡ self.anchor) }
    {
        self.port = port;
        self
    }

    /// Returns the same connection, the bells of whose steps are held here, by a thread that rings them after each turn of
    /// the connection.
    pub fn ringing_late(mut self, bells: Arc<LateBells>) -> Connection<R, S, D, N, K>
        ensures { (result.shared ≡ self.shared) × (result.decider ≡ self.decider) × (result.anchor ≡ self.anchor) }
    {
        self.bells = Some(bells);
        self
    }

    /// Rings the bells of its steps now.
    pub(crate) fn ring_bells(&self) {
        if let Some(bells) = &self.bells {
            bells.ring(&self.rt);
        }
    }

    /// Counts a request that is rejected, for the log. What its response says of it is kept if `why` is given.
    pub fn note_rejected(&self, parts: &Parts, cause: Cause, why: Option<&[u8]>) {
        let kind = Kind {
            cause,
            is_of_environment: self.function.is_some(),
        };
        let shared = &*self.shared;
        shared
            .rejections
            .note(&self.rt, kind, self.port, Some(parts), why);
    }

    /// Counts a request that is rejected by this reply. (Why a request is malformed, its reply alone says.)
    fn note_reply(&self, parts: &Parts, reply: &Reply) {
        match Cause::of_status(reply.status) {
            None => {}
            Some(Cause::Malformed) => {
                self.note_rejected(parts, Cause::Malformed, Some(reply.body.as_slice()));
            }
            Some(cause) => self.note_rejected(parts, cause, None),
        }
    }

    /// Counts a request whose body failed.
    pub(crate) fn note_fault(&self, parts: &Parts, fault: ExchangeFault) {
        if fault == ExchangeFault::BodyFailed {
            self.note_rejected(parts, Cause::BrokenBody, None);
        }
    }

    /// Returns its allocator.
    pub(crate) fn alloc(&self) -> Global
        ensures { result ≡ (arc_value self.now.shared).alloc }
    {
        self.shared.alloc
    }

    /// Returns its account.
    pub(crate) fn service(&self) -> &S
        ensures { result.now ≡ service_of self.now }
    {
        &self.shared.service
    }

    /// Returns its clock.
    pub(crate) fn clock(&self) -> &N
        ensures { result.now ≡ clock_of self.now }
    {
        &self.shared.clock
    }

    /// Returns the maps of the headers that most replies have.
    pub(crate) fn maps(&self) -> &HeaderMaps {
        &self.shared.maps
    }

    /// Sees to it that the clock is not behind the time of day, as after the machine has slept: if the ticker
    /// rests, it first gets the time to set the clock forward.
    pub fn await_time_of_day(&self) {
        if self.shared.beat.rests() && self.shared.clock.lag() > MOST_LAG_MS {
            self.shared.beat.await_look(&self.rt);
        }
    }

    /// Returns a token that has seen what the connection's anchor is at.
    pub(crate) fn token(&self) -> Token<S::Ledgers>
        ensures { result ≡ self.now.anchor }
    {
        self.service().from_anchor(&self.rt, &self.anchor)
    }

    /// Decides a request, and does what is decided. Of a body that is too long none of the bytes matters.
    pub(crate) fn begin(
        &self,
        parts: &Parts,
        body: &Received,
    ) -> Result<Begun<S::Ledgers>, ExchangeFault>
        ensures ok { IfOk result (HasBegun self.now N.Clock parts.now body.now) }
        ensures alike { longest_body < length body.now → IfOk result
            (λ begun. (other : List ℕ) → longest_body < length other → HasBegun self.now N.Clock parts.now other begun) }
        ensures err { IfErr result (λ fault. fault ≡ ExchangeFault.OutOfMemory) }
    {
        let mut scratch = self.scratch.take();
        let decided = self.decider.decide(self.alloc(), &mut scratch, parts, body);
        self.scratch.set(scratch);
        self.carry_out(parts, decided?)
    }

    /// Returns the counts of its account, with a token of the history that has them.
    fn stats(&self) -> (Stats, Token<S::Ledgers>)
        ensures { Counts self.now result.0 result.1 }
    {
        let mut token = self.token();
        let stats = self.service().stats(&self.rt, &mut token);
        (stats, token)
    }

    /// Returns a function's reservation in its account, with a token of the history that has it.
    fn reservation(&self, function: FnNo) -> (Option<u32>, Token<S::Ledgers>)
        requires { IsFunction (S.serves (service_of self.now)) function }
        ensures { Reserves self.now function result.0 result.1 }
    {
        let mut token = self.token();
        let count = self.service().reservation(&self.rt, &mut token, function);
        (count, token)
    }

    /// Returns the text of its account's environments, with a token of the history that has them.
    fn environments(&self) -> Result<(Vec<u8>, Token<S::Ledgers>), AllocError>
        ensures { IfOk result (λ shown. Lists self.now shown.0.items shown.1) }
    {
        let mut token = self.token();
        let text = self.service().environments(&self.rt, &mut token)?;
        Ok((text, token))
    }

    /// Does what was decided about the request with this head.
    fn carry_out(
        &self,
        parts: &Parts,
        decision: Decision,
    ) -> Result<Begun<S::Ledgers>, ExchangeFault>
        requires { IsAllowed (S.serves (service_of self.now)) decision }
        ensures ok { IfOk result
            (λ begun. (head : Head) → (body : List ℕ) → Decides self.now head body decision
            → HasBegun self.now N.Clock head body begun) }
        ensures err { IfErr result (λ fault. fault ≡ ExchangeFault.OutOfMemory) }
    {
        match decision {
            Decision::Reply(reply) => {
                self.note_reply(parts, &reply);
                Ok(Begun::Replied(reply, self.token()))
            }
            Decision::Show(Shown::Stats) => {
                let (stats, seen) = self.stats();
                Ok(Begun::Replied(stats_reply(self.alloc(), stats)?, seen))
            }
            Decision::Show(Shown::History { from }) => Ok(Begun::AsksForHistory { from }),
            Decision::Show(Shown::Trace(query)) => Ok(Begun::AsksForTrace(query)),
            Decision::Show(Shown::Environments) => {
                let (text, seen) = self.environments()?;
                Ok(Begun::Replied(environments_reply(self.alloc(), text)?, seen))
            }
            Decision::Show(Shown::Reservation { function }) => {
                let (count, seen) = self.reservation(function);
                Ok(Begun::Replied(reservation_reply(self.alloc(), count)?, seen))
            }
            Decision::Show(Shown::Version) => {
                Ok(Begun::Replied(version_reply(self.alloc())?, self.token()))
            }
            Decision::Clock(request) => {
                let (reply, seen) = self.ask_clock(request)?;
                Ok(Begun::Replied(reply, seen))
            }
            Decision::Submit(call) => self.submit_call(call),
        }
    }

    /// Returns the account's history, from the entry of a ticket on or whole.
    pub(crate) fn history(
        &self,
        from: Option<Ticket>,
    ) -> Result<Box<HistoryBody<R, S, K, S::Ledgers>>, AllocError>
        ensures { IfOk result (λ body. ShowsFrom (service_of self.now) self.now.anchor from body.value) }
    {
        let service = Arc::try_clone(&self.shared.service)?;
        let body = HistoryBody::new(self.rt, service, self.token(), from);
        Box::new(self.alloc(), body).map_err(AllocError::from)
    }

    /// Returns the trace of the account's history that is asked for. If it follows the history, it has a place among
    /// the followers.
    pub(crate) fn trace(
        &self,
        place: Option<FollowerPlace>,
        query: TraceQuery,
    ) -> Result<Box<TraceBody<R, S, S::Trail, K, S::Ledgers>>, AllocError>
        ensures { IfOk result (λ body. IsTraceFrom S.Service (service_of self.now) self.now.anchor query body.value) }
    {
        let service = Arc::try_clone(&self.shared.service)?;
        let open = Arc::try_clone(&self.open)?;
        let beat = Arc::try_clone(&self.shared.beat)?;
        let token = self.token();
        let body = TraceBody::new(
            self.rt,
            self.alloc(),
            service,
            token,
            open,
            beat,
            place,
            query,
        )?;
        Box::new(self.alloc(), body).map_err(AllocError::from)
    }

    /// Takes a place among those who follow the history, `None` if none is left.
    pub(crate) fn follower_place(&self) -> Result<Option<FollowerPlace>, AllocError> {
        FollowerPlace::take(&self.shared.beat)
    }

    /// Returns the reply to a request to follow the history for which no place is left.
    pub(crate) fn turned_away(&self) -> Result<(Reply, Token<S::Ledgers>), AllocError>
        ensures { IfOk result (λ replied. replied.0 ≡ full_reply) }
    {
        Ok((followers_reply(self.alloc())?, self.token()))
    }

    /// Renders the answer to a ticket, and takes back the note of a Next.
    fn render(&self, token: &mut Token<S::Ledgers>, ticket: Ticket) -> Result<Reply, ExchangeFault>
        ensures { Renders (shown self.now token.old) ticket result token.new }
    {
        match self.service().render(&self.rt, token, ticket) {
            Err(AllocError) => Err(ExchangeFault::OutOfMemory),
            Ok(None) => Err(ExchangeFault::BellLost),
            Ok(Some(reply)) => {
                self.open.clear(ticket);
                Ok(reply)
            }
        }
    }

    /// Waits until the bell is heard, and then renders the answer to a ticket. The bell is heard by a
    /// future of any type, so that nothing can be rendered before this future is ready.
    pub(crate) fn poll_render<H: Future>(
        &self,
        heard: &mut H,
        token: &mut Token<S::Ledgers>,
        ticket: Ticket,
        cx: &mut Context<'_>,
    ) -> Poll<Result<Reply, ExchangeFault>>
    where
        H::Output: Drop,
        requires { H.can_poll heard.old }
        ensures value { IfReady result
            (λ reply. RendersOnce (H.gives heard.old) (shown self.now token.old) ticket reply token.new) }
        ensures again { OnPending result (H.can_poll heard.new) }
        ensures same { OnPending result (KeepsTo H.gives heard.old heard.new) }
        ensures registered { OnPending result (Covers cx.new (H.needs heard.new)) }
        ensures kept { Keeps cx.old cx.new }
        ensures token { OnPending result (token.new ≡ token.old) }
    {
        match heard.poll(cx) {
            Poll::Pending => Poll::Pending,
            Poll::Ready(_) => Poll::Ready(self.render(token, ticket)),
        }
    }

    /// Returns a reply as an outcome, with another token that has seen as much as this one.
    pub(crate) fn replied(
        &self,
        reply: Reply,
        token: &mut Token<S::Ledgers>,
    ) -> Outcome<StreamedBody<R, S, S::Trail, K, S::Ledgers>, S::Ledgers>
        ensures { result ≡ replied reply token.old }
    {
        Outcome::Reply(reply, self.service().again(token))
    }
}
