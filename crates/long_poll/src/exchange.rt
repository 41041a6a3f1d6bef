//! One request, from its body to its reply.

mod clock_request;
mod collecting;
mod connection;
mod fault;
mod first_bytes;
mod lengths;
mod outcome;
mod refusal;
mod submission;
mod views;

ghost use Rattle.std.specs.Prelude.{◌≡◌, [], MatchResult};
ghost use Rattle.std.specs.Arc.{arc_value};
ghost use Rattle.futures.specs.Task.{Covers, Keeps};
ghost use Rattle.futures.specs.Poll.{IfReady, OnPending};
ghost use Rattle.long_poll.specs.Lengths.{declares_too_long};
ghost use Rattle.long_poll.specs.Outcomes.{IsHistoryOf, IsTraceOf};
ghost use Rattle.decisions.specs.declared.decide.Shown.TheVariants.{Trace};
ghost use Rattle.long_poll.specs.Exchanges.{anchored, service_of};
ghost use Rattle.long_poll.specs.Pending.{KeepsTo};
ghost use Rattle.long_poll.specs.declared.exchange.Stage.TheVariants as stage;
ghost use Rattle.long_poll.specs.declared.exchange.fault.ExchangeFault.TheVariants.{OutOfMemory};

use crate::{Clock, Heard, Service, StreamedBody};
use bytes::Bytes;
use call_model::Ticket;
pub use collecting::Collecting;
use connection::Begun;
pub use connection::Connection;
use decisions::{Decide, Received, TraceQuery};
pub use fault::{BodyFault, ExchangeFault};
use futures::future::Future;
use futures::ready;
use futures::task::{Context, Poll};
use http::request::Parts;
use http_body::Body;
use lambda_wire::HeaderMaps;
pub use lengths::declares_too_long;
pub use outcome::Outcome;
use std::sync::{Arc, Wait};
use std::{mem, time};
use submission::Submission;
use usage_ledger::{Keep, Ledgers, Token};
pub use views::{
    VERSION, clock_reply, environments_reply, history_headers, reservation_reply, stats_reply,
    version_reply,
};

/// The stage of an exchange.
#[derive(Drop)]
enum Stage<B, L: Ledgers> {
    /// The body is being collected. It is known whether the head declares that it is too long.
    Collecting {
        parts: Parts,
        body: Collecting<B>,
        is_too_long: bool,
    },
    /// The call is held back: each poll sleeps until it is called, for a pause at most, and tries it once.
    Submitting(Box<Submission>),
    /// The call that was held back is being tried, within one poll.
    Trying,
    /// The call was taken, and its answer is awaited. The token has seen the history up to the call.
    Waiting {
        ticket: Ticket,
        heard: Heard,
        token: Token<L>,
    },
}

/// One request. Its body is collected and it is decided; its call is held back while premature, submitted,
/// and its answer awaited and rendered. A request for counts, a reservation, the environments, the history or
/// its trace needs no call.
#[derive(Drop)]
pub struct Exchange<R, S: Service<K>, D: Decide, N, B, K: Keep> {
    connection: Arc<Connection<R, S, D, N, K>>,
    stage: Stage<B, S::Ledgers>,
}

impl<
    R: Wait + time::Clock + Copy + Drop,
    S: Service<K>,
    D: Decide + Drop,
    N: Clock + Drop,
    B: Body,
    K: Keep,
> Exchange<R, S, D, N, B, K>
where
    B::Data: Into<Bytes>,
    B::Error: BodyFault,
{
    ghost use Rattle.long_poll.specs.Stages.{CanGoOn, IsStarting, IsSubmitting, IsWaiting, WaitsFor};
    ghost use Rattle.long_poll.specs.Standing.{Holds, Starts};

    /// Begins the exchange of a request with this head and this body, of which the head declares that it is too
    /// long, or not ([`declares_too_long`](crate::declares_too_long)). It takes no memory.
    pub fn new(
        connection: Arc<Connection<R, S, D, N, K>>,
        parts: Parts,
        body: B,
        is_too_long: bool,
    ) -> Exchange<R, S, D, N, B, K>
        requires { is_too_long ≡ declares_too_long parts }
        ensures connection { result.connection ≡ connection }
        ensures stage { result.stage ≡ stage.Collecting parts
            (record { alloc = (arc_value (arc_value connection).shared).alloc; body = body; held = [] }) is_too_long }
    {
        let body = Collecting::new(connection.alloc(), body);
        Exchange {
            connection,
            stage: Stage::Collecting {
                parts,
                body,
                is_too_long,
            },
        }
    }

    /// Returns the maps of the headers that most replies have.
    pub fn maps(&self) -> &HeaderMaps {
        self.connection.maps()
    }

    /// Tries once more the call that is held back.
    fn look_again(&mut self) -> Result<Begun<S::Ledgers>, ExchangeFault>
        requires { IsSubmitting (Holds self.old) self.old.stage }
        ensures value { Starts N.Clock B.yields B.Data.converts self.old result }
        ensures connection { self.new.connection ≡ self.old.connection }
    {
        match mem::replace(&mut self.stage, Stage::Trying) {
            Stage::Submitting(held) => self.connection.submit(Box::into_inner(held)),
            _ => unreachable!(),
        }
    }

    /// Collects the body, then decides the request and submits its call; or tries once more the call that is
    /// held back. A body that is declared to be too long is not asked for, so that a client that waits for
    /// `100 Continue` does not send it (RFC 9110, section 10.1.1).
    fn poll_start(&mut self, cx: &mut Context<'_>) -> Poll<Result<Begun<S::Ledgers>, ExchangeFault>>
        requires { IsStarting (Holds self.old) B.can_poll self.old.stage }
        ensures value { IfReady result (Starts N.Clock B.yields B.Data.converts self.old) }
        ensures again { OnPending result (IsStarting (Holds self.new) B.can_poll self.new.stage) }
        ensures same { OnPending result (KeepsTo ⟦<Self as Future>⟧.gives self.old self.new) }
        ensures registered { OnPending result (Covers cx.new (WaitsFor B.needs self.new.stage)) }
        ensures kept { Keeps cx.old cx.new }
        ensures connection { self.new.connection ≡ self.old.connection }
    {
        match &mut self.stage {
            Stage::Waiting { .. } | Stage::Trying => unreachable!(),
            Stage::Submitting(_) => Poll::Ready(self.look_again()),
            Stage::Collecting {
                parts,
                is_too_long: true,
                ..
            } => Poll::Ready(self.connection.begin(parts, &Received::too_long())),
            Stage::Collecting { parts, body, .. } => match body.poll(cx) {
                Poll::Pending => Poll::Pending,
                Poll::Ready(Err(fault)) => {
                    self.connection.note_fault(parts, fault);
                    Poll::Ready(Err(fault))
                }
                Poll::Ready(Ok(bytes)) => {
                    Poll::Ready(self.connection.begin(parts, &Received::whole(bytes)))
                }
            },
        }
    }

    /// Awaits the answer to this ticket from now on. What was collected is dropped.
    fn park(&mut self, ticket: Ticket, heard: Heard, token: Token<S::Ledgers>)
        ensures stage { self.new.stage ≡ stage.Waiting ticket heard token }
        ensures connection { self.new.connection ≡ self.old.connection }
    {
        self.stage = Stage::Waiting {
            ticket,
            heard,
            token,
        };
    }

    /// Returns the account's history, from the entry of a ticket on or whole.
    fn history(
        &self,
        from: Option<Ticket>,
    ) -> Result<Outcome<StreamedBody<R, S, S::Trail, K, S::Ledgers>, S::Ledgers>, ExchangeFault>
        ensures { MatchResult result
            (IsHistoryOf S.Service (service_of (arc_value self.now.connection))
            (anchored (arc_value self.now.connection)) from)
            (λ fault. fault ≡ OutOfMemory) }
    {
        Ok(Outcome::History(StreamedBody::History(self.connection.history(from)?)))
    }

    /// Returns the trace of the account's history that is asked for; or a reply if it is to be followed, and as many
    /// connections follow it as may.
    fn trace(
        &self,
        query: TraceQuery,
    ) -> Result<Outcome<StreamedBody<R, S, S::Trail, K, S::Ledgers>, S::Ledgers>, ExchangeFault>
        ensures { MatchResult result
            (IsTraceOf S.Service (service_of (arc_value self.now.connection))
            (anchored (arc_value self.now.connection)) (Trace query))
            (λ fault. fault ≡ OutOfMemory) }
    {
        let mut place = None;
        if query.follow {
            place = self.connection.follower_place()?;
            if place.is_none() {
                let (reply, token) = self.connection.turned_away()?;
                return Ok(Outcome::Reply(reply, token));
            }
        }
        let body = self.connection.trace(place, query)?;
        Ok(Outcome::Trace(StreamedBody::Trace(body)))
    }

    /// Waits for the answer, and renders it.
    fn poll_answer(
        &mut self,
        cx: &mut Context<'_>,
    ) -> Poll<
        Result<Outcome<StreamedBody<R, S, S::Trail, K, S::Ledgers>, S::Ledgers>, ExchangeFault>,
    >
        requires { IsWaiting self.old.stage }
        ensures value { IfReady result (⟦<Self as Future>⟧.gives self.old) }
        ensures again { OnPending result (IsWaiting self.new.stage) }
        ensures same { OnPending result (KeepsTo ⟦<Self as Future>⟧.gives self.old self.new) }
        ensures registered { OnPending result (Covers cx.new (WaitsFor B.needs self.new.stage)) }
        ensures kept { Keeps cx.old cx.new }
    {
        match &mut self.stage {
            Stage::Collecting { .. } | Stage::Submitting(_) | Stage::Trying => unreachable!(),
            Stage::Waiting {
                ticket,
                heard,
                token,
            } => match self.connection.poll_render(heard, token, *ticket, cx) {
                Poll::Pending => Poll::Pending,
                Poll::Ready(Ok(reply)) => Poll::Ready(Ok(self.connection.replied(reply, token))),
                Poll::Ready(Err(fault)) => Poll::Ready(Err(fault)),
            },
        }
    }

    /// Goes on with an exchange whose answer is not awaited yet: with its start, and if its call was submitted
    /// thereby, with its answer. (Not inlined, since the polls of an exchange that waits would clear the memory of
    /// its results, too.)
    #[inline(never)]
    fn poll_begin(
        &mut self,
        cx: &mut Context<'_>,
    ) -> Poll<
        Result<Outcome<StreamedBody<R, S, S::Trail, K, S::Ledgers>, S::Ledgers>, ExchangeFault>,
    >
        requires { IsStarting (Holds self.old) B.can_poll self.old.stage }
        ensures value { IfReady result (⟦<Self as Future>⟧.gives self.old) }
        ensures again { OnPending result (CanGoOn (Holds self.new) B.can_poll self.new.stage) }
        ensures same { OnPending result (KeepsTo ⟦<Self as Future>⟧.gives self.old self.new) }
        ensures registered { OnPending result (Covers cx.new (WaitsFor B.needs self.new.stage)) }
        ensures kept { Keeps cx.old cx.new }
    {
        match ready!(self.poll_start(cx)) {
            Err(fault) => Poll::Ready(Err(fault)),
            Ok(Begun::Replied(reply, token)) => Poll::Ready(Ok(Outcome::Reply(reply, token))),
            Ok(Begun::HeldBack(held)) => {
                self.stage = Stage::Submitting(held);
                cx.yield_now()
            }
            Ok(Begun::AsksForHistory { from }) => Poll::Ready(self.history(from)),
            Ok(Begun::AsksForTrace(query)) => Poll::Ready(self.trace(query)),
            Ok(
                Begun::Parked {
                    ticket,
                    heard,
                    token,
                },
            ) => {
                self.park(ticket, heard, token);
                self.poll_answer(cx)
            }
        }
    }
}

impl<
    R: Wait + time::Clock + Copy + Drop,
    S: Service<K>,
    D: Decide + Drop,
    N: Clock + Drop,
    B: Body,
    K: Keep,
> Future for Exchange<R, S, D, N, B, K>
where
    B::Data: Into<Bytes>,
    B::Error: BodyFault,
{
    ghost use Rattle.long_poll.specs.Stages.{CanGoOn, WaitsFor};
    ghost use Rattle.long_poll.specs.Standing.{Holds, Gives};

    type Output = Result<
        Outcome<StreamedBody<R, S, S::Trail, K, S::Ledgers>, S::Ledgers>,
        ExchangeFault,
    >;

    ghost can_poll = { λ exchange. CanGoOn (Holds exchange) B.can_poll exchange.stage };

    ghost needs = { λ exchange. WaitsFor B.needs exchange.stage };

    ghost gives = { Gives N.Clock B.yields B.Data.converts };

    fn poll(&mut self, cx: &mut Context<'_>) -> Poll<Self::Output> {
        if let Stage::Waiting { .. } = &self.stage {
            return self.poll_answer(cx);
        }
        self.poll_begin(cx)
    }
}
