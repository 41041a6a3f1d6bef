//! A connection, and the signals that end it.

ghost use Rattle.std.specs.Prelude.{◌≡◌, IfErr, IfOk, IfSome, IsSomeAnd};
ghost use Rattle.futures.specs.Poll.{IfReady, OnPending};
ghost use Rattle.futures.specs.Task.{IsArmed, Keeps};

use crate::park::Park;
use crate::turns::Turns;
use crate::wire::Holder;
use connection_state::{Pulse, Signal, Signals};
use futures::Future;
use futures::task::{Context, Poll};
use std::alloc::Global;
use std::sync::Arc;

/// A connection, and the signals that end it in any state.
#[derive(Drop)]
pub(crate) struct Ending<C> {
    conn: C,
    signals: Signals,
    // Whether the signals were polled, so that the first one wakes the connection.
    is_listening: bool,
    // Whether the soft signal has come.
    is_soft: bool,
}

impl<C: Drop> Ending<C> {
    /// Puts a connection with its signals on the heap: it is large, and each move of it by what
    /// waits for it would take as much of the stack. (Not inlined for the same reason.) If the
    /// allocation fails, the connection is returned.
    #[inline(never)]
    pub(crate) fn boxed(alloc: Global, conn: C, signals: Signals) -> Result<Box<Ending<C>>, C>
        ensures boxed { IfOk result (λ ending. ending.value.conn ≡ conn) }
        ensures returned { IfErr result (λ left. left ≡ conn) }
    {
        let ending = Ending {
            conn,
            signals,
            is_listening: false,
            is_soft: false,
        };
        match Box::new(alloc, ending) {
            Ok(ending) => Ok(ending),
            Err(refused) => Err(refused.value.conn),
        }
    }
}

impl<C> Ending<C> {
    /// Returns whether a signal ends the connection at once that has ended by itself, and only lingers:
    /// its place is needed, or the sender was dropped. Notes whether the soft signal has come.
    fn is_sent_away(&mut self, cx: &mut Context<'_>) -> bool
        ensures same { self.new.conn ≡ self.old.conn }
        ensures kept { Keeps cx.old cx.new }
    {
        match self.signals.poll_next(cx) {
            Poll::Pending => false,
            Poll::Ready(None | Some(Signal::Room)) => true,
            Poll::Ready(Some(Signal::Soft)) => {
                self.is_soft = true;
                false
            }
        }
    }
}

impl<C: Turns> Ending<C> {
    /// Returns whether a signal ends the connection at once. It makes room if, by its socket, it
    /// served no request when its last turn ended. If the soft signal comes, it ends after the
    /// exchange that has begun. Few connections get a signal, so most turns do not poll for one.
    fn is_cut_off(&mut self, peer: &Holder, cx: &mut Context<'_>) -> bool
        requires { C.runs self.old.conn }
        ensures runs { C.runs self.new.conn }
        ensures same { (o : _) (io : _) → C.leaves self.new.conn o io → C.leaves self.old.conn o io }
        ensures kept { Keeps cx.old cx.new }
    {
        if self.is_listening && !self.signals.may_have_come() {
            return false;
        }
        self.is_listening = true;
        match self.signals.poll_next(cx) {
            Poll::Pending => false,
            Poll::Ready(None) => true,
            Poll::Ready(Some(Signal::Room)) => peer.is_unserved(),
            Poll::Ready(Some(Signal::Soft)) => {
                self.is_soft = true;
                self.conn.finish();
                false
            }
        }
    }

    /// Takes the connection apart. (Not inlined, so that no turn of it takes stack for that.)
    #[inline(never)]
    fn into_io(ending: Box<Ending<C>>) -> C::Io
        requires { C.runs ending.value.conn }
        ensures { (o : _) → IfSome o (C.ends ending.value.conn) → C.leaves ending.value.conn o result }
    {
        let Ending { conn, .. } = Box::into_inner(ending);
        conn.into_io()
    }
}

/// A connection that also ends if its peer does while a request is parked, even with unread bytes
/// after that request, or if its place is needed while it serves no request. Once it has ended by
/// itself, it lingers: it lets its peer read the answer, and throws away what the peer still sends,
/// before the socket is closed. It publishes its state, and gives its IO, and its outcome if it ended
/// by itself.
#[derive(Drop)]
pub(crate) struct Watched<C, O> {
    // `None` once it has given what it gives.
    ending: Option<Box<Ending<C>>>,
    peer: Holder,
    open: O,
    pulse: Arc<Pulse>,
    // The outcome, once it has ended by itself, until that is handed on.
    outcome: Option<hyper::Result<()>>,
}

impl<C, O> Watched<C, O> {
    /// Watches a connection. `peer` is its socket, `open` notes whether a request is parked, and
    /// `pulse` is where it publishes its state.
    pub(crate) fn new(
        ending: Box<Ending<C>>,
        peer: Holder,
        open: O,
        pulse: Arc<Pulse>,
    ) -> Watched<C, O>
        ensures ending { result.ending ≡ Some ending }
        ensures open { result.outcome ≡ None }
    {
        Watched {
            ending: Some(ending),
            peer,
            open,
            pulse,
            outcome: None,
        }
    }

    /// Lets the peer of a connection that has ended by itself read its answer, and then gives the
    /// outcome. It gives it at once if its place is needed, and after the soft signal if the peer is not
    /// sending. (Not inlined, so that no other turn of a connection takes steps for it.)
    #[inline(never)]
    fn poll_end(
        &mut self,
        ending: &mut Ending<C>,
        cx: &mut Context<'_>,
    ) -> Poll<Option<hyper::Result<()>>>
        ensures value { IfReady result (λ outcome. outcome ≡ self.old.outcome) }
        ensures conn { ending.new.conn ≡ ending.old.conn }
        ensures same { OnPending result (self.new.outcome ≡ self.old.outcome) }
        ensures registered { OnPending result (IsArmed cx.new) }
        ensures kept { Keeps cx.old cx.new }
    {
        if ending.is_sent_away(cx) {
            return Poll::Ready(self.outcome.take());
        }
        let drained = self.peer.poll_drained(cx);
        self.peer.await_end(&self.pulse);
        match drained {
            Poll::Pending if !ending.is_soft || self.peer.is_sending() => Poll::Pending,
            _ => Poll::Ready(self.outcome.take()),
        }
    }
}

impl<C: Turns, O: Park> Watched<C, O> {
    /// Takes the connection apart before it has given anything.
    pub(crate) fn into_io(self) -> C::Io
        requires { IsSomeAnd self.ending (λ ending. C.runs ending.value.conn) }
        ensures { IfSome self.ending (λ ending. C.leaves ending.value.conn None result) }
    {
        let Watched { ending, .. } = self;
        match ending {
            Some(ending) => Ending::into_io(ending),
            None => unreachable!(),
        }
    }

    /// Serves until there is nothing to do. Is ready once the connection has to be taken apart,
    /// with its outcome if it has ended by itself.
    fn poll_turn(
        &mut self,
        ending: &mut Ending<C>,
        cx: &mut Context<'_>,
    ) -> Poll<Option<hyper::Result<()>>>
        requires runs { C.runs ending.old.conn }
        requires ended { IfSome self.old.outcome (C.ends ending.old.conn) }
        ensures runs { C.runs ending.new.conn }
        ensures same { (o : _) (io : _) → C.leaves ending.new.conn o io → C.leaves ending.old.conn o io }
        ensures value { IfReady result (λ outcome. IfSome outcome (C.ends ending.new.conn)) }
        ensures ended { OnPending result (IfSome self.new.outcome (C.ends ending.new.conn)) }
        ensures registered { OnPending result (IsArmed cx.new) }
        ensures kept { Keeps cx.old cx.new }
    {
        if self.outcome.is_some() {
            return self.poll_end(ending, cx);
        }
        if ending.is_cut_off(&self.peer, cx) {
            return Poll::Ready(None);
        }
        self.peer.begin_turn();
        let turned = ending.conn.turn(cx);
        self.open.end_turn();
        match turned {
            Poll::Pending => {
                let is_parked = self.open.is_parked();
                self.peer.end_turn(&self.pulse, is_parked);
                if is_parked && self.peer.poll_ended(cx).is_ready() {
                    return Poll::Ready(None);
                }
                Poll::Pending
            }
            Poll::Ready(outcome) => {
                self.peer.shut_down();
                self.outcome = Some(outcome);
                self.poll_end(ending, cx)
            }
        }
    }
}

impl<C: Turns, O: Park> Future for Watched<C, O> {
    ghost use Rattle.std.specs.Prelude.{IfSome, IsSomeAnd};

    type Output = (Option<hyper::Result<()>>, C::Io);

    ghost can_poll = { λ w. IsSomeAnd w.ending (λ ending. C.runs ending.value.conn
        × IfSome w.outcome (C.ends ending.value.conn)) };

    ghost gives = { λ w given. IfSome w.ending (λ ending. C.leaves ending.value.conn given.0 given.1) };

    fn poll(&mut self, cx: &mut Context<'_>) -> Poll<(Option<hyper::Result<()>>, C::Io)> {
        let Some(mut ending) = self.ending.take() else {
            unreachable!()
        };
        match self.poll_turn(&mut ending, cx) {
            Poll::Pending => {
                self.ending = Some(ending);
                Poll::Pending
            }
            Poll::Ready(outcome) => Poll::Ready((outcome, Ending::into_io(ending))),
        }
    }
}
