//! A service over a wire, which notes there that a request is taken up, or its response is ready.

use crate::wire::Holder;
use futures::Future;
use futures::task::{Context, Poll};
use http::{Method, Request, Response};
use hyper::service::Service;
use std::sync::Wait;
use std::thread;
use std::time::{Clock, Duration};

/// How many milliseconds the next request waits after a poll that was refused.
const PAUSE: u64 = 10;

/// Whether a connection has to wait after one of its polls was refused. A poller that asks again at
/// once, and is refused again, is answered at most a hundred times a second.
#[derive(Drop)]
pub(crate) struct Pace<R> {
    pub(crate) rt: R,
    pub(crate) is_kept: bool,
}

impl<R: Wait + Clock> Pace<R> {
    /// Waits for the pause, during which the connection's thread sleeps. (Not inlined, since it is
    /// rare, and every request would take steps for it.)
    #[inline(never)]
    fn pause(&self) {
        thread::sleep(&self.rt, Duration::from_millis(PAUSE));
    }
}

/// A service, the wire over which its requests come, and its pace.
#[derive(Drop)]
pub(crate) struct Noting<V, R> {
    pub(crate) service: V,
    pub(crate) wire: Holder,
    pub(crate) pace: Pace<R>,
}

/// The future of a response. It notes at the wire that the response is ready.
#[derive(Drop)]
pub(crate) struct Noted<F> {
    future: F,
    // `None` only if a wire had more than 2^63 holders.
    wire: Option<Holder>,
    // Whether its request is a poll whose refusal is noted.
    is_poll: bool,
}

impl<
    I: Drop,
    B: Drop,
    V: Service<Request<I>, Response = Response<B>>,
    R: Wait + Clock + Drop,
> Service<Request<I>> for Noting<V, R> {
    type Response = Response<B>;

    type Error = V::Error;

    type Future = Noted<V::Future>;

    ghost can_call = { λ noting. V.can_call noting.service };

    ghost calls = { λ noting request noted. V.calls noting.service request noted.future };

    fn call(&self, request: Request<I>) -> Noted<V::Future> {
        self.wire.take_up();
        if self.wire.takes_refusal() {
            self.pace.pause();
        }
        let is_poll = self.pace.is_kept && *request.method() == Method::GET;
        Noted {
            future: self.service.call(request),
            wire: self.wire.share().ok(),
            is_poll,
        }
    }
}

impl<F> Noted<F> {
    /// Notes at the wire that the response is ready, and whether it refuses a poll.
    fn note(&self, is_refusal: bool) {
        if let Some(wire) = &self.wire {
            wire.note_response(self.is_poll && is_refusal);
        }
    }
}

/// Returns whether a response refuses its request.
fn is_refusal<B, E>(output: &Result<Response<B>, E>) -> bool {
    match output {
        Ok(response) => response.status().as_u16() >= 400,
        Err(_) => false,
    }
}

impl<B: Drop, E: Drop, F: Future<Output = Result<Response<B>, E>>> Future for Noted<F> {
    type Output = Result<Response<B>, E>;

    ghost can_poll = { λ noted. F.can_poll noted.future };

    ghost needs = { λ noted. F.needs noted.future };

    ghost gives = { λ noted. F.gives noted.future };

    fn poll(&mut self, cx: &mut Context<'_>) -> Poll<Result<Response<B>, E>> {
        let polled = self.future.poll(cx);
        if let Poll::Ready(output) = &polled {
            self.note(is_refusal(output));
        }
        polled
    }
}
