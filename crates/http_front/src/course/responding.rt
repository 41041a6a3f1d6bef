//! The responses to requests, as futures.

ghost use Rattle.std.specs.Prelude.{◌≡◌, IfOk, Some, None};
ghost use Rattle.http_front.specs.Responses.{IsAnswerTo, IsRefusal};

use crate::course::response::{reply_response, response_to};
use crate::{Port, ResponseFault, SentBody};
use bytes::Bytes;
use decisions::Decide;
use futures::Future;
use futures::task::{Context, Poll};
use http::Response;
use http_body::Body;
use http_body_util::Either;
use lambda_wire::HeaderMaps;
use long_poll::{BodyFault, Clock, Exchange, ExchangeFault, Outcome, Service, StreamedBody};
use request_guard::{Refusal, refusal_reply};
use std::alloc::Global;
use std::sync::Wait;
use std::time;
use usage_ledger::{Keep, Ledgers};

/// The response to one request: a refusal, or what its exchange comes to.
#[derive(Drop)]
pub struct Responding<R, A: Service<K>, D: Decide, N, B, K: Keep> {
    alloc: Global,
    // The API that its port speaks.
    port: Port,
    // Whether the request's body is left unread, so that the connection ends.
    is_unread: bool,
    // `None` if the request is refused.
    exchange: Option<Box<Exchange<R, A, D, N, B, K>>>,
    // Why the request never becomes a call.
    refusal: Option<Refusal>,
}

impl<R, A: Service<K>, D: Decide, N, B, K: Keep> Responding<R, A, D, N, B, K> {
    /// Returns the response to a request that never becomes a call.
    pub(crate) fn refused(
        alloc: Global,
        port: Port,
        is_unread: bool,
        refusal: Refusal,
    ) -> Responding<R, A, D, N, B, K>
        ensures at { (result.port ≡ port) × (result.is_unread ≡ is_unread) }
        ensures refused { (result.refusal ≡ Some refusal) × (result.exchange ≡ None) }
    {
        Responding {
            alloc,
            port,
            is_unread,
            exchange: None,
            refusal: Some(refusal),
        }
    }

    /// Returns the response of an exchange.
    pub(crate) fn exchanging(
        alloc: Global,
        port: Port,
        is_unread: bool,
        exchange: Box<Exchange<R, A, D, N, B, K>>,
    ) -> Responding<R, A, D, N, B, K>
        ensures at { (result.port ≡ port) × (result.is_unread ≡ is_unread) }
        ensures exchanging { (result.refusal ≡ None) × (result.exchange ≡ Some exchange) }
    {
        Responding {
            alloc,
            port,
            is_unread,
            exchange: Some(exchange),
            refusal: None,
        }
    }
}

impl<
    R: Wait + time::Clock + Copy + Drop,
    A: Service<K>,
    D: Decide + Drop,
    N: Clock + Drop,
    B: Body,
    K: Keep,
> Future for Responding<R, A, D, N, B, K>
where
    B::Data: Into<Bytes>,
    B::Error: BodyFault,
{
    ghost use Rattle.std.specs.Prelude.{IfOk, IfSome, IsSomeAnd, MatchOption};
    ghost use Rattle.http_front.specs.Responses.{IsAnswerTo, IsRefusal};

    type Output = Result<
        Response<Either<SentBody, StreamedBody<R, A, A::Trail, K, A::Ledgers>>>,
        ResponseFault,
    >;

    ghost can_poll = { λ r. IfSome r.exchange (λ e. ⟦<Exchange<R, A, D, N, B, K> as Future>⟧.can_poll e.value) };

    ghost needs = { λ r source. IsSomeAnd r.exchange (λ e.
        ⟦<Exchange<R, A, D, N, B, K> as Future>⟧.needs e.value source) };

    ghost gives = { λ r answer. IfOk answer (λ response. MatchOption r.refusal
        (IsSomeAnd r.exchange (λ exchange. (made : _)
        × ⟦<Exchange<R, A, D, N, B, K> as Future>⟧.gives exchange.value made
        × IsAnswerTo r.port r.is_unread made response))
        (λ refusal. IsRefusal r.port r.is_unread refusal response)) };

    fn poll(&mut self, cx: &mut Context<'_>) -> Poll<Self::Output> {
        if let Some(refusal) = self.refusal {
            return Poll::Ready(refused(self.alloc, self.port, self.is_unread, refusal));
        }
        let Some(exchange) = &mut self.exchange else {
            return Poll::Ready(Err(ResponseFault::OutOfMemory));
        };
        match exchange.poll(cx) {
            Poll::Pending => Poll::Pending,
            Poll::Ready(made) => Poll::Ready(answer_to(
                self.alloc,
                exchange.maps(),
                self.port,
                self.is_unread,
                made,
            )),
        }
    }
}

/// Makes the response to a refused request.
#[inline(never)]
fn refused<H: Drop>(
    alloc: Global,
    port: Port,
    is_unread: bool,
    refusal: Refusal,
) -> Result<Response<Either<SentBody, H>>, ResponseFault>
    ensures { IfOk result (IsRefusal port is_unread refusal) }
{
    let is_last = is_unread || refusal.closes();
    reply_response(alloc, None, is_last, refusal_reply(alloc, port, refusal)?)
}

/// Makes the response to an exchange's result. If its body or an allocation failed, the allocations
/// for this response may still succeed; a bell is never lost.
#[inline(never)]
fn answer_to<H: Drop, L: Ledgers>(
    alloc: Global,
    maps: &HeaderMaps,
    port: Port,
    is_unread: bool,
    made: Result<Outcome<H, L>, ExchangeFault>,
) -> Result<Response<Either<SentBody, H>>, ResponseFault>
    ensures { IfOk result (IsAnswerTo port is_unread made) }
{
    match made {
        Ok(outcome) => response_to(alloc, maps, is_unread, outcome),
        Err(ExchangeFault::BodyFailed) => refused(alloc, port, is_unread, Refusal::BrokenBody),
        Err(ExchangeFault::OutOfMemory) => refused(alloc, port, is_unread, Refusal::OutOfMemory),
        Err(ExchangeFault::BellLost) => Err(ResponseFault::Exchange(ExchangeFault::BellLost)),
    }
}
