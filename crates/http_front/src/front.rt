//! The service that answers the requests of a port.

ghost use Rattle.std.specs.Prelude.{◌≡◌, IfSome};
ghost use Rattle.std.specs.Arc.{arc_value};
ghost use Rattle.http_front.specs.Courses.{IsAnswering, IsExchangeOf, Takes};
ghost use Rattle.http_front.specs.Handing.{IsWayOf};
ghost use Rattle.http_front.specs.declared.at_desk.Way.TheVariants as Way;
ghost use Rattle.http_front.specs.Causes.{cause_of};
ghost use Rattle.http_front.specs.HandedStages.{CanGoOn, CanServe};
ghost use Rattle.long_poll.specs.Lengths as lengths;

use crate::at_desk::Way;
use crate::{AtDesk, Course, Handed, OfHandler, Port, Responding, ResponseFault, SentBody};
use bytes::Bytes;
use decisions::Decide;
use futures::Future;
use http::request::Parts;
use http::{Request, Response};
use http_body::Body;
use http_body_util::Either;
use hyper::body::Incoming;
use hyper::service;
use long_poll::{
    BodyFault, Cause, Clock, Connection, Exchange, Service, StreamedBody, declares_too_long,
};
use request_guard::{KnownHosts, Refusal};
use std::alloc::Global;
use std::sync::{Arc, Wait};
use std::time;
use usage_ledger::{Keep, Ledgers};

/// Returns why a request is rejected, for the log; `None` if it is not at fault.
fn cause_of(refusal: Refusal) -> Option<Cause>
    ensures { result ≡ cause_of refusal }
{
    match refusal {
        Refusal::MalformedHost => Some(Cause::MalformedHost),
        Refusal::FromPage => Some(Cause::FromPage),
        Refusal::ForeignHost => Some(Cause::ForeignHost),
        Refusal::ForeignCoding => Some(Cause::ForeignCoding),
        Refusal::BrokenBody => Some(Cause::BrokenBody),
        Refusal::OutOfMemory => None,
    }
}

/// A port, for one connection: each request is an exchange. The decider of its exchanges knows
/// whose port it is: an environment's (Runtime API 2018-06-01, Extensions API 2020-01-01), or the
/// account's (Lambda API: Invoke, PutFunctionConcurrency, GetFunctionConcurrency; and this
/// service's own routes), or one of handlers. At the account's port, some requests are handed over to
/// handlers, if there is one, and at those of handlers all.
#[derive(Drop)]
pub struct Front<R, A: Service<K>, D: Decide, N, K: Keep> {
    rt: R,
    alloc: Global,
    port: Port,
    hosts: Arc<KnownHosts>,
    pub(crate) connection: Arc<Connection<R, A, D, N, K>>,
    at_desk: Arc<AtDesk>,
}

impl<
    R: Wait + time::Clock + Copy + Drop,
    A: Service<K>,
    D: Decide + Drop,
    N: Clock + Drop,
    K: Keep,
> Front<R, A, D, N, K> {
    /// Makes the port for a connection, which speaks this API, answers for these hosts in
    /// addition to the local ones, and hands requests over at this desk. It allocates nothing.
    pub fn new(
        rt: R,
        alloc: Global,
        port: Port,
        hosts: Arc<KnownHosts>,
        connection: Arc<Connection<R, A, D, N, K>>,
        at_desk: Arc<AtDesk>,
    ) -> Front<R, A, D, N, K>
        ensures connection { result.connection ≡ connection }
        ensures at_desk { result.at_desk ≡ at_desk }
        ensures guarded { (result.port ≡ port) × (result.hosts ≡ hosts) }
    {
        Front {
            rt,
            alloc,
            port,
            hosts,
            connection,
            at_desk,
        }
    }

    /// Makes the exchange of a request with this head and body, of which the head declares that it
    /// is too long, or not. The exchange is on the heap: it is large, and `hyper` moves the response
    /// that holds it several times. Returns `None` if an allocation fails.
    fn exchange<B: Body>(
        &self,
        parts: Parts,
        body: B,
        is_too_long: bool,
    ) -> Option<Box<Exchange<R, A, D, N, B, K>>>
    where
        B::Data: Into<Bytes>,
        B::Error: BodyFault,
        requires { is_too_long ≡ lengths.declares_too_long parts }
        ensures { IfSome result (λ exchange. IsExchangeOf self.now parts body exchange.value) }
    {
        let Ok(connection) = Arc::try_clone(&self.connection) else {
            return None;
        };
        let exchange = Exchange::new(connection, parts, body, is_too_long);
        match Box::new(self.alloc, exchange) {
            Ok(exchange) => Some(exchange),
            Err(_refused) => None,
        }
    }

    /// Counts a request that is refused by its head, for the log.
    fn note(&self, parts: &Parts, refusal: Refusal) {
        if let Some(cause) = cause_of(refusal) {
            self.connection.note_rejected(parts, cause, None);
        }
    }

    /// Returns the response to a request that the service itself answers, by an exchange.
    fn own<B: Body>(&self, parts: Parts, body: B, is_unread: bool) -> Responding<R, A, D, N, B, K>
    where
        B::Data: Into<Bytes>,
        B::Error: BodyFault,
        requires declared { is_unread ≡ lengths.declares_too_long parts }
        requires body { B.can_poll body }
        requires way { IsWayOf (arc_value (arc_value self.now.at_desk).side) parts Way.Own }
        ensures answers { IsAnswering self.now parts body result }
        ensures can_poll { ⟦<Responding<R, A, D, N, B, K> as Future>⟧.can_poll result }
    {
        self.connection.await_time_of_day();
        match self.exchange(parts, body, is_unread) {
            Some(exchange) => Responding::exchanging(self.alloc, self.port, is_unread, exchange),
            None => Responding::refused(self.alloc, self.port, is_unread, Refusal::OutOfMemory),
        }
    }

    /// Returns what this connection needs to hand a request over. Returns `None` if an allocation fails.
    fn desk(&self) -> Option<Arc<AtDesk>>
        ensures { IfSome result (λ desk. arc_value desk ≡ arc_value self.now.at_desk) }
    {
        Arc::try_clone(&self.at_desk).ok()
    }

    /// Returns the response to a request that is handed over. Returns `None` if an allocation fails.
    fn handed<B: Body, H>(
        &self,
        parts: Parts,
        body: B,
        is_unread: bool,
    ) -> Option<Box<Handed<R, B, H>>>
        requires { B.can_poll body }
        ensures at_desk { IfSome result (λ handed. arc_value handed.value.at_desk ≡ arc_value self.now.at_desk) }
        ensures unread { IfSome result (λ handed. handed.value.is_unread ≡ is_unread) }
        ensures can_poll { IfSome result (λ handed. CanGoOn B.can_poll handed.value.stage) }
    {
        let handed = Handed::new(self.rt, self.desk()?, parts, body, is_unread);
        Box::new(self.alloc, handed).ok()
    }

    /// Returns the response to a handler's own request. Returns `None` if an allocation fails.
    fn of_handler<B: Body, H>(
        &self,
        parts: Parts,
        body: B,
        is_unread: bool,
    ) -> Option<Box<OfHandler<R, B, H>>>
        requires { B.can_poll body }
        ensures at_desk { IfSome result (λ own. arc_value own.value.at_desk ≡ arc_value self.now.at_desk) }
        ensures unread { IfSome result (λ own. own.value.is_unread ≡ is_unread) }
        ensures can_poll { IfSome result (λ own. CanServe B.can_poll own.value.stage) }
    {
        let own = OfHandler::new(self.rt, self.desk()?, parts, body, is_unread);
        Box::new(self.alloc, own).ok()
    }

    /// Returns the response to a request with this head and body. If the head is refused, there is
    /// no exchange, so the request never becomes a call. If the head declares a body that is too
    /// long, the body is left unread.
    fn respond<B: Body>(&self, parts: Parts, body: B) -> Course<R, A, D, N, B, K>
    where
        B::Data: Into<Bytes>,
        B::Error: BodyFault,
        requires { B.can_poll body }
        ensures takes { Takes self.now parts body result }
        ensures can_poll { ⟦<Course<R, A, D, N, B, K> as Future>⟧.can_poll result }
    {
        let is_unread = declares_too_long(&parts);
        if let Some(refusal) = self.hosts.refusal(self.port, &parts) {
            self.note(&parts, refusal);
            return Course::Own(Responding::refused(self.alloc, self.port, is_unread, refusal));
        }
        match self.at_desk.way_of(&self.rt, &parts) {
            Ok(Way::Own) => return Course::Own(self.own(parts, body, is_unread)),
            Ok(Way::Handed) => {
                if let Some(handed) = self.handed(parts, body, is_unread) {
                    return Course::Handed(handed);
                }
            }
            Ok(Way::OfHandler) => {
                if let Some(own) = self.of_handler(parts, body, is_unread) {
                    return Course::OfHandler(own);
                }
            }
            Err(_refused) => {}
        }
        let refusal = Refusal::OutOfMemory;
        Course::Own(Responding::refused(self.alloc, self.port, is_unread, refusal))
    }
}

impl<
    R: Wait + time::Clock + Copy + Drop,
    A: Service<K>,
    D: Decide + Drop,
    N: Clock + Drop,
    I: Drop,
    K: Keep,
> service::Service<Request<Incoming<I>>> for Front<R, A, D, N, K> {
    type Response = Response<Either<SentBody, StreamedBody<R, A, A::Trail, K, A::Ledgers>>>;

    type Error = ResponseFault;

    type Future = Course<R, A, D, N, Incoming<I>, K>;

    ghost use Rattle.http.specs.Request.{head_of, body_of};
    ghost use Rattle.http_front.specs.Courses.{Takes};

    ghost calls = { λ port request future. Takes port (head_of request) (body_of request) future };

    fn call(&self, request: Request<Incoming<I>>) -> Course<R, A, D, N, Incoming<I>, K> {
        let (parts, body) = request.into_parts();
        self.respond(parts, body)
    }
}
