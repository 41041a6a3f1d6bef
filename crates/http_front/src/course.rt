//! The responses to requests, as futures, by who answers.

mod fault;
mod responding;
mod response;

use crate::{Handed, OfHandler, PassedBody};
use bytes::Bytes;
use decisions::Decide;
pub use fault::ResponseFault;
use futures::Future;
use futures::task::{Context, Poll};
use http::Response;
use http_body::Body;
use http_body_util::{Either, Full};
use long_poll::{BodyFault, Clock, Service, StreamedBody};
pub use responding::Responding;
pub(crate) use response::{reply_response, whole, with_map};
use std::sync::Wait;
use std::time;
use usage_ledger::{Keep, Ledgers};

/// What is sent as the body of a response that shows nothing of the account: bytes that are there at once, or a handler's
/// answer while it comes.
pub type SentBody = Either<Full<Bytes>, PassedBody>;

/// The response to one request, by who answers it. (Those of handlers are on the heap: each response has the size of the
/// largest.)
#[derive(Drop)]
pub enum Course<R, A: Service<K>, D: Decide, N, B, K: Keep> {
    /// The service itself, or its refusal.
    Own(Responding<R, A, D, N, B, K>),
    /// A handler, to which the request is handed over.
    Handed(Box<Handed<R, B, StreamedBody<R, A, A::Trail, K, A::Ledgers>>>),
    /// The desk: it is a handler's own request.
    OfHandler(Box<OfHandler<R, B, StreamedBody<R, A, A::Trail, K, A::Ledgers>>>),
}

impl<
    R: Wait + time::Clock + Copy + Drop,
    A: Service<K>,
    D: Decide + Drop,
    N: Clock + Drop,
    B: Body,
    K: Keep,
> Future for Course<R, A, D, N, B, K>
where
    B::Data: Into<Bytes>,
    B::Error: BodyFault,
{
    ghost use Rattle.http_front.specs.declared.course.Course.TheVariants.{Own, Handed, OfHandler};

    type Output = Result<
        Response<Either<SentBody, StreamedBody<R, A, A::Trail, K, A::Ledgers>>>,
        ResponseFault,
    >;

    ghost can_poll = { elim [
      | Own responding ↦ ⟦<Responding<R, A, D, N, B, K> as Future>⟧.can_poll responding
      | Handed handed ↦ ⟦<Handed<R, B, StreamedBody<R, A, A::Trail, K, A::Ledgers>> as Future>⟧.can_poll handed.value
      | OfHandler own ↦ ⟦<OfHandler<R, B, StreamedBody<R, A, A::Trail, K, A::Ledgers>> as Future>⟧.can_poll own.value
    ] };

    ghost needs = { elim [
      | Own responding ↦ ⟦<Responding<R, A, D, N, B, K> as Future>⟧.needs responding
      | Handed handed ↦ ⟦<Handed<R, B, StreamedBody<R, A, A::Trail, K, A::Ledgers>> as Future>⟧.needs handed.value
      | OfHandler own ↦ ⟦<OfHandler<R, B, StreamedBody<R, A, A::Trail, K, A::Ledgers>> as Future>⟧.needs own.value
    ] };

    ghost gives = { elim [
      | Own responding ↦ ⟦<Responding<R, A, D, N, B, K> as Future>⟧.gives responding
      | Handed handed ↦ ⟦<Handed<R, B, StreamedBody<R, A, A::Trail, K, A::Ledgers>> as Future>⟧.gives handed.value
      | OfHandler own ↦ ⟦<OfHandler<R, B, StreamedBody<R, A, A::Trail, K, A::Ledgers>> as Future>⟧.gives own.value
    ] };

    fn poll(&mut self, cx: &mut Context<'_>) -> Poll<Self::Output> {
        match self {
            Course::Own(responding) => responding.poll(cx),
            Course::Handed(handed) => handed.poll(cx),
            Course::OfHandler(own) => own.poll(cx),
        }
    }
}
