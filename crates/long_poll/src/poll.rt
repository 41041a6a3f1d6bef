//! A future for the answer of a ticket.

ghost use Rattle.std.specs.Prelude.{◌≡◌};
ghost use Rattle.long_poll.specs.Answers.{Answers, found};

use crate::Service;
use account_lock::Look;
use call_model::{Answer, Ticket};
use futures::future::Future;
use futures::task;
use futures::task::Context;
use std::marker::PhantomData;
use std::sync::{Arc, Wait};
use usage_ledger::{Keep, Ledgers, Tally, Token};

/// The bell rang or was lost, and the ticket still waits.
#[derive(Clone, Copy, Debug, PartialEq, Eq)]
pub struct BellLost;

/// Waits until something is heard, and then looks once for the answer to a ticket.
#[derive(Drop)]
pub struct Poll<R, S, H, K: Keep, L: Ledgers> {
    rt: R,
    service: Arc<S>,
    ticket: Ticket,
    heard: H,
    token: Token<L>,
    of: PhantomData<Tally<K, L>>,
}

impl<R: Wait + Drop, S: Service<K, Ledgers = L>, H: Future, K: Keep, L: Ledgers> Poll<
    R,
    S,
    H,
    K,
    L,
> {
    /// Waits for the answer to a ticket by a future that is ready once there is one, such as the `Heard` of
    /// the bell that was submitted with its call. The token is the one that came with the ticket. It takes
    /// no memory.
    pub fn new(
        rt: R,
        service: Arc<S>,
        ticket: Ticket,
        heard: H,
        token: Token<L>,
    ) -> Poll<R, S, H, K, L>
        ensures service { result.service ≡ service }
        ensures ticket { (result.ticket ≡ ticket) × (result.heard ≡ heard) × (result.token ≡ token) }
    {
        Poll {
            rt,
            service,
            ticket,
            heard,
            token,
            of: PhantomData,
        }
    }
}

impl<R: Wait + Drop, S: Service<K, Ledgers = L>, H: Future, K: Keep, L: Ledgers> Future
    for Poll<R, S, H, K, L>
where
    H::Output: Drop,
{
    type Output = Result<Answer, BellLost>;

    ghost can_poll = { λ poll. H.can_poll poll.heard };

    ghost needs = { λ poll. H.needs poll.heard };

    ghost gives = { λ poll. Answers (found S.Service poll) (H.gives poll.heard) };

    fn poll(&mut self, cx: &mut Context<'_>) -> task::Poll<Result<Answer, BellLost>> {
        match self.heard.poll(cx) {
            task::Poll::Pending => task::Poll::Pending,
            task::Poll::Ready(_) => match self
                .service
                .look(&self.rt, &mut self.token, self.ticket)
            {
                Look::Given(answer) => task::Poll::Ready(Ok(answer)),
                Look::Waiting => task::Poll::Ready(Err(BellLost)),
            },
        }
    }
}
