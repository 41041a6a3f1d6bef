//! An account is a service.

ghost use Rattle.long_poll.specs.Reads.{Looks, Renders, Tells, Opens, Counts, Reserves};
ghost use Rattle.long_poll.specs.Reads.{Begins, Closes, Lists, Passes, Traces};
ghost use Rattle.long_poll.specs.Submits.{Submits};

use crate::{OneShotBell, Service};
use account_lock::{Account, Identity, Look, NotTaken, Refused, Ringer, Trail};
use arn_ids::FnNo;
use call_model::{Call, Stats, Ticket};
use lambda_wire::Reply;
use script::Draft;
use std::alloc::{AllocError, Global};
use std::sync::Wait;
use usage_ledger::{Anchor, Keep, Tally, Token};

// A submit returns a token that has seen the history that the call made. What is read with this token is
// of a history that extends that one.
impl<S: Identity + Drop, K: Keep> Service<K> for Account<S, OneShotBell> {
    type Ledgers = S;

    type Trail = Trail<S>;

    ghost serves = { λ _. S.config };

    ghost submits = { λ _. Submits S.config S.most K.notes K.makes };

    ghost looks = { λ _. Looks S.config S.most };

    ghost renders = { λ _. Renders S.config S.most S.salt };

    ghost opens = { λ _. Opens S.config S.most S.salt };

    ghost tells = { λ _. Tells S.config S.most S.salt };

    ghost begins = { λ _. Begins S.config S.most };

    ghost traces = { λ _. Traces S.config S.most S.salt };

    ghost passes = { λ _. Passes S.config S.most };

    ghost closes = { λ _. Closes S.config S.most };

    ghost lists = { λ _. Lists S.config S.most S.salt };

    ghost counts = { λ _. Counts S.config S.most };

    ghost reserves = { λ _. Reserves S.config S.most };

    fn submit<R: Wait>(
        &self,
        rt: &R,
        tally: &mut Tally<K, S>,
        token: &mut Token<S>,
        now: u64,
        call: Call,
        bell: Option<OneShotBell>,
        ringer: &impl Ringer<OneShotBell>,
    ) -> Result<(Ticket, Token<S>), Refused<OneShotBell>> {
        Account::submit(self, rt, tally, token, now, call, bell, ringer)
    }

    fn submit_unless_premature<R: Wait>(
        &self,
        rt: &R,
        tally: &mut Tally<K, S>,
        token: &mut Token<S>,
        now: u64,
        call: Call,
        bell: Option<OneShotBell>,
        ringer: &impl Ringer<OneShotBell>,
    ) -> Result<(Ticket, Token<S>), NotTaken<OneShotBell>> {
        Account::submit_unless_premature(self, rt, tally, token, now, call, bell, ringer)
    }

    fn anchor(&self, token: &mut Token<S>) -> Anchor<S> {
        Account::anchor(self, token)
    }

    fn from_anchor<R: Wait>(&self, rt: &R, anchor: &Anchor<S>) -> Token<S> {
        Account::from_anchor(self, rt, anchor)
    }

    fn again(&self, token: &mut Token<S>) -> Token<S> {
        Account::again(self, token)
    }

    fn look<R: Wait>(&self, rt: &R, token: &mut Token<S>, ticket: Ticket) -> Look {
        Account::look(self, rt, token, ticket)
    }

    fn render<R: Wait>(
        &self,
        rt: &R,
        token: &mut Token<S>,
        ticket: Ticket,
    ) -> Result<Option<Reply>, AllocError> {
        Account::render(self, rt, token, ticket)
    }

    fn opening<R: Wait>(&self, rt: &R) -> Result<Vec<u8>, AllocError> {
        Account::opening(self, rt)
    }

    fn history<R: Wait>(
        &self,
        rt: &R,
        token: &mut Token<S>,
        ticket: Ticket,
    ) -> Result<Option<Draft>, AllocError> {
        Account::history(self, rt, token, ticket)
    }

    fn trail<R: Wait>(
        &self,
        rt: &R,
        alloc: Global,
        token: &mut Token<S>,
    ) -> Result<Trail<S>, AllocError> {
        Account::trail(self, rt, alloc, token)
    }

    fn trace<R: Wait>(
        &self,
        rt: &R,
        trail: &mut Trail<S>,
        bodies: bool,
    ) -> Result<Option<Draft>, AllocError> {
        Account::trace(self, rt, trail, bodies)
    }

    fn pass<R: Wait>(&self, rt: &R, trail: &mut Trail<S>) -> bool {
        Account::pass(self, rt, trail)
    }

    fn is_off<R: Wait>(&self, rt: &R, trail: &mut Trail<S>) -> bool {
        Account::is_off(self, rt, trail)
    }

    fn environments<R: Wait>(&self, rt: &R, token: &mut Token<S>) -> Result<Vec<u8>, AllocError> {
        Account::environments(self, rt, token)
    }

    fn stats<R: Wait>(&self, rt: &R, token: &mut Token<S>) -> Stats {
        Account::stats(self, rt, token)
    }

    fn reservation<R: Wait>(&self, rt: &R, token: &mut Token<S>, function: FnNo) -> Option<u32> {
        Account::reservation(self, rt, token, function)
    }
}
