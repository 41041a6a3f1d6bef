//! What a connection does with what is asked of the clock.

ghost use Rattle.std.specs.Prelude.{◌≡◌, ◌<◌, ◌^◌, true, false, IfOk, MatchResult};
ghost use Rattle.std.specs.Arc.{arc_value};
ghost use Rattle.decisions.specs.declared.decide.ClockRequest.TheVariants.{Advance};

use super::connection::Connection;
use super::refusal::refusal_reply;
use super::views::{clock_reply, past_reply};
use crate::{Clock, ClockFace, OneShotBell, Service};
use account_lock::Refused;
use call_model::Call;
use decisions::{ClockRequest, Decide};
use lambda_wire::Reply;
use std::alloc::AllocError;
use std::sync::Wait;
use std::time;
use usage_ledger::{Keep, Ledgers, Token};

impl<
    R: Wait + time::Clock + Copy + Drop,
    S: Service<K>,
    D: Decide + Drop,
    N: Clock + Drop,
    K: Keep,
> Connection<R, S, D, N, K> {
    ghost use Rattle.long_poll.specs.Exchanges.{IsOfClock, IsTickedAt, IsTickRefused, clock_of};
    ghost use Rattle.long_poll.specs.Views.{clock_reply as shows};

    /// Submits a Tick at this moment. If it is refused, the token that is returned has seen what was then seen.
    fn tick(&self, now: u64) -> Result<Token<S::Ledgers>, (Refused<OneShotBell>, Token<S::Ledgers>)>
        requires { now < 2 ^ 53 }
        ensures { MatchResult result (λ token. IsTickedAt self.now token now)
            (λ back. IsTickRefused self.now now back.0 back.1) }
    {
        let mut token = self.token();
        let mut tally = self.tally.lock(&self.rt);
        let came = self.service().submit(
            &self.rt,
            &mut tally,
            &mut token,
            now,
            Call::Tick,
            None,
            self,
        );
        match came {
            Ok((_ticket, taken)) => Ok(taken),
            Err(refused) => Err((refused, token)),
        }
    }

    /// Moves the clock forward, and lets everything that is then due expire by a Tick. Nothing is moved if the clock
    /// would come past 2^53 - 1. If the Tick is refused, the clock has moved, and what is due expires at the next Tick
    /// that is taken.
    fn advance_clock(&self, by: u64) -> Result<(Reply, Token<S::Ledgers>), AllocError>
        ensures { IfOk result (λ replied. IsOfClock self.now N.Clock (Advance by) replied.0 replied.1) }
    {
        let _setting = self.shared.beat.setting.lock(&self.rt);
        let Some(face) = self.clock().advance(by) else {
            return Ok((past_reply(self.alloc())?, self.token()));
        };
        match self.tick(face.now) {
            Ok(taken) => Ok((clock_reply(self.alloc(), face)?, taken)),
            Err((refused, seen)) => {
                let reply = refusal_reply(self.alloc(), false, refused.refusal)?;
                Ok((reply, seen))
            }
        }
    }

    /// Pauses the clock.
    fn pause_clock(&self) -> ClockFace
        ensures read { N.reads (clock_of self.now) result.now }
        ensures few { result.now < 2 ^ 53 }
        ensures paused { result.is_running ≡ false }
    {
        let _setting = self.shared.beat.setting.lock(&self.rt);
        self.clock().pause()
    }

    /// Lets the clock go on.
    pub(crate) fn resume_clock(&self) -> ClockFace
        ensures read { N.reads (clock_of self.now) result.now }
        ensures few { result.now < 2 ^ 53 }
        ensures running { result.is_running ≡ true }
    {
        let _setting = self.shared.beat.setting.lock(&self.rt);
        self.clock().resume()
    }

    /// Returns the reply that shows the clock.
    fn show_clock(&self, face: ClockFace) -> Result<(Reply, Token<S::Ledgers>), AllocError>
        ensures { IfOk result (λ replied. replied.0 ≡ shows face.now face.is_running) }
    {
        Ok((clock_reply(self.alloc(), face)?, self.token()))
    }

    /// Does what is asked of the clock, and returns the reply, with a token of the history that the Tick of an advance
    /// made.
    fn set_clock(&self, request: ClockRequest) -> Result<(Reply, Token<S::Ledgers>), AllocError>
        ensures { IfOk result (λ replied. IsOfClock self.now N.Clock request replied.0 replied.1) }
    {
        match request {
            ClockRequest::Show => self.show_clock(self.clock().face()),
            ClockRequest::Advance { milliseconds } => self.advance_clock(milliseconds),
            ClockRequest::Pause => self.show_clock(self.pause_clock()),
            ClockRequest::Resume => self.show_clock(self.resume_clock()),
        }
    }

    /// Wakes the ticker and those who follow the history, if the clock was set.
    fn note_set(&self, request: ClockRequest) {
        if let ClockRequest::Show = request {
            return;
        }
        self.shared.beat.note_clock();
        self.shared.beat.note_step(&self.rt);
    }

    /// Does what is asked of the clock, and returns the reply, with a token of the history that the Tick of an advance
    /// made. Then it wakes those whom that concerns.
    pub(crate) fn ask_clock(
        &self,
        request: ClockRequest,
    ) -> Result<(Reply, Token<S::Ledgers>), AllocError>
        ensures { IfOk result (λ replied. IsOfClock self.now N.Clock request replied.0 replied.1) }
    {
        let replied = self.set_clock(request);
        self.note_set(request);
        replied
    }
}
