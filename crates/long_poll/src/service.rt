//! What a connection asks of an account.

mod bell;
mod clock;
mod of_account;

ghost use Rattle.std.specs.Prelude.{◌≡◌, ◌<◌, ◌^◌, ℕ, Bool, List, Option, IfOk};
ghost use Rattle.arn_ids.specs.declared.config.Config.{Config};
ghost use Rattle.call_types.specs.declared.call.Call.{Call as Called};
ghost use Rattle.call_types.specs.declared.call.Entry.{Entry};
ghost use Rattle.call_types.specs.declared.stats.Stats.{Stats as Counted};
ghost use Rattle.lambda_wire.specs.declared.reply.Reply.{Reply as Replied};
ghost use Rattle.call_types.specs.Within.{IsWithin, IsFunction};
ghost use Rattle.usage_ledger.specs.Tallies.{Held};
ghost use Rattle.account_lock.specs.declared.desk.Look.{Look as Seen};
ghost use Rattle.long_poll.specs.UnlessPremature.{CameBack, UnlessPremature};
ghost use Rattle.long_poll.specs.declared.service.bell.OneShotBell.{OneShotBell as Rings};

use account_lock::{Look, NotTaken, Refused, Ringer};
use arn_ids::FnNo;
pub use bell::{Heard, OneShotBell};
use call_model::{Call, Stats, Ticket};
pub use clock::{Clock, ClockFace, MOST_LAG_MS, moment};
use lambda_wire::Reply;
use script::Draft;
use std::alloc::{AllocError, Global};
use std::sync::Wait;
use usage_ledger::{Anchor, Keep, Ledgers, Tally, Token};

/// An account that connections share. For each method there is a relation of its arguments and its
/// result, which the implementation names. The type parameter is what a tally keeps. A token has seen a
/// beginning of the account's history. Each submit and each reading takes a token and shows it the
/// history as it is then, which extends the one that the token had seen; a submit returns another token,
/// which has seen the history up to the call.
pub trait Service<K: Keep>: Drop {
    /// The names of its ledgers, and of its history.
    type Ledgers: Ledgers;

    /// A reader of the history's trace, which knows how far it has come.
    type Trail: Drop;

    /// The configuration that the account has.
    ghost serves: { Self → Config };

    /// Relates what was seen of the history, what the tally held, the moment, the call, its bell, the
    /// result, and what is seen and what the tally holds afterwards. A ticket comes with the history
    /// that its token has seen.
    ghost submits: { Self → List Entry → Held → ℕ → Called → Option Rings → CameBack → List Entry → Held → Type 0 };

    /// Relates what was seen of the history, the ticket, what is known of it, and what is seen
    /// afterwards.
    ghost looks: { Self → List Entry → ℕ → Seen → List Entry → Type 0 };

    /// Relates what was seen of the history, the ticket, its reply, and what is seen afterwards.
    ghost renders: { Self → List Entry → ℕ → Option Replied → List Entry → Type 0 };

    /// The text of the history before its first entry.
    ghost opens: { Self → List ℕ → Type 0 };

    /// Relates what was seen of the history, the ticket, the text of its entry, and what is seen
    /// afterwards.
    ghost tells: { Self → List Entry → ℕ → Option (List ℕ) → List Entry → Type 0 };

    /// Relates what was seen of the history, and a trail that has passed no entry.
    ghost begins: { Self → List Entry → Self.Trail → Type 0 };

    /// Relates a trail, whether bodies are shown, the line of the entry that comes next, `None` past the end, and the
    /// trail afterwards, which has passed the entry.
    ghost traces: { Self → Self.Trail → Bool → Option (List ℕ) → Self.Trail → Type 0 };

    /// Relates a trail, whether there was an entry that came next, and the trail afterwards, which has passed the
    /// entry.
    ghost passes: { Self → Self.Trail → Bool → Self.Trail → Type 0 };

    /// Relates a trail, whether the service is off in the history as it is, and the trail afterwards, which has
    /// passed no entry.
    ghost closes: { Self → Self.Trail → Bool → Self.Trail → Type 0 };

    /// Relates what was seen of the history, the text of the environments, and what is seen afterwards.
    ghost lists: { Self → List Entry → List ℕ → List Entry → Type 0 };

    /// Relates what was seen of the history, the counts, and what is seen afterwards.
    ghost counts: { Self → List Entry → Counted → List Entry → Type 0 };

    /// Relates what was seen of the history, the function, its reservation, and what is seen afterwards.
    ghost reserves: { Self → List Entry → ℕ → Option ℕ → List Entry → Type 0 };

    /// Submits a call at a moment in milliseconds, below 2^53, with the bell of the caller that waits
    /// for its answer. The tally counts what the step counts. The ringer gets the bells of the step.
    ///
    /// # Errors
    /// `Refused` if the call is not taken; its bell is returned.
    fn submit<R: Wait>(
        &self,
        rt: &R,
        tally: &mut Tally<K, Self::Ledgers>,
        token: &mut Token<Self::Ledgers>,
        now: u64,
        call: Call,
        bell: Option<OneShotBell>,
        ringer: &impl Ringer<OneShotBell>,
    ) -> Result<(Ticket, Token<Self::Ledgers>), Refused<OneShotBell>>
        requires moment { now < 2 ^ 53 }
        requires within { IsWithin (serves self.now) call }
        ensures { submits self.now token.old tally.old.held now call bell result token.new tally.new.held };

    /// Submits a call unless it is premature: an Invoke that would be throttled, or would start an environment, while
    /// an environment in its way has answered its invocation and is not ready again.
    ///
    /// # Errors
    /// `Premature` if it is: the call is returned with its bell. Otherwise as `submit`.
    fn submit_unless_premature<R: Wait>(
        &self,
        rt: &R,
        tally: &mut Tally<K, Self::Ledgers>,
        token: &mut Token<Self::Ledgers>,
        now: u64,
        call: Call,
        bell: Option<OneShotBell>,
        ringer: &impl Ringer<OneShotBell>,
    ) -> Result<(Ticket, Token<Self::Ledgers>), NotTaken<OneShotBell>>
        requires moment { now < 2 ^ 53 }
        requires within { IsWithin (serves self.now) call }
        ensures { UnlessPremature (submits self.now) token.old tally.old.held now call bell result token.new
            tally.new.held };

    /// Returns an anchor at what a token has seen.
    fn anchor(&self, token: &mut Token<Self::Ledgers>) -> Anchor<Self::Ledgers>
        ensures { (result ≡ token.old) × (token.new ≡ token.old) };

    /// Returns a token that has seen what an anchor is at.
    fn from_anchor<R: Wait>(&self, rt: &R, anchor: &Anchor<Self::Ledgers>) -> Token<Self::Ledgers>
        ensures { result ≡ anchor.now };

    /// Returns another token, which has seen as much.
    fn again(&self, token: &mut Token<Self::Ledgers>) -> Token<Self::Ledgers>
        ensures { (result ≡ token.old) × (token.new ≡ token.old) };

    /// Returns the answer to a ticket, or that it waits.
    fn look<R: Wait>(&self, rt: &R, token: &mut Token<Self::Ledgers>, ticket: Ticket) -> Look
        ensures { looks self.now token.old ticket result token.new };

    /// Returns the reply to the client of the call with a ticket, `None` while the ticket has no answer.
    ///
    /// The only error is `AllocError`.
    fn render<R: Wait>(
        &self,
        rt: &R,
        token: &mut Token<Self::Ledgers>,
        ticket: Ticket,
    ) -> Result<Option<Reply>, AllocError>
        ensures { IfOk result (λ reply. renders self.now token.old ticket reply token.new) };

    /// Returns the text of the history before its first entry. The only error is `AllocError`.
    fn opening<R: Wait>(&self, rt: &R) -> Result<Vec<u8>, AllocError>
        ensures { IfOk result (λ text. opens self.now text.items) };

    /// Returns the history text of the entry with a ticket, `None` past the end. The only error is
    /// `AllocError`.
    fn history<R: Wait>(
        &self,
        rt: &R,
        token: &mut Token<Self::Ledgers>,
        ticket: Ticket,
    ) -> Result<Option<Draft>, AllocError>
        ensures { IfOk result (λ text. tells self.now token.old ticket text token.new) };

    /// Makes a trail that has passed no entry. The only error is `AllocError`.
    fn trail<R: Wait>(
        &self,
        rt: &R,
        alloc: Global,
        token: &mut Token<Self::Ledgers>,
    ) -> Result<Self::Trail, AllocError>
        ensures { IfOk result (begins self.now token.old) };

    /// Returns the line of the trace for the entry that comes next on a trail, which passes the entry; `None` past
    /// the end. The only error is `AllocError`.
    fn trace<R: Wait>(
        &self,
        rt: &R,
        trail: &mut Self::Trail,
        bodies: bool,
    ) -> Result<Option<Draft>, AllocError>
        ensures { IfOk result (λ line. traces self.now trail.old bodies line trail.new) };

    /// Lets a trail pass the entry that comes next. Returns whether there was one.
    fn pass<R: Wait>(&self, rt: &R, trail: &mut Self::Trail) -> bool
        ensures { passes self.now trail.old result trail.new };

    /// Returns whether the service is off: there was a Stop, and every environment is shut down.
    fn is_off<R: Wait>(&self, rt: &R, trail: &mut Self::Trail) -> bool
        ensures { closes self.now trail.old result trail.new };

    /// Returns the text of the environments. The only error is `AllocError`.
    fn environments<R: Wait>(
        &self,
        rt: &R,
        token: &mut Token<Self::Ledgers>,
    ) -> Result<Vec<u8>, AllocError>
        ensures { IfOk result (λ text. lists self.now token.old text.items token.new) };

    /// Returns the counts.
    fn stats<R: Wait>(&self, rt: &R, token: &mut Token<Self::Ledgers>) -> Stats
        ensures { counts self.now token.old result token.new };

    /// Returns the reservation in force of a function, by its number from 1, `None` if it has none.
    fn reservation<R: Wait>(
        &self,
        rt: &R,
        token: &mut Token<Self::Ledgers>,
        function: FnNo,
    ) -> Option<u32>
        requires { IsFunction (serves self.now) function }
        ensures { reserves self.now token.old function result token.new };
}
