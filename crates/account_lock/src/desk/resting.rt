//! A Tick that lets time pass only while no deadline is running.

ghost use Rattle.std.specs.Prelude.{◌≡◌, ◌<◌, ◌^◌, true, false, None, IfOk, IfErr, IfSome, IfNone, OnErr};
ghost use Rattle.call_types.specs.declared.call.Call.TheVariants.{Tick};
ghost use Rattle.account_lock.specs.Desks.{rests};
ghost use Rattle.account_lock.specs.Steps.{IsRefusal, IsStep};

use crate::{Bell, Desk, Refused, Step};
use arn_ids::GREATEST_MOMENT;
use call_model::Call;
use usage_ledger::{Keep, Ledgers, Tally};

impl<B: Bell, L: Ledgers> Desk<B, L> {
    /// Takes a Tick at a moment in milliseconds, below 2^53, if no deadline is running, so that nothing
    /// expires, however far ahead the moment is. This catches up on time that passed unseen, for example
    /// while the machine slept. Returns `None` exactly if a deadline is running; desk and tally are then
    /// unchanged.
    ///
    /// # Errors
    /// As [`Desk::apply`]. Desk and tally are unchanged.
    pub fn tick_at_rest<K: Keep>(
        &mut self,
        tally: &mut Tally<K, L>,
        now: u64,
    ) -> Result<Option<Step<B>>, Refused<B>>
        requires moment { now < 2 ^ 53 }
        ensures taken { IfOk result (λ made. IfSome made (λ step. IsStep K.notes K.makes
            self.old tally.old.held now Tick None step self.new tally.new.held
            × (rests self.old.book ≡ true))) }
        ensures none { IfOk result (λ made. IfNone made (
            (self.new ≡ self.old) × (tally.new.held ≡ tally.old.held) × (rests self.old.book ≡ false))) }
        ensures refused { IfErr result (λ back. IsRefusal self.old Tick None back
            × (rests self.old.book ≡ true)) }
        ensures same { OnErr result ((self.new ≡ self.old) × (tally.new.held ≡ tally.old.held)) }
    {
        if self.book.due(GREATEST_MOMENT) {
            return Ok(None);
        }
        match self.apply(tally, now, Call::Tick, None) {
            Ok(step) => Ok(Some(step)),
            Err(refused) => Err(refused),
        }
    }
}
