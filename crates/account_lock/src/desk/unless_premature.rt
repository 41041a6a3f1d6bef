//! A call that is taken unless it is premature.

ghost use Rattle.std.specs.Prelude.{◌≡◌, ◌<◌, ◌^◌, false, IfOk, IfErr, OnErr};
ghost use Rattle.call_types.specs.Within.{IsWithin};
ghost use Rattle.account_lock.specs.Desks.{is_premature};
ghost use Rattle.account_lock.specs.Steps.{IsHandedBack, IsStep};

use crate::{Bell, Desk, Refused, Step};
use call_model::Call;
use usage_ledger::{Keep, Ledgers, Tally};

/// Why a call was not taken that is taken unless it is premature. Nothing has changed.
#[derive(Drop)]
pub enum NotTaken<B> {
    /// The call is premature: an environment that may take it is about to be ready. It is returned with
    /// its bell.
    Premature {
        /// The call.
        call: Call,
        /// The caller's bell.
        bell: Option<B>,
    },
    /// The call was refused, like a submitted call.
    Refused(Refused<B>),
}

impl<B: Bell, L: Ledgers> Desk<B, L> {
    /// Takes a call as [`Desk::apply`] does, unless it is premature at this moment
    /// ([`account_book::Book::is_premature`]).
    ///
    /// # Errors
    /// `Premature` exactly if the call is premature, otherwise as `apply`. Desk and tally are unchanged,
    /// and the bell is returned, with the call if that is premature.
    pub fn apply_unless_premature<K: Keep>(
        &mut self,
        tally: &mut Tally<K, L>,
        now: u64,
        call: Call,
        bell: Option<B>,
    ) -> Result<Step<B>, NotTaken<B>>
        requires moment { now < 2 ^ 53 }
        requires within { IsWithin self.old.book.config call }
        ensures taken { IfOk result (λ step. IsStep K.notes K.makes
            self.old tally.old.held now call bell step self.new tally.new.held
            × (is_premature self.old.book now call ≡ false)) }
        ensures not_taken { IfErr result (λ back. IsHandedBack self.old now call bell back) }
        ensures same { OnErr result ((self.new ≡ self.old) × (tally.new.held ≡ tally.old.held)) }
    {
        if self.book.is_premature(now, &call) {
            return Err(NotTaken::Premature { call, bell });
        }
        match self.apply(tally, now, call, bell) {
            Ok(step) => Ok(step),
            Err(refused) => Err(NotTaken::Refused(refused)),
        }
    }
}
