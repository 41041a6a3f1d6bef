//! A share of each of the four ledgers.

ghost use Rattle.std.specs.Prelude.{◌≡◌, ◌+◌, ◌-◌, ◌≤◌, ◌^◌};
ghost use Rattle.usage_ledger.specs.Counts.{no_counts, plus};

use crate::Ledgers;
use crate::ledgers::{Admitted, Calls, Failed, Throttled};
use std::marker::Model;
use std::sync::ledger::Share;

/// A share of each of the four ledgers, with as many parts of each. The amounts take no bytes: they
/// are known to contracts alone. Contracts see the parts and the amounts.
#[derive(Drop)]
pub(crate) struct Shares<L: Ledgers> {
    parts: u64,
    pub(crate) calls: Share<Calls<L>>,
    pub(crate) admitted: Share<Admitted<L>>,
    pub(crate) throttled: Share<Throttled<L>>,
    pub(crate) failed: Share<Failed<L>>,
}

impl<L: Ledgers> Model for Shares<L> {
    ghost use Rattle.std.specs.Prelude.{◌≡◌, ◌^◌, ◌<◌};
    ghost use Rattle.usage_ledger.specs.Counts.{counts};
    ghost use Rattle.usage_ledger.specs.Tallies.{Shared};

    ghost Value = { Shared };

    ghost view = { λ s. record {
      parts = s.parts;
      counts = counts s.calls.amount s.admitted.amount s.throttled.amount s.failed.amount;
    } };

    ghost invariant = { λ s. (s.calls.parts ≡ s.parts) × (s.admitted.parts ≡ s.parts)
        × (s.throttled.parts ≡ s.parts) × (s.failed.parts ≡ s.parts) × (0 < s.parts) };
}

impl<L: Ledgers> Shares<L> {
    /// Returns the shares that have all parts, before anything was counted.
    pub(crate) fn all(
        calls: Share<Calls<L>>,
        admitted: Share<Admitted<L>>,
        throttled: Share<Throttled<L>>,
        failed: Share<Failed<L>>,
    ) -> Shares<L>
        requires calls { (calls.parts ≡ 2 ^ 32) × (calls.amount ≡ 0) }
        requires admitted { (admitted.parts ≡ 2 ^ 32) × (admitted.amount ≡ 0) }
        requires throttled { (throttled.parts ≡ 2 ^ 32) × (throttled.amount ≡ 0) }
        requires failed { (failed.parts ≡ 2 ^ 32) × (failed.amount ≡ 0) }
        ensures { result ≡ record { parts = 2 ^ 32; counts = no_counts } }
    {
        Shares {
            parts: 1 << 32,
            calls,
            admitted,
            throttled,
            failed,
        }
    }

    /// Returns the number of its parts of each ledger.
    pub(crate) fn parts(&self) -> u64
        ensures { result ≡ self.now.parts }
    {
        self.parts
    }

    /// Splits off one part of each ledger, and none of the counts.
    pub(crate) fn split(&mut self) -> Shares<L>
        requires { 2 ≤ self.old.parts }
        ensures new { result ≡ record { parts = 1; counts = no_counts } }
        ensures left { self.new ≡ record self.old { parts = self.old.parts - 1 } }
    {
        self.parts -= 1;
        Shares {
            parts: 1,
            calls: self.calls.split_off(1, 0),
            admitted: self.admitted.split_off(1, 0),
            throttled: self.throttled.split_off(1, 0),
            failed: self.failed.split_off(1, 0),
        }
    }

    /// Takes over other shares.
    pub(crate) fn merge(&mut self, other: Shares<L>)
        ensures { self.new
            ≡ record { parts = self.old.parts + other.parts; counts = plus self.old.counts other.counts } }
    {
        let Shares {
            parts,
            calls,
            admitted,
            throttled,
            failed,
        } = other;
        self.calls.merge(calls);
        self.admitted.merge(admitted);
        self.throttled.merge(throttled);
        self.failed.merge(failed);
        self.parts += parts;
    }
}
