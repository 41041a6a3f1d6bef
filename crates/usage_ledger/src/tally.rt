//! What one thread counted and noted.

ghost use Rattle.std.specs.Prelude.{◌≡◌, ◌+◌, ◌-◌, ◌<◌, ◌≤◌, ◌^◌, true, length, OnOk, OnErr, IfOk, IfErr};
ghost use Rattle.usage_ledger.specs.Counts.{plus};
ghost use Rattle.usage_ledger.specs.Joining.{HandsBack};
ghost use Rattle.usage_ledger.specs.Keeping.{Kept, Steps};
ghost use Rattle.usage_ledger.specs.Tallies.{fresh, with_held};

use crate::ledgers::{Admitted, Calls, Failed, Throttled};
use crate::shares::Shares;
use crate::{JoinFault, Keep, Ledgers};
use call_types::{Answer, Head, Ticket};
use std::alloc::{AllocError, Global};
use std::fmt;
use std::marker::Model;
use std::sync::ledger::Share;

/// A share of each of the four counts of one account, and what it keeps of its steps. The type
/// parameter `L` names the account's ledgers, so that tallies of two accounts cannot be mixed. Contracts
/// see what it holds, and for how much more it has room.
#[derive(Drop)]
pub struct Tally<K: Keep, L: Ledgers> {
    alloc: Global,
    joined: bool,
    keep: K,
    pub(crate) shares: Shares<L>,
}

impl<K: Keep, L: Ledgers> Model for Tally<K, L> {
    ghost use Rattle.usage_ledger.specs.Tallies.{Tallied, held};

    ghost Value = { Tallied };

    ghost view = { λ t. record {
      held = held t.shares t.joined (K.holds t.keep);
      spare_notes = K.spare_notes t.keep;
      spare_calls = K.spare_calls t.keep;
    } };
}

impl<K: Keep, L: Ledgers> fmt::Debug for Tally<K, L> {
    fn fmt<W: fmt::Write>(&self, f: &mut fmt::Formatter<W>) -> fmt::Result {
        write!(
            f,
            "Tally {{ parts: {}, joined: {} }}",
            self.parts(),
            self.joined()
        )
    }
}

impl<K: Keep, L: Ledgers> Tally<K, L> {
    /// Returns the tally that has all parts, before anything was counted or kept.
    pub(crate) fn all(
        alloc: Global,
        calls: Share<Calls<L>>,
        admitted: Share<Admitted<L>>,
        throttled: Share<Throttled<L>>,
        failed: Share<Failed<L>>,
    ) -> Tally<K, L>
        requires calls { (calls.parts ≡ 2 ^ 32) × (calls.amount ≡ 0) }
        requires admitted { (admitted.parts ≡ 2 ^ 32) × (admitted.amount ≡ 0) }
        requires throttled { (throttled.parts ≡ 2 ^ 32) × (throttled.amount ≡ 0) }
        requires failed { (failed.parts ≡ 2 ^ 32) × (failed.amount ≡ 0) }
        ensures { result.held ≡ fresh (2 ^ 32) }
    {
        Tally {
            alloc,
            joined: false,
            keep: K::empty(alloc),
            shares: Shares::all(calls, admitted, throttled, failed),
        }
    }

    /// Returns the number of its parts of each ledger, from 1 to 2^32.
    pub fn parts(&self) -> u64
        ensures { result ≡ self.now.held.parts }
    {
        self.shares.parts()
    }

    /// Whether it was made by a join, so that what it keeps may not be in the order of the steps.
    pub fn joined(&self) -> bool
        ensures { result ≡ self.now.held.joined }
    {
        self.joined
    }

    /// Returns the receipts that it keeps, each with its ticket.
    pub fn kept(&self) -> &[(Ticket, Answer)]
        ensures { result.now ≡ self.now.held.kept.receipts }
    {
        self.keep.kept()
    }

    /// Returns the heads of the calls that it keeps, each with its ticket.
    pub fn calls(&self) -> &[(Ticket, Head)]
        ensures { result.now ≡ self.now.held.kept.calls }
    {
        self.keep.calls()
    }

    /// Splits off a tally with one part, which has counted and kept nothing. What this one counted and
    /// keeps stays.
    pub fn split(&mut self) -> Tally<K, L>
        requires { 2 ≤ self.old.held.parts }
        ensures new { result.held ≡ fresh 1 }
        ensures left { self.new ≡ with_held self.old (record self.old.held { parts = self.old.held.parts - 1 }) }
    {
        Tally {
            alloc: self.alloc,
            joined: false,
            keep: K::empty(self.alloc),
            shares: self.shares.split(),
        }
    }

    /// Adds up two tallies. What the other one keeps comes after what this one keeps.
    ///
    /// # Errors
    /// Only if an allocation fails, and only of tallies that keep something; the fault has both tallies.
    pub fn join(self, other: Tally<K, L>) -> Result<Tally<K, L>, JoinFault<Tally<K, L>>>
        ensures parts { IfOk result (λ t. t.held.parts ≡ self.held.parts + other.held.parts) }
        ensures counts { IfOk result (λ t. t.held.counts ≡ plus self.held.counts other.held.counts) }
        ensures joined { IfOk result (λ t. t.held.joined ≡ true) }
        ensures kept { IfOk result
            (λ t. (between : Kept)
            × Steps K.notes self.held.kept other.held.kept.receipts between
            × Steps K.makes between other.held.kept.calls t.held.kept) }
        ensures back { IfErr result (HandsBack self.held other.held) }
        ensures refused { OnErr result (K.may_refuse ≡ true) }
    {
        let mut one = self;
        let most = other.kept().len().max(other.calls().len());
        if one.room(most).is_err() {
            return Err(JoinFault::OutOfMemory { one, other });
        }
        one.take_receipts(other.kept());
        one.take_calls(other.calls());
        one.absorb(other);
        Ok(one)
    }

    /// Takes over the shares of another tally, and drops what that one keeps.
    pub fn absorb(&mut self, other: Tally<K, L>)
        ensures { self.new ≡ with_held self.old (record {
          parts = self.old.held.parts + other.held.parts;
          joined = true;
          counts = plus self.old.held.counts other.held.counts;
          kept = self.old.held.kept;
        }) }
    {
        let Tally { shares, .. } = other;
        self.shares.merge(shares);
        self.joined = true;
    }

    /// Makes room for `n` more receipts and `n` more calls. What it holds stays the same.
    ///
    /// # Errors
    /// Only if an allocation fails, and only of one that keeps something.
    pub fn room(&mut self, n: usize) -> Result<(), AllocError>
        ensures same { self.new.held ≡ self.old.held }
        ensures refused { OnErr result (K.may_refuse ≡ true) }
        ensures ok { OnOk result ((n ≤ self.new.spare_notes) × (n ≤ self.new.spare_calls)) }
    {
        self.keep.room(n)
    }

    /// Notes an answer that was given. It needs room for one, and uses it up.
    pub fn note(&mut self, ticket: Ticket, answer: Answer)
        requires { 0 < self.old.spare_notes }
        ensures kept { K.notes self.old.held.kept ticket answer self.new.held.kept }
        ensures same { self.new.held ≡ record self.old.held { kept = self.new.held.kept } }
        ensures left { self.old.spare_notes ≤ self.new.spare_notes + 1 }
        ensures calls { self.old.spare_calls ≤ self.new.spare_calls }
    {
        self.keep.note(ticket, answer);
    }

    /// Notes a call that was made. It needs room for one, and uses it up.
    pub fn made(&mut self, ticket: Ticket, head: Head)
        requires { 0 < self.old.spare_calls }
        ensures kept { K.makes self.old.held.kept ticket head self.new.held.kept }
        ensures same { self.new.held ≡ record self.old.held { kept = self.new.held.kept } }
        ensures left { self.old.spare_calls ≤ self.new.spare_calls + 1 }
        ensures notes { self.old.spare_notes ≤ self.new.spare_notes }
    {
        self.keep.made(ticket, head);
    }

    /// Notes these receipts.
    fn take_receipts(&mut self, receipts: &[(Ticket, Answer)])
        requires { length receipts.now ≤ self.old.spare_notes }
        ensures kept { Steps K.notes self.old.held.kept receipts.now self.new.held.kept }
        ensures same { self.new.held ≡ record self.old.held { kept = self.new.held.kept } }
        ensures calls { self.old.spare_calls ≤ self.new.spare_calls }
    {
        for pair in receipts {
            self.note(pair.0, pair.1);
        }
    }

    /// Notes these calls.
    fn take_calls(&mut self, calls: &[(Ticket, Head)])
        requires { length calls.now ≤ self.old.spare_calls }
        ensures kept { Steps K.makes self.old.held.kept calls.now self.new.held.kept }
        ensures same { self.new.held ≡ record self.old.held { kept = self.new.held.kept } }
    {
        for pair in calls {
            self.made(pair.0, pair.1);
        }
    }
}
