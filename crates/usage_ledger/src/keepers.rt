//! The two ways to keep: everything and nothing.

use crate::Keep;
use call_types::{Answer, Head, Ticket};
use std::alloc::{AllocError, Global};

/// Keeps every receipt and every call.
#[derive(Drop)]
pub struct KeepAll {
    receipts: Vec<(Ticket, Answer)>,
    heads: Vec<(Ticket, Head)>,
}

impl Keep for KeepAll {
    ghost use Rattle.std.specs.Prelude.{◌≡◌, ◌-◌, true, vec_len, vec_capacity};
    ghost use Rattle.usage_ledger.specs.Keeping.{kept, with_receipt, with_call};

    ghost holds = { λ keep. kept keep.receipts.items keep.heads.items };

    ghost spare_notes = { λ keep. vec_capacity keep.receipts - vec_len keep.receipts };

    ghost spare_calls = { λ keep. vec_capacity keep.heads - vec_len keep.heads };

    ghost notes = { λ old ticket answer new. new ≡ with_receipt old ticket answer };

    ghost makes = { λ old ticket head new. new ≡ with_call old ticket head };

    ghost may_refuse = { true };

    ghost ALL = { true };

    const ALL: bool = true;

    fn empty(alloc: Global) -> KeepAll {
        KeepAll {
            receipts: Vec::new(alloc),
            heads: Vec::new(alloc),
        }
    }

    fn room(&mut self, n: usize) -> Result<(), AllocError> {
        self.receipts.reserve(n)?;
        self.heads.reserve(n)
    }

    fn note(&mut self, ticket: Ticket, answer: Answer) {
        self.receipts.push_reserved((ticket, answer));
    }

    fn made(&mut self, ticket: Ticket, head: Head) {
        self.heads.push_reserved((ticket, head));
    }

    fn kept(&self) -> &[(Ticket, Answer)] {
        &self.receipts
    }

    fn calls(&self) -> &[(Ticket, Head)] {
        &self.heads
    }
}

/// Keeps nothing: for a service that runs for a long time, and whose callers have their own
/// records.
#[derive(Drop)]
pub struct KeepNone;

impl Keep for KeepNone {
    ghost use Rattle.std.specs.Prelude.{◌≡◌, ◌^◌, false};
    ghost use Rattle.usage_ledger.specs.Keeping.{nothing};

    ghost holds = { λ keep. nothing };

    ghost spare_notes = { λ keep. 2 ^ 64 };

    ghost spare_calls = { λ keep. 2 ^ 64 };

    ghost notes = { λ old ticket answer new. new ≡ old };

    ghost makes = { λ old ticket head new. new ≡ old };

    ghost may_refuse = { false };

    ghost ALL = { false };

    const ALL: bool = false;

    fn empty(_alloc: Global) -> KeepNone {
        KeepNone
    }

    fn room(&mut self, _n: usize) -> Result<(), AllocError> {
        Ok(())
    }

    fn note(&mut self, _ticket: Ticket, _answer: Answer) {}

    fn made(&mut self, _ticket: Ticket, _head: Head) {}

    fn kept(&self) -> &[(Ticket, Answer)] {
        &[]
    }

    fn calls(&self) -> &[(Ticket, Head)] {
        &[]
    }
}
