//! What a tally keeps of its steps.

ghost use Rattle.std.specs.Prelude.{◌≡◌, ◌+◌, ◌<◌, ◌≤◌, ℕ, Bool, true, OnOk, OnErr};
ghost use Rattle.call_types.specs.declared.answer.Answer.{Answer as Given};
ghost use Rattle.call_types.specs.declared.head.Head.{Head as Made};
ghost use Rattle.usage_ledger.specs.Keeping.{Kept, nothing};

use call_types::{Answer, Head, Ticket};
use std::alloc::{AllocError, Global};

/// What a tally keeps: receipts, which are the answers that were given in its steps, and the heads of
/// the calls that were made by it, each with its ticket and in the order of the steps. Room for them is
/// made before a step, so noting one allocates nothing.
pub trait Keep: Drop {
    /// What is kept now.
    ghost holds: { Self → Kept };

    /// The number of further receipts for which it has room.
    ghost spare_notes: { Self → ℕ };

    /// The number of further calls for which it has room.
    ghost spare_calls: { Self → ℕ };

    /// How a note changes what is kept: what was kept, the ticket, its answer, what is kept then.
    ghost notes: { Kept → ℕ → Given → Kept → Type 0 };

    /// How a call changes what is kept: what was kept, the ticket, the call's head, what is kept then.
    ghost makes: { Kept → ℕ → Made → Kept → Type 0 };

    /// Whether room may be refused.
    ghost may_refuse: { Bool };

    /// The value of `ALL`, for contracts.
    ghost ALL: { Bool };

    /// Whether it claims to keep every receipt and every call. A settlement then looks for missing ones.
    const ALL: bool;

    /// Keeps nothing.
    fn empty(alloc: Global) -> Self
        ensures { holds result ≡ nothing };

    /// Makes room for `n` more receipts and `n` more calls. What is kept stays the same.
    ///
    /// # Errors
    /// Only if an allocation fails, and only of one that keeps something.
    fn room(&mut self, n: usize) -> Result<(), AllocError>
        ensures same { holds self.new ≡ holds self.old }
        ensures refused { OnErr result (may_refuse ≡ true) }
        ensures notes { OnOk result (n ≤ spare_notes self.new) }
        ensures calls { OnOk result (n ≤ spare_calls self.new) };

    /// Notes an answer that was given. It needs room for one, and uses it up.
    fn note(&mut self, ticket: Ticket, answer: Answer)
        requires { 0 < spare_notes self.old }
        ensures step { notes (holds self.old) ticket answer (holds self.new) }
        ensures left { spare_notes self.old ≤ spare_notes self.new + 1 }
        ensures calls { spare_calls self.old ≤ spare_calls self.new };

    /// Notes a call that was made. It needs room for one, and uses it up.
    fn made(&mut self, ticket: Ticket, head: Head)
        requires { 0 < spare_calls self.old }
        ensures step { makes (holds self.old) ticket head (holds self.new) }
        ensures left { spare_calls self.old ≤ spare_calls self.new + 1 }
        ensures notes { spare_notes self.old ≤ spare_notes self.new };

    /// Returns the receipts, in the order in which they were noted.
    fn kept(&self) -> &[(Ticket, Answer)]
        ensures { result.now ≡ (holds self.now).receipts };

    /// Returns the calls, in the order in which they were made.
    fn calls(&self) -> &[(Ticket, Head)]
        ensures { result.now ≡ (holds self.now).calls };
}
