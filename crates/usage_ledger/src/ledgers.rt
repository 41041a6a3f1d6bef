//! The four ledgers of an account and its history, named by one type.

use call_types::Entry;
use shared_history::{Naming, Opened};
use std::alloc::{AllocError, Global};
use std::marker::{Brand, Model, PhantomData};
use std::sync::ledger::{Blank, Ledger};

/// Names the ledgers and the history of one account in its types, so that those of two accounts cannot
/// be mixed. Each of the four ledgers has 2^32 parts.
pub trait Ledgers {
    ghost use Rattle.usage_ledger.specs.Ledgers.{Names};

    /// The names of the ledgers of the calls and of the admitted, throttled and failed invocations, and
    /// that of the history.
    ghost names: { Names };
}

/// If a caller names `Brand`, it picks the names in its proof; these are the names if none are picked.
impl Ledgers for Brand {
    ghost use Rattle.shared_history.specs.Sharing.{no_spine};
    ghost use Rattle.usage_ledger.specs.Ledgers.{names};

    ghost names = { names 0 0 0 0 no_spine };
}

/// The ledger of the calls.
pub(crate) struct Calls<L: Ledgers> {
    of: PhantomData<L>,
}

/// The ledger of the admitted invocations.
pub(crate) struct Admitted<L: Ledgers> {
    of: PhantomData<L>,
}

/// The ledger of the throttled invocations.
pub(crate) struct Throttled<L: Ledgers> {
    of: PhantomData<L>,
}

/// The ledger of the failed invocations.
pub(crate) struct Failed<L: Ledgers> {
    of: PhantomData<L>,
}

/// The history of the account.
pub struct History<L: Ledgers> {
    of: PhantomData<L>,
}

impl<L: Ledgers> Naming for History<L> {
    ghost spine = { L.names.spine };
}

/// What the threads of an account share beside its lock, so that all that they see is one history.
pub type Spine<L> = shared_history::Spine<Entry, History<L>>;

/// The token that writes the account's history. It is kept under the lock.
pub type Pen<L> = shared_history::Pen<Entry, History<L>>;

/// What a token has seen of the account's history, for as long as there is a reference to it.
pub type Anchor<L> = shared_history::Anchor<Entry, History<L>>;

/// A token that has seen a beginning of the account's history.
pub type Token<L> = shared_history::Token<Entry, History<L>>;

impl<L: Ledgers> Ledger for Calls<L> {
    ghost use Rattle.std.specs.Prelude.{◌^◌};

    ghost name = { L.names.calls };

    ghost parts = { 2 ^ 32 };
}

impl<L: Ledgers> Ledger for Admitted<L> {
    ghost use Rattle.std.specs.Prelude.{◌^◌};

    ghost name = { L.names.admitted };

    ghost parts = { 2 ^ 32 };
}

impl<L: Ledgers> Ledger for Throttled<L> {
    ghost use Rattle.std.specs.Prelude.{◌^◌};

    ghost name = { L.names.throttled };

    ghost parts = { 2 ^ 32 };
}

impl<L: Ledgers> Ledger for Failed<L> {
    ghost use Rattle.std.specs.Prelude.{◌^◌};

    ghost name = { L.names.failed };

    ghost parts = { 2 ^ 32 };
}

/// Four ledgers that no account has yet, of 2^32 parts each, and a history without an entry. Contracts
/// see their names.
#[derive(Drop)]
pub struct Blanks {
    pub(crate) calls: Blank,
    pub(crate) admitted: Blank,
    pub(crate) throttled: Blank,
    pub(crate) failed: Blank,
    pub(crate) history: Opened<Entry>,
}

impl Model for Blanks {
    ghost use Rattle.std.specs.Prelude.{◌≡◌, ◌^◌};
    ghost use Rattle.usage_ledger.specs.Ledgers.{Names, names};

    ghost Value = { Names };

    ghost view = { λ b. names b.calls.name b.admitted.name b.throttled.name b.failed.name b.history };

    ghost invariant = { λ b. (b.calls.parts ≡ 2 ^ 32) × (b.admitted.parts ≡ 2 ^ 32)
        × (b.throttled.parts ≡ 2 ^ 32) × (b.failed.parts ≡ 2 ^ 32) };
}

impl Blanks {
    /// Returns new ledgers and a new history, which no type names yet. It fails only if an allocation
    /// fails.
    pub fn new(alloc: Global) -> Result<Blanks, AllocError> {
        Ok(Blanks {
            calls: Blank::new(1 << 32),
            admitted: Blank::new(1 << 32),
            throttled: Blank::new(1 << 32),
            failed: Blank::new(1 << 32),
            history: Opened::new(alloc)?,
        })
    }
}
