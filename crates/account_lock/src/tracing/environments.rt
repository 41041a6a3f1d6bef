//! The environments of an account, as they are.

ghost use Rattle.std.specs.Prelude.{◌≡◌, IfOk};
ghost use Rattle.account_lock.specs.Shown.{Sees};
ghost use Rattle.trace.specs.EnvironmentObject.{environments_object, environments_text};

use crate::{Account, Bell, Identity};
use account_book::Book;
use std::alloc::{AllocError, Global};
use std::sync::Wait;
use trace::{Draft, Listing};
use usage_ledger::Token;

/// Drafts the object of the environments of a book, in the order of their numbers. It looks at no entry.
pub(crate) fn draft_environments(alloc: Global, book: &Book) -> Result<Draft, AllocError>
    ensures { IfOk result (λ object. object ≡ environments_object book.now.config book.now.salt book.now.history) }
{
    let mut listing = Listing::open(alloc, book.len())?;
    let config = book.config();
    for index in 0..config.environments() {
        let env = index + 1;
        listing.add(config, book.salt(), env, book.environment(env));
    }
    listing.finish()
}

impl<S: Identity, B: Bell> Account<S, B> {
    /// Returns the text of the environments in the history as it is, which the token has then seen: one JSON
    /// object with the number of the history's entries, and each environment's number, function, port, phase,
    /// extensions and parked polls; then a line feed. The object is drafted under the lock, and written after
    /// the lock is released.
    ///
    /// It fails only if an allocation fails.
    #[tactic(auto, unfolding(trace::specs::EnvironmentObject::environments_text))]
    pub fn environments(&self, rt: &impl Wait, token: &mut Token<S>) -> Result<Vec<u8>, AllocError>
        ensures seen { Sees S.config S.most token.old token.new }
        ensures text { IfOk result (λ text. text.items ≡ environments_text S.config S.salt token.new) }
    {
        let object = self.locked.lock(rt).environments(&self.spine, token);
        object?.finish()
    }
}
