//! The trace of an account's history, as it grows.

mod environments;
mod trail;

ghost use Rattle.std.specs.Prelude.{◌≡◌, true, is_some, IfOk, OnErr};
ghost use Rattle.account_book.specs.Books.{life};
ghost use Rattle.account_lock.specs.Shown.{Sees};
ghost use Rattle.account_lock.specs.Trails.{GoesOn, IsLineOf, is_off};

use crate::{Account, Bell, Identity};
pub(crate) use environments::draft_environments;
use script::Draft;
use std::alloc::{AllocError, Global};
use std::sync::Wait;
pub use trail::Trail;
use usage_ledger::Token;

impl<S: Identity, B: Bell> Account<S, B> {
    /// Returns a trail of the account's trace, which has followed no entry of the history as it is. This history
    /// continues what the token has seen.
    ///
    /// It fails only if an allocation fails.
    pub fn trail(
        &self,
        rt: &impl Wait,
        alloc: Global,
        token: &mut Token<S>,
    ) -> Result<Trail<S>, AllocError>
        ensures { IfOk result (λ trail. (trail.next ≡ 0) × Sees S.config S.most token.old trail.seen) }
    {
        let token = token.again(&self.spine);
        self.locked.lock(rt).trail(&self.spine, alloc, token)
    }

    /// Returns the trace's line of the entry that comes next on a trail, in the history as it is, which the
    /// trail has then seen: the entry's JSON object, with payloads, outputs and reports if `bodies`, and a
    /// line feed; `None` past the end. Under the lock the entry is followed; its line is made after the lock is
    /// released, and its bodies are written as it is taken.
    ///
    /// It fails only if an allocation fails. The trail has then passed the entry.
    pub fn trace(
        &self,
        rt: &impl Wait,
        trail: &mut Trail<S>,
        bodies: bool,
    ) -> Result<Option<Draft>, AllocError>
        ensures seen { Sees S.config S.most trail.old.seen trail.new.seen }
        ensures line { IfOk result (λ line. IsLineOf S.config S.salt bodies trail.old.next line trail.new.seen) }
        ensures next { IfOk result (λ line. GoesOn (is_some line) trail.old trail.new) }
        ensures passed { OnErr result (GoesOn true trail.old trail.new) }
    {
        let object = self.locked.lock(rt).trace(&self.spine, trail, bodies);
        let Some(object) = object? else {
            return Ok(None);
        };
        Ok(Some(object.line()?))
    }

    /// Lets a trail pass the entry that comes next, in the history as it is, which the trail has then seen.
    /// Returns false, and passes nothing, past the end.
    pub fn pass(&self, rt: &impl Wait, trail: &mut Trail<S>) -> bool
        ensures seen { Sees S.config S.most trail.old.seen trail.new.seen }
        ensures next { GoesOn result trail.old trail.new }
    {
        self.locked.lock(rt).pass(&self.spine, trail)
    }

    /// Returns whether the service is off, after a Stop and once every environment is shut down, in the history
    /// as it is, which the trail has then seen. The trail passes nothing.
    pub fn is_off(&self, rt: &impl Wait, trail: &mut Trail<S>) -> bool
        ensures seen { Sees S.config S.most trail.old.seen trail.new.seen }
        ensures value { result ≡ is_off (life S.config trail.new.seen) }
        ensures next { trail.new.next ≡ trail.old.next }
    {
        self.locked.lock(rt).is_off(&self.spine, trail)
    }
}
