//! A request that waits for a handler, as its requester has it.

ghost use Rattle.std.specs.Prelude.{◌≡◌};

use crate::claims::Claim;
use crate::posted::Given;
use futures::channel::oneshot::Receiver;

/// A request that waits for a handler: its identifier, which no other request has that was put at the same desk, and
/// what will be given for it. That is never, if the sender is dropped: once its handler has ended, or no handler comes
/// back.
#[derive(Drop)]
pub struct Put {
    /// The identifier.
    pub id: u64,
    /// What will be given.
    pub given: Receiver<Given>,
    // That the identifier is its own.
    pub(crate) claim: Claim,
    pub ghost own: { claim.id ≡ id },
}
